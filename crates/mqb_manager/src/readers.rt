ghost use Rattle.std.specs.Prelude.{◌&&◌, ◌==◌, ◌≡◌, None, Some, if◌then◌else◌, length, not, option_and_then, option_copied};
ghost use Rattle.mqb_manager.specs.States.{manager_of};
ghost use Rattle.mqb_model.specs.managers.Manager.{doubt_of, is_down};
ghost use Rattle.mqb_model.specs.managers.Readers.{is_outstanding, phase_of};
ghost use Rattle.mqb_model.specs.records.Reading.{record_of};

use crate::manager::Manager;
use mqb_base::Line;
use mqb_session::Phase;
use mqb_store::{State, any_awaits, has_plain, linked_peer};

/// What a manager tells of itself.
impl Manager {
    /// What it keeps.
    pub fn state(&self) -> &State
        ensures { result.now.lists ≡ self.now.store.state }
    {
        self.store.state()
    }

    /// How many records its store had since it was formatted.
    pub fn lsn(&self) -> u64
        ensures { result ≡ self.now.store.journal.count }
    {
        self.store.lsn()
    }

    /// The lines of the ledger that the last record added.
    pub fn lines(&self) -> &[Line]
        ensures { result.now ≡ self.now.store.lines }
    {
        self.store.lines()
    }

    /// Whether its disk has failed.
    pub fn is_down(&self) -> bool
        ensures { result ≡ is_down (manager_of self.now) }
    {
        self.store.is_down()
    }

    /// The entry that may have been written where the disk failed: none behind a checkpoint.
    #[tactic(auto, using(crate::proofs::Conditions::doubt_is))]
    pub fn doubt(&self) -> Option<&[u8]>
        ensures entry { option_copied result ≡ if self.now.store.journal.down
            && not (length self.now.store.entry == 0) then Some self.now.store.entry else None }
        ensures record { option_and_then record_of (option_copied result) ≡
            doubt_of (manager_of self.now).condition }
    {
        self.store.doubt()
    }

    /// How far the set-up of its session is, while it is linked.
    pub fn phase(&self) -> Option<Phase>
        ensures { result ≡ phase_of (manager_of self.now) }
    {
        match &self.session {
            Some(session) => Some(session.phase()),
            None => None,
        }
    }

    /// Whether something for the linked peer is not acknowledged yet.
    pub fn outstanding(&self) -> bool
        ensures { result ≡ is_outstanding (manager_of self.now) }
    {
        let Some(session) = &self.session else {
            return false;
        };
        let state = self.store.state();
        let peer = linked_peer(state, session);
        has_plain(state, peer) || any_awaits(state.out_rows(), peer)
    }
}
