ghost use Rattle.std.specs.Prelude.{◌≡◌, ◌*◌, ◌≤◌, Err, IfOk, IsSomeAnd, true};
ghost use Rattle.mqb_contents.specs.Changes.{AllReady, messages, messages_back};
ghost use Rattle.mqb_contents.specs.Changes.{redone, rooms_redone};
ghost use Rattle.mqb_contents.specs.Rooms.{IsGrown};
ghost use Rattle.mqb_model.specs.records.Applying.{effect_of, fits};
ghost use Rattle.mqb_model.specs.records.Counting.{named_count};
ghost use Rattle.mqb_model.specs.records.Reading.{record_in};
ghost use Rattle.mqb_model.specs.state.Valid.{IsValidState};
ghost use Rattle.mqb_records.specs.Unfit.{IsUnfit};
ghost use Rattle.mqb_records.specs.mqb_arrivals.declared.faults.RecordFault.TheVariants as fault;
ghost use Rattle.mqb_state.specs.Prepared.{IsPrepared, IsPreparedFrom};

use crate::attempt::Attempt;
use crate::prepared::Prepared;
use crate::state::State;
use mqb_base::Memory;
use mqb_drafts::{redo, turned};
use mqb_entries::Entry;
use mqb_records::RecordFault;
use mqb_timeouts::ExpressWork;

impl State {
    /// Tries what an entry does, and takes the memory for it. The lists stay as they are, also on a
    /// refusal; a refusal for want of memory keeps the room that was made.
    ///
    /// # Errors
    /// `Unfit` where the entry does not fit the state, and `Memory`.
    pub fn prepare(&mut self, entry: &Entry<'_>) -> Result<Prepared, RecordFault>
        ensures lists { self.new.lists ≡ self.old.lists }
        ensures grown { IsGrown self.old.rooms self.new.rooms }
        ensures ok { IfOk result (λ p. IsSomeAnd (record_in entry.now)
            (λ r. (fits self.old.lists r ≡ true) ×
            IsPrepared self.new p (effect_of self.old.lists r))) }
        ensures few { IfOk result (λ p. IsSomeAnd (record_in entry.now)
            (λ r. messages p.changes ≤ 3 * named_count self.old.lists r)) }
        ensures unfit { result ≡ Err fault.Unfit → IsUnfit self.old.lists entry.now }
    {
        self.is_valid();
        self.leaves_valid(entry);
        match self.attempt(Some(entry), ExpressWork::Nothing) {
            Ok(attempt) => Ok(self.turn(attempt)?),
            Err(fault) => Err(fault),
        }
    }

    // Takes an attempt back, and keeps what does it again. It is taken back also where there
    // is no memory for that.
    fn turn(&mut self, attempt: Attempt) -> Result<Prepared, Memory>
        requires ready { AllReady self.old attempt.back }
        requires valid { IsValidState (redone self.old.lists attempt.back) }
        ensures lists { self.new.lists ≡ redone self.old.lists attempt.back }
        ensures rooms { self.new.rooms ≡ rooms_redone self.old.rooms attempt.back }
        ensures from { IfOk result (λ p. IsPreparedFrom self.new p) }
        ensures again { IfOk result (λ p. redone self.new.lists p.changes ≡ self.old.lists) }
        ensures messages { IfOk result (λ p. messages p.changes ≡ messages_back attempt.back) }
        ensures lines { IfOk result (λ p. p.lines ≡ attempt.lines) }
    {
        let Attempt { back, lines } = attempt;
        let log = turned(&mut self.contents, back, self.alloc)?;
        Ok(Prepared { log, lines })
    }

    /// Makes what was prepared from this state as it stands. It takes no memory.
    pub fn install(&mut self, prepared: Prepared)
        requires { IsPreparedFrom self.old prepared }
        ensures lists { self.new.lists ≡ redone self.old.lists prepared.changes }
        ensures rooms { self.new.rooms ≡ rooms_redone self.old.rooms prepared.changes }
    {
        redo(&mut self.contents, prepared.log);
    }
}
