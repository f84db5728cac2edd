ghost use Rattle.std.specs.Prelude.{◌&&◌, ◌==◌, ◌≡◌, None, Some, if◌then◌else◌, length};
ghost use Rattle.std.specs.Prelude.{not, option_copied};
ghost use Rattle.mqb_model.specs.state.Valid.{IsValidState};

use crate::store::Store;
use mqb_base::Line;
use mqb_journal::record_of_block;
use mqb_state::State;

/// What it has.
impl Store {
    /// The state, with what makes it valid.
    pub fn state(&self) -> &State
        ensures state { result.now.lists ≡ self.now.state }
        ensures valid { IsValidState self.now.state }
    {
        self.state.is_valid();
        &self.state
    }

    /// How many records there were since the store was formatted.
    pub fn lsn(&self) -> u64
        ensures { result ≡ self.now.journal.count }
    {
        self.journal.lsn()
    }

    /// Whether a write or a checkpoint has failed.
    pub fn is_down(&self) -> bool
        ensures { result ≡ self.now.journal.down }
    {
        self.journal.is_down()
    }

    /// The entry of a write that failed. Behind a checkpoint that failed there is none.
    pub fn doubt(&self) -> Option<&[u8]>
        ensures { option_copied result ≡ if self.now.journal.down
            && not (length self.now.entry == 0) then Some self.now.entry else None }
    {
        let entry = record_of_block(&self.block);
        if self.journal.is_down() && !entry.is_empty() {
            Some(entry)
        } else {
            None
        }
    }

    /// The lines of the last record.
    pub fn lines(&self) -> &[Line]
        ensures { result.now ≡ self.now.lines }
    {
        self.lines.as_slice()
    }
}
