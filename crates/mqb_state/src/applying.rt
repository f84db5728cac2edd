ghost use Rattle.std.specs.Prelude.{◌≡◌, Err, IfOk, IsSomeAnd, OnErr, true};
ghost use Rattle.mqb_model.specs.records.Applying.{effect_of, fits};
ghost use Rattle.mqb_model.specs.records.Reading.{record_in};
ghost use Rattle.mqb_records.specs.Unfit.{IsUnfit};
ghost use Rattle.mqb_records.specs.mqb_arrivals.declared.faults.RecordFault.TheVariants as fault;

use crate::state::State;
use mqb_base::{Line, Roomed};
use mqb_entries::Entry;
use mqb_records::RecordFault;
use mqb_timeouts::ExpressWork;

impl State {
    /// Makes at once what an entry does, as a start from a store does it for each of its records.
    /// The answer is its lines of the ledger.
    ///
    /// # Errors
    /// `Unfit` where the entry does not fit the state, and `Memory`. The lists
    /// stay as they are then.
    pub fn apply(&mut self, entry: &Entry<'_>) -> Result<Roomed<Line>, RecordFault>
        ensures ok { IfOk result (λ lines. IsSomeAnd (record_in entry.now)
            (λ r. (fits self.old.lists r ≡ true) × (effect_of self.old.lists r ≡
            record { state = self.new.lists; lines = lines.items }))) }
        ensures refused { OnErr result (self.new.lists ≡ self.old.lists) }
        ensures unfit { result ≡ Err fault.Unfit → IsUnfit self.old.lists entry.now }
    {
        self.leaves_valid(entry);
        match self.attempt(Some(entry), ExpressWork::Nothing) {
            Ok(attempt) => Ok(attempt.into_lines()),
            Err(fault) => Err(fault),
        }
    }
}
