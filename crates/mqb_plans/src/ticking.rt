ghost use Rattle.std.specs.Prelude.{◌≡◌, ◌≤◌, IfSome, Some, length, option_map};
ghost use Rattle.mqb_entries.specs.SpelledEntries.{Fits, spelled};
ghost use Rattle.mqb_timeouts.specs.Work.{beside_of};
ghost use Rattle.mqb_model.specs.calls.Tick.{due_counts, tick};
ghost use Rattle.mqb_model.specs.declared.limits.TheConstants.{MAX_RECORD};
ghost use Rattle.mqb_model.specs.records.Reading.{record_in};
ghost use Rattle.mqb_model.specs.state.Valid.{IsValidState};
ghost use Rattle.mqb_plans.specs.Answers.{tick_plan};
ghost use Rattle.mqb_plans.specs.Plans.{CanWrite, ComesTo, KeepsStore, KeepsValid};

use crate::due::{durable_due, express_due};
use mqb_contents::Contents;
use mqb_entries::Entry;
use mqb_model::{Ticked, calls_keep_valid, calls_leave_store, records_are_read, records_fit};
use mqb_timeouts::ExpressWork;

/// What is due is to leave: durable messages by an entry, and then the express ones.
#[derive(Debug, Drop)]
pub struct Ticking {
    pub due: Ticked,
    pub moment: u32,
}

impl Ticking {
    /// The entry that is to be written, where a durable message is due.
    pub fn entry(&self) -> Option<Entry<'_>>
        ensures entry { option_map record_in result ≡
            option_map (λ r. Some r) (tick_plan self.now).written }
        ensures fits { IfSome result Fits }
        ensures size { IfSome result (λ e. length (spelled e) ≤ MAX_RECORD) }
    {
        if self.due.durable == 0 {
            return None;
        }
        Some(Entry::Ticked { now: self.moment })
    }

    /// What is to be done beside it.
    pub fn work(&self) -> ExpressWork
        ensures { beside_of result ≡ (tick_plan self.now).beside }
    {
        ExpressWork::Ticks { now: self.moment }
    }
}

fn due_counts(contents: &Contents, now: u32) -> Ticked
    requires { IsValidState contents.now.lists }
    ensures { result ≡ due_counts contents.now.lists now }
{
    Ticked {
        durable: durable_due(contents, now),
        express: express_due(contents, now),
    }
}

fn tick(contents: &Contents, now: u32) -> Ticking
    requires { IsValidState contents.now.lists }
    ensures { ComesTo contents.now.lists (λ m. tick m now) (tick_plan result) result.due }
{
    Ticking {
        due: due_counts(contents, now),
        moment: now,
    }
}

/// What is due at a moment is to leave. Each message that is kept is looked at once.
pub fn plan_tick(contents: &Contents, now: u32) -> Ticking
    requires { IsValidState contents.now.lists }
    ensures planned { ComesTo contents.now.lists (λ m. tick m now) (tick_plan result) result.due }
    ensures writable { CanWrite contents.now.lists (tick_plan result) }
    ensures stays_valid { KeepsValid contents.now.lists (tick_plan result) }
    ensures stays_stored { KeepsStore contents.now.lists (tick_plan result) }
{
    records_fit();
    records_are_read();
    calls_keep_valid();
    calls_leave_store();
    tick(contents, now)
}
