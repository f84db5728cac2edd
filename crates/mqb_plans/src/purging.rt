ghost use Rattle.std.specs.Prelude.{◌≡◌, ◌≤◌, IfErr, IfOk, IfSome, Some, length, option_map};
ghost use Rattle.mqb_entries.specs.SpelledEntries.{Fits, spelled};
ghost use Rattle.mqb_timeouts.specs.Work.{beside_of};
ghost use Rattle.mqb_model.specs.calls.Purge.{purge};
ghost use Rattle.mqb_model.specs.declared.limits.TheConstants.{MAX_RECORD};
ghost use Rattle.mqb_model.specs.records.Reading.{record_in};
ghost use Rattle.mqb_plans.specs.Answers.{purge_plan};
ghost use Rattle.mqb_plans.specs.Plans.{CanWrite, ComesTo, KeepsStore, KeepsValid, Refuses};

use mqb_base::{EntryPlace, Lane, Place};
use mqb_contents::Contents;
use mqb_entries::Entry;
use mqb_model::{PurgeFault, calls_keep_valid, calls_leave_store, records_are_read, records_fit};
use mqb_timeouts::ExpressWork;

/// A place that is to be purged: its durable messages by an entry, and then the express ones.
#[derive(Debug, Drop)]
pub struct Purging {
    /// How many messages leave.
    pub count: u32,
    /// Whether one of them is durable.
    pub has_durable: bool,
    pub at: EntryPlace,
    pub moment: u32,
}

impl Purging {
    /// The entry that is to be written, where a durable message leaves.
    pub fn entry(&self) -> Option<Entry<'_>>
        ensures entry { option_map record_in result ≡
            option_map (λ r. Some r) (purge_plan self.now).written }
        ensures fits { IfSome result Fits }
        ensures size { IfSome result (λ e. length (spelled e) ≤ MAX_RECORD) }
    {
        if !self.has_durable {
            return None;
        }
        Some(Entry::Purged {
            now: self.moment,
            place: self.at,
        })
    }

    /// What is to be done beside it.
    pub fn work(&self) -> ExpressWork
        ensures { beside_of result ≡ (purge_plan self.now).beside }
    {
        ExpressWork::Purges {
            now: self.moment,
            at: self.at,
        }
    }
}

fn purge(contents: &Contents, place: &Place, now: u32) -> Result<Purging, PurgeFault>
    ensures planned { IfOk result (λ t. ComesTo contents.now.lists
        (λ m. purge m place.now now) (purge_plan t) t.count) }
    ensures refused { IfErr result (Refuses contents.now.lists (λ m. purge m place.now now)) }
{
    let queues = contents.queues();
    let Some(at) = queues.place(place) else {
        return Err(PurgeFault::NoQueue);
    };
    match queues.len_at(at) {
        Some(count) => Ok(Purging {
            count,
            has_durable: contents.count_at(at, Lane::Durable) > 0,
            at,
            moment: now,
        }),
        None => Err(PurgeFault::NoQueue),
    }
}

/// A place is to be purged. It takes no memory.
pub fn plan_purge(contents: &Contents, place: &Place, now: u32) -> Result<Purging, PurgeFault>
    ensures planned { IfOk result (λ t. ComesTo contents.now.lists
        (λ m. purge m place.now now) (purge_plan t) t.count) }
    ensures refused { IfErr result (Refuses contents.now.lists (λ m. purge m place.now now)) }
    ensures writable { IfOk result (λ t. CanWrite contents.now.lists (purge_plan t)) }
    ensures stays_valid { IfOk result (λ t. KeepsValid contents.now.lists (purge_plan t)) }
    ensures stays_stored { IfOk result (λ t. KeepsStore contents.now.lists (purge_plan t)) }
{
    records_fit();
    records_are_read();
    calls_keep_valid();
    calls_leave_store();
    purge(contents, place, now)
}
