ghost use Rattle.std.specs.Prelude.{◌≡◌, ◌≤◌, IfErr, IfOk, IfSome, Some, length, option_map};
ghost use Rattle.mqb_entries.specs.SpelledEntries.{Fits, spelled};
ghost use Rattle.mqb_timeouts.specs.Work.{beside_of};
ghost use Rattle.mqb_model.specs.calls.Take.{take_message};
ghost use Rattle.mqb_model.specs.declared.limits.TheConstants.{MAX_RECORD};
ghost use Rattle.mqb_model.specs.records.Reading.{record_in};
ghost use Rattle.mqb_plans.specs.Answers.{take_plan};
ghost use Rattle.mqb_plans.specs.Plans.{CanWrite, ComesTo, KeepsStore, KeepsValid, RefusesTake};

use mqb_base::{EntryPlace, Lane, Message, Place};
use mqb_contents::Contents;
use mqb_entries::Entry;
use mqb_model::{TakeFault, calls_keep_valid, calls_leave_store, records_are_read, records_fit};
use mqb_rules::copy_at;
use mqb_timeouts::ExpressWork;

/// A message that is to be taken: a durable one by an entry, and an express one without.
#[derive(Debug, Drop)]
pub struct Taking {
    /// A copy, for the answer.
    pub message: Message,
    pub at: EntryPlace,
    pub lane: Lane,
    /// Where it stands among the messages of its lane.
    pub index: u32,
    pub moment: u32,
}

impl Taking {
    /// The entry that is to be written.
    pub fn entry(&self) -> Option<Entry<'_>>
        ensures entry { option_map record_in result ≡
            option_map (λ r. Some r) (take_plan self.now).written }
        ensures fits { IfSome result Fits }
        ensures size { IfSome result (λ e. length (spelled e) ≤ MAX_RECORD) }
    {
        match self.lane {
            Lane::Durable => Some(Entry::Taken {
                now: self.moment,
                place: self.at,
                id: self.message.id,
            }),
            Lane::Express => None,
        }
    }

    /// What is to be done beside it.
    pub fn work(&self) -> ExpressWork
        ensures { beside_of result ≡ (take_plan self.now).beside }
    {
        match self.lane {
            Lane::Durable => ExpressWork::Nothing,
            Lane::Express => ExpressWork::Takes {
                now: self.moment,
                at: self.at,
                index: self.index,
            },
        }
    }
}

fn take(contents: &Contents, place: &Place, now: u32) -> Result<Taking, TakeFault>
    ensures planned { IfOk result (λ t. ComesTo contents.now.lists
        (λ m. take_message m place.now now) (take_plan t) t.message) }
    ensures refused { IfErr result (RefusesTake contents.now.lists
        (λ m. take_message m place.now now)) }
{
    let queues = contents.queues();
    let Some(at) = queues.place(place) else {
        return Err(TakeFault::NoQueue);
    };
    let Some(first) = queues.first_position(at, now) else {
        return Err(TakeFault::QueueEmpty);
    };
    match copy_at(contents, first.lane, at, first.index)? {
        Some(message) => Ok(Taking {
            message,
            at,
            lane: first.lane,
            index: first.index,
            moment: now,
        }),
        None => Err(TakeFault::QueueEmpty),
    }
}

/// The first message of a place that is not due, of the greatest priority, is to be
/// taken. It is copied once.
pub fn plan_take(contents: &Contents, place: &Place, now: u32) -> Result<Taking, TakeFault>
    ensures planned { IfOk result (λ t. ComesTo contents.now.lists
        (λ m. take_message m place.now now) (take_plan t) t.message) }
    ensures refused { IfErr result (RefusesTake contents.now.lists
        (λ m. take_message m place.now now)) }
    ensures writable { IfOk result (λ t. CanWrite contents.now.lists (take_plan t)) }
    ensures stays_valid { IfOk result (λ t. KeepsValid contents.now.lists (take_plan t)) }
    ensures stays_stored { IfOk result (λ t. KeepsStore contents.now.lists (take_plan t)) }
{
    records_fit();
    records_are_read();
    calls_keep_valid();
    calls_leave_store();
    take(contents, place, now)
}
