ghost use Rattle.std.specs.Prelude.{◌≡◌, ◌&&◌, ◌<◌, ◌^◌, nat_le};
ghost use Rattle.mqb_queue.specs.First.{is_queue, is_free, is_wanted};
ghost use Rattle.mqb_queue.specs.Passes.{has_passed};

use crate::passes::Pass;
use mqb_base::{EntryPlace, Message, MessageId, is_due};

/// Which messages of a place are wanted: those that can be taken, and of these, where an identifier is given, those that have it.
#[derive(Clone, Copy, Debug)]
pub(crate) struct Choice {
    pub(crate) at: EntryPlace,
    pub(crate) moment: u32,
    pub(crate) id: Option<MessageId>,
}

fn is_queue(at: EntryPlace) -> bool
    ensures { result ≡ is_queue at }
{
    matches!(at, EntryPlace::Queue(_))
}

fn is_free(at: EntryPlace, now: u32, message: &Message) -> bool
    ensures { result ≡ is_free at now message.now }
{
    !(is_queue(at) && is_due(message.sent, message.life, now))
}

impl Choice {
    pub(crate) fn wants(&self, message: &Message) -> bool
        ensures { result ≡ is_wanted self.now.at self.now.moment self.now.id message.now }
    {
        match self.id {
            None => is_free(self.at, self.moment, message),
            Some(id) => is_free(self.at, self.moment, message) && message.id == id,
        }
    }

    /// It is wanted, and has at least this priority.
    pub(crate) fn wants_at_least(&self, message: &Message, priority: u8) -> bool
        ensures { result ≡ (is_wanted self.now.at self.now.moment self.now.id message.now &&
            nat_le priority message.now.priority) }
    {
        self.wants(message) && message.priority >= priority
    }

    /// No message is wanted that has ended by a pass.
    pub(crate) fn has_passed(&self, pass: Pass) -> bool
        ensures passed { result ≡ has_passed self.now.at self.now.moment pass }
        ensures few { self.now.moment < 2 ^ 32 }
    {
        let moment = self.moment;
        if is_queue(self.at) {
            pass.bound <= u64::from(moment) + 1
        } else {
            pass.bound == 0
        }
    }
}
