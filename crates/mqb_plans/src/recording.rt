ghost use Rattle.std.specs.Prelude.{◌≡◌, ◌≤◌, IfSome, None, Some, length, option_map};
ghost use Rattle.mqb_entries.specs.Packets.{CanTell, packet_of};
ghost use Rattle.mqb_entries.specs.SpelledEntries.{Fits, spelled};
ghost use Rattle.mqb_model.specs.declared.limits.TheConstants.{MAX_RECORD};
ghost use Rattle.mqb_model.specs.records.Reading.{record_in};
ghost use Rattle.mqb_model.specs.records.Record as entry;
ghost use Rattle.mqb_plans.specs.Sending.{sent_record};

use mqb_base::{Guid, Message};
use mqb_entries::{Entry, PacketSlice};
use mqb_model::told_is_read;
use mqb_packet::plain_size;
use std::marker::Model;

/// A message that a record tells of, and the manager to which it goes.
#[derive(Debug, Drop)]
struct Told {
    message: Message,
    to: Guid,
}

impl Told {
    /// The entry of its record.
    fn entry(&self, now: u32) -> Entry<'_>
        requires { CanTell self.now.message }
        ensures entry { record_in result ≡ Some (sent_record now self.now) }
        ensures fits { Fits result }
        ensures size { length (spelled result) ≤ MAX_RECORD }
    {
        told_is_read(&self.message, &self.to);
        plain_size();
        Entry::Plain {
            now,
            packet: PacketSlice::of_message(&self.message, self.to),
        }
    }
}

/// The record of a message that is sent, where it is recoverable: it is spelled where its entry is
/// put. Contracts see the record, or none.
#[derive(Debug, Drop)]
pub struct SentRecord {
    moment: u32,
    told: Option<Told>,
}

impl Model for SentRecord {
    ghost use Rattle.std.specs.Prelude.{IfSome, Option, option_map};
    ghost use Rattle.mqb_entries.specs.Packets.{CanTell};
    ghost use Rattle.mqb_model.specs.records.Record.{Record};
    ghost use Rattle.mqb_plans.specs.Sending.{sent_record};

    ghost Value = { Option Record };

    ghost view = { λ r. option_map (sent_record r.moment) r.told };

    ghost invariant = { λ r. IfSome r.told (λ t. CanTell t.message) };
}

impl SentRecord {
    /// An express message has no record.
    pub(crate) fn none(now: u32) -> SentRecord
        ensures { result ≡ None }
    {
        SentRecord {
            moment: now,
            told: None,
        }
    }

    /// The record of a message that goes to a manager.
    pub(crate) fn new(message: Message, to: Guid, now: u32) -> SentRecord
        requires { CanTell message }
        ensures { result ≡ Some (entry.Plain now (packet_of message to)) }
    {
        SentRecord {
            moment: now,
            told: Some(Told { message, to }),
        }
    }

    /// The entry that is to be written. Its message is lent.
    pub fn entry(&self) -> Option<Entry<'_>>
        ensures entry { option_map record_in result ≡ option_map (λ r. Some r) self.now }
        ensures fits { IfSome result Fits }
        ensures size { IfSome result (λ e. length (spelled e) ≤ MAX_RECORD) }
    {
        match &self.told {
            Some(told) => Some(told.entry(self.moment)),
            None => None,
        }
    }
}
