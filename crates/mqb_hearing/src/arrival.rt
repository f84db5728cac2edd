ghost use Rattle.std.specs.Prelude.{[], ◌&&◌, ◌==◌, ◌≡◌, ◌≤◌, IfSome, None, Some};
ghost use Rattle.std.specs.Prelude.{length, option_map};
ghost use Rattle.mqb_entries.specs.SpelledEntries.{Fits, spelled};
ghost use Rattle.mqb_model.specs.declared.limits.TheConstants.{MAX_RECORD};
ghost use Rattle.mqb_model.specs.records.Reading.{record_in};
ghost use Rattle.mqb_hearing.specs.Arrivals.{IsArrival, arrived_as, bytes_of_packet};

use mqb_entries::{ArrivedPart, Entry, Numbers};
use std::alloc::Global;
use std::marker::Model;

/// What arrived: the numbers of the messages that the peer has stored, and what the packet brings.
/// Contracts see the record that tells of it, or none where there is nothing to tell, and the
/// bytes of the packet.
#[derive(Debug, Drop)]
pub struct Arrival<'a> {
    moment: u32,
    released: Vec<u32>,
    part: ArrivedPart<'a>,
}

impl<'a> Model for Arrival<'a> {
    ghost use Rattle.mqb_hearing.specs.Arrivals.{Arrived, IsArrival, arrived_as};

    ghost Value = { Arrived };

    ghost view = { λ a. arrived_as a.moment a.released.items a.part };

    ghost invariant = { λ a. IsArrival a.released.items a.part };
}

fn again<'a>(part: &ArrivedPart<'a>) -> ArrivedPart<'a>
    ensures { result ≡ part.now }
{
    match part {
        ArrivedPart::Nothing => ArrivedPart::Nothing,
        ArrivedPart::Decided(packet) => ArrivedPart::Decided(packet.again()),
        ArrivedPart::Stored(packet) => ArrivedPart::Stored(packet.again()),
        ArrivedPart::OrderAcknowledged { ordinal, number } => ArrivedPart::OrderAcknowledged {
            ordinal: *ordinal,
            number: *number,
        },
        ArrivedPart::Final(packet) => ArrivedPart::Final(packet.again()),
    }
}

impl<'a> Arrival<'a> {
    pub(crate) fn new(now: u32, released: Vec<u32>, part: ArrivedPart<'a>) -> Arrival<'a>
        requires { IsArrival released.items part }
        ensures { result ≡ arrived_as now released.items part.entry }
    {
        Arrival {
            moment: now,
            released,
            part,
        }
    }

    /// Nothing arrived.
    pub(crate) fn nothing(alloc: Global, now: u32) -> Arrival<'a>
        ensures { result ≡ record { written = None; packet = [] } }
    {
        Arrival::new(now, Vec::new(alloc), ArrivedPart::Nothing)
    }

    /// The entry that is to be written.
    pub fn entry(&self) -> Option<Entry<'_>>
        ensures record { option_map record_in result ≡ option_map (λ r. Some r) self.now.written }
        ensures fits { IfSome result Fits }
        ensures packet { IfSome result (λ e. bytes_of_packet e ≡ self.now.packet) }
        ensures size { IfSome result (λ e. length (spelled e) ≤ MAX_RECORD) }
    {
        if self.released.is_empty() && matches!(self.part, ArrivedPart::Nothing) {
            return None;
        }
        Some(Entry::Arrived {
            now: self.moment,
            released: Numbers::of(self.released.as_slice()),
            part: again(&self.part),
        })
    }
}
