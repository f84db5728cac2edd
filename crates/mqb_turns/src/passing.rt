//! How one packet is heard by its receiver, where it still can be.
ghost use Rattle.std.specs.Prelude.{◌≡◌, IfOk, Ok, Some};
ghost use Rattle.mqb_seats.specs.Holding.{StaysStored};
ghost use Rattle.mqb_seats.specs.Lasting.{Lasts};
ghost use Rattle.mqb_seats.specs.Seats.{IsHeldOn};
ghost use Rattle.mqb_network.specs.Delivering.{closes};
ghost use Rattle.mqb_packet.specs.Parts.{seen_packet};
ghost use Rattle.mqb_packet.specs.Spelled.{IsLent, packet_in};
ghost use Rattle.mqb_packet.specs.declared.packet.Packet.{Packet};
ghost use Rattle.mqb_script.specs.Managers as managers;
ghost use Rattle.mqb_seats.specs.Called.{failure_of};
ghost use Rattle.mqb_traffic.specs.Networks.{note_of};
ghost use Rattle.mqb_turns.specs.Passes.{IsPassed};
ghost use Rattle.mqb_turns.specs.Replies.{outcome_of};
ghost use Rattle.mqb_turns.specs.Sides.{side};
ghost use Rattle.mqb_network.specs.Replies as reply;

use crate::between::{note, part, part_where};
use mqb_base::{Heard, Memory};
use mqb_model::refusals_change_nothing;
use mqb_outside::Power;
use mqb_packet::PacketView;
use mqb_script::Which;
use mqb_seats::{Failure, Passed, Seat};
use mqb_traffic::{Note, Traffic};
use mqb_transcript::Outcome;

/// Whether a packet that is heard so ends the connection.
fn ends(heard: &Heard) -> bool
    ensures { result ≡ closes (Ok heard.now) }
{
    matches!(heard, Heard::Closed(_))
}

/// How the failure of the receiver's disk is told.
fn failed(how: Failure) -> Outcome
    ensures { result ≡ outcome_of (reply.Unheard (failure_of how)) }
{
    match how {
        Failure::Stopped => Outcome::Stopped,
        Failure::Failed => Outcome::Failed,
    }
}

/// A packet with this note is heard by its receiver, unless its connection ended or it was dropped.
pub fn pass<P: Power>(
    own: &mut Seat,
    other: &mut Seat,
    traffic: &mut Traffic,
    which: Which,
    disk: &mut P,
    sent: &Note,
    packet: &PacketView<'_>,
    now: u32,
) -> Result<Outcome, Memory>
    requires receiver { managers.other sent.now.sender ≡ which }
    requires held { IsHeldOn (P.view disk.old) own.old }
    requires lent { IsLent packet.now }
    ensures passed { IfOk result
        (λ given. (p : Packet) → packet_in (seen_packet packet.now) ≡ Some p
        → IsPassed which (side own.old other.old traffic.old) (side own.new other.new traffic.new)
        (P.view disk.old) (P.view disk.new) (P.is_stopped disk.new)
        (note_of sent.now) p now given) }
    ensures switch { (P.view disk.new).switch ≡ (P.view disk.old).switch }
    ensures lasts { Lasts (P.view disk.old) (P.view disk.new) own.old own.new }
    ensures beside { StaysStored other.old other.new }
{
    refusals_change_nothing();
    if !traffic.is_underway(sent) {
        return Ok(Outcome::Gone);
    }
    let passed = own.hear(disk, packet, now)?;
    match passed {
        Passed::Heard { heard, recorded } => {
            note(own, other, traffic, recorded)?;
            let lines = own.lines_where(recorded)?;
            part_where(ends(&heard), own, other, traffic);
            Ok(Outcome::Heard { heard, lines })
        }
        Passed::Gone => Ok(Outcome::Gone),
        Passed::Broke(how) => {
            part(own, other, traffic);
            Ok(failed(how))
        }
    }
}
