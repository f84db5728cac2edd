//! How one packet is delivered: that of a number.
ghost use Rattle.std.specs.Prelude.{◌≡◌, ◌≤◌, IfOk, List, None, length, map};
ghost use Rattle.mqb_deliveries.specs.Delivers.{WasDelivered, outcome_reply};
ghost use Rattle.mqb_deliveries.specs.Failing.{FailsAs, arrived, failures_at};
ghost use Rattle.mqb_moves.specs.Seats.{IsHeldOn};
ghost use Rattle.mqb_packet.specs.Plain.{plain_spelling};
ghost use Rattle.mqb_packet.specs.declared.packet.Packet.{Packet};
ghost use Rattle.mqb_posts.specs.Packets.{ArePackets, AreWritable};
ghost use Rattle.mqb_turns.specs.mqb_seats.Lasting.{Lasts};
ghost use Rattle.mqb_traffic.specs.Networks.{notes_of};
ghost use Rattle.mqb_turns.specs.Counts.{counts_with};
ghost use Rattle.mqb_world.specs.Sides.{network_in};

use mqb_base::Memory;
use mqb_outside::{Medium, Power};
use mqb_posts::packet_at;
use mqb_script::Which;
use mqb_traffic::Traffic;
use mqb_transcript::{Outcome, Reply};
use mqb_turns::{Seat, pass};

/// What became of a packet is the reply, where it was delivered alone.
pub(crate) fn outcome_reply(outcome: Outcome) -> Reply
    ensures { result ≡ outcome_reply outcome }
{
    match outcome {
        Outcome::Heard { heard, lines } => Reply::Heard { heard, lines },
        Outcome::Gone => Reply::Gone,
        Outcome::Stopped => Reply::Stopped,
        Outcome::Failed => Reply::Failed,
    }
}

/// The packet of a number is delivered, where there is one.
pub(crate) fn deliver<P: Power, M: Medium>(
    alpha: &mut Seat,
    beta: &mut Seat,
    traffic: &mut Traffic,
    first: &mut P,
    second: &mut P,
    medium: &M,
    k: u32,
    now: u32,
) -> Result<Option<Outcome>, Memory>
    requires number { 1 ≤ k }
    requires noted { length traffic.old.notes ≡ length (M.strings medium.now) }
    requires packets { ArePackets (M.strings medium.now) }
    requires alpha { IsHeldOn (P.view first.old) alpha.old }
    requires beta { IsHeldOn (P.view second.old) beta.old }
    ensures delivered { IfOk result (λ given. (packets : List Packet) → AreWritable packets →
        M.strings medium.now ≡ map plain_spelling packets →
        WasDelivered (network_in alpha.old beta.old traffic.old) (counts_with alpha.old beta.old)
        (network_in alpha.new beta.new traffic.new) (counts_with alpha.new beta.new)
        packets k now given) }
    ensures alpha { Lasts (P.view first.old) (P.view first.new) alpha.old alpha.new }
    ensures beta { Lasts (P.view second.old) (P.view second.new) beta.old beta.new }
    ensures alpha_faults { IfOk result (λ given. FailsAs
        (failures_at (notes_of traffic.old) 0 (arrived k given)) (P.is_stopped first.new)
        (P.view first.old).faults (P.view first.new).faults) }
    ensures beta_faults { IfOk result (λ given. FailsAs
        (failures_at (notes_of traffic.old) 1 (arrived k given)) (P.is_stopped second.new)
        (P.view second.old).faults (P.view second.new).faults) }
    ensures alpha_idle { traffic.old.link ≡ None → first.new ≡ first.old }
    ensures beta_idle { traffic.old.link ≡ None → second.new ≡ second.old }
    ensures alpha_switch { (P.view first.new).switch ≡ (P.view first.old).switch }
    ensures beta_switch { (P.view second.new).switch ≡ (P.view second.old).switch }
{
    let Some(sent) = traffic.note_at(k) else {
        return Ok(None);
    };
    if !traffic.is_underway(&sent) {
        return Ok(Some(Outcome::Gone));
    }
    let packet = packet_at(medium, k);
    match sent.sender {
        Which::Alpha => Ok(Some(pass(
            beta,
            alpha,
            traffic,
            Which::Beta,
            second,
            &sent,
            &packet,
            now,
        )?)),
        Which::Beta => Ok(Some(pass(
            alpha,
            beta,
            traffic,
            Which::Alpha,
            first,
            &sent,
            &packet,
            now,
        )?)),
    }
}
