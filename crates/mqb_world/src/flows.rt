//! How a flow goes: the packets of a manager, and each of them is delivered at once.
ghost use Rattle.std.specs.Prelude.{◌+◌, ◌≡◌, ◌<◌, ◌^◌, Err, IfOk, None, OnErr, OnOk, length};
ghost use Rattle.mqb_deliveries.specs.Failing.{FailsAs, failures_in};
ghost use Rattle.mqb_deliveries.specs.Steps.{FallsShort, IsStep};
ghost use Rattle.mqb_moves.specs.Seats.{IsHeldOn};
ghost use Rattle.mqb_network.specs.Events as event;
ghost use Rattle.mqb_posts.specs.Packets.{ArePackets};
ghost use Rattle.mqb_posts.specs.Posting.{IsWithin};
ghost use Rattle.mqb_turns.specs.mqb_seats.Lasting.{Lasts};
ghost use Rattle.mqb_traffic.specs.Networks.{index_of, notes_of};
ghost use Rattle.mqb_turns.specs.Counts.{counts_with};
ghost use Rattle.mqb_turns.specs.Sends.{ComesShort, pump_at};
ghost use Rattle.mqb_world.specs.Flowing.{Flows};
ghost use Rattle.mqb_world.specs.Sides.{AreUnlinked, SentBy, network_in, side_of, world};

use crate::deliveries::deliver;
use mqb_base::Memory;
use mqb_model::refusals_change_nothing;
use mqb_outside::{Medium, Power};
use mqb_posts::PostFault;
use mqb_script::Which;
use mqb_traffic::Traffic;
use mqb_transcript::{Arrival, Listed, Reply};
use mqb_turns::{Pumped, Seat, failure_reply, send_out};

/// The packets of a manager go.
fn send<P: Power, M: Medium>(
    alpha: &mut Seat,
    beta: &mut Seat,
    traffic: &mut Traffic,
    which: Which,
    first: &mut P,
    second: &mut P,
    medium: &mut M,
    now: u32,
) -> Result<Pumped, PostFault>
    requires alpha { IsHeldOn (P.view first.old) alpha.old }
    requires beta { IsHeldOn (P.view second.old) beta.old }
    requires within { IsWithin (M.strings medium.old) }
    requires few { length traffic.old.notes < 2 ^ 32 }
    ensures sent { IfOk result (SentBy which (world alpha.old beta.old traffic.old)
        (world alpha.new beta.new traffic.new) (P.view first.old) (P.view first.new)
        (P.view second.old) (P.view second.new) (P.is_stopped first.new)
        (P.is_stopped second.new) (M.strings medium.old) (M.strings medium.new) now) }
    ensures short { ComesShort (M.strings medium.old) (M.strings medium.new)
        (pump_at which (side_of (world alpha.old beta.old traffic.old) which) now) result }
    ensures alpha { Lasts (P.view first.old) (P.view first.new) alpha.old alpha.new }
    ensures beta { Lasts (P.view second.old) (P.view second.new) beta.old beta.new }
    ensures alpha_faults { OnErr result
        ((P.view first.new).faults ≡ (P.view first.old).faults) }
    ensures beta_faults { OnErr result
        ((P.view second.new).faults ≡ (P.view second.old).faults) }
    ensures alpha_switch { (P.view first.new).switch ≡ (P.view first.old).switch }
    ensures beta_switch { (P.view second.new).switch ≡ (P.view second.old).switch }
{
    match which {
        Which::Alpha => send_out(alpha, beta, traffic, Which::Alpha, first, medium, now),
        Which::Beta => send_out(beta, alpha, traffic, Which::Beta, second, medium, now),
    }
}

/// The last packets of all, so many behind those before, are delivered in turn.
fn deliver_all<P: Power, M: Medium>(
    alpha: &mut Seat,
    beta: &mut Seat,
    traffic: &mut Traffic,
    first: &mut P,
    second: &mut P,
    medium: &M,
    before: u32,
    count: u32,
    now: u32,
) -> Result<Listed<Arrival>, Memory>
    requires last { before + count ≡ length traffic.old.notes }
    requires noted { length traffic.old.notes ≡ length (M.strings medium.now) }
    requires packets { ArePackets (M.strings medium.now) }
    requires alpha { IsHeldOn (P.view first.old) alpha.old }
    requires beta { IsHeldOn (P.view second.old) beta.old }
    ensures flows { IfOk result (Flows (world alpha.old beta.old traffic.old)
        (world alpha.new beta.new traffic.new) (P.view first.old) (P.view first.new)
        (P.view second.old) (P.view second.new) (P.is_stopped first.new)
        (P.is_stopped second.new) (M.strings medium.now) now before count) }
    ensures alpha { Lasts (P.view first.old) (P.view first.new) alpha.old alpha.new }
    ensures beta { Lasts (P.view second.old) (P.view second.new) beta.old beta.new }
    ensures alpha_switch { (P.view first.new).switch ≡ (P.view first.old).switch }
    ensures beta_switch { (P.view second.new).switch ≡ (P.view second.old).switch }
{
    let mut arrivals = Listed::new(alpha.alloc());
    for i in 0..count {
        let packet = before + 1 + i;
        let Some(outcome) = deliver(alpha, beta, traffic, first, second, medium, packet, now)?
        else {
            unreachable!();
        };
        arrivals.push(Arrival { packet, outcome })?;
    }
    Ok(arrivals)
}

/// The event of a flow.
pub(crate) fn flow<P: Power, M: Medium>(
    alpha: &mut Seat,
    beta: &mut Seat,
    traffic: &mut Traffic,
    which: Which,
    first: &mut P,
    second: &mut P,
    medium: &mut M,
    now: u32,
) -> Result<Reply, PostFault>
    requires unlinked { AreUnlinked (world alpha.old beta.old traffic.old) }
    requires noted { length traffic.old.notes ≡ length (M.strings medium.old) }
    requires packets { ArePackets (M.strings medium.old) }
    requires within { IsWithin (M.strings medium.old) }
    requires alpha { IsHeldOn (P.view first.old) alpha.old }
    requires beta { IsHeldOn (P.view second.old) beta.old }
    ensures step { IfOk result (IsStep (network_in alpha.old beta.old traffic.old)
        (counts_with alpha.old beta.old) None (event.Flow (index_of which) now)
        (network_in alpha.new beta.new traffic.new) (counts_with alpha.new beta.new)
        (M.strings medium.old) (M.strings medium.new)) }
    ensures short { FallsShort (network_in alpha.old beta.old traffic.old) None
        (event.Flow (index_of which) now) (M.strings medium.old) (M.strings medium.new) result }
    ensures noted { OnOk result
        (length traffic.new.notes ≡ length (M.strings medium.new)) }
    ensures alpha { Lasts (P.view first.old) (P.view first.new) alpha.old alpha.new }
    ensures beta { Lasts (P.view second.old) (P.view second.new) beta.old beta.new }
    ensures alpha_faults { IfOk result (λ given. FailsAs
        (failures_in (notes_of traffic.new) (index_of which) 0 given)
        (P.is_stopped first.new) (P.view first.old).faults (P.view first.new).faults) }
    ensures beta_faults { IfOk result (λ given. FailsAs
        (failures_in (notes_of traffic.new) (index_of which) 1 given)
        (P.is_stopped second.new) (P.view second.old).faults (P.view second.new).faults) }
    ensures alpha_full { result ≡ Err PostFault.NetFull
        → (P.view first.new).faults ≡ (P.view first.old).faults }
    ensures beta_full { result ≡ Err PostFault.NetFull
        → (P.view second.new).faults ≡ (P.view second.old).faults }
    ensures alpha_switch { (P.view first.new).switch ≡ (P.view first.old).switch }
    ensures beta_switch { (P.view second.new).switch ≡ (P.view second.old).switch }
{
    refusals_change_nothing();
    let before = traffic.count();
    let pumped = match send(alpha, beta, traffic, which, first, second, medium, now) {
        Ok(pumped) => pumped,
        Err(fault) => return Err(fault),
    };
    match pumped {
        Pumped::Went { count, recorded: _ } => Ok(Reply::Flowed {
            arrivals: deliver_all(
                alpha, beta, traffic, first, second, medium, before, count, now,
            )?,
        }),
        Pumped::Refused(reply) => Ok(reply),
        Pumped::Broke(how) => Ok(failure_reply(how)),
    }
}
