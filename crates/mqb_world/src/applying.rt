//! The events of two managers.
ghost use Rattle.std.specs.Prelude.{◌≡◌, ◌≤◌, Err, IfOk, None};
ghost use Rattle.mqb_deliveries.specs.Steps.{FallsShort};
ghost use Rattle.mqb_moves.specs.Seats.{IsHeldOn};
ghost use Rattle.mqb_runs.specs.Events.{event_of};
ghost use Rattle.mqb_script.specs.Formed.{IsFormed};
ghost use Rattle.mqb_script.specs.declared.grammar.Grammar.TheVariants.{Pair};
ghost use Rattle.mqb_turns.specs.mqb_seats.Lasting.{Lasts};
ghost use Rattle.mqb_script.specs.declared.events.Event.TheVariants as event;
ghost use Rattle.mqb_world.specs.Acting.{Happens, HappensAmong, IsOf, ShortAmong};
ghost use Rattle.mqb_world.specs.Disks.{StaysAsLeft, SwitchGoes, switching};
ghost use Rattle.mqb_world.specs.Ordered.{IsOrdered};
ghost use Rattle.mqb_world.specs.Sides.{network_in, world};

use crate::acting::{act, actor};
use crate::connecting::connect;
use crate::deliveries::{deliver, outcome_reply};
use crate::flows::flow;
use mqb_base::Memory;
use mqb_outside::{Medium, Power};
use mqb_posts::PostFault;
use mqb_script::{Event, Which};
use mqb_traffic::Traffic;
use mqb_transcript::Reply;
use mqb_turns::Seat;

/// An event of one manager alone, or of none.
fn act_alone<P: Power, M: Medium>(
    alpha: &mut Seat,
    beta: &mut Seat,
    traffic: &mut Traffic,
    which: Which,
    event: &Event,
    first: &mut P,
    second: &mut P,
    medium: &mut M,
) -> Result<Reply, PostFault>
    requires formed { IsFormed Pair event.now }
    requires acts { IsOf which event.now }
    requires ordered { IsOrdered (world alpha.old beta.old traffic.old) (M.strings medium.old) }
    requires alpha { IsHeldOn (P.view first.old) alpha.old }
    requires beta { IsHeldOn (P.view second.old) beta.old }
    ensures happens { IfOk result (Happens (world alpha.old beta.old traffic.old)
        (world alpha.new beta.new traffic.new) None event.now
        (M.strings medium.old) (M.strings medium.new) (P.view first.old) (P.view first.new)
        (P.view second.old) (P.view second.new) (P.is_stopped first.new)
        (P.is_stopped second.new)) }
    ensures short { FallsShort (network_in alpha.old beta.old traffic.old) None (event_of event.now)
        (M.strings medium.old) (M.strings medium.new) result }
    ensures alpha_switch { SwitchGoes (switching Which.Alpha event.now) (P.armed first.new)
        (P.view first.old).switch (P.view first.new).switch }
    ensures beta_switch { SwitchGoes (switching Which.Beta event.now) (P.armed second.new)
        (P.view second.old).switch (P.view second.new).switch }
    ensures alpha_left { StaysAsLeft (switching Which.Alpha event.now) (P.view first.new) }
    ensures beta_left { StaysAsLeft (switching Which.Beta event.now) (P.view second.new) }
    ensures alpha { Lasts (P.view first.old) (P.view first.new) alpha.old alpha.new }
    ensures beta { Lasts (P.view second.old) (P.view second.new) beta.old beta.new }
    ensures alpha_full { result ≡ Err PostFault.NetFull
        → (P.view first.new).faults ≡ (P.view first.old).faults }
    ensures beta_full { result ≡ Err PostFault.NetFull
        → (P.view second.new).faults ≡ (P.view second.old).faults }
{
    match which {
        Which::Alpha => act(alpha, beta, traffic, Which::Alpha, first, medium, event),
        Which::Beta => act(beta, alpha, traffic, Which::Beta, second, medium, event),
    }
}

/// The packet of a number is delivered alone.
fn deliver_alone<P: Power, M: Medium>(
    alpha: &mut Seat,
    beta: &mut Seat,
    traffic: &mut Traffic,
    first: &mut P,
    second: &mut P,
    medium: &M,
    k: u32,
    now: u32,
) -> Result<Reply, Memory>
    requires number { 1 ≤ k }
    requires ordered { IsOrdered (world alpha.old beta.old traffic.old) (M.strings medium.now) }
    requires alpha { IsHeldOn (P.view first.old) alpha.old }
    requires beta { IsHeldOn (P.view second.old) beta.old }
    ensures happens { IfOk result (HappensAmong (world alpha.old beta.old traffic.old)
        (world alpha.new beta.new traffic.new) (event.Deliver k now)
        (M.strings medium.now) (M.strings medium.now) (P.view first.old) (P.view first.new)
        (P.view second.old) (P.view second.new) (P.is_stopped first.new)
        (P.is_stopped second.new)) }
    ensures alpha_switch { (P.view first.new).switch ≡ (P.view first.old).switch }
    ensures beta_switch { (P.view second.new).switch ≡ (P.view second.old).switch }
    ensures alpha { Lasts (P.view first.old) (P.view first.new) alpha.old alpha.new }
    ensures beta { Lasts (P.view second.old) (P.view second.new) beta.old beta.new }
{
    match deliver(alpha, beta, traffic, first, second, medium, k, now)? {
        None => Ok(Reply::NoPacket),
        Some(outcome) => Ok(outcome_reply(outcome)),
    }
}

/// One event.
pub(crate) fn proceed<P: Power, M: Medium>(
    alpha: &mut Seat,
    beta: &mut Seat,
    traffic: &mut Traffic,
    event: &Event,
    first: &mut P,
    second: &mut P,
    medium: &mut M,
) -> Result<Reply, PostFault>
    requires formed { IsFormed Pair event.now }
    requires ordered { IsOrdered (world alpha.old beta.old traffic.old) (M.strings medium.old) }
    requires alpha { IsHeldOn (P.view first.old) alpha.old }
    requires beta { IsHeldOn (P.view second.old) beta.old }
    ensures happens { IfOk result (HappensAmong (world alpha.old beta.old traffic.old)
        (world alpha.new beta.new traffic.new) event.now
        (M.strings medium.old) (M.strings medium.new) (P.view first.old) (P.view first.new)
        (P.view second.old) (P.view second.new) (P.is_stopped first.new)
        (P.is_stopped second.new)) }
    ensures short { ShortAmong (world alpha.old beta.old traffic.old) event.now
        (M.strings medium.old) (M.strings medium.new) result }
    ensures alpha_switch { SwitchGoes (switching Which.Alpha event.now) (P.armed first.new)
        (P.view first.old).switch (P.view first.new).switch }
    ensures beta_switch { SwitchGoes (switching Which.Beta event.now) (P.armed second.new)
        (P.view second.old).switch (P.view second.new).switch }
    ensures alpha_left { StaysAsLeft (switching Which.Alpha event.now) (P.view first.new) }
    ensures beta_left { StaysAsLeft (switching Which.Beta event.now) (P.view second.new) }
    ensures alpha { Lasts (P.view first.old) (P.view first.new) alpha.old alpha.new }
    ensures beta { Lasts (P.view second.old) (P.view second.new) beta.old beta.new }
    ensures alpha_full { result ≡ Err PostFault.NetFull
        → (P.view first.new).faults ≡ (P.view first.old).faults }
    ensures beta_full { result ≡ Err PostFault.NetFull
        → (P.view second.new).faults ≡ (P.view second.old).faults }
{
    match event {
        Event::Connect {
            initiator,
            acceptor: _,
            now,
            initiator_window,
            acceptor_window,
        } => connect(
            alpha,
            beta,
            traffic,
            Which::at(*initiator),
            first,
            second,
            medium,
            *now,
            *initiator_window,
            *acceptor_window,
        ),
        Event::Deliver { packet, now } => Ok(deliver_alone(
            alpha, beta, traffic, first, second, medium, *packet, *now,
        )?),
        Event::Flow { manager, now } => {
            let which = Which::at(*manager);
            flow(alpha, beta, traffic, which, first, second, medium, *now)
        }
        _ => act_alone(
            alpha,
            beta,
            traffic,
            Which::at(actor(event)),
            event,
            first,
            second,
            medium,
        ),
    }
}
