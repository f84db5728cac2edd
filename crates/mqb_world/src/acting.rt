//! The events of one manager with its disk, and those that call none.
ghost use Rattle.std.specs.Option.{option_map};
ghost use Rattle.std.specs.Prelude.{◌≡◌, Err, IfOk, None, false, is_some, length, true};
ghost use Rattle.mqb_deliveries.specs.Steps.{FallsShort};
ghost use Rattle.mqb_model.specs.managers.Manager.{is_down};
ghost use Rattle.mqb_moves.specs.Holding.{StaysStored};
ghost use Rattle.mqb_moves.specs.Seats.{IsHeldOn, seated};
ghost use Rattle.mqb_network.specs.Choices.{Well};
ghost use Rattle.mqb_posts.specs.Posting.{IsWithin};
ghost use Rattle.mqb_turns.specs.mqb_seats.mqb_replies.Requests.{seen_request};
ghost use Rattle.mqb_runs.specs.Events.{event_of};
ghost use Rattle.mqb_script.specs.Formed.{IsFormed};
ghost use Rattle.mqb_script.specs.declared.grammar.Grammar.TheVariants.{Pair};
ghost use Rattle.mqb_turns.specs.mqb_seats.Lasting.{Lasts};
ghost use Rattle.mqb_turns.specs.Sides.{network_at, side};
ghost use Rattle.mqb_turns.specs.Turns.{IsQuiet, IsTurn, answers_to};
ghost use Rattle.mqb_world.specs.Acting.{IsActed, IsCallOf, IsOf};
ghost use Rattle.mqb_world.specs.Disks.{StaysAsLeft, SwitchGoes, switching};
ghost use Rattle.mqb_runs.specs.Requests.{actor, request_of};

use mqb_base::Memory;
use mqb_outside::{Medium, Power};
use mqb_posts::PostFault;
use mqb_script::{Event, Which};
use mqb_traffic::Traffic;
use mqb_transcript::Reply;
use mqb_turns::{Request, Seat, ask, checkpoint, disconnect, drop_packet, pump, resend, restart};

/// The manager that acts in an event, or the first one where none does.
pub(crate) fn actor(event: &Event) -> u32
    ensures { result ≡ actor event.now }
{
    match event {
        Event::Queue { manager, .. } => *manager,
        Event::Commit { manager, .. } => *manager,
        Event::Send { manager, .. } => *manager,
        Event::Take { manager, .. } => *manager,
        Event::Purge { manager, .. } => *manager,
        Event::Tick { manager, .. } => *manager,
        Event::Resend { manager } => *manager,
        Event::Pump { manager, .. } => *manager,
        Event::Checkpoint { manager } => *manager,
        Event::Arm { manager, .. } => *manager,
        Event::Restart { manager, .. } => *manager,
        Event::Roll { manager, .. } => *manager,
        Event::Disconnect { manager } => *manager,
        _ => 0,
    }
}

/// The request that an event is, where it is one.
fn request_of(event: &Event) -> Option<Request<'_>>
    ensures { option_map seen_request result ≡ request_of event.now }
{
    match event {
        Event::Queue { manager: _, plan } => Some(Request::CreateQueue(plan)),
        Event::Commit {
            manager: _,
            now,
            ops,
        } => Some(Request::Commit {
            now: *now,
            ops: ops.as_slice(),
        }),
        Event::Send {
            manager: _,
            now,
            recoverable,
            draft,
        } => Some(Request::Send {
            now: *now,
            recoverable: *recoverable,
            draft,
        }),
        Event::Take {
            manager: _,
            now,
            place,
        } => Some(Request::Take { now: *now, place }),
        Event::Purge {
            manager: _,
            now,
            place,
        } => Some(Request::Purge { now: *now, place }),
        Event::Tick { manager: _, now } => Some(Request::Tick { now: *now }),
        Event::Roll { manager: _, count } => Some(Request::SetRoll(*count)),
        _ => None,
    }
}

/// An event that is a request of this manager.
fn call_own<P: Power>(
    own: &mut Seat,
    other: &mut Seat,
    traffic: &mut Traffic,
    which: Which,
    disk: &mut P,
    event: &Event,
) -> Result<Reply, Memory>
    requires formed { IsFormed Pair event.now }
    requires calls { IsCallOf which event.now }
    requires held { IsHeldOn (P.view disk.old) own.old }
    ensures turn { IfOk result (IsTurn which (side own.old other.old traffic.old)
        (side own.new other.new traffic.new) (P.view disk.old) (P.view disk.new)
        (P.is_stopped disk.new) (answers_to which (side own.old other.old traffic.old)
        (event_of event.now))) }
    ensures switch { (P.view disk.new).switch ≡ (P.view disk.old).switch }
    ensures lasts { Lasts (P.view disk.old) (P.view disk.new) own.old own.new }
    ensures beside { StaysStored other.old other.new }
{
    match request_of(event) {
        Some(request) => ask(own, other, traffic, which, disk, request),
        None => unreachable!(),
    }
}

/// An event of this manager alone, or of none.
pub(crate) fn act<P: Power, M: Medium>(
    own: &mut Seat,
    other: &mut Seat,
    traffic: &mut Traffic,
    which: Which,
    disk: &mut P,
    medium: &mut M,
    event: &Event,
) -> Result<Reply, PostFault>
    requires formed { IsFormed Pair event.now }
    requires acts { IsOf which event.now }
    requires held { IsHeldOn (P.view disk.old) own.old }
    requires within { IsWithin (M.strings medium.old) }
    requires noted { length traffic.old.notes ≡ length (M.strings medium.old) }
    requires up { is_some traffic.old.link ≡ true → is_down (seated own.old) ≡ false }
    ensures acted { IfOk result (IsActed which (side own.old other.old traffic.old)
        (side own.new other.new traffic.new) (P.view disk.old) (P.view disk.new)
        (P.is_stopped disk.new) event.now (M.strings medium.old) (M.strings medium.new)) }
    ensures short { FallsShort (network_at which (side own.old other.old traffic.old)) None
        (event_of event.now) (M.strings medium.old) (M.strings medium.new) result }
    ensures switch { SwitchGoes (switching which event.now) (P.armed disk.new)
        (P.view disk.old).switch (P.view disk.new).switch }
    ensures left { StaysAsLeft (switching which event.now) (P.view disk.new) }
    ensures lasts { Lasts (P.view disk.old) (P.view disk.new) own.old own.new }
    ensures beside { StaysStored other.old other.new }
    ensures full { result ≡ Err PostFault.NetFull
        → (P.view disk.new).faults ≡ (P.view disk.old).faults }
{
    match event {
        Event::Disconnect { manager: _ } => Ok(disconnect(own, other, traffic)),
        Event::Resend { manager: _ } => Ok(resend(own, other, traffic)),
        Event::Drop { packet } => Ok(drop_packet(own, other, traffic, *packet)),
        Event::Pump { manager: _, now } => pump(own, other, traffic, which, disk, medium, *now),
        Event::Arm {
            manager: _,
            call,
            mode,
        } => {
            own.arm(disk, *call, *mode);
            Ok(Reply::Armed)
        }
        Event::Restart { manager: _, pick } => {
            Ok(restart(own, other, traffic, which, disk, *pick)?)
        }
        Event::Checkpoint { manager: _ } => Ok(checkpoint(own, other, traffic, which, disk)?),
        _ => Ok(call_own(own, other, traffic, which, disk, event)?),
    }
}
