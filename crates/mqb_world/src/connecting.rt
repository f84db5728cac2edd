//! How two managers are connected: both are linked, and four packets set the session up.
ghost use Rattle.std.specs.Prelude.{[], ◌∷◌, ◌+◌, ◌<◌, ◌^◌, ◌≡◌, ◌≤◌, Err, IfOk, None, OnOk, false};
ghost use Rattle.std.specs.Prelude.{length, map};
ghost use Rattle.mqb_deliveries.specs.Courses.{ComesTo};
ghost use Rattle.mqb_deliveries.specs.Peers.{KnowEachOther};
ghost use Rattle.mqb_deliveries.specs.Steps.{FallsShort, IsShort, IsStep};
ghost use Rattle.mqb_model.specs.managers.Manager.{is_down};
ghost use Rattle.mqb_moves.specs.Holding.{StaysStored};
ghost use Rattle.mqb_moves.specs.Seats.{IsHeldOn, seated};
ghost use Rattle.mqb_network.specs.Choices.{Well};
ghost use Rattle.mqb_network.specs.Connecting as network;
ghost use Rattle.mqb_network.specs.Courses.{course_from};
ghost use Rattle.mqb_network.specs.Sending as sending;
ghost use Rattle.mqb_packet.specs.Plain.{plain_spelling};
ghost use Rattle.mqb_posts.specs.Packets.{ArePackets};
ghost use Rattle.mqb_posts.specs.Posting.{IsWithin};
ghost use Rattle.mqb_runs.specs.Events.{event_of};
ghost use Rattle.mqb_script.specs.Managers as managers;
ghost use Rattle.mqb_script.specs.declared.events.Event.TheVariants as event;
ghost use Rattle.mqb_turns.specs.mqb_seats.Lasting.{Lasts};
ghost use Rattle.mqb_traffic.specs.Networks.{index_of};
ghost use Rattle.mqb_turns.specs.Counts.{counts_with};
ghost use Rattle.mqb_turns.specs.Sides.{network_at, side};
ghost use Rattle.mqb_world.specs.Ordered.{IsOrdered};
ghost use Rattle.mqb_world.specs.Sides.{network_in, world};

use crate::flows::flow;
use mqb_model::Role;
use mqb_network::moves_are_events;
use mqb_outside::{Medium, Power};
use mqb_posts::PostFault;
use mqb_script::Which;
use mqb_traffic::Traffic;
use mqb_transcript::Reply;
use mqb_turns::Seat;

/// A manager asks the other one, which waits to be asked, and a connection begins.
fn link_pair(
    own: &mut Seat,
    other: &mut Seat,
    traffic: &mut Traffic,
    which: Which,
    own_window: u16,
    other_window: u16,
)
    requires own_up { is_down (seated own.old) ≡ false }
    requires other_up { is_down (seated other.old) ≡ false }
    requires own_window { 1 ≤ own_window }
    requires other_window { 1 ≤ other_window }
    requires peers { (seated own.old).state.peers ≡ (seated other.old).state.identity ∷ [] }
    requires none { traffic.old.link ≡ None }
    requires number { traffic.old.connected + 1 < 2 ^ 32 }
    ensures network { network_at which (side own.new other.new traffic.new)
        ≡ network.both_linked (index_of which) (index_of (managers.other which))
        own_window other_window (network_at which (side own.old other.old traffic.old)) }
    ensures own { StaysStored own.old own.new }
    ensures other { StaysStored other.old other.new }
{
    let _ = own.link(Role::Initiator { peer: 0 }, own_window);
    let _ = other.link(Role::Acceptor, other_window);
    traffic.begin(which);
}

/// Both are linked, and this one asks the other.
fn link_both(
    alpha: &mut Seat,
    beta: &mut Seat,
    traffic: &mut Traffic,
    which: Which,
    own_window: u16,
    other_window: u16,
)
    requires alpha_up { is_down (seated alpha.old) ≡ false }
    requires beta_up { is_down (seated beta.old) ≡ false }
    requires own_window { 1 ≤ own_window }
    requires other_window { 1 ≤ other_window }
    requires peers { KnowEachOther (seated alpha.old).state (seated beta.old).state }
    requires none { traffic.old.link ≡ None }
    requires number { traffic.old.connected + 1 < 2 ^ 32 }
    ensures network { network_in alpha.new beta.new traffic.new
        ≡ network.both_linked (index_of which) (index_of (managers.other which))
        own_window other_window
        (network_in alpha.old beta.old traffic.old) }
    ensures alpha { StaysStored alpha.old alpha.new }
    ensures beta { StaysStored beta.old beta.new }
{
    match which {
        Which::Alpha => link_pair(alpha, beta, traffic, Which::Alpha, own_window, other_window),
        Which::Beta => link_pair(beta, alpha, traffic, Which::Beta, own_window, other_window),
    }
}

/// A flow that writes no record, and behind which a connection stands.
fn flow_quietly<P: Power, M: Medium>(
    alpha: &mut Seat,
    beta: &mut Seat,
    traffic: &mut Traffic,
    which: Which,
    first: &mut P,
    second: &mut P,
    medium: &mut M,
    now: u32,
) -> Result<(), PostFault>
    requires noted { length traffic.old.notes ≡ length (M.strings medium.old) }
    requires packets { ArePackets (M.strings medium.old) }
    requires within { IsWithin (M.strings medium.old) }
    requires alpha { IsHeldOn (P.view first.old) alpha.old }
    requires beta { IsHeldOn (P.view second.old) beta.old }
    requires quiet { (sending.flow (index_of which) now Well
        (course_from (network_in alpha.old beta.old traffic.old))).after.written ≡ [] }
    requires stands { (sending.flow (index_of which) now Well
        (course_from (network_in alpha.old beta.old traffic.old))).after.network.connections ≡ []
        → ⊥ }
    ensures comes { OnOk result (ComesTo (sending.flow (index_of which) now Well
        (course_from (network_in alpha.old beta.old traffic.old))).after
        (counts_with alpha.old beta.old) (network_in alpha.new beta.new traffic.new)
        (counts_with alpha.new beta.new) (M.strings medium.old) (M.strings medium.new)) }
    ensures short { IsShort (map plain_spelling (sending.flow (index_of which) now Well
        (course_from (network_in alpha.old beta.old traffic.old))).after.sent)
        (M.strings medium.old) (M.strings medium.new) result }
    ensures noted { OnOk result (length traffic.new.notes ≡ length (M.strings medium.new)) }
    ensures alpha { Lasts (P.view first.old) (P.view first.new) alpha.old alpha.new }
    ensures beta { Lasts (P.view second.old) (P.view second.new) beta.old beta.new }
    ensures alpha_faults { OnOk result ((P.view first.new).faults ≡ (P.view first.old).faults) }
    ensures beta_faults { OnOk result ((P.view second.new).faults ≡ (P.view second.old).faults) }
    ensures alpha_full { result ≡ Err PostFault.NetFull
        → (P.view first.new).faults ≡ (P.view first.old).faults }
    ensures beta_full { result ≡ Err PostFault.NetFull
        → (P.view second.new).faults ≡ (P.view second.old).faults }
    ensures alpha_switch { (P.view first.new).switch ≡ (P.view first.old).switch }
    ensures beta_switch { (P.view second.new).switch ≡ (P.view second.old).switch }
{
    match flow(alpha, beta, traffic, which, first, second, medium, now) {
        Ok(_) => Ok(()),
        Err(fault) => Err(fault),
    }
}

/// Each of both in turn sends what it owes, and is heard.
fn exchange<P: Power, M: Medium>(
    alpha: &mut Seat,
    beta: &mut Seat,
    traffic: &mut Traffic,
    which: Which,
    first: &mut P,
    second: &mut P,
    medium: &mut M,
    now: u32,
) -> Result<(), PostFault>
    requires noted { length traffic.old.notes ≡ length (M.strings medium.old) }
    requires packets { ArePackets (M.strings medium.old) }
    requires within { IsWithin (M.strings medium.old) }
    requires alpha { IsHeldOn (P.view first.old) alpha.old }
    requires beta { IsHeldOn (P.view second.old) beta.old }
    requires quiet { (network.exchanged (index_of which) (index_of (managers.other which)) now
        (course_from (network_in alpha.old beta.old traffic.old))).written ≡ [] }
    requires stands { (network.exchanged (index_of which) (index_of (managers.other which)) now
        (course_from (network_in alpha.old beta.old traffic.old))).network.connections ≡ [] → ⊥ }
    ensures comes { OnOk result (ComesTo (network.exchanged (index_of which)
        (index_of (managers.other which)) now
        (course_from (network_in alpha.old beta.old traffic.old)))
        (counts_with alpha.old beta.old) (network_in alpha.new beta.new traffic.new)
        (counts_with alpha.new beta.new) (M.strings medium.old) (M.strings medium.new)) }
    ensures short { IsShort (map plain_spelling (network.exchanged (index_of which)
        (index_of (managers.other which)) now
        (course_from (network_in alpha.old beta.old traffic.old))).sent)
        (M.strings medium.old) (M.strings medium.new) result }
    ensures noted { OnOk result (length traffic.new.notes ≡ length (M.strings medium.new)) }
    ensures alpha { Lasts (P.view first.old) (P.view first.new) alpha.old alpha.new }
    ensures beta { Lasts (P.view second.old) (P.view second.new) beta.old beta.new }
    ensures alpha_faults { OnOk result ((P.view first.new).faults ≡ (P.view first.old).faults) }
    ensures beta_faults { OnOk result ((P.view second.new).faults ≡ (P.view second.old).faults) }
    ensures alpha_full { result ≡ Err PostFault.NetFull
        → (P.view first.new).faults ≡ (P.view first.old).faults }
    ensures beta_full { result ≡ Err PostFault.NetFull
        → (P.view second.new).faults ≡ (P.view second.old).faults }
    ensures alpha_switch { (P.view first.new).switch ≡ (P.view first.old).switch }
    ensures beta_switch { (P.view second.new).switch ≡ (P.view second.old).switch }
{
    moves_are_events();
    if let Err(fault) = flow_quietly(alpha, beta, traffic, which, first, second, medium, now) {
        return Err(fault);
    }
    flow_quietly(
        alpha,
        beta,
        traffic,
        which.other(),
        first,
        second,
        medium,
        now,
    )
}

/// Four packets set the session up.
fn set_up<P: Power, M: Medium>(
    alpha: &mut Seat,
    beta: &mut Seat,
    traffic: &mut Traffic,
    which: Which,
    first: &mut P,
    second: &mut P,
    medium: &mut M,
    now: u32,
) -> Result<(), PostFault>
    requires noted { length traffic.old.notes ≡ length (M.strings medium.old) }
    requires packets { ArePackets (M.strings medium.old) }
    requires within { IsWithin (M.strings medium.old) }
    requires alpha { IsHeldOn (P.view first.old) alpha.old }
    requires beta { IsHeldOn (P.view second.old) beta.old }
    requires quiet { (network.set_up (index_of which) (index_of (managers.other which)) now
        (course_from (network_in alpha.old beta.old traffic.old))).written ≡ [] }
    requires stands { (network.set_up (index_of which) (index_of (managers.other which)) now
        (course_from (network_in alpha.old beta.old traffic.old))).network.connections ≡ [] → ⊥ }
    ensures comes { OnOk result (ComesTo (network.set_up (index_of which)
        (index_of (managers.other which)) now
        (course_from (network_in alpha.old beta.old traffic.old)))
        (counts_with alpha.old beta.old) (network_in alpha.new beta.new traffic.new)
        (counts_with alpha.new beta.new) (M.strings medium.old) (M.strings medium.new)) }
    ensures short { IsShort (map plain_spelling (network.set_up (index_of which)
        (index_of (managers.other which)) now
        (course_from (network_in alpha.old beta.old traffic.old))).sent)
        (M.strings medium.old) (M.strings medium.new) result }
    ensures alpha { Lasts (P.view first.old) (P.view first.new) alpha.old alpha.new }
    ensures beta { Lasts (P.view second.old) (P.view second.new) beta.old beta.new }
    ensures alpha_faults { OnOk result ((P.view first.new).faults ≡ (P.view first.old).faults) }
    ensures beta_faults { OnOk result ((P.view second.new).faults ≡ (P.view second.old).faults) }
    ensures alpha_full { result ≡ Err PostFault.NetFull
        → (P.view first.new).faults ≡ (P.view first.old).faults }
    ensures beta_full { result ≡ Err PostFault.NetFull
        → (P.view second.new).faults ≡ (P.view second.old).faults }
    ensures alpha_switch { (P.view first.new).switch ≡ (P.view first.old).switch }
    ensures beta_switch { (P.view second.new).switch ≡ (P.view second.old).switch }
{
    moves_are_events();
    if let Err(fault) = exchange(alpha, beta, traffic, which, first, second, medium, now) {
        return Err(fault);
    }
    exchange(alpha, beta, traffic, which, first, second, medium, now)
}

/// Two managers are connected, where both are up and neither has a connection.
pub(crate) fn connect<P: Power, M: Medium>(
    alpha: &mut Seat,
    beta: &mut Seat,
    traffic: &mut Traffic,
    which: Which,
    first: &mut P,
    second: &mut P,
    medium: &mut M,
    now: u32,
    own_window: u16,
    other_window: u16,
) -> Result<Reply, PostFault>
    requires own_window { 1 ≤ own_window }
    requires other_window { 1 ≤ other_window }
    requires ordered { IsOrdered (world alpha.old beta.old traffic.old) (M.strings medium.old) }
    requires alpha { IsHeldOn (P.view first.old) alpha.old }
    requires beta { IsHeldOn (P.view second.old) beta.old }
    ensures step { IfOk result (IsStep (network_in alpha.old beta.old traffic.old)
        (counts_with alpha.old beta.old) None
        (event_of (event.Connect (index_of which) (index_of (managers.other which)) now
        own_window other_window))
        (network_in alpha.new beta.new traffic.new) (counts_with alpha.new beta.new)
        (M.strings medium.old) (M.strings medium.new)) }
    ensures short { FallsShort (network_in alpha.old beta.old traffic.old) None
        (event_of (event.Connect (index_of which) (index_of (managers.other which)) now
        own_window other_window))
        (M.strings medium.old) (M.strings medium.new) result }
    ensures alpha { Lasts (P.view first.old) (P.view first.new) alpha.old alpha.new }
    ensures beta { Lasts (P.view second.old) (P.view second.new) beta.old beta.new }
    ensures alpha_faults { OnOk result ((P.view first.new).faults ≡ (P.view first.old).faults) }
    ensures beta_faults { OnOk result ((P.view second.new).faults ≡ (P.view second.old).faults) }
    ensures alpha_full { result ≡ Err PostFault.NetFull
        → (P.view first.new).faults ≡ (P.view first.old).faults }
    ensures beta_full { result ≡ Err PostFault.NetFull
        → (P.view second.new).faults ≡ (P.view second.old).faults }
    ensures alpha_switch { (P.view first.new).switch ≡ (P.view first.old).switch }
    ensures beta_switch { (P.view second.new).switch ≡ (P.view second.old).switch }
{
    if alpha.is_down() || beta.is_down() {
        return Ok(Reply::Down);
    }
    if traffic.is_linked() {
        return Ok(Reply::Linked);
    }
    let before = traffic.count();
    link_both(alpha, beta, traffic, which, own_window, other_window);
    if let Err(fault) = set_up(alpha, beta, traffic, which, first, second, medium, now) {
        return Err(fault);
    }
    Ok(Reply::Connected {
        packets: [before + 1, before + 2, before + 3, before + 4],
    })
}
