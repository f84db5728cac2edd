//! The events that call no disk: the connection ends, rows begin anew, a packet is dropped.
ghost use Rattle.std.specs.Prelude.{◌≡◌, ◌≤◌, false, is_some, true};
ghost use Rattle.mqb_model.specs.managers.Manager.{is_down};
ghost use Rattle.mqb_seats.specs.Seats.{seated};
ghost use Rattle.mqb_network.specs.Choices.{Well};
ghost use Rattle.mqb_network.specs.Events as event;
ghost use Rattle.mqb_script.specs.declared.managers.Which.{Which};
ghost use Rattle.mqb_traffic.specs.Networks.{index_of};
ghost use Rattle.mqb_turns.specs.Turns.{IsQuiet, answers_to};
ghost use Rattle.mqb_turns.specs.Sides.{side};

use crate::between::part;
use mqb_seats::Seat;
use mqb_traffic::Traffic;
use mqb_transcript::Reply;

/// The connection ends, where one stands.
pub fn disconnect(own: &mut Seat, other: &mut Seat, traffic: &mut Traffic) -> Reply
    ensures { (which : Which) → IsQuiet which (side own.old other.old traffic.old)
        (side own.new other.new traffic.new) (answers_to which (side own.old other.old traffic.old)
        (event.Disconnect 0) Well) result }
{
    if !traffic.is_linked() {
        return Reply::Unlinked;
    }
    part(own, other, traffic);
    Reply::Disconnected
}

/// What the rows of a manager have is sent anew, where a connection stands.
pub fn resend(own: &mut Seat, other: &Seat, traffic: &Traffic) -> Reply
    requires { is_some traffic.now.link ≡ true → is_down (seated own.old) ≡ false }
    ensures { (which : Which) → IsQuiet which (side own.old other.now traffic.now)
        (side own.new other.now traffic.now) (answers_to which (side own.old other.now traffic.now)
        (event.Resend (index_of which)) Well) result }
{
    if !traffic.is_linked() {
        return Reply::Unlinked;
    }
    own.resend();
    Reply::Done
}

/// A packet goes nowhere any more, where there is one of this number.
pub fn drop_packet(own: &Seat, other: &Seat, traffic: &mut Traffic, k: u32) -> Reply
    requires { 1 ≤ k }
    ensures { (which : Which) → IsQuiet which (side own.now other.now traffic.old)
        (side own.now other.now traffic.new) (answers_to which (side own.now other.now traffic.old)
        (event.Drop k) Well) result }
{
    if traffic.drop_packet(k) {
        Reply::Dropped
    } else {
        Reply::NoPacket
    }
}
