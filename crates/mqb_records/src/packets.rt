ghost use Rattle.std.specs.Prelude.{◌&&◌, ◌≡◌, not};
ghost use Rattle.mqb_base.specs.Messages.{IsWellFormed};
ghost use Rattle.mqb_base.specs.Same.{same_guid};
ghost use Rattle.mqb_model.specs.records.Packets.{is_own_packet, is_sendable, is_too_large};
ghost use Rattle.mqb_model.specs.rules.Numbers.{is_numbered};
ghost use Rattle.mqb_model.specs.state.Resolving.{guid_at, is_found, resolved};
ghost use Rattle.mqb_packet.specs.Plain.{IsWellFormedUser};

use mqb_base::Message;
use mqb_contents::Contents;
use mqb_model::{MAX_NUMBER, Target};
use mqb_packet::{Headers, UserPacket, message_size};
use mqb_rules::{guid_at, is_recoverable, resolved};

/// Whether a message is the manager's own of a number.
fn is_numbered(contents: &Contents, number: u32, message: &Message) -> bool
    ensures { result ≡ is_numbered contents.now.lists number message.now }
{
    message.id.qm == contents.identity().guid && message.id.number == number
}

fn is_found(target: Target) -> bool
    ensures { result ≡ is_found target }
{
    matches!(target, Target::Here(Some(_)) | Target::AtPeer(_))
}

/// Whether a packet goes to where its message's destination leads.
fn is_led(contents: &Contents, packet: &UserPacket) -> bool
    ensures { result ≡
        (is_found (resolved contents.now.lists packet.now.message.destination)
        && same_guid packet.now.to
        (guid_at contents.now.lists
        (resolved contents.now.lists packet.now.message.destination))) }
{
    let target = resolved(contents, &packet.message.destination);
    is_found(target) && packet.to == guid_at(contents, target)
}

fn is_own_packet(contents: &Contents, number: u32, packet: &UserPacket) -> bool
    ensures { result ≡ is_own_packet contents.now.lists number packet.now }
{
    is_numbered(contents, number, &packet.message)
        && number <= MAX_NUMBER
        && is_recoverable(packet.message.delivery)
        && packet.tx.is_none()
        && packet.session.is_none()
        && is_led(contents, packet)
}

fn fits_into_packet(headers: Headers, message: &Message) -> bool
    requires { IsWellFormed message.now }
    ensures { result ≡ not (is_too_large headers message.now) }
{
    message_size(message, headers).is_ok()
}

/// Whether a packet tells of the manager's own message of a number, which can be
/// sent with these headers.
pub(crate) fn is_sendable(
    contents: &Contents,
    headers: Headers,
    number: u32,
    packet: &UserPacket,
) -> bool
    requires { IsWellFormedUser packet.now }
    ensures { result ≡ is_sendable contents.now.lists headers number packet.now }
{
    is_own_packet(contents, number, packet) && fits_into_packet(headers, &packet.message)
}

/// Lets a packet go.
pub(crate) fn discard(_packet: UserPacket) {}
