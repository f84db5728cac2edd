ghost use Rattle.std.specs.Prelude.{◌≡◌, IfOk, IfSome};
ghost use Rattle.mqb_entries.specs.Packets.{CanTell, told};
ghost use Rattle.mqb_model.specs.records.Reading.{user_packet_of};
ghost use Rattle.mqb_packet.specs.Plain.{IsWellFormedUser};
ghost use Rattle.mqb_packet.specs.Spelled.{IsLent};
ghost use Rattle.mqb_packet.specs.declared.lent.PacketView.TheVariants as lent;

use mqb_base::{Guid, Memory, Message};
use mqb_entries::{PacketForm, PacketSlice};
use mqb_model::told_is_read;
use mqb_packet::{Packet, PacketView, UserPacket, UserView, to_owned, view};
use std::alloc::Global;

/// The user packet that bytes spell, in whatever spelling.
fn read(alloc: Global, bytes: &[u8]) -> Result<Option<UserPacket>, Memory>
    ensures user { IfOk result (λ user. user ≡ user_packet_of bytes.now) }
    ensures well_formed { IfOk result (λ user. IfSome user IsWellFormedUser) }
{
    let Ok(view) = view(bytes) else {
        return Ok(None);
    };
    match to_owned(alloc, &view)? {
        Packet::User(user) => Ok(Some(user)),
        _ => Ok(None),
    }
}

/// The user packet of bytes that were read. They are not read again.
fn heard(alloc: Global, view: &UserView<'_>) -> Result<Option<UserPacket>, Memory>
    requires { IsLent (lent.User view.now) }
    ensures user { IfOk result (λ user. user ≡ user_packet_of view.now.whole.now) }
    ensures well_formed { IfOk result (λ user. IfSome user IsWellFormedUser) }
{
    match to_owned(alloc, &PacketView::User(*view))? {
        Packet::User(user) => Ok(Some(user)),
        _ => Ok(None),
    }
}

/// The user packet that tells of a message. Nothing is read, and the copy shares the body.
fn copied(message: &Message, to: Guid) -> Result<Option<UserPacket>, Memory>
    requires { CanTell message.now }
    ensures user { IfOk result (λ user. user ≡ user_packet_of (told message.now to)) }
    ensures well_formed { IfOk result (λ user. IfSome user IsWellFormedUser) }
{
    told_is_read(message, &to);
    Ok(Some(UserPacket {
        message: message.clone()?,
        to,
        remaining: message.reach,
        tx: None,
        session: None,
    }))
}

/// The user packet that a packet of an entry is, in whatever spelling. Only one that is given by
/// its bytes alone is read.
pub fn user_packet_of(alloc: Global, packet: &PacketSlice<'_>) -> Result<Option<UserPacket>, Memory>
    ensures user { IfOk result (λ user. user ≡ user_packet_of packet.now) }
    ensures well_formed { IfOk result (λ user. IfSome user IsWellFormedUser) }
{
    match packet.form() {
        PacketForm::Spelled(bytes) => read(alloc, bytes),
        PacketForm::Heard(view) => heard(alloc, view),
        PacketForm::Message { message, to, .. } => copied(message, *to),
    }
}
