//! Messages as a store has them.

ghost use Rattle.std.specs.Prelude.{◌≡◌, IfOk, IfSome, option_and_then};
ghost use Rattle.mqb_base.specs.Messages.{IsWellFormed};
ghost use Rattle.mqb_model.specs.records.Reading.{user_packet_of};
ghost use Rattle.mqb_snapshot.specs.Fields.{durably, is_carried, is_stored, message_at};
ghost use Rattle.mqb_snapshot.specs.Fields.{message_of, stored_in};
ghost use Rattle.mqb_read_back.specs.Answers.{Gives};

use crate::faults::BackFault;
use crate::fields::packet_field;
use mqb_base::{Delivery, Memory, Message};
use mqb_fields::Cursor;
use mqb_packet::{Headers, Packet, UserPacket, message_size, to_owned, view};
use mqb_snapshot::NOBODY;
use std::alloc::Global;

fn durably(transactional: bool) -> Delivery
    ensures { result ≡ durably transactional }
{
    if transactional {
        Delivery::Transactional
    } else {
        Delivery::Recoverable
    }
}

fn is_stored(user: &UserPacket) -> bool
    ensures { result ≡ is_stored user.now }
{
    matches!(user.message.delivery, Delivery::Recoverable)
        && user.tx.is_none()
        && user.session.is_none()
        && user.to == NOBODY
}

/// The message of a packet in which a store has one.
fn message_of(user: UserPacket, transactional: bool) -> Option<Message>
    requires { IsWellFormed user.message }
    ensures message { result ≡ message_of transactional user }
    ensures well_formed { IfSome result IsWellFormed }
{
    if !is_stored(&user) {
        return None;
    }
    let mut message = user.message;
    message.delivery = durably(transactional);
    Some(message)
}

fn user_packet_of(alloc: Global, bytes: &[u8]) -> Result<Option<UserPacket>, Memory>
    ensures user { IfOk result (λ user. user ≡ user_packet_of bytes.now) }
    ensures well_formed { IfOk result (λ user. IfSome user (λ p. IsWellFormed p.message)) }
{
    let Ok(view) = view(bytes) else {
        return Ok(None);
    };
    match to_owned(alloc, &view)? {
        Packet::User(user) => Ok(Some(user)),
        _ => Ok(None),
    }
}

/// The message that a store has in the bytes of a packet.
fn stored_in(alloc: Global, bytes: &[u8], transactional: bool) -> Result<Option<Message>, Memory>
    ensures message { IfOk result (λ message. message ≡ stored_in transactional bytes.now) }
    ensures well_formed { IfOk result (λ message. IfSome message IsWellFormed) }
{
    match user_packet_of(alloc, bytes)? {
        Some(user) => Ok(message_of(user, transactional)),
        None => Ok(None),
    }
}

/// Whether a message can be carried with these headers.
pub(crate) fn is_carried(message: &Message, beside: Headers) -> bool
    requires { IsWellFormed message.now }
    ensures { result ≡ is_carried beside message.now }
{
    message_size(message, beside).is_ok()
}

/// A packet in which a store has a message that can be carried with these headers.
#[tactic(auto, unfolding(mqb_snapshot::specs::Fields::message_at))]
pub(crate) fn message_field(
    alloc: Global,
    cursor: &mut Cursor<'_>,
    transactional: bool,
    beside: Headers,
) -> Result<Message, BackFault>
    ensures { Gives (message_at beside transactional) cursor.old cursor.new result }
{
    let at = cursor.at();
    let bytes = packet_field(cursor)?;
    match stored_in(alloc, bytes, transactional)? {
        Some(message) if is_carried(&message, beside) => Ok(message),
        _ => Err(BackFault::Bad { at }),
    }
}
