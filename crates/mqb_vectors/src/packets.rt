ghost use Rattle.std.specs.Prelude.{IfOk, IfSome};
ghost use Rattle.mqb_packet.specs.Plain.{IsWellFormedPacket, IsWellFormedUser};
ghost use Rattle.mqb_packet.specs.Plain.{carriage_of, carried_user};

use crate::bytes::{bytes_of, put, put_again, put_fault, put_read, put_value};
use mqb_base::{Bytes, Failed, Memory, NameError};
use mqb_names::NameFault;
use mqb_packet::{
    Carriage, Headers, Packet, PutFault, UserPacket, message_size, put_message, put_packet,
    size_of, to_owned, view,
};
use std::alloc::Global;

/// Adds a packet, its size, and what is put for it.
fn put_whole(alloc: Global, packet: &Packet, bytes: &[u8], out: &mut Vec<u8>) -> Result<(), Memory>
    requires { IsWellFormedPacket packet.now }
{
    put_value(alloc, packet, out)?;
    put_read(alloc, &size_of(packet), out)?;
    let mut again = Vec::new(alloc);
    match put_packet(packet, &mut again) {
        Ok(()) => put_again(again.as_slice(), bytes, out),
        Err(fault) => put_fault(alloc, &fault, out),
    }
}

/// `packet BYTES`: the packet, its size, and what is put for it.
pub(crate) fn show_packet(alloc: Global, bytes: &[u8], out: &mut Vec<u8>) -> Result<(), Memory> {
    match view(bytes) {
        Ok(view) => put_whole(alloc, &to_owned(alloc, &view)?, bytes, out),
        Err(fault) => put_fault(alloc, &fault, out),
    }
}

/// `view BYTES`: the packet with its parts as they are lent.
pub(crate) fn show_view(alloc: Global, bytes: &[u8], out: &mut Vec<u8>) -> Result<(), Memory> {
    put_read(alloc, &view(bytes), out)
}

/// The user packet that bytes spell, where they spell one.
pub(crate) fn user_packet(alloc: Global, bytes: &[u8]) -> Result<Option<UserPacket>, Memory>
    ensures { IfOk result (λ user. IfSome user (λ user. IsWellFormedUser user)) }
{
    let Ok(view) = view(bytes) else {
        return Ok(None);
    };
    match to_owned(alloc, &view)? {
        Packet::User(user) => Ok(Some(user)),
        _ => Ok(None),
    }
}

/// Adds the sizes of a message.
fn put_sizes(alloc: Global, user: &UserPacket, out: &mut Vec<u8>) -> Result<(), Memory>
    requires { IsWellFormedUser user.now }
{
    let message = &user.message;
    put_read(alloc, &message_size(message, Headers::Bare), out)?;
    put_read(alloc, &message_size(message, Headers::Session), out)?;
    put_read(alloc, &message_size(message, Headers::TxAndSession), out)
}

/// Adds the size of a packet, whether it is put, and how many bytes are put.
fn put_count(alloc: Global, packet: &Packet, out: &mut Vec<u8>) -> Result<(), Memory>
    requires { IsWellFormedPacket packet.now }
{
    put_read(alloc, &size_of(packet), out)?;
    let mut again = Vec::new(alloc);
    put_read(alloc, &put_packet(packet, &mut again), out)?;
    put_value(alloc, &again.len(), out)
}

/// Gives a packet another body.
fn change_body(user: &mut UserPacket, body: Bytes)
    requires { IsWellFormedUser user.old }
    ensures { IsWellFormedUser user.new }
{
    user.message.body = body;
}

/// Adds the sizes of the message of a packet, and of the packet.
fn put_all_sizes(alloc: Global, user: UserPacket, out: &mut Vec<u8>) -> Result<(), Memory>
    requires { IsWellFormedUser user }
{
    put_sizes(alloc, &user, out)?;
    put_count(alloc, &Packet::User(user), out)
}

/// `body BODY; BYTES`: the sizes of the message of a user packet, with another
/// body, and of the packet.
pub(crate) fn show_body(alloc: Global, text: &str, out: &mut Vec<u8>) -> Result<(), Memory> {
    let (body, digits) = text.split_once("; ").unwrap_or((text, ""));
    let bytes = bytes_of(alloc, digits)?;
    let body = Bytes::from_slice(alloc, bytes_of(alloc, body)?.as_slice())?;
    match user_packet(alloc, bytes.as_slice())? {
        Some(mut user) => {
            change_body(&mut user, body);
            put_all_sizes(alloc, user, out)
        }
        None => put(b"no user packet", out),
    }
}

/// Adds what is put for a message with the time that its packet has left.
fn put_lent(alloc: Global, user: &UserPacket, bytes: &[u8], out: &mut Vec<u8>) -> Result<(), Memory>
    requires { IsWellFormedUser (carried_user user.now.message (carriage_of user.now)) }
{
    let carriage = Carriage {
        to: user.to,
        remaining: user.remaining,
        tx: user.tx,
        session: user.session,
    };
    let mut again = Vec::new(alloc);
    let put = put_message(&user.message, &carriage, &mut again);
    put_read(alloc, &put, out)?;
    put_again(again.as_slice(), bytes, out)
}

/// `lent BYTES`: what is put for the message of a user packet that has ten
/// seconds to reach its queue.
pub(crate) fn show_lent(alloc: Global, bytes: &[u8], out: &mut Vec<u8>) -> Result<(), Memory> {
    match user_packet(alloc, bytes)? {
        Some(mut user) => {
            user.message.reach = 10;
            put_lent(alloc, &user, bytes, out)
        }
        None => put(b"no user packet", out),
    }
}

/// `memory`: the texts of the faults that no line brings about.
pub(crate) fn show_memory(alloc: Global, out: &mut Vec<u8>) -> Result<(), Memory> {
    put_fault(alloc, &Memory, out)?;
    put_fault(alloc, &NameError::Memory, out)?;
    put_fault(alloc, &NameFault::Memory, out)?;
    put_fault(alloc, &PutFault::Memory, out)?;
    put_fault(alloc, &Failed, out)
}
