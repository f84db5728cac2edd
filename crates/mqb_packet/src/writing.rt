ghost use Rattle.std.specs.Prelude.{◌≡◌, ◌≢◌, ◌≤◌, ◌<◌, ◌+◌, ◌++◌, ◌↔◌, ◌^◌, Err, length};
ghost use Rattle.std.specs.Prelude.{replicate, IfOk, IsErr, IsOk, OnOk, OnErr};
ghost use Rattle.std.specs.Vec.{vec_capacity};
ghost use Rattle.mqb_base.specs.Messages.{IsWellFormed};
ghost use Rattle.mqb_heads.specs.Base.{plain_base};
ghost use Rattle.mqb_heads.specs.Properties.{FitsProps, plain_props, props_size};
ghost use Rattle.mqb_heads.specs.User.{FitsUser, plain_user, user_size};
ghost use Rattle.mqb_fields.specs.Writing.{Wrote};
ghost use Rattle.mqb_setup.specs.Internals.{plain_internal};
ghost use Rattle.mqb_packet.specs.declared.packet.Packet.TheVariants as packet;
ghost use Rattle.mqb_packet.specs.Plain.{IsWellFormedPacket, IsWellFormedUser, base_for};
ghost use Rattle.mqb_packet.specs.Plain.{carried_user, internal_base, message_size, packet_size};
ghost use Rattle.mqb_packet.specs.Plain.{size_with, plain_spelling, plain_user_packet};
ghost use Rattle.mqb_packet.specs.Plain.{session_or_none, session_size, tx_or_none};
ghost use Rattle.mqb_packet.specs.Plain.{tx_size, user_packet_size};

use crate::faults::{PutFault, TooLarge};
use crate::packet::{Carriage, Headers, Packet};
use mqb_base::{Guid, Message, SessionHead, TxHead, UNLIMITED};
use mqb_heads::{BaseHead, MAX_PACKET, props_len, put_base, put_props, put_tx, put_user, user_len};
use mqb_setup::{Internal, put_internal, put_session};
use std::alloc::AllocError;

/// The sizes of headers, in bytes.
const BASE_SIZE: usize = 16;

const TX_SIZE: usize = 20;

const SESSION_SIZE: usize = 16;

/// The sizes of internal packets, in bytes.
const ESTABLISH_SIZE: u32 = 572;

const PARAMETERS_SIZE: u32 = 32;

const ACK_SIZE: u32 = 36;

fn tx_len(head: &Option<TxHead>) -> usize
    ensures size { result ≡ tx_size head.now }
    ensures most { result ≤ TX_SIZE }
{
    if head.is_some() { TX_SIZE } else { 0 }
}

fn session_len(head: &Option<SessionHead>) -> usize
    ensures size { result ≡ session_size head.now }
    ensures most { result ≤ SESSION_SIZE }
{
    if head.is_some() { SESSION_SIZE } else { 0 }
}

/// How many bytes a message's packet has with so many bytes of a transaction header and
/// of a session header.
fn size_with(message: &Message, tx: usize, session: usize) -> Result<u32, TooLarge>
    requires message { IsWellFormed message.now }
    requires tx { tx ≤ TX_SIZE }
    requires session { session ≤ SESSION_SIZE }
    ensures size { IfOk result (λ size. size ≡ size_with message.now tx session) }
    ensures too_large { IsErr result ↔ (MAX_PACKET < size_with message.now tx session) }
{
    let most = MAX_PACKET as usize;
    if message.extension.as_slice().len() > most || message.body.as_slice().len() > most {
        return Err(TooLarge);
    }
    let size = BASE_SIZE + user_len(message) + tx + props_len(message) + session;
    if size > most {
        return Err(TooLarge);
    }
    Ok(size as u32)
}

/// How many bytes the plain spelling of a message's packet has with these
/// headers, without writing it.
pub fn message_size(message: &Message, headers: Headers) -> Result<u32, TooLarge>
    requires { IsWellFormed message.now }
    ensures size { IfOk result (λ size. size ≡ message_size headers message.now) }
    ensures too_large { IsErr result ↔ (MAX_PACKET < message_size headers message.now) }
{
    match headers {
        Headers::Bare => size_with(message, 0, 0),
        Headers::Session => size_with(message, 0, SESSION_SIZE),
        Headers::TxAndSession => size_with(message, TX_SIZE, SESSION_SIZE),
    }
}

fn user_size(message: &Message, carriage: &Carriage) -> Result<u32, TooLarge>
    requires { IsWellFormed message.now }
    ensures size { IfOk result (λ size. size ≡
        user_packet_size (carried_user message.now carriage.now)) }
    ensures too_large { IsErr result ↔ (MAX_PACKET <
        user_packet_size (carried_user message.now carriage.now)) }
{
    size_with(
        message,
        tx_len(&carriage.tx),
        session_len(&carriage.session),
    )
}

/// How many bytes the plain spelling of a packet has.
pub fn size_of(packet: &Packet) -> Result<u32, TooLarge>
    requires { IsWellFormedPacket packet.now }
    ensures size { IfOk result (λ size. size ≡ packet_size packet.now) }
    ensures too_large { IsErr result ↔ (MAX_PACKET < packet_size packet.now) }
{
    match packet {
        Packet::User(user) => user_size(&user.message, &user.carriage()),
        Packet::Establish(_) => Ok(ESTABLISH_SIZE),
        Packet::Parameters(_) => Ok(PARAMETERS_SIZE),
        Packet::Ack(_) => Ok(ACK_SIZE),
    }
}

fn put_user_behind(to: &mut [u8], at: usize, message: &Message, target: &Guid) -> usize
    requires message { FitsUser message.now }
    requires room { at + user_size message.now ≤ length to.old }
    ensures { Wrote to.old at (plain_user message.now target.now) to.new result }
{
    at + put_user(message, target, &mut to[at..])
}

fn put_props_behind(to: &mut [u8], at: usize, message: &Message) -> usize
    requires message { FitsProps message.now }
    requires room { at + props_size message.now ≤ length to.old }
    ensures { Wrote to.old at (plain_props message.now) to.new result }
{
    at + put_props(message, &mut to[at..])
}

fn put_tx_behind(to: &mut [u8], at: usize, head: &Option<TxHead>) -> usize
    requires { at + tx_size head.now ≤ length to.old }
    ensures { Wrote to.old at (tx_or_none head.now) to.new result }
{
    match head {
        Some(head) => at + put_tx(head, &mut to[at..]),
        None => at,
    }
}

fn put_session_behind(to: &mut [u8], at: usize, head: &Option<SessionHead>) -> usize
    requires { at + session_size head.now ≤ length to.old }
    ensures { Wrote to.old at (session_or_none head.now) to.new result }
{
    match head {
        Some(head) => at + put_session(head, &mut to[at..]),
        None => at,
    }
}

fn put_internal_behind(to: &mut [u8], at: usize, part: &Internal) -> usize
    requires { at + length (plain_internal part.now) ≤ length to.old }
    ensures { Wrote to.old at (plain_internal part.now) to.new result }
{
    at + put_internal(part, &mut to[at..])
}

fn base_for(message: &Message, carriage: &Carriage, size: u32) -> BaseHead
    requires { size ≡ user_packet_size (carried_user message.now carriage.now) }
    ensures { result ≡ base_for (carried_user message.now carriage.now) }
{
    BaseHead {
        priority: message.priority,
        internal: false,
        session: carriage.session.is_some(),
        size,
        reach: carriage.remaining,
    }
}

fn put_user_packet(message: &Message, carriage: &Carriage, size: u32, to: &mut [u8])
    requires message { IsWellFormed message.now }
    requires size { size ≡ user_packet_size (carried_user message.now carriage.now) }
    requires most { size ≤ MAX_PACKET }
    requires room { length to.old ≡ size }
    ensures { to.new ≡ plain_user_packet (carried_user message.now carriage.now) }
{
    let base = base_for(message, carriage, size);
    let head = put_base(&base, to);
    let tx = put_user_behind(to, head, message, &carriage.to);
    let props = put_tx_behind(to, tx, &carriage.tx);
    let session = put_props_behind(to, props, message);
    put_session_behind(to, session, &carriage.session);
}

fn put_internal_packet(part: &Internal, session: bool, size: u32, to: &mut [u8])
    requires size { size ≡ 16 + length (plain_internal part.now) }
    requires least { 20 ≤ size }
    requires most { size ≤ MAX_PACKET }
    requires room { length to.old ≡ size }
    ensures { to.new ≡ plain_base (internal_base session size) ++ plain_internal part.now }
{
    let base = BaseHead {
        priority: 0,
        internal: true,
        session,
        size,
        reach: UNLIMITED,
    };
    let head = put_base(&base, to);
    put_internal_behind(to, head, part);
}

fn write(packet: &Packet, size: u32, to: &mut [u8])
    requires packet { IsWellFormedPacket packet.now }
    requires size { size ≡ packet_size packet.now }
    requires most { size ≤ MAX_PACKET }
    requires room { length to.old ≡ size }
    ensures { to.new ≡ plain_spelling packet.now }
{
    match packet {
        Packet::User(user) => put_user_packet(&user.message, &user.carriage(), size, to),
        Packet::Establish(establish) => {
            put_internal_packet(&Internal::Establish(*establish), false, size, to)
        }
        Packet::Parameters(parameters) => {
            put_internal_packet(&Internal::Parameters(*parameters), false, size, to)
        }
        Packet::Ack(head) => put_internal_packet(&Internal::Ack(*head), true, size, to),
    }
}

/// Appends zeros, and tells where they start.
fn put_room(out: &mut Vec<u8>, size: u32) -> Result<usize, AllocError>
    ensures room { OnOk result (out.new.items ≡ out.old.items ++ replicate size 0) }
    ensures start { IfOk result (λ start. start ≡ length out.old.items) }
    ensures stays { OnErr result (out.new.items ≡ out.old.items) }
    ensures ready { length out.old.items + size ≤ vec_capacity out.old → IsOk result }
    ensures grown { vec_capacity out.old ≤ vec_capacity out.new }
{
    let start = out.len();
    out.resize(start + size as usize, 0)?;
    Ok(start)
}

/// Appends the plain spelling of a user packet whose message is lent. The message's own
/// time to reach its queue is not spelled: the packet has what is left of it. `out` is
/// unchanged on a refusal.
pub fn put_message(
    message: &Message,
    carriage: &Carriage,
    out: &mut Vec<u8>,
) -> Result<(), PutFault>
    requires { IsWellFormedUser (carried_user message.now carriage.now) }
    ensures put { OnOk result (out.new.items ≡
        out.old.items ++ plain_spelling (packet.User (carried_user message.now carriage.now))) }
    ensures stays { OnErr result (out.new.items ≡ out.old.items) }
    // Where there was room for its bytes, no memory is taken.
    ensures ready { length out.old.items + packet_size (packet.User
        (carried_user message.now carriage.now)) ≤ vec_capacity out.old
        → result ≢ Err PutFault.Memory }
    ensures grown { vec_capacity out.old ≤ vec_capacity out.new }
    ensures too_large { (result ≡ Err PutFault.TooLarge) ↔
        (MAX_PACKET < packet_size (packet.User (carried_user message.now carriage.now))) }
{
    let size = user_size(message, carriage)?;
    let start = put_room(out, size)?;
    put_user_packet(message, carriage, size, &mut out.as_mut_slice()[start..]);
    Ok(())
}

/// Appends the plain spelling of a packet.
pub fn put_packet(packet: &Packet, out: &mut Vec<u8>) -> Result<(), PutFault>
    requires { IsWellFormedPacket packet.now }
    ensures put { OnOk result (out.new.items ≡ out.old.items ++ plain_spelling packet.now) }
    ensures stays { OnErr result (out.new.items ≡ out.old.items) }
    ensures too_large { (result ≡ Err PutFault.TooLarge) ↔ (MAX_PACKET < packet_size packet.now) }
{
    let size = size_of(packet)?;
    let start = put_room(out, size)?;
    write(packet, size, &mut out.as_mut_slice()[start..]);
    Ok(())
}
