ghost use Rattle.std.specs.Prelude.{◌≡◌, ◌<◌, IfOk, OnOk};
ghost use Rattle.mqb_base.specs.declared.heads.SessionHead.{SessionHead};
ghost use Rattle.mqb_base.specs.declared.message.Lane.TheVariants.{Durable, Express};
ghost use Rattle.mqb_plain.specs.Plain.{MaySend, no_plain, pushed};

use crate::samples::{SAMPLE, Sample, message, taken};
use mqb_base::{Delivery, Lane, Memory, Message, SessionHead};
use mqb_plain::PlainOut;
use std::alloc::Global;
use std::test::Fail;

fn head(user: u16, recoverable: u16) -> SessionHead
    ensures user { result.user ≡ user }
    ensures recoverable { result.recoverable ≡ recoverable }
{
    SessionHead {
        ack: 0,
        stored: 0,
        stored_flags: 0,
        user,
        recoverable,
        window: 64,
    }
}

fn sample(alloc: Global, delivery: Delivery, number: u32) -> Result<Message, Memory> {
    let sample = Sample {
        number,
        delivery,
        ..SAMPLE
    };
    message(alloc, &sample)
}

fn push_recoverable(plain: &mut PlainOut, message: Message) -> Result<(), Memory>
    ensures { OnOk result (plain.new.lists ≡ pushed Durable message plain.old.lists) }
{
    match plain.push_recoverable(message) {
        Ok(()) => Ok(()),
        Err((_, memory)) => Err(memory),
    }
}

fn push_express(plain: &mut PlainOut, message: Message) -> Result<(), Memory>
    ensures { OnOk result (plain.new.lists ≡ pushed Express message plain.old.lists) }
{
    match plain.push_express(message) {
        Ok(()) => Ok(()),
        Err((_, memory)) => Err(memory),
    }
}

/// The recoverable message 1 waits.
fn add_recoverable(plain: &mut PlainOut, alloc: Global) -> Result<(), Memory>
    requires { plain.old.lists ≡ no_plain }
    ensures { OnOk result ((head : SessionHead) → 0 < head.recoverable →
        MaySend plain.new.lists head) }
{
    plain.reserve(1, 1)?;
    let message = sample(alloc, Delivery::Recoverable, 1)?;
    push_recoverable(plain, message)
}

/// The express message 0x80000000 waits.
fn add_express(plain: &mut PlainOut, alloc: Global) -> Result<(), Memory>
    requires { plain.old.lists ≡ no_plain }
    ensures { OnOk result ((head : SessionHead) → 0 < head.user → MaySend plain.new.lists head) }
{
    let message = sample(alloc, Delivery::Express, 0x8000_0000)?;
    push_express(plain, message)
}

fn number_of(message: Option<&Message>) -> u32 {
    match message {
        Some(message) => message.id.number,
        None => 0,
    }
}

fn take_recoverable(plain: &mut PlainOut) -> u32 {
    if plain.recoverable().is_empty() {
        return 0;
    }
    taken(plain.remove_recoverable(0))
}

fn take_express(plain: &mut PlainOut) -> u32 {
    if plain.express().is_empty() {
        return 0;
    }
    taken(plain.remove_express(0))
}

/// The number of the recoverable message 1 that is the first one to send. Then it is sent.
fn send_recoverable(plain: &mut PlainOut, alloc: Global) -> Result<u32, Memory>
    requires { plain.old.lists ≡ no_plain }
{
    add_recoverable(plain, alloc)?;
    let first = number_of(plain.unsent());
    plain.mark_sent(&head(5, 1));
    Ok(first)
}

/// Whether nothing is to be sent any more, and the message bears the mark 1.
fn is_marked(plain: &PlainOut) -> bool {
    let is_sent = plain.unsent().is_none();
    let is_one = plain.marks(Lane::Durable) == [1].as_slice();
    is_sent && is_one
}

/// How many messages are released where the peer has stored none, where it has stored nine, and
/// where it has once no message has a mark. Then the first one to send, and what is taken out.
fn released_and_taken(plain: &mut PlainOut) -> [u32; 5] {
    let none = plain.released_by(0);
    let one = plain.released_by(9);
    plain.restart_marks();
    let unmarked = plain.released_by(9);
    let first = number_of(plain.unsent());
    let taken = take_recoverable(plain);
    [none, one, unmarked, first, taken]
}

#[test]
fn a_recoverable_message_is_released_when_it_is_stored(rt: HostRuntime) -> Result<(), Fail> {
    let mut plain = PlainOut::new(rt.alloc());
    let sent = send_recoverable(&mut plain, rt.alloc());
    let is_marked = is_marked(&plain);
    let taken = released_and_taken(&mut plain);
    let is_empty = plain.is_empty();
    drop(plain);
    assert!(rt; sent? == 1);
    assert!(rt; taken == [0, 1, 0, 1, 1]);
    assert!(rt; is_marked && is_empty);
    Ok(())
}

/// The number of the first express message. Then it is sent as packet 2.
fn send_express(plain: &mut PlainOut, alloc: Global) -> Result<u32, Memory>
    requires { plain.old.lists ≡ no_plain }
{
    add_express(plain, alloc)?;
    let first = number_of(plain.express().first());
    plain.mark_sent(&head(2, 0));
    Ok(first)
}

/// How many messages are left where the peer got one packet, and where it got two.
fn left(plain: &mut PlainOut) -> [u32; 2] {
    plain.drop_express(1);
    let one = plain.len();
    plain.drop_express(2);
    [one, plain.len()]
}

#[test]
fn an_express_message_is_dropped_when_it_is_got(rt: HostRuntime) -> Result<(), Fail> {
    let mut plain = PlainOut::new(rt.alloc());
    let sent = send_express(&mut plain, rt.alloc());
    let left = left(&mut plain);
    drop(plain);
    assert!(rt; sent? == 0x8000_0000);
    assert!(rt; left == [1, 0]);
    Ok(())
}

#[test]
fn an_express_message_is_taken_out(rt: HostRuntime) -> Result<(), Fail> {
    let mut plain = PlainOut::new(rt.alloc());
    let added = add_express(&mut plain, rt.alloc());
    let taken = take_express(&mut plain);
    let is_empty = plain.is_empty();
    drop(plain);
    added?;
    assert!(rt; taken == 0x8000_0000 && is_empty);
    Ok(())
}
