//! One end of a session that takes the steps of a line.

use crate::bytes::{put, put_value};
use mqb_base::{Cause, Guid, Memory, SessionHead};
use mqb_session::{Kind, Session};
use mqb_setup::{Establish, Parameters};
use std::alloc::Global;

pub(crate) const ALPHA: Guid = Guid([0xA; 16]);

pub(crate) const BETA: Guid = Guid([0xB; 16]);

/// The number that a text spells, or 0.
fn number(text: Option<&str>) -> u16 {
    text.unwrap_or_default().parse::<u16>().unwrap_or(0)
}

/// The session header of the numbers `ACK,STORED,USER,RECOVERABLE`.
fn session_head(text: &str) -> SessionHead {
    let mut numbers = text.split(',');
    SessionHead {
        ack: number(numbers.next()),
        stored: number(numbers.next()),
        stored_flags: 0,
        user: number(numbers.next()),
        recoverable: number(numbers.next()),
        window: 64,
    }
}

/// Hears the Establish with which alpha asks beta, or one that differs in what the word says.
fn hear_establish(session: &mut Session, word: &str) {
    let establish = Establish {
        client: ALPHA,
        server: if word == "elsewhere" { ALPHA } else { BETA },
        stamp: 1000,
        refused: word == "refused",
    };
    session.hear_establish(&establish, word != "unknown");
}

/// Hears the Parameters of a window.
fn hear_parameters(session: &mut Session, window: &str) {
    session.hear_parameters(&Parameters {
        storage_time: 10_000,
        ack_time: 20_000,
        window: number(Some(window)),
    });
}

/// Notes that a recoverable packet is stored, where one was got that an acknowledgement
/// would not tell as stored.
fn store(session: &mut Session) {
    let mut copy = *session;
    let told = copy.stamp(Kind::Ack);
    if told.stored < told.ack {
        session.note_stored();
    }
}

/// Sends a packet of a kind, where one may go, and adds its header.
fn send(alloc: Global, session: &mut Session, kind: Kind, out: &mut Vec<u8>) -> Result<(), Memory> {
    if kind != Kind::Ack && !session.may_send() {
        return put(b"waits ", out);
    }
    put_value(alloc, &session.stamp(kind), out)
}

/// Sends the next packet, where one may go, and hears that it came.
fn exchange(session: &mut Session) {
    if session.may_send() {
        let head = session.stamp(Kind::Plain);
        let _ = session.hear_head(&SessionHead {
            ack: head.user,
            user: 0,
            ..head
        });
    }
}

/// Exchanges as many packets as a text says.
fn exchange_all(session: &mut Session, count: &str) {
    for _ in 0..count.parse::<u32>().unwrap_or(0) {
        exchange(session);
    }
}

/// Takes a step, and adds what the session answers.
fn take_step(
    alloc: Global,
    session: &mut Session,
    step: &str,
    out: &mut Vec<u8>,
) -> Result<(), Memory> {
    let (kind, rest) = step.split_once('=').unwrap_or((step, ""));
    match kind {
        "owed" => {
            let _ = session.owed(1000);
        }
        "establish" => hear_establish(session, rest),
        "parameters" => hear_parameters(session, rest),
        "head" => put_value(alloc, &session.hear_head(&session_head(rest)), out)?,
        "stored" => store(session),
        "plain" => send(alloc, session, Kind::Plain, out)?,
        "recoverable" => send(alloc, session, Kind::Recoverable, out)?,
        "ack" => send(alloc, session, Kind::Ack, out)?,
        "exchange" => exchange_all(session, rest),
        "close" => session.close(Cause::Foreign),
        _ => put(b"no such step ", out)?,
    }
    Ok(())
}

/// Adds what an end tells of itself.
fn put_end(alloc: Global, end: &Session, out: &mut Vec<u8>) -> Result<(), Memory> {
    put_value(alloc, &end.phase(), out)?;
    put_value(alloc, &end.peer(), out)?;
    put_value(alloc, &[end.acked(), end.recoverable_acked()], out)?;
    let flags = [end.may_send(), end.is_spent(), end.owes_ack()];
    put_value(alloc, &flags, out)
}

/// `initiator STEP ..`, `acceptor STEP ..`: what this end answers at each step, then its phase,
/// whether it knows its peer, how many packets and recoverable ones are acknowledged, and whether
/// it may send, is spent, and owes an acknowledgement.
pub(crate) fn show_session(
    alloc: Global,
    end: &mut Session,
    steps: &str,
    out: &mut Vec<u8>,
) -> Result<(), Memory> {
    for step in steps.split_whitespace() {
        take_step(alloc, end, step, out)?;
    }
    put_end(alloc, end, out)
}
