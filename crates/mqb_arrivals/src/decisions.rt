ghost use Rattle.std.specs.Prelude.{◌+◌, ◌<◌, ◌≡◌, ◌≤◌, IfOk, IfSome, OnOk, false, length};
ghost use Rattle.std.specs.Option.{option_map_or};
ghost use Rattle.mqb_contents.specs.Rooms.{IsGrown};
ghost use Rattle.mqb_fate.specs.Asking.{is_ordinary};
ghost use Rattle.mqb_model.specs.records.Decisions.{decided_fits, decided_line, is_next};
ghost use Rattle.mqb_model.specs.records.Decisions.{message_decided, message_stored};
ghost use Rattle.mqb_model.specs.records.Decisions.{stored_line, with_decided};
ghost use Rattle.mqb_model.specs.rules.Effects.{joined, with_line, without_line};
ghost use Rattle.mqb_model.specs.state.Rows.{in_index, in_row};
ghost use Rattle.mqb_orders.specs.Judging.{verdict_of};

use mqb_base::{Class, Line, Memory, Message, Stream, TxHead};
use mqb_contents::Contents;
use mqb_drafts::Draft;
use mqb_orders::{InRow, Verdict, judge};
use mqb_packet::UserPacket;
use mqb_rules::{arrive, is_transactional, refusal_of, storing_refusal};

fn is_next(verdict: Verdict) -> bool
    ensures { result ≡ is_next verdict }
{
    matches!(verdict, Verdict::Next)
}

fn is_ordinary(message: &Message) -> bool
    ensures { result ≡ is_ordinary message.now }
{
    message.class == Class::NORMAL
}

/// The index of the incoming row to which a message belongs.
fn in_index(contents: &Contents, message: &Message) -> Option<u32>
    ensures index { result ≡ in_index contents.now.lists message.now }
    ensures within { IfSome result (λ k. k < length contents.now.lists.ins) }
{
    contents.in_index(message.id.qm, &message.destination)
}

fn verdict_of(contents: &Contents, message: &Message, tx: &TxHead) -> Verdict
    ensures { result ≡ verdict_of (in_row contents.now.lists message.now) tx.now }
{
    match in_index(contents, message) {
        Some(k) => judge(Some(&contents.ins()[k as usize]), tx),
        None => judge(None, tx),
    }
}

fn has_next_head(contents: &Contents, packet: &UserPacket) -> bool
    ensures { result ≡ option_map_or
        (λ tx. is_next (verdict_of (in_row contents.now.lists packet.now.message) tx))
        packet.now.tx false }
{
    match &packet.tx {
        Some(tx) => is_next(verdict_of(contents, &packet.message, tx)),
        None => false,
    }
}

/// Whether a packet's message is transactional, ordinary and next.
pub(crate) fn decided_fits(contents: &Contents, packet: &UserPacket) -> bool
    ensures { result ≡ decided_fits contents.now.lists packet.now }
{
    is_transactional(packet.message.delivery)
        && is_ordinary(&packet.message)
        && has_next_head(contents, packet)
}

/// The incoming row of a message is decided up to it.
fn advance(draft: &mut Draft, message: &Message, tx: TxHead) -> Result<(), Memory>
    ensures ok { OnOk result (draft.new.effect ≡ without_line draft.old.effect
        (with_decided draft.old.effect.state message.now tx)) }
    ensures start { draft.new.start ≡ draft.old.start }
    ensures grown { IsGrown draft.old.rooms draft.new.rooms }
    ensures held { OnOk result (draft.new.held ≤ draft.old.held) }
{
    match in_index(draft.contents(), message) {
        Some(index) => draft.decide(index, tx.sequence, tx.number),
        None => {
            let destination = message.destination.clone()?;
            draft.add_in(InRow {
                source: message.id.qm,
                destination,
                sequence: tx.sequence,
                last: tx.number,
            })
        }
    }
}

fn decided_line(message: &Message, tx: TxHead, refusal: Option<Class>) -> Result<Line, Memory>
    ensures { IfOk result (λ line. line ≡ decided_line message.now tx refusal) }
{
    let stream = Stream {
        source: message.id.qm,
        destination: message.destination.clone()?,
        sequence: tx.sequence,
    };
    Ok(match refusal {
        None => Line::Put {
            stream,
            number: tx.number,
            id: message.id,
        },
        Some(class) => Line::Refused {
            stream,
            number: tx.number,
            class,
            id: message.id,
        },
    })
}

fn stored_line(message: &Message, refusal: Option<Class>) -> Line
    ensures { result ≡ stored_line message.now refusal }
{
    match refusal {
        None => Line::Stored { id: message.id },
        Some(class) => Line::Bounced {
            class,
            id: message.id,
        },
    }
}

/// The row of a message is decided up to it, and the line is noted.
fn note_decision(
    draft: &mut Draft,
    message: &Message,
    tx: TxHead,
    refusal: Option<Class>,
) -> Result<(), Memory>
    ensures ok { OnOk result (draft.new.effect ≡ joined draft.old.effect
        (with_line (decided_line message.now tx refusal)
        (with_decided draft.old.effect.state message.now tx))) }
    ensures start { draft.new.start ≡ draft.old.start }
    ensures grown { IsGrown draft.old.rooms draft.new.rooms }
    ensures held { OnOk result (draft.new.held ≤ draft.old.held) }
{
    let line = decided_line(message, tx, refusal)?;
    draft.note(line)?;
    advance(draft, message, tx)
}

/// Lets a packet go.
pub(crate) fn discard(_packet: UserPacket) {}

/// A packet's message that is next is decided, and put or refused.
pub(crate) fn decide(
    draft: &mut Draft,
    packet: UserPacket,
    tx: TxHead,
    now: u32,
) -> Result<(), Memory>
    ensures ok { OnOk result (draft.new.effect ≡ joined draft.old.effect
        (message_decided now draft.old.effect.state packet tx)) }
    ensures start { draft.new.start ≡ draft.old.start }
    ensures grown { IsGrown draft.old.rooms draft.new.rooms }
    ensures held { OnOk result (draft.new.held ≤ draft.old.held + 2) }
{
    let refusal = refusal_of(draft.contents(), &packet);
    match note_decision(draft, &packet.message, tx, refusal) {
        Ok(()) => arrive(draft, packet.message, now, refusal),
        Err(memory) => {
            discard(packet);
            Err(memory)
        }
    }
}

/// A packet's recoverable message is put or refused.
pub(crate) fn store(draft: &mut Draft, packet: UserPacket, now: u32) -> Result<(), Memory>
    ensures ok { OnOk result (draft.new.effect ≡ joined draft.old.effect
        (message_stored now draft.old.effect.state packet)) }
    ensures start { draft.new.start ≡ draft.old.start }
    ensures grown { IsGrown draft.old.rooms draft.new.rooms }
    ensures held { OnOk result (draft.new.held ≤ draft.old.held + 2) }
{
    let refusal = storing_refusal(draft.contents(), &packet);
    match draft.note(stored_line(&packet.message, refusal)) {
        Ok(()) => arrive(draft, packet.message, now, refusal),
        Err(memory) => {
            discard(packet);
            Err(memory)
        }
    }
}
