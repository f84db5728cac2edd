//! The line of a message.
ghost use Rattle.std.specs.Int.{to_be_bytes, w16};
ghost use Rattle.std.specs.Prelude.{◌≡◌, ◌++◌, IfOk, OnOk};
ghost use Rattle.mqb_commands.specs.Messages.{content_text, correlation_word, head_text, hex_word};
ghost use Rattle.mqb_commands.specs.Messages.{message_line, response_word};
ghost use Rattle.mqb_commands.specs.Messages.{seconds_word, unit_bytes};
ghost use Rattle.mqb_transcript.specs.Printing.{wrote};
ghost use Rattle.mqb_transcript.specs.Texts.{spaced};

use crate::lines::delivery_text;
use mqb_base::{Delivery, Guid, Memory, Message, MessageId, QueueName, UNLIMITED, remaining};
use mqb_transcript::Printer;
use std::alloc::Global;

/// The identifier of no message.
const NO_ID: MessageId = MessageId {
    qm: Guid([0; 16]),
    number: 0,
};

#[tactic(auto, using(mqb_transcript::specs::lemmas::Wrote::writing))]
fn put_word(printer: &mut Printer<'_>, word: &[u8]) -> Result<(), Memory>
    ensures { OnOk result (printer.new ≡ wrote printer.old (spaced word.now)) }
{
    printer.put(b" ")?;
    printer.put(word)
}

#[tactic(auto, unfolding(crate::specs::Messages::seconds_word))]
fn put_seconds(printer: &mut Printer<'_>, message: &Message, now: u32) -> Result<(), Memory>
    ensures { OnOk result (printer.new ≡
        wrote printer.old (spaced (seconds_word message.now.sent message.now.life now))) }
{
    if message.life == UNLIMITED {
        return put_word(printer, b"-");
    }
    printer.spaced_number(remaining(message.sent, message.life, now))
}

#[tactic(auto, using(mqb_transcript::specs::lemmas::Wrote::writing), unfolding(crate::specs::Messages::response_word))]
fn put_response(printer: &mut Printer<'_>, response: &Option<QueueName>) -> Result<(), Memory>
    ensures { OnOk result (printer.new ≡
        wrote printer.old (spaced (response_word response.now))) }
{
    match response {
        Some(name) => {
            printer.put(b" ")?;
            printer.name(name)
        }
        None => put_word(printer, b"-"),
    }
}

#[tactic(auto, unfolding(crate::specs::Messages::correlation_word))]
fn put_correlation(printer: &mut Printer<'_>, id: &MessageId) -> Result<(), Memory>
    ensures { OnOk result (printer.new ≡
        wrote printer.old (spaced (correlation_word printer.old.hosts id.now))) }
{
    if *id == NO_ID {
        return put_word(printer, b"-");
    }
    printer.about(b" ", id)
}

#[tactic(auto, unfolding(crate::specs::Messages::hex_word))]
fn put_hex(alloc: Global, printer: &mut Printer<'_>, bytes: &[u8]) -> Result<(), Memory>
    ensures { OnOk result (printer.new ≡ wrote printer.old (spaced (hex_word bytes.now))) }
{
    if bytes.is_empty() {
        return put_word(printer, b"-");
    }
    let digits = hex::encode(alloc, bytes)?;
    put_word(printer, digits.as_bytes())
}

fn unit_bytes(alloc: Global, units: &[u16]) -> Result<Vec<u8>, Memory>
    ensures { IfOk result (λ bytes. bytes.items ≡ unit_bytes units.now) }
{
    let mut bytes = Vec::new(alloc);
    for unit in units {
        bytes.extend_from_slice(&unit.to_be_bytes())?;
    }
    Ok(bytes)
}

/// What a message is, and how long it can be received.
#[tactic(auto, using(mqb_transcript::specs::lemmas::Wrote::writing), unfolding(crate::specs::Messages::head_text))]
fn put_head(printer: &mut Printer<'_>, message: &Message, now: u32) -> Result<(), Memory>
    ensures { OnOk result (printer.new ≡
        wrote printer.old (head_text printer.old.hosts now message.now)) }
{
    let transaction = matches!(message.delivery, Delivery::Transactional);
    let recoverable = !matches!(message.delivery, Delivery::Express);
    printer.id(&message.id)?;
    printer.classed(b" ", message.class)?;
    put_word(printer, delivery_text(transaction, recoverable))?;
    printer.spaced_number(u32::from(message.priority))?;
    put_seconds(printer, message, now)
}

/// What its sender says with it.
#[tactic(auto, using(mqb_transcript::specs::lemmas::Wrote::writing), unfolding(crate::specs::Messages::content_text))]
fn put_content(alloc: Global, printer: &mut Printer<'_>, message: &Message) -> Result<(), Memory>
    ensures { OnOk result (printer.new ≡
        wrote printer.old (content_text printer.old.hosts message.now)) }
{
    let label = unit_bytes(alloc, message.label.as_slice())?;
    printer.spaced_number(message.tag)?;
    put_hex(alloc, printer, &label)?;
    put_response(printer, &message.response)?;
    put_correlation(printer, &message.correlation)?;
    put_hex(alloc, printer, message.body.as_slice())
}

#[tactic(auto, using(mqb_transcript::specs::lemmas::Wrote::writing), unfolding(crate::specs::Messages::message_line))]
pub(crate) fn put_message(
    alloc: Global,
    printer: &mut Printer<'_>,
    message: &Message,
    now: u32,
) -> Result<(), Memory>
    ensures { OnOk result (printer.new ≡
        wrote printer.old (message_line printer.old.hosts now message.now)) }
{
    put_head(printer, message, now)?;
    put_content(alloc, printer, message)?;
    printer.put(b"\n")
}
