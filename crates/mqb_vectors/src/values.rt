use crate::bytes::{put_fault, put_read, put_value};
use mqb_base::{
    Bytes, Class, Draft, Guid, MachineQueue, Memory, MessageId, Name, Parts, QueueName, UNLIMITED,
    Units, is_due, remaining,
};
use mqb_fate::{is_final_class, is_order_name, names_order_layer, order_layer};
use mqb_names::write_name;
use std::alloc::Global;
use std::str::SplitWhitespace;

/// The number that a text spells, or 0.
pub(crate) fn number(text: Option<&str>) -> u32 {
    text.unwrap_or_default().parse::<u32>().unwrap_or(0)
}

/// Adds a name, whether it means the order layer, and the printed form of the order layer at a host
/// of that name, which is named as such.
fn put_word(alloc: Global, name: &Name, out: &mut Vec<u8>) -> Result<(), Memory> {
    put_value(alloc, name, out)?;
    put_value(alloc, &is_order_name(name), out)?;
    let layer = order_layer(alloc, name)?;
    put_value(alloc, &names_order_layer(&layer), out)?;
    write_name(&layer, out)
}

/// `word BYTES`: the name of a host or a queue, and the order layer.
pub(crate) fn show_word(alloc: Global, bytes: &[u8], out: &mut Vec<u8>) -> Result<(), Memory> {
    match Name::new(alloc, bytes) {
        Ok(name) => put_word(alloc, &name, out),
        Err(fault) => put_fault(alloc, &fault, out),
    }
}

/// `alike NAME NAME`: whether two names are equal, and whether they are but for the
/// case of their letters.
pub(crate) fn show_alike(alloc: Global, text: &str, out: &mut Vec<u8>) -> Result<(), Memory> {
    let (one, other) = text.split_once(' ').unwrap_or((text, text));
    let one = Name::new(alloc, one.as_bytes()).map_err(|_| Memory)?;
    let other = Name::new(alloc, other.as_bytes()).map_err(|_| Memory)?;
    put_value(
        alloc,
        &[one == other, one.eq_ignore_ascii_case(&other)],
        out,
    )
}

/// The class of two bytes, the high one first.
pub(crate) fn class_of(bytes: &[u8]) -> Class {
    match bytes {
        [high, low, ..] => Class(u16::from(*high) * 256 + u16::from(*low)),
        _ => Class(0),
    }
}

/// `class BYTES`: whether a class is known, negative, of receiving, of a refused arrival, and of a
/// final acknowledgement.
pub(crate) fn show_class(alloc: Global, bytes: &[u8], out: &mut Vec<u8>) -> Result<(), Memory> {
    let class = class_of(bytes);
    let kinds = [
        class.is_known(),
        class.is_negative(),
        class.is_receive(),
        class.is_arrival_refusal(),
        is_final_class(class),
    ];
    put_value(alloc, &kinds, out)
}

/// `time MOMENT TIME NOW`: what is left of a time from a moment, and whether it is over.
pub(crate) fn show_time(alloc: Global, text: &str, out: &mut Vec<u8>) -> Result<(), Memory> {
    let mut words = text.split_whitespace();
    let moment = number(words.next());
    let time = number(words.next());
    let now = number(words.next());
    put_value(alloc, &remaining(moment, time, now), out)?;
    put_value(alloc, &is_due(moment, time, now), out)
}

/// The dead-letter queue of a machine where the word is `machine`, and else a public queue.
fn queue_name(word: Option<&str>) -> QueueName {
    let guid = Guid([1; 16]);
    if word.unwrap_or_default() == "machine" {
        QueueName::Machine {
            qm: guid,
            kind: MachineQueue::DeadLetter,
        }
    } else {
        QueueName::Public {
            guid,
            journal: false,
        }
    }
}

/// A label of so many units, at most 251.
fn label(alloc: Global, count: u32) -> Result<Units, Memory> {
    let units = [0x41; 251];
    Units::from_slice(alloc, units.get(..count as usize).unwrap_or(&units))
}

/// The parts of a draft that words tell: the names of the destination, of the admin and of the
/// response queue, the priority, the bits of the acknowledgement and of the journal, and how many
/// units the label has.
fn parts(alloc: Global, words: &mut SplitWhitespace<'_>) -> Result<Parts, Memory> {
    Ok(Parts {
        destination: queue_name(words.next()),
        admin: Some(queue_name(words.next())),
        response: Some(queue_name(words.next())),
        priority: number(words.next()).min(255) as u8,
        ack: number(words.next()).min(255) as u8,
        journal: number(words.next()).min(255) as u8,
        reach: UNLIMITED,
        life: 0,
        correlation: MessageId {
            qm: Guid([1; 16]),
            number: 0,
        },
        body_type: 0,
        tag: 0,
        label: label(alloc, number(words.next()))?,
        extension: Bytes::from_slice(alloc, b"")?,
        body: Bytes::from_slice(alloc, b"one")?,
    })
}

/// `draft DESTINATION ADMIN RESPONSE PRIORITY ACK JOURNAL UNITS`: the draft of these parts.
pub(crate) fn show_draft(alloc: Global, text: &str, out: &mut Vec<u8>) -> Result<(), Memory> {
    let parts = parts(alloc, &mut text.split_whitespace())?;
    put_read(alloc, &Draft::build(parts), out)
}
