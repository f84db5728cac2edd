ghost use Rattle.std.specs.Prelude.{◌≡◌, ◌<◌, ◌≤◌, true, Ok, map, IfOk};
ghost use Rattle.std.specs.List.{list_all};
ghost use Rattle.mqb_base.specs.QueueNames.{names_queue, absent_or_queue};
ghost use Rattle.mqb_forms.specs.Faults.{Adds, Reads};
ghost use Rattle.mqb_forms.specs.Sends.{destination_of, optional_of, seconds_of, is_body_byte};
ghost use Rattle.mqb_forms.specs.Sends.{counted_body, body_of, AreQueues, names_from, terms_from};
ghost use Rattle.mqb_forms.specs.Sends.{parts_of, message_of, parts_from, send_from, send_of};
ghost use Rattle.mqb_forms.specs.Sends.{take_from, op_from, op_of, ops_of};

use crate::faults::{LineFault, LineKind};
use crate::flags::flags_of;
use crate::ops::Ops;
use crate::values::name_of;
use crate::words::{FEW, few_parts, is_word, number_in, parts};
use mqb_base::{Bytes, Draft, Guid, MessageId, Op, Parts, QueueName, UNLIMITED, Units};
use mqb_names::{NameFault, read_name};
use std::alloc::Global;

/// The queue that a word names, which is no journal and no machine's queue.
#[tactic(auto, unfolding(crate::specs::Sends::destination_of))]
fn destination_of(alloc: Global, word: &[u8]) -> Result<QueueName, LineFault>
    ensures read { Reads (destination_of word.now) result }
    ensures queue { IfOk result (λ name. names_queue name ≡ true) }
{
    let name = match read_name(alloc, word) {
        Ok(name) => name,
        Err(NameFault::Bad { .. }) => return Err(LineFault::VALUE),
        Err(NameFault::Memory) => return Err(LineFault::Memory),
    };
    if !name.names_queue() {
        return Err(LineFault::VALUE);
    }
    Ok(name)
}

#[tactic(auto, unfolding(crate::specs::Sends::optional_of))]
fn optional_of(alloc: Global, word: &[u8]) -> Result<Option<QueueName>, LineFault>
    ensures read { Reads (optional_of word.now) result }
    ensures queue { IfOk result (λ name. absent_or_queue name ≡ true) }
{
    if is_word(word, b"-") {
        return Ok(None);
    }
    Ok(Some(destination_of(alloc, word)?))
}

#[tactic(auto, unfolding(crate::specs::Sends::seconds_of))]
fn seconds_of(word: &[u8]) -> Result<u32, LineKind>
    ensures { result ≡ seconds_of word.now }
{
    if is_word(word, b"-") {
        return Ok(UNLIMITED);
    }
    number_in(0, UNLIMITED - 1, word)
}

fn are_body_bytes(word: &[u8]) -> bool
    ensures { result ≡ list_all is_body_byte word.now }
{
    word.iter()
        .all(|byte| matches!(*byte, 0x21..=0x7E) && *byte != b',')
}

const MAX_COUNTED: u32 = 4_194_304;

fn counted_body(alloc: Global, number: &[u8]) -> Result<Bytes, LineFault>
    ensures { Reads (counted_body number.now) result }
{
    let count = number_in(0, MAX_COUNTED, number)?;
    let bytes = vec![in alloc; b'x'; count as usize]?;
    Ok(Bytes::from_slice(alloc, &bytes)?)
}

#[tactic(auto, unfolding(crate::specs::Sends::body_of))]
fn body_of(alloc: Global, text: &[u8]) -> Result<Bytes, LineFault>
    ensures { Reads (body_of text.now) result }
{
    if let Some(number) = text.strip_prefix(b"*") {
        return counted_body(alloc, number);
    }
    if !are_body_bytes(text) {
        return Err(LineFault::VALUE);
    }
    Ok(Bytes::from_slice(alloc, text)?)
}

/// The queues that a send names: where its message goes, where it is told of, and
/// where it is answered.
#[derive(Drop)]
pub struct Names {
    pub destination: QueueName,
    pub admin: Option<QueueName>,
    pub response: Option<QueueName>,
}

/// The times of a send in seconds, and its flags: the bits of a journal, and four times those
/// of an acknowledgement.
#[derive(Clone, Copy)]
pub struct Terms {
    pub reach: u32,
    pub life: u32,
    pub flags: u8,
}

#[tactic(auto, unfolding(crate::specs::Sends::names_from))]
fn names_from(
    alloc: Global,
    destination: &[u8],
    admin: &[u8],
    response: &[u8],
) -> Result<Names, LineFault>
    ensures read { Reads (names_from destination.now admin.now response.now) result }
    ensures queues { IfOk result AreQueues }
{
    let destination = destination_of(alloc, destination)?;
    let admin = optional_of(alloc, admin)?;
    let response = optional_of(alloc, response)?;
    Ok(Names {
        destination,
        admin,
        response,
    })
}

#[tactic(auto, unfolding(crate::specs::Sends::terms_from))]
fn terms_from(reach: &[u8], life: &[u8], flags: &[u8]) -> Result<Terms, LineKind>
    ensures terms { result ≡ terms_from reach.now life.now flags.now }
    ensures few { IfOk result (λ terms. terms.flags < 64) }
{
    let reach = seconds_of(reach)?;
    let life = seconds_of(life)?;
    let flags = flags_of(flags)?;
    Ok(Terms { reach, life, flags })
}

fn draft_of(
    alloc: Global,
    priority: u8,
    names: Names,
    terms: Terms,
    body: Bytes,
) -> Result<Draft, LineFault>
    requires priority { priority ≤ 7 }
    requires queues { AreQueues names }
    requires few { terms.flags < 64 }
    ensures { Reads (Ok (parts_of priority names terms body)) result }
{
    let label = Units::from_slice(alloc, &[])?;
    let extension = Bytes::from_slice(alloc, &[])?;
    let parts = Parts {
        destination: names.destination,
        priority,
        reach: terms.reach,
        life: terms.life,
        admin: names.admin,
        response: names.response,
        ack: terms.flags / 4,
        journal: terms.flags % 4,
        correlation: MessageId {
            qm: Guid([0; 16]),
            number: 0,
        },
        body_type: 0,
        tag: 0,
        label,
        extension,
        body,
    };
    Ok(Draft::build(parts).unwrap())
}

/// The fields of a send.
#[derive(Clone, Copy)]
struct Fields<'w> {
    destination: &'w [u8],
    reach: &'w [u8],
    life: &'w [u8],
    flags: &'w [u8],
    admin: &'w [u8],
    response: &'w [u8],
    text: &'w [u8],
}

#[tactic(auto, unfolding(crate::specs::Sends::message_of))]
fn message_of(alloc: Global, priority: u8, fields: &Fields<'_>) -> Result<Draft, LineFault>
    requires { priority ≤ 7 }
    ensures { let f = fields.now in
        Reads (message_of priority f.destination.now f.reach.now f.life.now f.flags.now f.admin.now
        f.response.now f.text.now) result }
{
    let names = names_from(alloc, fields.destination, fields.admin, fields.response)?;
    let terms = terms_from(fields.reach, fields.life, fields.flags)?;
    let body = body_of(alloc, fields.text)?;
    draft_of(alloc, priority, names, terms, body)
}

#[tactic(auto, unfolding(crate::specs::Sends::parts_from))]
fn draft_from(alloc: Global, priority: u8, fields: &[&[u8]]) -> Result<Draft, LineFault>
    requires { priority ≤ 7 }
    ensures { Reads (parts_from priority (map (λ field. field.now) fields.now)) result }
{
    let [destination, reach, life, flags, admin, response, text] = fields else {
        return Err(LineFault::VALUE);
    };
    let fields = Fields {
        destination,
        reach,
        life,
        flags,
        admin,
        response,
        text,
    };
    message_of(alloc, priority, &fields)
}

/// The message of this priority that a send describes, from the fields of its word.
#[tactic(auto, unfolding(crate::specs::Sends::send_from))]
fn send_from(alloc: Global, priority: u8, fields: &[&[u8]]) -> Result<Draft, LineFault>
    requires { priority ≤ 7 }
    ensures { Reads (send_from priority (map (λ field. field.now) fields.now)) result }
{
    let [word, fields @ ..] = fields else {
        return Err(LineFault::VALUE);
    };
    if !is_word(word, b"send") {
        return Err(LineFault::VALUE);
    }
    draft_from(alloc, priority, fields)
}

/// The message of this priority that a word of any number of fields describes.
#[tactic(auto, unfolding(crate::specs::Sends::send_of))]
fn long_send_of(alloc: Global, priority: u8, word: &[u8]) -> Result<Draft, LineFault>
    requires { priority ≤ 7 }
    ensures { Reads (send_of priority word.now) result }
{
    let fields = parts(alloc, word, b',')?;
    send_from(alloc, priority, fields.as_slice())
}

/// The message of this priority that a word describes.
#[tactic(auto, unfolding(crate::specs::Sends::send_of))]
pub fn send_of(alloc: Global, priority: u8, word: &[u8]) -> Result<Draft, LineFault>
    requires { priority ≤ 7 }
    ensures { Reads (send_of priority word.now) result }
{
    let mut room = [word; FEW];
    match few_parts(word, b',', &mut room) {
        Some(count) => send_from(alloc, priority, &room[..count]),
        None => long_send_of(alloc, priority, word),
    }
}

#[tactic(auto, unfolding(crate::specs::Sends::take_from))]
fn take_from(alloc: Global, fields: &[&[u8]]) -> Result<Op, LineFault>
    ensures { Reads (take_from (map (λ field. field.now) fields.now)) result }
{
    let [name] = fields else {
        return Err(LineFault::VALUE);
    };
    Ok(Op::Take(name_of(alloc, name)?))
}

/// Adds the step that the fields of a word are.
#[tactic(auto, unfolding(crate::specs::Sends::op_from))]
fn add_from(ops: &mut Ops, alloc: Global, fields: &[&[u8]]) -> Result<(), LineFault>
    ensures { Adds (λ op. op) (op_from (map (λ field. field.now) fields.now))
        ops.old ops.new result }
{
    match fields {
        [word, rest @ ..] if is_word(word, b"take") => ops.push(take_from(alloc, rest)?)?,
        _ => ops.push(Op::Send(send_from(alloc, 0, fields)?))?,
    }
    Ok(())
}

/// Adds the step that a word of any number of fields is.
#[tactic(auto, unfolding(crate::specs::Sends::op_of))]
fn add_long(ops: &mut Ops, alloc: Global, word: &[u8]) -> Result<(), LineFault>
    ensures { Adds (λ op. op) (op_of word.now) ops.old ops.new result }
{
    let fields = parts(alloc, word, b',')?;
    add_from(ops, alloc, fields.as_slice())
}

/// Adds the step that a word is.
#[tactic(auto, unfolding(crate::specs::Sends::op_of))]
fn add_op(ops: &mut Ops, alloc: Global, word: &[u8]) -> Result<(), LineFault>
    ensures { Adds (λ op. op) (op_of word.now) ops.old ops.new result }
{
    let mut room = [word; FEW];
    match few_parts(word, b',', &mut room) {
        Some(count) => add_from(ops, alloc, &room[..count]),
        None => add_long(ops, alloc, word),
    }
}

/// The steps that words are, in order.
pub fn ops_of(alloc: Global, words: &[&[u8]]) -> Result<Ops, LineFault>
    ensures { Reads (ops_of (map (λ word. word.now) words.now)) result }
{
    let mut ops = Ops::new(alloc);
    for word in words {
        add_op(&mut ops, alloc, word)?;
    }
    Ok(ops)
}
