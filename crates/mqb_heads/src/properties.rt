ghost use Rattle.std.specs.Prelude.{◌≡◌, ◌≤◌, ◌<◌, ◌+◌, ◌^◌, IfOk, OnErr, length};
ghost use Rattle.mqb_fields.specs.Reading.{Moves, Reads, ReadsAs};
ghost use Rattle.mqb_fields.specs.Writing.{Wrote, put_at};
ghost use Rattle.mqb_heads.specs.Properties.{allocated_at, class_at, label_len_at, marks_at};
ghost use Rattle.mqb_heads.specs.Properties.{FitsProps, parts_at, plain_props, props_at};
ghost use Rattle.mqb_heads.specs.Properties.{props_fields, props_parts, props_size, seen_parts};
ghost use Rattle.mqb_heads.specs.Properties.{seen_props, sizes_at, unsecured_at};

use crate::fields::{padding, read_id, skip_padding};
use crate::flags::bits;
use crate::writing::{put_half, put_id, put_label, put_word, put_zeros};
use mqb_base::{Class, MAX_LABEL, Message, MessageId};
use mqb_fields::{Cursor, HeadFault, HeadKind, put_bytes};

/// The properties header. `label` has two bytes a unit.
#[derive(Clone, Copy, Debug)]
pub struct PropsHead<'a> {
    pub ack: u8,
    pub class: Class,
    pub correlation: MessageId,
    pub body_type: u32,
    pub tag: u32,
    pub label: &'a [u8],
    pub extension: &'a [u8],
    pub body: &'a [u8],
}

#[derive(Clone, Copy)]
struct Marks {
    ack: u8,
    label_len: u8,
    class: Class,
}

#[derive(Clone, Copy)]
struct Sizes {
    body: u32,
    allocated: u32,
    extension: u32,
}

#[derive(Clone, Copy)]
struct Parts<'a> {
    label: &'a [u8],
    extension: &'a [u8],
    body: &'a [u8],
}

fn read_label_len(cursor: &mut Cursor<'_>) -> Result<u8, HeadFault>
    ensures read { Reads label_len_at cursor.old cursor.new result }
{
    let at = cursor.at();
    let len = cursor.u8()?;
    if usize::from(len) > MAX_LABEL {
        return Err(HeadFault::new(at, HeadKind::Label));
    }
    Ok(len)
}

fn read_class(cursor: &mut Cursor<'_>) -> Result<Class, HeadFault>
    ensures read { Reads class_at cursor.old cursor.new result }
{
    let at = cursor.at();
    let class = Class(cursor.u16()?);
    if !class.is_known() {
        return Err(HeadFault::new(at, HeadKind::Class));
    }
    Ok(class)
}

fn read_marks(cursor: &mut Cursor<'_>) -> Result<Marks, HeadFault>
    ensures read { Reads marks_at cursor.old cursor.new result }
{
    let ack = bits(u32::from(cursor.u8()?), 0, 4);
    let label_len = read_label_len(cursor)?;
    let class = read_class(cursor)?;
    Ok(Marks {
        ack,
        label_len,
        class,
    })
}

fn read_allocated(cursor: &mut Cursor<'_>, body: u32) -> Result<u32, HeadFault>
    ensures read { Reads (allocated_at body) cursor.old cursor.new result }
    ensures enough { IfOk result (λ allocated. body ≤ allocated) }
{
    let at = cursor.at();
    let allocated = cursor.u32()?;
    if allocated < body {
        return Err(HeadFault::new(at, HeadKind::Sizes));
    }
    Ok(allocated)
}

fn skip_unsecured(cursor: &mut Cursor<'_>) -> Result<(), HeadFault>
    ensures read { Moves unsecured_at cursor.old cursor.new result }
{
    let at = cursor.at();
    if cursor.u32()? != 0 {
        return Err(HeadFault::new(at, HeadKind::Secured));
    }
    Ok(())
}

fn read_sizes(cursor: &mut Cursor<'_>) -> Result<Sizes, HeadFault>
    ensures read { Reads sizes_at cursor.old cursor.new result }
    ensures enough { IfOk result (λ sizes. sizes.body ≤ sizes.allocated) }
{
    let body = cursor.u32()?;
    let allocated = read_allocated(cursor, body)?;
    skip_unsecured(cursor)?;
    skip_unsecured(cursor)?;
    skip_unsecured(cursor)?;
    let extension = cursor.u32()?;
    Ok(Sizes {
        body,
        allocated,
        extension,
    })
}

fn read_parts<'a>(
    cursor: &mut Cursor<'a>,
    label_len: u8,
    sizes: &Sizes,
) -> Result<Parts<'a>, HeadFault>
    requires { sizes.now.body ≤ sizes.now.allocated }
    ensures read { ReadsAs seen_parts (parts_at label_len sizes.now) cursor.old cursor.new result }
{
    let label = cursor.take(2 * usize::from(label_len))?;
    let extension = cursor.take(sizes.extension as usize)?;
    let allocated = cursor.take(sizes.allocated as usize)?;
    let body = &allocated[..sizes.body as usize];
    Ok(Parts {
        label,
        extension,
        body,
    })
}

/// Reads a properties header, and lends its label, its extension and its body. After a fault the
/// cursor is where it was.
#[tactic(auto, unfolding(crate::specs::Properties::props_at))]
pub fn read_props<'a>(cursor: &mut Cursor<'a>) -> Result<PropsHead<'a>, HeadFault>
    ensures read { ReadsAs seen_props props_at cursor.old cursor.new result }
    ensures stays { OnErr result (cursor.new ≡ cursor.old) }
{
    let mut ahead = cursor.fork();
    let marks = read_marks(&mut ahead)?;
    let correlation = read_id(&mut ahead)?;
    let body_type = ahead.u32()?;
    let tag = ahead.u32()?;
    let sizes = read_sizes(&mut ahead)?;
    let parts = read_parts(&mut ahead, marks.label_len, &sizes)?;
    skip_padding(&mut ahead, cursor.at())?;
    *cursor = ahead;
    Ok(PropsHead {
        ack: marks.ack,
        class: marks.class,
        correlation,
        body_type,
        tag,
        label: parts.label,
        extension: parts.extension,
        body: parts.body,
    })
}

fn put_fields(message: &Message, to: &mut [u8]) -> usize
    requires message { FitsProps message.now }
    requires room { 56 ≤ length to.old }
    ensures { Wrote to.old 0 (props_fields message.now) to.new result }
{
    let label_len = message.label.as_slice().len() as u8;
    let body_len = message.body.as_slice().len() as u32;
    let class = put_bytes(to, 0, &[message.ack, label_len]);
    let correlation = put_half(to, class, message.class.0);
    let body_type = put_id(to, correlation, &message.correlation);
    let tag = put_word(to, body_type, message.body_type);
    let body = put_word(to, tag, message.tag);
    let allocated = put_word(to, body, body_len);
    let privacy = put_word(to, allocated, body_len);
    let extension = put_zeros(to, privacy, 12);
    put_word(to, extension, message.extension.as_slice().len() as u32)
}

fn put_parts(message: &Message, to: &mut [u8], at: usize) -> usize
    requires { at + length (props_parts message.now) ≤ length to.old }
    ensures { Wrote to.old at (props_parts message.now) to.new result }
{
    let extension = put_label(to, at, message.label.as_slice());
    let body = put_bytes(to, extension, message.extension.as_slice());
    put_bytes(to, body, message.body.as_slice())
}

fn put_padded(message: &Message, to: &mut [u8]) -> usize
    requires message { FitsProps message.now }
    requires room { props_size message.now ≤ length to.old }
    ensures { Wrote to.old 0 (plain_props message.now) to.new result }
{
    let parts = put_fields(message, to);
    let end = put_parts(message, to, parts);
    put_zeros(to, end, padding(end))
}

/// How many bytes the properties header of a message has.
pub fn props_len(message: &Message) -> usize
    requires { FitsProps message.now }
    ensures size { result ≡ props_size message.now }
    ensures most { result < 2 ^ 34 }
{
    let label = 2 * message.label.as_slice().len();
    let len = 56 + label + message.extension.as_slice().len() + message.body.as_slice().len();
    len + padding(len)
}

/// Writes the properties header of a message at the start of a buffer, and tells
/// how many bytes it has.
pub fn put_props(message: &Message, to: &mut [u8]) -> usize
    requires message { FitsProps message.now }
    requires room { props_size message.now ≤ length to.old }
    ensures put { to.new ≡ put_at to.old 0 (plain_props message.now) }
    ensures len { result ≡ length (plain_props message.now) }
{
    put_padded(message, to)
}
