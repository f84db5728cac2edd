ghost use Rattle.std.specs.Prelude.{◌≡◌, ◌^◌, ◌<◌, is_none, length, not, position, IfOk};
ghost use Rattle.mqb_base.specs.Names.{is_name_byte, name_fault};
ghost use Rattle.mqb_fields.specs.Reading.{Reads, ReadsAs};
ghost use Rattle.mqb_entries.specs.Fields.{address_at, counted_part, flag_at, guid_at, guid_part, id_at, id_part, name_at, packet_at, public_at, u32_at, u8_at};

use crate::faults::EntryFault;
use crate::packets::PacketSlice;
use crate::slices::NameSlice;
use mqb_base::{Guid, MAX_NAME, MessageId, is_name_byte};
use mqb_fields::{Cursor, Short};

pub(crate) fn u8_field(cursor: &mut Cursor<'_>) -> Result<u8, EntryFault>
    ensures { Reads u8_at cursor.old cursor.new result }
{
    Ok(cursor.u8()?)
}

pub(crate) fn u32_field(cursor: &mut Cursor<'_>) -> Result<u32, EntryFault>
    ensures { Reads u32_at cursor.old cursor.new result }
{
    Ok(cursor.u32()?)
}

pub(crate) fn address_field(cursor: &mut Cursor<'_>) -> Result<[u8; 4], EntryFault>
    ensures { Reads address_at cursor.old cursor.new result }
{
    let part = cursor.take(4)?;
    Ok([part[0], part[1], part[2], part[3]])
}

fn guid_part(cursor: &mut Cursor<'_>) -> Result<Guid, Short>
    ensures { Reads guid_part cursor.old cursor.new result }
{
    Ok(Guid(cursor.guid()?))
}

pub(crate) fn guid_field(cursor: &mut Cursor<'_>) -> Result<Guid, EntryFault>
    ensures { Reads guid_at cursor.old cursor.new result }
{
    let at = cursor.at();
    guid_part(cursor).or(Err(EntryFault { at }))
}

fn id_part(cursor: &mut Cursor<'_>) -> Result<MessageId, Short>
    ensures { Reads id_part cursor.old cursor.new result }
{
    let qm = guid_part(cursor)?;
    let number = cursor.u32()?;
    Ok(MessageId { qm, number })
}

/// The identifier of a message: 20 bytes.
pub(crate) fn id_field(cursor: &mut Cursor<'_>) -> Result<MessageId, EntryFault>
    ensures { Reads id_at cursor.old cursor.new result }
{
    let at = cursor.at();
    id_part(cursor).or(Err(EntryFault { at }))
}

fn name_part<'a>(cursor: &mut Cursor<'a>) -> Result<&'a [u8], Short>
    ensures { ReadsAs (λ part. part.now) (counted_part 1) cursor.old cursor.new result }
{
    let len = cursor.u8()?;
    cursor.take(usize::from(len))
}

#[tactic(auto, using(crate::proofs::Lengths::taken_len))]
fn packet_part<'a>(cursor: &mut Cursor<'a>) -> Result<&'a [u8], Short>
    ensures read { ReadsAs (λ part. part.now) (counted_part 4) cursor.old cursor.new result }
    ensures len { IfOk result (λ part. length part.now < 2 ^ 32) }
{
    let len = cursor.u32()?;
    let part = cursor.take(len as usize)?;
    Ok(part)
}

fn first_outside(bytes: &[u8]) -> Option<usize>
    ensures { result ≡ position (λ b. not (is_name_byte b)) bytes.now }
{
    bytes.iter().position(|byte| !is_name_byte(*byte))
}

/// Whether bytes make a name.
fn is_name(bytes: &[u8]) -> bool
    ensures { result ≡ is_none (name_fault bytes.now) }
{
    (1..=MAX_NAME).contains(&bytes.len()) && first_outside(bytes).is_none()
}

/// A name behind its length.
#[tactic(auto, unfolding(crate::specs::Fields::name_at))]
pub(crate) fn name_field<'a>(cursor: &mut Cursor<'a>) -> Result<NameSlice<'a>, EntryFault>
    ensures { Reads name_at cursor.old cursor.new result }
{
    let at = cursor.at();
    match name_part(cursor) {
        Ok(bytes) if is_name(bytes) => Ok(NameSlice::of_bytes(bytes)),
        _ => Err(EntryFault { at }),
    }
}

/// A packet behind its length.
pub(crate) fn packet_field<'a>(cursor: &mut Cursor<'a>) -> Result<PacketSlice<'a>, EntryFault>
    ensures { Reads packet_at cursor.old cursor.new result }
{
    let at = cursor.at();
    match packet_part(cursor) {
        Ok(bytes) => Ok(PacketSlice::new(bytes)),
        Err(_) => Err(EntryFault { at }),
    }
}

/// A byte 0 or 1.
#[tactic(auto, unfolding(crate::specs::Fields::flag_at))]
pub(crate) fn flag_field(cursor: &mut Cursor<'_>) -> Result<bool, EntryFault>
    ensures { Reads flag_at cursor.old cursor.new result }
{
    let at = cursor.at();
    match u8_field(cursor)? {
        0 => Ok(false),
        1 => Ok(true),
        _ => Err(EntryFault { at }),
    }
}

/// A flag, and a GUID where it is 1.
#[tactic(auto, unfolding(crate::specs::Fields::public_at))]
pub(crate) fn public_field(cursor: &mut Cursor<'_>) -> Result<Option<Guid>, EntryFault>
    ensures { Reads public_at cursor.old cursor.new result }
{
    if flag_field(cursor)? {
        Ok(Some(guid_field(cursor)?))
    } else {
        Ok(None)
    }
}
