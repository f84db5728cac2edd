ghost use Rattle.std.specs.Prelude.{◌≡◌, ◌≤◌, IfOk, false, not, true};
ghost use Rattle.mqb_entries.specs.Fields.{address_at, counted_part, flag_at, guid_at, name_at};
ghost use Rattle.mqb_entries.specs.Fields.{packet_at, u32_at};
ghost use Rattle.mqb_fields.specs.Reading.{ReadsAs};
ghost use Rattle.mqb_snapshot.specs.Fields.{destination_at, within_at};
ghost use Rattle.mqb_read_back.specs.Answers.{Gives, GivesAs};
ghost use Rattle.mqb_snapshot.specs.Parts.{tested};

use crate::faults::BackFault;
use mqb_base::{Guid, Name, NameError, QueueName};
use mqb_fields::{Cursor, Short};
use mqb_names::read_wire_name;
use std::alloc::Global;

pub(crate) fn u32_field(cursor: &mut Cursor<'_>) -> Result<u32, BackFault>
    ensures { Gives u32_at cursor.old cursor.new result }
{
    Ok(cursor.u32()?)
}

/// A number within limits.
#[tactic(auto, unfolding(mqb_snapshot::specs::Fields::within_at))]
pub(crate) fn within_field(cursor: &mut Cursor<'_>, least: u32, most: u32) -> Result<u32, BackFault>
    ensures read { Gives (within_at least most) cursor.old cursor.new result }
    ensures within { IfOk result (λ number. number ≤ most) }
{
    let at = cursor.at();
    let number = u32_field(cursor)?;
    if least <= number && number <= most {
        Ok(number)
    } else {
        Err(BackFault::Bad { at })
    }
}

/// A byte 0 or 1.
#[tactic(auto, unfolding(mqb_entries::specs::Fields::flag_at))]
pub(crate) fn flag_field(cursor: &mut Cursor<'_>) -> Result<bool, BackFault>
    ensures { Gives flag_at cursor.old cursor.new result }
{
    let at = cursor.at();
    match cursor.u8()? {
        0 => Ok(false),
        1 => Ok(true),
        _ => Err(BackFault::Bad { at }),
    }
}

/// The flag of a message that is recoverable.
pub(crate) fn recoverable_flag(cursor: &mut Cursor<'_>) -> Result<(), BackFault>
    ensures { GivesAs (λ _. false) (tested not flag_at) cursor.old cursor.new result }
{
    let at = cursor.at();
    if flag_field(cursor)? {
        return Err(BackFault::Bad { at });
    }
    Ok(())
}

/// The flag of a message that is transactional.
pub(crate) fn transactional_flag(cursor: &mut Cursor<'_>) -> Result<(), BackFault>
    ensures { GivesAs (λ _. true) (tested (λ flag. flag) flag_at) cursor.old cursor.new result }
{
    let at = cursor.at();
    if !flag_field(cursor)? {
        return Err(BackFault::Bad { at });
    }
    Ok(())
}

pub(crate) fn address_field(cursor: &mut Cursor<'_>) -> Result<[u8; 4], BackFault>
    ensures { Gives address_at cursor.old cursor.new result }
{
    let part = cursor.take(4)?;
    Ok([part[0], part[1], part[2], part[3]])
}

pub(crate) fn guid_field(cursor: &mut Cursor<'_>) -> Result<Guid, BackFault>
    ensures { Gives guid_at cursor.old cursor.new result }
{
    Ok(Guid(cursor.guid()?))
}

fn name_part<'a>(cursor: &mut Cursor<'a>) -> Result<&'a [u8], Short>
    ensures { ReadsAs (λ part. part.now) (counted_part 1) cursor.old cursor.new result }
{
    let len = cursor.u8()?;
    cursor.take(usize::from(len))
}

fn packet_part<'a>(cursor: &mut Cursor<'a>) -> Result<&'a [u8], Short>
    ensures { ReadsAs (λ part. part.now) (counted_part 4) cursor.old cursor.new result }
{
    let len = cursor.u32()?;
    cursor.take(len as usize)
}

/// A name behind its length.
#[tactic(auto, unfolding(mqb_entries::specs::Fields::name_at))]
pub(crate) fn name_field(alloc: Global, cursor: &mut Cursor<'_>) -> Result<Name, BackFault>
    ensures { Gives name_at cursor.old cursor.new result }
{
    let at = cursor.at();
    let Ok(bytes) = name_part(cursor) else {
        return Err(BackFault::Bad { at });
    };
    match Name::new(alloc, bytes) {
        Ok(name) => Ok(name),
        Err(NameError::Memory) => Err(BackFault::Memory),
        Err(_) => Err(BackFault::Bad { at }),
    }
}

/// A packet behind its length. It is not read here.
pub(crate) fn packet_field<'a>(cursor: &mut Cursor<'a>) -> Result<&'a [u8], BackFault>
    ensures { GivesAs (λ part. part.now) packet_at cursor.old cursor.new result }
{
    let at = cursor.at();
    match packet_part(cursor) {
        Ok(bytes) => Ok(bytes),
        Err(_) => Err(BackFault::Bad { at }),
    }
}

/// A queue's name in its wire form, behind its type.
#[tactic(auto, unfolding(mqb_snapshot::specs::Fields::destination_at))]
pub(crate) fn destination_field(
    alloc: Global,
    cursor: &mut Cursor<'_>,
) -> Result<QueueName, BackFault>
    ensures { Gives destination_at cursor.old cursor.new result }
{
    let at = cursor.at();
    let kind = cursor.u8()?;
    match read_wire_name(kind, cursor.rest()) {
        Ok(found) => match cursor.take(found.1) {
            Ok(_) => Ok(found.0.to_owned(alloc)?),
            Err(_) => Err(BackFault::Bad { at }),
        },
        Err(_) => Err(BackFault::Bad { at }),
    }
}
