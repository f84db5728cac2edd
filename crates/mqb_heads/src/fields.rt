ghost use Rattle.std.specs.Prelude.{◌≡◌};
ghost use Rattle.mqb_fields.specs.Reading.{Moves, Reads, ReadsAs};
ghost use Rattle.mqb_heads.specs.Fields.{seen_name, id_at, name_at, optional_name_at, padded_at};
ghost use Rattle.mqb_heads.specs.Fields.{padding, source_at};
ghost use Rattle.std.specs.Prelude.{option_map};

use mqb_base::{Guid, MessageId};
use mqb_fields::{Cursor, HeadFault, HeadKind};
use mqb_names::{NameView, WireFault, read_wire_name};

pub(crate) fn read_guid(cursor: &mut Cursor<'_>) -> Result<Guid, HeadFault>
    ensures read { Reads source_at cursor.old cursor.new result }
{
    Ok(Guid(cursor.guid()?))
}

pub(crate) fn read_id(cursor: &mut Cursor<'_>) -> Result<MessageId, HeadFault>
    ensures read { Reads id_at cursor.old cursor.new result }
{
    let qm = read_guid(cursor)?;
    let number = cursor.u32()?;
    Ok(MessageId { qm, number })
}

pub(crate) fn read_name<'a>(cursor: &mut Cursor<'a>, kind: u8) -> Result<NameView<'a>, HeadFault>
    ensures read { ReadsAs seen_name (name_at kind) cursor.old cursor.new result }
{
    let at = cursor.at();
    match read_wire_name(kind, cursor.rest()) {
        Ok((name, len)) => {
            cursor.skip(len)?;
            Ok(name)
        }
        Err(WireFault::Short) => Err(HeadFault::PAST_END),
        Err(WireFault::Bad) => Err(HeadFault::new(at, HeadKind::Name)),
    }
}

/// Type 0 stands for no name.
pub(crate) fn read_optional_name<'a>(
    cursor: &mut Cursor<'a>,
    kind: u8,
) -> Result<Option<NameView<'a>>, HeadFault>
    ensures read { ReadsAs (λ name. option_map seen_name name) (optional_name_at kind)
        cursor.old cursor.new result }
{
    if kind == 0 {
        return Ok(None);
    }
    Ok(Some(read_name(cursor, kind)?))
}

/// How many bytes there are from a count on up to a multiple of 4.
pub(crate) fn padding(len: usize) -> usize
    ensures { result ≡ padding len }
{
    (4 - len % 4) % 4
}

/// Skips the padding of the header that began at `start`.
pub(crate) fn skip_padding(cursor: &mut Cursor<'_>, start: usize) -> Result<(), HeadFault>
    ensures read { Moves (padded_at start) cursor.old cursor.new result }
{
    cursor.skip(padding(cursor.at().saturating_sub(start)))?;
    Ok(())
}
