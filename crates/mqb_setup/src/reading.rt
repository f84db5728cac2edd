ghost use Rattle.std.specs.Prelude.{◌≡◌, OnErr};
ghost use Rattle.mqb_fields.specs.Reading.{Reads};
ghost use Rattle.mqb_setup.specs.Internals.{ack_from, establish_at, establish_from, internal_at};
ghost use Rattle.mqb_setup.specs.Internals.{parameters_at, parameters_from};
ghost use Rattle.mqb_setup.specs.Sessions.{session_at};

use crate::internal::{Establish, Internal, Parameters};
use mqb_base::{Guid, SessionHead};
use mqb_fields::{Cursor, HeadFault, HeadKind};

/// How many bytes the part of an Establish has that say nothing.
const FILLER: usize = 512;

/// Reads a session header of 16 bytes. After a fault the cursor is where it was.
#[tactic(auto, unfolding(crate::specs::Sessions::session_at))]
pub fn read_session(cursor: &mut Cursor<'_>) -> Result<SessionHead, HeadFault>
    ensures read { Reads session_at cursor.old cursor.new result }
    ensures stays { OnErr result (cursor.new ≡ cursor.old) }
{
    let mut ahead = cursor.fork();
    let ack = ahead.u16()?;
    let stored = ahead.u16()?;
    let stored_flags = ahead.u32()?;
    let user = ahead.u16()?;
    let recoverable = ahead.u16()?;
    let window = ahead.u16()?;
    ahead.skip(2)?;
    *cursor = ahead;
    Ok(SessionHead {
        ack,
        stored,
        stored_flags,
        user,
        recoverable,
        window,
    })
}

#[tactic(auto, unfolding(crate::specs::Internals::establish_at))]
fn read_establish(cursor: &mut Cursor<'_>, refused: bool) -> Result<Establish, HeadFault>
    ensures read { Reads (establish_at refused) cursor.old cursor.new result }
{
    let client = Guid(cursor.guid()?);
    let server = Guid(cursor.guid()?);
    let stamp = cursor.u32()?;
    cursor.skip(4)?;
    cursor.skip(FILLER)?;
    Ok(Establish {
        client,
        server,
        stamp,
        refused,
    })
}

#[tactic(auto, unfolding(crate::specs::Internals::parameters_at))]
fn read_parameters(cursor: &mut Cursor<'_>) -> Result<Parameters, HeadFault>
    ensures read { Reads parameters_at cursor.old cursor.new result }
{
    let storage_time = cursor.u32()?;
    let ack_time = cursor.u32()?;
    cursor.skip(2)?;
    let window = cursor.u16()?;
    Ok(Parameters {
        storage_time,
        ack_time,
        window,
    })
}

fn ack_part(cursor: &mut Cursor<'_>) -> Result<Internal, HeadFault>
    ensures read { Reads ack_from cursor.old cursor.new result }
{
    cursor.skip(2)?;
    Ok(Internal::Ack(read_session(cursor)?))
}

fn establish_part(cursor: &mut Cursor<'_>, refused: bool) -> Result<Internal, HeadFault>
    ensures read { Reads (establish_from refused) cursor.old cursor.new result }
{
    cursor.skip(2)?;
    Ok(Internal::Establish(read_establish(cursor, refused)?))
}

fn parameters_part(cursor: &mut Cursor<'_>) -> Result<Internal, HeadFault>
    ensures read { Reads parameters_from cursor.old cursor.new result }
{
    cursor.skip(2)?;
    Ok(Internal::Parameters(read_parameters(cursor)?))
}

/// Reads an internal header of 4 bytes and the part of its type: 16 bytes of an acknowledgement,
/// 552 of an Establish, 12 of Parameters. After a fault the cursor is where it was.
#[tactic(auto, unfolding(crate::specs::Internals::internal_at))]
pub fn read_internal(cursor: &mut Cursor<'_>) -> Result<Internal, HeadFault>
    ensures read { Reads internal_at cursor.old cursor.new result }
    ensures stays { OnErr result (cursor.new ≡ cursor.old) }
{
    let mut ahead = cursor.fork();
    let flags = ahead.u16()?;
    let internal = match flags % 16 {
        1 => ack_part(&mut ahead)?,
        2 => establish_part(&mut ahead, flags / 16 % 2 == 1)?,
        3 => parameters_part(&mut ahead)?,
        _ => return Err(HeadFault::new(cursor.at(), HeadKind::Kind)),
    };
    *cursor = ahead;
    Ok(internal)
}
