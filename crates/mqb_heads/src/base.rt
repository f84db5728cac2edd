ghost use Rattle.std.specs.Prelude.{◌≡◌, ◌≤◌, length};
ghost use Rattle.mqb_fields.specs.Reading.{Moves, Reads};
ghost use Rattle.mqb_fields.specs.Writing.{Wrote, put_at};
ghost use Rattle.mqb_heads.specs.Base.{IsBaseHead, base_at, base_flags, base_of, flags_at};
ghost use Rattle.mqb_heads.specs.Base.{signature_at, plain_base, size_at, version_at};

use crate::flags::{bit, bits, flag};
use crate::writing::{put_half, put_word};
use mqb_base::MAX_PRIORITY;
use mqb_fields::{Cursor, HeadFault, HeadKind, put_bytes};

/// The least size of a packet, in bytes.
pub const MIN_PACKET: u32 = 20;

/// The greatest size of a packet, in bytes.
pub const MAX_PACKET: u32 = 4_194_304;

const VERSION: u8 = 0x10;

/// The bytes `LIOR`.
const SIGNATURE: u32 = 0x524F_494C;

/// The base header, with which each packet begins. `size` is the packet's, in bytes, and `reach`
/// the seconds that are left to reach the queue, of which 0xFFFFFFFF are without limit. `session`
/// says that a user packet ends with a session header.
#[derive(Clone, Copy, Debug, PartialEq, Eq)]
pub struct BaseHead {
    pub priority: u8,
    pub internal: bool,
    pub session: bool,
    pub size: u32,
    pub reach: u32,
}

fn read_version(cursor: &mut Cursor<'_>) -> Result<(), HeadFault>
    ensures read { Moves version_at cursor.old cursor.new result }
{
    let at = cursor.at();
    if cursor.u8()? != VERSION {
        return Err(HeadFault::new(at, HeadKind::Version));
    }
    Ok(())
}

fn read_flags(cursor: &mut Cursor<'_>) -> Result<u16, HeadFault>
    ensures read { Reads flags_at cursor.old cursor.new result }
{
    let at = cursor.at();
    let flags = cursor.u16()?;
    if bit(u32::from(flags), 5) {
        return Err(HeadFault::new(at, HeadKind::Debug));
    }
    Ok(flags)
}

fn read_signature(cursor: &mut Cursor<'_>) -> Result<(), HeadFault>
    ensures read { Moves signature_at cursor.old cursor.new result }
{
    let at = cursor.at();
    if cursor.u32()? != SIGNATURE {
        return Err(HeadFault::new(at, HeadKind::Signature));
    }
    Ok(())
}

fn read_size(cursor: &mut Cursor<'_>) -> Result<u32, HeadFault>
    ensures read { Reads size_at cursor.old cursor.new result }
{
    let at = cursor.at();
    let size = cursor.u32()?;
    if !(MIN_PACKET..=MAX_PACKET).contains(&size) {
        return Err(HeadFault::new(at, HeadKind::Size));
    }
    Ok(size)
}

#[tactic(auto, unfolding(crate::specs::Base::base_at))]
fn base_at(cursor: &mut Cursor<'_>) -> Result<BaseHead, HeadFault>
    ensures read { Reads base_at cursor.old cursor.new result }
{
    read_version(cursor)?;
    cursor.skip(1)?;
    let flags = u32::from(read_flags(cursor)?);
    read_signature(cursor)?;
    let size = read_size(cursor)?;
    let reach = cursor.u32()?;
    Ok(BaseHead {
        priority: bits(flags, 0, 3),
        internal: bit(flags, 3),
        session: bit(flags, 4),
        size,
        reach,
    })
}

/// Reads the header at the front of bytes, which may hold less or more than the packet.
pub fn read_base(bytes: &[u8]) -> Result<BaseHead, HeadFault>
    ensures { result ≡ base_of bytes.now }
{
    if bytes.len() < 16 {
        return Err(HeadFault::new(bytes.len(), HeadKind::Short));
    }
    base_at(&mut Cursor::new(bytes))
}

fn base_flags(head: &BaseHead) -> u16
    requires { head.now.priority ≤ MAX_PRIORITY }
    ensures { result ≡ base_flags head.now }
{
    let flags = u32::from(head.priority) + flag(3, head.internal) + flag(4, head.session);
    flags as u16
}

fn put_fields(head: &BaseHead, to: &mut [u8]) -> usize
    requires priority { head.now.priority ≤ MAX_PRIORITY }
    requires room { 16 ≤ length to.old }
    ensures { Wrote to.old 0 (plain_base head.now) to.new result }
{
    let flags = put_bytes(to, 0, &[VERSION, 0]);
    let signature = put_half(to, flags, base_flags(head));
    let size = put_word(to, signature, SIGNATURE);
    let reach = put_word(to, size, head.size);
    put_word(to, reach, head.reach)
}

/// Writes the header at the start of a buffer, and tells how many bytes it has.
pub fn put_base(head: &BaseHead, to: &mut [u8]) -> usize
    requires head { IsBaseHead head.now }
    requires room { 16 ≤ length to.old }
    ensures put { to.new ≡ put_at to.old 0 (plain_base head.now) }
    ensures len { result ≡ length (plain_base head.now) }
{
    put_fields(head, to)
}
