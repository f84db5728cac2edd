ghost use Rattle.std.specs.Prelude.{◌≡◌, ◌≤◌, ◌+◌, length};
ghost use Rattle.mqb_fields.specs.Writing.{Wrote, put_at, bytes_of};
ghost use Rattle.mqb_fields.specs.Guids.{swapped};

use crate::guids::swapped;
use byteorder::{ByteOrder, LittleEndian};

pub fn put_u16(to: &mut [u8], at: usize, number: u16)
    requires { at + 2 ≤ length to.old }
    ensures { to.new ≡ put_at to.old at (bytes_of 2 number) }
{
    LittleEndian::write_u16(&mut to[at..at + 2], number);
}

pub fn put_u32(to: &mut [u8], at: usize, number: u32)
    requires { at + 4 ≤ length to.old }
    ensures { to.new ≡ put_at to.old at (bytes_of 4 number) }
{
    LittleEndian::write_u32(&mut to[at..at + 4], number);
}

/// Writes bytes, and tells where they end.
pub fn put_bytes(to: &mut [u8], at: usize, bytes: &[u8]) -> usize
    requires { at + length bytes.now ≤ length to.old }
    ensures { Wrote to.old at bytes.now to.new result }
{
    let end = at + bytes.len();
    to[at..end].copy_from_slice(bytes);
    end
}

/// Writes a GUID, whose bytes are given in the order of its text.
pub fn put_guid(to: &mut [u8], at: usize, guid: &[u8; 16])
    requires { at + 16 ≤ length to.old }
    ensures { to.new ≡ put_at to.old at (swapped guid.now) }
{
    put_bytes(to, at, &swapped(guid));
}
