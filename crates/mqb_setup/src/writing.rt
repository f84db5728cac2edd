ghost use Rattle.std.specs.Prelude.{◌≡◌, ◌≤◌, length};
ghost use Rattle.mqb_fields.specs.Writing.{put_at};
ghost use Rattle.mqb_setup.specs.Internals.{flags_of, plain_establish, plain_internal};
ghost use Rattle.mqb_setup.specs.Internals.{plain_parameters, plain_part};
ghost use Rattle.mqb_setup.specs.Sessions.{plain_session};

use crate::internal::{Establish, Internal, Parameters};
use mqb_base::SessionHead;
use mqb_fields::{put_bytes, put_guid, put_u16, put_u32};

/// What stands at the end of an Establish.
const FILLER: [u8; 512] = [0x5A; 512];

/// Writes a session header of 16 bytes at the start, and tells how many bytes it has.
pub fn put_session(head: &SessionHead, to: &mut [u8]) -> usize
    requires room { length (plain_session head.now) ≤ length to.old }
    ensures put { to.new ≡ put_at to.old 0 (plain_session head.now) }
    ensures count { result ≡ length (plain_session head.now) }
{
    put_u16(to, 0, head.ack);
    put_u16(to, 2, head.stored);
    put_u32(to, 4, head.stored_flags);
    put_u16(to, 8, head.user);
    put_u16(to, 10, head.recoverable);
    put_u16(to, 12, head.window);
    put_u16(to, 14, 0);
    16
}

fn put_establish(establish: &Establish, to: &mut [u8]) -> usize
    requires room { length (plain_establish establish.now) ≤ length to.old }
    ensures put { to.new ≡ put_at to.old 0 (plain_establish establish.now) }
    ensures count { result ≡ length (plain_establish establish.now) }
{
    put_guid(to, 0, &establish.client.0);
    put_guid(to, 16, &establish.server.0);
    put_u32(to, 32, establish.stamp);
    put_u32(to, 36, 0);
    put_bytes(to, 40, &FILLER)
}

fn put_parameters(parameters: &Parameters, to: &mut [u8]) -> usize
    requires room { length (plain_parameters parameters.now) ≤ length to.old }
    ensures put { to.new ≡ put_at to.old 0 (plain_parameters parameters.now) }
    ensures count { result ≡ length (plain_parameters parameters.now) }
{
    put_u32(to, 0, parameters.storage_time);
    put_u32(to, 4, parameters.ack_time);
    put_u16(to, 8, 0);
    put_u16(to, 10, parameters.window);
    12
}

fn put_part(part: &Internal, to: &mut [u8]) -> usize
    requires room { length (plain_part part.now) ≤ length to.old }
    ensures put { to.new ≡ put_at to.old 0 (plain_part part.now) }
    ensures count { result ≡ length (plain_part part.now) }
{
    match part {
        Internal::Ack(head) => put_session(head, to),
        Internal::Establish(establish) => put_establish(establish, to),
        Internal::Parameters(parameters) => put_parameters(parameters, to),
    }
}

fn flags_of(part: &Internal) -> u16
    ensures { result ≡ flags_of part.now }
{
    match part {
        Internal::Ack(_) => 1,
        Internal::Establish(establish) => if establish.refused { 2 + 16 } else { 2 },
        Internal::Parameters(_) => 3,
    }
}

/// Writes an internal header and its part at the start, and tells how many bytes they have: 20 for
/// an acknowledgement, 556 for an Establish, 16 for Parameters.
pub fn put_internal(part: &Internal, to: &mut [u8]) -> usize
    requires room { length (plain_internal part.now) ≤ length to.old }
    ensures put { to.new ≡ put_at to.old 0 (plain_internal part.now) }
    ensures count { result ≡ length (plain_internal part.now) }
{
    put_u16(to, 0, flags_of(part));
    put_u16(to, 2, 0);
    4 + put_part(part, &mut to[4..])
}
