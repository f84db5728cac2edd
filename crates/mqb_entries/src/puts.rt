ghost use Rattle.std.specs.Prelude.{◌≡◌, ◌+◌, ◌≤◌, ◌++◌, length, IfSome, OnOk};
ghost use Rattle.mqb_fields.specs.Writing.{bytes_of};
ghost use Rattle.mqb_entries.specs.Spelled.{IsGuid, IsId, IsName, IsPacket, spelled_flag, spelled_guid, spelled_id, spelled_name, spelled_packet, spelled_public};
ghost use Rattle.mqb_entries.specs.Writing.{room_of};

use crate::packets::PacketSlice;
use crate::slices::NameSlice;
use mqb_base::{Guid, Memory, MessageId};

/// Makes room for so many bytes.
#[tactic(auto, unfolding(crate::specs::Writing::room_of))]
pub(crate) fn make_room(out: &mut Vec<u8>, count: usize) -> Result<(), Memory>
    ensures items { out.new.items ≡ out.old.items }
    ensures room { OnOk result (count ≤ room_of out.new) }
{
    out.reserve(count)?;
    Ok(())
}

/// Adds bytes for which there is room.
#[tactic(auto, unfolding(crate::specs::Writing::room_of))]
pub(crate) fn put(out: &mut Vec<u8>, bytes: &[u8])
    requires { length bytes.now ≤ room_of out.old }
    ensures items { out.new.items ≡ out.old.items ++ bytes.now }
    ensures room { room_of out.old ≤ length bytes.now + room_of out.new }
{
    let _there_is_room = out.extend_from_slice(bytes);
}

pub(crate) fn put_u8(out: &mut Vec<u8>, number: u8)
    requires { 1 ≤ room_of out.old }
    ensures items { out.new.items ≡ out.old.items ++ bytes_of 1 number }
    ensures room { room_of out.old ≤ 1 + room_of out.new }
{
    put(out, &[number]);
}

pub(crate) fn put_u16(out: &mut Vec<u8>, number: u16)
    requires { 2 ≤ room_of out.old }
    ensures items { out.new.items ≡ out.old.items ++ bytes_of 2 number }
    ensures room { room_of out.old ≤ 2 + room_of out.new }
{
    let mut field = [0; 2];
    mqb_fields::put_u16(&mut field, 0, number);
    put(out, &field);
}

pub(crate) fn put_u32(out: &mut Vec<u8>, number: u32)
    requires { 4 ≤ room_of out.old }
    ensures items { out.new.items ≡ out.old.items ++ bytes_of 4 number }
    ensures room { room_of out.old ≤ 4 + room_of out.new }
{
    let mut field = [0; 4];
    mqb_fields::put_u32(&mut field, 0, number);
    put(out, &field);
}

pub(crate) fn put_guid(out: &mut Vec<u8>, guid: &Guid)
    requires { 16 ≤ room_of out.old }
    ensures items { out.new.items ≡ out.old.items ++ spelled_guid guid.now }
    ensures room { room_of out.old ≤ 16 + room_of out.new }
    ensures fits { IsGuid guid.now }
{
    let mut field = [0; 16];
    mqb_fields::put_guid(&mut field, 0, &guid.0);
    put(out, &field);
}

pub(crate) fn put_id(out: &mut Vec<u8>, id: &MessageId)
    requires { 20 ≤ room_of out.old }
    ensures items { out.new.items ≡ out.old.items ++ spelled_id id.now }
    ensures room { room_of out.old ≤ 20 + room_of out.new }
    ensures fits { IsId id.now }
{
    put_guid(out, &id.qm);
    put_u32(out, id.number);
}

pub(crate) fn put_name(out: &mut Vec<u8>, name: &NameSlice<'_>)
    requires { 1 + length name.now ≤ room_of out.old }
    ensures items { out.new.items ≡ out.old.items ++ spelled_name name.now }
    ensures room { room_of out.old ≤ 1 + length name.now + room_of out.new }
    ensures fits { IsName name.now }
{
    let bytes = name.as_slice();
    put_u8(out, bytes.len() as u8);
    put(out, bytes);
}

pub(crate) fn put_packet(out: &mut Vec<u8>, packet: &PacketSlice<'_>)
    requires { 4 + length packet.now ≤ room_of out.old }
    ensures items { out.new.items ≡ out.old.items ++ spelled_packet packet.now }
    ensures room { room_of out.old ≤ 4 + length packet.now + room_of out.new }
    ensures fits { IsPacket packet.now }
{
    put_u32(out, packet.len() as u32);
    packet.put(out);
}

pub(crate) fn put_flag(out: &mut Vec<u8>, flag: bool)
    requires { 1 ≤ room_of out.old }
    ensures items { out.new.items ≡ out.old.items ++ spelled_flag flag }
    ensures room { room_of out.old ≤ 1 + room_of out.new }
{
    put_u8(out, u8::from(flag));
}

pub(crate) fn put_public(out: &mut Vec<u8>, public: &Option<Guid>)
    requires { 17 ≤ room_of out.old }
    ensures items { out.new.items ≡ out.old.items ++ spelled_public public.now }
    ensures room { room_of out.old ≤ 17 + room_of out.new }
    ensures fits { IfSome public.now IsGuid }
{
    match public {
        Some(guid) => {
            put_u8(out, 1);
            put_guid(out, guid);
        }
        None => put_u8(out, 0),
    }
}
