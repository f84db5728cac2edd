ghost use Rattle.std.specs.Prelude.{◌≡◌, ◌+◌, ◌^◌, ◌<◌, ◌≤◌, ◌∷◌, ◌++◌, Ok, length, OnErr, OnOk};
ghost use Rattle.mqb_entries.specs.declared.entry.Entry.TheVariants.{Arrived, Commit, CreateQueue, Identity, Offered, Peer, Plain, Purged, Roll, Taken, Ticked};
ghost use Rattle.mqb_entries.specs.Entries.{entry_of};
ghost use Rattle.mqb_entries.specs.Spelled.{IsPacket, spelled_packet};
ghost use Rattle.mqb_entries.specs.SpelledEntries.{Fits, IsFew, IsFull, IsPart, IsPlace, IsIdentity, spelled, spelled_identity, spelled_part, spelled_place};
ghost use Rattle.mqb_entries.specs.Writing.{Puts, room_of};

use crate::entry::{ArrivedPart, Entry, IdentityView, QueueView};
use crate::kinds::EntryKind;
use crate::laws::spelled_is_read;
use crate::lists::{Marks, Numbers, Ops};
use crate::packets::PacketSlice;
use crate::puts::{
    make_room, put, put_flag, put_guid, put_id, put_name, put_packet, put_public, put_u8, put_u16,
    put_u32,
};
use mqb_base::{EntryPlace, Memory, MessageId};

fn put_manager(out: &mut Vec<u8>, identity: &IdentityView<'_>)
    requires { 21 + length identity.now.host ≤ room_of out.old }
    ensures items { out.new.items ≡ out.old.items ++ spelled_identity identity.now }
    ensures fits { IsIdentity identity.now }
{
    put_name(out, &identity.host);
    put_guid(out, &identity.guid);
    put(out, &identity.address);
}

fn put_identity(out: &mut Vec<u8>, identity: &IdentityView<'_>) -> Result<(), Memory>
    ensures { Puts (Identity identity.now) out.old.items out.new.items result }
{
    make_room(out, 22 + identity.host.as_slice().len())?;
    put_u8(out, EntryKind::Identity.code());
    put_manager(out, identity);
    Ok(())
}

fn put_peer(out: &mut Vec<u8>, peer: &IdentityView<'_>) -> Result<(), Memory>
    ensures { Puts (Peer peer.now) out.old.items out.new.items result }
{
    make_room(out, 22 + peer.host.as_slice().len())?;
    put_u8(out, EntryKind::Peer.code());
    put_manager(out, peer);
    Ok(())
}

fn put_queue(out: &mut Vec<u8>, queue: &QueueView<'_>) -> Result<(), Memory>
    ensures { Puts (CreateQueue queue.now) out.old.items out.new.items result }
{
    make_room(out, 29 + queue.name.as_slice().len())?;
    put_u8(out, EntryKind::CreateQueue.code());
    put_name(out, &queue.name);
    put_u32(out, queue.number);
    put_public(out, &queue.public);
    put_flag(out, queue.transactional);
    put_u32(out, queue.quota);
    put_flag(out, queue.journal);
    Ok(())
}

fn put_commit(out: &mut Vec<u8>, now: u32, ops: &Ops<'_>) -> Result<(), Memory>
    requires { IsFew (length ops.now) }
    ensures { Puts (Commit now ops.now) out.old.items out.new.items result }
{
    make_room(out, 6 + ops.spelled_len())?;
    put_u8(out, EntryKind::Commit.code());
    put_u32(out, now);
    put_u8(out, ops.len() as u8);
    ops.put(out);
    Ok(())
}

fn put_plain(out: &mut Vec<u8>, now: u32, packet: &PacketSlice<'_>) -> Result<(), Memory>
    ensures { Puts (Plain now packet.now) out.old.items out.new.items result }
{
    make_room(out, 9 + packet.len())?;
    put_u8(out, EntryKind::Plain.code());
    put_u32(out, now);
    put_packet(out, packet);
    Ok(())
}

fn put_offered(out: &mut Vec<u8>, marks: &Marks<'_>) -> Result<(), Memory>
    requires { IsFew (length marks.now) }
    ensures { Puts (Offered marks.now) out.old.items out.new.items result }
{
    make_room(out, 2 + marks.spelled_len())?;
    put_u8(out, EntryKind::Offered.code());
    put_u8(out, marks.len() as u8);
    marks.put(out);
    Ok(())
}

fn part_len(part: &ArrivedPart<'_>) -> usize
    ensures len { result ≡ length (spelled_part part.now) }
    ensures bound { result < 2 ^ 33 }
{
    match part {
        ArrivedPart::Nothing => 1,
        ArrivedPart::OrderAcknowledged { .. } => 9,
        ArrivedPart::Decided(packet) | ArrivedPart::Stored(packet) | ArrivedPart::Final(packet) => {
            5 + packet.len()
        }
    }
}

fn put_heard(out: &mut Vec<u8>, code: u8, packet: &PacketSlice<'_>)
    requires { 5 + length packet.now ≤ room_of out.old }
    ensures items { out.new.items ≡ out.old.items ++ code ∷ spelled_packet packet.now }
    ensures fits { IsPacket packet.now }
{
    put_u8(out, code);
    put_packet(out, packet);
}

fn put_part(out: &mut Vec<u8>, part: &ArrivedPart<'_>)
    requires { length (spelled_part part.now) ≤ room_of out.old }
    ensures items { out.new.items ≡ out.old.items ++ spelled_part part.now }
    ensures fits { IsPart part.now }
{
    match part {
        ArrivedPart::Nothing => put_u8(out, 0),
        ArrivedPart::Decided(packet) => put_heard(out, 1, packet),
        ArrivedPart::Stored(packet) => put_heard(out, 2, packet),
        ArrivedPart::OrderAcknowledged { ordinal, number } => {
            put_u8(out, 3);
            put_u32(out, *ordinal);
            put_u32(out, *number);
        }
        ArrivedPart::Final(packet) => put_heard(out, 4, packet),
    }
}

fn put_arrived(
    out: &mut Vec<u8>,
    now: u32,
    released: &Numbers<'_>,
    part: &ArrivedPart<'_>,
) -> Result<(), Memory>
    ensures { Puts (Arrived now released.now part.now) out.old.items out.new.items result }
{
    make_room(out, 7 + released.spelled_len() + part_len(part))?;
    put_u8(out, EntryKind::Arrived.code());
    put_u32(out, now);
    put_u16(out, released.len());
    released.put(out);
    put_part(out, part);
    Ok(())
}

fn put_place(out: &mut Vec<u8>, place: EntryPlace)
    requires { 5 ≤ room_of out.old }
    ensures items { out.new.items ≡ out.old.items ++ spelled_place place }
    ensures room { room_of out.old ≤ 5 + room_of out.new }
    ensures fits { IsPlace place }
{
    match place {
        EntryPlace::Queue(number) => {
            put_u8(out, 1);
            put_u32(out, number);
        }
        EntryPlace::JournalOf(number) => {
            put_u8(out, 2);
            put_u32(out, number);
        }
        EntryPlace::Dead => put_u8(out, 3),
        EntryPlace::DeadXact => put_u8(out, 4),
        EntryPlace::Journal => put_u8(out, 5),
    }
}

fn put_taken(out: &mut Vec<u8>, now: u32, place: EntryPlace, id: &MessageId) -> Result<(), Memory>
    ensures { Puts (Taken now place id.now) out.old.items out.new.items result }
{
    make_room(out, 30)?;
    put_u8(out, EntryKind::Taken.code());
    put_u32(out, now);
    put_place(out, place);
    put_id(out, id);
    Ok(())
}

fn put_purged(out: &mut Vec<u8>, now: u32, place: EntryPlace) -> Result<(), Memory>
    ensures { Puts (Purged now place) out.old.items out.new.items result }
{
    make_room(out, 10)?;
    put_u8(out, EntryKind::Purged.code());
    put_u32(out, now);
    put_place(out, place);
    Ok(())
}

fn put_ticked(out: &mut Vec<u8>, now: u32) -> Result<(), Memory>
    ensures { Puts (Ticked now) out.old.items out.new.items result }
{
    make_room(out, 5)?;
    put_u8(out, EntryKind::Ticked.code());
    put_u32(out, now);
    Ok(())
}

fn put_roll(out: &mut Vec<u8>, count: u32) -> Result<(), Memory>
    requires { IsFull count }
    ensures { Puts (Roll count) out.old.items out.new.items result }
{
    make_room(out, 5)?;
    put_u8(out, EntryKind::Roll.code());
    put_u32(out, count);
    Ok(())
}

fn put_whole(entry: &Entry<'_>, out: &mut Vec<u8>) -> Result<(), Memory>
    requires { Fits entry.now }
    ensures { Puts entry.now out.old.items out.new.items result }
{
    match entry {
        Entry::Identity(identity) => put_identity(out, identity),
        Entry::Peer(peer) => put_peer(out, peer),
        Entry::CreateQueue(queue) => put_queue(out, queue),
        Entry::Commit { now, ops } => put_commit(out, *now, ops),
        Entry::Plain { now, packet } => put_plain(out, *now, packet),
        Entry::Offered(marks) => put_offered(out, marks),
        Entry::Arrived {
            now,
            released,
            part,
        } => put_arrived(out, *now, released, part),
        Entry::Taken { now, place, id } => put_taken(out, *now, *place, id),
        Entry::Purged { now, place } => put_purged(out, *now, *place),
        Entry::Ticked { now } => put_ticked(out, *now),
        Entry::Roll { count } => put_roll(out, *count),
    }
}

/// Adds an entry at the end. Its packets are copied once, and memory is asked for once.
pub fn put_entry(entry: &Entry<'_>, out: &mut Vec<u8>) -> Result<(), Memory>
    requires { Fits entry.now }
    ensures added { OnOk result (out.new.items ≡ out.old.items ++ spelled entry.now) }
    ensures read { OnOk result (entry_of (spelled entry.now) ≡ Ok entry.now) }
    ensures refused { OnErr result (out.new.items ≡ out.old.items) }
{
    spelled_is_read();
    put_whole(entry, out)
}
