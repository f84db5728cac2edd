ghost use Rattle.std.specs.Prelude.{◌≡◌, ◌+◌, ◌^◌, ◌<◌, ◌≤◌, ℕ, List, ◌++◌, length, Result};
ghost use Rattle.mqb_fields.specs.Reading.{Reading, Reads};
ghost use Rattle.mqb_entries.specs.declared.faults.EntryFault.{EntryFault};
ghost use Rattle.mqb_entries.specs.declared.members.OpView.TheVariants.{Send, Take};
ghost use Rattle.mqb_entries.specs.Formats.{IsFormat};
ghost use Rattle.mqb_entries.specs.Spelled.{IsId, IsPacket, spelled_op};
ghost use Rattle.mqb_entries.specs.Writing.{room_of};

use crate::faults::EntryFault;
use crate::fields::{id_field, packet_field, u8_field, u32_field};
use crate::packets::PacketSlice;
use crate::puts::{put_id, put_packet, put_u8, put_u32};
use mqb_base::MessageId;
use mqb_fields::Cursor;

/// What a list has as members: its grammar, and how one is written.
pub trait Member: Drop {
    // the member that stands at a place
    ghost member_at: { Reading → Result (Self × Reading) EntryFault };

    // the bytes of a member
    ghost spelled: { Self → List ℕ };

    // what holds of each value of the type
    ghost fits: { Self → Type 0 };

    /// The same member.
    fn again(&self) -> Self
        ensures { result ≡ self.now };

    /// How many bytes it is.
    fn spelled_len(&self) -> usize
        ensures len { result ≡ length (spelled self.now) }
        ensures bound { result < 2 ^ 33 };

    /// Adds its bytes, for which there is room.
    fn put(&self, out: &mut Vec<u8>)
        requires { length (spelled self.now) ≤ room_of out.old }
        ensures items { out.new.items ≡ out.old.items ++ spelled self.now }
        ensures room { room_of out.old ≤ length (spelled self.now) + room_of out.new }
        ensures fits { fits self.now };

    // what is spelled is read, and what was read is spelled so
    ghost format: { IsFormat member_at spelled fits };
}

/// A member that is read from bytes that live as long as it.
pub trait ReadMember<'a>: Member {
    fn read(cursor: &mut Cursor<'a>) -> Result<Self, EntryFault>
        ensures { Reads Self.member_at cursor.old cursor.new result };
}

/// One op of a commit: a packet that is sent, or a message that is taken from the queue of a number.
#[derive(Debug, Drop)]
pub enum OpView<'a> {
    Send(PacketSlice<'a>),
    Take { queue: u32, id: MessageId },
}

/// The number up to which a sequence was offered.
#[derive(Clone, Copy, Debug, PartialEq, Eq)]
pub struct Mark {
    pub ordinal: u32,
    pub number: u32,
}

fn put_send(out: &mut Vec<u8>, packet: &PacketSlice<'_>)
    requires { 5 + length packet.now ≤ room_of out.old }
    ensures items { out.new.items ≡ out.old.items ++ spelled_op (Send packet.now) }
    ensures room { room_of out.old ≤ 5 + length packet.now + room_of out.new }
    ensures fits { IsPacket packet.now }
{
    put_u8(out, 1);
    put_packet(out, packet);
}

fn put_take(out: &mut Vec<u8>, queue: u32, id: &MessageId)
    requires { 25 ≤ room_of out.old }
    ensures items { out.new.items ≡ out.old.items ++ spelled_op (Take queue id.now) }
    ensures room { room_of out.old ≤ 25 + room_of out.new }
    ensures fits { IsId id.now }
{
    put_u8(out, 2);
    put_u32(out, queue);
    put_id(out, id);
}

impl<'a> Member for OpView<'a> {
    ghost use Rattle.mqb_entries.specs.lemmas.MemberFormats.{op_format};
    ghost use Rattle.mqb_entries.specs.Members.{op_at};
    ghost use Rattle.mqb_entries.specs.Spelled.{IsOp, spelled_op};

    ghost member_at = { op_at };

    ghost spelled = { spelled_op };

    ghost fits = { IsOp };

    ghost format = { op_format };

    fn again(&self) -> OpView<'a> {
        match self {
            OpView::Send(packet) => OpView::Send(packet.again()),
            OpView::Take { queue, id } => OpView::Take {
                queue: *queue,
                id: *id,
            },
        }
    }

    fn spelled_len(&self) -> usize {
        match self {
            OpView::Send(packet) => 5 + packet.len(),
            OpView::Take { .. } => 25,
        }
    }

    fn put(&self, out: &mut Vec<u8>) {
        match self {
            OpView::Send(packet) => put_send(out, packet),
            OpView::Take { queue, id } => put_take(out, *queue, id),
        }
    }
}

impl<'a> ReadMember<'a> for OpView<'a> {
    #[tactic(auto, unfolding(crate::specs::Members::op_at))]
    fn read(cursor: &mut Cursor<'a>) -> Result<OpView<'a>, EntryFault> {
        let at = cursor.at();
        match u8_field(cursor)? {
            1 => Ok(OpView::Send(packet_field(cursor)?)),
            2 => {
                let queue = u32_field(cursor)?;
                let id = id_field(cursor)?;
                Ok(OpView::Take { queue, id })
            }
            _ => Err(EntryFault { at }),
        }
    }
}

impl Member for Mark {
    ghost use Rattle.mqb_entries.specs.lemmas.MemberFormats.{mark_format};
    ghost use Rattle.mqb_entries.specs.Members.{mark_at};
    ghost use Rattle.mqb_entries.specs.Spelled.{IsMark, spelled_mark};

    ghost member_at = { mark_at };

    ghost spelled = { spelled_mark };

    ghost fits = { IsMark };

    ghost format = { mark_format };

    fn again(&self) -> Mark {
        *self
    }

    fn spelled_len(&self) -> usize {
        8
    }

    fn put(&self, out: &mut Vec<u8>) {
        put_u32(out, self.ordinal);
        put_u32(out, self.number);
    }
}

impl<'a> ReadMember<'a> for Mark {
    #[tactic(auto, unfolding(crate::specs::Members::mark_at))]
    fn read(cursor: &mut Cursor<'a>) -> Result<Mark, EntryFault> {
        let ordinal = u32_field(cursor)?;
        let number = u32_field(cursor)?;
        Ok(Mark { ordinal, number })
    }
}

impl Member for u32 {
    ghost use Rattle.mqb_fields.specs.Writing.{bytes_of};
    ghost use Rattle.mqb_entries.specs.lemmas.FieldFormats.{u32_format};
    ghost use Rattle.mqb_entries.specs.Fields.{u32_at};
    ghost use Rattle.mqb_entries.specs.Spelled.{IsWord};

    ghost member_at = { u32_at };

    ghost spelled = { bytes_of 4 };

    ghost fits = { IsWord };

    ghost format = { u32_format };

    fn again(&self) -> u32 {
        *self
    }

    fn spelled_len(&self) -> usize {
        4
    }

    fn put(&self, out: &mut Vec<u8>) {
        put_u32(out, *self);
    }
}

impl<'a> ReadMember<'a> for u32 {
    fn read(cursor: &mut Cursor<'a>) -> Result<u32, EntryFault> {
        u32_field(cursor)
    }
}
