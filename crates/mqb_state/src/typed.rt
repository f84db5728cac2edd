//! What an entry has. But for the last, each function only says it.
ghost use Rattle.std.specs.Prelude.{◌≡◌, All, IfSome, Ok};
ghost use Rattle.mqb_entries.specs.Formats.{IsBytes};
ghost use Rattle.mqb_model.specs.records.Carrying.{IsRead};
ghost use Rattle.mqb_model.specs.records.Reading.{record_in};
ghost use Rattle.mqb_model.specs.state.State.{State};
ghost use Rattle.mqb_model.specs.state.Valid.{IsValidState};
ghost use Rattle.mqb_model.specs.Typed.{IsTyped, IsTypedOp, IsTypedPart, TellsOfCarried};
ghost use Rattle.mqb_snapshot.specs.Reading.{state_of};

use mqb_entries::{ArrivedPart, Entry, OpView, Ops, PacketForm, PacketSlice};
use mqb_model::{entries_are_read, packets_are_read, told_is_read};
use mqb_snapshot::read_states_are_valid;

fn bytes_are_bytes(bytes: &[u8])
    ensures { IsBytes bytes.now }
{}

fn packet_tells(packet: &PacketSlice<'_>)
    ensures { TellsOfCarried packet.now }
{
    packets_are_read();
    match packet.form() {
        PacketForm::Spelled(bytes) => bytes_are_bytes(bytes),
        PacketForm::Heard(view) => bytes_are_bytes(view.whole),
        PacketForm::Message { message, to, .. } => told_is_read(message, to),
    }
}

fn op_is_typed(op: &OpView<'_>)
    ensures { IsTypedOp op.now }
{
    if let OpView::Send(packet) = op {
        packet_tells(packet);
    }
}

fn ops_are_typed(ops: &Ops<'_>)
    ensures { All IsTypedOp ops.now }
{
    for op in ops.iter() {
        op_is_typed(&op);
    }
}

fn part_is_typed(part: &ArrivedPart<'_>)
    ensures { IsTypedPart part.now }
{
    if let ArrivedPart::Decided(packet) | ArrivedPart::Stored(packet) = part {
        packet_tells(packet);
    }
}

fn entry_is_typed(entry: &Entry<'_>)
    ensures { IsTyped entry.now }
{
    match entry {
        Entry::Peer(view) => {
            let _host = view.host.as_slice();
        }
        Entry::Commit { ops, .. } => ops_are_typed(ops),
        Entry::Plain { packet, .. } => packet_tells(packet),
        Entry::Arrived { part, .. } => part_is_typed(part),
        _ => {}
    }
}

/// The record that an entry is was read.
pub(crate) fn entry_is_read(entry: &Entry<'_>)
    ensures { IfSome (record_in entry.now) IsRead }
{
    entry_is_typed(entry);
    entries_are_read();
}

/// What bytes are read back as is valid.
pub(crate) fn read_back_is_valid(bytes: &[u8])
    ensures { (s : State) → state_of bytes.now ≡ Ok s → IsValidState s }
{
    bytes_are_bytes(bytes);
    read_states_are_valid();
}
