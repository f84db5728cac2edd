ghost use Rattle.std.specs.Prelude.{◌*◌, ◌+◌, ◌<◌, ◌≡◌, ◌≤◌, [], Err, IfOk, None, OnOk, Some};
ghost use Rattle.std.specs.Prelude.{false, length, true};
ghost use Rattle.std.specs.VecDeque.{deque_capacity, deque_len};
ghost use Rattle.mqb_base.specs.declared.queues.EntryPlace.TheVariants as place;
ghost use Rattle.mqb_contents.specs.Rooms.{IsGrown};
ghost use Rattle.mqb_model.specs.declared.limits.TheConstants.{MAX_NUMBER};
ghost use Rattle.mqb_model.specs.records.Commit.{join_fits, send_made, take_fits};
ghost use Rattle.mqb_model.specs.records.Packets.{in_transaction};
ghost use Rattle.mqb_model.specs.records.Reading.{user_packet_of};
ghost use Rattle.mqb_model.specs.rules.Sequences.{may_join};
ghost use Rattle.mqb_model.specs.rules.Takes.{taken};
ghost use Rattle.mqb_model.specs.state.Resolving.{resolved};
ghost use Rattle.mqb_records.specs.Ops.{bytes_fit, packet_joins, packets_fit, packets_shown};
ghost use Rattle.mqb_records.specs.Ops.{sends_tried, takes_in, takes_tried};
ghost use Rattle.mqb_records.specs.Ordered.{IsOrdered};
ghost use Rattle.mqb_arrivals.specs.declared.faults.RecordFault.TheVariants as fault;

use crate::packets::{discard, is_sendable};
use mqb_arrivals::{RecordFault, user_packet_of};
use mqb_base::{Delivery, EntryPlace, Memory, Message, MessageId, QueueName};
use mqb_contents::Contents;
use mqb_drafts::Draft;
use mqb_entries::{OpView, Ops, PacketSlice};
use mqb_model::{MAX_ORDINAL, Target};
use mqb_packet::{Headers, UserPacket};
use mqb_rules::{message_sent, resolved, taken};
use std::collections::VecDeque;

// The packets.

/// An empty list with room for the packet of each op.
pub(crate) fn room_for_packets(draft: &Draft, ops: &Ops<'_>) -> Result<VecDeque<UserPacket>, Memory>
    ensures empty { IfOk result (λ packets. packets.items ≡ []) }
    ensures room { IfOk result (λ packets. length ops.now ≤ deque_capacity packets) }
{
    Ok(VecDeque::with_capacity(draft.alloc(), usize::from(ops.len()))?)
}

/// The packet that bytes are, which a transaction can send under a number.
#[tactic(auto, using(crate::proofs::Reading::number_left))]
fn sendable_packet(
    draft: &Draft,
    number: u32,
    bytes: &PacketSlice<'_>,
) -> Result<UserPacket, RecordFault>
    ensures read { IfOk result (λ packet. user_packet_of bytes.now ≡ Some packet) }
    ensures fit { OnOk result (bytes_fit draft.now.effect.state number bytes.now ≡ true) }
    ensures left { OnOk result (number ≤ MAX_NUMBER) }
    ensures unfit { result ≡ Err fault.Unfit →
        bytes_fit draft.now.effect.state number bytes.now ≡ false }
{
    let Some(packet) = user_packet_of(draft.alloc(), bytes)? else {
        return Err(RecordFault::Unfit);
    };
    if !is_sendable(draft.contents(), Headers::TxAndSession, number, &packet) {
        discard(packet);
        return Err(RecordFault::Unfit);
    }
    Ok(packet)
}

/// Reads the packets of all sends, which fit, one behind another.
pub(crate) fn read_all(
    draft: &Draft,
    ops: &Ops<'_>,
    packets: &mut VecDeque<UserPacket>,
) -> Result<(), RecordFault>
    requires number { draft.now.effect.state.next_number ≤ MAX_NUMBER + 1 }
    requires empty { packets.old.items ≡ [] }
    requires room { length ops.now ≤ deque_capacity packets.old }
    ensures fit { OnOk result
        (packets_fit draft.now.effect.state draft.now.effect.state.next_number ops.now ≡ true) }
    ensures read { OnOk result (packets.new.items ≡ packets_shown ops.now) }
    ensures count { OnOk result (deque_len packets.new ≡ length (packets_shown ops.now)) }
    ensures left { OnOk result
        (draft.now.effect.state.next_number + deque_len packets.new ≤ MAX_NUMBER + 1) }
    ensures unfit { result ≡ Err fault.Unfit →
        packets_fit draft.now.effect.state draft.now.effect.state.next_number ops.now ≡ false }
{
    let mut number = draft.contents().next_number();
    for op in ops.iter() {
        if let OpView::Send(bytes) = op {
            let packet = sendable_packet(draft, number, &bytes)?;
            packets.push_back_reserved(packet);
            number += 1;
        }
    }
    Ok(())
}

// The takes.

fn take(draft: &mut Draft, now: u32, queue: u32, id: MessageId) -> Result<(), RecordFault>
    ensures ok { OnOk result (draft.new.effect ≡
        taken (place.Queue queue) id now draft.old.effect) }
    ensures fit { OnOk result
        (take_fits draft.old.effect.state now (place.Queue queue) id ≡ true) }
    ensures start { draft.new.start ≡ draft.old.start }
    ensures grown { IsGrown draft.old.rooms draft.new.rooms }
    ensures held { OnOk result (draft.new.held ≤ draft.old.held + 3) }
    ensures unfit { result ≡ Err fault.Unfit →
        take_fits draft.old.effect.state now (place.Queue queue) id ≡ false }
{
    let at = EntryPlace::Queue(queue);
    if draft.contents().queues().index_named(at, id, now).is_none() {
        return Err(RecordFault::Unfit);
    }
    taken(draft, at, id, now)?;
    Ok(())
}

pub(crate) fn take_all(draft: &mut Draft, now: u32, ops: &Ops<'_>) -> Result<(), RecordFault>
    requires { IsOrdered draft.old.effect.state }
    ensures ok { OnOk result
        (takes_tried now draft.old.effect ops.now ≡ Some draft.new.effect) }
    ensures ordered { OnOk result (IsOrdered draft.new.effect.state) }
    ensures start { draft.new.start ≡ draft.old.start }
    ensures grown { IsGrown draft.old.rooms draft.new.rooms }
    ensures held { OnOk result (draft.new.held ≤ draft.old.held + 3 * takes_in ops.now) }
    ensures unfit { result ≡ Err fault.Unfit →
        takes_tried now draft.old.effect ops.now ≡ None }
{
    for op in ops.iter() {
        if let OpView::Take { queue, id } = op {
            take(draft, now, queue, id)?;
        }
    }
    Ok(())
}

// The sends.

/// Whether the sequence of a destination takes another message.
fn may_join(contents: &Contents, peer: u32, destination: &QueueName) -> bool
    ensures { result ≡ may_join contents.now.lists peer destination.now }
{
    match contents.last_sequence(peer, destination) {
        Some(row) if contents.out(row).committed < contents.roll() => true,
        _ => contents.next_ordinal() <= MAX_ORDINAL,
    }
}

fn join_fits(contents: &Contents, destination: &QueueName) -> bool
    ensures { result ≡ join_fits contents.now.lists
        (resolved contents.now.lists destination.now) destination.now }
{
    match resolved(contents, destination) {
        Target::AtPeer(k) => may_join(contents, k, destination),
        Target::Here(_) | Target::Nowhere => true,
    }
}

/// The message that a transaction sends in a packet.
fn in_transaction(packet: UserPacket) -> Message
    ensures { result ≡ in_transaction packet }
{
    let mut message = packet.message;
    message.delivery = Delivery::Transactional;
    message
}

fn send(draft: &mut Draft, now: u32, packet: UserPacket) -> Result<(), RecordFault>
    requires { IsOrdered draft.old.effect.state }
    ensures ok { OnOk result
        (draft.new.effect ≡ send_made now draft.old.effect (in_transaction packet)) }
    ensures fit { OnOk result (packet_joins draft.old.effect.state packet ≡ true) }
    ensures ordered { OnOk result (IsOrdered draft.new.effect.state) }
    ensures start { draft.new.start ≡ draft.old.start }
    ensures grown { IsGrown draft.old.rooms draft.new.rooms }
    ensures held { OnOk result (draft.new.held ≤ draft.old.held + 3) }
    ensures unfit { result ≡ Err fault.Unfit →
        packet_joins draft.old.effect.state packet ≡ false }
{
    if !join_fits(draft.contents(), &packet.message.destination) {
        discard(packet);
        return Err(RecordFault::Unfit);
    }
    message_sent(draft, in_transaction(packet), now)?;
    Ok(())
}

/// Sends the messages of packets, the first first.
pub(crate) fn send_all(
    draft: &mut Draft,
    now: u32,
    packets: &mut VecDeque<UserPacket>,
) -> Result<(), RecordFault>
    requires { IsOrdered draft.old.effect.state }
    ensures ok { OnOk result
        (sends_tried now draft.old.effect packets.old.items ≡ Some draft.new.effect) }
    ensures start { draft.new.start ≡ draft.old.start }
    ensures grown { IsGrown draft.old.rooms draft.new.rooms }
    ensures held { OnOk result
        (draft.new.held ≤ draft.old.held + 3 * length packets.old.items) }
    ensures unfit { result ≡ Err fault.Unfit →
        sends_tried now draft.old.effect packets.old.items ≡ None }
{
    while let Some(packet) = packets.pop_front() {
        send(draft, now, packet)?;
    }
    Ok(())
}
