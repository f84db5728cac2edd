ghost use Rattle.std.specs.Prelude.{◌+◌, ◌≡◌, ◌≤◌, Err, IfSome, OnOk, Some, false, is_some};
ghost use Rattle.mqb_contents.specs.Rooms.{IsGrown};
ghost use Rattle.mqb_model.specs.records.Arrived.{is_from_peer, part_fits};
ghost use Rattle.mqb_model.specs.records.Record as entry;
ghost use Rattle.mqb_arrivals.specs.Parts.{IsFewOf, IsPartMade};
ghost use Rattle.mqb_arrivals.specs.declared.faults.RecordFault.TheVariants as fault;

use crate::decisions::{decide, decided_fits, discard, store};
use crate::faults::RecordFault;
use crate::finals::{is_final, store_final};
use mqb_base::{Message, TxHead};
use mqb_contents::Contents;
use mqb_drafts::Draft;
use mqb_packet::UserPacket;
use mqb_rules::is_recoverable;

fn is_from_peer(contents: &Contents, message: &Message) -> bool
    ensures { result ≡ is_from_peer contents.now.lists message.now }
{
    contents.peer_known(message.id.qm).is_some()
}

/// The transaction header of a packet that is decided.
fn head_decided(contents: &Contents, packet: &UserPacket) -> Option<TxHead>
    ensures fit { is_some result ≡ part_fits contents.now.lists (entry.Decided packet.now) }
    ensures head { IfSome result (λ tx. packet.now.tx ≡ Some tx) }
{
    if is_from_peer(contents, &packet.message) && decided_fits(contents, packet) {
        packet.tx
    } else {
        None
    }
}

fn stored_fits(contents: &Contents, packet: &UserPacket) -> bool
    ensures { result ≡ part_fits contents.now.lists (entry.Stored packet.now) }
{
    is_from_peer(contents, &packet.message)
        && is_recoverable(packet.message.delivery)
        && !is_final(contents, &packet.message)
}

fn final_fits(contents: &Contents, packet: &UserPacket) -> bool
    ensures { result ≡ part_fits contents.now.lists (entry.Final packet.now) }
{
    is_from_peer(contents, &packet.message) && is_final(contents, &packet.message)
}

pub(crate) fn decide_packet(
    draft: &mut Draft,
    now: u32,
    packet: UserPacket,
) -> Result<(), RecordFault>
    ensures ok { OnOk result (IsPartMade now draft.old.effect (Some (entry.Decided packet))
        draft.new.effect) }
    ensures start { draft.new.start ≡ draft.old.start }
    ensures grown { IsGrown draft.old.rooms draft.new.rooms }
    ensures held { OnOk result (draft.new.held ≤ draft.old.held + 3) }
    ensures unfit { result ≡ Err fault.Unfit →
        part_fits draft.old.effect.state (entry.Decided packet) ≡ false }
{
    match head_decided(draft.contents(), &packet) {
        Some(tx) => {
            decide(draft, packet, tx, now)?;
            Ok(())
        }
        None => {
            discard(packet);
            Err(RecordFault::Unfit)
        }
    }
}

pub(crate) fn store_packet(
    draft: &mut Draft,
    now: u32,
    packet: UserPacket,
) -> Result<(), RecordFault>
    ensures ok { OnOk result (IsPartMade now draft.old.effect (Some (entry.Stored packet))
        draft.new.effect) }
    ensures start { draft.new.start ≡ draft.old.start }
    ensures grown { IsGrown draft.old.rooms draft.new.rooms }
    ensures held { OnOk result (draft.new.held ≤ draft.old.held + 3) }
    ensures unfit { result ≡ Err fault.Unfit →
        part_fits draft.old.effect.state (entry.Stored packet) ≡ false }
{
    if stored_fits(draft.contents(), &packet) {
        store(draft, packet, now)?;
        Ok(())
    } else {
        discard(packet);
        Err(RecordFault::Unfit)
    }
}

pub(crate) fn store_final_packet(
    draft: &mut Draft,
    now: u32,
    packet: &UserPacket,
) -> Result<(), RecordFault>
    ensures ok { OnOk result (IsPartMade now draft.old.effect (Some (entry.Final packet.now))
        draft.new.effect) }
    ensures start { draft.new.start ≡ draft.old.start }
    ensures grown { IsGrown draft.old.rooms draft.new.rooms }
    ensures few { OnOk result (IsFewOf draft.old.effect.state (Some (entry.Final packet.now))
        draft.old.held draft.new.held) }
    ensures unfit { result ≡ Err fault.Unfit →
        part_fits draft.old.effect.state (entry.Final packet.now) ≡ false }
{
    if !final_fits(draft.contents(), packet) {
        return Err(RecordFault::Unfit);
    }
    store_final(draft, &packet.message)?;
    Ok(())
}
