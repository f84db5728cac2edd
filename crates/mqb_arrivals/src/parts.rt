ghost use Rattle.std.specs.Prelude.{◌≡◌, Err, OnOk, Some, false};
ghost use Rattle.mqb_contents.specs.Rooms.{IsGrown};
ghost use Rattle.mqb_model.specs.records.Reading.{part_of};
ghost use Rattle.mqb_model.specs.records.Record as entry;
ghost use Rattle.mqb_entries.specs.declared.entry.ArrivedPart.TheVariants as part;
ghost use Rattle.mqb_arrivals.specs.Parts.{IsFewOf, IsPartMade, is_part_fit};
ghost use Rattle.mqb_arrivals.specs.declared.faults.RecordFault.TheVariants as fault;

use crate::acked::acknowledge;
use crate::arrived::{decide_packet, store_final_packet, store_packet};
use crate::faults::RecordFault;
use crate::packets::user_packet_of;
use mqb_drafts::Draft;
use mqb_entries::{ArrivedPart, PacketSlice};

fn decide_bytes(draft: &mut Draft, now: u32, bytes: &PacketSlice<'_>) -> Result<(), RecordFault>
    ensures ok { OnOk result (IsPartMade now draft.old.effect (part_of (part.Decided bytes.now))
        draft.new.effect) }
    ensures start { draft.new.start ≡ draft.old.start }
    ensures grown { IsGrown draft.old.rooms draft.new.rooms }
    ensures few { OnOk result (IsFewOf draft.old.effect.state (part_of (part.Decided bytes.now))
        draft.old.held draft.new.held) }
    ensures unfit { result ≡ Err fault.Unfit →
        is_part_fit draft.old.effect.state (part_of (part.Decided bytes.now)) ≡ false }
{
    match user_packet_of(draft.alloc(), bytes)? {
        Some(packet) => decide_packet(draft, now, packet),
        None => Err(RecordFault::Unfit),
    }
}

fn store_bytes(draft: &mut Draft, now: u32, bytes: &PacketSlice<'_>) -> Result<(), RecordFault>
    ensures ok { OnOk result (IsPartMade now draft.old.effect (part_of (part.Stored bytes.now))
        draft.new.effect) }
    ensures start { draft.new.start ≡ draft.old.start }
    ensures grown { IsGrown draft.old.rooms draft.new.rooms }
    ensures few { OnOk result (IsFewOf draft.old.effect.state (part_of (part.Stored bytes.now))
        draft.old.held draft.new.held) }
    ensures unfit { result ≡ Err fault.Unfit →
        is_part_fit draft.old.effect.state (part_of (part.Stored bytes.now)) ≡ false }
{
    match user_packet_of(draft.alloc(), bytes)? {
        Some(packet) => store_packet(draft, now, packet),
        None => Err(RecordFault::Unfit),
    }
}

fn store_final_bytes(
    draft: &mut Draft,
    now: u32,
    bytes: &PacketSlice<'_>,
) -> Result<(), RecordFault>
    ensures ok { OnOk result (IsPartMade now draft.old.effect (part_of (part.Final bytes.now))
        draft.new.effect) }
    ensures start { draft.new.start ≡ draft.old.start }
    ensures grown { IsGrown draft.old.rooms draft.new.rooms }
    ensures few { OnOk result (IsFewOf draft.old.effect.state (part_of (part.Final bytes.now))
        draft.old.held draft.new.held) }
    ensures unfit { result ≡ Err fault.Unfit →
        is_part_fit draft.old.effect.state (part_of (part.Final bytes.now)) ≡ false }
{
    match user_packet_of(draft.alloc(), bytes)? {
        Some(packet) => store_final_packet(draft, now, &packet),
        None => Err(RecordFault::Unfit),
    }
}

/// What arrived is dealt with.
pub fn make_part(draft: &mut Draft, now: u32, arrived: &ArrivedPart<'_>) -> Result<(), RecordFault>
    ensures ok { OnOk result (IsPartMade now draft.old.effect (part_of arrived.now)
        draft.new.effect) }
    ensures start { draft.new.start ≡ draft.old.start }
    ensures grown { IsGrown draft.old.rooms draft.new.rooms }
    ensures few { OnOk result (IsFewOf draft.old.effect.state (part_of arrived.now)
        draft.old.held draft.new.held) }
    ensures unfit { result ≡ Err fault.Unfit →
        is_part_fit draft.old.effect.state (part_of arrived.now) ≡ false }
{
    match arrived {
        ArrivedPart::Nothing => Ok(()),
        ArrivedPart::Decided(bytes) => decide_bytes(draft, now, bytes),
        ArrivedPart::Stored(bytes) => store_bytes(draft, now, bytes),
        ArrivedPart::OrderAcknowledged { ordinal, number } => {
            acknowledge(draft, *ordinal, *number)
        }
        ArrivedPart::Final(bytes) => store_final_bytes(draft, now, bytes),
    }
}
