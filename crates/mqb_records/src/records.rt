ghost use Rattle.std.specs.Prelude.{[], ◌≡◌, ◌≤◌, Err, OnOk, Some, false, length, option_map, true};
ghost use Rattle.std.specs.VecDeque.{deque_capacity};
ghost use Rattle.mqb_contents.specs.Rooms.{IsGrown};
ghost use Rattle.mqb_model.specs.records.Reading.{part_of};
ghost use Rattle.mqb_model.specs.records.Record as entry;
ghost use Rattle.mqb_model.specs.state.Valid.{IsValidState};
ghost use Rattle.mqb_records.specs.Applied.{IsApplied, IsFew};
ghost use Rattle.mqb_records.specs.Ops.{record_shown};
ghost use Rattle.mqb_records.specs.Unfit.{is_fit};
ghost use Rattle.mqb_arrivals.specs.declared.faults.RecordFault.TheVariants as fault;

use crate::commit::{read_all, room_for_packets, send_all, take_all};
use crate::offered::raise_all;
use mqb_arrivals::{RecordFault, make_part, release_all};
use mqb_drafts::Draft;
use mqb_entries::{ArrivedPart, Marks, Numbers, Ops};
use mqb_model::stepwise_is_effect;
use mqb_packet::UserPacket;
use std::collections::VecDeque;

/// Tries the record Offered.
pub(crate) fn offer(draft: &mut Draft, marks: &Marks<'_>) -> Result<(), RecordFault>
    ensures ok { OnOk result (IsApplied draft.old.effect (Some (entry.Offered marks.now))
        draft.new.effect) }
    ensures start { draft.new.start ≡ draft.old.start }
    ensures grown { IsGrown draft.old.rooms draft.new.rooms }
    ensures few { OnOk result (IsFew draft.old.effect.state (Some (entry.Offered marks.now))
        draft.old.held draft.new.held) }
    ensures unfit { result ≡ Err fault.Unfit →
        is_fit draft.old.effect.state (Some (entry.Offered marks.now)) ≡ false }
{
    stepwise_is_effect();
    raise_all(draft, marks)
}

/// Tries the record Arrived.
pub(crate) fn arrive(
    draft: &mut Draft,
    now: u32,
    released: &Numbers<'_>,
    part: &ArrivedPart<'_>,
) -> Result<(), RecordFault>
    ensures ok { OnOk result (IsApplied draft.old.effect
        (option_map (λ part. entry.Arrived now released.now part) (part_of part.now))
        draft.new.effect) }
    ensures start { draft.new.start ≡ draft.old.start }
    ensures grown { IsGrown draft.old.rooms draft.new.rooms }
    ensures few { OnOk result (IsFew draft.old.effect.state
        (option_map (λ part. entry.Arrived now released.now part) (part_of part.now))
        draft.old.held draft.new.held) }
    ensures unfit { result ≡ Err fault.Unfit → is_fit draft.old.effect.state
        (option_map (λ part. entry.Arrived now released.now part) (part_of part.now)) ≡ false }
{
    stepwise_is_effect();
    release_all(draft, released)?;
    make_part(draft, now, part)
}

/// Tries the steps of a transaction, whose packets are put in a list with room for them.
fn try_steps(
    draft: &mut Draft,
    now: u32,
    ops: &Ops<'_>,
    packets: &mut VecDeque<UserPacket>,
) -> Result<(), RecordFault>
    requires valid { IsValidState draft.old.effect.state }
    requires empty { packets.old.items ≡ [] }
    requires room { length ops.now ≤ deque_capacity packets.old }
    ensures ok { OnOk result
        (IsApplied draft.old.effect (record_shown now ops.now) draft.new.effect) }
    ensures start { draft.new.start ≡ draft.old.start }
    ensures grown { IsGrown draft.old.rooms draft.new.rooms }
    ensures few { OnOk result (IsFew draft.old.effect.state (record_shown now ops.now)
        draft.old.held draft.new.held) }
    ensures unfit { result ≡ Err fault.Unfit →
        is_fit draft.old.effect.state (record_shown now ops.now) ≡ false }
{
    stepwise_is_effect();
    read_all(draft, ops, packets)?;
    draft.take_numbers(packets.len() as u32)?;
    take_all(draft, now, ops)?;
    send_all(draft, now, packets)
}

/// Tries the record Commit.
pub(crate) fn commit(draft: &mut Draft, now: u32, ops: &Ops<'_>) -> Result<(), RecordFault>
    requires { IsValidState draft.old.effect.state }
    ensures ok { OnOk result
        (IsApplied draft.old.effect (record_shown now ops.now) draft.new.effect) }
    ensures start { draft.new.start ≡ draft.old.start }
    ensures grown { IsGrown draft.old.rooms draft.new.rooms }
    ensures few { OnOk result (IsFew draft.old.effect.state (record_shown now ops.now)
        draft.old.held draft.new.held) }
    ensures unfit { result ≡ Err fault.Unfit →
        is_fit draft.old.effect.state (record_shown now ops.now) ≡ false }
{
    let mut packets = room_for_packets(draft, ops)?;
    try_steps(draft, now, ops, &mut packets)
}
