ghost use Rattle.std.specs.Prelude.{◌*◌, ◌+◌, ◌≡◌, ◌≢◌, ◌≤◌, Err, OnOk, Some, false};
ghost use Rattle.mqb_contents.specs.Rooms.{IsGrown};
ghost use Rattle.mqb_model.specs.records.Applying.{fits};
ghost use Rattle.mqb_model.specs.records.Record as entry;
ghost use Rattle.mqb_records.specs.Applied.{IsApplied, IsFew};
ghost use Rattle.mqb_arrivals.specs.declared.faults.RecordFault.TheVariants as fault;

use mqb_arrivals::RecordFault;
use mqb_base::{EntryPlace, Lane, MessageId};
use mqb_drafts::Draft;
use mqb_rules::{purged, taken};
use mqb_timeouts::{lane_ticked, rows_expired};

/// Tries the record Taken.
#[tactic(auto, using(crate::proofs::Framing::taken_whole))]
pub(crate) fn take(
    draft: &mut Draft,
    now: u32,
    at: EntryPlace,
    id: MessageId,
) -> Result<(), RecordFault>
    ensures ok { OnOk result (IsApplied draft.old.effect (Some (entry.Taken now at id))
        draft.new.effect) }
    ensures start { draft.new.start ≡ draft.old.start }
    ensures grown { IsGrown draft.old.rooms draft.new.rooms }
    ensures few { OnOk result (IsFew draft.old.effect.state (Some (entry.Taken now at id))
        draft.old.held draft.new.held) }
    ensures unfit { result ≡ Err fault.Unfit →
        fits draft.old.effect.state (entry.Taken now at id) ≡ false }
{
    if draft.contents().queues().index_named(at, id, now).is_none() {
        return Err(RecordFault::Unfit);
    }
    taken(draft, at, id, now)?;
    Ok(())
}

/// Tries the record Purged.
#[tactic(auto, using(crate::proofs::Framing::purged_whole))]
pub(crate) fn purge(draft: &mut Draft, now: u32, at: EntryPlace) -> Result<(), RecordFault>
    ensures ok { OnOk result (IsApplied draft.old.effect (Some (entry.Purged now at))
        draft.new.effect) }
    ensures start { draft.new.start ≡ draft.old.start }
    ensures grown { IsGrown draft.old.rooms draft.new.rooms }
    ensures few { OnOk result (IsFew draft.old.effect.state (Some (entry.Purged now at))
        draft.old.held draft.new.held) }
    ensures unfit { result ≡ Err fault.Unfit →
        fits draft.old.effect.state (entry.Purged now at) ≡ false }
{
    if draft.contents().queues().len_at(at).is_none() {
        return Err(RecordFault::Unfit);
    }
    purged(draft, Lane::Durable, at, now)?;
    Ok(())
}

/// Tries the record Ticked.
#[tactic(auto, using(crate::proofs::Framing::ticked_whole))]
pub(crate) fn tick(draft: &mut Draft, now: u32) -> Result<(), RecordFault>
    ensures ok { OnOk result (IsApplied draft.old.effect (Some (entry.Ticked now))
        draft.new.effect) }
    ensures start { draft.new.start ≡ draft.old.start }
    ensures grown { IsGrown draft.old.rooms draft.new.rooms }
    ensures few { OnOk result (IsFew draft.old.effect.state (Some (entry.Ticked now))
        draft.old.held draft.new.held) }
    ensures fit { result ≢ Err fault.Unfit }
{
    rows_expired(draft, now)?;
    lane_ticked(draft, Lane::Durable, now)?;
    Ok(())
}
