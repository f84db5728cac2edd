ghost use Rattle.std.specs.Prelude.{◌≡◌, ◌+◌, ◌*◌, ◌≤◌, Err, IsSomeAnd, OnOk, true};
ghost use Rattle.mqb_contents.specs.Rooms.{IsGrown};
ghost use Rattle.mqb_model.specs.records.Applying.{effect_of, fits};
ghost use Rattle.mqb_model.specs.records.Counting.{named_count};
ghost use Rattle.mqb_model.specs.records.Reading.{record_in};
ghost use Rattle.mqb_model.specs.rules.Effects.{joined};
ghost use Rattle.mqb_model.specs.state.Valid.{IsValidState};
ghost use Rattle.mqb_records.specs.Unfit.{IsUnfit};
ghost use Rattle.mqb_arrivals.specs.declared.faults.RecordFault.TheVariants as fault;

use crate::leaving::{purge, take, tick};
use crate::peers::add_peer;
use crate::plain::send_plain;
use crate::queues::create_queue;
use crate::records::{arrive, commit, offer};
use crate::rolls::set_roll;
use mqb_arrivals::RecordFault;
use mqb_drafts::Draft;
use mqb_entries::Entry;

/// Tries the record that an entry is.
pub fn apply_record(draft: &mut Draft, entry: &Entry<'_>) -> Result<(), RecordFault>
    requires valid { IsValidState draft.old.effect.state }
    ensures ok { OnOk result (IsSomeAnd (record_in entry.now) (λ r.
        (fits draft.old.effect.state r ≡ true)
        × (draft.new.effect ≡ joined draft.old.effect (effect_of draft.old.effect.state r)))) }
    ensures start { draft.new.start ≡ draft.old.start }
    ensures grown { IsGrown draft.old.rooms draft.new.rooms }
    ensures few { OnOk result (IsSomeAnd (record_in entry.now) (λ r.
        draft.new.held ≤ draft.old.held + 3 * named_count draft.old.effect.state r)) }
    ensures unfit { result ≡ Err fault.Unfit → IsUnfit draft.old.effect.state entry.now }
{
    match entry {
        Entry::Identity(_) => Err(RecordFault::Unfit),
        Entry::Peer(view) => add_peer(draft, view),
        Entry::CreateQueue(view) => create_queue(draft, view),
        Entry::Commit { now, ops } => commit(draft, *now, ops),
        Entry::Plain { now, packet } => send_plain(draft, *now, packet),
        Entry::Offered(marks) => offer(draft, marks),
        Entry::Arrived {
            now,
            released,
            part,
        } => arrive(draft, *now, released, part),
        Entry::Taken { now, place, id } => take(draft, *now, *place, *id),
        Entry::Purged { now, place } => purge(draft, *now, *place),
        Entry::Ticked { now } => tick(draft, *now),
        Entry::Roll { count } => set_roll(draft, *count),
    }
}
