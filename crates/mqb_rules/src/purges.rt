ghost use Rattle.std.specs.Prelude.{◌≡◌, ◌+◌, ◌*◌, ◌<◌, ◌≤◌, IsSomeAnd, OnOk, length};
ghost use Rattle.mqb_drafts.specs.mqb_contents.Rooms.{IsGrown};
ghost use Rattle.mqb_model.specs.rules.Effects.{joined, without_line};
ghost use Rattle.mqb_model.specs.rules.Purges.{after_purge, count_at, message_purged};
ghost use Rattle.mqb_model.specs.rules.Purges.{oldest_purged, purge_line, purged};
ghost use Rattle.mqb_queue.specs.Lists.{messages_in};
ghost use Rattle.mqb_queue.specs.Places.{lists_at};

use crate::notices::meets;
use crate::takes::copy_at;
use mqb_base::{Class, EntryPlace, Lane, Line, Memory, Message};
use mqb_drafts::Draft;

fn purge_line(at: EntryPlace, message: &Message) -> Line
    ensures { result ≡ purge_line at message.now }
{
    match at {
        EntryPlace::Queue(_) => Line::Purged { id: message.id },
        EntryPlace::JournalOf(_) | EntryPlace::Dead | EntryPlace::DeadXact | EntryPlace::Journal =>
            Line::Emptied { id: message.id },
    }
}

fn after_purge(draft: &mut Draft, at: EntryPlace, message: &Message, now: u32) -> Result<(), Memory>
    ensures ok { OnOk result (draft.new.effect ≡ without_line draft.old.effect
        (after_purge draft.old.effect.state at message.now now)) }
    ensures start { draft.new.start ≡ draft.old.start }
    ensures grown { IsGrown draft.old.rooms draft.new.rooms }
    ensures held { OnOk result (draft.new.held ≤ draft.old.held + 2) }
{
    match at {
        EntryPlace::Queue(_) => meets(draft, message, Class::QUEUE_PURGED, now),
        EntryPlace::JournalOf(_) | EntryPlace::Dead | EntryPlace::DeadXact | EntryPlace::Journal =>
            Ok(()),
    }
}

/// The oldest message of a lane of a place, of which this is a copy, is purged.
fn purge(
    draft: &mut Draft,
    lane: Lane,
    at: EntryPlace,
    message: &Message,
    now: u32,
) -> Result<(), Memory>
    requires { IsSomeAnd (lists_at draft.old.effect.state.places at)
        (λ l. 0 < length (messages_in lane l)) }
    ensures ok { OnOk result (draft.new.effect ≡ joined draft.old.effect
        (message_purged lane at now draft.old.effect.state message.now)) }
    ensures start { draft.new.start ≡ draft.old.start }
    ensures grown { IsGrown draft.old.rooms draft.new.rooms }
    ensures held { OnOk result (draft.new.held ≤ draft.old.held + 2) }
{
    draft.take_out(at, lane, 0)?;
    after_purge(draft, at, message, now)?;
    draft.note(purge_line(at, message))
}

/// It is purged, where there is one.
fn purge_oldest(draft: &mut Draft, lane: Lane, at: EntryPlace, now: u32) -> Result<(), Memory>
    ensures ok { OnOk result (draft.new.effect ≡ oldest_purged lane at now draft.old.effect) }
    ensures start { draft.new.start ≡ draft.old.start }
    ensures grown { IsGrown draft.old.rooms draft.new.rooms }
    ensures held { OnOk result (draft.new.held ≤ draft.old.held + 2) }
{
    match copy_at(draft.contents(), lane, at, 0)? {
        Some(message) => purge(draft, lane, at, &message, now),
        None => Ok(()),
    }
}

/// The messages that a lane of a place has are purged, the oldest first. A notice that is put
/// there meanwhile stays.
pub fn purged(draft: &mut Draft, lane: Lane, at: EntryPlace, now: u32) -> Result<(), Memory>
    ensures ok { OnOk result (draft.new.effect ≡ purged lane at now draft.old.effect) }
    ensures start { draft.new.start ≡ draft.old.start }
    ensures grown { IsGrown draft.old.rooms draft.new.rooms }
    ensures held { OnOk result (draft.new.held ≤
        draft.old.held + 3 * count_at lane draft.old.effect.state at) }
{
    for _ in 0..draft.contents().count_at(at, lane) {
        purge_oldest(draft, lane, at, now)?;
    }
    Ok(())
}
