ghost use Rattle.std.specs.Prelude.{◌≡◌, ◌+◌, ◌<◌, ◌≤◌, IfOk, IfSome, IsSomeAnd, OnOk, Some, false};
ghost use Rattle.std.specs.Prelude.{length, option_copied};
ghost use Rattle.std.specs.Option.{option_map_or};
ghost use Rattle.mqb_base.specs.declared.class.TheConstants.Class.{RECEIVED};
ghost use Rattle.mqb_drafts.specs.mqb_contents.Rooms.{IsGrown};
ghost use Rattle.mqb_model.specs.rules.Effects.{joined, without_line};
ghost use Rattle.mqb_model.specs.rules.Notices.{meets};
ghost use Rattle.mqb_model.specs.rules.Takes.{after_take, copied, message_at, message_taken};
ghost use Rattle.mqb_model.specs.rules.Takes.{take_line, taken, taken_at};
ghost use Rattle.mqb_queue.specs.Lists.{messages_in};
ghost use Rattle.mqb_queue.specs.Places.{lists_at, numbered};

use crate::notices::meets;
use crate::placing::put_at;
use mqb_base::{Class, EntryPlace, Lane, Line, Memory, Message, MessageId};
use mqb_drafts::{Contents, Draft};

/// The message of a lane of a place at an index.
pub(crate) fn message_at(
    contents: &Contents,
    lane: Lane,
    at: EntryPlace,
    index: u32,
) -> Option<&Message>
    ensures message { option_copied result ≡ message_at lane contents.now.lists at index }
{
    contents.queues().messages_at(at, lane)?.get(index as usize)
}

/// A copy of it.
pub fn copy_at(
    contents: &Contents,
    lane: Lane,
    at: EntryPlace,
    index: u32,
) -> Result<Option<Message>, Memory>
    ensures copy { IfOk result (λ copy. copy ≡ message_at lane contents.now.lists at index) }
    ensures there { IfOk result (λ copy. IfSome copy (λ m.
        IsSomeAnd (lists_at contents.now.lists.places at)
        (λ l. index < length (messages_in lane l)))) }
{
    match message_at(contents, lane, at, index) {
        Some(message) => Ok(Some(message.clone()?)),
        None => Ok(None),
    }
}

fn has_journal(contents: &Contents, number: u32) -> bool
    ensures { result ≡ option_map_or (λ q. q.plan.journal)
        (numbered contents.now.lists.places.queues number) false }
{
    match contents.queues().plan_numbered(number) {
        Some(plan) => plan.journal,
        None => false,
    }
}

/// A queue that has a journal keeps a copy there.
fn copy_taken(draft: &mut Draft, number: u32, message: &Message) -> Result<(), Memory>
    ensures ok { OnOk result (draft.new.effect ≡ without_line draft.old.effect
        (copied draft.old.effect.state number message.now)) }
    ensures start { draft.new.start ≡ draft.old.start }
    ensures grown { IsGrown draft.old.rooms draft.new.rooms }
    ensures held { OnOk result (draft.new.held ≤ draft.old.held + 1) }
{
    if has_journal(draft.contents(), number) {
        put_at(draft, EntryPlace::JournalOf(number), message.clone()?)
    } else {
        Ok(())
    }
}

/// A message that was taken from a queue is copied and meets the class of a receipt.
fn receive(draft: &mut Draft, number: u32, message: &Message, now: u32) -> Result<(), Memory>
    ensures ok { OnOk result (draft.new.effect ≡ without_line draft.old.effect
        (meets (copied draft.old.effect.state number message.now) message.now RECEIVED now)) }
    ensures start { draft.new.start ≡ draft.old.start }
    ensures grown { IsGrown draft.old.rooms draft.new.rooms }
    ensures held { OnOk result (draft.new.held ≤ draft.old.held + 3) }
{
    copy_taken(draft, number, message)?;
    meets(draft, message, Class::RECEIVED, now)
}

fn after_take(draft: &mut Draft, at: EntryPlace, message: &Message, now: u32) -> Result<(), Memory>
    ensures ok { OnOk result (draft.new.effect ≡ without_line draft.old.effect
        (after_take draft.old.effect.state at message.now now)) }
    ensures start { draft.new.start ≡ draft.old.start }
    ensures grown { IsGrown draft.old.rooms draft.new.rooms }
    ensures held { OnOk result (draft.new.held ≤ draft.old.held + 3) }
{
    match at {
        EntryPlace::Queue(number) => receive(draft, number, message, now),
        EntryPlace::JournalOf(_) | EntryPlace::Dead | EntryPlace::DeadXact | EntryPlace::Journal =>
            Ok(()),
    }
}

fn take_line(at: EntryPlace, message: &Message) -> Line
    ensures { result ≡ take_line at message.now }
{
    match at {
        EntryPlace::Queue(_) => Line::Took { id: message.id },
        EntryPlace::JournalOf(_) | EntryPlace::Dead | EntryPlace::DeadXact | EntryPlace::Journal =>
            Line::Emptied { id: message.id },
    }
}

/// The message of a lane at an index, of which this is a copy, is taken.
fn take(
    draft: &mut Draft,
    lane: Lane,
    at: EntryPlace,
    index: u32,
    message: &Message,
    now: u32,
) -> Result<(), Memory>
    requires { IsSomeAnd (lists_at draft.old.effect.state.places at)
        (λ l. index < length (messages_in lane l)) }
    ensures ok { OnOk result (draft.new.effect ≡ joined draft.old.effect
        (message_taken lane at index now draft.old.effect.state message.now)) }
    ensures start { draft.new.start ≡ draft.old.start }
    ensures grown { IsGrown draft.old.rooms draft.new.rooms }
    ensures held { OnOk result (draft.new.held ≤ draft.old.held + 3) }
{
    draft.take_out(at, lane, index)?;
    after_take(draft, at, message, now)?;
    draft.note(take_line(at, message))
}

/// The message of a lane of a place at an index is taken, where it is there.
pub fn taken_at(
    draft: &mut Draft,
    lane: Lane,
    at: EntryPlace,
    index: u32,
    now: u32,
) -> Result<(), Memory>
    ensures ok { OnOk result (draft.new.effect ≡ taken_at lane at index now draft.old.effect) }
    ensures start { draft.new.start ≡ draft.old.start }
    ensures grown { IsGrown draft.old.rooms draft.new.rooms }
    ensures held { OnOk result (draft.new.held ≤ draft.old.held + 3) }
{
    match copy_at(draft.contents(), lane, at, index)? {
        Some(message) => take(draft, lane, at, index, &message, now),
        None => Ok(()),
    }
}

/// The durable message of a place that an identifier names is taken, where it is there: of several
/// the one that is first.
pub fn taken(draft: &mut Draft, at: EntryPlace, id: MessageId, now: u32) -> Result<(), Memory>
    ensures ok { OnOk result (draft.new.effect ≡ taken at id now draft.old.effect) }
    ensures start { draft.new.start ≡ draft.old.start }
    ensures grown { IsGrown draft.old.rooms draft.new.rooms }
    ensures held { OnOk result (draft.new.held ≤ draft.old.held + 3) }
{
    match draft.contents().queues().index_named(at, id, now) {
        Some(index) => taken_at(draft, Lane::Durable, at, index, now),
        None => Ok(()),
    }
}
