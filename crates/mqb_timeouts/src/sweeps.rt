ghost use Rattle.std.specs.Prelude.{◌≡◌, ◌+◌, ◌*◌, ◌<◌, ◌≤◌, All, IfOk, IfSome, IsSomeAnd, OnOk};
ghost use Rattle.std.specs.Prelude.{count_by, false, length, position, sum_by, take};
ghost use Rattle.std.specs.Option.{option_map_or};
ghost use Rattle.mqb_base.specs.declared.queues.EntryPlace.TheVariants.{Queue};
ghost use Rattle.mqb_contents.specs.Rooms.{IsGrown};
ghost use Rattle.mqb_model.specs.Loops.{for_each_below};
ghost use Rattle.mqb_model.specs.declared.limits.TheConstants.{MAX_QUEUES};
ghost use Rattle.mqb_model.specs.rules.Effects.{joined};
ghost use Rattle.mqb_model.specs.rules.Takes.{message_at};
ghost use Rattle.mqb_model.specs.rules.Timeouts.{cannot_be_received, message_swept, next_swept};
ghost use Rattle.mqb_model.specs.rules.Timeouts.{queue_swept, sweeping_in};
ghost use Rattle.mqb_queue.specs.Lists.{messages_in};
ghost use Rattle.mqb_queue.specs.Places.{lists_at};
ghost use Rattle.mqb_timeouts.specs.Waiting.{NoneSwept, queued, swept_count};

use mqb_base::{Class, EntryPlace, Lane, Line, Memory, Message, is_due};
use mqb_contents::Contents;
use mqb_deque::SplitSlice;
use mqb_rules::{Draft, copy_at, meets};

fn cannot_be_received(message: &Message, now: u32) -> bool
    ensures { result ≡ cannot_be_received now message.now }
{
    is_due(message.sent, message.life, now)
}

/// Where the first message stands that is due, where none of the first ones is.
fn index_due_from(messages: &SplitSlice<'_, Message>, from: usize, now: u32) -> Option<usize>
    requires { All (λ m. cannot_be_received now m ≡ false) (take from messages.now) }
    ensures index { result ≡ position (cannot_be_received now) messages.now }
    ensures within { IfSome result (λ k. k < length messages.now) }
{
    for index in from..messages.len() {
        let message = messages.at(index);
        if cannot_be_received(message, now) {
            return Some(index);
        }
    }
    None
}

fn count_in(messages: &[Message], now: u32) -> usize
    ensures { result ≡ count_by (cannot_be_received now) messages.now }
{
    messages
        .iter()
        .filter(|message| cannot_be_received(message, now))
        .count()
}

fn count_due(messages: &SplitSlice<'_, Message>, now: u32) -> usize
    ensures { result ≡ count_by (cannot_be_received now) messages.now }
{
    let (front, back) = messages.parts();
    count_in(front, now) + count_in(back, now)
}

/// The index of the next message of a lane of the queue at an index that is swept.
fn index_swept(contents: &Contents, lane: Lane, k: u32, from: u32, now: u32) -> Option<u32>
    requires few { k < MAX_QUEUES }
    requires none { NoneSwept lane now contents.now.lists k from }
    ensures { result ≡ position (cannot_be_received now) (queued lane contents.now.lists k) }
{
    let messages = contents
        .queues()
        .messages_at(EntryPlace::Queue(k + 1), lane)?;
    let index = index_due_from(&messages, from as usize, now)?;
    Some(index as u32)
}

/// How many messages of a lane of the queue at an index are swept.
pub fn count_swept(contents: &Contents, lane: Lane, k: u32, now: u32) -> u32
    requires { k < MAX_QUEUES }
    ensures { result ≡ swept_count lane now contents.now.lists k }
{
    match contents
        .queues()
        .messages_at(EntryPlace::Queue(k + 1), lane)
    {
        Some(messages) => count_due(&messages, now) as u32,
        None => 0,
    }
}

/// The message of a lane of a queue at an index, of which this is a copy, is swept.
fn sweep(
    draft: &mut Draft,
    lane: Lane,
    number: u32,
    index: u32,
    message: &Message,
    now: u32,
) -> Result<(), Memory>
    requires { IsSomeAnd (lists_at draft.old.effect.state.places (Queue number))
        (λ l. index < length (messages_in lane l)) }
    ensures ok { OnOk result (draft.new.effect ≡ joined draft.old.effect
        (message_swept lane now number index draft.old.effect.state message.now)) }
    ensures start { draft.new.start ≡ draft.old.start }
    ensures grown { IsGrown draft.old.rooms draft.new.rooms }
    ensures held { OnOk result (draft.new.held ≤ draft.old.held + 2) }
{
    draft.take_out(EntryPlace::Queue(number), lane, index)?;
    meets(draft, message, Class::RECEIVE_TIMEOUT, now)?;
    draft.note(Line::Swept { id: message.id })
}

/// It is swept, where it is there.
fn sweep_at(draft: &mut Draft, lane: Lane, number: u32, index: u32, now: u32) -> Result<(), Memory>
    ensures ok { OnOk result (draft.new.effect ≡ option_map_or (λ m. joined draft.old.effect
        (message_swept lane now number index draft.old.effect.state m))
        (message_at lane draft.old.effect.state (Queue number) index) draft.old.effect) }
    ensures start { draft.new.start ≡ draft.old.start }
    ensures grown { IsGrown draft.old.rooms draft.new.rooms }
    ensures held { OnOk result (draft.new.held ≤ draft.old.held + 2) }
{
    match copy_at(draft.contents(), lane, EntryPlace::Queue(number), index)? {
        Some(message) => sweep(draft, lane, number, index, &message, now),
        None => Ok(()),
    }
}

/// The next message of the queue at an index is swept, where there is one. No message before `from`
/// is, and none before the answer is then.
fn sweep_next(draft: &mut Draft, lane: Lane, k: u32, from: u32, now: u32) -> Result<u32, Memory>
    requires few { k < MAX_QUEUES }
    requires none { NoneSwept lane now draft.old.effect.state k from }
    ensures ok { OnOk result (draft.new.effect ≡ next_swept lane now k draft.old.effect) }
    ensures next { IfOk result (λ next. NoneSwept lane now draft.new.effect.state k next) }
    ensures start { draft.new.start ≡ draft.old.start }
    ensures grown { IsGrown draft.old.rooms draft.new.rooms }
    ensures held { OnOk result (draft.new.held ≤ draft.old.held + 2) }
{
    match index_swept(draft.contents(), lane, k, from, now) {
        Some(index) => {
            sweep_at(draft, lane, k + 1, index, now)?;
            Ok(index)
        }
        None => Ok(from),
    }
}

/// The messages of a lane of the queue at an index that are due are swept.
fn sweep_queue(draft: &mut Draft, lane: Lane, k: u32, now: u32) -> Result<(), Memory>
    requires { k < MAX_QUEUES }
    ensures ok { OnOk result (draft.new.effect ≡ queue_swept lane now k draft.old.effect) }
    ensures start { draft.new.start ≡ draft.old.start }
    ensures grown { IsGrown draft.old.rooms draft.new.rooms }
    ensures held { OnOk result (draft.new.held ≤
        draft.old.held + 2 * swept_count lane now draft.old.effect.state k) }
{
    let mut from = 0;
    for _ in 0..count_swept(draft.contents(), lane, k, now) {
        from = sweep_next(draft, lane, k, from, now)?;
    }
    Ok(())
}

/// Those of the first queues are, queue by queue.
pub(crate) fn sweep_queues(
    draft: &mut Draft,
    lane: Lane,
    count: u32,
    now: u32,
) -> Result<(), Memory>
    requires { count ≤ MAX_QUEUES }
    ensures ok { OnOk result (draft.new.effect ≡
        for_each_below count (queue_swept lane now) draft.old.effect) }
    ensures start { draft.new.start ≡ draft.old.start }
    ensures grown { IsGrown draft.old.rooms draft.new.rooms }
    ensures held { OnOk result (draft.new.held ≤ draft.old.held +
        2 * sum_by (sweeping_in lane now) draft.old.effect.state.places.queues) }
{
    for k in 0..count {
        sweep_queue(draft, lane, k, now)?;
    }
    Ok(())
}
