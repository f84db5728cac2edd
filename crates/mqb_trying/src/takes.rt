ghost use Rattle.std.specs.Prelude.{◌≡◌, ◌<◌, ◌≤◌, ◌+◌, IfErr, IfOk, IfSome, IsSome, None, Ok};
ghost use Rattle.std.specs.Prelude.{OnOk, Some, drop, length, option_copied, option_map};
ghost use Rattle.mqb_base.specs.declared.roomed.TheConstants.{MAX_MEMBERS};
ghost use Rattle.mqb_queue.specs.Places.{numbered};
ghost use Rattle.mqb_trying.specs.Takes.{comes_after, durable, index_from, last_index, mark_of};
ghost use Rattle.mqb_trying.specs.Takes.{may_take, message_of_take, next_index, next_take};
ghost use Rattle.mqb_trying.specs.Takes.{noted_take, take_by, take_of, top_from, try_take};
ghost use Rattle.mqb_trying.specs.Trying.{IsRefusedBy, at_op};

use crate::notes::{Notes, PlannedOp, Take, push_op};
use mqb_base::{EntryPlace, Lane, Memory, Message, Name, is_due};
use mqb_contents::Contents;
use mqb_deque::SplitSlice;
use mqb_model::{CommitFault, Done, OpFault};
use mqb_rules::queue_named;

/// Where a message stands that was taken, and its priority.
#[derive(Clone, Copy, Debug, PartialEq, Eq)]
struct Mark {
    index: u32,
    priority: u8,
}

/// The index of the last take of a queue.
fn last_index(takes: &[Take], queue: u32) -> Option<u32>
    ensures { result ≡ last_index takes.now queue }
{
    for take in takes.iter().rev() {
        if take.queue == queue {
            return Some(take.index);
        }
    }
    None
}

/// The mark of the last take of a queue of these messages.
fn mark_of(takes: &[Take], queue: u32, messages: &SplitSlice<'_, Message>) -> Option<Mark>
    ensures { result ≡ mark_of takes.now queue messages.now }
{
    let index = last_index(takes, queue)?;
    let message = messages.get(index as usize)?;
    Some(Mark {
        index,
        priority: message.priority,
    })
}

/// A message has a lesser priority, or the same and stands behind.
fn comes_after(mark: Mark, index: usize, message: &Message) -> bool
    ensures { result ≡ comes_after mark index message.now }
{
    message.priority < mark.priority
        || (message.priority == mark.priority && index > mark.index as usize)
}

fn may_take(mark: Option<Mark>, now: u32, index: usize, message: &Message) -> bool
    ensures { result ≡ may_take mark now index message.now }
{
    let is_left = match mark {
        Some(mark) => comes_after(mark, index, message),
        None => true,
    };
    is_left && !is_due(message.sent, message.life, now)
}

/// The greatest priority of the messages of a queue that may be taken, or 0.
fn top_priority(mark: Option<Mark>, now: u32, messages: &SplitSlice<'_, Message>) -> u8
    ensures { result ≡ top_from (may_take mark now) 0 0 messages.now }
{
    let mut top: u8 = 0;
    for index in 0..messages.len() {
        let message = messages.at(index);
        if may_take(mark, now, index, message) {
            top = top.max(message.priority);
        }
    }
    top
}

/// Where the oldest one stands, from an index on, that has at least this priority.
fn index_at_least(
    mark: Option<Mark>,
    now: u32,
    from: usize,
    least: u8,
    messages: &SplitSlice<'_, Message>,
) -> Option<usize>
    ensures index { result ≡ index_from (may_take mark now) least from (drop from messages.now) }
    ensures within { IfSome result (λ k. k < length messages.now) }
{
    for index in from..messages.len() {
        let message = messages.at(index);
        if may_take(mark, now, index, message) && message.priority >= least {
            return Some(index);
        }
    }
    None
}

/// Where the next one stands behind the last one that was taken: of the same priority, or else of
/// the greatest one that is left.
fn index_behind(last: Mark, now: u32, messages: &SplitSlice<'_, Message>) -> Option<usize>
    ensures index { result ≡ next_index (Some last) now messages.now }
    ensures within { IfSome result (λ k. k < length messages.now) }
{
    let mark = Some(last);
    let from = last.index as usize + 1;
    if let Some(index) = index_at_least(mark, now, from, last.priority, messages) {
        return Some(index);
    }
    let top = top_priority(mark, now, messages);
    index_at_least(mark, now, 0, top, messages)
}

/// Where the first one of the queue of a number stands, of these messages.
fn first_index(
    contents: &Contents,
    queue: u32,
    now: u32,
    messages: &SplitSlice<'_, Message>,
) -> Option<usize>
    requires { Some messages.now ≡ option_map durable
        (numbered contents.now.lists.places.queues queue) }
    ensures index { result ≡ next_index None now messages.now }
    ensures within { IfSome result (λ k. k < length messages.now) }
{
    match contents
        .queues()
        .first_durable(EntryPlace::Queue(queue), now)
    {
        Some(index) => Some(index as usize),
        None => None,
    }
}

/// Where the next one of the queue of a number stands, of these messages.
fn next_index(
    contents: &Contents,
    queue: u32,
    mark: Option<Mark>,
    now: u32,
    messages: &SplitSlice<'_, Message>,
) -> Option<usize>
    requires { Some messages.now ≡ option_map durable
        (numbered contents.now.lists.places.queues queue) }
    ensures index { result ≡ next_index mark now messages.now }
    ensures within { IfSome result (λ k. k < length messages.now) }
{
    match mark {
        Some(last) => index_behind(last, now, messages),
        None => first_index(contents, queue, now, messages),
    }
}

/// The next take of a queue of these messages, where it is transactional.
fn take_by(
    contents: &Contents,
    takes: &[Take],
    now: u32,
    queue: u32,
    transactional: bool,
    messages: &SplitSlice<'_, Message>,
) -> Result<Take, OpFault>
    requires few { length messages.now ≤ MAX_MEMBERS }
    requires messages { Some messages.now ≡ option_map durable
        (numbered contents.now.lists.places.queues queue) }
    ensures take { result ≡ take_by takes.now now queue transactional messages.now }
    ensures within { IfOk result (λ take. take.index < length messages.now) }
    ensures queue { IfOk result (λ take. take.queue ≡ queue) }
{
    if !transactional {
        return Err(OpFault::NotTransactional);
    }
    let mark = mark_of(takes, queue, messages);
    match next_index(contents, queue, mark, now, messages) {
        Some(index) => Ok(Take {
            queue,
            index: index as u32,
        }),
        None => Err(OpFault::QueueEmpty),
    }
}

/// The durable messages of the queue of a number, the oldest first.
#[tactic(auto, using(crate::proofs::Lookups::durable_is))]
fn messages_of(contents: &Contents, queue: u32) -> Option<SplitSlice<'_, Message>>
    ensures messages { result ≡ option_map durable
        (numbered contents.now.lists.places.queues queue) }
    ensures few { IfSome result (λ ms. length ms ≤ MAX_MEMBERS) }
{
    contents
        .queues()
        .messages_at(EntryPlace::Queue(queue), Lane::Durable)
}

/// The next take of the queue of a number.
#[tactic(auto, using(crate::proofs::Lookups::none_is, crate::proofs::Lookups::take_is, crate::proofs::Lookups::message_there))]
fn take_of(contents: &Contents, takes: &[Take], now: u32, queue: u32) -> Result<Take, OpFault>
    ensures take { result ≡ take_of contents.now.lists takes.now now queue }
    ensures there { IfOk result (λ take. IsSome (message_of_take contents.now.lists take)) }
{
    let Some(plan) = contents.queues().plan_numbered(queue) else {
        return Err(OpFault::NoQueue);
    };
    let Some(messages) = messages_of(contents, queue) else {
        return Err(OpFault::NoQueue);
    };
    take_by(contents, takes, now, queue, plan.transactional, &messages)
}

/// The next take of the queue with a name.
pub(crate) fn next_take(
    contents: &Contents,
    takes: &[Take],
    now: u32,
    name: &Name,
) -> Result<Take, OpFault>
    ensures take { result ≡ next_take contents.now.lists takes.now now name.now }
    ensures there { IfOk result (λ take. IsSome (message_of_take contents.now.lists take)) }
{
    match queue_named(contents, name) {
        Some(queue) => take_of(contents, takes, now, queue),
        None => Err(OpFault::NoQueue),
    }
}

/// The message of a take.
fn message_of_take(contents: &Contents, take: Take) -> Option<&Message>
    ensures { option_copied result ≡ message_of_take contents.now.lists take }
{
    messages_of(contents, take.queue)?.get(take.index as usize)
}

impl Notes {
    /// The message of a take is taken, and copied for the answer.
    fn note_take(&mut self, contents: &Contents, take: Take) -> Result<(), Memory>
        requires { IsSome (message_of_take contents.now.lists take) }
        ensures { OnOk result (noted_take contents.now.lists self.old take ≡ Ok self.new) }
    {
        let Some(message) = message_of_take(contents, take) else {
            unreachable!();
        };
        let op = PlannedOp::Take {
            queue: take.queue,
            id: message.id,
        };
        self.takes.push(take)?;
        push_op(&mut self.ops, op)?;
        self.done.push(Done::Took(message.clone()?))?;
        Ok(())
    }

    /// The next message of the queue with a name is taken.
    pub(crate) fn try_take(
        &mut self,
        contents: &Contents,
        now: u32,
        index: u32,
        name: &Name,
    ) -> Result<(), CommitFault>
        ensures ok { OnOk result
            (try_take contents.now.lists now self.old name.now ≡ Ok self.new) }
        ensures refused { IfErr result
            (IsRefusedBy (at_op index (try_take contents.now.lists now self.old name.now))) }
    {
        match next_take(contents, &self.takes, now, name) {
            Ok(take) => {
                self.note_take(contents, take)?;
                Ok(())
            }
            Err(fault) => Err(CommitFault::AtOp { index, fault }),
        }
    }
}
