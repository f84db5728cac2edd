ghost use Rattle.std.specs.Prelude.{◌≡◌, ◌<◌, ◌≤◌, ◌^◌, length, map, remove, IfSome};
ghost use Rattle.mqb_queue.specs.Levels.{Counted, at_level, level};
ghost use Rattle.mqb_queue.specs.Passes.{ArePassed, HasEnded, IsPassed, end_of, shifted};

use crate::counts::{LEVELS, level};
use mqb_base::{Message, UNLIMITED};
use mqb_deque::SplitSlice;

/// The pass of each level when nothing was passed.
pub(crate) const NO_PASSES: [Pass; LEVELS] = [Pass { index: 0, bound: 0 }; LEVELS];

/// How far the messages of a level have ended: each one of the level before an index is due from a
/// moment on, which is less than the bound. With the bound 0 none before the index has the level.
#[derive(Clone, Copy, Debug, PartialEq, Eq)]
pub(crate) struct Pass {
    pub(crate) index: usize,
    pub(crate) bound: u64,
}

/// The least bound by which a message has ended.
fn end_of(message: &Message) -> u64
    ensures { result ≡ end_of message.now }
{
    if message.life == UNLIMITED {
        u64::MAX
    } else {
        u64::from(message.sent) + u64::from(message.life) + 1
    }
}

fn shifted(mut pass: Pass, at: usize) -> Pass
    ensures { result ≡ shifted at pass }
{
    if at < pass.index {
        pass.index -= 1;
    }
    pass
}

/// The message at an index leaves.
pub(crate) fn shift(passes: &mut [Pass; LEVELS], at: usize)
    ensures { passes.new ≡ map (shifted at) passes.old }
{
    for k in 0..LEVELS {
        passes[k] = shifted(passes[k], at);
    }
}

/// The pass of a level once a message joined that stands at an index.
fn raised(mut pass: Pass, k: usize, messages: &SplitSlice<'_, Message>, at: usize) -> Pass
    requires place { at < length messages.now }
    requires few { length messages.now < 2 ^ 64 }
    requires passed { IsPassed k pass (remove messages.now at) }
    ensures { IsPassed k result messages.now }
{
    if pass.index <= at {
        return pass;
    }
    let message = messages.at(at);
    if level(message.priority) == k && pass.bound < end_of(message) {
        pass.index = at;
    } else {
        pass.index += 1;
    }
    pass
}

/// A message joined that stands at an index.
pub(crate) fn raise(passes: &mut [Pass; LEVELS], messages: &SplitSlice<'_, Message>, at: usize)
    requires place { at < length messages.now }
    requires few { length messages.now < 2 ^ 64 }
    requires passed { ArePassed passes.old (remove messages.now at) }
    ensures { ArePassed passes.new messages.now }
{
    for k in 0..LEVELS {
        passes[k] = raised(passes[k], k, messages, at);
    }
}

/// The bound behind one message more, unless it ends no sooner than the one that was taken.
fn next_bound(bound: u64, k: usize, message: &Message, taken: &Message) -> Option<u64>
    ensures grows { IfSome result (λ next. bound ≤ next) }
    ensures ended { IfSome result (λ next. HasEnded k next message.now) }
{
    if level(message.priority) != k {
        return Some(bound);
    }
    let end = end_of(message);
    if end < end_of(taken) {
        Some(bound.max(end))
    } else {
        None
    }
}

/// The pass goes on up to a place, over messages that end sooner than the one that was taken.
fn gone_on(
    pass: Pass,
    k: usize,
    messages: &SplitSlice<'_, Message>,
    place: usize,
    taken: &Message,
) -> Pass
    requires passed { IsPassed k pass messages.now }
    requires place { place ≤ length messages.now }
    ensures { IsPassed k result messages.now }
{
    if place <= pass.index {
        return pass;
    }
    let mut bound = pass.bound;
    for index in pass.index..place {
        let message = messages.at(index);
        match next_bound(bound, k, message, taken) {
            Some(next) => bound = next,
            None => return Pass { index, bound },
        }
    }
    Pass {
        index: place,
        bound,
    }
}

/// The pass of a level once a message that stood at a place was taken. Where that one was first,
/// each message of a greater priority is due, and each of the same one that stood before it; and
/// all of these end sooner.
fn next_pass(
    pass: Pass,
    count: usize,
    k: usize,
    messages: &SplitSlice<'_, Message>,
    at: usize,
    taken: &Message,
) -> Pass
    requires count { count ≡ at_level k messages.now }
    requires passed { IsPassed k pass messages.now }
    requires place { at ≤ length messages.now }
    ensures { IsPassed k result messages.now }
{
    if count == 0 {
        return Pass {
            index: messages.len(),
            bound: 0,
        };
    }
    let lowest = level(taken.priority);
    if k < lowest {
        return pass;
    }
    if k == lowest {
        gone_on(pass, k, messages, at, taken)
    } else {
        gone_on(pass, k, messages, messages.len(), taken)
    }
}

/// The passes go on once a message was taken that stood at a place.
pub(crate) fn go_on(
    passes: &mut [Pass; LEVELS],
    counts: &[usize; LEVELS],
    messages: &SplitSlice<'_, Message>,
    at: usize,
    taken: &Message,
)
    requires counted { Counted counts.now messages.now }
    requires passed { ArePassed passes.old messages.now }
    requires place { at ≤ length messages.now }
    ensures { ArePassed passes.new messages.now }
{
    for k in 0..LEVELS {
        passes[k] = next_pass(passes[k], counts[k], k, messages, at, taken);
    }
}
