ghost use Rattle.std.specs.Prelude.{◌≡◌, ◌&&◌, ◌<◌, ◌≤◌, false, true, length, nat_le, position, take, All, IfSome};
ghost use Rattle.mqb_queue.specs.First.{is_wanted, first_index};
ghost use Rattle.mqb_queue.specs.Levels.{Counted, at_level, level};
ghost use Rattle.mqb_queue.specs.Passes.{ArePassed, IsPassed};

use crate::choice::Choice;
use crate::counts::{LEVELS, level};
use crate::passes::Pass;
use mqb_base::Message;
use mqb_deque::SplitSlice;

/// The oldest message that is wanted and has at least this priority, if none of the first ones is.
fn index_at_least(
    messages: &SplitSlice<'_, Message>,
    from: usize,
    choice: &Choice,
    priority: u8,
) -> Option<usize>
    requires place { from ≤ length messages.now }
    requires none { All (λ m. (is_wanted choice.now.at choice.now.moment choice.now.id m &&
        nat_le priority m.priority) ≡ false) (take from messages.now) }
    ensures within { IfSome result (λ k. k < length messages.now) }
    ensures index { result ≡ position (λ m. is_wanted choice.now.at choice.now.moment choice.now.id
        m && nat_le priority m.priority) messages.now }
{
    for index in from..messages.len() {
        let message = messages.at(index);
        if choice.wants_at_least(message, priority) {
            return Some(index);
        }
    }
    None
}

/// The same, where none that is wanted has a greater priority. There are so many messages of its level, which have ended as the pass says.
fn index_with(
    messages: &SplitSlice<'_, Message>,
    choice: &Choice,
    priority: u8,
    count: usize,
    pass: Pass,
) -> Option<usize>
    requires count { count ≡ at_level (level priority) messages.now }
    requires passed { IsPassed (level priority) pass messages.now }
    requires highest { All (λ m. is_wanted choice.now.at choice.now.moment choice.now.id m ≡ true →
        m.priority ≤ priority) messages.now }
    ensures within { IfSome result (λ k. k < length messages.now) }
    ensures index { result ≡ position (λ m. is_wanted choice.now.at choice.now.moment choice.now.id
        m && nat_le priority m.priority) messages.now }
{
    if count == 0 {
        return None;
    }
    if choice.has_passed(pass) {
        index_at_least(messages, pass.index, choice, priority)
    } else {
        index_at_least(messages, 0, choice, priority)
    }
}

/// Where the first message stands of those that are wanted, in a list in which none has a priority
/// above `bound`. The messages of each level are counted, and have ended as its pass says.
pub(crate) fn first_index(
    messages: &SplitSlice<'_, Message>,
    counts: &[usize; LEVELS],
    passes: &[Pass; LEVELS],
    bound: u8,
    choice: &Choice,
) -> Option<usize>
    requires counted { Counted counts.now messages.now }
    requires passed { ArePassed passes.now messages.now }
    requires bound { All (λ m. m.priority ≤ bound) messages.now }
    ensures within { IfSome result (λ k. k < length messages.now) }
    ensures first { result ≡ first_index (is_wanted choice.now.at choice.now.moment choice.now.id)
        messages.now }
{
    for k in 0..u16::from(bound) + 1 {
        let priority = (u16::from(bound) - k) as u8;
        let at = level(priority);
        if let Some(index) = index_with(messages, choice, priority, counts[at], passes[at]) {
            return Some(index);
        }
    }
    None
}
