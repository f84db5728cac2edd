//! The message that waits in a queue.
ghost use Rattle.std.specs.Option.{option_map_or};
ghost use Rattle.std.specs.Prelude.{◌≡◌, false, option_copied};
ghost use Rattle.mqb_worker.specs.Work.{is_idle, queue_by, waiting_at, waiting_in};

use mqb_base::{EntryPlace, Lane, Message, Name};
use mqb_contents::Contents;
use mqb_rules::queue_named;

/// The first message of the queue of a number that is not due.
fn waiting_at(contents: &Contents, queue: u32, now: u32) -> Option<&Message>
    ensures { option_copied result ≡ waiting_at contents.now.lists now queue }
{
    let at = EntryPlace::Queue(queue);
    let index = contents.queues().first_durable(at, now)?;
    contents
        .queues()
        .messages_at(at, Lane::Durable)?
        .get(index as usize)
}

/// The first message of the queue with a name that is not due.
pub(crate) fn waiting_in<'c>(contents: &'c Contents, queue: &Name, now: u32) -> Option<&'c Message>
    ensures { option_copied result ≡ waiting_in contents.now.lists queue.now now }
{
    waiting_at(contents, queue_named(contents, queue)?, now)
}

/// The queue with a name is there, and is transactional.
fn is_transactional(contents: &Contents, queue: &Name) -> bool
    ensures { result ≡ option_map_or (λ q. q.plan.transactional)
        (queue_by contents.now.lists queue.now) false }
{
    let Some(number) = queue_named(contents, queue) else {
        return false;
    };
    match contents.queues().plan_numbered(number) {
        Some(plan) => plan.transactional,
        None => false,
    }
}

/// The queue with a name is there, is transactional, and has nothing of what waits.
pub(crate) fn is_idle(
    contents: &Contents,
    queue: &Name,
    now: u32,
    waiting: Option<&Message>,
) -> bool
    requires { option_copied waiting ≡ waiting_in contents.now.lists queue.now now }
    ensures { result ≡ is_idle contents.now.lists queue.now now }
{
    waiting.is_none() && is_transactional(contents, queue)
}
