//! The ops of a worker's transaction.
ghost use Rattle.std.specs.Prelude.{◌≡◌, IfOk, IfSome, option_copied, true};
ghost use Rattle.mqb_base.specs.Messages.{IsWellFormed};
ghost use Rattle.mqb_base.specs.QueueNames.{names_queue};
ghost use Rattle.mqb_worker.specs.Work.{reply_for, reply_to, work_with};

use crate::handlers::Handler;
use mqb_base::{Bytes, Draft, Memory, Message, Name, Op, Parts, QueueName, UNLIMITED, Units};
use std::alloc::Global;

/// The reply to a message: what is made of its body goes to the queue that it names for that.
fn reply_to<H: Handler>(
    alloc: Global,
    handler: &H,
    message: &Message,
    to: &QueueName,
) -> Result<Draft, Memory>
    requires { names_queue to.now ≡ true }
    ensures { IfOk result (λ draft. draft ≡ reply_to (H.meaning handler.now) message.now to.now) }
{
    let parts = Parts {
        destination: to.clone()?,
        priority: 0,
        reach: UNLIMITED,
        life: UNLIMITED,
        admin: None,
        response: None,
        ack: 0,
        journal: 0,
        correlation: message.id,
        body_type: 0,
        tag: 0,
        label: Units::from_slice(alloc, &[])?,
        extension: Bytes::from_slice(alloc, &[])?,
        body: handler.answer(alloc, message.body.as_slice())?,
    };
    Ok(Draft::build(parts).unwrap())
}

/// The reply to what waits, where it asks for one.
fn reply_for<H: Handler>(
    alloc: Global,
    handler: &H,
    waiting: Option<&Message>,
) -> Result<Option<Draft>, Memory>
    requires { IfSome (option_copied waiting) IsWellFormed }
    ensures { IfOk result (λ reply. reply ≡
        reply_for (H.meaning handler.now) (option_copied waiting.entry)) }
{
    let Some(message) = waiting else {
        return Ok(None);
    };
    match &message.response {
        Some(to) => Ok(Some(reply_to(alloc, handler, message, to)?)),
        None => Ok(None),
    }
}

/// A take of what waits, and the reply to it.
pub(crate) fn work_with<H: Handler>(
    alloc: Global,
    queue: &Name,
    handler: &H,
    waiting: Option<&Message>,
) -> Result<Vec<Op>, Memory>
    requires { IfSome (option_copied waiting) IsWellFormed }
    ensures { IfOk result (λ ops. ops.items ≡
        work_with queue.now (H.meaning handler.now) (option_copied waiting.entry)) }
{
    let mut ops = Vec::with_capacity(alloc, 2)?;
    ops.push(Op::Take(queue.clone()?))?;
    if let Some(reply) = reply_for(alloc, handler, waiting)? {
        ops.push(Op::Send(reply))?;
    }
    Ok(ops)
}
