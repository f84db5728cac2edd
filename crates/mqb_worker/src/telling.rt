//! What a step did, as it is told.
ghost use Rattle.std.specs.Prelude.{◌≡◌};
ghost use Rattle.mqb_worker.specs.Steps.{sent_by, sent_second, step_answer, step_of};
ghost use Rattle.mqb_worker.specs.Steps.{taken_by, taken_first};

use mqb_base::MessageId;
use mqb_model::{CommitFault, Committed, Done};

/// What a step did: nothing waited; or a message was taken, and its reply sent,
/// where it asks for one.
#[derive(Clone, Copy, Debug, PartialEq, Eq)]
pub enum Step {
    Idle,
    Done {
        id: MessageId,
        reply: Option<MessageId>,
    },
}

/// The message that an op took.
fn taken_by(done: &Done) -> Option<MessageId>
    ensures { result ≡ taken_by done.now }
{
    match done {
        Done::Took(message) => Some(message.id),
        Done::Sent { .. } | Done::Put(_) => None,
    }
}

/// The message that an op sent.
fn sent_by(done: &Done) -> Option<MessageId>
    ensures { result ≡ sent_by done.now }
{
    match done {
        Done::Sent { id, .. } | Done::Put(id) => Some(*id),
        Done::Took(_) => None,
    }
}

/// The message that the first op took.
fn taken_first(done: &[Done]) -> Option<MessageId>
    ensures { result ≡ taken_first done.now }
{
    taken_by(done.get(0)?)
}

/// The message that the second op sent, where there is one.
fn sent_second(done: &[Done]) -> Option<MessageId>
    ensures { result ≡ sent_second done.now }
{
    sent_by(done.get(1)?)
}

fn step_of(done: &[Done]) -> Step
    ensures { result ≡ step_of done.now }
{
    match taken_first(done) {
        Some(id) => Step::Done {
            id,
            reply: sent_second(done),
        },
        None => Step::Idle,
    }
}

pub(crate) fn step_answer(answer: Result<Committed, CommitFault>) -> Result<Step, CommitFault>
    ensures { result ≡ step_answer answer }
{
    match answer {
        Ok(committed) => Ok(step_of(committed.done())),
        Err(fault) => Err(fault),
    }
}
