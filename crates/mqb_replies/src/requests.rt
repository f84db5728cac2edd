//! A request of a manager: it is made, and its answer is replied to.
ghost use Rattle.std.specs.Prelude.{◌≡◌};
ghost use Rattle.mqb_manager.specs.States.{IsOnDisk, IsUp, manager_of};
ghost use Rattle.mqb_model.specs.calls.Call.{requested};
ghost use Rattle.mqb_replies.specs.Asked.{IsAsked};
ghost use Rattle.mqb_replies.specs.Requests.{IsFormed, is_done, reply_of};
ghost use Rattle.mqb_replies.specs.Requests.{seen_answer, seen_request};

use crate::faults::AnswerFault;
use crate::replies::{
    commit_fault_reply, create_fault_reply, purge_fault_reply, send_fault_reply, store_fault_reply,
    take_fault_reply,
};
use mqb_base::{Draft, Line, Message, MessageId, Op, Place, QueuePlan};
use mqb_manager::Manager;
use mqb_model::{
    CommitFault, Committed, CreateFault, PurgeFault, SendFault, StoreFault, TakeFault, Ticked,
};
use mqb_outside::Disk;
use mqb_transcript::{Listed, Reply};

/// What a manager is asked for by those whom it serves. Moments are in seconds.
#[derive(Clone, Copy, Debug)]
pub enum Request<'r> {
    CreateQueue(&'r QueuePlan),
    SetRoll(u32),
    Commit {
        now: u32,
        ops: &'r [Op],
    },
    Send {
        now: u32,
        recoverable: bool,
        draft: &'r Draft,
    },
    Take {
        now: u32,
        place: &'r Place,
    },
    Purge {
        now: u32,
        place: &'r Place,
    },
    Tick {
        now: u32,
    },
}

/// What a manager answers to it.
#[derive(Debug, Drop)]
pub enum Answer {
    Created(Result<u32, CreateFault>),
    WasSet(Result<(), StoreFault>),
    Committed(Result<Committed, CommitFault>),
    Sent(Result<MessageId, SendFault>),
    Took(Result<Message, TakeFault>),
    Purged(Result<u32, PurgeFault>),
    Ticked(Result<Ticked, StoreFault>),
}

impl Answer {
    /// Whether the manager did what it was asked for.
    pub fn is_done(&self) -> bool
        ensures { result ≡ is_done (seen_answer self.now) }
    {
        match self {
            Answer::Created(given) => given.is_ok(),
            Answer::WasSet(given) => given.is_ok(),
            Answer::Committed(given) => given.is_ok(),
            Answer::Sent(given) => given.is_ok(),
            Answer::Took(given) => given.is_ok(),
            Answer::Purged(given) => given.is_ok(),
            Answer::Ticked(given) => given.is_ok(),
        }
    }
}

/// Makes a request of a manager with its disk.
pub fn ask<D: Disk>(manager: &mut Manager, disk: &mut D, request: Request<'_>) -> Answer
    requires formed { IsFormed (seen_request request) }
    requires on { IsUp manager.old → IsOnDisk (D.view disk.old) manager.old }
    ensures { IsAsked (D.view disk.old) (D.view disk.new) (disk.new ≡ disk.old) manager.old
        manager.new (requested (manager_of manager.old) (seen_request request.entry))
        (seen_answer result) }
{
    match request {
        Request::CreateQueue(plan) => Answer::Created(manager.create_queue(disk, plan)),
        Request::SetRoll(count) => Answer::WasSet(manager.set_roll(disk, count)),
        Request::Commit { now, ops } => Answer::Committed(manager.commit(disk, ops, now)),
        Request::Send {
            now,
            recoverable,
            draft,
        } => Answer::Sent(manager.send(disk, draft, recoverable, now)),
        Request::Take { now, place } => Answer::Took(manager.take(disk, place, now)),
        Request::Purge { now, place } => Answer::Purged(manager.purge(disk, place, now)),
        Request::Tick { now } => Answer::Ticked(manager.tick(disk, now)),
    }
}

/// What is replied to an answer. `lines` are those of the request's record, and none where it wrote
/// none. Of a queue that was made its number is not told, of a transaction what became of each op,
/// of a message that was taken all but its identifier, and of a tick the durable messages.
pub fn reply_of(answer: &Answer, lines: Listed<Line>) -> Result<Reply, AnswerFault>
    ensures { result ≡ reply_of (seen_answer answer.now) lines }
{
    match answer {
        Answer::Created(Ok(_)) | Answer::WasSet(Ok(())) => Ok(Reply::Done),
        Answer::Created(Err(fault)) => create_fault_reply(*fault),
        Answer::WasSet(Err(fault)) | Answer::Ticked(Err(fault)) => store_fault_reply(*fault),
        Answer::Committed(Ok(_)) => Ok(Reply::Committed { lines }),
        Answer::Committed(Err(fault)) => commit_fault_reply(*fault),
        Answer::Sent(Ok(id)) => Ok(Reply::Sent { id: *id, lines }),
        Answer::Sent(Err(fault)) => send_fault_reply(*fault),
        Answer::Took(Ok(message)) => Ok(Reply::Took {
            id: message.id,
            lines,
        }),
        Answer::Took(Err(fault)) => take_fault_reply(*fault),
        Answer::Purged(Ok(count)) => Ok(Reply::Purged {
            count: *count,
            lines,
        }),
        Answer::Purged(Err(fault)) => purge_fault_reply(*fault),
        Answer::Ticked(Ok(left)) => Ok(Reply::Ticked {
            express: left.express,
            lines,
        }),
    }
}
