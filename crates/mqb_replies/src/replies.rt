//! Each refusal has its reply.
ghost use Rattle.std.specs.Prelude.{◌≡◌};
ghost use Rattle.mqb_replies.specs.Replies.{checkpoint_reply, commit_fault_reply};
ghost use Rattle.mqb_replies.specs.Replies.{create_fault_reply, op_reply, purge_fault_reply};
ghost use Rattle.mqb_replies.specs.Replies.{send_fault_reply, store_fault_reply, take_fault_reply};

use crate::faults::AnswerFault;
use mqb_manager::CheckpointFault;
use mqb_model::{CommitFault, CreateFault, OpFault, PurgeFault, SendFault, StoreFault, TakeFault};
use mqb_transcript::Reply;

pub(crate) fn create_fault_reply(fault: CreateFault) -> Result<Reply, AnswerFault>
    ensures { result ≡ create_fault_reply fault }
{
    match fault {
        CreateFault::Down => Ok(Reply::Down),
        CreateFault::QueueThere => Ok(Reply::QueueThere),
        CreateFault::TooManyQueues => Ok(Reply::TooManyQueues),
        CreateFault::Memory => Err(AnswerFault::Memory),
        CreateFault::DiskFault => Err(AnswerFault::DiskFault),
    }
}

/// The refusal of the op at an index.
fn op_reply(op: u32, fault: OpFault) -> Reply
    ensures { result ≡ op_reply op fault }
{
    match fault {
        OpFault::NoQueue => Reply::NoQueue { op: Some(op) },
        OpFault::NotTransactional => Reply::NotTransactional { op },
        OpFault::QueueEmpty => Reply::QueueEmpty { op: Some(op) },
        OpFault::UnknownPeer => Reply::UnknownPeer { op: Some(op) },
        OpFault::QueueFull => Reply::QueueFull { op: Some(op) },
        OpFault::SequenceSpent => Reply::SequenceSpent { op },
    }
}

pub(crate) fn commit_fault_reply(fault: CommitFault) -> Result<Reply, AnswerFault>
    ensures { result ≡ commit_fault_reply fault }
{
    match fault {
        CommitFault::Down => Ok(Reply::Down),
        // Nothing asks for a transaction without ops.
        CommitFault::NoOps | CommitFault::TooManyOps => Ok(Reply::TooManyOps),
        CommitFault::AtOp { index, fault } => Ok(op_reply(index, fault)),
        CommitFault::NumbersSpent => Ok(Reply::NumbersSpent),
        CommitFault::TooLarge => Ok(Reply::TooLarge),
        CommitFault::Memory => Err(AnswerFault::Memory),
        CommitFault::DiskFault => Err(AnswerFault::DiskFault),
    }
}

pub(crate) fn send_fault_reply(fault: SendFault) -> Result<Reply, AnswerFault>
    ensures { result ≡ send_fault_reply fault }
{
    match fault {
        SendFault::Down => Ok(Reply::Down),
        SendFault::UnknownPeer => Ok(Reply::UnknownPeer { op: None }),
        SendFault::NoQueue => Ok(Reply::NoQueue { op: None }),
        SendFault::Transactional => Ok(Reply::Transactional),
        SendFault::QueueFull => Ok(Reply::QueueFull { op: None }),
        SendFault::NumbersSpent => Ok(Reply::NumbersSpent),
        SendFault::TooLarge => Ok(Reply::TooLarge),
        SendFault::Memory => Err(AnswerFault::Memory),
        SendFault::DiskFault => Err(AnswerFault::DiskFault),
    }
}

pub(crate) fn take_fault_reply(fault: TakeFault) -> Result<Reply, AnswerFault>
    ensures { result ≡ take_fault_reply fault }
{
    match fault {
        TakeFault::Down => Ok(Reply::Down),
        TakeFault::NoQueue => Ok(Reply::NoQueue { op: None }),
        TakeFault::QueueEmpty => Ok(Reply::QueueEmpty { op: None }),
        TakeFault::Memory => Err(AnswerFault::Memory),
        TakeFault::DiskFault => Err(AnswerFault::DiskFault),
    }
}

pub(crate) fn purge_fault_reply(fault: PurgeFault) -> Result<Reply, AnswerFault>
    ensures { result ≡ purge_fault_reply fault }
{
    match fault {
        PurgeFault::Down => Ok(Reply::Down),
        PurgeFault::NoQueue => Ok(Reply::NoQueue { op: None }),
        PurgeFault::Memory => Err(AnswerFault::Memory),
        PurgeFault::DiskFault => Err(AnswerFault::DiskFault),
    }
}

pub(crate) fn store_fault_reply(fault: StoreFault) -> Result<Reply, AnswerFault>
    ensures { result ≡ store_fault_reply fault }
{
    match fault {
        StoreFault::Down => Ok(Reply::Down),
        StoreFault::Memory => Err(AnswerFault::Memory),
        StoreFault::DiskFault => Err(AnswerFault::DiskFault),
    }
}

/// What is replied to a checkpoint.
pub fn checkpoint_reply(given: Result<(), CheckpointFault>) -> Result<Reply, AnswerFault>
    ensures { result ≡ checkpoint_reply given }
{
    match given {
        Ok(()) => Ok(Reply::Done),
        Err(CheckpointFault::Down) => Ok(Reply::Down),
        Err(CheckpointFault::TooFar) => Ok(Reply::TooFar),
        Err(CheckpointFault::TooLarge) => Ok(Reply::TooLarge),
        Err(CheckpointFault::Memory) => Err(AnswerFault::Memory),
        Err(CheckpointFault::DiskFault) => Err(AnswerFault::DiskFault),
    }
}
