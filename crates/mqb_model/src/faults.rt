use mqb_base::Memory;
use thiserror::Error;

/// Why no peer was added, the first reason that holds. Nothing has changed, but after `DiskFault`
/// the manager is down.
#[derive(Clone, Copy, Debug, PartialEq, Eq, Error)]
pub enum AddPeerFault {
    #[error("the manager is down")]
    Down,
    #[error("the host or the GUID is known already")]
    PeerThere,
    #[error("64 peers are known")]
    TooManyPeers,
    #[error("out of memory")]
    Memory,
    #[error("a call of the disk failed")]
    DiskFault,
}

/// Why no queue was made, the first reason that holds. Nothing has changed, but after `DiskFault`
/// the manager is down.
#[derive(Clone, Copy, Debug, PartialEq, Eq, Error)]
pub enum CreateFault {
    #[error("the manager is down")]
    Down,
    #[error("the name or the GUID is a queue's already")]
    QueueThere,
    #[error("1,024 queues are there")]
    TooManyQueues,
    #[error("out of memory")]
    Memory,
    #[error("a call of the disk failed")]
    DiskFault,
}

/// Why an op of a transaction cannot be done, the first reason that holds.
#[derive(Clone, Copy, Debug, PartialEq, Eq, Error)]
pub enum OpFault {
    #[error("no such queue")]
    NoQueue,
    #[error("the queue is not transactional")]
    NotTransactional,
    #[error("no message can be taken")]
    QueueEmpty,
    #[error("the destination leads nowhere")]
    UnknownPeer,
    #[error("the queue is full")]
    QueueFull,
    #[error("no sequence is left")]
    SequenceSpent,
}

/// Why no transaction was made, the first reason that holds. Nothing has changed, but after
/// `DiskFault` the manager is down. `index` counts ops from 0.
#[derive(Clone, Copy, Debug, PartialEq, Eq, Error)]
pub enum CommitFault {
    #[error("the manager is down")]
    Down,
    #[error("a transaction has an op")]
    NoOps,
    #[error("a transaction has at most 64 ops")]
    TooManyOps,
    #[error("op {index}: {fault}")]
    AtOp { index: u32, fault: OpFault },
    #[error("no message number is left")]
    NumbersSpent,
    #[error("a packet or the record is too large")]
    TooLarge,
    #[error("out of memory")]
    Memory,
    #[error("a call of the disk failed")]
    DiskFault,
}

/// Why no message was sent, the first reason that holds. Nothing has changed, but after `DiskFault`
/// the manager is down.
#[derive(Clone, Copy, Debug, PartialEq, Eq, Error)]
pub enum SendFault {
    #[error("the manager is down")]
    Down,
    #[error("the destination leads nowhere")]
    UnknownPeer,
    #[error("no such queue")]
    NoQueue,
    #[error("the queue is transactional")]
    Transactional,
    #[error("the queue is full")]
    QueueFull,
    #[error("no message number is left")]
    NumbersSpent,
    #[error("the packet is too large")]
    TooLarge,
    #[error("out of memory")]
    Memory,
    #[error("a call of the disk failed")]
    DiskFault,
}

/// Why no message was taken, the first reason that holds. Nothing has changed, but after
/// `DiskFault` the manager is down.
#[derive(Clone, Copy, Debug, PartialEq, Eq, Error)]
pub enum TakeFault {
    #[error("the manager is down")]
    Down,
    #[error("no such queue")]
    NoQueue,
    #[error("no message can be taken")]
    QueueEmpty,
    #[error("out of memory")]
    Memory,
    #[error("a call of the disk failed")]
    DiskFault,
}

/// Why a place was not purged, the first reason that holds. Nothing has changed, but after
/// `DiskFault` the manager is down.
#[derive(Clone, Copy, Debug, PartialEq, Eq, Error)]
pub enum PurgeFault {
    #[error("the manager is down")]
    Down,
    #[error("no such queue")]
    NoQueue,
    #[error("out of memory")]
    Memory,
    #[error("a call of the disk failed")]
    DiskFault,
}

/// Why a store was not changed, the first reason that holds. Nothing has changed, but after
/// `DiskFault` the manager is down.
#[derive(Clone, Copy, Debug, PartialEq, Eq, Error)]
pub enum StoreFault {
    #[error("the manager is down")]
    Down,
    #[error("out of memory")]
    Memory,
    #[error("a call of the disk failed")]
    DiskFault,
}

/// Why no session begins, the first reason that holds. Nothing has changed.
#[derive(Clone, Copy, Debug, PartialEq, Eq, Error)]
pub enum LinkFault {
    #[error("the manager is down")]
    Down,
    #[error("a session is there")]
    Linked,
    #[error("no such peer")]
    NoPeer,
}

/// Why a packet was not heard, the first reason that holds. Nothing has changed, but after
/// `DiskFault` the manager is down.
#[derive(Clone, Copy, Debug, PartialEq, Eq, Error)]
pub enum HearFault {
    #[error("the manager is down")]
    Down,
    #[error("no session is there")]
    NotLinked,
    #[error("out of memory")]
    Memory,
    #[error("a call of the disk failed")]
    DiskFault,
}

/// Why nothing was sent, the first reason that holds. Nothing has changed, but after `DiskFault`
/// the manager is down.
#[derive(Clone, Copy, Debug, PartialEq, Eq, Error)]
pub enum PumpFault {
    #[error("the manager is down")]
    Down,
    #[error("no session is there")]
    NotLinked,
    #[error("the session has used all its numbers")]
    Spent,
    #[error("out of memory")]
    Memory,
    #[error("a call of the disk failed")]
    DiskFault,
}

impl From<Memory> for AddPeerFault {
    ghost use Rattle.std.specs.Prelude.{◌≡◌};
    ghost use Rattle.mqb_model.specs.declared.faults.AddPeerFault.TheVariants as add_peer_fault;

    ghost from_gives = { λ _ fault. fault ≡ add_peer_fault.Memory };

    fn from(_: Memory) -> AddPeerFault {
        AddPeerFault::Memory
    }
}

impl From<Memory> for CreateFault {
    ghost use Rattle.std.specs.Prelude.{◌≡◌};
    ghost use Rattle.mqb_model.specs.declared.faults.CreateFault.TheVariants as create_fault;

    ghost from_gives = { λ _ fault. fault ≡ create_fault.Memory };

    fn from(_: Memory) -> CreateFault {
        CreateFault::Memory
    }
}

impl From<Memory> for CommitFault {
    ghost use Rattle.std.specs.Prelude.{◌≡◌};
    ghost use Rattle.mqb_model.specs.declared.faults.CommitFault.TheVariants as commit_fault;

    ghost from_gives = { λ _ fault. fault ≡ commit_fault.Memory };

    fn from(_: Memory) -> CommitFault {
        CommitFault::Memory
    }
}

impl From<Memory> for SendFault {
    ghost use Rattle.std.specs.Prelude.{◌≡◌};
    ghost use Rattle.mqb_model.specs.declared.faults.SendFault.TheVariants as send_fault;

    ghost from_gives = { λ _ fault. fault ≡ send_fault.Memory };

    fn from(_: Memory) -> SendFault {
        SendFault::Memory
    }
}

impl From<Memory> for TakeFault {
    ghost use Rattle.std.specs.Prelude.{◌≡◌};
    ghost use Rattle.mqb_model.specs.declared.faults.TakeFault.TheVariants as take_fault;

    ghost from_gives = { λ _ fault. fault ≡ take_fault.Memory };

    fn from(_: Memory) -> TakeFault {
        TakeFault::Memory
    }
}

impl From<Memory> for PurgeFault {
    ghost use Rattle.std.specs.Prelude.{◌≡◌};
    ghost use Rattle.mqb_model.specs.declared.faults.PurgeFault.TheVariants as purge_fault;

    ghost from_gives = { λ _ fault. fault ≡ purge_fault.Memory };

    fn from(_: Memory) -> PurgeFault {
        PurgeFault::Memory
    }
}

impl From<Memory> for StoreFault {
    ghost use Rattle.std.specs.Prelude.{◌≡◌};
    ghost use Rattle.mqb_model.specs.declared.faults.StoreFault.TheVariants as store_fault;

    ghost from_gives = { λ _ fault. fault ≡ store_fault.Memory };

    fn from(_: Memory) -> StoreFault {
        StoreFault::Memory
    }
}

impl From<Memory> for HearFault {
    ghost use Rattle.std.specs.Prelude.{◌≡◌};
    ghost use Rattle.mqb_model.specs.declared.faults.HearFault.TheVariants as hear_fault;

    ghost from_gives = { λ _ fault. fault ≡ hear_fault.Memory };

    fn from(_: Memory) -> HearFault {
        HearFault::Memory
    }
}

impl From<Memory> for PumpFault {
    ghost use Rattle.std.specs.Prelude.{◌≡◌};
    ghost use Rattle.mqb_model.specs.declared.faults.PumpFault.TheVariants as pump_fault;

    ghost from_gives = { λ _ fault. fault ≡ pump_fault.Memory };

    fn from(_: Memory) -> PumpFault {
        PumpFault::Memory
    }
}
