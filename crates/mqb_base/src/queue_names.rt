ghost use Rattle.std.specs.Prelude.{◌≡◌};
ghost use Rattle.mqb_base.specs.QueueNames.{names_queue};

use crate::ids::Guid;
use crate::names::Name;
use std::alloc::AllocError;

/// A host, by its name or its IPv4 address.
#[derive(Debug, PartialEq, Eq, Hash, Drop)]
pub enum Host {
    Os(Name),
    Tcp([u8; 4]),
}

/// A queue that every manager has.
#[derive(Clone, Copy, Debug, PartialEq, Eq, Hash)]
pub enum MachineQueue {
    DeadLetter,
    DeadXact,
    Journal,
}

/// The format name of a queue. With `journal` it names the queue's journal.
#[derive(Debug, PartialEq, Eq, Hash, Drop)]
pub enum QueueName {
    Public {
        guid: Guid,
        journal: bool,
    },
    Private {
        qm: Guid,
        number: u32,
        journal: bool,
    },
    Direct {
        host: Host,
        queue: Name,
        journal: bool,
    },
    Machine {
        qm: Guid,
        kind: MachineQueue,
    },
}

impl QueueName {
    /// Whether it names a queue itself, and neither its journal nor a machine's queue.
    pub fn names_queue(&self) -> bool
        ensures { result ≡ names_queue self.now }
    {
        match self {
            QueueName::Public { journal, .. }
            | QueueName::Private { journal, .. }
            | QueueName::Direct { journal, .. } => !*journal,
            QueueName::Machine { .. } => false,
        }
    }
}

impl Clone for Host {
    ghost is_clone = { λ old copy. copy ≡ old };

    fn clone(&self) -> Result<Host, AllocError> {
        match self {
            Host::Os(name) => Ok(Host::Os(name.clone()?)),
            Host::Tcp(address) => Ok(Host::Tcp(*address)),
        }
    }
}

impl Clone for QueueName {
    ghost is_clone = { λ old copy. copy ≡ old };

    fn clone(&self) -> Result<QueueName, AllocError> {
        Ok(match self {
            QueueName::Public { guid, journal } => QueueName::Public {
                guid: *guid,
                journal: *journal,
            },
            QueueName::Private {
                qm,
                number,
                journal,
            } => QueueName::Private {
                qm: *qm,
                number: *number,
                journal: *journal,
            },
            QueueName::Direct {
                host,
                queue,
                journal,
            } => QueueName::Direct {
                host: host.clone()?,
                queue: queue.clone()?,
                journal: *journal,
            },
            QueueName::Machine { qm, kind } => QueueName::Machine {
                qm: *qm,
                kind: *kind,
            },
        })
    }
}
