//! What ends a replay before its script is played.
ghost use Rattle.std.specs.Prelude.{◌≡◌};
ghost use Rattle.mqb_replay.specs.Faults.{fault_status, status_of};

use mqb_base::{Failed, Memory};
use mqb_commands::Status;
use mqb_forms::LineKind;
use mqb_script::ScriptFault;
use mqb_world::WorldFault;
use std::alloc::AllocError;
use thiserror::Error;

/// Why a script was not replayed to its end.
#[derive(Clone, Copy, Debug, PartialEq, Eq, Error)]
pub enum ReplayFault {
    /// The first line of the script that fails, counted from 1.
    #[error("line {line}: {kind}")]
    Script { line: u32, kind: LineKind },
    #[error("over 16,777,216 bytes")]
    TooLong,
    #[error("over 200,000 lines")]
    TooManyLines,
    #[error("the input failed")]
    ReadFault,
    #[error("the output failed")]
    WriteFault,
    /// A disk on which a store was to be made has bytes.
    #[error("a disk is not empty")]
    NotEmpty,
    /// A disk failed while the stores were made.
    #[error("a call of a disk failed")]
    DiskFault,
    /// A packet does not fit the medium, which has room for 268,435,456 bytes.
    #[error("the medium is full")]
    NetFull,
    #[error("out of memory")]
    Memory,
}

impl ReplayFault {
    /// How the program ends then.
    pub fn status(self) -> Status
        ensures { result ≡ fault_status self }
    {
        match self {
            ReplayFault::Script { line, kind } => Status::Script { line, kind },
            ReplayFault::TooLong => Status::TooLong,
            ReplayFault::TooManyLines => Status::TooManyLines,
            ReplayFault::ReadFault => Status::ReadFault,
            ReplayFault::WriteFault => Status::WriteFault,
            ReplayFault::NotEmpty => Status::NotEmpty,
            ReplayFault::DiskFault => Status::DiskFault,
            ReplayFault::NetFull => Status::NetFull,
            ReplayFault::Memory => Status::Memory,
        }
    }
}

/// How the program ends where a replay ends so.
pub fn status_of(end: Result<(), ReplayFault>) -> Status
    ensures { result ≡ status_of end }
{
    match end {
        Ok(()) => Status::Done,
        Err(fault) => fault.status(),
    }
}

impl From<ScriptFault> for ReplayFault {
    ghost use Rattle.std.specs.Prelude.{◌≡◌};
    ghost use Rattle.mqb_replay.specs.Faults.{script_fault};

    ghost from_gives = { λ given to. to ≡ script_fault given };

    fn from(fault: ScriptFault) -> ReplayFault {
        match fault {
            ScriptFault::Line { number, kind } => ReplayFault::Script { line: number, kind },
            ScriptFault::TooLong => ReplayFault::TooLong,
            ScriptFault::TooManyLines => ReplayFault::TooManyLines,
            ScriptFault::ReadFault => ReplayFault::ReadFault,
            ScriptFault::Memory => ReplayFault::Memory,
        }
    }
}

impl From<WorldFault> for ReplayFault {
    ghost use Rattle.std.specs.Prelude.{◌≡◌};
    ghost use Rattle.mqb_replay.specs.Faults.{world_fault};

    ghost from_gives = { λ given to. to ≡ world_fault given };

    fn from(fault: WorldFault) -> ReplayFault {
        match fault {
            WorldFault::NotEmpty => ReplayFault::NotEmpty,
            WorldFault::DiskFault => ReplayFault::DiskFault,
            WorldFault::NetFull => ReplayFault::NetFull,
            WorldFault::Memory => ReplayFault::Memory,
        }
    }
}

impl From<Failed> for ReplayFault {
    ghost use Rattle.std.specs.Prelude.{◌≡◌};
    ghost use Rattle.mqb_replay.specs.declared.faults.ReplayFault.TheVariants as fault;

    ghost from_gives = { λ _ to. to ≡ fault.WriteFault };

    fn from(_error: Failed) -> ReplayFault {
        ReplayFault::WriteFault
    }
}

impl From<Memory> for ReplayFault {
    ghost use Rattle.std.specs.Prelude.{◌≡◌};
    ghost use Rattle.mqb_replay.specs.declared.faults.ReplayFault.TheVariants as fault;

    ghost from_gives = { λ _ to. to ≡ fault.Memory };

    fn from(_error: Memory) -> ReplayFault {
        ReplayFault::Memory
    }
}

impl From<AllocError> for ReplayFault {
    ghost use Rattle.std.specs.Prelude.{◌≡◌};
    ghost use Rattle.mqb_replay.specs.declared.faults.ReplayFault.TheVariants as fault;

    ghost from_gives = { λ _ to. to ≡ fault.Memory };

    fn from(_error: AllocError) -> ReplayFault {
        ReplayFault::Memory
    }
}
