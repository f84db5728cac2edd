use mqb_base::Memory;
use mqb_posts::PostFault;
use thiserror::Error;

/// Why a world was not made, or why an event has no reply. A world is used no more then, and the
/// medium has the packets that were sent before.
#[derive(Clone, Copy, Debug, PartialEq, Eq, Error)]
pub enum WorldFault {
    #[error("a disk is not empty")]
    NotEmpty,
    #[error("a call of a disk failed")]
    DiskFault,
    #[error("the medium is full")]
    NetFull,
    #[error("out of memory")]
    Memory,
}

impl From<Memory> for WorldFault {
    ghost use Rattle.std.specs.Prelude.{◌≡◌};
    ghost use Rattle.mqb_world.specs.declared.faults.WorldFault.TheVariants as fault;

    ghost from_gives = { λ _ given. given ≡ fault.Memory };

    fn from(_memory: Memory) -> WorldFault {
        WorldFault::Memory
    }
}

impl From<PostFault> for WorldFault {
    ghost use Rattle.std.specs.Prelude.{◌≡◌};
    ghost use Rattle.mqb_world.specs.Faults.{world_fault};

    ghost from_gives = { λ given to. to ≡ world_fault given };

    fn from(fault: PostFault) -> WorldFault {
        match fault {
            PostFault::NetFull => WorldFault::NetFull,
            PostFault::Memory => WorldFault::Memory,
        }
    }
}
