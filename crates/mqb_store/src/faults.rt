use mqb_base::Memory;
use thiserror::Error;

/// Why a record was not written. After `Memory` nothing has changed; after `DiskFault` the store is
/// down, and its record may have been written or not.
#[derive(Clone, Copy, Debug, PartialEq, Eq, Error)]
pub enum WriteFault {
    #[error("out of memory")]
    Memory,
    #[error("a call of the disk failed")]
    DiskFault,
}

impl From<Memory> for WriteFault {
    ghost use Rattle.std.specs.Prelude.{◌≡◌};
    ghost use Rattle.mqb_store.specs.declared.faults.WriteFault.TheVariants as write_fault;

    ghost from_gives = { λ _ fault. fault ≡ write_fault.Memory };

    fn from(_: Memory) -> WriteFault {
        WriteFault::Memory
    }
}
