use mqb_base::Memory;
use thiserror::Error;

/// Why a record is not applied.
#[derive(Clone, Copy, Debug, PartialEq, Eq, Error)]
pub enum RecordFault {
    /// It is no record of packets that can be read, or it does not fit the state.
    #[error("a record that does not fit")]
    Unfit,
    #[error("out of memory")]
    Memory,
}

impl From<Memory> for RecordFault {
    ghost use Rattle.std.specs.Prelude.{◌≡◌};
    ghost use Rattle.mqb_arrivals.specs.declared.faults.RecordFault.TheVariants as fault;

    ghost from_gives = { λ _ given. given ≡ fault.Memory };

    fn from(_memory: Memory) -> RecordFault {
        RecordFault::Memory
    }
}
