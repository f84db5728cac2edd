use mqb_base::Memory;
use mqb_fields::Short;
use thiserror::Error;

/// Why bytes are not read back as a state.
#[derive(Clone, Copy, Debug, PartialEq, Eq, Error)]
pub enum BackFault {
    /// They spell no valid state. It is the start of the first field that fails, or the first
    /// byte behind a state.
    #[error("no state's field stands at {at}")]
    Bad { at: usize },
    #[error("out of memory")]
    Memory,
}

/// A field that passes the end.
impl From<Short> for BackFault {
    ghost use Rattle.std.specs.Prelude.{◌≡◌};
    ghost use Rattle.mqb_read_back.specs.declared.faults.BackFault.TheVariants.{Bad};

    ghost from_gives = { λ short fault. fault ≡ Bad short.at };

    fn from(short: Short) -> BackFault {
        BackFault::Bad { at: short.at }
    }
}

impl From<Memory> for BackFault {
    ghost use Rattle.std.specs.Prelude.{◌≡◌};
    ghost use Rattle.mqb_read_back.specs.declared.faults.BackFault.TheVariants as fault;

    ghost from_gives = { λ _ given. given ≡ fault.Memory };

    fn from(_memory: Memory) -> BackFault {
        BackFault::Memory
    }
}
