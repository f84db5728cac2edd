use mqb_forms::LineFault;
use std::alloc::AllocError;
use thiserror::Error;

/// Why the words of a command line are not read as a command.
#[derive(Clone, Copy, Debug, PartialEq, Eq, Error)]
pub enum WordsFault {
    #[error("words outside their forms")]
    Usage,
    #[error("out of memory")]
    Memory,
}

impl From<LineFault> for WordsFault {
    ghost use Rattle.std.specs.Prelude.{◌≡◌};
    ghost use Rattle.mqb_words.specs.Words.{fault_of};

    ghost from_gives = { λ fault given. given ≡ fault_of fault };

    fn from(fault: LineFault) -> WordsFault {
        match fault {
            LineFault::Faulty(_) => WordsFault::Usage,
            LineFault::Memory => WordsFault::Memory,
        }
    }
}

impl From<AllocError> for WordsFault {
    ghost use Rattle.std.specs.Prelude.{◌≡◌};
    ghost use Rattle.mqb_words.specs.declared.faults.WordsFault.TheVariants as fault;

    ghost from_gives = { λ _ given. given ≡ fault.Memory };

    fn from(_error: AllocError) -> WordsFault {
        WordsFault::Memory
    }
}
