ghost use Rattle.std.specs.Prelude.{◌≡◌};
ghost use Rattle.mqb_script.specs.Faults.{at_line};

use mqb_forms::{LineFault, LineKind};
use std::alloc::AllocError;
use thiserror::Error;

/// Why there is no script.
#[derive(Clone, Copy, Debug, PartialEq, Eq, Error)]
pub enum ScriptFault {
    /// The first line that fails, counted from 1.
    #[error("line {number}: {kind}")]
    Line { number: u32, kind: LineKind },
    #[error("over 16,777,216 bytes")]
    TooLong,
    #[error("over 200,000 lines")]
    TooManyLines,
    #[error("the input failed")]
    ReadFault,
    #[error("out of memory")]
    Memory,
}

/// The fault of a script whose line of this number is the first that fails.
pub(crate) fn at_line(number: u32, fault: LineFault) -> ScriptFault
    ensures { result ≡ at_line number fault }
{
    match fault {
        LineFault::Faulty(kind) => ScriptFault::Line { number, kind },
        LineFault::Memory => ScriptFault::Memory,
    }
}

impl From<AllocError> for ScriptFault {
    ghost use Rattle.std.specs.Prelude.{◌≡◌};
    ghost use Rattle.mqb_script.specs.declared.faults.ScriptFault.TheVariants as fault;

    ghost from_gives = { λ _ given. given ≡ fault.Memory };

    fn from(_error: AllocError) -> ScriptFault {
        ScriptFault::Memory
    }
}
