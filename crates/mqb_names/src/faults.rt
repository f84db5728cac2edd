ghost use Rattle.std.specs.Prelude.{◌≡◌};

use mqb_base::Memory;
use thiserror::Error;

/// The part of a text that fails.
#[derive(Clone, Copy, Debug, PartialEq, Eq)]
pub enum NameKind {
    /// The word up to and with `=`.
    Prefix,
    /// The 36 characters of a GUID.
    Guid,
    /// The backslash and all hexadecimal digits behind it.
    Number,
    /// What stands behind `DIRECT=`.
    Protocol,
    Host,
    /// The text between host and queue.
    Path,
    Queue,
    /// What stands behind the name.
    Suffix,
}

/// A part of a text that fails, and where it begins.
#[derive(Clone, Copy, Debug, PartialEq, Eq)]
pub struct PartFault {
    pub at: usize,
    pub kind: NameKind,
}

/// Why a text is not read as a name.
#[derive(Clone, Copy, Debug, PartialEq, Eq, Error)]
pub enum NameFault {
    /// The part that begins at `at` fails, and none before it.
    #[error("no name: {kind:?} at {at}")]
    Bad { at: usize, kind: NameKind },
    #[error("out of memory")]
    Memory,
}

impl From<Memory> for NameFault {
    ghost use Rattle.mqb_names.specs.declared.faults.NameFault.TheVariants as fault;

    ghost from_gives = { λ _ given. given ≡ fault.Memory };

    fn from(_memory: Memory) -> NameFault {
        NameFault::Memory
    }
}

impl From<PartFault> for NameFault {
    ghost use Rattle.mqb_names.specs.declared.faults.NameFault.TheVariants as fault;

    ghost from_gives = { λ part given. given ≡ fault.Bad part.at part.kind };

    fn from(part: PartFault) -> NameFault {
        NameFault::Bad {
            at: part.at,
            kind: part.kind,
        }
    }
}
