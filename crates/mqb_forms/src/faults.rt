use mqb_base::Memory;
use std::alloc::AllocError;
use thiserror::Error;

/// What is wrong with a line: the first of these that holds.
#[derive(Clone, Copy, Debug, PartialEq, Eq, Error)]
pub enum LineKind {
    /// A byte is not printable ASCII.
    #[error("a byte outside of printable ASCII")]
    Byte,
    #[error("no such first word")]
    Word,
    /// There are too few words or too many, or one is empty.
    #[error("a wrong count of words")]
    Count,
    /// A word is outside its form.
    #[error("a word outside its form")]
    Value,
}

/// Why words are not read.
#[derive(Clone, Copy, Debug, PartialEq, Eq)]
pub enum LineFault {
    Faulty(LineKind),
    Memory,
}

impl LineFault {
    pub const VALUE: LineFault = LineFault::Faulty(LineKind::Value);
}

impl From<LineKind> for LineFault {
    ghost use Rattle.std.specs.Prelude.{◌≡◌};
    ghost use Rattle.mqb_forms.specs.declared.faults.LineFault.TheVariants as fault;

    ghost from_gives = { λ kind given. given ≡ fault.Faulty kind };

    fn from(kind: LineKind) -> LineFault {
        LineFault::Faulty(kind)
    }
}

impl From<Memory> for LineFault {
    ghost use Rattle.std.specs.Prelude.{◌≡◌};
    ghost use Rattle.mqb_forms.specs.declared.faults.LineFault.TheVariants as fault;

    ghost from_gives = { λ _ given. given ≡ fault.Memory };

    fn from(_memory: Memory) -> LineFault {
        LineFault::Memory
    }
}

impl From<AllocError> for LineFault {
    ghost use Rattle.std.specs.Prelude.{◌≡◌};
    ghost use Rattle.mqb_forms.specs.declared.faults.LineFault.TheVariants as fault;

    ghost from_gives = { λ _ given. given ≡ fault.Memory };

    fn from(_error: AllocError) -> LineFault {
        LineFault::Memory
    }
}
