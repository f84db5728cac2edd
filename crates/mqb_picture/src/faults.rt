ghost use Rattle.std.specs.Prelude.{◌≡◌};
ghost use Rattle.mqb_picture.specs.declared.faults.Kind.TheVariants as kind;
ghost use Rattle.mqb_picture.specs.declared.faults.Fault.TheVariants as fault;

use mqb_base::Memory;
use std::alloc::AllocError;

/// Why an input has no picture.
#[derive(Clone, Copy)]
pub enum Kind {
    /// It has over 1,048,576 bytes.
    TooLong,
    /// None of its lines is `transcript`.
    NoTranscript,
    /// This line of the script is of no form that is drawn, or what stands in the place
    /// of its reply is none.
    Line { number: usize },
    /// The transcript ends before the last reply, or goes on behind it with
    /// something other than `end`.
    NoEnd,
    /// The picture has over 4,096 elements or over 1,048,576 bytes.
    TooLarge,
}

/// Why a picture was not made.
#[derive(Clone, Copy)]
pub enum Fault {
    Input(Kind),
    Memory,
}

impl Fault {
    pub fn line(number: usize) -> Fault
        ensures { result ≡ fault.Input (kind.Line number) }
    {
        Fault::Input(Kind::Line { number })
    }
}

impl From<Memory> for Fault {
    ghost use Rattle.std.specs.Prelude.{◌≡◌};
    ghost use Rattle.mqb_picture.specs.declared.faults.Fault.TheVariants as fault;

    ghost from_gives = { λ _ given. given ≡ fault.Memory };

    fn from(_memory: Memory) -> Fault {
        Fault::Memory
    }
}

impl From<AllocError> for Fault {
    ghost use Rattle.std.specs.Prelude.{◌≡◌};
    ghost use Rattle.mqb_picture.specs.declared.faults.Fault.TheVariants as fault;

    ghost from_gives = { λ _ given. given ≡ fault.Memory };

    fn from(_error: AllocError) -> Fault {
        Fault::Memory
    }
}
