ghost use Rattle.std.specs.Prelude.{◌≡◌};

use thiserror::Error;

/// Fewer bytes are left at a place than were asked for.
#[derive(Clone, Copy, Debug, PartialEq, Eq, Error)]
#[error("the bytes end in the field at {at}")]
pub struct Short {
    pub at: usize,
}

/// What is wrong with a header.
#[derive(Clone, Copy, Debug, PartialEq, Eq)]
pub enum HeadKind {
    /// It is no whole base header.
    Short,
    Version,
    /// It says that a debug header follows.
    Debug,
    Signature,
    /// The packet's size is out of range or is not that of its parts.
    Size,
    /// No such type of internal packet.
    Kind,
    /// It says that it is signed, hashed or encrypted.
    Secured,
    /// No name, or a type of name that may not stand there.
    Name,
    /// The label is too long.
    Label,
    /// No such class.
    Class,
    /// The body is greater than the bytes that hold it.
    Sizes,
}

/// A fault of a packet's header, and its place in the packet.
#[derive(Clone, Copy, Debug, PartialEq, Eq, Error)]
#[error("the header has the fault {kind:?} at {at}")]
pub struct HeadFault {
    pub at: usize,
    pub kind: HeadKind,
}

impl HeadFault {
    /// A part that passes the packet's end is a fault of the size field, which is at 8.
    pub const PAST_END: HeadFault = HeadFault {
        at: 8,
        kind: HeadKind::Size,
    };

    pub fn new(at: usize, kind: HeadKind) -> HeadFault
        ensures { result ≡ record { at = at; kind = kind } }
    {
        HeadFault { at, kind }
    }
}

impl From<Short> for HeadFault {
    ghost use Rattle.std.specs.Prelude.{◌≡◌};
    ghost use Rattle.mqb_fields.specs.Faults.{past_end};

    ghost from_gives = { λ _ fault. fault ≡ past_end };

    fn from(_short: Short) -> HeadFault {
        HeadFault::PAST_END
    }
}
