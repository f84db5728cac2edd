use mqb_base::Cause;
use mqb_fields::HeadFault;
use thiserror::Error;

/// The greatest length of a piece.
pub const MAX_PIECE: u32 = 1_048_576;

/// A capture of so many bytes or more is too much: it is inspected up to here, and
/// its end is not seen.
pub const MAX_CAPTURE: u64 = 1_073_741_824;

/// Which way bytes went: the end that was captured sent or heard them.
#[derive(Clone, Copy, Debug, PartialEq, Eq)]
pub enum Way {
    Sent,
    Heard,
}

/// Why a packet breaks a capture.
#[derive(Clone, Copy, Debug, PartialEq, Eq)]
pub enum BreakCause {
    /// It is no packet.
    Bad { fault: HeadFault },
    /// It has no session header, or is not from one end to the other.
    Origin,
    /// It was sent in a phase that does not send it, or it ended the session.
    Phase,
    /// It was sent where the peer's window was full, or all numbers were used.
    Window,
    /// It was sent with another session header than the session's.
    Stamp,
    /// It was heard, and closes the session.
    Closed(Cause),
    /// Its numbers, or its message, do not fit those of another packet of its sequence.
    Link,
    /// Behind lawful packets bytes are left that are no whole packet.
    Cut,
}

/// What a capture is: lawful, of so many packets, or broken, by the packet with this index.
#[derive(Clone, Copy, Debug, PartialEq, Eq)]
pub enum Verdict {
    Lawful { sent: u32, heard: u32 },
    Broken { index: u32, cause: BreakCause },
}

/// Why there is no verdict: the bytes stop being a capture at a place before which nothing breaks
/// it, there are too many of them, or they or memory cannot be had.
#[derive(Clone, Copy, Debug, PartialEq, Eq, Error)]
pub enum InspectFault {
    #[error("the bytes are no capture at {at}")]
    Capture { at: u64 },
    #[error("the capture is too large")]
    TooMuch,
    #[error("the capture cannot be read")]
    ReadFault,
    #[error("no memory")]
    Memory,
}
