use crate::class::Class;
use crate::ids::{MessageId, SequenceId};

/// Why a session closed.
#[derive(Clone, Copy, Debug, PartialEq, Eq)]
pub enum Cause {
    /// A packet came before its phase.
    Early,
    /// More was acknowledged than was sent.
    BadAck,
    /// The other end refused, or was refused.
    Refused,
    /// A set-up packet came again.
    Repeated,
    /// A packet came from or for another manager.
    Foreign,
}

/// What a manager made of a packet.
#[derive(Clone, Copy, Debug, PartialEq, Eq)]
pub enum Heard {
    SetUp,
    Session,
    Put {
        sequence: SequenceId,
        number: u32,
    },
    Refused {
        sequence: SequenceId,
        number: u32,
        class: Class,
    },
    Duplicate {
        sequence: SequenceId,
        number: u32,
    },
    Gap {
        sequence: SequenceId,
        number: u32,
    },
    Stale {
        sequence: SequenceId,
        number: u32,
    },
    Stored,
    Bounced(Class),
    ExpressPut(MessageId),
    ExpressBounced(Class, MessageId),
    OrderAcked {
        ordinal: u32,
        number: u32,
    },
    OldAck,
    Final {
        id: MessageId,
        class: Class,
    },
    Discarded,
    Closed(Cause),
}
