ghost use Rattle.std.specs.Prelude.{◌≡◌};

use crate::class::Class;
use crate::ids::{Guid, MessageId, SequenceId};
use crate::queue_names::QueueName;
use std::alloc::AllocError;

/// A stream: a source manager, a destination name as it was written, and a sequence.
#[derive(Clone, Debug, PartialEq, Eq, Drop)]
pub struct Stream {
    pub source: Guid,
    pub destination: QueueName,
    pub sequence: SequenceId,
}

/// One line of the ledger: what a record did to one message.
#[derive(Debug, PartialEq, Eq, Drop)]
pub enum Line {
    /// It joined a stream under this number.
    Committed {
        stream: Stream,
        number: u32,
        id: MessageId,
    },
    /// Its time to reach its queue was due at this moment, before it was offered.
    Expired {
        stream: Stream,
        number: u32,
        id: MessageId,
        moment: u32,
    },
    /// It arrived from a stream and was put into its queue.
    Put {
        stream: Stream,
        number: u32,
        id: MessageId,
    },
    /// It arrived from a stream and was refused.
    Refused {
        stream: Stream,
        number: u32,
        class: Class,
        id: MessageId,
    },
    /// It was put into a queue of the manager that made it.
    Local {
        id: MessageId,
    },
    /// It was recoverable, and arrived and was put.
    Stored {
        id: MessageId,
    },
    /// It was recoverable, and arrived and was refused.
    Bounced {
        class: Class,
        id: MessageId,
    },
    /// It was recoverable, and its peer has stored it.
    Released {
        id: MessageId,
    },
    /// It was taken from a queue.
    Took {
        id: MessageId,
    },
    /// It was taken or purged from a journal or a dead-letter queue.
    Emptied {
        id: MessageId,
    },
    /// It was purged from a queue.
    Purged {
        id: MessageId,
    },
    /// It was recoverable, and its time to reach its queue was due at its source.
    Lapsed {
        id: MessageId,
    },
    /// Its time to be received was due in its queue.
    Swept {
        id: MessageId,
    },
}

impl Clone for Line {
    ghost is_clone = { λ old copy. copy ≡ old };

    fn clone(&self) -> Result<Line, AllocError> {
        Ok(match self {
            Line::Committed { stream, number, id } => Line::Committed {
                stream: stream.clone()?,
                number: *number,
                id: *id,
            },
            Line::Expired {
                stream,
                number,
                id,
                moment,
            } => Line::Expired {
                stream: stream.clone()?,
                number: *number,
                id: *id,
                moment: *moment,
            },
            Line::Put { stream, number, id } => Line::Put {
                stream: stream.clone()?,
                number: *number,
                id: *id,
            },
            Line::Refused {
                stream,
                number,
                class,
                id,
            } => Line::Refused {
                stream: stream.clone()?,
                number: *number,
                class: *class,
                id: *id,
            },
            Line::Local { id } => Line::Local { id: *id },
            Line::Stored { id } => Line::Stored { id: *id },
            Line::Bounced { class, id } => Line::Bounced {
                class: *class,
                id: *id,
            },
            Line::Released { id } => Line::Released { id: *id },
            Line::Took { id } => Line::Took { id: *id },
            Line::Emptied { id } => Line::Emptied { id: *id },
            Line::Purged { id } => Line::Purged { id: *id },
            Line::Lapsed { id } => Line::Lapsed { id: *id },
            Line::Swept { id } => Line::Swept { id: *id },
        })
    }
}
