//! Messages that differ in a few fields, and the names in them.
use mqb_base::{
    Bytes, Class, Delivery, Guid, Memory, Message, MessageId, Name, QueueName, QueuePlan,
    SequenceId, UNLIMITED, Units,
};
use std::alloc::Global;

pub(crate) const ALPHA: Guid = Guid([1; 16]);

/// A queue of alpha.
pub(crate) const REPLIES: QueueName = QueueName::Public {
    guid: ALPHA,
    journal: false,
};

pub(crate) const SEQUENCE: SequenceId = SequenceId {
    ordinal: 3,
    stamp: 1000,
};

/// A queue of two messages.
pub(crate) fn plan(name: Name) -> QueuePlan {
    QueuePlan {
        name,
        public: Some(ALPHA),
        transactional: true,
        quota: 2,
        journal: true,
    }
}

/// What samples differ in.
#[derive(Clone, Copy)]
pub(crate) struct Sample {
    pub(crate) number: u32,
    pub(crate) delivery: Delivery,
    pub(crate) priority: u8,
    pub(crate) life: u32,
    pub(crate) journal: u8,
}

/// A recoverable message that asks for nothing.
pub(crate) const SAMPLE: Sample = Sample {
    number: 7,
    delivery: Delivery::Recoverable,
    priority: 3,
    life: UNLIMITED,
    journal: 0,
};

fn of_parts(sample: &Sample, label: Units, extension: Bytes, body: Bytes) -> Message {
    Message {
        id: MessageId {
            qm: ALPHA,
            number: sample.number,
        },
        class: Class::NORMAL,
        delivery: sample.delivery,
        priority: sample.priority,
        sent: 1000,
        reach: 10,
        life: sample.life,
        destination: REPLIES,
        admin: None,
        response: None,
        ack: 0,
        journal: sample.journal,
        correlation: MessageId {
            qm: ALPHA,
            number: 0,
        },
        body_type: 1,
        tag: 1,
        label,
        extension,
        body,
    }
}

/// A message of alpha, sent at 1000. What takes memory is there before the message is made, so no
/// part of one falls where there is none.
pub(crate) fn message(alloc: Global, sample: &Sample) -> Result<Message, Memory> {
    let label = Units::from_slice(alloc, &[])?;
    let extension = Bytes::from_slice(alloc, b"")?;
    let body = Bytes::from_slice(alloc, b"one")?;
    Ok(of_parts(sample, label, extension, body))
}

/// The number of a message that was taken out. The message falls.
pub(crate) fn taken(message: Message) -> u32 {
    let number = message.id.number;
    drop(message);
    number
}
