use mqb_base::{Bytes, Class, Delivery, Guid, Memory, Message, MessageId, QueueName, Units};
use std::alloc::Global;

/// A value that can stand in a vacated slot.
pub trait Vacant: Clone + Drop {
    /// A value whose clones share what memory it takes.
    fn vacant(alloc: Global) -> Result<Self, Memory>;
}

/// The GUID of no manager.
const NO_GUID: Guid = Guid([0; 16]);

/// The identifier of no message.
const NO_ID: MessageId = MessageId {
    qm: NO_GUID,
    number: 0,
};

impl Vacant for Message {
    fn vacant(alloc: Global) -> Result<Message, Memory> {
        let nothing = Bytes::from_slice(alloc, &[])?;
        Ok(Message {
            id: NO_ID,
            class: Class::NORMAL,
            delivery: Delivery::Express,
            priority: 0,
            sent: 0,
            reach: 0,
            life: 0,
            destination: QueueName::Public {
                guid: NO_GUID,
                journal: false,
            },
            admin: None,
            response: None,
            ack: 0,
            journal: 0,
            correlation: NO_ID,
            body_type: 0,
            tag: 0,
            label: Units::from_slice(alloc, &[])?,
            extension: nothing.clone()?,
            body: nothing,
        })
    }
}
