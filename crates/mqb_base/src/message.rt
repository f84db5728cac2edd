ghost use Rattle.std.specs.Prelude.{◌≡◌, IfOk};
ghost use Rattle.mqb_base.specs.Bits.{keeps_dead, keeps_copy};
ghost use Rattle.mqb_base.specs.Lanes.{lane_of};

use crate::bits::{DEAD_LETTER, JOURNAL, has_bit};
use crate::bytes::Bytes;
use crate::class::Class;
use crate::ids::MessageId;
use crate::queue_names::QueueName;
use crate::units::Units;
use std::alloc::AllocError;

/// The greatest priority of a message.
pub const MAX_PRIORITY: u8 = 7;

/// The most UTF-16 units of a label.
pub const MAX_LABEL: usize = 250;

/// How a message travels: express ones are lost in a restart, recoverable ones may come twice,
/// transactional ones come once and in order.
#[derive(Clone, Copy, Debug, PartialEq, Eq)]
pub enum Delivery {
    Express,
    Recoverable,
    Transactional,
}

/// Of two lists of messages the one that survives a restart, or the one of express messages.
#[derive(Clone, Copy, Debug, PartialEq, Eq)]
pub enum Lane {
    Durable,
    Express,
}

impl Delivery {
    /// The list that such a message joins.
    pub fn lane(self) -> Lane
        ensures { result ≡ lane_of self }
    {
        match self {
            Delivery::Express => Lane::Express,
            Delivery::Recoverable | Delivery::Transactional => Lane::Durable,
        }
    }
}

/// A message. Moments are seconds since 1970. `reach` and `life` are seconds from `sent` on, within
/// which it is to reach its queue and to be received; `UNLIMITED` is without limit. The bits of
/// `ack` are `POSITIVE_ARRIVAL` and so on, those of `journal` are `DEAD_LETTER` and `JOURNAL`.
#[derive(Debug, PartialEq, Eq, Drop)]
pub struct Message {
    pub id: MessageId,
    pub class: Class,
    pub delivery: Delivery,
    pub priority: u8,
    pub sent: u32,
    pub reach: u32,
    pub life: u32,
    pub destination: QueueName,
    pub admin: Option<QueueName>,
    pub response: Option<QueueName>,
    pub ack: u8,
    pub journal: u8,
    pub correlation: MessageId,
    pub body_type: u32,
    pub tag: u32,
    pub label: Units,
    pub extension: Bytes,
    pub body: Bytes,
}

impl Message {
    /// Whether it asks that a dead-letter queue keeps it, or its source hears of its fate.
    pub fn keeps_dead(&self) -> bool
        ensures { result ≡ keeps_dead self.now }
    {
        has_bit(self.journal, DEAD_LETTER)
    }

    /// Whether it asks that the computer's journal keeps a copy.
    pub fn keeps_copy(&self) -> bool
        ensures { result ≡ keeps_copy self.now }
    {
        has_bit(self.journal, JOURNAL)
    }
}

/// A copy of a name that may be absent.
fn copy_of(name: &Option<QueueName>) -> Result<Option<QueueName>, AllocError>
    ensures { IfOk result (λ copy. copy ≡ name.now) }
{
    match name {
        Some(name) => Ok(Some(name.clone()?)),
        None => Ok(None),
    }
}

impl Clone for Message {
    ghost is_clone = { λ old copy. copy ≡ old };

    fn clone(&self) -> Result<Message, AllocError> {
        Ok(Message {
            destination: self.destination.clone()?,
            admin: copy_of(&self.admin)?,
            response: copy_of(&self.response)?,
            label: self.label.clone()?,
            extension: self.extension.clone()?,
            body: self.body.clone()?,
            id: self.id,
            class: self.class,
            delivery: self.delivery,
            priority: self.priority,
            sent: self.sent,
            reach: self.reach,
            life: self.life,
            ack: self.ack,
            journal: self.journal,
            correlation: self.correlation,
            body_type: self.body_type,
            tag: self.tag,
        })
    }
}
