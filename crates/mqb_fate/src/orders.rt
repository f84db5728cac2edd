ghost use Rattle.std.specs.Prelude.{◌≡◌, length, IfOk};
ghost use Rattle.mqb_fate.specs.Orders.{is_order_name, names_order_layer, order_layer, is_between};
ghost use Rattle.mqb_fate.specs.Orders.{is_final_class, ack_body, acked_by, order_acknowledgement};

use crate::notices::NOTICE_PRIORITY;
use byteorder::{ByteOrder, LittleEndian};
use mqb_base::{
    Bytes, Class, Delivery, Guid, Host, Memory, Message, MessageId, Name, QueueName, SequenceId,
    UNLIMITED, Units,
};
use std::alloc::Global;

/// The queue name of the order layer.
const ORDER_QUEUE: &[u8] = b"order_queue$";

/// The identifier that names no message.
const NO_MESSAGE: MessageId = MessageId {
    qm: Guid([0; 16]),
    number: 0,
};

/// What an order acknowledgement says: up to which number a sequence was decided.
#[derive(Clone, Copy, Debug, PartialEq, Eq)]
pub struct OrderAck {
    pub sequence: SequenceId,
    pub number: u32,
}

/// Whether a queue name means the order layer.
pub fn is_order_name(name: &Name) -> bool
    ensures { result ≡ is_order_name name.now }
{
    name.as_slice().eq_ignore_ascii_case(ORDER_QUEUE)
}

/// Whether a format name is that of some manager's order layer.
pub fn names_order_layer(name: &QueueName) -> bool
    ensures { result ≡ names_order_layer name.now }
{
    match name {
        QueueName::Direct { queue, journal, .. } => !*journal && is_order_name(queue),
        QueueName::Public { .. } | QueueName::Private { .. } | QueueName::Machine { .. } => false,
    }
}

/// The format name of the order layer at a host.
pub fn order_layer(alloc: Global, host: &Name) -> Result<QueueName, Memory>
    ensures { IfOk result (λ name. name ≡ order_layer host.now) }
{
    Ok(QueueName::Direct {
        host: Host::Os(host.clone()?),
        queue: Name::new(alloc, ORDER_QUEUE).map_err(|_| Memory)?,
        journal: false,
    })
}

fn is_between(low: Class, high: Class, class: Class) -> bool
    ensures { result ≡ is_between low high class }
{
    low.0 <= class.0 && class.0 <= high.0
}

/// Whether a recoverable message of a class to the order layer is a final acknowledgement.
pub fn is_final_class(class: Class) -> bool
    ensures { result ≡ is_final_class class }
{
    class == Class::RECEIVED
        || is_between(
            Class::BAD_DESTINATION,
            Class::MESSAGE_NOT_TRANSACTIONAL,
            class,
        )
        || is_between(Class::QUEUE_DELETED, Class::RECEIVE_TIMEOUT, class)
}

fn put_ack(to: &mut [u8], ack: OrderAck)
    requires { length to.old ≡ 16 }
    ensures { to.new ≡ ack_body ack }
{
    LittleEndian::write_u32(to, ack.sequence.ordinal);
    LittleEndian::write_u32(&mut to[4..], ack.sequence.stamp);
    LittleEndian::write_u32(&mut to[8..], ack.number);
    LittleEndian::write_u32(&mut to[12..], 0);
}

impl OrderAck {
    /// What the body of an order acknowledgement says, where a body can be that of one.
    pub fn read(body: &[u8]) -> Option<OrderAck>
        ensures { result ≡ acked_by body.now }
    {
        if body.len() != 16 {
            return None;
        }
        Some(OrderAck {
            sequence: SequenceId {
                ordinal: LittleEndian::read_u32(body),
                stamp: LittleEndian::read_u32(&body[4..]),
            },
            number: LittleEndian::read_u32(&body[8..]),
        })
    }

    fn body(self, alloc: Global) -> Result<Bytes, Memory>
        ensures { IfOk result (λ body. body ≡ ack_body self) }
    {
        let mut body = [0; 16];
        put_ack(&mut body, self);
        Bytes::from_slice(alloc, &body)
    }
}

/// The order acknowledgement for the source at a host, as the own manager's
/// message of this identifier.
pub fn order_acknowledgement(
    alloc: Global,
    ack: OrderAck,
    host: &Name,
    id: MessageId,
    now: u32,
) -> Result<Message, Memory>
    ensures { IfOk result (λ message. message ≡ order_acknowledgement ack host.now id now) }
{
    Ok(Message {
        id,
        class: Class::ORDER_ACKNOWLEDGEMENT,
        delivery: Delivery::Express,
        priority: NOTICE_PRIORITY,
        sent: now,
        reach: UNLIMITED,
        life: UNLIMITED,
        destination: order_layer(alloc, host)?,
        admin: None,
        response: None,
        ack: 0,
        journal: 0,
        correlation: NO_MESSAGE,
        body_type: 0,
        tag: 0,
        label: Units::from_slice(alloc, &[])?,
        extension: Bytes::from_slice(alloc, &[])?,
        body: ack.body(alloc)?,
    })
}
