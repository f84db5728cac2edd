ghost use Rattle.std.specs.Prelude.{◌≡◌, None, Ok, IfOk};
ghost use Rattle.mqb_fate.specs.Notices.{notice_about, admin_delivery, admin_notice, final_notice};

use crate::asking::{asks_for, final_is_due, is_ordinary};
use crate::orders::order_layer;
use mqb_base::{
    Bytes, Class, Delivery, Guid, Identity, Memory, Message, MessageId, QueueName, UNLIMITED, Units,
};
use std::alloc::Global;

/// The priority of every notice.
pub const NOTICE_PRIORITY: u8 = 3;

/// A notice about a message that met a class.
fn notice_about(
    alloc: Global,
    cause: &Message,
    class: Class,
    delivery: Delivery,
    destination: QueueName,
    id: MessageId,
    now: u32,
) -> Result<Message, Memory>
    ensures { IfOk result (λ notice. notice ≡
        notice_about cause.now class delivery destination id now) }
{
    Ok(Message {
        id,
        class,
        delivery,
        priority: NOTICE_PRIORITY,
        sent: now,
        reach: UNLIMITED,
        life: UNLIMITED,
        destination,
        admin: None,
        response: None,
        ack: 0,
        journal: 0,
        correlation: cause.id,
        body_type: 0,
        tag: 0,
        label: Units::from_slice(alloc, &[])?,
        extension: Bytes::from_slice(alloc, &[])?,
        body: Bytes::from_slice(alloc, &[])?,
    })
}

fn admin_delivery(cause: Delivery) -> Delivery
    ensures { result ≡ admin_delivery cause }
{
    match cause {
        Delivery::Express => Delivery::Express,
        Delivery::Recoverable | Delivery::Transactional => Delivery::Recoverable,
    }
}

/// The administration message that a message asks for where it meets a class, as the own manager's
/// message of this number.
pub fn admin_for(
    alloc: Global,
    message: &Message,
    class: Class,
    own: Guid,
    number: u32,
    now: u32,
) -> Result<Option<Message>, Memory>
    ensures made { IfOk result (λ notice. notice ≡ admin_notice message.now class own number now) }

    // Where none is made, no memory is taken.
    ensures none { admin_notice message.now class own number now ≡ None → result ≡ Ok None }
{
    if !is_ordinary(message) || !asks_for(message, class) {
        return Ok(None);
    }
    let Some(admin) = &message.admin else {
        return Ok(None);
    };
    let id = MessageId { qm: own, number };
    let delivery = admin_delivery(message.delivery);
    notice_about(alloc, message, class, delivery, admin.clone()?, id, now).map(Some)
}

/// The final acknowledgement that is due to the source of a message where it meets a class, as the
/// own manager's message of this number. The peer is that source.
pub fn final_for(
    alloc: Global,
    message: &Message,
    class: Class,
    own: &Identity,
    peer: &Identity,
    number: u32,
    now: u32,
) -> Result<Option<Message>, Memory>
    requires { peer.now.guid ≡ message.now.id.qm }
    ensures made { IfOk result (λ notice. notice ≡
        final_notice message.now class own.now.guid peer.now number now) }

    // Where none is made, no memory is taken.
    ensures none { final_notice message.now class own.now.guid peer.now number now ≡ None →
        result ≡ Ok None }
{
    if !final_is_due(message, class, own.guid) {
        return Ok(None);
    }
    let id = MessageId {
        qm: own.guid,
        number,
    };
    let source = order_layer(alloc, &peer.host)?;
    notice_about(
        alloc,
        message,
        class,
        Delivery::Recoverable,
        source,
        id,
        now,
    )
    .map(Some)
}
