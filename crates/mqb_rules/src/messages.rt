ghost use Rattle.std.specs.Prelude.{◌≡◌, IfOk};
ghost use Rattle.mqb_model.specs.calls.Messages.{message_of};

use mqb_base::{Class, Delivery, Memory, Message, MessageId, Parts, QueueName};

/// A copy of a name that may be absent.
fn copy_of(name: &Option<QueueName>) -> Result<Option<QueueName>, Memory>
    ensures { IfOk result (λ copy. copy ≡ name.now) }
{
    match name {
        Some(name) => Ok(Some(name.clone()?)),
        None => Ok(None),
    }
}

/// A message of what its sender chose, but for its priority.
pub fn message_of(
    id: MessageId,
    delivery: Delivery,
    priority: u8,
    now: u32,
    parts: &Parts,
) -> Result<Message, Memory>
    ensures { IfOk result (λ m. m ≡ message_of id delivery priority now parts.now) }
{
    Ok(Message {
        destination: parts.destination.clone()?,
        admin: copy_of(&parts.admin)?,
        response: copy_of(&parts.response)?,
        label: parts.label.clone()?,
        extension: parts.extension.clone()?,
        body: parts.body.clone()?,
        id,
        class: Class::NORMAL,
        delivery,
        priority,
        sent: now,
        reach: parts.reach,
        life: parts.life,
        ack: parts.ack,
        journal: parts.journal,
        correlation: parts.correlation,
        body_type: parts.body_type,
        tag: parts.tag,
    })
}
