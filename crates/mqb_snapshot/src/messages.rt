ghost use Rattle.std.specs.Prelude.{◌≡◌, ◌≤◌, ◌++◌, [], All, IfOk, OnOk, false, length};
ghost use Rattle.mqb_base.specs.Messages.{IsWellFormed};
ghost use Rattle.mqb_base.specs.declared.roomed.TheConstants.{MAX_MEMBERS};
ghost use Rattle.mqb_entries.specs.Spelled.{spelled_packet};
ghost use Rattle.mqb_fate.specs.Asking.{is_transactional};
ghost use Rattle.mqb_heads.specs.User.{plain_user};
ghost use Rattle.mqb_packet.specs.Plain.{base_for, message_size, plain_user_packet};
ghost use Rattle.mqb_packet.specs.declared.packet.Headers.TheVariants.{Bare};
ghost use Rattle.mqb_snapshot.specs.declared.messages.TheConstants.{NOBODY};
ghost use Rattle.mqb_snapshot.specs.Spelled.{IsSized, header_of, spelled_message};
ghost use Rattle.mqb_snapshot.specs.Spelled.{spelled_messages, stored};
ghost use Rattle.mqb_snapshot.specs.Values.{AreHeld, IsHeld};

use crate::tail::Tail;
use crate::typed::held_fits;
use mqb_base::{Bytes, Delivery, Guid, Memory, Message, QueueName, Units};
use mqb_deque::SplitSlice;
use mqb_heads::BaseHead;
use mqb_packet::{Headers, message_size, plain_size};
use std::alloc::Global;

/// The manager to which the packets in a store go: none.
pub const NOBODY: Guid = Guid([0; 16]);

fn copy_of(name: &Option<QueueName>) -> Result<Option<QueueName>, Memory>
    ensures { IfOk result (λ copy. copy ≡ name.now) }
{
    match name {
        Some(name) => Ok(Some(name.clone()?)),
        None => Ok(None),
    }
}

/// Copies of the names that a user header has.
fn names_of(message: &Message) -> Result<(QueueName, Option<QueueName>, Option<QueueName>), Memory>
    ensures destination { IfOk result (λ names. names.0 ≡ message.now.destination) }
    ensures admin { IfOk result (λ names. names.1 ≡ message.now.admin) }
    ensures response { IfOk result (λ names. names.2 ≡ message.now.response) }
{
    Ok((
        message.destination.clone()?,
        copy_of(&message.admin)?,
        copy_of(&message.response)?,
    ))
}

/// No label, no extension and no body.
fn no_texts(alloc: Global) -> Result<(Units, Bytes, Bytes), Memory>
    ensures label { IfOk result (λ texts. texts.0 ≡ []) }
    ensures extension { IfOk result (λ texts. texts.1 ≡ []) }
    ensures body { IfOk result (λ texts. texts.2 ≡ []) }
{
    Ok((
        Units::from_slice(alloc, &[])?,
        Bytes::from_slice(alloc, &[])?,
        Bytes::from_slice(alloc, &[])?,
    ))
}

/// The message whose user header a store has: a recoverable one. Its label, extension and
/// body stand elsewhere.
fn header_of(alloc: Global, message: &Message) -> Result<Message, Memory>
    ensures { IfOk result (λ header. header ≡ header_of message.now) }
{
    let (destination, admin, response) = names_of(message)?;
    let (label, extension, body) = no_texts(alloc)?;
    Ok(Message {
        destination,
        admin,
        response,
        label,
        extension,
        body,
        delivery: Delivery::Recoverable,
        id: message.id,
        class: message.class,
        priority: message.priority,
        sent: message.sent,
        reach: message.reach,
        life: message.life,
        ack: message.ack,
        journal: message.journal,
        correlation: message.correlation,
        body_type: message.body_type,
        tag: message.tag,
    })
}

fn base_of(message: &Message, size: u32) -> BaseHead
    requires { size ≡ message_size Bare message.now }
    ensures { result ≡ base_for (stored message.now) }
{
    BaseHead {
        priority: message.priority,
        internal: false,
        session: false,
        size,
        reach: message.reach,
    }
}

impl Tail {
    /// The user header of a message as a store has it.
    fn stored_user(&mut self, alloc: Global, message: &Message) -> Result<(), Memory>
        requires { IsSized message.now }
        ensures added { OnOk result (self.new.text ≡
            self.old.text ++ plain_user (header_of message.now) NOBODY) }
        ensures front { self.new.front ≡ self.old.front }
    {
        let header = header_of(alloc, message)?;
        self.user(&header)
    }

    /// The packet of a message, behind its length.
    fn packet(&mut self, alloc: Global, message: &Message) -> Result<(), Memory>
        requires { IsSized message.now }
        ensures added { OnOk result (self.new.text ≡
            self.old.text ++ spelled_packet (plain_user_packet (stored message.now))) }
        ensures front { self.new.front ≡ self.old.front }
    {
        plain_size();
        let Ok(size) = message_size(message, Headers::Bare) else {
            unreachable!();
        };
        self.u32(size)?;
        self.base(&base_of(message, size))?;
        self.stored_user(alloc, message)?;
        self.props(message)?;
        Ok(())
    }

    /// A message: whether it is transactional, and its packet.
    pub(crate) fn message(&mut self, alloc: Global, message: &Message) -> Result<(), Memory>
        requires { IsSized message.now }
        ensures added { OnOk result (self.new.text ≡ self.old.text ++ spelled_message message.now) }
        ensures front { self.new.front ≡ self.old.front }
        ensures typed { IsHeld message.now }
    {
        held_fits(message);
        self.flag(matches!(message.delivery, Delivery::Transactional))?;
        self.packet(alloc, message)?;
        Ok(())
    }

    /// Messages behind their count.
    pub(crate) fn messages(
        &mut self,
        alloc: Global,
        messages: &SplitSlice<'_, Message>,
    ) -> Result<(), Memory>
        requires few { length messages.now ≤ MAX_MEMBERS }
        requires sized { All IsSized messages.now }
        ensures added { OnOk result (self.new.text ≡
            self.old.text ++ spelled_messages messages.now) }
        ensures front { self.new.front ≡ self.old.front }
        ensures typed { OnOk result (AreHeld messages.now) }
    {
        self.u32(messages.len() as u32)?;
        for index in 0..messages.len() {
            let message = messages.at(index);
            self.message(alloc, message)?;
        }
        Ok(())
    }
}
