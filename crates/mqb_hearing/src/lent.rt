ghost use Rattle.std.specs.Prelude.{◌≡◌, ◌<◌, ◌≤◌, All, IfOk, Some, length};
ghost use Rattle.mqb_fate.specs.Asking.{is_ordinary};
ghost use Rattle.mqb_heads.specs.declared.base.TheConstants.{MAX_PACKET};
ghost use Rattle.mqb_model.specs.calls.hear.Hear.{IsReadable};
ghost use Rattle.mqb_model.specs.records.Reading.{user_packet_of};
ghost use Rattle.mqb_model.specs.state.Places.{is_express};
ghost use Rattle.mqb_packet.specs.Spelled.{IsLent, packet_in};
ghost use Rattle.mqb_packet.specs.Parts.{seen_packet};
ghost use Rattle.mqb_packet.specs.declared.lent.PacketView.TheVariants as lent;
ghost use Rattle.mqb_packet.specs.declared.packet.Packet.TheVariants as packet;

use mqb_base::{Class, Delivery, Guid, Memory, Message, MessageId, QueueName, SessionHead, TxHead};
use mqb_entries::PacketSlice;
use mqb_packet::{
    Packet, PacketView, UserView, each_view_spells_a_packet, read_is_written, to_owned,
};
use std::alloc::Global;
use std::marker::Model;

/// A user packet that is heard. Its destination is owned, since names are looked up by it, and its
/// other parts are lent. Contracts see the packet and its bytes.
#[derive(Debug, Drop)]
pub(crate) struct LentPacket<'a> {
    view: &'a UserView<'a>,
    destination: QueueName,
}

impl<'a> Model for LentPacket<'a> {
    ghost use Rattle.mqb_hearing.specs.Lent.{IsShown, PacketHeard, packet_shown};

    ghost Value = { PacketHeard };

    ghost view = { λ p. record {
      said = packet_shown p.view.now p.destination;
      whole = p.view.now.whole.now;
    } };

    ghost invariant = { λ p. IsShown p.view.now p.destination };
}

fn are_bytes(bytes: &[u8])
    ensures { All (λ b. b < 256) bytes.now }
{}

impl<'a> LentPacket<'a> {
    /// The packet that a view shows.
    pub(crate) fn new(alloc: Global, view: &'a UserView<'a>) -> Result<LentPacket<'a>, Memory>
        requires { IsLent (lent.User view.now) }
        ensures shown { IfOk result (λ p. packet_in (seen_packet (lent.User view.now)) ≡
            Some (packet.User p.said)) }
        ensures readable { IfOk result (λ p. IsReadable (packet.User p.said)) }
        ensures bytes { IfOk result (λ p. p.whole ≡ view.now.whole.now) }
    {
        each_view_spells_a_packet();
        read_is_written();
        are_bytes(view.whole);
        let destination = view.user.destination.to_owned(alloc)?;
        Ok(LentPacket { view, destination })
    }

    /// The manager from which it comes.
    pub(crate) fn source(&self) -> Guid
        ensures { result ≡ self.now.said.message.id.qm }
    {
        self.view.user.source
    }

    /// The manager to which it goes.
    pub(crate) fn target(&self) -> Guid
        ensures { result ≡ self.now.said.to }
    {
        self.view.user.target
    }

    /// The seconds that are left for its message to reach its queue.
    pub(crate) fn remaining(&self) -> u32
        ensures { result ≡ self.now.said.remaining }
    {
        self.view.base.reach
    }

    pub(crate) fn tx(&self) -> Option<TxHead>
        ensures { result ≡ self.now.said.tx }
    {
        self.view.tx
    }

    pub(crate) fn session(&self) -> Option<SessionHead>
        ensures { result ≡ self.now.said.session }
    {
        self.view.session
    }

    /// The identifier of its message.
    pub(crate) fn id(&self) -> MessageId
        ensures { result ≡ self.now.said.message.id }
    {
        MessageId {
            qm: self.view.user.source,
            number: self.view.user.number,
        }
    }

    pub(crate) fn class(&self) -> Class
        ensures { result ≡ self.now.said.message.class }
    {
        self.view.props.class
    }

    /// Whether its message is of the class of ordinary messages.
    pub(crate) fn is_ordinary(&self) -> bool
        ensures { result ≡ is_ordinary self.now.said.message }
    {
        self.view.props.class == Class::NORMAL
    }

    pub(crate) fn delivery(&self) -> Delivery
        ensures { result ≡ self.now.said.message.delivery }
    {
        match (self.view.tx.is_some(), self.view.user.recoverable) {
            (true, _) => Delivery::Transactional,
            (false, true) => Delivery::Recoverable,
            (false, false) => Delivery::Express,
        }
    }

    pub(crate) fn is_express(&self) -> bool
        ensures { result ≡ is_express self.now.said.message.delivery }
    {
        matches!(self.delivery(), Delivery::Express)
    }

    pub(crate) fn destination(&self) -> &QueueName
        ensures { result.now ≡ self.now.said.message.destination }
    {
        &self.destination
    }

    /// The message about which its message tells.
    pub(crate) fn correlation(&self) -> MessageId
        ensures { result ≡ self.now.said.message.correlation }
    {
        self.view.props.correlation
    }

    pub(crate) fn body(&self) -> &'a [u8]
        ensures { result.now ≡ self.now.said.message.body }
    {
        let view = self.view;
        view.props.body
    }

    /// All of its bytes, with what was read of them.
    pub(crate) fn whole(&self) -> PacketSlice<'a>
        ensures spells { user_packet_of result ≡ Some self.now.said }
        ensures bytes { result ≡ self.now.whole }
        ensures size { length result ≤ MAX_PACKET }
    {
        PacketSlice::of_heard(self.view)
    }

    /// Its message, with its parts copied.
    pub(crate) fn to_message(&self, alloc: Global) -> Result<Message, Memory>
        ensures { IfOk result (λ m. m ≡ self.now.said.message) }
    {
        match to_owned(alloc, &PacketView::User(*self.view))? {
            Packet::User(owned) => Ok(owned.message),
            Packet::Establish(_) | Packet::Parameters(_) | Packet::Ack(_) => unreachable!(),
        }
    }
}
