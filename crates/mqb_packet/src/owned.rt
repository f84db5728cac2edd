ghost use Rattle.std.specs.Prelude.{◌≡◌, ◌≤◌, ◌*◌, length, is_some, IfOk, IfSome, Some};
ghost use Rattle.std.specs.Prelude.{option_map, take};
ghost use Rattle.mqb_heads.specs.Fields.{seen_name};
ghost use Rattle.mqb_heads.specs.Properties.{IsPropsRead, seen_props};
ghost use Rattle.mqb_heads.specs.User.{IsNameRead, IsUserRead};
ghost use Rattle.mqb_heads.specs.User as heads;
ghost use Rattle.mqb_packet.specs.Parts.{seen_packet, seen_user};
ghost use Rattle.mqb_packet.specs.Plain.{IsWellFormedPacket};
ghost use Rattle.mqb_packet.specs.Spelled.{IsLent, delivery_of, message_in, optional_name_in};
ghost use Rattle.mqb_packet.specs.Spelled.{packet_in, units_of, user_packet};

use crate::lent::{PacketView, UserView};
use crate::packet::{Packet, UserPacket};
use mqb_base::{Bytes, Delivery, MAX_LABEL, Memory, Message, MessageId, QueueName, Units};
use mqb_heads::NameView;
use std::alloc::Global;

/// Writes the units of a label to the start of the room, and tells how many there are.
fn copy_units(label: &[u8], room: &mut [u16]) -> usize
    requires { length label.now ≤ 2 * length room.old }
    ensures units { take result room.new ≡ units_of label.now }
    ensures fits { result ≤ length room.new }
{
    let mut len = 0;
    let mut rest = label;
    while let [low, high, after @ ..] = rest {
        room[len] = u16::from(*low) + 256 * u16::from(*high);
        len += 1;
        rest = after;
    }
    len
}

fn owned_label(alloc: Global, label: &[u8]) -> Result<Units, Memory>
    requires { length label.now ≤ 2 * MAX_LABEL }
    ensures { IfOk result (λ units. units ≡ units_of label.now) }
{
    let mut room = [0; MAX_LABEL];
    let len = copy_units(label, &mut room);
    Units::from_slice(alloc, &room[..len])
}

fn owned_name(alloc: Global, name: &Option<NameView<'_>>) -> Result<Option<QueueName>, Memory>
    requires { IfSome (option_map seen_name name.now) IsNameRead }
    ensures { IfOk result (λ owned. optional_name_in (option_map seen_name name.now) ≡ Some owned) }
{
    match name {
        Some(name) => Ok(Some(name.to_owned(alloc)?)),
        None => Ok(None),
    }
}

fn delivery_of(transaction: bool, recoverable: bool) -> Delivery
    ensures { result ≡ delivery_of transaction recoverable }
{
    if transaction {
        Delivery::Transactional
    } else if recoverable {
        Delivery::Recoverable
    } else {
        Delivery::Express
    }
}

fn owned_message(alloc: Global, view: &UserView<'_>) -> Result<Message, Memory>
    requires user { IsUserRead (heads.seen_user view.now.user) }
    requires props { IsPropsRead (seen_props view.now.props) }
    ensures { IfOk result (λ message. message_in (seen_user view.now) ≡ Some message) }
{
    let user = &view.user;
    let props = &view.props;
    let destination = user.destination.to_owned(alloc)?;
    let admin = owned_name(alloc, &user.admin)?;
    let response = owned_name(alloc, &user.response)?;
    let label = owned_label(alloc, props.label)?;
    let extension = Bytes::from_slice(alloc, props.extension)?;
    let body = Bytes::from_slice(alloc, props.body)?;
    Ok(Message {
        id: MessageId {
            qm: user.source,
            number: user.number,
        },
        class: props.class,
        delivery: delivery_of(view.tx.is_some(), user.recoverable),
        priority: view.base.priority,
        sent: user.sent,
        reach: view.base.reach,
        life: user.life,
        destination,
        admin,
        response,
        ack: props.ack,
        journal: user.journal,
        correlation: props.correlation,
        body_type: props.body_type,
        tag: props.tag,
        label,
        extension,
        body,
    })
}

fn owned_user(alloc: Global, view: &UserView<'_>) -> Result<UserPacket, Memory>
    requires user { IsUserRead (heads.seen_user view.now.user) }
    requires props { IsPropsRead (seen_props view.now.props) }
    ensures { IfOk result (λ owned. option_map (user_packet (seen_user view.now))
        (message_in (seen_user view.now)) ≡ Some owned) }
{
    let message = owned_message(alloc, view)?;
    Ok(UserPacket {
        message,
        to: view.user.target,
        remaining: view.base.reach,
        tx: view.tx,
        session: view.session,
    })
}

/// The packet that a view shows, with its parts copied.
pub fn to_owned(alloc: Global, view: &PacketView<'_>) -> Result<Packet, Memory>
    requires { IsLent view.now }
    ensures owned { IfOk result (λ packet. packet_in (seen_packet view.now) ≡ Some packet) }
    ensures well_formed { IfOk result (λ packet. IsWellFormedPacket packet) }
{
    match view {
        PacketView::User(user) => Ok(Packet::User(owned_user(alloc, user)?)),
        PacketView::Establish(establish) => Ok(Packet::Establish(*establish)),
        PacketView::Parameters(parameters) => Ok(Packet::Parameters(*parameters)),
        PacketView::Ack(head) => Ok(Packet::Ack(*head)),
    }
}
