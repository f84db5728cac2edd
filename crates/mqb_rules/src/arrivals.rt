ghost use Rattle.std.specs.Prelude.{◌≡◌, ◌+◌, ◌≤◌, OnOk};
ghost use Rattle.mqb_drafts.specs.mqb_contents.Rooms.{IsGrown};
ghost use Rattle.mqb_fate.specs.Asking.{is_transactional};
ghost use Rattle.mqb_model.specs.records.Packets.{is_recoverable};
ghost use Rattle.mqb_model.specs.rules.Arrivals.{is_recorded, refusal_of};
ghost use Rattle.mqb_model.specs.rules.Arrivals.{storing_refusal, target_refusal};
ghost use Rattle.mqb_model.specs.rules.Effects.{without_line};
ghost use Rattle.mqb_model.specs.rules.Notices.{arrived};

use crate::notices::meets;
use crate::reaching::reach;
use crate::resolving::{is_for_order_layer, resolved};
use mqb_base::{Class, Delivery, Memory, Message};
use mqb_drafts::{Contents, Draft};
use mqb_model::Target;
use mqb_packet::UserPacket;

fn is_recorded(delivery: Delivery) -> bool
    ensures { result ≡ is_recorded delivery }
{
    !matches!(delivery, Delivery::Express)
}

/// Whether a message of this delivery is of a transaction.
pub fn is_transactional(delivery: Delivery) -> bool
    ensures { result ≡ is_transactional delivery }
{
    matches!(delivery, Delivery::Transactional)
}

/// Whether one of this delivery is recorded, and of no transaction.
pub fn is_recoverable(delivery: Delivery) -> bool
    ensures { result ≡ is_recoverable delivery }
{
    matches!(delivery, Delivery::Recoverable)
}

/// Why a target refuses a message of a delivery.
pub fn target_refusal(contents: &Contents, target: Target, delivery: Delivery) -> Option<Class>
    ensures { result ≡ target_refusal contents.now.lists target delivery }
{
    match target {
        Target::Here(Some(number)) => {
            let queues = contents.queues();
            if number == 0 || number > queues.count() {
                return Some(Class::BAD_DESTINATION);
            }
            queues.admit(
                Some(number - 1),
                is_transactional(delivery),
                is_recorded(delivery),
                1,
            )
        }
        Target::Here(None) | Target::AtPeer(_) | Target::Nowhere => Some(Class::BAD_DESTINATION),
    }
}

/// Why the arrival of a packet's message is refused.
pub fn refusal_of(contents: &Contents, packet: &UserPacket) -> Option<Class>
    ensures { result ≡ refusal_of contents.now.lists packet.now }
{
    if packet.remaining == 0 {
        return Some(Class::REACH_TIMEOUT);
    }
    let target = resolved(contents, &packet.message.destination);
    target_refusal(contents, target, packet.message.delivery)
}

/// Why the arrival of a recoverable message is: the order layer takes none.
pub fn storing_refusal(contents: &Contents, packet: &UserPacket) -> Option<Class>
    ensures { result ≡ storing_refusal contents.now.lists packet.now }
{
    if is_for_order_layer(contents, &packet.message.destination) {
        return Some(Class::BAD_DESTINATION);
    }
    refusal_of(contents, packet)
}

/// A message arrives: it is put and meets the class of that, or it meets that of its refusal.
pub fn arrive(
    draft: &mut Draft,
    message: Message,
    now: u32,
    refusal: Option<Class>,
) -> Result<(), Memory>
    ensures ok { OnOk result (draft.new.effect ≡ without_line draft.old.effect
        (arrived draft.old.effect.state message now refusal)) }
    ensures start { draft.new.start ≡ draft.old.start }
    ensures grown { IsGrown draft.old.rooms draft.new.rooms }
    ensures held { OnOk result (draft.new.held ≤ draft.old.held + 2) }
{
    match refusal {
        Some(class) => meets(draft, &message, class, now),
        None => {
            let target = resolved(draft.contents(), &message.destination);
            reach(draft, target, message, now)
        }
    }
}
