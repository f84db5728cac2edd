ghost use Rattle.std.specs.Prelude.{◌≡◌};
ghost use Rattle.mqb_fate.specs.Asking.{is_ordinary, is_transactional, matching_bit, asks_for};
ghost use Rattle.mqb_fate.specs.Asking.{final_is_due, goes_dead};

use mqb_base::{
    Class, Delivery, Guid, Message, NEGATIVE_ARRIVAL, NEGATIVE_RECEIVE, POSITIVE_ARRIVAL,
    POSITIVE_RECEIVE, Place, has_bit,
};

pub(crate) fn is_ordinary(message: &Message) -> bool
    ensures { result ≡ is_ordinary message.now }
{
    message.class == Class::NORMAL
}

fn is_transactional(delivery: Delivery) -> bool
    ensures { result ≡ is_transactional delivery }
{
    matches!(delivery, Delivery::Transactional)
}

/// The bit of `Message::ack` by which a message asks to hear of a class.
fn matching_bit(class: Class) -> Option<u8>
    ensures { result ≡ matching_bit class.0 }
{
    if class == Class::REACHED_QUEUE {
        Some(POSITIVE_ARRIVAL)
    } else if class == Class::RECEIVED {
        Some(POSITIVE_RECEIVE)
    } else if class.is_arrival_refusal() {
        Some(NEGATIVE_ARRIVAL)
    } else if class.is_negative() {
        Some(NEGATIVE_RECEIVE)
    } else {
        None
    }
}

pub(crate) fn asks_for(message: &Message, class: Class) -> bool
    ensures { result ≡ asks_for message.now class }
{
    match matching_bit(class) {
        Some(bit) => has_bit(message.ack, bit),
        None => false,
    }
}

/// Whether a final acknowledgement is due to the source of a message that meets a class.
pub(crate) fn final_is_due(message: &Message, class: Class, own: Guid) -> bool
    ensures { result ≡ final_is_due message.now class own }
{
    is_ordinary(message)
        && is_transactional(message.delivery)
        && message.id.qm != own
        && message.keeps_dead()
        && class != Class::REACHED_QUEUE
}

/// The dead-letter queue into which a message goes that meets a class, where it goes into one.
pub fn goes_dead(message: &Message, class: Class, own: Guid) -> Option<Place>
    ensures { result ≡ goes_dead message.now class own }
{
    if !is_ordinary(message) || !class.is_negative() || !message.keeps_dead() {
        return None;
    }
    if final_is_due(message, class, own) {
        return None;
    }
    Some(if is_transactional(message.delivery) {
        Place::DeadXact
    } else {
        Place::Dead
    })
}
