ghost use Rattle.std.specs.Prelude.{◌≡◌};
ghost use Rattle.mqb_model.specs.records.Finals.{is_final};
ghost use Rattle.mqb_model.specs.rules.Arrivals.{refusal_of, storing_refusal};

use crate::lent::LentPacket;
use mqb_base::Class;
use mqb_contents::Contents;
use mqb_fate::is_final_class;
use mqb_rules::{is_for_order_layer, is_recoverable, resolved, target_refusal};

/// Why the arrival of a packet's message is refused.
pub(crate) fn refusal_of(contents: &Contents, packet: &LentPacket<'_>) -> Option<Class>
    ensures { result ≡ refusal_of contents.now.lists packet.now.said }
{
    if packet.remaining() == 0 {
        return Some(Class::REACH_TIMEOUT);
    }
    let target = resolved(contents, packet.destination());
    target_refusal(contents, target, packet.delivery())
}

/// Why the arrival of a recoverable message is: the order layer takes none.
pub(crate) fn storing_refusal(contents: &Contents, packet: &LentPacket<'_>) -> Option<Class>
    ensures { result ≡ storing_refusal contents.now.lists packet.now.said }
{
    if is_for_order_layer(contents, packet.destination()) {
        return Some(Class::BAD_DESTINATION);
    }
    refusal_of(contents, packet)
}

/// Whether a packet's message is a final acknowledgement for this manager's order layer.
pub(crate) fn is_final(contents: &Contents, packet: &LentPacket<'_>) -> bool
    ensures { result ≡ is_final contents.now.lists packet.now.said.message }
{
    is_recoverable(packet.delivery())
        && is_final_class(packet.class())
        && is_for_order_layer(contents, packet.destination())
}
