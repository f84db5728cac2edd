ghost use Rattle.std.specs.Prelude.{[], ◌≡◌};
ghost use Rattle.std.specs.List.{list_any};
ghost use Rattle.mqb_model.specs.calls.hear.Streams.{acknowledged_in, may_acknowledge};
ghost use Rattle.mqb_model.specs.calls.hear.Streams.{hear_order_ack, order_acked, raises};
ghost use Rattle.mqb_model.specs.state.Valid.{IsValidState};
ghost use Rattle.mqb_orders.specs.Rows.{row_of};
ghost use Rattle.mqb_hearing.specs.Plans.{Brings, Hears};

use crate::hearing::Hearing;
use crate::lent::LentPacket;
use crate::listener::Listener;
use mqb_base::{Class, Heard, Memory};
use mqb_contents::Contents;
use mqb_entries::ArrivedPart;
use mqb_fate::OrderAck;
use mqb_orders::OutRow;
use mqb_rules::is_for_order_layer;

fn may_acknowledge(contents: &Contents, packet: &LentPacket<'_>) -> bool
    ensures { result ≡ may_acknowledge contents.now.lists packet.now.said.message }
{
    packet.is_express()
        && packet.class() == Class::ORDER_ACKNOWLEDGEMENT
        && is_for_order_layer(contents, packet.destination())
}

/// What a packet acknowledges, where it is an order acknowledgement.
pub(crate) fn acknowledged_in(contents: &Contents, packet: &LentPacket<'_>) -> Option<OrderAck>
    ensures { result ≡ acknowledged_in contents.now.lists packet.now.said.message }
{
    if may_acknowledge(contents, packet) {
        OrderAck::read(packet.body())
    } else {
        None
    }
}

/// Whether it raises the mark of a row to a peer: its number is above the acknowledged
/// one and was offered.
fn raises(row: &OutRow, peer: u32, ack: OrderAck) -> bool
    ensures { result ≡ raises peer ack (row_of row.now) }
{
    row.peer == peer
        && row.sequence == ack.sequence
        && row.acked < ack.number
        && ack.number <= row.offered
}

/// Whether it raises that of any. No other row has its ordinal.
fn raises_any(contents: &Contents, peer: u32, ack: OrderAck) -> bool
    requires { IsValidState contents.now.lists }
    ensures { result ≡ list_any (raises peer ack) contents.now.lists.outs }
{
    match contents.row_of_ordinal(ack.sequence.ordinal) {
        Some(row) => raises(contents.out(row), peer, ack),
        None => false,
    }
}

impl Listener<'_> {
    fn order_acked<'a>(&self, ack: OrderAck) -> Result<Hearing<'a>, Memory>
        ensures heard { Hears self.now result (λ l. order_acked l ack) }
        ensures brings { Brings [] result }
    {
        let OrderAck { sequence, number } = ack;
        let ordinal = sequence.ordinal;
        self.heard_as(
            ArrivedPart::OrderAcknowledged { ordinal, number },
            Heard::OrderAcked { ordinal, number },
        )
    }

    /// An order acknowledgement that raises a mark is recorded.
    pub(crate) fn hear_order_ack<'a>(&self, ack: OrderAck) -> Result<Hearing<'a>, Memory>
        requires { IsValidState self.now.state }
        ensures heard { Hears self.now result (λ l. hear_order_ack l ack) }
        ensures brings { Brings [] result }
    {
        if raises_any(self.contents(), self.peer(), ack) {
            self.order_acked(ack)
        } else {
            self.heard_bare(Heard::OldAck)
        }
    }
}
