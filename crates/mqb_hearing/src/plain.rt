ghost use Rattle.std.specs.Prelude.{[], ◌<◌, ◌≡◌, true};
ghost use Rattle.mqb_model.specs.calls.hear.Plain.{express_answer, hear_arriving, hear_express};
ghost use Rattle.mqb_model.specs.calls.hear.Plain.{hear_final, hear_in_order, hear_message};
ghost use Rattle.mqb_model.specs.calls.hear.Plain.{hear_plain, hear_recoverable};
ghost use Rattle.mqb_model.specs.calls.hear.Plain.{hear_stored, stored_answer};
ghost use Rattle.mqb_model.specs.state.Valid.{IsValidState};
ghost use Rattle.mqb_hearing.specs.Plans.{Brings, Hears};

use crate::hearing::Hearing;
use crate::lent::LentPacket;
use crate::listener::Listener;
use crate::order_acks::acknowledged_in;
use crate::refusals::{is_final, refusal_of, storing_refusal};
use mqb_base::{Class, Heard, Memory, Message};
use mqb_entries::ArrivedPart;
use mqb_rules::is_for_order_layer;

fn express_answer(message: &Message, refusal: Option<Class>) -> Heard
    ensures { result ≡ express_answer message.now refusal }
{
    match refusal {
        None => Heard::ExpressPut(message.id),
        Some(class) => Heard::ExpressBounced(class, message.id),
    }
}

fn stored_answer(refusal: Option<Class>) -> Heard
    ensures { result ≡ stored_answer refusal }
{
    match refusal {
        None => Heard::Stored,
        Some(class) => Heard::Bounced(class),
    }
}

impl Listener<'_> {
    fn hear_arriving<'a>(
        &self,
        packet: &LentPacket<'_>,
        refusal: Option<Class>,
    ) -> Result<Hearing<'a>, Memory>
        ensures heard { Hears self.now result
            (λ l. hear_arriving l packet.now.said.message refusal) }
        ensures brings { Brings [] result }
    {
        let message = packet.to_message(self.alloc())?;
        let answer = express_answer(&message, refusal);
        self.heard_with(message, answer, refusal)
    }

    /// An express message in order is put or refused without a record. The order layer takes none.
    fn hear_express<'a>(&self, packet: &LentPacket<'_>) -> Result<Hearing<'a>, Memory>
        ensures heard { Hears self.now result (λ l. hear_express l packet.now.said) }
        ensures brings { Brings [] result }
    {
        let contents = self.contents();
        if is_for_order_layer(contents, packet.destination()) {
            self.discarded()
        } else {
            self.hear_arriving(packet, refusal_of(contents, packet))
        }
    }

    fn hear_final<'a>(&self, packet: &LentPacket<'a>) -> Result<Hearing<'a>, Memory>
        requires { self.now.session.stored < self.now.session.got }
        ensures heard { Hears self.now result (λ l. hear_final l packet.now.said) }
        ensures brings { Brings packet.now.whole result }
    {
        let answer = Heard::Final {
            id: packet.correlation(),
            class: packet.class(),
        };
        let part = ArrivedPart::Final(packet.whole());
        self.with_stored().heard_as(part, answer)
    }

    fn hear_stored<'a>(&self, packet: &LentPacket<'a>) -> Result<Hearing<'a>, Memory>
        requires { self.now.session.stored < self.now.session.got }
        ensures heard { Hears self.now result (λ l. hear_stored l packet.now.said) }
        ensures brings { Brings packet.now.whole result }
    {
        let answer = stored_answer(storing_refusal(self.contents(), packet));
        let part = ArrivedPart::Stored(packet.whole());
        self.with_stored().heard_as(part, answer)
    }

    /// A recoverable message in order is recorded, and then counts as stored.
    fn hear_recoverable<'a>(&self, packet: &LentPacket<'a>) -> Result<Hearing<'a>, Memory>
        requires { self.now.session.stored < self.now.session.got }
        ensures heard { Hears self.now result (λ l. hear_recoverable l packet.now.said) }
        ensures brings { Brings packet.now.whole result }
    {
        if is_final(self.contents(), packet) {
            self.hear_final(packet)
        } else {
            self.hear_stored(packet)
        }
    }

    fn hear_in_order<'a>(&self, packet: &LentPacket<'a>) -> Result<Hearing<'a>, Memory>
        requires { self.now.session.stored < self.now.session.got }
        ensures heard { Hears self.now result (λ l. hear_in_order l packet.now.said) }
        ensures brings { Brings packet.now.whole result }
    {
        if packet.is_express() {
            self.hear_express(packet)
        } else {
            self.hear_recoverable(packet)
        }
    }

    /// A message that acknowledges nothing. Out of order it is discarded.
    fn hear_message<'a>(
        &self,
        packet: &LentPacket<'a>,
        in_order: bool,
    ) -> Result<Hearing<'a>, Memory>
        requires { in_order ≡ true → self.now.session.stored < self.now.session.got }
        ensures heard { Hears self.now result (λ l. hear_message l in_order packet.now.said) }
        ensures brings { Brings packet.now.whole result }
    {
        if in_order {
            self.hear_in_order(packet)
        } else {
            self.discarded()
        }
    }

    /// A message that is not transactional.
    pub(crate) fn hear_plain<'a>(
        &self,
        packet: &LentPacket<'a>,
        in_order: bool,
    ) -> Result<Hearing<'a>, Memory>
        requires valid { IsValidState self.now.state }
        requires got { in_order ≡ true → self.now.session.stored < self.now.session.got }
        ensures heard { Hears self.now result (λ l. hear_plain l in_order packet.now.said) }
        ensures brings { Brings packet.now.whole result }
    {
        match acknowledged_in(self.contents(), packet) {
            Some(ack) => self.hear_order_ack(ack),
            None => self.hear_message(packet, in_order),
        }
    }
}
