ghost use Rattle.std.specs.Prelude.{[], ◌<◌, ◌≡◌, IfSome, length};
ghost use Rattle.mqb_model.specs.calls.hear.Streams.{decided_answer, has_sequence, hear_duplicate};
ghost use Rattle.mqb_model.specs.calls.hear.Streams.{hear_in_stream, hear_next, index_for, judged};
ghost use Rattle.mqb_model.specs.state.Rows.{in_index, in_row};
ghost use Rattle.mqb_orders.specs.Judging.{verdict_of};
ghost use Rattle.mqb_hearing.specs.Plans.{Brings, Hears};

use crate::hearing::Hearing;
use crate::lent::LentPacket;
use crate::listener::Listener;
use crate::refusals::refusal_of;
use mqb_base::{Class, Heard, Memory, TxHead};
use mqb_contents::Contents;
use mqb_entries::ArrivedPart;
use mqb_orders::{Verdict, judge};

/// The index of the incoming row to which a packet belongs.
fn in_index(contents: &Contents, packet: &LentPacket<'_>) -> Option<u32>
    ensures index { result ≡ in_index contents.now.lists packet.now.said.message }
    ensures within { IfSome result (λ k. k < length contents.now.lists.ins) }
{
    contents.in_index(packet.source(), packet.destination())
}

/// The index of the row to which it belongs, or will.
fn index_for(contents: &Contents, packet: &LentPacket<'_>) -> u32
    ensures { result ≡ index_for contents.now.lists packet.now.said.message }
{
    match in_index(contents, packet) {
        Some(k) => k,
        None => contents.ins().len() as u32,
    }
}

fn has_sequence(contents: &Contents, packet: &LentPacket<'_>, tx: &TxHead) -> bool
    ensures { result ≡ has_sequence contents.now.lists packet.now.said.message tx.now }
{
    match in_index(contents, packet) {
        Some(k) => contents.ins()[k as usize].sequence == tx.sequence,
        None => false,
    }
}

fn verdict_of(contents: &Contents, packet: &LentPacket<'_>, tx: &TxHead) -> Verdict
    ensures { result ≡ verdict_of (in_row contents.now.lists packet.now.said.message) tx.now }
{
    match in_index(contents, packet) {
        Some(k) => judge(Some(&contents.ins()[k as usize]), tx),
        None => judge(None, tx),
    }
}

fn decided_answer(tx: &TxHead, refusal: Option<Class>) -> Heard
    ensures { result ≡ decided_answer tx.now refusal }
{
    let TxHead {
        sequence,
        number,
        ..
    } = *tx;
    match refusal {
        None => Heard::Put { sequence, number },
        Some(class) => Heard::Refused {
            sequence,
            number,
            class,
        },
    }
}

impl Listener<'_> {
    /// A message that is next is decided, and its row owes.
    fn hear_next<'a>(&self, packet: &LentPacket<'a>, tx: &TxHead) -> Result<Hearing<'a>, Memory>
        ensures heard { Hears self.now result (λ l. hear_next l packet.now.said tx.now) }
        ensures brings { Brings packet.now.whole result }
    {
        let contents = self.contents();
        let answer = decided_answer(tx, refusal_of(contents, packet));
        let row = index_for(contents, packet);
        let part = ArrivedPart::Decided(packet.whole());
        self.heard_owing(part, answer, Some(row))
    }

    /// One that was decided comes again, and its row owes again, where it still has that sequence.
    fn hear_duplicate<'a>(
        &self,
        packet: &LentPacket<'_>,
        tx: &TxHead,
    ) -> Result<Hearing<'a>, Memory>
        ensures heard { Hears self.now result
            (λ l. hear_duplicate l packet.now.said.message tx.now) }
        ensures brings { Brings [] result }
    {
        let contents = self.contents();
        let answer = Heard::Duplicate {
            sequence: tx.sequence,
            number: tx.number,
        };
        if has_sequence(contents, packet, tx) {
            let row = index_for(contents, packet);
            self.heard_owing(ArrivedPart::Nothing, answer, Some(row))
        } else {
            self.heard_bare(answer)
        }
    }

    fn judged<'a>(
        &self,
        packet: &LentPacket<'a>,
        tx: &TxHead,
        verdict: Verdict,
    ) -> Result<Hearing<'a>, Memory>
        ensures heard { Hears self.now result (λ l. judged l packet.now.said tx.now verdict) }
        ensures brings { Brings packet.now.whole result }
    {
        let TxHead {
            sequence,
            number,
            ..
        } = *tx;
        match verdict {
            Verdict::Next => self.hear_next(packet, tx),
            Verdict::Duplicate => self.hear_duplicate(packet, tx),
            Verdict::Gap => self.heard_bare(Heard::Gap { sequence, number }),
            Verdict::Stale => self.heard_bare(Heard::Stale { sequence, number }),
        }
    }

    /// A message of a stream is judged, in order or not. One of another class than the
    /// ordinary one is discarded.
    pub(crate) fn hear_in_stream<'a>(
        &self,
        packet: &LentPacket<'a>,
        tx: &TxHead,
    ) -> Result<Hearing<'a>, Memory>
        ensures heard { Hears self.now result (λ l. hear_in_stream l packet.now.said tx.now) }
        ensures brings { Brings packet.now.whole result }
    {
        if packet.is_ordinary() {
            let verdict = verdict_of(self.contents(), packet, tx);
            self.judged(packet, tx, verdict)
        } else {
            self.discarded()
        }
    }
}
