ghost use Rattle.std.specs.Prelude.{◌≡◌, ◌≤◌, ◌<◌, [], ◌∷◌, All, IsSomeAnd, OnOk, drop, filter};
ghost use Rattle.std.specs.Prelude.{length, map, max, nat_lt, slice_get};
ghost use Rattle.mqb_model.specs.calls.pump.Candidates.{ack_candidate, acks, of_row, waiting};
ghost use Rattle.mqb_model.specs.rules.Numbers.{express_after};
ghost use Rattle.mqb_names.specs.Values.{IsName};
ghost use Rattle.mqb_orders.specs.KeptLists.{Rises};
ghost use Rattle.mqb_choosing.specs.Choices.{AreSendable};
ghost use Rattle.mqb_choosing.specs.Going.{Offers, owing, unsent_in, waiting_in};

use crate::choice::{Origin, messages_in};
use crate::choosing::Choices;
use mqb_base::{Identity, Lane, Memory, MessageId, TxHead};
use mqb_contents::Contents;
use mqb_fate::{OrderAck, order_acknowledgement};
use mqb_model::{FIRST_EXPRESS, MAX_EXPRESS};
use mqb_orders::{InRow, KeptList, is_open};
use std::alloc::Global;

/// Behind the greatest express number comes the first again.
fn express_after(number: u32) -> u32
    ensures { result ≡ express_after number }
{
    if number == MAX_EXPRESS {
        FIRST_EXPRESS
    } else {
        number + 1
    }
}

/// Order acknowledgements.
impl Choices {
    /// The acknowledgement of an incoming row, under an express number.
    fn offer_ack(
        &mut self,
        alloc: Global,
        contents: &Contents,
        peer: &Identity,
        index: u32,
        row: &InRow,
        number: u32,
        now: u32,
    ) -> Result<(), Memory>
        requires { IsName peer.now.host }
        ensures { OnOk result (Offers contents.now.lists self.old self.new
            (ack_candidate contents.now.lists peer.now now number (index, row.now) ∷ [])) }
    {
        let ack = OrderAck {
            sequence: row.sequence,
            number: row.last,
        };
        let id = MessageId {
            qm: contents.identity().guid,
            number,
        };
        let message = order_acknowledgement(alloc, ack, &peer.host, id, now)?;
        self.offer(
            contents,
            Origin::Owed {
                row: index,
                message,
            },
        )
    }

    /// Those of the incoming rows of a peer that owe one, in row order.
    pub(crate) fn offer_acks(
        &mut self,
        alloc: Global,
        contents: &Contents,
        owes: &[bool],
        peer: &Identity,
        now: u32,
    ) -> Result<(), Memory>
        requires owes { length owes.now ≡ length contents.now.lists.ins }
        requires host { IsName peer.now.host }
        ensures { OnOk result (Offers contents.now.lists self.old self.new
            (acks contents.now.lists peer.now now contents.now.lists.next_express
            (owing contents.now.lists owes.now peer.now.guid))) }
    {
        let rows = contents.ins();
        let mut number = contents.next_express();
        for k in 0..rows.len() {
            if !self.may_go_on() {
                break;
            }
            if owes[k] && rows[k].source == peer.guid {
                self.offer_ack(alloc, contents, peer, k as u32, &rows[k], number, now)?;
                number = express_after(number);
            }
        }
        Ok(())
    }
}

/// Plain messages.
impl Choices {
    /// Those of a lane that wait for a peer and were not sent. They stand behind those that were.
    pub(crate) fn offer_plain(
        &mut self,
        contents: &Contents,
        peer: u32,
        lane: Lane,
    ) -> Result<(), Memory>
        requires peer { peer < length contents.now.lists.plain }
        requires sendable { AreSendable contents.now.lists }
        ensures { OnOk result (IsSomeAnd (slice_get contents.now.lists.plain peer)
            (λ p. Offers contents.now.lists self.old self.new (unsent_in lane p))) }
    {
        let plain = contents.plain(peer);
        for index in plain.marks(lane).len()..messages_in(plain, lane).len() {
            if !self.may_go_on() {
                break;
            }
            let index = index as u32;
            self.offer(contents, Origin::Waiting { peer, lane, index })?;
        }
        Ok(())
    }
}

/// The index of the first kept message above a number, or the count of all. It halves what is left.
fn first_above(kept: &KeptList, number: u32) -> u32
    ensures within { result ≤ length kept.now.items }
    ensures above { All (λ k. number < k.number) (drop result kept.now.items) }
    ensures rest { filter (λ k. nat_lt number k.number) kept.now.items ≡
        drop result kept.now.items }
{
    let mut first = 0;
    let mut end = kept.len();
    while first < end {
        let middle = first + (end - first) / 2;
        if kept.get(middle).number <= number {
            first = middle + 1;
        } else {
            end = middle;
        }
    }
    first
}

/// Messages of sequences.
impl Choices {
    /// The kept messages of the outgoing row at an index, from one on.
    fn offer_kept(&mut self, contents: &Contents, row: u32, from: u32) -> Result<(), Memory>
        requires row { IsSomeAnd (slice_get contents.now.lists.outs row)
            (λ r. All (λ k. r.acked < k.number) (drop from r.kept)) }
        requires sendable { AreSendable contents.now.lists }
        ensures { OnOk result (IsSomeAnd (slice_get contents.now.lists.outs row)
            (λ r. Offers contents.now.lists self.old self.new
            (map (of_row row r) (drop from r.kept)))) }
    {
        let out = contents.out(row);
        for index in from..out.kept.len() {
            if !self.may_go_on() {
                break;
            }
            let number = out.kept.get(index).number;
            let tx = TxHead {
                sequence: out.sequence,
                number,
                previous: out.link_before(number),
            };
            self.offer(contents, Origin::Kept { row, index, tx })?;
        }
        Ok(())
    }

    /// What waits in the outgoing row at an index above the number that was sent last.
    fn offer_row(
        &mut self,
        contents: &Contents,
        row: u32,
        cursor: u32,
        peer: u32,
    ) -> Result<(), Memory>
        requires row { row < length contents.now.lists.outs }
        requires sendable { AreSendable contents.now.lists }
        ensures { OnOk result (IsSomeAnd (slice_get contents.now.lists.outs row)
            (λ r. Offers contents.now.lists self.old self.new
            (waiting contents.now.lists peer (row, (r, cursor))))) }
    {
        let out = contents.out(row);
        let from = first_above(&out.kept, out.acked.max(cursor));
        if out.peer == peer && from < out.kept.len() && is_open(contents.outs(), row) {
            self.offer_kept(contents, row, from)?;
        }
        Ok(())
    }

    /// What waits in all outgoing rows of a peer that are open.
    pub(crate) fn offer_rows(
        &mut self,
        contents: &Contents,
        cursors: &[u32],
        peer: u32,
    ) -> Result<(), Memory>
        requires cursors { length cursors.now ≡ length contents.now.lists.outs }
        requires sendable { AreSendable contents.now.lists }
        ensures { OnOk result (Offers contents.now.lists self.old self.new
            (waiting_in contents.now.lists cursors.now peer)) }
    {
        let _count = contents.outs().len();
        for row in 0..cursors.len() {
            if !self.may_go_on() {
                break;
            }
            self.offer_row(contents, row as u32, cursors[row], peer)?;
        }
        Ok(())
    }
}
