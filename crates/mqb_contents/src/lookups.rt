ghost use Rattle.std.specs.Prelude.{◌≡◌, ◌+◌, ◌<◌, ◌^◌, IfSome, IsSomeAnd, length, option_and_then};
ghost use Rattle.std.specs.Prelude.{position, slice_get};
ghost use Rattle.mqb_base.specs.Same.{same_guid};
ghost use Rattle.mqb_contents.specs.Rows.{unless_full};
ghost use Rattle.mqb_tables.specs.Waits.{plain_count};
ghost use Rattle.mqb_tables.specs.mqb_model.rules.Purges.{count_at};
ghost use Rattle.mqb_tables.specs.mqb_model.rules.Sequences.{sequence_in_use};
ghost use Rattle.mqb_tables.specs.mqb_model.state.Resolving.{peer_known};
ghost use Rattle.mqb_tables.specs.mqb_model.state.Rows.{has_ordinal, is_row_of, last_sequence};
ghost use Rattle.mqb_plain.specs.Lists.{InOrder};
ghost use Rattle.mqb_plain.specs.Plain.{outgoing_in};

use crate::contents::Contents;
use mqb_base::{EntryPlace, Guid, Identity, Lane, QueueName};

fn index_of_guid(peers: &[Identity], guid: Guid) -> Option<usize>
    ensures index { result ≡ position (λ p. same_guid p.guid guid) peers.now }
    ensures within { IfSome result (λ k. k < length peers.now) }
{
    peers.iter().position(|peer| peer.guid == guid)
}

impl Contents {
    /// The index of the outgoing row that has an ordinal.
    pub fn row_of_ordinal(&self, ordinal: u32) -> Option<u32>
        ensures index { result ≡ position (has_ordinal ordinal) self.now.lists.outs }
        ensures within { IfSome result (λ k. k < length self.now.lists.outs) }
    {
        self.ordinals().get(&ordinal).copied()
    }

    /// The index of the last outgoing row that leads to a destination at a peer.
    pub fn last_sequence(&self, peer: u32, destination: &QueueName) -> Option<u32>
        ensures row { option_and_then (slice_get self.now.lists.outs) result ≡
            last_sequence self.now.lists peer destination.now }
        ensures within { IfSome result (λ k. k < length self.now.lists.outs) }
    {
        self.outs.last_to(peer, destination)
    }

    /// The index of the outgoing row that the next message to a destination at a peer joins. Where
    /// there is none, it begins a new one.
    pub fn sequence_in_use(&self, peer: u32, destination: &QueueName) -> Option<u32>
        ensures row { option_and_then (slice_get self.now.lists.outs) result ≡
            sequence_in_use self.now.lists peer destination.now }
        ensures within { IfSome result (λ k. k < length self.now.lists.outs) }
        ensures next { IfSome result (λ k. IsSomeAnd (slice_get self.now.lists.outs k)
            (λ r. r.committed + 1 < 2 ^ 32)) }
    {
        match self.last_sequence(peer, destination) {
            Some(row) => self.unless_full(row),
            None => None,
        }
    }

    fn unless_full(&self, row: u32) -> Option<u32>
        requires { row < length self.now.lists.outs }
        ensures row { option_and_then (slice_get self.now.lists.outs) result ≡
            option_and_then (unless_full self.now.lists.roll) (slice_get self.now.lists.outs row) }
        ensures within { IfSome result (λ k. k < length self.now.lists.outs) }
        ensures next { IfSome result (λ k. IsSomeAnd (slice_get self.now.lists.outs k)
            (λ r. r.committed + 1 < 2 ^ 32)) }
    {
        if self.out(row).committed < self.roll() {
            Some(row)
        } else {
            None
        }
    }

    /// The index of the incoming row of a source and a destination.
    pub fn in_index(&self, source: Guid, destination: &QueueName) -> Option<u32>
        ensures index { result ≡ position (is_row_of source destination.now) self.now.lists.ins }
        ensures within { IfSome result (λ k. k < length self.now.lists.ins) }
    {
        self.ins.find(source, destination)
    }

    /// The index of the peer that has a GUID.
    pub fn peer_known(&self, guid: Guid) -> Option<u32>
        ensures index { result ≡ peer_known self.now.lists guid }
        ensures within { IfSome result (λ k. k < length self.now.lists.peers) }
    {
        let k = index_of_guid(self.peers(), guid)?;
        Some(k as u32)
    }

    /// How many messages of a lane a place has.
    pub fn count_at(&self, at: EntryPlace, lane: Lane) -> u32
        ensures { result ≡ count_at lane self.now.lists at }
    {
        match self.queues().messages_at(at, lane) {
            Some(messages) => messages.len() as u32,
            None => 0,
        }
    }

    /// How many plain messages of a lane wait for the peer at an index.
    pub fn plain_count(&self, peer: u32, lane: Lane) -> u32
        requires { peer < length self.now.lists.plain }
        ensures count { result ≡ plain_count self.now.lists.plain peer lane }
        ensures in_order { IsSomeAnd (slice_get self.now.lists.plain peer)
            (λ p. InOrder (outgoing_in lane p)) }
    {
        self.plain.count_in(peer, lane)
    }
}
