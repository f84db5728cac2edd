ghost use Rattle.std.specs.Prelude.{◌≡◌, ◌<◌, ◌≤◌, All, Some, length, map, slice_get};
ghost use Rattle.mqb_base.specs.declared.roomed.TheConstants.{MAX_MEMBERS};
ghost use Rattle.mqb_contents.specs.Rooms.{no_room};
ghost use Rattle.mqb_contents.specs.Rows.{KeepsCommitted};
ghost use Rattle.mqb_contents.specs.Seen.{counters_of};
ghost use Rattle.mqb_tables.specs.Tables.{LeadsTo, LeadsToLast, LeadsToSource};
ghost use Rattle.mqb_tables.specs.mqb_model.declared.limits.TheConstants.{MAX_PEERS, MAX_QUEUES};
ghost use Rattle.mqb_tables.specs.mqb_model.state.State.{empty};
ghost use Rattle.mqb_orders.specs.Rows.{row_of};

use crate::counters::Counters;
use crate::in_rows::InRows;
use crate::out_rows::OutRows;
use indexmap::IndexMap;
use mqb_base::{Identity, Roomed};
use mqb_orders::{InKey, InRow, OutKey, OutRow};
use mqb_plain::PlainOut;
use mqb_queue::Queues;
use mqb_tables::{FIRST_EXPRESS, MAX_ROLL, PlainOuts};
use std::alloc::Global;
use std::marker::Model;

/// What one manager keeps. Contracts see the state, and beside it how many members each list can
/// have without memory.
#[derive(Debug, Drop)]
pub struct Contents {
    pub(crate) identity: Identity,
    pub(crate) peers: Roomed<Identity>,
    pub(crate) plain: PlainOuts,
    pub(crate) queues: Queues,
    pub(crate) outs: OutRows,
    pub(crate) ins: InRows,
    pub(crate) counters: Counters,
}

impl Model for Contents {
    ghost use Rattle.mqb_base.specs.Rooms.{WithRooms};
    ghost use Rattle.mqb_contents.specs.Rooms.{StateRooms};
    ghost use Rattle.mqb_tables.specs.mqb_model.state.State.{State};

    ghost Value = { WithRooms State StateRooms };

    ghost use Rattle.mqb_contents.specs.Seen.{IsInLimits, seen};

    ghost view = { λ c. seen c.identity c.peers c.plain c.queues c.outs c.ins c.counters };

    ghost invariant = { λ c. IsInLimits c.peers.items c.plain.lists c.queues.lists };
}

impl Contents {
    /// What a manager keeps that has nothing but its identity. It has no room.
    pub fn empty(alloc: Global, identity: Identity) -> Contents
        ensures { result ≡ record { lists = empty identity; rooms = no_room } }
    {
        Contents {
            identity,
            peers: Roomed::new(alloc),
            plain: PlainOuts::new(alloc),
            queues: Queues::new(alloc),
            outs: OutRows::new(alloc),
            ins: InRows::new(alloc),
            counters: Counters {
                next_number: 1,
                next_ordinal: 1,
                roll: MAX_ROLL,
                next_express: FIRST_EXPRESS,
            },
        }
    }

    /// Lets all that is kept go. Where contents end by this call, how they end is not proved again.
    pub fn close(self) {
        drop(self);
    }

    pub fn identity(&self) -> &Identity
        ensures { result.now ≡ self.now.lists.identity }
    {
        &self.identity
    }

    pub fn peers(&self) -> &[Identity]
        ensures peers { result.now ≡ self.now.lists.peers }
        ensures few { length self.now.lists.peers ≤ MAX_PEERS }
        ensures plain { length self.now.lists.plain ≡ length self.now.lists.peers }
    {
        self.peers.as_slice()
    }

    /// The plain messages that wait for the peer at an index.
    pub fn plain(&self, peer: u32) -> &PlainOut
        requires { peer < length self.now.lists.plain }
        ensures { slice_get self.now.lists.plain peer ≡ Some result.now.lists }
    {
        self.plain.get(peer)
    }

    pub fn queues(&self) -> &Queues
        ensures places { result.now.lists ≡ self.now.lists.places }
        ensures rooms { result.now.rooms ≡ self.now.rooms.places }
        ensures few { length self.now.lists.places.queues ≤ MAX_QUEUES }
    {
        &self.queues
    }

    /// The outgoing rows, in the order of their beginnings.
    pub fn outs(&self) -> &[OutRow]
        ensures rows { map row_of result.now ≡ self.now.lists.outs }
        ensures within { length self.now.lists.outs ≤ MAX_MEMBERS }
        ensures committed { All KeepsCommitted self.now.lists.outs }
    {
        self.outs.as_slice()
    }

    /// The ordinals of the outgoing rows, each with the index of its row.
    pub fn ordinals(&self) -> &IndexMap<u32, u32>
        ensures { LeadsTo self.now.lists.outs result.now }
    {
        self.outs.ordinals()
    }

    /// The peers and destinations of the outgoing rows, each with the ordinal of the
    /// last row that has them.
    pub fn in_use(&self) -> &IndexMap<OutKey, u32>
        ensures { LeadsToLast self.now.lists.outs result.now }
    {
        self.outs.in_use()
    }

    /// The outgoing row at an index.
    pub fn out(&self, row: u32) -> &OutRow
        requires { row < length self.now.lists.outs }
        ensures row { slice_get self.now.lists.outs row ≡ Some (row_of result.now) }
        ensures committed { KeepsCommitted (row_of result.now) }
    {
        self.outs.get(row)
    }

    /// The incoming rows, in the order of their first decisions.
    pub fn ins(&self) -> &[InRow]
        ensures rows { result.now ≡ self.now.lists.ins }
        ensures within { length self.now.lists.ins ≤ MAX_MEMBERS }
    {
        self.ins.as_slice()
    }

    /// The sources and destinations of the incoming rows, each with the index of the
    /// first row that has them.
    pub fn sources(&self) -> &IndexMap<InKey, u32>
        ensures { LeadsToSource self.now.lists.ins result.now }
    {
        self.ins.sources()
    }

    pub fn counters(&self) -> Counters
        ensures { result ≡ counters_of self.now.lists }
    {
        self.counters
    }

    /// The number of the next durable message.
    pub fn next_number(&self) -> u32
        ensures { result ≡ self.now.lists.next_number }
    {
        self.counters.next_number
    }

    /// The ordinal of the next sequence.
    pub fn next_ordinal(&self) -> u32
        ensures { result ≡ self.now.lists.next_ordinal }
    {
        self.counters.next_ordinal
    }

    /// The count of messages at which a sequence is full.
    pub fn roll(&self) -> u32
        ensures { result ≡ self.now.lists.roll }
    {
        self.counters.roll
    }

    /// The number of the next express message.
    pub fn next_express(&self) -> u32
        ensures { result ≡ self.now.lists.next_express }
    {
        self.counters.next_express
    }
}
