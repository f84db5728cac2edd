ghost use Rattle.std.specs.Prelude.{◌≡◌, ◌++◌, ◌<◌, Ok, OnErr, OnOk, Some, length, map, slice_get};
ghost use Rattle.mqb_listing.specs.Listing.{listing};
ghost use Rattle.mqb_model.specs.state.Durable.{durable};
ghost use Rattle.mqb_model.specs.state.Valid.{IsValidState};
ghost use Rattle.mqb_orders.specs.Rows.{row_of};
ghost use Rattle.mqb_snapshot.specs.Reading.{state_of};
ghost use Rattle.mqb_snapshot.specs.Snapshot.{snapshot};
ghost use Rattle.mqb_snapshot.specs.Values.{IsState};
ghost use Rattle.mqb_contents.specs.mqb_tables.Tables.{LeadsTo, LeadsToLast, LeadsToSource};

use crate::state::State;
use indexmap::IndexMap;
use mqb_base::{Identity, Memory};
use mqb_contents::Contents;
use mqb_orders::{InKey, InRow, OutKey, OutRow};
use mqb_plain::PlainOut;
use mqb_queue::Queues;
use mqb_snapshot::snapshots_are_read_back;

/// What it has.
impl State {
    /// A state is valid. This says so, and does nothing.
    pub fn is_valid(&self)
        ensures { IsValidState self.now.lists }
    {
        let _identity = self.contents.identity();
    }

    /// What it keeps, for calls that look through all of it.
    pub fn contents(&self) -> &Contents
        ensures { result.now ≡ self.now }
    {
        &self.contents
    }

    pub fn identity(&self) -> &Identity
        ensures { result.now ≡ self.now.lists.identity }
    {
        self.contents.identity()
    }

    /// The managers that it knows, in the order of their records.
    pub fn peers(&self) -> &[Identity]
        ensures peers { result.now ≡ self.now.lists.peers }
        ensures plain { length self.now.lists.plain ≡ length self.now.lists.peers }
    {
        self.contents.peers()
    }

    pub fn queues(&self) -> &Queues
        ensures places { result.now.lists ≡ self.now.lists.places }
        ensures rooms { result.now.rooms ≡ self.now.rooms.places }
    {
        self.contents.queues()
    }

    /// The outgoing rows, in the order of their beginnings.
    pub fn out_rows(&self) -> &[OutRow]
        ensures { map row_of result.now ≡ self.now.lists.outs }
    {
        self.contents.outs()
    }

    /// The incoming rows, in the order of their first decisions.
    pub fn in_rows(&self) -> &[InRow]
        ensures { result.now ≡ self.now.lists.ins }
    {
        self.contents.ins()
    }

    /// The ordinals of the outgoing rows, each with the index of its row.
    pub fn ordinals(&self) -> &IndexMap<u32, u32>
        ensures { LeadsTo self.now.lists.outs result.now }
    {
        self.contents.ordinals()
    }

    /// The peers and destinations of the outgoing rows, each with the ordinal of the
    /// last row that has them.
    pub fn in_use(&self) -> &IndexMap<OutKey, u32>
        ensures { LeadsToLast self.now.lists.outs result.now }
    {
        self.contents.in_use()
    }

    /// The sources and destinations of the incoming rows, each with the index of the
    /// first row that has them.
    pub fn sources(&self) -> &IndexMap<InKey, u32>
        ensures { LeadsToSource self.now.lists.ins result.now }
    {
        self.contents.sources()
    }

    /// The plain messages that wait for the peer at an index.
    pub fn plain(&self, peer: u32) -> &PlainOut
        requires { peer < length self.now.lists.plain }
        ensures { slice_get self.now.lists.plain peer ≡ Some result.now.lists }
    {
        self.contents.plain(peer)
    }

    /// The number of the next durable message.
    pub fn next_number(&self) -> u32
        ensures { result ≡ self.now.lists.next_number }
    {
        self.contents.next_number()
    }

    /// The ordinal of the next sequence.
    pub fn next_ordinal(&self) -> u32
        ensures { result ≡ self.now.lists.next_ordinal }
    {
        self.contents.next_ordinal()
    }

    /// The count of messages at which a sequence is full.
    pub fn roll(&self) -> u32
        ensures { result ≡ self.now.lists.roll }
    {
        self.contents.roll()
    }

    /// Adds the lines of what the manager holds.
    pub fn print(&self, out: &mut Vec<u8>) -> Result<(), Memory>
        ensures ok { OnOk result (out.new.items ≡ out.old.items ++ listing self.now.lists) }
        ensures err { OnErr result (out.new.items ≡ out.old.items) }
    {
        mqb_listing::print(self.alloc, &self.contents, out)
    }

    /// Adds the bytes of what a store stands for: express messages and marks are left out.
    pub fn spell(&self, out: &mut Vec<u8>) -> Result<(), Memory>
        ensures valid { IsValidState self.now.lists }
        ensures typed { OnOk result (IsState self.now.lists) }
        ensures spelled { OnOk result (out.new.items ≡
            out.old.items ++ snapshot self.now.lists) }
        ensures refused { OnErr result (out.new.items ≡ out.old.items) }
        // Those bytes are read as it, without what a store does not stand for.
        ensures again { OnOk result (state_of (snapshot self.now.lists) ≡
            Ok (durable self.now.lists)) }
    {
        snapshots_are_read_back();
        mqb_snapshot::spell(self.alloc, &self.contents, out)
    }
}
