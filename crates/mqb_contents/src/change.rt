ghost use Rattle.std.specs.Prelude.{◌≡◌, ◌↔◌, IsTrue};
ghost use Rattle.mqb_contents.specs.Changes.{held};

use crate::counters::Counters;
use crate::marks::RowMarks;
use crate::new_peer::NewPeer;
use crate::new_row::NewRow;
use mqb_base::{EntryPlace, Lane, Message, Roomed, SequenceId};
use mqb_orders::{InRow, Kept};
use mqb_plain::Outgoing;
use mqb_queue::NewQueue;

/// A change of what a manager keeps. Lists are named by numbers and lanes, so that the change back,
/// which each change has, takes no memory.
#[derive(Debug, Drop)]
pub enum Change {
    Insert {
        at: EntryPlace,
        lane: Lane,
        index: u32,
        message: Message,
    },
    Remove {
        at: EntryPlace,
        lane: Lane,
        index: u32,
    },
    InsertPlain {
        peer: u32,
        lane: Lane,
        index: u32,
        outgoing: Outgoing,
    },
    RemovePlain {
        peer: u32,
        lane: Lane,
        index: u32,
    },
    InsertKept {
        row: u32,
        index: u32,
        kept: Kept,
    },
    RemoveKept {
        row: u32,
        index: u32,
    },
    Mark {
        row: u32,
        marks: RowMarks,
    },
    AddRow(NewRow),
    DropRow,
    /// The incoming row at an index gets another sequence and another last number.
    Decide {
        index: u32,
        sequence: SequenceId,
        last: u32,
    },
    AddIn(InRow),
    DropIn,
    AddPeer(NewPeer),
    DropPeer,
    AddQueue(NewQueue),
    DropQueue,
    Count(Counters),
}

impl Change {
    pub fn holds_message(&self) -> bool
        ensures { IsTrue result ↔ (held self.now ≡ 1) }
    {
        matches!(
            self,
            Change::Insert { .. } | Change::InsertPlain { .. } | Change::InsertKept { .. }
        )
    }

    /// Lets go what a change puts. Where a change ends by this call, how it ends
    /// is not proved again.
    pub fn discard(self) {
        drop(self);
    }

    /// The same of many changes.
    pub fn discard_all(changes: Roomed<Change>) {
        drop(changes);
    }
}
