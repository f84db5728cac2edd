use mqb_base::{Line, Roomed};
use mqb_journal::Journal;
use mqb_state::State;
use std::alloc::Global;
use std::marker::Model;

/// A manager's state, and the journal of the records for which it stands. It is used with the disk
/// on which it was formatted or started, and nobody else writes that.
#[derive(Debug, Drop)]
pub struct Store {
    pub(crate) state: State,
    pub(crate) journal: Journal,
    // The block of the entry that was spelled last. Where a write failed, that may be on the disk
    // or not. A checkpoint leaves nothing here, since nothing of it is in doubt.
    pub(crate) block: Vec<u8>,
    pub(crate) lines: Roomed<Line>,
    pub(crate) alloc: Global,
}

impl Model for Store {
    ghost use Rattle.mqb_journal.specs.Blocks.{record_of_block};
    ghost use Rattle.mqb_store.specs.States.{StoreState};

    ghost Value = { StoreState };

    ghost view = { λ w. record {
      state = w.state.lists;
      journal = w.journal;
      entry = record_of_block w.block.items;
      lines = w.lines.items;
    } };
}

impl Store {
    /// Lets the store go; whatever was recorded stays on its disk. Where a store ends by this call,
    /// how it ends is not proved again.
    pub fn close(self) {
        self.state.close();
    }
}
