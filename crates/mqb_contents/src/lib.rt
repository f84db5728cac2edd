//! What one manager keeps: its peers and queues, the messages of all places, the sequences that it
//! sends and hears, and its counters.
//!
//! It is changed by a few primitive changes. Each has a change back, and takes no memory:
//! `make_room` takes it before. So changes can be tried, undone and made again. Contracts see the
//! state of the definitions, and beside it how many members each list can have without memory.
#![tactic(auto)]

mod change;
mod changing;
mod contents;
mod counters;
mod in_rows;
mod lookups;
mod making_room;
mod marks;
mod new_peer;
mod new_row;
mod out_rows;
mod sending;

pub use change::Change;
pub use contents::Contents;
pub use counters::Counters;
pub use marks::RowMarks;
pub use new_peer::NewPeer;
pub use new_row::NewRow;
