//! The store of one manager: its state, and the records that it stands for. This is the one place
//! where a record is written.
//!
//! `Store::write` spells an entry, does what it does, and appends it to the journal. Where the
//! disk fails, what was done is taken back. So a call that is refused changes nothing, and
//! what was acknowledged is on the disk. `Store::start` makes the state again from the base
//! and the records behind it, one at a time. `Store::checkpoint` writes the state as a base in
//! place of all records.
#![tactic(auto)]

mod attempting;
mod checkpointing;
mod faults;
mod marks;
mod readers;
mod replaying;
mod sessions;
mod spelling;
mod starting;
mod store;
mod typed;
mod writing;

pub use faults::WriteFault;
pub use mqb_journal::{CheckpointFault, OpenFault};
pub use mqb_state::{ExpressWork, Origin, State, peer_there, queue_there};
pub use sessions::{any_awaits, has_plain, is_ready, linked_peer};
pub use store::Store;
