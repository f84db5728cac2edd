//! The tables that lead from the destinations of outgoing rows, and from the sources of incoming
//! ones, to numbers; and the plain messages that wait for each peer.
//!
//! A key stays in its table once it was entered, so a row can leave and come again without
//! memory. A look-up takes no copy of a name. `PlainOuts` says how many messages each peer can
//! have without memory.
#![tactic(auto)]

pub mod in_use;
pub mod last_rows;
pub mod ordinals;
mod plain_outs;
pub mod sources;

pub use mqb_model::{FIRST_EXPRESS, MAX_EXPRESS, MAX_ROLL};
pub use plain_outs::PlainOuts;
