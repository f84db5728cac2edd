//! The traffic between two managers: the connection that stands between them, a note of each packet
//! that was ever sent, and the ledger.
//!
//! It is a network of `mqb_network` but for its managers: each change is stated in that network's
//! words, whatever the two managers are. What the packets say is on a medium, and not here.
#![tactic(auto)]

mod notes;
mod traffic;

pub use notes::{Link, Note};
pub use traffic::Traffic;
