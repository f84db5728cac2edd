//! Managers, the connections between them, the packets that were ever sent, and the ledger:
//! definitions, and laws of their runs.
//!
//! Each function stands for a law: its contract is the law, and its body is empty.
#![tactic(auto)]

mod laws;
mod runs;

pub use laws::{checkpoints_write_nothing, ledger_is_written, moves_are_events};
pub use runs::{one_arrives, one_closes, one_is_kept, one_is_lost, one_is_unheard};
