//! The replay of a script over two managers on disks: what is read, played and written.
//!
//! Of the definitions, `Replays` has what becomes of the input, `Trials` of a script that is made
//! for its ledger, `Plays` of the lines of a script and of the devices, and `Completeness` says
//! when a script is played whole.
#![tactic(auto)]

mod fault_lines;
mod faults;
mod lent;
mod plays;
mod replaying;
mod trials;
mod turns;

pub use faults::{ReplayFault, status_of};
pub use replaying::replay;
pub use trials::trial;
