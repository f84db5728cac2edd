//! What one manager does over one connection, and what a fault leaves that cuts it short:
//! definitions, the types of answers, and laws of them.
//!
//! Each function stands for a law or a worked run: its contract is the statement, and its body is
//! empty. `Conversations` of the definitions has what is written for what comes, `Serving` what
//! serving a connection comes to.
#![tactic(auto)]

mod ends;
mod faults;
mod laws;
mod limits;
mod purpose;
mod runs;

pub use ends::{answers_are_no_faults, read_is_past};
pub use faults::{ConnFault, PeerFault};
pub use laws::{
    cutting_does_not_matter, ends_last, packets_are_heard, pieces_fill_packets,
    prefixes_write_prefixes, pumps_come_to_rest,
};
pub use limits::{MAX_PUMPS, MAX_READ, WINDOW};
pub use purpose::{Errand, Purpose};
pub use runs::{one_is_asked, one_is_bad, one_is_cut_off, one_is_early, one_is_pushed};
