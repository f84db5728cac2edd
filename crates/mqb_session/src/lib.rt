//! One end of a session between two managers.
//!
//! `Phases` has the phase table of the set-up: which packet a phase owes, and what follows.
//! `Hearing` says what a packet that is heard leaves, and `Sending` which numbers a packet that is
//! sent takes. A session that is closed stays closed, and keeps its cause.
#![tactic(auto)]

mod heads;
mod laws;
mod phase;
mod session;

pub use heads::{HeadHeard, Kind};
pub use laws::{closed_stays, numbers_rise, window_is_kept};
pub use mqb_base::Cause;
pub use phase::Phase;
pub use session::Session;
