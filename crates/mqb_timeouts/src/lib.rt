//! How what is due leaves a draft, and what a call does to express messages in one, beside its
//! record or without one.
//!
//! Messages of outgoing rows expire, plain messages lapse, and messages of queues are swept.
//! One leaves after another, each followed by its notices. A list is searched on from where
//! the last message was found: nothing before it is due, since notices have no limit of time
//! and join at the end.
//!
//! Express messages are sent, taken, purged, heard and dropped, and leave once their time is over.
//! A store knows of none of it, so none of it has a line in the ledger. What fails for want of
//! memory leaves the draft half changed: `Draft::take_back` takes all of it back.
#![tactic(auto)]

mod acked;
mod beside;
mod expiries;
mod lapses;
mod noting;
mod sweeps;
mod timeouts;
mod work;

pub use beside::beside_done;
pub use expiries::{count_expiring, rows_expired};
pub use lapses::count_lapsing;
pub use noting::{Origin, note_sent};
pub use sweeps::count_swept;
pub use timeouts::lane_ticked;
pub use work::ExpressWork;
