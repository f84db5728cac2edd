//! Each kind of record, tried in a draft.
//!
//! A draft that answers a fault is half changed: `Draft::take_back` takes all of it back.
#![tactic(auto)]

mod applying;
mod commit;
mod leaving;
mod offered;
mod packets;
mod peers;
mod plain;
mod queues;
mod records;
mod rolls;

pub use applying::apply_record;
pub use mqb_arrivals::RecordFault;
pub use peers::{owned_identity, peer_there};
pub use queues::queue_there;
