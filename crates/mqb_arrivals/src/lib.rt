//! What arrives, tried in a draft: releases, order acknowledgements, messages that are decided or
//! stored, and final acknowledgements.
//!
//! A draft that answers a fault is half changed: `Draft::take_back` takes all of it back.
#![tactic(auto)]

mod acked;
mod arrived;
mod decisions;
mod faults;
mod finals;
mod kept;
mod packets;
mod parts;
mod releases;

pub use faults::RecordFault;
pub use finals::is_final;
pub use packets::user_packet_of;
pub use parts::make_part;
pub use releases::release_all;
