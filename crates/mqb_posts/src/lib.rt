//! Packets on a medium: what a pump added is cut into packets, each of which is one string of the
//! medium, and a string is read as the packet that was sent.
//!
//! `specs/Posting.antt` says what a medium has when not all fit it.
#![tactic(auto)]

mod faults;
mod posting;
mod reading;

pub use faults::PostFault;
pub use posting::{MAX_MEDIUM, post_packets};
pub use reading::packet_at;
