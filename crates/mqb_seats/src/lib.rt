//! A manager with its disk, as it stands in a network: each request of it is told as a reply, or
//! its disk stopped or failed in it.
//!
//! `mqb_moves` says what that is to the network. A manager whose start failed is down as well, and
//! is called no more until a start of it succeeds.
#![tactic(auto)]

mod asking;
mod called;
mod checkpoints;
mod links;
mod packets;
mod restarting;
mod seat;

pub use called::{Called, Failure};
pub use mqb_moves::pumps_are_counted;
pub use mqb_replies::Request;
pub use packets::{Passed, Pumped};
pub use restarting::Opened;
pub use seat::Seat;
