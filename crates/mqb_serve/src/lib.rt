//! One manager over one connection.
//!
//! `serve_one`, `push_one` and `fetch_one` do what the definitions of `mqb_serving` say: each links
//! the manager, pumps until nothing goes, hears each packet as soon as its last byte came, and ends
//! where the definition ends. Packets are written as soon as they were pumped.
#![tactic(auto)]

mod sending;
mod serve;
mod talk;

pub use serve::{fetch_one, push_one, serve_one};
