//! One manager on a store: its end of a session, and its calls.
//!
//! Each call finds why it is refused, makes the entry of its record, and has it written by `Store::write`, which takes all memory before the disk is
//! called. What a connection alone knows is kept beside the store, and is forgotten where the connection ends or the disk fails.
#![tactic(auto)]

mod checkpoints;
mod committing;
mod hearing;
mod links;
mod manager;
mod peers;
mod pumping;
mod queues;
mod readers;
mod rolls;
mod sending;
mod sends;
mod takes;
mod writing;

pub use manager::Manager;
pub use mqb_store::{CheckpointFault, OpenFault};
