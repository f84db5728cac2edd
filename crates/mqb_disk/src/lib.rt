//! Disks: in memory one whose power can be cut off and one that keeps its calls, and one in a file.
//!
//! A `MemoryDisk` has the bytes that a read gives, the bytes that were safe at the last sync,
//! and the ranges that were written since. A restart builds from these what a crash leaves. A
//! call takes no memory.
#![tactic(auto)]

mod change;
mod file_disk;
mod image;
mod last_left;
mod memory_disk;
mod open_fault;
mod switch;
mod trace_disk;

pub use file_disk::FileDisk;
pub use memory_disk::MemoryDisk;
pub use open_fault::OpenFault;
pub use trace_disk::{Call, TraceDisk};
