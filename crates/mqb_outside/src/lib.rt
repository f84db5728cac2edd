//! The outside on which managers and the program stand, as traits: sources, sinks, media of
//! packets, disks and their power, clocks, connections and nets.
//!
//! A contract names what an object holds, took or may leave where the object tells it. A form in
//! memory does; a file, a socket and a terminal tell nothing, and then such a clause says nothing.
//! So one statement serves both. Each object counts its faults: a call answers `Failed` only where
//! a count rose in that call.
//!
//! The contract of `Disk` says what a read gives and what a crash may leave. The lemmas by which a
//! run of its calls goes on stand in `specs/lemmas`.
#![tactic(auto)]

mod calls;
mod clock;
mod conn;
mod conn_plan;
mod disk;
mod medium;
mod memory_conn;
mod memory_net;
mod net;
mod power;
mod sink;
mod source;

pub use clock::{Clock, FixedClock};
pub use conn::Conn;
pub use conn_plan::ConnPlan;
pub use disk::{Disk, MAX_DISK, reach};
pub use medium::{Medium, MemoryMedium};
pub use memory_conn::MemoryConn;
pub use memory_net::MemoryNet;
pub use net::Net;
pub use power::{Mode, Pick, Power};
pub use sink::{MemorySink, Sink, StdSink};
pub use source::{MemorySource, Source, StdSource};
