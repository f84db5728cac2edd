//! The journal of a store: a header, and behind it a chain of records, each on the disk
//! before it is acknowledged.
//!
//! A record stands behind a gate. A closed gate stands behind the last record, on the disk before
//! anything is written behind it: a record is written behind the closed gate first, together with a
//! closed gate of its own, and then the gate before it is opened by a write of its own. So a crash
//! at any moment leaves the records from before, with the new one or without.
//!
//! A checkpoint writes a base in place of all records. All that it writes before one byte switches
//! over lies where nothing that the store means stands. So a crash at any moment leaves the old
//! base and records, or the new base and none.
#![tactic(auto)]

mod checkpoint;
mod durable;
mod faults;
mod framing;
mod front;
mod journal;
mod laws;
mod limits;
mod reading;
mod scan;

pub use faults::{AppendFault, CheckpointFault, OpenFault, ScanFault};
pub use framing::{begin_block, close_block, record_of_block};
pub use journal::Journal;
pub use laws::{
    bad_at_one_place, chains_begin_alike, journal_goes_on, records_are_not_bad, records_or_bad,
    scan_goes_on, stands_for_one_list,
};
pub use limits::MAX_RECORD;
pub use mqb_layout::{Layout, MAX_BASE};
pub use scan::Scan;
