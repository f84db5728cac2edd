//! Numbers, GUIDs and slices at places of a list of bytes. Numbers are little-endian.
//!
//! A `Cursor` reads fields one after another. A contract sees it as a `Reading`, the whole list and
//! the place, and says of each call that it gives what a function of `Reading` gives. So a reader
//! of many fields has one clause: what it gives is what the chain of the functions of its fields
//! gives. The `put` calls write a field at a place.
#![tactic(auto)]

mod cursor;
mod faults;
mod guids;
mod laws;
mod writing;

pub use cursor::Cursor;
pub use faults::{HeadFault, HeadKind, Short};
pub use laws::{all_is_put, guid_is_read, number_is_read, parts_are_one};
pub use writing::{put_bytes, put_guid, put_u16, put_u32};
