//! How a store lies on a disk: its header, its head, its areas and its gates, what a checkpoint
//! writes of them and where, and the reads of each. What the records and bases are, and what a
//! crash leaves of them, is for `mqb_journal`.
#![tactic(auto)]

mod block;
mod header;
mod layout;
mod limits;
mod reading;

pub use block::{block_for, mark_for};
pub use header::{empty_store, guid_of, has_magic, pages_of};
pub use layout::{
    Layout, block_place, head_behind, layout_then, mark_place, place_told, switch_byte,
    switch_place,
};
pub use limits::{AREA, HEAD, HEADER, MAX_BASE, MIN_STORE, MOST_COUNT, MOST_HEAD, PAGE};
pub use reading::{byte_at, fill, header_at, is_open_at, long_at, number_at};
