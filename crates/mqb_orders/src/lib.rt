//! The order rules: what a packet is to its row, which messages of a stream are kept, and which
//! number stands before one.
//!
//! Contracts see a `KeptList` as its messages and its room. `specs/Streams.antt` says of a ledger's
//! lines what is kept of a stream and what stands before a number, and the laws tie that to the
//! rows and to the verdicts.
#![tactic(auto)]

mod judging;
mod kept;
mod keys;
mod laws;
mod rows;
mod streams;

pub use judging::{Verdict, judge};
pub use kept::{Kept, KeptList};
pub use keys::{InKey, OutKey};
pub use laws::{
    before_stays, decided_is_duplicate, link_is_before, link_is_greatest, next_is_above,
    next_kept_is_least, next_leaves_none_out,
};
pub use rows::{InRow, OutRow, is_open};
pub use streams::same_stream;
