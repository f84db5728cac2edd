//! What a store stands for, read from the bytes that `mqb_snapshot` spells.
//!
//! The grammar of `mqb_snapshot` says what bytes are read as, part by part, and the code goes by
//! it: a part joins those before it by a change of the contents, so nothing is copied. Bytes that
//! are no valid state's are refused at the first field that fails.
#![tactic(auto)]

mod faults;
mod fields;
mod messages;
mod parts;
mod peers;
mod queues;
mod reading;
mod rows;
mod stored;

pub use faults::BackFault;
pub use reading::read_back;
