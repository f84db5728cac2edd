//! Lists with room that members leave without a move of the others: at the front, lent as one
//! slice, or along the list, lent in two parts.
#![tactic(auto)]

mod deque;
mod gap_buffer;
mod split_slice;
mod vacant;

pub use deque::RoomedDeque;
pub use gap_buffer::GapBuffer;
pub use split_slice::SplitSlice;
pub use vacant::Vacant;
