//! The plain messages that wait for one peer: recoverable ones, until the peer has stored them, and
//! express ones, until it has got them.
//!
//! Contracts see a `PlainOut` as two lists of messages, each message with the number of its list
//! that it was sent with in this connection, and beside them the room of each list. What a count of
//! the peer releases or drops is said by these numbers alone. The messages that were sent come
//! first in their list, and their numbers rise.
#![tactic(auto)]

mod outgoing;
mod plain;

pub use outgoing::Outgoing;
pub use plain::PlainOut;
