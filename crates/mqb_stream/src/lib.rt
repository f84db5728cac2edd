//! The framer: it cuts a stream of bytes into packets, however the stream comes in pieces.
//!
//! A caller feeds what it has read, asks what is next, and drops each packet that it has heard. The
//! buffer has room for the greatest packet from the start, holds at most one, and never grows.
#![tactic(auto)]

mod framer;
mod laws;

pub use framer::{Framer, Full, Next};
pub use laws::{next_is_cut, one_cutting, pieces_do_not_matter};
