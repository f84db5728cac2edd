//! What a store stands for, in bytes, and which states bytes are read as.
//!
//! A state is spelled part by part: names behind their length, numbers in four bytes, lists behind
//! their count, and each message as the packet in which it would travel recoverably, for no
//! manager. `snapshot` of `specs/` is the spelling; what a state has beside it, express messages
//! and the marks of a connection, is left out. `spell` adds it to bytes, and takes back what it
//! added where memory is short.
//!
//! `state_of` of `specs/` is the grammar. Whatever passes it is a state on which a manager can go
//! on: it is valid, fits its types, and has nothing beside what a store stands for.
#![tactic(auto)]

mod headers;
mod laws;
mod messages;
mod parts;
mod puts;
mod read_laws;
mod snapshot;
mod tail;
mod typed;

pub use laws::{one_peer_is_spelled, snapshots_are_read_back};
pub use messages::NOBODY;
pub use read_laws::{
    read_states_are_durable, read_states_are_spelled, read_states_are_valid, read_states_fit,
};
pub use snapshot::spell;
