//! What a manager makes of a packet that it hears, as a plan over what it keeps: nothing changes.
//!
//! `hear` answers the plan: what the packet was heard as, the session behind it, the record that is
//! to be written, what is done to express messages beside it, and which incoming row owes an
//! acknowledgement. The session hears the packet's header first. Then a message of a stream is
//! judged, an order acknowledgement is compared with its row, and any other message is put, stored
//! or refused where it is the next one of the session. The record lends the packet as it was heard.
#![tactic(auto)]

mod arrival;
mod hearing;
mod lent;
mod listener;
mod order_acks;
mod plain;
mod refusals;
mod streams;

pub use arrival::Arrival;
pub use hearing::{Hearing, hear};
