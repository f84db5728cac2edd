//! The durable state of one manager, and beside it the express messages and the
//! marks of a connection.
//!
//! `State::attempt` does what an entry does, and answers what leads back, which `State::take_back`
//! does without memory: so a record can be written between them. `State::prepare` leaves the state
//! as it was, and `State::install` makes what was prepared, without memory. `spell` and `read_back`
//! are a state in bytes, `print` the lines of what it holds.
#![tactic(auto)]

mod applying;
mod attempt;
mod attempting;
mod noting;
mod prepared;
mod preparing;
mod readers;
mod state;
mod typed;

pub use attempt::Attempt;
pub use mqb_read_back::BackFault;
pub use mqb_records::{RecordFault as PrepareFault, owned_identity, peer_there, queue_there};
pub use mqb_timeouts::{ExpressWork, Origin};
pub use prepared::Prepared;
pub use state::State;
