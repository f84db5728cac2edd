//! What a transaction comes to, as a plan over what a manager keeps: nothing changes.
//!
//! `try_ops` tries the ops of a transaction one after another, up to the first that fails, and
//! answers the ops of its record, each send's message lent, and what became of each op. A take sees
//! the takes before it and no send, and a send the sends before it and no take. The state is not
//! copied for that: what the ops before did to it is noted beside it.
#![tactic(auto)]

mod counting;
mod messages;
mod notes;
mod sends;
mod takes;
mod trial;
mod trying;

pub use trial::Trial;
pub use trying::try_ops;
