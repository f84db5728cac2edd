//! A request of a manager: it is made with the manager's disk, and replied to as a script and a
//! command line have it.
//!
//! Of the definitions, `Requests` has what is asked for, answered and replied, `Replies` the reply
//! to each refusal, and `Asked` what a request is to a manager and its disk.
#![tactic(auto)]

mod faults;
mod laws;
mod lines;
mod replies;
mod requests;

pub use faults::AnswerFault;
pub use laws::{checkpoints_are_replied, requests_are_replied};
pub use lines::{lines_since, listed};
pub use mqb_manager::{CheckpointFault, Manager, OpenFault};
pub use replies::checkpoint_reply;
pub use requests::{Answer, Request, ask, reply_of};
