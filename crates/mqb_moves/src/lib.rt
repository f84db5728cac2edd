//! Laws alone: the calls of a manager on a store, with its disk, are moves of the network that it
//! is in; what they leave of the disk, and what a start of it comes to.
#![tactic(auto)]

mod laws;

pub use laws::{definitions_do_not_fail, down_refuses_all, pumps_are_counted};
pub use mqb_manager::{Manager, OpenFault};
