//! What the events of a script are to two managers with their disks and the traffic between them:
//! each is a turn of their network.
//!
//! Each function takes the manager that acts, the other one, and their traffic; `specs/Sides.antt`
//! has the network that these make.
#![tactic(auto)]

mod asking;
mod between;
mod checkpoints;
mod links;
mod passing;
mod sending;
mod starting;

pub use asking::ask;
pub use between::{failure_reply, note, part, part_where, settle};
pub use checkpoints::checkpoint;
pub use links::{disconnect, drop_packet, resend};
pub use mqb_seats::{Pumped, Request, Seat};
pub use passing::pass;
pub use sending::{numbers, pump, send_out};
pub use starting::restart;
