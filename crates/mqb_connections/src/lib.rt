//! The commands that serve connections: what is served over each, the line that is said of its end,
//! and how the program ends.
//!
//! Of the definitions, `Visits` has what is served over connections one after another, and `Served`
//! how each command ends.
#![tactic(auto)]

mod attending;
mod lines;
mod piped;
mod probing;
mod reaching;
mod serving;

pub use attending::{attend, attend_all};
pub use probing::probe;
pub use reaching::{reach, reach_host};
pub use serving::{serve, serve_all};
