//! Two managers on disks, and a medium between them: what a script asks of them, event by event.
//!
//! `specs/Standing.antt` says what an event is: behind a world stands a run of the
//! network of `mqb_network`.
#![tactic(auto)]

mod acting;
mod applying;
mod connecting;
mod deliveries;
mod faults;
mod flows;
mod identities;
mod making;
mod world;

pub use faults::WorldFault;
pub use identities::hosts;
pub use mqb_runs::runs_keep_guarantees;
pub use world::World;
