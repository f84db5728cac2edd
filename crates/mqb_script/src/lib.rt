//! The script of two managers or of a ring: its lines as events, or the first line that fails and
//! what is wrong with it. Of the definitions, `Hosts` has the managers, `Grammar` the forms of
//! lines, `Lines` what is wrong with a line, and `Script` and `Ring` which texts are scripts.
//! `read_script` and `read_ring` read a script whole, and `lines_are_read_back` says that the line
//! of an event is read back as that event. Scripts that are made are such scripts
//! (`made_scripts_are_scripts`): `Orders` of the definitions has their events.
#![tactic(auto)]

mod events;
mod faults;
mod forms;
mod grammar;
mod laws;
mod lines;
mod made;
mod managers;
mod reading;
mod ring;

pub use events::Event;
pub use faults::ScriptFault;
pub use grammar::Grammar;
pub use laws::{lines_are_read_back, one_event_a_line};
pub use made::made_scripts_are_scripts;
pub use managers::Which;
pub use mqb_forms::{LineKind, Ops};
pub use reading::{Script, read_script};
pub use ring::{RingScript, read_ring};
