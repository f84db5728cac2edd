//! The words of a command line: what they ask for, or that they are outside their forms. Of the
//! definitions, `Table` has the forms of words by their first one, and `Words` what the words of a
//! command line ask for. `command_of` reads them, and `misfit_of` says which word is at fault, by
//! `Misfits`. `Lines` has what a line asks of a manager that is open, and `command_in` reads it.
#![tactic(auto)]

mod calls;
mod commands;
mod faults;
mod forms;
mod lines;
mod misfits;
mod reading;
mod values;

pub use commands::{Call, Command};
pub use faults::WordsFault;
pub use lines::command_in;
pub use misfits::{Misfit, misfit_of};
pub use reading::command_of;
