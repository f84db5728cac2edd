//! A manager that stays open: lines of an input ask it for commands, and each answer is written
//! before more is read.
//!
//! Of the definitions, `Lines` has what a line asks, `Doing` what a manager that is open does by a
//! command, `Answered` what lines come to one after another, and `Shells` how all that ends.
#![tactic(auto)]

mod answering;
mod asking;
mod doing;
mod shell;
mod taking;

pub use asking::MAX_LINE;
pub use doing::do_command;
pub use shell::run_shell;
