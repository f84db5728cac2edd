//! The lines that say what a manager holds: its queues with the identifiers of their messages, the
//! places that every manager has, and its rows.
//!
//! `Lines` of the definitions has the text of each line, `Listing` their order.
#![tactic(auto)]

mod hosts;
mod listing;
mod places;
mod rows;

pub use listing::print;
