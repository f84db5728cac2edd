//! A state in which changes are tried.
//!
//! Rules change a `Draft` by a few calls, each of which may want memory. `keep` answers what became
//! of the state, and the changes that lead back: `redo` makes them, and takes none. `take_back`
//! does that at once. Contracts see what was done so far, the state before it, and how many
//! messages came in since.
#![tactic(auto)]

mod acknowledging;
mod drafts;
mod joining;
mod lines;
mod logs;
mod peers;
mod rows;
mod turns;

pub use drafts::Draft;
pub use logs::Log;
pub use mqb_contents::Contents;
pub use turns::{redo, turned};
