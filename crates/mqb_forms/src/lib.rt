//! What single words stand for: numbers, choices, names, places, queues and the steps of
//! transactions. The lines of a script and the words of a command line are made of these. Of the
//! definitions, `Words` has numbers, `Values` names and places, `Plans` queues and ways to send,
//! and `Sends` the steps of a transaction.
#![tactic(auto)]

mod faults;
mod flags;
mod ops;
mod plans;
mod sends;
mod values;
mod words;

pub use faults::{LineFault, LineKind};
pub use ops::Ops;
pub use plans::{how_of, plan_of};
pub use sends::{ops_of, send_of};
pub use values::{
    call_of, choice_of, guid_of, mode_of, moment_of, name_of, packet_of, pick_of, place_of,
    priority_of, quota_of, roll_of, window_of,
};
pub use words::{FEW, few_parts, is_word, number_in, parts};
