//! Which packets a manager sends to a peer, as a plan over what it keeps, and their bytes: nothing
//! that is kept changes.
//!
//! Order acknowledgements that are owed go first, then plain messages, recoverable ones before
//! express ones, then messages of the sequences that are open. `choose` takes the first of them, as
//! many as may go. A message is looked for where the last sent one of its list stands, and is not
//! copied: a choice says where it stands. `marks_for` gives the marks that the sequences get before
//! any packet goes, and `put_choices` the packets' bytes.
//!
//! `Sending` is the whole plan of a pump. The other steps of calls that need no store stand beside
//! it: the rows of a connection begin anew, and owe acknowledgements, a part of a set-up is a
//! packet, and what a sender chooses is sound by its type.
#![tactic(auto)]

mod candidates;
mod choice;
mod choosing;
mod drafts;
mod laws;
mod marks;
mod rows;
mod sending;
mod set_up_values;
mod settling;
mod spelling;
mod values;

pub use choice::{Choice, Origin};
pub use choosing::{Choices, choose};
pub use drafts::ops_fit;
pub use laws::{bytes_are_counted, sent_are_next};
pub use marks::marks_for;
pub use rows::{make_room, mark, rewind};
pub use sending::{
    Sending, offered_entry, plan_sending, prepare_sending, put_sending, set_up_packet,
};
pub use settling::settle;
pub use spelling::put_choices;
