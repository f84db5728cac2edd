//! What a manager answers to a call of a store command, as the text that is printed.
//!
//! Of the definitions, `Outcomes` has what a call comes to, `Told` what is told of it,
//! and `Texts` its text.
#![tactic(auto)]

mod answering;
mod calls;
mod hosts;
mod laws;
mod texts;
mod told;

pub use answering::answer;
pub use hosts::hosts_of;
pub use laws::outcomes_are_told;
pub use mqb_replies::{
    AnswerFault, CheckpointFault, Manager, OpenFault, checkpoint_reply, checkpoints_are_replied,
};
pub use told::{CallEnd, Said, Taken, Told};
