//! Captures: what one end of a connection sent and heard, in that end's order, and which
//! captures are lawful.
//!
//! `Grammar` has the bytes of a capture, `Events` the packets that its pieces are, and `Links`
//! their numbers. `Lawful` says what is demanded of them, `Breaks` which packet breaks it first and
//! why, and `Verdicts` what an inspector says of bytes. `Judged` computes the same, and `Chains` is
//! how a program can keep the numbers. Each function here stands for a law: its contract is the
//! law, and its body is empty.
#![tactic(auto)]

mod answers;
mod laws;
mod link;

pub use answers::{BreakCause, InspectFault, MAX_CAPTURE, MAX_PIECE, Verdict, Way};
pub use laws::{
    ack_alone, again_is_the_same, events_are_cut, head_alone, is_decided, moments_do_not_matter,
    neighbours_are_enough, says_one,
};
pub use link::Link;
