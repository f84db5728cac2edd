//! The law of recovery of streams: whatever was lost, repeated and reordered, and whenever
//! connections ended and managers crashed, a new connection in which nothing is lost can bring over
//! each message that waits.
//!
//! `specs/Recovery.antt` says what waits, which steps are good, and what they come to. The contract
//! of the function is the law, and its body is empty.
#![tactic(auto)]

ghost use Rattle.mqb_law_recovery.specs.Recovery.{CanRecover};

/// From each point of each run of a stream world.
pub fn can_recover()
    ensures { CanRecover }
{}
