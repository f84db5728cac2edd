//! No manager is ever stuck in a connection: something of what is outstanding goes, it is no gap
//! where it arrives, and its acknowledgement leaves less.
//!
//! Each function stands for a law of the definitions of `mqb_model`: its contract is the law,
//! and its body is empty.
#![tactic(auto)]

ghost use Rattle.mqb_law_progress.specs.Progress.{AcknowledgingFalls, FirstIsNoGap, SomethingGoes};
ghost use Rattle.mqb_law_progress.specs.Steps.{EachIsInOrder, OneAtATime};

/// Whatever is outstanding for the peer of a new connection, a packet goes.
pub fn something_goes()
    ensures { SomethingGoes }
{}

/// The first kept number of a row that is not acknowledged is next at its receiver,
/// or was decided there.
pub fn first_is_no_gap()
    ensures { FirstIsNoGap }
{}

/// Its acknowledgement leaves fewer that are not acknowledged.
pub fn acknowledging_falls()
    ensures { AcknowledgingFalls }
{}

/// Into a window of 1 a pump gives one packet out at most.
pub fn one_at_a_time()
    ensures { OneAtATime }
{}

/// Of two ends that are in step, whatever user packet goes is in order, and acknowledges all
/// that the other end sent.
pub fn each_is_in_order()
    ensures { EachIsInOrder }
{}
