//! The law of streams: whatever is lost, repeated and reordered, and whenever connections end and
//! managers crash, a destination decides each message of a source exactly once, in the order of the
//! commits, and skips none but those that expired.
//!
//! `specs/World.antt` has what a source and a destination know of one channel, over all its
//! sequences, and `specs/Steps.antt` what may happen to it. `specs/ExactlyOnce.antt` says what
//! holds at each point of each run. Each function here stands for a law: its contract is the law,
//! and its body is empty.
#![tactic(auto)]

ghost use Rattle.mqb_exactly_once.specs.Laws.{AlwaysExactlyOnce, CommittedAreCounted};
ghost use Rattle.mqb_exactly_once.specs.Laws.{CommittedOnce, DecidedOnce, MarksAlwaysStand};
ghost use Rattle.mqb_exactly_once.specs.Laws.{DecidedUpToLast, TransfersAreTruthful};
ghost use Rattle.mqb_exactly_once.specs.Laws.{DroppedWasDecided, OrderAcksAreTrue, FatesAreTrue};
ghost use Rattle.mqb_exactly_once.specs.Laws.{FinalAcksAreTrue, StepsGrow, RunsGrow, BeforeStays};
ghost use Rattle.mqb_exactly_once.specs.Laws.{BeforeIsGreatest, OneArrives, SequencesRollOver};

/// The law itself.
pub fn exactly_once()
    ensures { AlwaysExactlyOnce }
{}

/// A sequence with `count` messages has the numbers from 1 to `count`.
pub fn committed_are_counted()
    ensures { CommittedAreCounted }
{}

/// No two messages have one position.
pub fn committed_once()
    ensures { CommittedOnce }
{}

/// No message is decided twice.
pub fn decided_once()
    ensures { DecidedOnce }
{}

/// The acknowledged mark is at most the last decided number, and that at most the offered mark.
/// Each is 0 or a kept number.
pub fn marks_stand()
    ensures { MarksAlwaysStand }
{}

/// Of a sequence the kept numbers up to the last decided one are decided, and no others.
pub fn decided_up_to_last()
    ensures { DecidedUpToLast }
{}

/// A packet carries a committed message that was offered, and links to the kept number before it.
pub fn transfers_are_truthful()
    ensures { TransfersAreTruthful }
{}

/// Nothing is lost by dropping what is no gap and not next.
pub fn dropped_was_decided()
    ensures { DroppedWasDecided }
{}

/// An order acknowledgement names no number above the last decided one.
pub fn order_acks_are_true()
    ensures { OrderAcksAreTrue }
{}

/// A refusal is the fate of what was refused alone, and a departure that of what was put.
pub fn fates_are_true()
    ensures { FatesAreTrue }
{}

/// A final acknowledgement tells a fate that the destination knows.
pub fn final_acks_are_true()
    ensures { FinalAcksAreTrue }
{}

/// A step takes nothing back.
pub fn steps_grow()
    ensures { StepsGrow }
{}

/// Later steps take nothing back.
pub fn runs_grow()
    ensures { RunsGrow }
{}

/// The number that stands before an offered one stays the same.
pub fn before_stays()
    ensures { BeforeStays }
{}

/// The number that stands before another is the greatest kept one below it.
pub fn before_is_greatest()
    ensures { BeforeIsGreatest }
{}

/// The law is not empty: there is a run in which a message arrives.
pub fn one_arrives()
    ensures { OneArrives }
{}

/// Nor is it empty where a sequence is full and the next begins.
pub fn sequences_roll_over()
    ensures { SequencesRollOver }
{}
