//! What managers come to that meet once faults are over: they are started anew, and each two
//! connect, flow in turn and part.
//!
//! Each function stands for a law of runs: its contract is the law, and its body is empty, or cites
//! laws of the crates below by calling them.
#![tactic(auto)]

ghost use Rattle.mqb_law_meetings.specs.Laws.{DrainedMeetInVain, GoodMovesExist, MeetingsBegin};
ghost use Rattle.mqb_law_meetings.specs.Laws.{SomethingIsSent, StartsLeaveAlone};
ghost use Rattle.mqb_law_meetings.specs.Recovery.{Delivers, Forgets, Recovers};
ghost use Rattle.mqb_law_meetings.specs.Rounds.{AllDeliver, AllRecover};
ghost use Rattle.mqb_law_meetings.specs.Worked.{AreBroughtOver, StampsMustFit};
ghost use Rattle.mqb_law_meetings.specs.WorkedRounds.{OneRoundIsNotEnough};

use mqb_history::{
    always_machine_invariant, always_stream_invariant, always_valid, always_waits_until_decided,
    commitments_lead_to_managers, fates_are_awaited, histories_are_orderly, links_are_before,
    rows_are_led, runs_have_histories,
};
use mqb_law_progress::something_goes;

/// In each event a good choice may be made: no disk has to fail.
pub fn good_moves_exist()
    ensures { GoodMovesExist }
{}

/// Two managers that were started anew are alone: both are up, and nothing is
/// known of a connection.
pub fn starts_leave_alone()
    ensures { StartsLeaveAlone }
{
    histories_are_orderly();
    runs_have_histories();
}

/// Two managers that are alone are ready for one another once they are connected, with what they
/// had, by four packets and without a record.
pub fn meetings_begin()
    ensures { MeetingsBegin }
{
    histories_are_orderly();
    runs_have_histories();
}

/// Whatever one of them has for the other then, its pump gives a packet out, where the other
/// one's window is not 0.
pub fn something_is_sent()
    ensures { SomethingIsSent }
{
    histories_are_orderly();
    runs_have_histories();
    always_valid();
    something_goes();
}

/// A meeting of two managers that are alone and have nothing for one another is its four set-up
/// packets, and leaves them so.
pub fn drained_meet_in_vain()
    ensures { DrainedMeetInVain }
{
    histories_are_orderly();
    runs_have_histories();
}

/// Behind any run two managers are started, and meet as often as there is work. Then neither has
/// anything for the other that is not acknowledged.
pub fn recovers()
    ensures { Recovers }
{
    histories_are_orderly();
    runs_have_histories();
    always_valid();
    always_machine_invariant();
    always_stream_invariant();
    commitments_lead_to_managers();
    links_are_before();
    rows_are_led();
}

/// So each message that one of them committed to a name that leads to the other was decided where
/// its row leads, or it expired.
pub fn delivers()
    ensures { Delivers }
{
    recovers();
    always_waits_until_decided();
    rows_are_led();
}

/// Behind any run all of any number of managers are started, and there are two rounds, in which
/// each pair meets as often as all have work. Then nothing waits between any two.
pub fn all_recover()
    ensures { AllRecover }
{
    histories_are_orderly();
    runs_have_histories();
    always_valid();
    always_machine_invariant();
    always_stream_invariant();
    commitments_lead_to_managers();
    links_are_before();
    rows_are_led();
}

/// So each message that one of them committed to a name that leads to another one was decided where
/// its row leads, or it expired.
pub fn all_deliver()
    ensures { AllDeliver }
{
    all_recover();
    always_waits_until_decided();
    rows_are_led();
}

/// And nothing is kept for ever: whatever one of them still keeps for the other stands in a queue
/// there, unless that has no number left for a final acknowledgement.
pub fn forgets()
    ensures { Forgets }
{
    recovers();
    histories_are_orderly();
    runs_have_histories();
    fates_are_awaited();
}

/// The schedule, worked out: a message is brought over, where a disk stopped under its commit, its
/// offer or its arrival, with the record and without it.
pub fn some_are_brought_over()
    ensures { AreBroughtOver }
{}

/// A sequence that began at a moment which four bytes do not hold is never acknowledged, worked
/// out: so the law of recovery asks for stamps that fit.
pub fn stamps_must_fit()
    ensures { StampsMustFit }
{}

/// What is heard in the first round may bring a notice for a manager that was met before, worked
/// out: so there are two.
pub fn one_round_is_not_enough()
    ensures { OneRoundIsNotEnough }
{}
