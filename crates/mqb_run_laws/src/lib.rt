//! Each run of a script can be gone on with, so that what was played of a script is the beginning
//! of a run of it all; and the text of a run shows it.
#![tactic(auto)]

ghost use Rattle.mqb_run_laws.specs.Continuing.{RunsContinue};
ghost use Rattle.mqb_run_laws.specs.Transcripts.{TranscriptsShowRuns};

use mqb_history::{histories_are_orderly, replies_show_choices, runs_have_histories};
use mqb_replies::{checkpoints_are_replied, requests_are_replied};

/// Behind each run of the first lines of a script there is one of all its lines, since each event
/// has a reply in each network that a run comes to.
pub fn runs_continue()
    ensures { RunsContinue }
{
    requests_are_replied();
    checkpoints_are_replied();
    runs_have_histories();
    histories_are_orderly();
}

/// A transcript shows its run: two runs of one script whose replies are written alike are one.
pub fn transcripts_show_runs()
    ensures { TranscriptsShowRuns }
{
    replies_show_choices();
}
