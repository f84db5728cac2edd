//! What a script asks of two managers: its events as those of a network, the runs of a script with
//! their texts, and what is promised of each.
//!
//! `Guarantees` of the definitions is the promise, `Texts` what is written of a run.
#![tactic(auto)]

ghost use Rattle.mqb_runs.specs.Guarantees.{RunsKeepGuarantees};
ghost use Rattle.mqb_runs.specs.Streams.{RunsShowStreams};

use mqb_history::{
    always_machine_invariant, always_one_stream_world, always_refused_late,
    commitments_lead_to_managers, committed_is_asked, decisions_have_reasons,
    ledger_is_exactly_once, notes_tell_pumps,
};
use mqb_network::ledger_is_written;

/// Each run of the two managers keeps what is promised, at each of its points.
pub fn runs_keep_guarantees()
    ensures { RunsKeepGuarantees }
{
    always_machine_invariant();
    ledger_is_exactly_once();
    committed_is_asked();
    decisions_have_reasons();
    always_refused_late();
    notes_tell_pumps();
    ledger_is_written();
}

/// Each of them shows the stream world, for each stream of its ledger, at each of its points.
pub fn runs_show_streams()
    ensures { RunsShowStreams }
{
    always_one_stream_world();
    commitments_lead_to_managers();
}
