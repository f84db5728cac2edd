//! The history of a network: each run of it is composed of a few primitive changes, and what each
//! of them keeps holds at each point of each run.
//!
//! Each function stands for a law: its contract is the law, and its body is empty, or cites laws of
//! the crates below by calling them.
#![tactic(auto)]

ghost use Rattle.mqb_history.specs.Laws.{AlwaysAcknowledgedTruly, AlwaysAcknowledgingTruly};
ghost use Rattle.mqb_history.specs.Laws.{AlwaysBegunInOrder, AlwaysCarriedTruly};
ghost use Rattle.mqb_history.specs.Laws.{AlwaysCommittedInOrder, AlwaysDecidedAcross};
ghost use Rattle.mqb_history.specs.Laws.{AlwaysDecidedByOne, AlwaysDecidedInOrder};
ghost use Rattle.mqb_history.specs.Laws.{AlwaysDecidedTruly, AlwaysDecidedWhereLed};
ghost use Rattle.mqb_history.specs.Laws.{AlwaysExactlyOnce, AlwaysExpiredDuly};
ghost use Rattle.mqb_history.specs.Laws.{AlwaysMachineInvariant, AlwaysOffersKept};
ghost use Rattle.mqb_history.specs.Laws.{AlwaysOneStreamWorld, AlwaysShown, AlwaysStreamInvariant};
ghost use Rattle.mqb_history.specs.Laws.{AlwaysToldCommitments, AlwaysUndecided, AlwaysUnskipped};
ghost use Rattle.mqb_history.specs.Laws.{AlwaysWaiting, AlwaysWaitingUntilDecided};
ghost use Rattle.mqb_history.specs.Laws.{DecisionsHaveReasons, DownStays, ExpiriesHaveReasons};
ghost use Rattle.mqb_history.specs.Laws.{FailuresAreSettled, HistoriesAreOrderly};
ghost use Rattle.mqb_history.specs.Laws.{LinesTellDecisions, RunsHaveHistories, SentNeverExpires};
ghost use Rattle.mqb_history.specs.Asked.{CommittedIsAsked};
ghost use Rattle.mqb_history.specs.Put.{PutIsTheCommittedMessage};
ghost use Rattle.mqb_history.specs.Finals.{FinalsTellFates};
ghost use Rattle.mqb_history.specs.Finished.{FinalsHaveReasons};
ghost use Rattle.mqb_history.specs.Awaited.{FatesAreAwaited};
ghost use Rattle.mqb_history.specs.Stored.{StorageIsAlwaysKept};
ghost use Rattle.mqb_history.specs.Truths.{AlwaysTruthful};
ghost use Rattle.mqb_history.specs.Received.{AlwaysReceivedTruly, AlwaysReceivedTrulyOfPlain};
ghost use Rattle.mqb_history.specs.Copies.{AlwaysCopiedRightly};
ghost use Rattle.mqb_history.specs.Twice.{OneIsTakenAndMissed};
ghost use Rattle.mqb_history.specs.EveryEvent.{EveryEventIsAnswered};
ghost use Rattle.mqb_history.specs.Ledger.{AlwaysExactlyOnceTold};
ghost use Rattle.mqb_history.specs.Late.{AlwaysRefusedLate};
ghost use Rattle.mqb_history.specs.Pumps.{NotesTellPumps};
ghost use Rattle.mqb_history.specs.Sent.{AlwaysSentRightly};
ghost use Rattle.mqb_history.specs.Traced.{TakenIsAsked};
ghost use Rattle.mqb_history.specs.Choosing.{RepliesShowChoices, RunsAreShown};
ghost use Rattle.mqb_history.specs.Leading.{CommitmentsLeadToManagers, RowsAreLed};
ghost use Rattle.mqb_history.specs.Links.{LinksAreBefore};
ghost use Rattle.mqb_history.specs.Drafted.{AlwaysValid};

use mqb_model::{
    calls_keep_valid, failed_is_valid, kept_is_valid, linked_is_valid, lost_is_valid, new_is_valid,
    pumped_is_readable, refusals_change_nothing, refused_is_same, resent_is_valid,
    unlinked_is_valid, unread_is_valid,
};
use mqb_network::ledger_is_written;
use mqb_orders::link_is_before;

/// Sessions are connections, there is a note for each packet, and managers stay who they are.
pub fn histories_are_orderly()
    ensures { HistoriesAreOrderly }
{}

/// Each run is composed of primitive changes.
pub fn runs_have_histories()
    ensures { RunsHaveHistories }
{}

/// Whatever is lost, repeated and reordered, each manager decides the messages of a source and a
/// destination in their order, each once.
pub fn always_decided_in_order()
    ensures { AlwaysDecidedInOrder }
{}

/// Each manager numbers the messages of each sequence from 1 on, and no two have one identifier.
pub fn always_committed_in_order()
    ensures { AlwaysCommittedInOrder }
{}

/// Each packet of a stream that was ever sent carries a message that its sender committed, at the
/// place that its header names.
pub fn always_carried_truly()
    ensures { AlwaysCarriedTruly }
{}

/// Whatever is decided was committed by its source before, and is the same message in every field
/// but the time to reach its queue.
pub fn always_decided_truly()
    ensures { AlwaysDecidedTruly }
{}

/// The Put and Refused lines of a manager's records are its decisions, in order.
pub fn lines_tell_decisions()
    ensures { LinesTellDecisions }
{}

/// The Committed lines of a manager's records are its commitments, in order.
pub fn always_told_commitments()
    ensures { AlwaysToldCommitments }
{}

/// A manager that is down stays as it is until it is started again.
pub fn down_stays()
    ensures { DownStays }
{}

/// A disk that fails under a record leaves it in doubt, and a start finds it kept or lost.
pub fn failures_are_settled()
    ensures { FailuresAreSettled }
{}

/// A message that is decided is put, or refused for the reason that there is when it is heard.
pub fn decisions_have_reasons()
    ensures { DecisionsHaveReasons }
{}

/// A message expires out of the row that keeps it, where its time to reach its queue is over
/// and it was not offered.
pub fn expiries_have_reasons()
    ensures { ExpiriesHaveReasons }
{}

/// A final acknowledgement changes no row but one that leads to the manager from which it came, and
/// keeps a message that it names and that was offered.
pub fn finals_have_reasons()
    ensures { FinalsHaveReasons }
{}

/// A final acknowledgement that names another manager's committed message tells a fate that
/// its sender knows: it refused the message for that reason, or put it and has a line that
/// says how it left its queue.
pub fn finals_tell_fates()
    ensures { FinalsTellFates }
{}

/// Each message with the dead-letter bit that a row keeps, and that was decided where the row
/// leads, stands in a queue there, or a final acknowledgement of it waits there for its source, or
/// no number was left for that.
pub fn fates_are_awaited()
    ensures { FatesAreAwaited }
{}

/// Whatever expires at a manager was committed there, and its time to reach its queue was over.
pub fn always_expired_duly()
    ensures { AlwaysExpiredDuly }
{}

/// None of a sequence is skipped: whatever stands before a decided message was decided too, or it
/// expired at the source.
pub fn always_unskipped()
    ensures { AlwaysUnskipped }
{}

/// Each committed message waits in its row until that is acknowledged up to it, unless it expires.
pub fn always_waiting()
    ensures { AlwaysWaiting }
{}

/// What a manager offered never expires later: only what stands above the mark
/// in its sequence does.
pub fn always_offers_kept()
    ensures { AlwaysOffersKept }
{}

/// Each plain message that leaves its sender as released was stored before, or refused, by the peer
/// for which it waited, and a line says so.
pub fn storage_is_always_kept()
    ensures { StorageIsAlwaysKept }
{}

/// What a put line brings to the end of its queue is the message that the source of its stream
/// committed, but for the time to reach the queue.
pub fn put_is_the_committed_message()
    ensures { PutIsTheCommittedMessage }
{}

/// Each message that a manager commits is one that an event of the run asked it to send in a
/// transaction, with its parts and at its moment.
pub fn committed_is_asked()
    ensures { CommittedIsAsked }
{}

/// Each message that says that another one did not arrive is true: a committed one that it
/// names expired or was refused, and was never put, and none of those that were put where
/// they were sent is named.
pub fn always_truthful()
    ensures { AlwaysTruthful }
{}

/// Each message that says that another one was not received is true: that one was purged, or its
/// time to be received was over. And where it was sent in a transaction, or put where it was
/// sent, it was never taken.
pub fn always_received_truly()
    ensures { AlwaysReceivedTruly }
{}

/// Of a plain message that went in a packet two copies may be put. Where one came to a queue, and a
/// message says that it was not received, it was never taken.
pub fn always_received_truly_of_plain()
    ensures { AlwaysReceivedTrulyOfPlain }
{}

/// Where a plain message is put twice, one copy may be taken and the other one purged, and then a
/// notice says that the message was not received.
pub fn one_is_taken_and_missed()
    ensures { OneIsTakenAndMissed }
{}

/// A run of two managers that has each kind of event and each choice of the disks is worked
/// out to the last reply.
pub fn every_event_is_answered()
    ensures { EveryEventIsAnswered }
{}

/// No more copies of a message stand in queues, or left them, than came there: of one that was sent
/// in a transaction, or put where it was sent, one.
pub fn always_copied_rightly()
    ensures { AlwaysCopiedRightly }
{}

/// What was sent of a stream never expires, and so what was decided never does.
pub fn sent_never_expires()
    ensures { SentNeverExpires }
{}

/// What expired at its source is decided nowhere: nothing that was decided expires later, and
/// nothing that expired is decided.
pub fn expired_is_never_decided()
    ensures { AlwaysUndecided }
{}

/// Of two sequences to one destination nothing of the later one is offered before all of the
/// earlier one is acknowledged or expired.
pub fn sequences_always_in_order()
    ensures { AlwaysBegunInOrder }
{}

/// Each packet that acknowledges an order spells a position that its sender decided, of a channel
/// whose source is its receiver, and each message of another manager's stream that a final
/// acknowledgement names was decided by the sender of that.
pub fn acknowledgements_are_true()
    ensures { AlwaysAcknowledgingTruly }
{}

/// Each number up to the acknowledged one of an outgoing row was decided by the manager to which
/// the row leads, or expired.
pub fn only_decided_is_acknowledged()
    ensures { AlwaysAcknowledgedTruly }
{}

/// Each committed message waits in its row, above the acknowledged number, until the manager to
/// which that leads decides it, unless it expires.
pub fn always_waits_until_decided()
    ensures { AlwaysWaitingUntilDecided }
{}

/// Whatever is decided of a manager's streams is decided by the manager to which the row
/// of its sequence leads.
pub fn always_decided_where_led()
    ensures { AlwaysDecidedWhereLed }
{}

/// Of one source and one destination no two managers decide anything.
pub fn always_decided_by_one()
    ensures { AlwaysDecidedByOne }
{}

/// Of two sequences to one destination nothing of the later one is decided before all of the
/// earlier one was decided by the same manager, or expired.
pub fn sequences_always_decided_in_order()
    ensures { AlwaysDecidedAcross }
{}

/// Each run of the network is a run of the stream world, for each channel: steps lead to one world
/// that the course shows, the parts of the invariant hold of it, and it is exactly once. The three
/// laws behind this one say its parts.
pub fn always_one_stream_world()
    ensures { AlwaysOneStreamWorld }
{}

/// Each run of the network is a run of the stream world, for each channel: steps lead to a world
/// that shows what the source committed and let expire, the marks of its rows, what the destination
/// decided and which fates it knows, each packet of the channel, each acknowledgement that went
/// back, and whether the two are connected.
pub fn always_shown()
    ensures { AlwaysShown }
{
    always_one_stream_world();
}

/// So each channel is exactly once: what is decided was committed, in order and each once, and
/// whatever was not expired before is decided or waits.
pub fn always_exactly_once()
    ensures { AlwaysExactlyOnce }
{
    always_one_stream_world();
}

/// A message that is refused because its time to reach its queue was over was sent by its source at
/// a moment at which it was over.
pub fn always_refused_late()
    ensures { AlwaysRefusedLate }
{}

/// Each packet that was sent went in an event of the run in which its sender pumped, at the
/// moment that is noted.
pub fn notes_tell_pumps()
    ensures { NotesTellPumps }
{}

/// Each message that is there, or went in a packet, is a notice, or express, or the one that was
/// sent under its identifier, in every field but the time to reach its queue.
pub fn always_sent_rightly()
    ensures { AlwaysSentRightly }
{}

/// What a take answers is what an event of the run asked to send, of the manager that its
/// identifier names, or a notice about such a message.
pub fn taken_is_asked()
    ensures { TakenIsAsked }
{}

/// The ledger itself tells of each stream that it is exactly once: its messages are committed as 1,
/// 2, and so on; what is decided was committed before, in order and each once; whatever stands
/// before it was decided before, or expired before; and nothing that expired is decided.
pub fn ledger_is_exactly_once()
    ensures { AlwaysExactlyOnceTold }
{}

/// The parts of the invariant of streams hold of the world of each channel.
pub fn always_stream_invariant()
    ensures { AlwaysStreamInvariant }
{
    always_one_stream_world();
}

/// The parts of the invariant hold of the course itself.
pub fn always_machine_invariant()
    ensures { AlwaysMachineInvariant }
{}

/// Each free choice shows: two choices that may be made in an event and are answered with
/// the same signs are one.
pub fn replies_show_choices()
    ensures { RepliesShowChoices }
{
    refusals_change_nothing();
}

/// A run is told by its events and the signs in its replies: there are no two with the same.
pub fn runs_are_shown()
    ensures { RunsAreShown }
{
    refusals_change_nothing();
}

/// What is committed to a stream goes from one manager of the network to another:
/// no stream is left out.
pub fn commitments_lead_to_managers()
    ensures { CommitmentsLeadToManagers }
{
    ledger_is_written();
}

/// Each outgoing row leads to the peer to which its destination does.
pub fn rows_are_led()
    ensures { RowsAreLed }
{}

/// Each outgoing row keeps its stream as the ledger tells it, so the number to which a packet links
/// is the greatest one below its own that was committed and did not expire, or 0.
pub fn links_are_before()
    ensures { LinksAreBefore }
{
    link_is_before();
}

/// Whatever is lost, repeated and reordered, and wherever disks fail, each manager stays valid, as
/// long as what events ask for is in order.
pub fn always_valid()
    ensures { AlwaysValid }
{
    new_is_valid();
    failed_is_valid();
    calls_keep_valid();
    pumped_is_readable();
    linked_is_valid();
    unlinked_is_valid();
    resent_is_valid();
    lost_is_valid();
    kept_is_valid();
    unread_is_valid();
    refused_is_same();
}
