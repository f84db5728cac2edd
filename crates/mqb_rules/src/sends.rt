ghost use Rattle.std.specs.Prelude.{◌≡◌, ◌+◌, ◌<◌, ◌≤◌, ◌^◌, IfOk, IfSome, IsSomeAnd, IsTrue, OnOk};
ghost use Rattle.std.specs.Prelude.{length, option_and_then, slice_get};
ghost use Rattle.mqb_base.specs.declared.class.TheConstants.Class.{REACHED_QUEUE};
ghost use Rattle.mqb_base.specs.declared.ledger.Line.TheVariants as line;
ghost use Rattle.mqb_drafts.specs.mqb_contents.Rooms.{IsGrown};
ghost use Rattle.mqb_drafts.specs.Drafts.{OrdinalsRise};
ghost use Rattle.mqb_model.specs.declared.target.Target.TheVariants.{AtPeer};
ghost use Rattle.mqb_model.specs.records.Commit.{join_fits};
ghost use Rattle.mqb_model.specs.rules.Effects.{joined, with_line, without_line};
ghost use Rattle.mqb_model.specs.rules.Notices.{meets};
ghost use Rattle.mqb_model.specs.rules.Sends.{committed_line, committed_to, delivered, journalled};
ghost use Rattle.mqb_model.specs.rules.Sends.{message_sent, plain_sent};
ghost use Rattle.mqb_model.specs.rules.Sequences.{may_join, sequence_for, sequence_in_use};
ghost use Rattle.mqb_model.specs.state.Places.{placed};
ghost use Rattle.mqb_model.specs.state.Resolving.{resolved};

use crate::placing::place;
use crate::reaching::reach;
use crate::resolving::resolved;
use mqb_base::{EntryPlace, Line, Memory, Message, SequenceId, Stream};
use mqb_drafts::{Contents, Draft};
use mqb_model::Target;

/// The computer's journal keeps a copy of a message that asks for it.
fn journal(draft: &mut Draft, message: &Message) -> Result<(), Memory>
    ensures ok { OnOk result (draft.new.effect ≡ without_line draft.old.effect
        (journalled draft.old.effect.state message.now)) }
    ensures outs { OnOk result (draft.new.effect.state.outs ≡ draft.old.effect.state.outs) }
    ensures ordinal { OnOk result
        (draft.new.effect.state.next_ordinal ≡ draft.old.effect.state.next_ordinal) }
    ensures roll { OnOk result (draft.new.effect.state.roll ≡ draft.old.effect.state.roll) }
    ensures start { draft.new.start ≡ draft.old.start }
    ensures grown { IsGrown draft.old.rooms draft.new.rooms }
    ensures held { OnOk result (draft.new.held ≤ draft.old.held + 1) }
{
    if message.keeps_copy() {
        draft.put(EntryPlace::Journal, message.clone()?)
    } else {
        Ok(())
    }
}

/// A message is put into a queue here and meets the class of that, or joins the plain
/// messages for a peer.
fn deliver(draft: &mut Draft, target: Target, message: Message, now: u32) -> Result<(), Memory>
    ensures ok { OnOk result (draft.new.effect ≡ without_line draft.old.effect
        (delivered draft.old.effect.state target message now)) }
    ensures start { draft.new.start ≡ draft.old.start }
    ensures grown { IsGrown draft.old.rooms draft.new.rooms }
    ensures held { OnOk result (draft.new.held ≤ draft.old.held + 2) }
{
    match target {
        Target::AtPeer(peer) => place(draft, Target::AtPeer(peer), message),
        Target::Here(_) | Target::Nowhere => reach(draft, target, message, now),
    }
}

/// A message that is not transactional is sent, and has its number.
pub fn plain_sent(draft: &mut Draft, message: Message, now: u32) -> Result<(), Memory>
    ensures ok { OnOk result (draft.new.effect ≡ without_line draft.old.effect
        (plain_sent draft.old.effect.state message now)) }
    ensures start { draft.new.start ≡ draft.old.start }
    ensures grown { IsGrown draft.old.rooms draft.new.rooms }
    ensures held { OnOk result (draft.new.held ≤ draft.old.held + 3) }
{
    let target = resolved(draft.contents(), &message.destination);
    journal(draft, &message)?;
    deliver(draft, target, message, now)
}

/// The index of the sequence in use to the destination of a message at a peer.
fn index_in_use(contents: &Contents, peer: u32, message: &Message) -> Option<u32>
    ensures row { option_and_then (slice_get contents.now.lists.outs) result ≡
        sequence_in_use contents.now.lists peer message.now.destination }
    ensures within { IfSome result (λ k. k < length contents.now.lists.outs) }
    ensures fits { IfSome result (λ k. IsSomeAnd (slice_get contents.now.lists.outs k)
        (λ r. r.committed + 1 < 2 ^ 32)) }
{
    let row = contents.last_sequence(peer, &message.destination)?;
    if contents.out(row).committed < contents.roll() {
        Some(row)
    } else {
        None
    }
}

/// The stream of the sequence that a message for a peer joins.
fn committed_line(
    contents: &Contents,
    peer: u32,
    message: &Message,
    now: u32,
) -> Result<Line, Memory>
    ensures { IfOk result (λ line. line ≡ committed_line contents.now.lists
        (sequence_for contents.now.lists peer message.now.destination now) message.now) }
{
    let source = contents.identity().guid;
    match index_in_use(contents, peer, message) {
        Some(k) => {
            let row = contents.out(k);
            Ok(Line::Committed {
                stream: Stream {
                    source,
                    destination: row.destination.clone()?,
                    sequence: row.sequence,
                },
                number: row.committed + 1,
                id: message.id,
            })
        }
        None => Ok(Line::Committed {
            stream: Stream {
                source,
                destination: message.destination.clone()?,
                sequence: SequenceId {
                    ordinal: contents.next_ordinal(),
                    stamp: now,
                },
            },
            number: 1,
            id: message.id,
        }),
    }
}

/// A message of a transaction joins its sequence.
fn commit_to_peer(draft: &mut Draft, peer: u32, message: Message, now: u32) -> Result<(), Memory>
    requires may { IsTrue (may_join draft.old.effect.state peer message.destination) }
    requires rises { OrdinalsRise draft.old.effect.state }
    ensures ok { OnOk result (draft.new.effect ≡ joined draft.old.effect
        (committed_to now draft.old.effect.state (AtPeer peer) message)) }
    ensures start { draft.new.start ≡ draft.old.start }
    ensures grown { IsGrown draft.old.rooms draft.new.rooms }
    ensures held { OnOk result (draft.new.held ≤ draft.old.held + 1) }
{
    let line = committed_line(draft.contents(), peer, &message, now)?;
    draft.join(peer, now, message)?;
    draft.note(line)
}

/// A message of a transaction is put here.
fn commit_here(draft: &mut Draft, target: Target, message: Message, now: u32) -> Result<(), Memory>
    ensures ok { OnOk result (draft.new.effect ≡ joined draft.old.effect
        (with_line (line.Local message.id) (meets (placed draft.old.effect.state target message)
        message REACHED_QUEUE now))) }
    ensures start { draft.new.start ≡ draft.old.start }
    ensures grown { IsGrown draft.old.rooms draft.new.rooms }
    ensures held { OnOk result (draft.new.held ≤ draft.old.held + 2) }
{
    let id = message.id;
    reach(draft, target, message, now)?;
    draft.note(Line::Local { id })
}

/// A message of a transaction goes to a target: it joins its sequence, or is put here.
fn commit_to(draft: &mut Draft, target: Target, message: Message, now: u32) -> Result<(), Memory>
    requires may { IsTrue (join_fits draft.old.effect.state target message.destination) }
    requires rises { OrdinalsRise draft.old.effect.state }
    ensures ok { OnOk result (draft.new.effect ≡ joined draft.old.effect
        (committed_to now draft.old.effect.state target message)) }
    ensures start { draft.new.start ≡ draft.old.start }
    ensures grown { IsGrown draft.old.rooms draft.new.rooms }
    ensures held { OnOk result (draft.new.held ≤ draft.old.held + 2) }
{
    match target {
        Target::AtPeer(peer) => commit_to_peer(draft, peer, message, now),
        Target::Here(_) | Target::Nowhere => commit_here(draft, target, message, now),
    }
}

/// A message of a transaction is sent, and has its number.
pub fn message_sent(draft: &mut Draft, message: Message, now: u32) -> Result<(), Memory>
    requires may_join { IsTrue (join_fits draft.old.effect.state
        (resolved draft.old.effect.state message.destination) message.destination) }
    requires rises { OrdinalsRise draft.old.effect.state }
    ensures ok { OnOk result (draft.new.effect ≡ joined draft.old.effect
        (message_sent now draft.old.effect.state message)) }
    ensures start { draft.new.start ≡ draft.old.start }
    ensures grown { IsGrown draft.old.rooms draft.new.rooms }
    ensures held { OnOk result (draft.new.held ≤ draft.old.held + 3) }
{
    let target = resolved(draft.contents(), &message.destination);
    journal(draft, &message)?;
    commit_to(draft, target, message, now)
}
