ghost use Rattle.std.specs.Prelude.{◌+◌, ◌<◌, ◌≡◌, ◌≤◌, IfSome, OnOk, Some, length};
ghost use Rattle.std.specs.Prelude.{position, slice_get};
ghost use Rattle.std.specs.Option.{IsSomeAnd, option_map_or};
ghost use Rattle.mqb_contents.specs.Rooms.{IsGrown};
ghost use Rattle.mqb_model.specs.records.Finals.{dead_for, final_stored, finished_at, finished_by};
ghost use Rattle.mqb_model.specs.records.Finals.{has_named, is_final, is_offered_as, with_finished};
ghost use Rattle.mqb_model.specs.rules.Effects.{joined, without_line};
ghost use Rattle.mqb_model.specs.state.Resolving.{peer_known};
ghost use Rattle.mqb_orders.specs.Rows.{row_of};

use crate::kept::{index_named, keeps_named};
use mqb_base::{Class, EntryPlace, Line, Memory, Message, MessageId};
use mqb_contents::Contents;
use mqb_drafts::Draft;
use mqb_fate::is_final_class;
use mqb_orders::OutRow;
use mqb_rules::{is_for_order_layer, is_recoverable};

/// Whether a message is a final acknowledgement for this manager's order layer.
pub fn is_final(contents: &Contents, message: &Message) -> bool
    ensures { result ≡ is_final contents.now.lists message.now }
{
    is_recoverable(message.delivery)
        && is_final_class(message.class)
        && is_for_order_layer(contents, &message.destination)
}

fn has_named(peer: u32, id: MessageId, row: &OutRow) -> bool
    ensures { result ≡ has_named peer id (row_of row.now) }
{
    row.peer == peer && keeps_named(&row.kept, id)
}

fn index_of_row(rows: &[OutRow], peer: u32, id: MessageId) -> Option<usize>
    ensures index { result ≡ position (λ r. has_named peer id (row_of r)) rows.now }
    ensures within { IfSome result (λ k. k < length rows.now) }
{
    rows.iter().position(|row| has_named(peer, id, row))
}

/// The index of the first row to a peer that keeps the message of an identifier.
fn index_finished(contents: &Contents, peer: u32, id: MessageId) -> Option<u32>
    ensures index { result ≡ position (has_named peer id) contents.now.lists.outs }
    ensures within { IfSome result (λ k. k < length contents.now.lists.outs) }
{
    let k = index_of_row(contents.outs(), peer, id)?;
    Some(k as u32)
}

/// A copy of a kept message goes to the transactional dead-letter queue where a class is negative.
fn bury(draft: &mut Draft, class: Class, row: u32, index: u32) -> Result<(), Memory>
    requires { IsSomeAnd (slice_get draft.old.effect.state.outs row) (λ r. index < length r.kept) }
    ensures ok { OnOk result (draft.new.effect ≡ without_line draft.old.effect (option_map_or
        (λ r. option_map_or (λ k. dead_for class draft.old.effect.state k.message)
        (slice_get r.kept index) draft.old.effect.state)
        (slice_get draft.old.effect.state.outs row) draft.old.effect.state)) }
    ensures start { draft.new.start ≡ draft.old.start }
    ensures grown { IsGrown draft.old.rooms draft.new.rooms }
    ensures held { OnOk result (draft.new.held ≤ draft.old.held + 1) }
{
    if !class.is_negative() {
        return Ok(());
    }
    let copy = draft.contents().out(row).kept.get(index).message.clone()?;
    draft.put(EntryPlace::DeadXact, copy)
}

/// The message that a row keeps at an index leaves, and the row is acknowledged up to it.
fn take_out(draft: &mut Draft, id: MessageId, row: u32, index: u32) -> Result<(), Memory>
    requires { IsSomeAnd (slice_get draft.old.effect.state.outs row)
        (λ r. position (is_offered_as id r) r.kept ≡ Some index) }
    ensures ok { OnOk result (draft.new.effect ≡ without_line draft.old.effect (option_map_or
        (λ r. option_map_or (λ k. with_finished id draft.old.effect.state row k)
        (slice_get r.kept index) draft.old.effect.state)
        (slice_get draft.old.effect.state.outs row) draft.old.effect.state)) }
    ensures start { draft.new.start ≡ draft.old.start }
    ensures grown { IsGrown draft.old.rooms draft.new.rooms }
    ensures held { OnOk result (draft.new.held ≤ draft.old.held) }
{
    let number = draft.contents().out(row).kept.get(index).number;
    draft.take_out_kept(row, index)?;
    draft.acknowledge(row, number)
}

/// The message of a row that an acknowledgement names is done with, where it was offered.
fn finish_in(draft: &mut Draft, message: &Message, row: u32) -> Result<(), Memory>
    requires { row < length draft.old.effect.state.outs }
    ensures ok { OnOk result (draft.new.effect ≡ without_line draft.old.effect
        (finished_at draft.old.effect.state message.now row)) }
    ensures start { draft.new.start ≡ draft.old.start }
    ensures grown { IsGrown draft.old.rooms draft.new.rooms }
    ensures held { OnOk result (draft.new.held ≤ draft.old.held + 1) }
{
    let keeper = draft.contents().out(row);
    let Some(index) = index_named(&keeper.kept, message.correlation, keeper.offered) else {
        return Ok(());
    };
    bury(draft, message.class, row, index)?;
    take_out(draft, message.correlation, row, index)
}

/// The message that an acknowledgement names is done with, where it was offered to the
/// acknowledgement's source.
fn finish(draft: &mut Draft, message: &Message) -> Result<(), Memory>
    ensures ok { OnOk result (draft.new.effect ≡ without_line draft.old.effect (option_map_or
        (λ peer. finished_by draft.old.effect.state peer message.now)
        (peer_known draft.old.effect.state message.now.id.qm) draft.old.effect.state)) }
    ensures start { draft.new.start ≡ draft.old.start }
    ensures grown { IsGrown draft.old.rooms draft.new.rooms }
    ensures held { OnOk result (draft.new.held ≤ draft.old.held + 1) }
{
    let Some(peer) = draft.contents().peer_known(message.id.qm) else {
        return Ok(());
    };
    let Some(row) = index_finished(draft.contents(), peer, message.correlation) else {
        return Ok(());
    };
    finish_in(draft, message, row)
}

/// A final acknowledgement is stored.
pub(crate) fn store_final(draft: &mut Draft, message: &Message) -> Result<(), Memory>
    ensures ok { OnOk result (draft.new.effect ≡ joined draft.old.effect
        (final_stored draft.old.effect.state message.now)) }
    ensures start { draft.new.start ≡ draft.old.start }
    ensures grown { IsGrown draft.old.rooms draft.new.rooms }
    ensures held { OnOk result (draft.new.held ≤ draft.old.held + 1) }
{
    finish(draft, message)?;
    draft.note(Line::Stored { id: message.id })
}
