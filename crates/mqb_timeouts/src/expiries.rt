ghost use Rattle.std.specs.Prelude.{if◌then◌else◌, ◌≡◌, ◌+◌, ◌*◌, ◌<◌, ◌≤◌, All, IfOk, IfSome};
ghost use Rattle.std.specs.Prelude.{IsSomeAnd, OnOk, Some, count_by, false, length, option_copied};
ghost use Rattle.std.specs.Prelude.{position, slice_get, sum_by, take};
ghost use Rattle.std.specs.Option.{option_map};
ghost use Rattle.mqb_base.specs.declared.class.TheConstants.Class.{REACH_TIMEOUT};
ghost use Rattle.mqb_base.specs.declared.message.Lane.{Lane};
ghost use Rattle.mqb_contents.specs.Rooms.{IsGrown};
ghost use Rattle.mqb_contents.specs.Rows.{with_out};
ghost use Rattle.mqb_model.specs.rules.Effects.{joined, with_line};
ghost use Rattle.mqb_model.specs.rules.Notices.{meets};
ghost use Rattle.mqb_model.specs.rules.Timeouts.{expires, expiring_in, lane_due, next_expired};
ghost use Rattle.mqb_model.specs.rules.Timeouts.{row_expired, rows_expired};
ghost use Rattle.mqb_orders.specs.Rows.{row_of};
ghost use Rattle.mqb_timeouts.specs.Waiting.{NoneExpires, expired_at, expired_count, expired_line};
ghost use Rattle.mqb_timeouts.specs.Waiting.{expiring_index, kept_at, left_row};

use crate::lapses::cannot_reach;
use mqb_base::{Class, Line, Memory, Message, Stream};
use mqb_contents::Contents;
use mqb_orders::{Kept, OutRow};
use mqb_rules::{Draft, meets};

fn expires(row: &OutRow, kept: &Kept, now: u32) -> bool
    ensures { result ≡ expires now (row_of row.now) kept.now }
{
    row.offered < kept.number && cannot_reach(&kept.message, now)
}

/// The index of the next message of a row that expires, where none of the first ones does.
fn index_in(row: &OutRow, from: u32, now: u32) -> Option<u32>
    requires { All (λ x. expires now (row_of row.now) x ≡ false) (take from row.now.kept.items) }
    ensures index { result ≡ position (expires now (row_of row.now)) row.now.kept.items }
    ensures within { IfSome result (λ k. k < length row.now.kept.items) }
{
    for k in from..row.kept.len() {
        if expires(row, row.kept.get(k), now) {
            return Some(k);
        }
    }
    None
}

fn count_one(passes: bool) -> u32
    ensures count { result ≡ (if passes then 1 else 0) }
    ensures few { result ≤ 1 }
{
    if passes { 1 } else { 0 }
}

fn count_in(row: &OutRow, now: u32) -> u32
    ensures { result ≡ count_by (expires now (row_of row.now)) row.now.kept.items }
{
    let mut count = 0;
    for k in 0..row.kept.len() {
        count += count_one(expires(row, row.kept.get(k), now));
    }
    count
}

/// The outgoing row at an index, where it is there.
fn row_at(contents: &Contents, k: u32) -> Option<&OutRow>
    ensures row { option_map row_of (option_copied result) ≡ slice_get contents.now.lists.outs k }
    ensures within { IfSome (option_copied result) (λ r. k < length contents.now.lists.outs) }
{
    if (k as usize) < contents.outs().len() {
        Some(contents.out(k))
    } else {
        None
    }
}

/// The index of the next message of the outgoing row at an index that expires.
fn index_expiring(contents: &Contents, k: u32, from: u32, now: u32) -> Option<u32>
    requires { NoneExpires now contents.now.lists k from }
    ensures index { result ≡ expiring_index now contents.now.lists k }
    ensures row { IfSome result (λ i. k < length contents.now.lists.outs) }
    ensures within { IfSome result (λ i. IsSomeAnd (slice_get contents.now.lists.outs k)
        (λ r. i < length r.kept)) }
{
    let row = row_at(contents, k)?;
    index_in(row, from, now)
}

/// How many messages of the outgoing row at an index expire.
pub fn count_expiring(contents: &Contents, k: u32, now: u32) -> u32
    ensures { result ≡ expired_count now contents.now.lists k }
{
    match row_at(contents, k) {
        Some(row) => count_in(row, now),
        None => 0,
    }
}

/// A copy of the message that an outgoing row keeps at an index.
fn copy_kept(contents: &Contents, k: u32, index: u32) -> Result<Message, Memory>
    requires row { k < length contents.now.lists.outs }
    requires kept { IsSomeAnd (slice_get contents.now.lists.outs k) (λ r. index < length r.kept) }
    ensures { IfOk result (λ m. option_map (λ kept. kept.message)
        (kept_at contents.now.lists k index) ≡ Some m) }
{
    Ok(contents.out(k).kept.get(index).message.clone()?)
}

/// The line of it once it expires.
fn expired_line(contents: &Contents, k: u32, index: u32, now: u32) -> Result<Line, Memory>
    requires row { k < length contents.now.lists.outs }
    requires kept { IsSomeAnd (slice_get contents.now.lists.outs k) (λ r. index < length r.kept) }
    ensures { IfOk result (λ entry. expired_line now contents.now.lists k index ≡ Some entry) }
{
    let row = contents.out(k);
    let kept = row.kept.get(index);
    Ok(Line::Expired {
        stream: Stream {
            source: contents.identity().guid,
            destination: row.destination.clone()?,
            sequence: row.sequence,
        },
        number: kept.number,
        id: kept.message.id,
        moment: now,
    })
}

/// The message that an outgoing row keeps at an index, of which these are the line
/// and a copy, expires.
fn expire(
    draft: &mut Draft,
    k: u32,
    index: u32,
    line: Line,
    message: &Message,
    now: u32,
) -> Result<(), Memory>
    requires { IsSomeAnd (slice_get draft.old.effect.state.outs k) (λ r. index < length r.kept) }
    ensures ok { OnOk result (draft.new.effect ≡ joined draft.old.effect (with_line line
        (meets (with_out (left_row index) draft.old.effect.state k)
        message.now REACH_TIMEOUT now))) }
    ensures start { draft.new.start ≡ draft.old.start }
    ensures grown { IsGrown draft.old.rooms draft.new.rooms }
    ensures held { OnOk result (draft.new.held ≤ draft.old.held + 2) }
{
    draft.note(line)?;
    draft.take_out_kept(k, index)?;
    meets(draft, message, Class::REACH_TIMEOUT, now)
}

fn expire_at(draft: &mut Draft, k: u32, index: u32, now: u32) -> Result<(), Memory>
    requires row { k < length draft.old.effect.state.outs }
    requires kept { IsSomeAnd (slice_get draft.old.effect.state.outs k)
        (λ r. index < length r.kept) }
    ensures ok { OnOk result (draft.new.effect ≡ expired_at now k index draft.old.effect) }
    ensures start { draft.new.start ≡ draft.old.start }
    ensures grown { IsGrown draft.old.rooms draft.new.rooms }
    ensures held { OnOk result (draft.new.held ≤ draft.old.held + 2) }
{
    let contents = draft.contents();
    let message = copy_kept(contents, k, index)?;
    let line = expired_line(contents, k, index, now)?;
    expire(draft, k, index, line, &message, now)
}

/// The next message of the outgoing row at an index expires, where there is one. No message before
/// `from` does, and none before the answer does then.
fn expire_next(draft: &mut Draft, k: u32, from: u32, now: u32) -> Result<u32, Memory>
    requires { NoneExpires now draft.old.effect.state k from }
    ensures ok { OnOk result (draft.new.effect ≡ next_expired now k draft.old.effect) }
    ensures next { IfOk result (λ next. NoneExpires now draft.new.effect.state k next) }
    ensures start { draft.new.start ≡ draft.old.start }
    ensures grown { IsGrown draft.old.rooms draft.new.rooms }
    ensures held { OnOk result (draft.new.held ≤ draft.old.held + 2) }
{
    match index_expiring(draft.contents(), k, from, now) {
        Some(index) => {
            expire_at(draft, k, index, now)?;
            Ok(index)
        }
        None => Ok(from),
    }
}

/// The messages of the outgoing row at an index that are due expire.
fn expire_row(draft: &mut Draft, k: u32, now: u32) -> Result<(), Memory>
    ensures ok { OnOk result (draft.new.effect ≡ row_expired now k draft.old.effect) }
    ensures start { draft.new.start ≡ draft.old.start }
    ensures grown { IsGrown draft.old.rooms draft.new.rooms }
    ensures held { OnOk result (draft.new.held ≤
        draft.old.held + 2 * expired_count now draft.old.effect.state k) }
{
    let mut from = 0;
    for _ in 0..count_expiring(draft.contents(), k, now) {
        from = expire_next(draft, k, from, now)?;
    }
    Ok(())
}

/// The messages of all outgoing rows that are due expire, row by row.
pub fn rows_expired(draft: &mut Draft, now: u32) -> Result<(), Memory>
    ensures ok { OnOk result (draft.new.effect ≡ rows_expired now draft.old.effect) }
    ensures start { draft.new.start ≡ draft.old.start }
    ensures grown { IsGrown draft.old.rooms draft.new.rooms }
    ensures held { OnOk result (draft.new.held ≤
        draft.old.held + 3 * sum_by (expiring_in now) draft.old.effect.state.outs) }

    // As many other messages are due as before.
    ensures due { OnOk result ((lane : Lane) → lane_due lane draft.new.effect.state now ≡
        lane_due lane draft.old.effect.state now) }
{
    for k in 0..draft.contents().outs().len() as u32 {
        expire_row(draft, k, now)?;
    }
    Ok(())
}
