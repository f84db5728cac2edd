ghost use Rattle.std.specs.Prelude.{◌+◌, ◌<◌, ◌≡◌, ◌≤◌, ◌^◌, IfErr, IfOk, Ok, OnOk, Some};
ghost use Rattle.std.specs.Prelude.{length, true};
ghost use Rattle.std.specs.Result.{IsOkAnd};
ghost use Rattle.mqb_entries.specs.declared.entry.Entry.TheVariants as form;
ghost use Rattle.mqb_entries.specs.SpelledEntries.{Fits, spelled};
ghost use Rattle.mqb_model.specs.declared.limits.TheConstants.{MAX_NUMBER, MAX_OPS, MAX_RECORD};
ghost use Rattle.mqb_model.specs.records.Applying.{fits};
ghost use Rattle.mqb_model.specs.records.Reading.{record_in};
ghost use Rattle.mqb_model.specs.records.Record as entry;
ghost use Rattle.mqb_model.specs.state.Valid.{IsValidState};
ghost use Rattle.mqb_trying.specs.Notes.{nothing_noted};
ghost use Rattle.mqb_trying.specs.Trials.{planned};
ghost use Rattle.mqb_trying.specs.Trying.{IsRefusedBy, at_op, count_refusal, tried};
ghost use Rattle.mqb_trying.specs.Trying.{try_all, try_op};

use crate::counting::whole_fault;
use crate::notes::Notes;
use crate::trial::{Trial, trial_of};
use mqb_base::Op;
use mqb_contents::Contents;
use mqb_model::{CommitFault, MAX_OPS, records_are_spelled, records_fit};
use mqb_packet::plain_size;
use std::alloc::Global;

/// There are too few ops, or too many.
fn count_refusal(count: usize) -> Option<CommitFault>
    ensures { result ≡ count_refusal count }
{
    match count {
        0 => Some(CommitFault::NoOps),
        count if count > MAX_OPS => Some(CommitFault::TooManyOps),
        _ => None,
    }
}

impl Notes {
    /// One op more is tried.
    fn try_op(
        &mut self,
        contents: &Contents,
        now: u32,
        index: u32,
        op: &Op,
    ) -> Result<(), CommitFault>
        requires { self.old.next_number + 1 < 2 ^ 32 }
        ensures ok { OnOk result (try_op contents.now.lists now self.old op.now ≡ Ok self.new) }
        ensures number { OnOk result (self.new.next_number ≤ self.old.next_number + 1) }
        ensures ops { OnOk result (length self.new.ops ≡ length self.old.ops + 1) }
        ensures refused { IfErr result
            (IsRefusedBy (at_op index (try_op contents.now.lists now self.old op.now))) }
    {
        match op {
            Op::Send(draft) => self.try_send(contents, now, index, draft),
            Op::Take(name) => self.try_take(contents, now, index, name),
        }
    }
}

/// The ops are tried one after another, up to the first that fails.
fn try_all(alloc: Global, contents: &Contents, ops: &[Op], now: u32) -> Result<Notes, CommitFault>
    requires few { length ops.now ≤ MAX_OPS }
    requires number { contents.now.lists.next_number ≤ MAX_NUMBER + 1 }
    ensures ok { IfOk result (λ notes. try_all contents.now.lists now 0
        (nothing_noted contents.now.lists) ops.now ≡ Ok notes) }
    ensures ops { IfOk result (λ notes. length notes.ops ≡ length ops.now) }
    ensures refused { IfErr result (IsRefusedBy (try_all contents.now.lists now 0
        (nothing_noted contents.now.lists) ops.now)) }
{
    let mut notes = Notes::new(alloc, contents, ops.len())?;
    for index in 0..ops.len() {
        notes.try_op(contents, now, index as u32, &ops[index])?;
    }
    Ok(notes)
}

/// Tries the ops of a transaction. A refusal is the first reason against it in the order of
/// `CommitFault`, or want of memory; a manager that is down is for its caller to refuse.
pub fn try_ops(
    alloc: Global,
    contents: &Contents,
    ops: &[Op],
    now: u32,
) -> Result<Trial, CommitFault>
    requires { IsValidState contents.now.lists }
    ensures planned { IfOk result (λ trial. IsOkAnd (tried contents.now.lists now ops.now)
        (λ t. trial ≡ planned t)) }
    ensures refused { IfErr result (IsRefusedBy (tried contents.now.lists now ops.now)) }

    // The entry can be put, is short enough for a store, and is read as the record, which fits.
    ensures put { IfOk result (λ trial. Fits (form.Commit now trial.ops)) }
    ensures size { IfOk result (λ trial.
        length (spelled (form.Commit now trial.ops)) ≤ MAX_RECORD) }
    ensures read { IfOk result (λ trial. IsOkAnd (tried contents.now.lists now ops.now)
        (λ t. record_in (form.Commit now trial.ops) ≡ Some (entry.Commit now t.ops))) }
    ensures fits { IfOk result (λ trial. IsOkAnd (tried contents.now.lists now ops.now)
        (λ t. fits contents.now.lists (entry.Commit now t.ops) ≡ true)) }
{
    if let Some(fault) = count_refusal(ops.len()) {
        return Err(fault);
    }
    let notes = try_all(alloc, contents, ops, now)?;
    if let Some(fault) = whole_fault(&notes) {
        return Err(fault);
    }
    records_fit();
    records_are_spelled();
    plain_size();
    Ok(trial_of(notes))
}
