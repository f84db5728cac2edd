ghost use Rattle.std.specs.Prelude.{◌≡◌, All, IfOk, Some, false, map};
ghost use Rattle.mqb_model.specs.records.Reading.{all_some, op_of};
ghost use Rattle.mqb_trying.specs.Notes.{record_op};
ghost use Rattle.mqb_trying.specs.Trials.{CanTellOp, op_view, shown_ops};
ghost use Rattle.mqb_trying.specs.Trying.{is_large};

use crate::notes::{Notes, PlannedOp};
use mqb_base::Memory;
use mqb_entries::{OpView, PacketSlice};
use mqb_model::{Committed, Done, told_is_read};
use std::alloc::Global;
use std::marker::Model;

/// A transaction whose ops passed. Contracts see the ops of its record as an entry shows them, and
/// what becomes of each once it is written.
#[derive(Debug, Drop)]
pub struct Trial {
    ops: Vec<PlannedOp>,
    done: Vec<Done>,
}

impl Model for Trial {
    ghost use Rattle.std.specs.Prelude.{All};
    ghost use Rattle.mqb_trying.specs.Trials.{CanTellOp, Planned, shown_ops};

    ghost Value = { Planned };

    ghost view = { λ t. record { ops = shown_ops t.ops.items; done = t.done.items } };

    ghost invariant = { λ t. All CanTellOp t.ops.items };
}

fn op_is_read(op: &PlannedOp)
    requires { CanTellOp op.now }
    ensures { op_of (op_view (record_op op.now)) ≡ Some (record_op op.now) }
{
    if let PlannedOp::Send { message, to } = op {
        told_is_read(message, to);
    }
}

fn ops_are_read(ops: &[PlannedOp])
    requires { All CanTellOp ops.now }
    ensures { All (λ op. op_of (op_view (record_op op)) ≡ Some (record_op op)) ops.now }
{
    for op in ops {
        op_is_read(op);
    }
}

/// The ops are read as what they are.
fn all_are_read(ops: &[PlannedOp])
    requires { All CanTellOp ops.now }
    ensures { all_some (map op_of (shown_ops ops.now)) ≡ Some (map record_op ops.now) }
{
    ops_are_read(ops);
}

/// The trial of ops that passed.
#[tactic(auto, using(crate::proofs::Finishing::all_can_tell))]
pub(crate) fn trial_of(notes: Notes) -> Trial
    requires { All (λ op. is_large op ≡ false) notes.ops }
    ensures ops { result.ops ≡ shown_ops notes.ops }
    ensures done { result.done ≡ notes.done }
    ensures read { all_some (map op_of result.ops) ≡ Some (map record_op notes.ops) }
{
    all_are_read(&notes.ops);
    Trial {
        ops: notes.ops,
        done: notes.done,
    }
}

/// The op as an entry shows it. Its message is lent, and nothing is spelled.
fn view_of(op: &PlannedOp) -> OpView<'_>
    requires { CanTellOp op.now }
    ensures { result ≡ op_view (record_op op.now) }
{
    match op {
        PlannedOp::Send { message, to } => OpView::Send(PacketSlice::of_message(message, *to)),
        PlannedOp::Take { queue, id } => OpView::Take {
            queue: *queue,
            id: *id,
        },
    }
}

fn views_of(alloc: Global, ops: &[PlannedOp]) -> Result<Vec<OpView<'_>>, Memory>
    requires { All CanTellOp ops.now }
    ensures { IfOk result (λ views. views.items ≡ shown_ops ops.now) }
{
    let mut views = Vec::with_capacity(alloc, ops.len())?;
    for op in ops {
        views.push(view_of(op))?;
    }
    Ok(views)
}

impl Trial {
    /// The ops of the record. Their messages are lent.
    pub fn ops(&self, alloc: Global) -> Result<Vec<OpView<'_>>, Memory>
        ensures { IfOk result (λ ops. ops.items ≡ self.now.ops) }
    {
        views_of(alloc, &self.ops)
    }

    pub fn done(&self) -> &[Done]
        ensures { result.now ≡ self.now.done }
    {
        self.done.as_slice()
    }

    /// The answer of the transaction, once its record is written.
    pub fn into_committed(self) -> Committed
        ensures { result ≡ self.done }
    {
        Committed::new(self.done)
    }
}
