//! What is noted of the ops that were tried.
ghost use Rattle.std.specs.Prelude.{[], ◌++◌, ◌∷◌, ◌≡◌, All, IfOk, OnOk};
ghost use Rattle.mqb_trying.specs.Notes.{IsWritable, nothing_noted};

use mqb_base::{Guid, Memory, Message, MessageId, QueueName, SequenceId};
use mqb_contents::Contents;
use mqb_model::Done;
use std::alloc::Global;
use std::marker::Model;

/// A message that a transaction takes: it stands at an index among the durable messages of
/// the queue of a number.
#[derive(Clone, Copy, Debug, PartialEq, Eq)]
pub(crate) struct Take {
    pub(crate) queue: u32,
    pub(crate) index: u32,
}

/// Where a message that a transaction sends goes: into the queue of a number, as the next of a
/// sequence in use to the peer at an index, or as the first of a new one.
#[derive(Clone, Copy, Debug, PartialEq, Eq)]
pub(crate) enum Route {
    Put {
        queue: u32,
    },
    Join {
        peer: u32,
        sequence: SequenceId,
        number: u32,
    },
    Begin {
        peer: u32,
    },
}

/// How far the last sequence to a destination at a peer has come: its last number.
#[derive(Debug, Drop)]
pub(crate) struct SequenceEnd {
    pub(crate) peer: u32,
    pub(crate) destination: QueueName,
    pub(crate) sequence: SequenceId,
    pub(crate) number: u32,
}

/// An op of the record. A message that is sent is as the record tells of it.
#[derive(Debug, Drop)]
pub(crate) enum PlannedOp {
    Send { message: Message, to: Guid },
    Take { queue: u32, id: MessageId },
}

/// What the ops that were tried did, beside a state that stays as it is: what they took, for each
/// message that they put here the number of its queue, how far they took sequences, the numbers
/// that are next, and what the record and the answer have of them.
#[derive(Debug, Drop)]
pub(crate) struct Notes {
    pub(crate) takes: Vec<Take>,
    pub(crate) puts: Vec<u32>,
    pub(crate) ends: Vec<SequenceEnd>,
    pub(crate) next_number: u32,
    pub(crate) next_ordinal: u32,
    pub(crate) ops: Vec<PlannedOp>,
    pub(crate) done: Vec<Done>,
}

impl Model for Notes {
    ghost use Rattle.std.specs.Prelude.{All};
    ghost use Rattle.mqb_trying.specs.Notes.{IsWritable, Noted};

    ghost Value = { Noted };

    ghost view = { λ n. record {
      takes = n.takes.items;
      puts = n.puts.items;
      ends = n.ends.items;
      next_number = n.next_number;
      next_ordinal = n.next_ordinal;
      ops = n.ops.items;
      done = n.done.items;
    } };

    ghost invariant = { λ n. All IsWritable n.ops.items };
}

impl Notes {
    /// Nothing was tried yet. There is room for this many ops, and for what becomes of them.
    pub(crate) fn new(alloc: Global, contents: &Contents, count: usize) -> Result<Notes, Memory>
        ensures { IfOk result (λ notes. notes ≡ nothing_noted contents.now.lists) }
    {
        Ok(Notes {
            takes: Vec::new(alloc),
            puts: Vec::new(alloc),
            ends: Vec::new(alloc),
            next_number: contents.next_number(),
            next_ordinal: contents.next_ordinal(),
            ops: Vec::with_capacity(alloc, count)?,
            done: Vec::with_capacity(alloc, count)?,
        })
    }
}

/// Adds an op that can be written.
#[tactic(auto, using(crate::proofs::Lookups::written))]
pub(crate) fn push_op(ops: &mut Vec<PlannedOp>, op: PlannedOp) -> Result<(), Memory>
    requires ops { All IsWritable ops.old.items }
    requires op { IsWritable op }
    ensures pushed { OnOk result (ops.new.items ≡ ops.old.items ++ op ∷ []) }
    ensures writable { All IsWritable ops.new.items }
{
    ops.push(op)?;
    Ok(())
}
