//! How messages join the sequences that are sent.
ghost use Rattle.std.specs.Prelude.{◌≡◌, ◌+◌, ◌<◌, ◌≤◌, IfOk, IsSomeAnd, IsTrue, OnOk};
ghost use Rattle.std.specs.Prelude.{length, slice_get};
ghost use Rattle.mqb_contents.specs.Rooms.{IsGrown};
ghost use Rattle.mqb_contents.specs.Rows.{with_out};
ghost use Rattle.mqb_drafts.specs.Drafts.{HasNext, OrdinalsRise};
ghost use Rattle.mqb_drafts.specs.Rows.{LacksLast, committing, keeping_last};
ghost use Rattle.mqb_contents.specs.mqb_model.declared.limits.TheConstants.{MAX_ORDINAL};
ghost use Rattle.mqb_contents.specs.mqb_model.rules.Effects.{without_line};
ghost use Rattle.mqb_contents.specs.mqb_model.rules.Sequences.{join, may_join, new_sequence};
ghost use Rattle.mqb_contents.specs.mqb_model.rules.Sequences.{with_kept, with_sequence};

use crate::drafts::Draft;
use mqb_base::{Memory, Message, QueueName, SequenceId};
use mqb_contents::{Change, Counters, NewRow, RowMarks};
use mqb_orders::Kept;

fn copy_of(name: &QueueName) -> Result<QueueName, Memory>
    ensures { IfOk result (λ copy. copy ≡ name.now) }
{
    Ok(name.clone()?)
}

impl Draft {
    /// A message joins the sequence in use to its destination at a peer, or begins a new one.
    pub fn join(&mut self, peer: u32, now: u32, message: Message) -> Result<(), Memory>
        requires may { IsTrue (may_join self.old.effect.state peer message.destination) }
        requires rises { OrdinalsRise self.old.effect.state }
        ensures ok { OnOk result (self.new.effect ≡ without_line self.old.effect
            (join self.old.effect.state peer now message)) }
        ensures start { self.new.start ≡ self.old.start }
        ensures grown { IsGrown self.old.rooms self.new.rooms }
        ensures held { OnOk result (self.new.held ≤ self.old.held + 1) }
    {
        match self.contents.sequence_in_use(peer, &message.destination) {
            Some(row) => self.continue_sequence(row, message),
            None => self.begin_sequence(peer, now, message),
        }
    }

    /// A message joins a new sequence.
    fn begin_sequence(&mut self, peer: u32, now: u32, message: Message) -> Result<(), Memory>
        requires { self.old.effect.state.next_ordinal ≤ MAX_ORDINAL }
        ensures ok { OnOk result (self.new.effect ≡ without_line self.old.effect
            (with_sequence self.old.effect.state (with_kept message
            (new_sequence self.old.effect.state peer message.destination now)))) }
        ensures start { self.new.start ≡ self.old.start }
        ensures grown { IsGrown self.old.rooms self.new.rooms }
        ensures held { OnOk result (self.new.held ≤ self.old.held + 1) }
    {
        let row = self.contents.outs().len() as u32;
        self.add_sequence(peer, now, &message.destination)?;
        self.continue_sequence(row, message)
    }

    /// A new sequence takes an ordinal.
    fn add_sequence(&mut self, peer: u32, now: u32, destination: &QueueName) -> Result<(), Memory>
        requires { self.old.effect.state.next_ordinal ≤ MAX_ORDINAL }
        ensures ok { OnOk result (self.new.effect ≡ without_line self.old.effect
            (with_sequence self.old.effect.state
            (new_sequence self.old.effect.state peer destination.now now))) }
        ensures start { self.new.start ≡ self.old.start }
        ensures grown { IsGrown self.old.rooms self.new.rooms }
        ensures held { OnOk result (self.new.held ≤ self.old.held) }
    {
        let counters = self.contents.counters();
        let sequence = SequenceId {
            ordinal: counters.next_ordinal,
            stamp: now,
        };
        let destination = copy_of(destination)?;
        let row = NewRow::new(self.alloc, peer, destination, sequence);
        self.change(Change::AddRow(row))?;
        self.change(Change::Count(Counters {
            next_ordinal: counters.next_ordinal + 1,
            ..counters
        }))
    }

    /// A message joins the sequence of an outgoing row.
    fn continue_sequence(&mut self, row: u32, message: Message) -> Result<(), Memory>
        requires { IsSomeAnd (slice_get self.old.effect.state.outs row)
            (λ r. HasNext r.committed) }
        ensures ok { OnOk result (self.new.effect ≡ without_line self.old.effect
            (with_out (with_kept message) self.old.effect.state row)) }
        ensures start { self.new.start ≡ self.old.start }
        ensures grown { IsGrown self.old.rooms self.new.rooms }
        ensures held { OnOk result (self.new.held ≤ self.old.held + 1) }
    {
        self.commit(row)?;
        self.keep_last(row, message)
    }

    /// One message more is committed in an outgoing row.
    fn commit(&mut self, row: u32) -> Result<(), Memory>
        requires { IsSomeAnd (slice_get self.old.effect.state.outs row)
            (λ r. HasNext r.committed) }
        ensures ok { OnOk result (self.new.effect ≡ without_line self.old.effect
            (with_out committing self.old.effect.state row)) }
        ensures lacks { OnOk result (IsSomeAnd (slice_get self.new.effect.state.outs row)
            LacksLast) }
        ensures start { self.new.start ≡ self.old.start }
        ensures grown { IsGrown self.old.rooms self.new.rooms }
        ensures held { OnOk result (self.new.held ≤ self.old.held) }
    {
        let keeper = self.contents.out(row);
        let marks = RowMarks {
            committed: keeper.committed + 1,
            offered: keeper.offered,
            acked: keeper.acked,
        };
        self.change(Change::Mark { row, marks })
    }

    /// An outgoing row keeps the message that was committed last.
    fn keep_last(&mut self, row: u32, message: Message) -> Result<(), Memory>
        requires { IsSomeAnd (slice_get self.old.effect.state.outs row) LacksLast }
        ensures ok { OnOk result (self.new.effect ≡ without_line self.old.effect
            (with_out (keeping_last message) self.old.effect.state row)) }
        ensures start { self.new.start ≡ self.old.start }
        ensures grown { IsGrown self.old.rooms self.new.rooms }
        ensures held { OnOk result (self.new.held ≤ self.old.held + 1) }
    {
        let keeper = self.contents.out(row);
        let index = keeper.kept.len();
        let kept = Kept {
            number: keeper.committed,
            message,
        };
        self.change(Change::InsertKept { row, index, kept })
    }
}
