ghost use Rattle.std.specs.Prelude.{◌≡◌, ◌<◌, ◌≤◌, ◌++◌, [], ◌∷◌, IsSomeAnd, OnOk, length};
ghost use Rattle.std.specs.Prelude.{remove, slice_get};
ghost use Rattle.mqb_contents.specs.Rooms.{IsGrown};
ghost use Rattle.mqb_contents.specs.Rows.{deciding, keeping, with_in, with_out};
ghost use Rattle.mqb_contents.specs.mqb_model.records.Offered.{with_offered};
ghost use Rattle.mqb_contents.specs.mqb_model.rules.Effects.{without_line};

use crate::drafts::Draft;
use mqb_base::{Memory, SequenceId};
use mqb_contents::{Change, RowMarks};
use mqb_orders::InRow;

/// Rows.
impl Draft {
    /// The message that an outgoing row keeps at an index leaves.
    pub fn take_out_kept(&mut self, row: u32, index: u32) -> Result<(), Memory>
        requires { IsSomeAnd (slice_get self.old.effect.state.outs row)
            (λ r. index < length r.kept) }
        ensures ok { OnOk result (self.new.effect ≡ without_line self.old.effect
            (with_out (λ r. keeping (remove r.kept index) r) self.old.effect.state row)) }
        ensures start { self.new.start ≡ self.old.start }
        ensures grown { IsGrown self.old.rooms self.new.rooms }
        ensures held { OnOk result (self.new.held ≤ self.old.held) }
    {
        self.change(Change::RemoveKept { row, index })
    }

    /// An outgoing row was offered up to a number.
    pub fn offer(&mut self, row: u32, number: u32) -> Result<(), Memory>
        requires { row < length self.old.effect.state.outs }
        ensures ok { OnOk result (self.new.effect ≡ without_line self.old.effect
            (with_out (with_offered number) self.old.effect.state row)) }
        ensures start { self.new.start ≡ self.old.start }
        ensures grown { IsGrown self.old.rooms self.new.rooms }
        ensures held { OnOk result (self.new.held ≤ self.old.held) }
    {
        let keeper = self.contents.out(row);
        let marks = RowMarks {
            committed: keeper.committed,
            offered: number,
            acked: keeper.acked,
        };
        self.change(Change::Mark { row, marks })
    }

    /// An incoming row has another sequence, of which this is the last number that was decided.
    pub fn decide(&mut self, index: u32, sequence: SequenceId, last: u32) -> Result<(), Memory>
        requires { index < length self.old.effect.state.ins }
        ensures ok { OnOk result (self.new.effect ≡ without_line self.old.effect
            (with_in (deciding sequence last) self.old.effect.state index)) }
        ensures start { self.new.start ≡ self.old.start }
        ensures grown { IsGrown self.old.rooms self.new.rooms }
        ensures held { OnOk result (self.new.held ≤ self.old.held) }
    {
        self.change(Change::Decide {
            index,
            sequence,
            last,
        })
    }

    /// An incoming row joins the others at the end.
    pub fn add_in(&mut self, row: InRow) -> Result<(), Memory>
        ensures ok { OnOk result (self.new.effect ≡ without_line self.old.effect
            (record self.old.effect.state { ins = self.old.effect.state.ins ++ row ∷ [] })) }
        ensures start { self.new.start ≡ self.old.start }
        ensures grown { IsGrown self.old.rooms self.new.rooms }
        ensures held { OnOk result (self.new.held ≤ self.old.held) }
    {
        self.change(Change::AddIn(row))
    }
}
