//! How outgoing rows are acknowledged.
ghost use Rattle.std.specs.Prelude.{◌≡◌, ◌-◌, ◌<◌, ◌≤◌, IfOk, IsSomeAnd, OnOk, All, drop, length};
ghost use Rattle.std.specs.Prelude.{slice_get, false, true};
ghost use Rattle.mqb_contents.specs.Rooms.{IsGrown};
ghost use Rattle.mqb_contents.specs.Rows.{kept_count, with_out};
ghost use Rattle.mqb_drafts.specs.Drafts.{HasNext};
ghost use Rattle.mqb_drafts.specs.Rows.{StaysBefore, releasing, with_acked};
ghost use Rattle.mqb_contents.specs.mqb_model.rules.Effects.{without_line};
ghost use Rattle.mqb_orders.specs.Rows.{acknowledged};

use crate::drafts::Draft;
use mqb_base::Memory;
use mqb_contents::{Change, RowMarks};

impl Draft {
    /// An outgoing row is acknowledged up to a number: what it keeps up to that leaves, but what
    /// has the dead-letter bit.
    pub fn acknowledge(&mut self, row: u32, number: u32) -> Result<(), Memory>
        requires { row < length self.old.effect.state.outs }
        ensures ok { OnOk result (self.new.effect ≡ without_line self.old.effect
            (with_out (acknowledged number) self.old.effect.state row)) }
        ensures start { self.new.start ≡ self.old.start }
        ensures grown { IsGrown self.old.rooms self.new.rooms }
        ensures held { OnOk result (self.new.held ≤ self.old.held) }
    {
        let acked = self.contents.out(row).acked.max(number);
        self.release(row, acked)?;
        self.mark_acked(row, acked)
    }

    fn mark_acked(&mut self, row: u32, number: u32) -> Result<(), Memory>
        requires { row < length self.old.effect.state.outs }
        ensures ok { OnOk result (self.new.effect ≡ without_line self.old.effect
            (with_out (with_acked number) self.old.effect.state row)) }
        ensures start { self.new.start ≡ self.old.start }
        ensures grown { IsGrown self.old.rooms self.new.rooms }
        ensures held { OnOk result (self.new.held ≤ self.old.held) }
    {
        let keeper = self.contents.out(row);
        let marks = RowMarks {
            committed: keeper.committed,
            offered: keeper.offered,
            acked: number,
        };
        self.change(Change::Mark { row, marks })
    }

    /// What an outgoing row keeps up to a number leaves, but what has the dead-letter bit. What is
    /// above the number is not looked at.
    fn release(&mut self, row: u32, number: u32) -> Result<(), Memory>
        requires { row < length self.old.effect.state.outs }
        ensures ok { OnOk result (self.new.effect ≡ without_line self.old.effect
            (with_out (releasing number) self.old.effect.state row)) }
        ensures start { self.new.start ≡ self.old.start }
        ensures grown { IsGrown self.old.rooms self.new.rooms }
        ensures held { OnOk result (self.new.held ≤ self.old.held) }
    {
        let mut index = 0;
        while self.is_up_to(row, index, number) {
            index = self.release_at(row, index, number)?;
        }
        Ok(())
    }

    /// Whether an outgoing row keeps a message at an index that has a number up to this one.
    fn is_up_to(&self, row: u32, index: u32, number: u32) -> bool
        requires { row < length self.now.effect.state.outs }
        ensures up_to { result ≡ true → IsSomeAnd (slice_get self.now.effect.state.outs row)
            (λ r. IsSomeAnd (slice_get r.kept index) (λ k. k.number ≤ number)) }
        ensures above { result ≡ false → IsSomeAnd (slice_get self.now.effect.state.outs row)
            (λ r. All (λ k. number < k.number) (drop index r.kept)) }
        ensures next { result ≡ true → HasNext index }
    {
        let kept = &self.contents.out(row).kept;
        index < kept.len() && kept.get(index).number <= number
    }

    /// The message that a row keeps at an index leaves, but if it has the dead-letter bit. The
    /// answer is the index of the one that stood behind it.
    fn release_at(&mut self, row: u32, index: u32, number: u32) -> Result<u32, Memory>
        requires up_to { IsSomeAnd (slice_get self.old.effect.state.outs row)
            (λ r. IsSomeAnd (slice_get r.kept index) (λ k. k.number ≤ number)) }
        requires stays { StaysBefore self.old.effect.state row index }
        requires next { HasNext index }
        ensures same { OnOk result (with_out (releasing number) self.new.effect.state row ≡
            with_out (releasing number) self.old.effect.state row) }
        ensures lines { OnOk result (self.new.effect.lines ≡ self.old.effect.lines) }
        ensures stays { IfOk result (λ next. StaysBefore self.new.effect.state row next) }
        ensures nearer { IfOk result (λ next. kept_count self.new.effect.state.outs row - next <
            kept_count self.old.effect.state.outs row - index) }
        ensures start { self.new.start ≡ self.old.start }
        ensures grown { IsGrown self.old.rooms self.new.rooms }
        ensures held { OnOk result (self.new.held ≤ self.old.held) }
    {
        if self.contents.out(row).kept.get(index).message.keeps_dead() {
            return Ok(index + 1);
        }
        self.take_out_kept(row, index)?;
        Ok(index)
    }
}
