ghost use Rattle.std.specs.Prelude.{◌==◌, ◌≡◌, ◌≤◌, Err, None, OnOk, Some, false, true};
ghost use Rattle.std.specs.List.{list_any};
ghost use Rattle.mqb_contents.specs.Rooms.{IsGrown};
ghost use Rattle.mqb_model.specs.records.Offered.{mark_fits, mark_raised, raises_offer};
ghost use Rattle.mqb_model.specs.records.Stepwise.{marks_stepwise};
ghost use Rattle.mqb_model.specs.rules.Effects.{without_line};
ghost use Rattle.mqb_orders.specs.Rows.{row_of};
ghost use Rattle.mqb_arrivals.specs.declared.faults.RecordFault.TheVariants as fault;

use mqb_arrivals::RecordFault;
use mqb_drafts::Draft;
use mqb_entries::{Mark, Marks};
use mqb_orders::{KeptList, OutRow};

/// Whether a list keeps a number. Half of what is left is passed each time, since the numbers rise.
fn keeps(kept: &KeptList, number: u32) -> bool
    ensures { result ≡ list_any (λ k. k.number == number) kept.now.items }
{
    let mut low = 0;
    let mut high = kept.len();
    while low < high {
        let middle = low + (high - low) / 2;
        let found = kept.get(middle).number;
        if found == number {
            return true;
        }
        if found < number {
            low = middle + 1;
        } else {
            high = middle;
        }
    }
    false
}

fn raises_offer(mark: Mark, row: &OutRow) -> bool
    ensures { result ≡ raises_offer mark (row_of row.now) }
{
    row.offered < mark.number && keeps(&row.kept, mark.number)
}

/// The sequence of a mark was offered up to its number.
fn raise(draft: &mut Draft, mark: Mark) -> Result<(), RecordFault>
    ensures ok { OnOk result (draft.new.effect ≡ without_line draft.old.effect
        (mark_raised draft.old.effect.state mark)) }
    ensures fit { OnOk result (mark_fits draft.old.effect.state mark ≡ true) }
    ensures start { draft.new.start ≡ draft.old.start }
    ensures grown { IsGrown draft.old.rooms draft.new.rooms }
    ensures held { OnOk result (draft.new.held ≤ draft.old.held) }
    ensures unfit { result ≡ Err fault.Unfit → mark_fits draft.old.effect.state mark ≡ false }
{
    let Some(row) = draft.contents().row_of_ordinal(mark.ordinal) else {
        return Err(RecordFault::Unfit);
    };
    if !raises_offer(mark, draft.contents().out(row)) {
        return Err(RecordFault::Unfit);
    }
    draft.offer(row, mark.number)?;
    Ok(())
}

/// Sequences were offered, one mark after another.
pub(crate) fn raise_all(draft: &mut Draft, marks: &Marks<'_>) -> Result<(), RecordFault>
    ensures ok { OnOk result
        (marks_stepwise draft.old.effect.state marks.now ≡ Some draft.new.effect.state) }
    ensures lines { OnOk result (draft.new.effect.lines ≡ draft.old.effect.lines) }
    ensures start { draft.new.start ≡ draft.old.start }
    ensures grown { IsGrown draft.old.rooms draft.new.rooms }
    ensures held { OnOk result (draft.new.held ≤ draft.old.held) }
    ensures unfit { result ≡ Err fault.Unfit →
        marks_stepwise draft.old.effect.state marks.now ≡ None }
{
    for mark in marks.iter() {
        raise(draft, mark)?;
    }
    Ok(())
}
