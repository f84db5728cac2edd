ghost use Rattle.std.specs.Prelude.{◌≡◌, All, false, map, slice_set};
ghost use Rattle.mqb_model.specs.calls.pump.Pump.{settled, settled_as};
ghost use Rattle.mqb_model.specs.state.State.{State};
ghost use Rattle.mqb_session.specs.State as one_end;
ghost use Rattle.mqb_choosing.specs.Choices.{IsThere, origin_of, shown_in};
ghost use Rattle.mqb_choosing.specs.Going.{known};

use crate::choice::Origin;
use crate::choosing::Choices;

#[tactic(auto, using(crate::proofs::Settled::not_set))]
fn set_number(numbers: &mut [u32], at: u32, number: u32)
    ensures { numbers.new ≡ slice_set numbers.old at number }
{
    let at = at as usize;
    if at < numbers.len() {
        numbers[at] = number;
    }
}

#[tactic(auto, using(crate::proofs::Settled::not_set))]
fn clear_mark(marks: &mut [bool], at: u32)
    ensures { marks.new ≡ slice_set marks.old at false }
{
    let at = at as usize;
    if at < marks.len() {
        marks[at] = false;
    }
}

fn settle_one(origin: &Origin, cursors: &mut [u32], owes: &mut [bool])
    ensures { (session : one_end.State) → known session cursors.new owes.new ≡
        settled_as (known session cursors.old owes.old) (origin_of origin.now) }
{
    match origin {
        Origin::Owed { row, .. } => clear_mark(owes, *row),
        Origin::Waiting { .. } => {}
        Origin::Kept { row, tx, .. } => set_number(cursors, *row, tx.number),
    }
}

/// Notes for the connection that these packets went: an acknowledgement is owed no more, and a row
/// was sent up to a number.
pub fn settle(choices: &Choices, cursors: &mut [u32], owes: &mut [bool])
    ensures { (s : State) (session : one_end.State) → All (IsThere s) choices.now.choices →
        known session cursors.new owes.new ≡ settled (known session cursors.old owes.old)
        (map (λ given. given.0) (shown_in s choices.now.choices)) }
{
    for choice in choices.as_slice() {
        settle_one(&choice.origin, cursors, owes);
    }
}
