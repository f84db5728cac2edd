ghost use Rattle.std.specs.Prelude.{◌≡◌, All, IfOk, filter_map, fold, map, max};
ghost use Rattle.mqb_model.specs.calls.pump.Pump.{marks_for, number_of_row};
ghost use Rattle.mqb_orders.specs.Rows.{row_of};
ghost use Rattle.mqb_choosing.specs.Choices.{IsThere, origin_of, shown_in};
ghost use Rattle.mqb_choosing.specs.Marks.{greatest_chosen, rising_mark};

use crate::choice::{Choice, Origin};
use crate::choosing::Choices;
use mqb_base::Memory;
use mqb_contents::Contents;
use mqb_entries::Mark;
use mqb_orders::OutRow;
use std::alloc::Global;

/// The number of the outgoing row at an index that a packet carries.
fn number_of_row(origin: &Origin, row: u32) -> Option<u32>
    ensures { result ≡ number_of_row row (origin_of origin.now) }
{
    match origin {
        Origin::Kept { row: own, tx, .. } if *own == row => Some(tx.number),
        _ => None,
    }
}

/// The greatest number of the outgoing row at an index that goes, or 0.
fn greatest_chosen(choices: &[Choice], row: u32) -> u32
    ensures { result ≡ greatest_chosen choices.now row }
{
    let mut greatest: u32 = 0;
    for choice in choices {
        if let Some(number) = number_of_row(&choice.origin, row) {
            greatest = greatest.max(number);
        }
    }
    greatest
}

/// The mark of a row of which this is the greatest number that goes, where it rises.
fn rising_mark(row: &OutRow, greatest: u32) -> Option<Mark>
    ensures { result ≡ rising_mark greatest (row_of row.now) }
{
    if row.offered < greatest {
        Some(Mark {
            ordinal: row.sequence.ordinal,
            number: greatest,
        })
    } else {
        None
    }
}

/// The marks of the outgoing rows that rise where these packets go, in row order. They are recorded
/// before any packet goes.
pub fn marks_for(alloc: Global, contents: &Contents, choices: &Choices) -> Result<Vec<Mark>, Memory>
    requires { All (IsThere contents.now.lists) choices.now.choices }
    ensures { IfOk result (λ marks. marks.items ≡ marks_for contents.now.lists
        (map (λ given. given.0) (shown_in contents.now.lists choices.now.choices))) }
{
    let mut marks = Vec::new(alloc);
    let rows = contents.outs();
    for k in 0..rows.len() {
        let greatest = greatest_chosen(choices.as_slice(), k as u32);
        if let Some(mark) = rising_mark(&rows[k], greatest) {
            marks.push(mark)?;
        }
    }
    Ok(marks)
}
