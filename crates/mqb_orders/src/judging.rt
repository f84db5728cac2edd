ghost use Rattle.std.specs.Prelude.{◌≡◌};
ghost use Rattle.std.specs.Option.{option_copied};
ghost use Rattle.mqb_orders.specs.Judging.{verdict_of};

use crate::rows::InRow;
use mqb_base::{TxHead, earlier};

/// What a transactional packet is to the row of its source and destination.
#[derive(Clone, Copy, Debug, PartialEq, Eq)]
pub enum Verdict {
    /// It is decided now.
    Next,
    /// Its number was decided before.
    Duplicate,
    /// A kept number before it was not decided yet.
    Gap,
    /// Its sequence is an earlier one.
    Stale,
}

/// Judges a transactional packet by its row, or by the want of one.
pub fn judge(row: Option<&InRow>, tx: &TxHead) -> Verdict
    ensures { result ≡ verdict_of (option_copied row.entry) tx.now }
{
    let decided = match row {
        Some(row) if earlier(tx.sequence, row.sequence) => return Verdict::Stale,
        Some(row) if row.sequence == tx.sequence => row.last,
        _ => 0,
    };
    if tx.number <= decided {
        Verdict::Duplicate
    } else if tx.previous > decided {
        Verdict::Gap
    } else {
        Verdict::Next
    }
}
