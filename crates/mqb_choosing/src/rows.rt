//! What a connection knows of rows: those to a peer begin anew, and one owes an acknowledgement.
//! Incoming rows behind the end of a list of marks owe none.
ghost use Rattle.std.specs.List.{zip};
ghost use Rattle.std.specs.Prelude.{◌<◌, ◌≡◌, ◌≤◌, IfSome, OnOk, false, length, map};
ghost use Rattle.std.specs.Vec.{vec_capacity};
ghost use Rattle.mqb_model.specs.Lists.{grown};
ghost use Rattle.mqb_model.specs.calls.Link.{begun_anew};
ghost use Rattle.mqb_orders.specs.Rows.{row_of};
ghost use Rattle.mqb_choosing.specs.Owed.{marked};

use mqb_base::Memory;
use mqb_orders::OutRow;

/// The number of a row, once the rows to the peer at an index begin anew.
fn begun_anew(row: &OutRow, cursor: u32, peer: u32) -> u32
    ensures { result ≡ begun_anew peer (row_of row.now, cursor) }
{
    if row.peer == peer { 0 } else { cursor }
}

/// The rows to the peer at an index begin anew.
pub fn rewind(rows: &[OutRow], peer: u32, cursors: &mut Vec<u32>)
    requires { length cursors.old.items ≤ length rows.now }
    ensures { cursors.new.items ≡
        map (begun_anew peer) (zip (map row_of rows.now) cursors.old.items) }
{
    for k in 0..cursors.len() {
        let cursor = begun_anew(&rows[k], cursors[k], peer);
        cursors[k] = cursor;
    }
}

/// Takes the memory for the mark of a row, where there is one.
pub fn make_room(owes: &mut Vec<bool>, row: Option<u32>) -> Result<(), Memory>
    ensures items { owes.new.items ≡ owes.old.items }
    ensures room { OnOk result (IfSome row (λ k. k < vec_capacity owes.new)) }
{
    if let Some(row) = row {
        let wanted = row as usize + 1;
        owes.reserve(wanted.saturating_sub(owes.len()))?;
    }
    Ok(())
}

/// The list has at least so many marks: rows that were missing owe nothing.
#[tactic(auto, using(crate::proofs::OwedRows::grown_more, crate::proofs::Rests::grown_length))]
fn grow(owes: &mut Vec<bool>, len: usize)
    requires { len ≤ vec_capacity owes.old }
    ensures { owes.new.items ≡ grown false len owes.old.items }
{
    for _ in owes.len()..len {
        owes.push_reserved(false);
    }
}

/// The row at an index owes an acknowledgement, where there is one.
pub fn mark(owes: &mut Vec<bool>, row: Option<u32>)
    requires { IfSome row (λ k. k < vec_capacity owes.old) }
    ensures { owes.new.items ≡ marked row owes.old.items }
{
    if let Some(row) = row {
        let row = row as usize;
        grow(owes, row + 1);
        owes[row] = true;
    }
}
