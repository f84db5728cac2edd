ghost use Rattle.mqb_fields.specs.Reading.{Reads};
ghost use Rattle.std.specs.Prelude.{◌≡◌, ◌≤◌, OnErr, length};
ghost use Rattle.mqb_fields.specs.Writing.{Wrote, put_at};
ghost use Rattle.mqb_heads.specs.Transactions.{plain_tx, tx_at};

use crate::writing::put_word;
use mqb_base::{SequenceId, TxHead};
use mqb_fields::{Cursor, HeadFault};

/// Reads a transaction header. After a fault the cursor is where it was.
#[tactic(auto, unfolding(crate::specs::Transactions::tx_at))]
pub fn read_tx(cursor: &mut Cursor<'_>) -> Result<TxHead, HeadFault>
    ensures read { Reads tx_at cursor.old cursor.new result }
    ensures stays { OnErr result (cursor.new ≡ cursor.old) }
{
    let mut ahead = cursor.fork();
    ahead.skip(4)?;
    let ordinal = ahead.u32()?;
    let stamp = ahead.u32()?;
    let number = ahead.u32()?;
    let previous = ahead.u32()?;
    *cursor = ahead;
    Ok(TxHead {
        sequence: SequenceId { ordinal, stamp },
        number,
        previous,
    })
}

fn put_fields(head: &TxHead, to: &mut [u8]) -> usize
    requires { 20 ≤ length to.old }
    ensures { Wrote to.old 0 (plain_tx head.now) to.new result }
{
    let ordinal = put_word(to, 0, 0);
    let stamp = put_word(to, ordinal, head.sequence.ordinal);
    let number = put_word(to, stamp, head.sequence.stamp);
    let previous = put_word(to, number, head.number);
    put_word(to, previous, head.previous)
}

/// Writes the header at the start of a buffer, and tells how many bytes it has.
pub fn put_tx(head: &TxHead, to: &mut [u8]) -> usize
    requires { 20 ≤ length to.old }
    ensures put { to.new ≡ put_at to.old 0 (plain_tx head.now) }
    ensures len { result ≡ length (plain_tx head.now) }
{
    put_fields(head, to)
}
