//! The block of a record: its length, its bytes, and the closed gate behind it. The record is
//! spelled in it, and copied nowhere.
ghost use Rattle.std.specs.Prelude.{◌≡◌, ◌+◌, ◌<◌, ◌≤◌, [], ◌∷◌, vec_len, vec_capacity};
ghost use Rattle.std.specs.Prelude.{OnOk, OnErr};
ghost use Rattle.mqb_journal.specs.Blocks.{IsBlock, record_of_block, spelled_in};
ghost use Rattle.mqb_journal.specs.Store.{IsSmall};

use mqb_base::Memory;
use mqb_fields::put_u32;

/// Begins a block anew: it has four bytes for a length, and a record is spelled behind them.
pub fn begin_block(block: &mut Vec<u8>) -> Result<(), Memory>
    ensures begun { OnOk result (block.new.items ≡ 0 ∷ 0 ∷ 0 ∷ 0 ∷ []) }
    ensures room { vec_capacity block.old ≤ vec_capacity block.new }
    ensures ready { OnErr result (vec_capacity block.old < 4) }
{
    block.clear();
    block.extend_from_slice(&[0; 4])?;
    Ok(())
}

/// Closes a block: the length before the record, and the closed gate behind it.
#[tactic(auto, using(crate::proofs::Closing::closed_so, crate::proofs::Closing::record_closed, crate::proofs::Closing::closed_is_block))]
pub fn close_block(block: &mut Vec<u8>) -> Result<(), Memory>
    requires begun { 4 ≤ vec_len block.old }
    requires small { IsSmall (spelled_in block.old.items) }
    ensures block { OnOk result (IsBlock block.new.items) }
    ensures record { OnOk result
        (record_of_block block.new.items ≡ spelled_in block.old.items) }
    ensures room { vec_capacity block.old ≤ vec_capacity block.new }
    ensures ready { OnErr result (vec_capacity block.old < vec_len block.old + 1) }
{
    let len = (block.len() - 4) as u32;
    block.push(0)?;
    put_u32(block.as_mut_slice(), 0, len);
    Ok(())
}

/// The record of a closed block, and nothing of what is shorter than one.
#[tactic(auto, using(crate::proofs::Closing::nothing_of_short))]
pub fn record_of_block(block: &[u8]) -> &[u8]
    ensures { result.now ≡ record_of_block block.now }
{
    if block.len() < 5 {
        return &[];
    }
    &block[4..block.len() - 1]
}
