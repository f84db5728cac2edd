ghost use Rattle.std.specs.Prelude.{◌≡◌, ◌<◌, ◌≤◌, ℕ, List, ◌++◌, length, take, IfOk, OnOk};
ghost use Rattle.mqb_outside.specs.declared.disk.TheConstants.{MAX_DISK};
ghost use Rattle.mqb_layout.specs.declared.limits.TheConstants.{MAX_BASE};
ghost use Rattle.mqb_layout.specs.Layouts.{layout_then};
ghost use Rattle.mqb_layout.specs.Checkpoints.{head, closed_area, block_for, mark_for};

use crate::layout::Layout;
use crate::limits::{HEAD, PAGE};
use mqb_base::Memory;
use std::alloc::Global;

// Adds an area with its first gate closed.
fn add_area(block: &mut Vec<u8>, count: u64, base: &[u8]) -> Result<(), Memory>
    requires { length base.now ≤ MAX_BASE }
    ensures { OnOk result (block.new.items ≡ block.old.items ++ closed_area count base.now) }
{
    block.extend_from_slice(&(8 + base.len() as u32).to_le_bytes())?;
    block.extend_from_slice(&count.to_le_bytes())?;
    block.extend_from_slice(base)?;
    block.push(0)?;
    Ok(())
}

// Adds a head with both places the same.
fn add_head(block: &mut Vec<u8>, place: u64) -> Result<(), Memory>
    ensures { OnOk result (block.new.items ≡ block.old.items ++ head place) }
{
    block.push(0)?;
    block.extend_from_slice(&place.to_le_bytes())?;
    block.extend_from_slice(&place.to_le_bytes())?;
    Ok(())
}

/// What a checkpoint writes first.
pub fn block_for(
    alloc: Global,
    later: Option<Layout>,
    end: u64,
    next: Layout,
    count: u64,
    base: &[u8],
) -> Result<Vec<u8>, Memory>
    requires bound { end < MAX_DISK }
    requires next { next ≡ layout_then later end (length base.now) }
    requires small { length base.now ≤ MAX_BASE }
    ensures { IfOk result (λ block. block.items ≡ block_for later end count base.now) }
{
    let mut block = Vec::new(alloc);
    if later.is_none() {
        block.resize((next.head - (end + 1)) as usize, 0)?;
        add_head(&mut block, next.place)?;
    }
    add_area(&mut block, count, base)?;
    Ok(block)
}

/// What it writes beside that, in the first bytes of these.
pub fn mark_for(later: Option<Layout>, next: Layout) -> ([u8; 8], usize)
    ensures width { result.1 ≤ 8 }
    ensures bytes { (end base : ℕ) → next ≡ layout_then later end base
        → take result.1 result.0 ≡ mark_for later end base }
{
    match later {
        None => ((next.head / PAGE).to_le_bytes(), 3),
        Some(_) => (next.place.to_le_bytes(), 8),
    }
}
