ghost use Rattle.std.specs.Prelude.{[], ◌==◌, ◌≡◌, IfOk, IsOk, if◌then◌else◌};

use mqb_base::{Line, Memory};
use mqb_manager::Manager;
use mqb_transcript::Listed;
use std::alloc::Global;

fn copy_of(line: &Line) -> Result<Line, Memory>
    ensures { IfOk result (λ copy. copy ≡ line.now) }
{
    Ok(line.clone()?)
}

/// A copy of lines.
pub fn listed(alloc: Global, lines: &[Line]) -> Result<Listed<Line>, Memory>
    ensures { IfOk result (λ copy. copy ≡ lines.now) }
{
    let mut copy = Listed::new(alloc);
    for line in lines {
        copy.push(copy_of(line)?)?;
    }
    Ok(copy)
}

/// The lines of what a manager recorded since there were so many records.
pub fn lines_since(alloc: Global, manager: &Manager, before: u64) -> Result<Listed<Line>, Memory>
    ensures lines { IfOk result (λ lines. lines ≡
        (if manager.now.store.journal.count == before then [] else manager.now.store.lines)) }
    ensures none { manager.now.store.journal.count ≡ before → IsOk result }
{
    if manager.lsn() == before {
        return Ok(Listed::new(alloc));
    }
    listed(alloc, manager.lines())
}
