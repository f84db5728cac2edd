ghost use Rattle.std.specs.Prelude.{◌≡◌, ◌≤◌, map, IfOk};
ghost use Rattle.mqb_forms.specs.Faults.{Reads};
ghost use Rattle.mqb_forms.specs.Plans.{public_of, plan_of, how_of};

use crate::faults::{LineFault, LineKind};
use crate::values::{choice_of, guid_of, name_of, priority_of, quota_of};
use mqb_base::{Guid, QueuePlan};
use std::alloc::Global;

#[tactic(auto, unfolding(crate::specs::Plans::public_of))]
fn public_of(words: &[&[u8]]) -> Result<Option<Guid>, LineKind>
    ensures { result ≡ public_of (map (λ word. word.now) words.now) }
{
    match words {
        [] => Ok(None),
        [word] => Ok(Some(guid_of(word)?)),
        _ => Err(LineKind::Value),
    }
}

/// The queue to be made that words describe; behind the journal stands its GUID, or nothing.
#[tactic(auto, unfolding(crate::specs::Plans::plan_of))]
pub fn plan_of(
    alloc: Global,
    name: &[u8],
    kind: &[u8],
    quota: &[u8],
    journal: &[u8],
    guid: &[&[u8]],
) -> Result<QueuePlan, LineFault>
    ensures { Reads (plan_of name.now kind.now quota.now journal.now
        (map (λ word. word.now) guid.now)) result }
{
    let name = name_of(alloc, name)?;
    let public = public_of(guid)?;
    let transactional = choice_of(b"tx", b"plain", kind)?;
    let quota = quota_of(quota)?;
    let journal = choice_of(b"journal", b"none", journal)?;
    Ok(QueuePlan {
        name,
        public,
        transactional,
        quota,
        journal,
    })
}

/// Whether a message is recoverable, and its priority.
#[tactic(auto, unfolding(crate::specs::Plans::how_of))]
pub fn how_of(kind: &[u8], priority: &[u8]) -> Result<(bool, u8), LineKind>
    ensures how { result ≡ how_of kind.now priority.now }
    ensures most { IfOk result (λ how. how.1 ≤ 7) }
{
    Ok((
        choice_of(b"recoverable", b"express", kind)?,
        priority_of(priority)?,
    ))
}
