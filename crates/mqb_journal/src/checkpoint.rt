ghost use Rattle.std.specs.Prelude.{◌≡◌, ◌≢◌, ◌↔◌, ◌+◌, ◌-◌, ◌*◌, ◌^◌, ◌<◌, ◌≤◌, ℕ, List, []};
ghost use Rattle.std.specs.Prelude.{length, true, false, Some, Err, IfSome, OnOk};
ghost use Rattle.mqb_outside.specs.Faults.{HasCause};
ghost use Rattle.mqb_outside.specs.Images.{Each, Follows};
ghost use Rattle.mqb_outside.specs.Disk.{IsSettled, LeavesOnly, Counted, AtMost};
ghost use Rattle.mqb_outside.specs.declared.disk.TheConstants.{MAX_DISK};
ghost use Rattle.mqb_journal.specs.Store.{Base, After, IsOldOrNew};
ghost use Rattle.mqb_layout.specs.declared.limits.TheConstants.{HEAD, MAX_BASE, AREA};
ghost use Rattle.mqb_layout.specs.Layouts.{area_size, layout_then};
ghost use Rattle.mqb_journal.specs.States.{checkpointed, is_too_far};
ghost use Rattle.mqb_layout.specs.Checkpoints.{block_for};
ghost use Rattle.mqb_journal.specs.Checkpoints.{IsRewritten};
ghost use Rattle.mqb_journal.specs.Causes.{FaultsAsSaid, checkpoint_failed};

use crate::durable::{lay, switch_over};
use crate::faults::CheckpointFault;
use crate::journal::Journal;
use mqb_base::Failed;
use mqb_layout::{
    AREA, Layout, MAX_BASE, MOST_COUNT, MOST_HEAD, block_for, block_place, head_behind,
    layout_then, mark_for, mark_place, switch_byte, switch_place,
};
use mqb_outside::Disk;

impl Journal {
    ghost use Rattle.mqb_journal.specs.Journals.{GoesOn, StandsIn, RefusedBase};

    /// Whether the store is too far on for another base.
    pub fn is_too_far(&self) -> bool
        ensures { result ≡ is_too_far self.now }
    {
        self.later.is_none() && head_behind(self.end) > MOST_HEAD || self.count > MOST_COUNT
    }

    // Writes a base in place of all records, by seven calls of the disk: the store is as it was
    // until the second half of them.
    fn write_base<D: Disk>(
        &self,
        disk: &mut D,
        base: &[u8],
        next: Layout,
        block: &[u8],
    ) -> Result<(), Failed>
        requires place { Each (D.view disk.old).reads (λ c. self.now.end < length c) }
        requires near { is_too_far self.now ≡ false }
        requires small { length base.now ≤ MAX_BASE }
        requires next { next ≡ layout_then self.now.later self.now.end (length base.now) }
        requires block { block.now
            ≡ block_for self.now.later self.now.end self.now.count base.now }
        ensures done { (old : Base) (records : List (List ℕ))
            → GoesOn (D.view disk.old) self.now old records
            → OnOk result (Each (D.view disk.new).reads (StandsIn self.now.guid.0 (Some next)
            (next.place + AREA + length base.now) (After self.now.count base.now) [])) }
        ensures moments { (old : Base) (records : List (List ℕ))
            → GoesOn (D.view disk.old) self.now old records → IsSettled (D.view disk.old)
            → LeavesOnly (D.view disk.old) (D.view disk.new)
            (IsOldOrNew self.now.guid.0 old (After self.now.count base.now) records) }
        ensures wrote { OnOk result
            (Follows (IsRewritten self.now.later self.now.end self.now.count base.now)
            (D.view disk.old).reads (D.view disk.new).reads) }
        ensures settled { OnOk result (IsSettled (D.view disk.new)) }
        ensures length { OnOk result (Each (D.view disk.new).reads (λ c. length c
            ≡ next.place + area_size (length base.now))) }
        ensures bound { OnOk result (next.place + area_size (length base.now) ≤ MAX_DISK) }
        ensures reached { (D.view disk.new).reached ≡ (D.view disk.old).reached }
        ensures calls { OnOk result (Counted 7 (D.view disk.old).calls (D.view disk.new).calls) }
        ensures most { AtMost 7 (D.view disk.old).calls (D.view disk.new).calls }
        ensures switch { (D.view disk.new).switch ≡ (D.view disk.old).switch }
        ensures cause { HasCause (D.view disk.old).faults (D.view disk.new).faults result }
    {
        let at = block_place(self.later, self.end, next);
        let (spelled, width) = mark_for(self.later, next);
        lay(disk, at, block, mark_place(self.later), &spelled[..width])?;
        let end = next.place + AREA + base.len() as u64 + 1;
        switch_over(disk, switch_place(self.later), switch_byte(self.later), end)
    }

    /// Writes a base in place of all records, by seven calls of the disk. At `Ok` each crash from
    /// then on leaves it; the space before it is used again.
    pub fn checkpoint<D: Disk>(&mut self, disk: &mut D, base: &[u8]) -> Result<(), CheckpointFault>
        requires { self.old.down ≡ false
            → Each (D.view disk.old).reads (λ c. self.old.end < length c) }
        ensures done { (old : Base) (records : List (List ℕ))
            → GoesOn (D.view disk.old) self.old old records
            → OnOk result
            (GoesOn (D.view disk.new) self.new (After self.old.count base.now) []) }
        // The area, where it is found, and the switch are written, what stands behind the area is
        // cut off, and all else is as it was.
        ensures wrote { OnOk result
            (Follows (IsRewritten self.old.later self.old.end self.old.count base.now)
            (D.view disk.old).reads (D.view disk.new).reads) }
        ensures settled { OnOk result (IsSettled (D.view disk.new)) }

        // A crash at any moment of the call leaves the old base and records, or
        // the new base and none.
        ensures moments { (old : Base) (records : List (List ℕ))
            → GoesOn (D.view disk.old) self.old old records → IsSettled (D.view disk.old)
            → LeavesOnly (D.view disk.old) (D.view disk.new)
            (IsOldOrNew self.old.guid.0 old (After self.old.count base.now) records) }
        ensures down { (result ≡ Err CheckpointFault.Down) ↔ (self.old.down ≡ true) }
        ensures too_far { (result ≡ Err CheckpointFault.TooFar)
            ↔ ((self.old.down ≡ false) × (is_too_far self.old ≡ true)) }
        ensures too_large { (result ≡ Err CheckpointFault.TooLarge)
            ↔ ((self.old.down ≡ false) × (is_too_far self.old ≡ false)
            × (MAX_BASE < length base.now)) }
        ensures checkpointed { OnOk result (self.new ≡ checkpointed self.old (length base.now)) }
        ensures length { OnOk result
            (Each (D.view disk.new).reads (λ c. length c ≡ self.new.end + 1)) }

        // The store is no longer than its head, what was in use before, and two of the new area.
        ensures bound { OnOk result (IfSome self.old.later (λ l. self.new.end + 1
            ≤ l.head + HEAD + (self.old.end + 1 - l.place) + 2 * area_size (length base.now))) }
        ensures refused { RefusedBase result → (disk.new ≡ disk.old) × (self.new ≡ self.old) }
        ensures failed { result ≡ Err CheckpointFault.DiskFault
            → self.new ≡ record self.old { down = true } }
        ensures reached { (D.view disk.new).reached ≡ (D.view disk.old).reached }
        ensures calls { OnOk result (Counted 7 (D.view disk.old).calls (D.view disk.new).calls) }
        ensures most { AtMost 7 (D.view disk.old).calls (D.view disk.new).calls }
        ensures switch { (D.view disk.new).switch ≡ (D.view disk.old).switch }
        ensures cause { FaultsAsSaid checkpoint_failed (D.view disk.old).faults
            (D.view disk.new).faults result }
    {
        if self.down {
            return Err(CheckpointFault::Down);
        }
        if self.is_too_far() {
            return Err(CheckpointFault::TooFar);
        }
        if base.len() > MAX_BASE {
            return Err(CheckpointFault::TooLarge);
        }
        let next = layout_then(self.later, self.end, base.len() as u64);
        let block = block_for(self.alloc, self.later, self.end, next, self.count, base)?;
        let Ok(()) = self.write_base(disk, base, next, &block) else {
            self.down = true;
            return Err(CheckpointFault::DiskFault);
        };
        self.later = Some(next);
        self.end = next.place + AREA + base.len() as u64;
        Ok(())
    }
}
