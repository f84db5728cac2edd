//! The state of a store is written anew as one base.
ghost use Rattle.std.specs.Prelude.{◌≡◌, ◌↔◌, [], Err, None, OnOk, false, length, true};
ghost use Rattle.mqb_outside.specs.Disk.{AtMost, Counted, IsSettled, LeavesOnly};
ghost use Rattle.mqb_journal.specs.Causes.{FaultsAsSaid, checkpoint_failed};
ghost use Rattle.mqb_journal.specs.Journals.{RefusedBase};
ghost use Rattle.mqb_journal.specs.States.{checkpointed, is_too_far};
ghost use Rattle.mqb_snapshot.specs.Snapshot.{snapshot};
ghost use Rattle.mqb_store_laws.specs.Checkpoints.{is_large};
ghost use Rattle.mqb_store.specs.States.{IsSameStore, IsStoredOn, IsUp};
ghost use Rattle.mqb_store_laws.specs.Images.{Opens};

use crate::store::Store;
use mqb_journal::CheckpointFault;
use mqb_outside::Disk;
use mqb_store_laws::{bases_begin, states_are_own};

impl Store {
    /// Writes the state as a base in place of all records, by seven calls of the disk, before which
    /// all memory is taken. State and lines stay.
    ///
    /// # Errors
    /// `Down`, `TooFar`, `TooLarge` and `Memory`: nothing has changed. `DiskFault`: the store is
    /// down, and no entry is in doubt.
    pub fn checkpoint<D: Disk>(&mut self, disk: &mut D) -> Result<(), CheckpointFault>
        requires on { IsUp self.old → IsStoredOn (D.view disk.old) self.old }
        ensures on { OnOk result (IsStoredOn (D.view disk.new) self.new) }
        ensures state { self.new.state ≡ self.old.state }
        ensures lines { self.new.lines ≡ self.old.lines }
        ensures up { OnOk result (IsUp self.new) }
        ensures guid { self.new.journal.guid ≡ self.old.journal.guid }
        ensures count { self.new.journal.count ≡ self.old.journal.count }
        ensures checkpointed { OnOk result (self.new.journal
            ≡ checkpointed self.old.journal (length (snapshot self.old.state))) }
        ensures settled { OnOk result (IsSettled (D.view disk.new)) }

        // A crash at any moment of the call leaves the state from before it, which
        // is the state after it.
        ensures moments { IsStoredOn (D.view disk.old) self.old → IsSettled (D.view disk.old)
            → LeavesOnly (D.view disk.old) (D.view disk.new)
            (Opens self.old.journal self.old.state None) }
        ensures down { (result ≡ Err CheckpointFault.Down) ↔ (self.old.journal.down ≡ true) }
        ensures too_far { (result ≡ Err CheckpointFault.TooFar)
            ↔ ((self.old.journal.down ≡ false) × (is_too_far self.old.journal ≡ true)) }
        ensures too_large { result ≡ Err CheckpointFault.TooLarge
            → is_large self.old.state ≡ true }
        ensures small { OnOk result (is_large self.old.state ≡ false) }
        ensures small_failed { result ≡ Err CheckpointFault.DiskFault
            → is_large self.old.state ≡ false }
        ensures refused { RefusedBase result
            → (disk.new ≡ disk.old) × IsSameStore self.old self.new }
        ensures doubt { result ≡ Err CheckpointFault.Down → self.new.entry ≡ self.old.entry }
        ensures failed { result ≡ Err CheckpointFault.DiskFault
            → (self.new.journal ≡ record self.old.journal { down = true })
            × (self.new.entry ≡ []) }
        ensures calls { OnOk result (Counted 7 (D.view disk.old).calls (D.view disk.new).calls) }
        ensures most { AtMost 7 (D.view disk.old).calls (D.view disk.new).calls }
        ensures reached { (D.view disk.new).reached ≡ (D.view disk.old).reached }
        ensures switch { (D.view disk.new).switch ≡ (D.view disk.old).switch }
        ensures cause { FaultsAsSaid checkpoint_failed (D.view disk.old).faults
            (D.view disk.new).faults result }
    {
        bases_begin();
        states_are_own();
        if self.journal.is_down() {
            return Err(CheckpointFault::Down);
        }
        if self.journal.is_too_far() {
            return Err(CheckpointFault::TooFar);
        }
        let mut base = Vec::new(self.alloc);
        self.state.spell(&mut base)?;
        self.block.clear();
        self.journal.checkpoint(disk, &base)
    }
}
