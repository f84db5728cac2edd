ghost use Rattle.std.specs.Option.{option_map_or};
ghost use Rattle.std.specs.Prelude.{◌+◌, ◌≡◌, ◌≢◌, Err, IfSome, IsSomeAnd, None, OnOk, Some};
ghost use Rattle.std.specs.Prelude.{option_copied, true};
ghost use Rattle.mqb_outside.specs.Disk.{Counted, IsSettled, LeavesOnly};
ghost use Rattle.mqb_state.specs.Work.{beside_of};
ghost use Rattle.mqb_journal.specs.Causes.{FaultsAsSaid};
ghost use Rattle.mqb_model.specs.records.Reading.{record_in, record_of};
ghost use Rattle.mqb_state.specs.Together.{LeavesValid};
ghost use Rattle.mqb_store.specs.States.{IsSameStore, IsStoredOn, IsUp};
ghost use Rattle.mqb_store.specs.Writing.{CanWrite, LeavesStore, change_in, lines_then};
ghost use Rattle.mqb_store.specs.Writing.{write_failed, written};
ghost use Rattle.mqb_entries.specs.SpelledEntries.{spelled};
ghost use Rattle.mqb_store_laws.specs.Images.{Opens};
ghost use Rattle.mqb_store_laws.specs.Writing.{WritesOne};

use crate::attempting::attempt;
use crate::faults::WriteFault;
use crate::spelling::spell;
use crate::store::Store;
use mqb_entries::Entry;
use mqb_outside::Disk;
use mqb_state::ExpressWork;
use mqb_store_laws::records_join;

impl Store {
    // Without a record: what is done beside it, and the disk is not called.
    fn change_beside(&mut self, work: ExpressWork) -> Result<(), WriteFault>
        requires { LeavesValid self.old.state None (beside_of work) }
        ensures state { OnOk result
            (self.new.state ≡ written self.old.state None (beside_of work)) }
        ensures lines { self.new.lines ≡ self.old.lines }
        ensures journal { self.new.journal ≡ self.old.journal }
        ensures refused { result ≡ Err WriteFault.Memory → IsSameStore self.old self.new }
        ensures never { result ≢ Err WriteFault.DiskFault }
    {
        let tried = attempt(&mut self.state, None, work)?;
        drop(tried.into_lines());
        Ok(())
    }

    // With a record. What it does is done before the disk is called, and taken
    // back where that fails.
    fn write_entry<D: Disk>(
        &mut self,
        disk: &mut D,
        entry: &Entry<'_>,
        work: ExpressWork,
    ) -> Result<(), WriteFault>
        requires up { IsUp self.old }
        requires on { IsStoredOn (D.view disk.old) self.old }
        requires can { CanWrite self.old.state entry.now }
        requires valid { LeavesValid self.old.state (Some entry.now) (beside_of work) }
        requires stored { LeavesStore self.old.state (Some entry.now) (beside_of work) }
        ensures on { OnOk result (IsStoredOn (D.view disk.new) self.new) }
        ensures state { OnOk result
            (self.new.state ≡ written self.old.state (Some entry.now) (beside_of work)) }
        ensures lines { OnOk result
            (self.new.lines ≡ lines_then self.old.state self.old.lines (Some entry.now)) }
        ensures up { OnOk result (IsUp self.new) }
        ensures guid { self.new.journal.guid ≡ self.old.journal.guid }
        ensures count { OnOk result (self.new.journal.count ≡ self.old.journal.count + 1) }
        ensures settled { OnOk result (IsSettled (D.view disk.new)) }
        ensures wrote { WritesOne (D.view disk.old) (D.view disk.new) self.old.journal
            self.new.journal self.new.entry (record_in entry.now) }
        ensures spelled { OnOk result (self.new.entry ≡ spelled entry.now) }
        ensures moments { IsSettled (D.view disk.old)
            → LeavesOnly (D.view disk.old) (D.view disk.new)
            (Opens self.old.journal self.old.state (record_in entry.now)) }
        ensures refused { result ≡ Err WriteFault.Memory
            → (disk.new ≡ disk.old) × IsSameStore self.old self.new }
        ensures failed { result ≡ Err WriteFault.DiskFault
            → (self.new.state ≡ self.old.state) × (self.new.lines ≡ self.old.lines)
            × (self.new.journal ≡ record self.old.journal { down = true }) }
        ensures doubt { result ≡ Err WriteFault.DiskFault
            → record_of self.new.entry ≡ record_in entry.now }
        ensures kept { result ≡ Err WriteFault.DiskFault → self.new.entry ≡ spelled entry.now }
        ensures calls { OnOk result (Counted 4 (D.view disk.old).calls (D.view disk.new).calls) }
        ensures switch { (D.view disk.new).switch ≡ (D.view disk.old).switch }
        ensures cause { FaultsAsSaid write_failed (D.view disk.old).faults
            (D.view disk.new).faults result }
    {
        records_join();
        self.state.is_valid();
        spell(entry, &mut self.block)?;
        let tried = attempt(&mut self.state, Some(entry), work)?;
        match self.journal.append_block(disk, &self.block) {
            Ok(()) => {
                self.lines = tried.into_lines();
                Ok(())
            }
            Err(_) => {
                self.state.take_back(tried);
                Err(WriteFault::DiskFault)
            }
        }
    }

    /// Writes a record, where there is one, and does what is done beside it. All memory is taken
    /// before the first call of the disk.
    ///
    /// # Errors
    /// `Memory`: nothing has changed. `DiskFault`: the state stays, the store is down, and a crash
    /// may leave the record or not.
    pub fn write<D: Disk>(
        &mut self,
        disk: &mut D,
        entry: Option<&Entry<'_>>,
        work: ExpressWork,
    ) -> Result<(), WriteFault>
        requires up { IsUp self.old }
        requires on { IsStoredOn (D.view disk.old) self.old }
        requires can { IfSome (option_copied entry) (CanWrite self.old.state) }
        requires valid { LeavesValid self.old.state (option_copied entry) (beside_of work) }
        requires stored { LeavesStore self.old.state (option_copied entry) (beside_of work) }
        ensures on { OnOk result (IsStoredOn (D.view disk.new) self.new) }
        ensures state { OnOk result (self.new.state
            ≡ written self.old.state (option_copied entry.entry) (beside_of work)) }
        ensures lines { OnOk result (self.new.lines
            ≡ lines_then self.old.state self.old.lines (option_copied entry.entry)) }
        ensures up { OnOk result (IsUp self.new) }
        ensures guid { self.new.journal.guid ≡ self.old.journal.guid }
        ensures count { OnOk result (self.new.journal.count
            ≡ self.old.journal.count + option_map_or (λ _. 1) (option_copied entry.entry) 0) }
        ensures settled { IsSettled (D.view disk.old)
            → OnOk result (IsSettled (D.view disk.new)) }

        // Byte for byte: this entry, and nothing else.
        ensures wrote { WritesOne (D.view disk.old) (D.view disk.new) self.old.journal
            self.new.journal self.new.entry (change_in (option_copied entry.entry)) }
        ensures spelled { OnOk result (IfSome (option_copied entry.entry)
            (λ e. self.new.entry ≡ spelled e)) }

        // A crash at any moment of the call leaves the state from before it, or the one
        // that the record leaves.
        ensures moments { IsSettled (D.view disk.old)
            → LeavesOnly (D.view disk.old) (D.view disk.new)
            (Opens self.old.journal self.old.state (change_in (option_copied entry.entry))) }
        ensures refused { result ≡ Err WriteFault.Memory
            → (disk.new ≡ disk.old) × IsSameStore self.old self.new }
        ensures failed { result ≡ Err WriteFault.DiskFault
            → (self.new.state ≡ self.old.state) × (self.new.lines ≡ self.old.lines)
            × (self.new.journal ≡ record self.old.journal { down = true }) }

        // What may be on the disk or not.
        ensures doubt { result ≡ Err WriteFault.DiskFault
            → IsSomeAnd (option_copied entry.entry)
            (λ e. record_of self.new.entry ≡ record_in e) }
        ensures kept { result ≡ Err WriteFault.DiskFault
            → IsSomeAnd (option_copied entry.entry) (λ e. self.new.entry ≡ spelled e) }
        ensures untouched { option_copied entry.entry ≡ None → disk.new ≡ disk.old }
        ensures calls { OnOk result (IfSome (option_copied entry.entry)
            (λ _. Counted 4 (D.view disk.old).calls (D.view disk.new).calls)) }
        ensures switch { (D.view disk.new).switch ≡ (D.view disk.old).switch }
        ensures cause { FaultsAsSaid write_failed (D.view disk.old).faults
            (D.view disk.new).faults result }
    {
        match entry {
            Some(entry) => self.write_entry(disk, entry, work),
            None => self.change_beside(work),
        }
    }
}
