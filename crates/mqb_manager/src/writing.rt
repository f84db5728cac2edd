//! A record is written and what a connection knows is kept, or forgotten where the disk failed.
ghost use Rattle.std.specs.Prelude.{◌≡◌, option_copied};
ghost use Rattle.mqb_store.specs.Work.{beside_of};
ghost use Rattle.mqb_manager.specs.States.{manager_of};
ghost use Rattle.mqb_manager.specs.Writing.{IsReady, WritesEntry, answered};
ghost use Rattle.mqb_model.specs.laws.Durable.{CallsLeaveStore};
ghost use Rattle.mqb_model.specs.laws.Fitting.{RecordsFit, RecordsAreSpelled};
ghost use Rattle.mqb_model.specs.laws.Keeping.{CallsKeepValid};
ghost use Rattle.mqb_model.specs.managers.Valid.{IsValidManager};

use crate::manager::Manager;
use mqb_entries::Entry;
use mqb_model::{calls_keep_valid, calls_leave_store, records_are_spelled, records_fit};
use mqb_outside::Disk;
use mqb_store::{ExpressWork, WriteFault};

/// What holds of the calls of a valid manager, by which each of them can be written.
pub(crate) fn calls_can_be_written()
    ensures fit { RecordsFit }
    ensures spelled { RecordsAreSpelled }
    ensures valid { CallsKeepValid }
    ensures stored { CallsLeaveStore }
{
    records_fit();
    records_are_spelled();
    calls_keep_valid();
    calls_leave_store();
}

/// What a call answers whose record was written or not.
pub(crate) fn answer<V: Drop, E: Drop>(
    written: Result<(), WriteFault>,
    value: V,
    memory: E,
    disk_fault: E,
) -> Result<V, E>
    ensures { result ≡ answered written value memory disk_fault }
{
    match written {
        Ok(()) => Ok(value),
        Err(WriteFault::Memory) => Err(memory),
        Err(WriteFault::DiskFault) => Err(disk_fault),
    }
}

impl Manager {
    /// A manager is valid. This says so, and does nothing.
    pub fn is_valid(&self)
        ensures { IsValidManager (manager_of self.now) }
    {
        let _cursors = &self.cursors;
    }

    /// Writes an entry, where there is one, and does what is done beside it. New rows have no number and owe nothing yet. Where the disk fails, the
    /// connection is forgotten.
    pub(crate) fn write<D: Disk>(
        &mut self,
        disk: &mut D,
        entry: Option<&Entry<'_>>,
        work: ExpressWork,
    ) -> Result<(), WriteFault>
        requires { IsReady (D.view disk.old) self.old (option_copied entry) (beside_of work) }
        ensures { WritesEntry (D.view disk.old) (D.view disk.new) (disk.new ≡ disk.old) self.old
            self.new (option_copied entry.entry) (beside_of work) result }
    {
        match self.store.write(disk, entry, work) {
            Ok(()) => Ok(()),
            Err(WriteFault::Memory) => Err(WriteFault::Memory),
            Err(WriteFault::DiskFault) => {
                self.session = None;
                self.cursors.clear();
                self.owes.clear();
                Err(WriteFault::DiskFault)
            }
        }
    }
}
