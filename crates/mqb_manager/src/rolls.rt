ghost use Rattle.std.specs.Prelude.{◌≡◌, Err, None, true};
ghost use Rattle.mqb_manager.specs.Calls.{CallsForRecord, IsCall, SaysDown};
ghost use Rattle.mqb_manager.specs.States.{IsOnDisk, IsUp, manager_of};
ghost use Rattle.mqb_model.specs.calls.SetRoll.{set_roll};
ghost use Rattle.mqb_model.specs.records.Applying.{is_roll};

use crate::manager::Manager;
use crate::writing::{answer, calls_can_be_written};
use mqb_entries::Entry;
use mqb_model::StoreFault;
use mqb_outside::Disk;
use mqb_store::ExpressWork;

impl Manager {
    /// Sets the count of messages at which a sequence is full from now on.
    pub fn set_roll<D: Disk>(&mut self, disk: &mut D, count: u32) -> Result<(), StoreFault>
        requires roll { is_roll count ≡ true }
        requires on { IsUp self.old → IsOnDisk (D.view disk.old) self.old }
        ensures call { IsCall StoreFault.Memory StoreFault.DiskFault (D.view disk.old)
            (D.view disk.new) self.old self.new (set_roll (manager_of self.old) count) result }
        ensures down { SaysDown StoreFault.Down self.old self.new result }
        ensures untouched { (set_roll (manager_of self.old) count).entry ≡ None
            → disk.new ≡ disk.old }
        ensures memory { result ≡ Err StoreFault.Memory → disk.new ≡ disk.old }
        ensures calls { CallsForRecord (D.view disk.old) (D.view disk.new)
            (set_roll (manager_of self.old) count).entry result }
    {
        calls_can_be_written();
        self.is_valid();
        if self.is_down() {
            return Err(StoreFault::Down);
        }
        let entry = Entry::Roll { count };
        let written = self.write(disk, Some(&entry), ExpressWork::Nothing);
        answer(written, (), StoreFault::Memory, StoreFault::DiskFault)
    }
}
