ghost use Rattle.std.specs.Prelude.{◌≡◌, Err, OnOk, false};
ghost use Rattle.mqb_outside.specs.Disk.{Counted, IsSettled};
ghost use Rattle.mqb_manager.specs.Calls.{SaysDown};
ghost use Rattle.mqb_manager.specs.Checkpoints.{IsCheckpoint, IsRewritten, checkpoint_of};
ghost use Rattle.mqb_manager.specs.States.{IsOnDisk, IsUp};

use crate::manager::Manager;
use mqb_model::failed_is_valid;
use mqb_outside::Disk;
use mqb_store::CheckpointFault;

impl Manager {
    /// Writes the state as a base in place of all records. What the manager has stays, express messages and its session included. Where the disk fails, the
    /// connection is forgotten, and no record is in doubt.
    pub fn checkpoint<D: Disk>(&mut self, disk: &mut D) -> Result<(), CheckpointFault>
        requires on { IsUp self.old → IsOnDisk (D.view disk.old) self.old }
        ensures call { IsCheckpoint (D.view disk.old) (D.view disk.new) self.old self.new result }
        ensures down { SaysDown CheckpointFault.Down self.old self.new result }
        ensures settled { OnOk result (IsSettled (D.view disk.new)) }
        ensures rewritten { OnOk result (IsRewritten self.old self.new) }
        ensures untouched { (checkpoint_of self.old).touches ≡ false → disk.new ≡ disk.old }
        ensures memory { result ≡ Err CheckpointFault.Memory → disk.new ≡ disk.old }
        ensures calls { OnOk result (Counted 7 (D.view disk.old).calls (D.view disk.new).calls) }
    {
        failed_is_valid();
        self.is_valid();
        if self.is_down() {
            return Err(CheckpointFault::Down);
        }
        match self.store.checkpoint(disk) {
            Ok(()) => Ok(()),
            Err(CheckpointFault::TooFar) => Err(CheckpointFault::TooFar),
            Err(CheckpointFault::TooLarge) => Err(CheckpointFault::TooLarge),
            Err(CheckpointFault::Memory) => Err(CheckpointFault::Memory),
            Err(CheckpointFault::DiskFault) => {
                self.session = None;
                self.cursors.clear();
                self.owes.clear();
                Err(CheckpointFault::DiskFault)
            }
            Err(CheckpointFault::Down) => unreachable!(),
        }
    }
}
