ghost use Rattle.std.specs.Prelude.{◌≡◌, Err, None, Some};
ghost use Rattle.mqb_entries.specs.declared.entry.Entry.TheVariants as form;
ghost use Rattle.mqb_manager.specs.Calls.{CallsForRecord, IsCall, SaysDown};
ghost use Rattle.mqb_manager.specs.States.{IsOnDisk, IsUp, manager_of};
ghost use Rattle.mqb_manager.specs.Writing.{IsReady, WritesEntry};
ghost use Rattle.mqb_model.specs.calls.Commit.{commit};
ghost use Rattle.mqb_model.specs.managers.Beside.{Nothing};

use crate::manager::Manager;
use crate::writing::{answer, calls_can_be_written};
use mqb_base::Op;
use mqb_choosing::ops_fit;
use mqb_entries::{Entry, Ops};
use mqb_model::{CommitFault, Committed};
use mqb_outside::Disk;
use mqb_store::{ExpressWork, WriteFault};
use mqb_trying::{Trial, try_ops};

impl Manager {
    /// Writes the record of a transaction whose ops passed.
    fn write_trial<D: Disk>(
        &mut self,
        disk: &mut D,
        trial: &Trial,
        now: u32,
    ) -> Result<(), WriteFault>
        requires { IsReady (D.view disk.old) self.old
            (Some (form.Commit now trial.now.ops)) Nothing }
        ensures { WritesEntry (D.view disk.old) (D.view disk.new) (disk.new ≡ disk.old) self.old
            self.new (Some (form.Commit now trial.now.ops)) Nothing result }
    {
        let views = trial.ops(self.alloc)?;
        let entry = Entry::Commit {
            now,
            ops: Ops::of(&views),
        };
        self.write(disk, Some(&entry), ExpressWork::Nothing)
    }

    /// Makes a transaction of ops, and answers what became of each of them.
    pub fn commit<D: Disk>(
        &mut self,
        disk: &mut D,
        ops: &[Op],
        now: u32,
    ) -> Result<Committed, CommitFault>
        requires { IsUp self.old → IsOnDisk (D.view disk.old) self.old }
        ensures call { IsCall CommitFault.Memory CommitFault.DiskFault (D.view disk.old)
            (D.view disk.new) self.old self.new (commit (manager_of self.old) ops.now now) result }
        ensures down { SaysDown CommitFault.Down self.old self.new result }
        ensures untouched { (commit (manager_of self.old) ops.now now).entry ≡ None
            → disk.new ≡ disk.old }
        ensures memory { result ≡ Err CommitFault.Memory → disk.new ≡ disk.old }
        ensures calls { CallsForRecord (D.view disk.old) (D.view disk.new)
            (commit (manager_of self.old) ops.now now).entry result }
    {
        calls_can_be_written();
        ops_fit(ops);
        self.is_valid();
        if self.is_down() {
            return Err(CommitFault::Down);
        }
        let contents = self.store.state().contents();
        let trial = try_ops(self.alloc, contents, ops, now)?;
        let written = self.write_trial(disk, &trial, now);
        answer(
            written,
            trial.into_committed(),
            CommitFault::Memory,
            CommitFault::DiskFault,
        )
    }
}
