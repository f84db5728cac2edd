ghost use Rattle.std.specs.Prelude.{◌≡◌, Err, None};
ghost use Rattle.mqb_manager.specs.Calls.{CallsForRecord, IsCall, SaysDown};
ghost use Rattle.mqb_manager.specs.States.{IsOnDisk, IsUp, manager_of};
ghost use Rattle.mqb_model.specs.calls.Send.{send};

use crate::manager::Manager;
use crate::writing::{answer, calls_can_be_written};
use mqb_base::{Draft, MessageId};
use mqb_model::SendFault;
use mqb_outside::Disk;
use mqb_plans::{Sending, plan_send};

impl Manager {
    /// Sends a message of what its sender chose, outside of transactions: a recoverable one by a record, and an express one without.
    pub fn send<D: Disk>(
        &mut self,
        disk: &mut D,
        draft: &Draft,
        recoverable: bool,
        now: u32,
    ) -> Result<MessageId, SendFault>
        requires { IsUp self.old → IsOnDisk (D.view disk.old) self.old }
        ensures call { IsCall SendFault.Memory SendFault.DiskFault (D.view disk.old)
            (D.view disk.new) self.old self.new
            (send (manager_of self.old) draft.now recoverable now) result }
        ensures down { SaysDown SendFault.Down self.old self.new result }
        ensures untouched { (send (manager_of self.old) draft.now recoverable now).entry ≡ None
            → disk.new ≡ disk.old }
        ensures memory { result ≡ Err SendFault.Memory → disk.new ≡ disk.old }
        ensures calls { CallsForRecord (D.view disk.old) (D.view disk.new)
            (send (manager_of self.old) draft.now recoverable now).entry result }
    {
        calls_can_be_written();
        self.is_valid();
        if self.is_down() {
            return Err(SendFault::Down);
        }
        let contents = self.store.state().contents();
        let sending = plan_send(contents, draft, recoverable, now)?;
        let Sending { id, sent, work } = sending;
        let entry = sent.entry();
        let written = self.write(disk, entry.as_ref(), work);
        answer(written, id, SendFault::Memory, SendFault::DiskFault)
    }
}
