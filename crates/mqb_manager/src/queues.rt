ghost use Rattle.std.specs.Prelude.{◌≡◌, ◌≤◌, Err, None, length};
ghost use Rattle.mqb_entries.specs.SpelledEntries.{spelled};
ghost use Rattle.mqb_entries.specs.declared.entry.Entry.TheVariants as form;
ghost use Rattle.mqb_manager.specs.Calls.{CallsForRecord, IsCall, RefusesFirst, SaysDown};
ghost use Rattle.mqb_manager.specs.States.{IsOnDisk, IsUp, manager_of};
ghost use Rattle.mqb_model.specs.calls.CreateQueue.{create_queue, create_refusal};
ghost use Rattle.mqb_model.specs.declared.limits.TheConstants.{MAX_RECORD};
ghost use Rattle.mqb_model.specs.records.Peer.{next_queue};
ghost use Rattle.mqb_model.specs.records.Reading.{plan_of};

use crate::manager::Manager;
use crate::writing::{answer, calls_can_be_written};
use mqb_base::QueuePlan;
use mqb_entries::{Entry, NameSlice, QueueView};
use mqb_model::{CreateFault, MAX_QUEUES};
use mqb_outside::Disk;
use mqb_store::{ExpressWork, queue_there};

/// A queue as an entry shows it.
fn view_of(number: u32, plan: &QueuePlan) -> QueueView<'_>
    ensures number { result.number ≡ number }
    ensures plan { plan_of result ≡ plan.now }
    ensures size { length (spelled (form.CreateQueue result)) ≤ MAX_RECORD }
{
    let name = NameSlice::of(&plan.name);
    let _bytes = name.as_slice();
    QueueView {
        name,
        number,
        public: plan.public,
        transactional: plan.transactional,
        quota: plan.quota,
        journal: plan.journal,
    }
}

impl Manager {
    fn create_refusal(&self, plan: &QueuePlan) -> Option<CreateFault>
        ensures { result ≡ create_refusal (manager_of self.now) plan.now }
    {
        if self.is_down() {
            return Some(CreateFault::Down);
        }
        let contents = self.store.state().contents();
        if queue_there(contents, plan) {
            return Some(CreateFault::QueueThere);
        }
        if contents.queues().count() as usize >= MAX_QUEUES {
            return Some(CreateFault::TooManyQueues);
        }
        None
    }

    fn next_queue(&self) -> u32
        ensures { result ≡ next_queue self.now.store.state }
    {
        self.store.state().contents().queues().count() + 1
    }

    /// Makes a queue, and answers its number, which counts from 1.
    pub fn create_queue<D: Disk>(
        &mut self,
        disk: &mut D,
        plan: &QueuePlan,
    ) -> Result<u32, CreateFault>
        requires { IsUp self.old → IsOnDisk (D.view disk.old) self.old }
        ensures call { IsCall CreateFault.Memory CreateFault.DiskFault (D.view disk.old)
            (D.view disk.new) self.old self.new
            (create_queue (manager_of self.old) plan.now) result }
        ensures down { SaysDown CreateFault.Down self.old self.new result }
        ensures first { RefusesFirst (create_queue (manager_of self.old) plan.now) result }
        ensures untouched { (create_queue (manager_of self.old) plan.now).entry ≡ None
            → disk.new ≡ disk.old }
        ensures memory { result ≡ Err CreateFault.Memory → disk.new ≡ disk.old }
        ensures calls { CallsForRecord (D.view disk.old) (D.view disk.new)
            (create_queue (manager_of self.old) plan.now).entry result }
    {
        calls_can_be_written();
        self.is_valid();
        if let Some(fault) = self.create_refusal(plan) {
            return Err(fault);
        }
        let number = self.next_queue();
        let entry = Entry::CreateQueue(view_of(number, plan));
        let written = self.write(disk, Some(&entry), ExpressWork::Nothing);
        answer(written, number, CreateFault::Memory, CreateFault::DiskFault)
    }
}
