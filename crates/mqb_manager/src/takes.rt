//! How messages leave places without being sent: each call makes a plan, and has it written.
ghost use Rattle.std.specs.Prelude.{◌≡◌, Err, None};
ghost use Rattle.mqb_manager.specs.Calls.{CallsForRecord, IsCall, RefusesFirst, SaysDown};
ghost use Rattle.mqb_manager.specs.States.{IsOnDisk, IsUp, manager_of};
ghost use Rattle.mqb_model.specs.calls.Purge.{purge};
ghost use Rattle.mqb_model.specs.calls.Take.{take_message};
ghost use Rattle.mqb_model.specs.calls.Tick.{tick};

use crate::manager::Manager;
use crate::writing::answer;
use mqb_base::{Message, Place};
use mqb_model::{PurgeFault, StoreFault, TakeFault, Ticked};
use mqb_outside::Disk;
use mqb_plans::{plan_purge, plan_take, plan_tick};

impl Manager {
    /// Takes the first message of a place that is not due at a moment in seconds, of the greatest priority, and answers it. It is copied once.
    pub fn take<D: Disk>(
        &mut self,
        disk: &mut D,
        place: &Place,
        now: u32,
    ) -> Result<Message, TakeFault>
        requires { IsUp self.old → IsOnDisk (D.view disk.old) self.old }
        ensures call { IsCall TakeFault.Memory TakeFault.DiskFault (D.view disk.old)
            (D.view disk.new) self.old self.new
            (take_message (manager_of self.old) place.now now) result }
        ensures down { SaysDown TakeFault.Down self.old self.new result }
        ensures first { RefusesFirst (take_message (manager_of self.old) place.now now) result }
        ensures untouched { (take_message (manager_of self.old) place.now now).entry ≡ None
            → disk.new ≡ disk.old }
        ensures memory { result ≡ Err TakeFault.Memory → disk.new ≡ disk.old }
        ensures calls { CallsForRecord (D.view disk.old) (D.view disk.new)
            (take_message (manager_of self.old) place.now now).entry result }
    {
        self.is_valid();
        if self.is_down() {
            return Err(TakeFault::Down);
        }
        match plan_take(self.state().contents(), place, now) {
            Ok(plan) => {
                let entry = plan.entry();
                let written = self.write(disk, entry.as_ref(), plan.work());
                answer(
                    written,
                    plan.message,
                    TakeFault::Memory,
                    TakeFault::DiskFault,
                )
            }
            Err(fault) => Err(fault),
        }
    }

    /// Empties a place at a moment in seconds, and answers how many messages left.
    pub fn purge<D: Disk>(
        &mut self,
        disk: &mut D,
        place: &Place,
        now: u32,
    ) -> Result<u32, PurgeFault>
        requires { IsUp self.old → IsOnDisk (D.view disk.old) self.old }
        ensures call { IsCall PurgeFault.Memory PurgeFault.DiskFault (D.view disk.old)
            (D.view disk.new) self.old self.new
            (purge (manager_of self.old) place.now now) result }
        ensures down { SaysDown PurgeFault.Down self.old self.new result }
        ensures first { RefusesFirst (purge (manager_of self.old) place.now now) result }
        ensures untouched { (purge (manager_of self.old) place.now now).entry ≡ None
            → disk.new ≡ disk.old }
        ensures memory { result ≡ Err PurgeFault.Memory → disk.new ≡ disk.old }
        ensures calls { CallsForRecord (D.view disk.old) (D.view disk.new)
            (purge (manager_of self.old) place.now now).entry result }
    {
        self.is_valid();
        if self.is_down() {
            return Err(PurgeFault::Down);
        }
        match plan_purge(self.state().contents(), place, now) {
            Ok(plan) => {
                let entry = plan.entry();
                let written = self.write(disk, entry.as_ref(), plan.work());
                answer(
                    written,
                    plan.count,
                    PurgeFault::Memory,
                    PurgeFault::DiskFault,
                )
            }
            Err(fault) => Err(fault),
        }
    }

    /// Removes what is due at a moment in seconds, and answers how many messages left.
    pub fn tick<D: Disk>(&mut self, disk: &mut D, now: u32) -> Result<Ticked, StoreFault>
        requires { IsUp self.old → IsOnDisk (D.view disk.old) self.old }
        ensures call { IsCall StoreFault.Memory StoreFault.DiskFault (D.view disk.old)
            (D.view disk.new) self.old self.new (tick (manager_of self.old) now) result }
        ensures down { SaysDown StoreFault.Down self.old self.new result }
        ensures untouched { (tick (manager_of self.old) now).entry ≡ None → disk.new ≡ disk.old }
        ensures memory { result ≡ Err StoreFault.Memory → disk.new ≡ disk.old }
        ensures calls { CallsForRecord (D.view disk.old) (D.view disk.new)
            (tick (manager_of self.old) now).entry result }
    {
        self.is_valid();
        if self.is_down() {
            return Err(StoreFault::Down);
        }
        let plan = plan_tick(self.state().contents(), now);
        let entry = plan.entry();
        let written = self.write(disk, entry.as_ref(), plan.work());
        answer(written, plan.due, StoreFault::Memory, StoreFault::DiskFault)
    }
}
