//! One step of a worker.
ghost use Rattle.std.specs.Prelude.{◌≡◌, Err, IfErr, IfOk, None};
ghost use Rattle.mqb_replies.specs.mqb_manager.Calls.{CallsForRecord, IsCall, SaysDown};
ghost use Rattle.mqb_replies.specs.mqb_manager.States.{IsOnDisk, IsUp, manager_of};
ghost use Rattle.mqb_worker.specs.Refusals.{RefusesStep};
ghost use Rattle.mqb_worker.specs.Steps.{TellsWork, stepped};

use crate::handlers::Handler;
use crate::ops::work_with;
use crate::telling::{Step, step_answer};
use crate::waiting::{is_idle, waiting_in};
use mqb_base::Name;
use mqb_model::{CommitFault, refused_is_same};
use mqb_outside::Disk;
use mqb_replies::Manager;
use std::alloc::Global;

/// Takes the first message of a queue that is not due, at a moment in seconds, and sends what the
/// handler makes of its body to the queue that the message names for that, in one transaction.
/// Where nothing waits it does nothing.
///
/// # Errors
/// Those of `Manager::commit`: of the take at index 0 and of the reply at index 1. Message and
/// queue are as before.
pub fn step<D: Disk, H: Handler>(
    alloc: Global,
    disk: &mut D,
    manager: &mut Manager,
    queue: &Name,
    handler: &H,
    now: u32,
) -> Result<Step, CommitFault>
    requires { IsUp manager.old → IsOnDisk (D.view disk.old) manager.old }
    ensures call { IsCall CommitFault.Memory CommitFault.DiskFault (D.view disk.old)
        (D.view disk.new) manager.old manager.new
        (stepped (manager_of manager.old) queue.now (H.meaning handler.now) now) result }
    ensures down { SaysDown CommitFault.Down manager.old manager.new result }
    ensures done { IfOk result (TellsWork manager.old.store.state queue.now now) }
    ensures refused { IfErr result (RefusesStep manager.old.store.state queue.now now) }
    ensures untouched { (stepped (manager_of manager.old) queue.now (H.meaning handler.now)
        now).entry ≡ None → disk.new ≡ disk.old }
    ensures memory { result ≡ Err CommitFault.Memory → disk.new ≡ disk.old }
    ensures calls { CallsForRecord (D.view disk.old) (D.view disk.new)
        (stepped (manager_of manager.old) queue.now (H.meaning handler.now) now).entry result }
{
    refused_is_same();
    manager.is_valid();
    if manager.is_down() {
        return Err(CommitFault::Down);
    }
    let contents = manager.state().contents();
    let waiting = waiting_in(contents, queue, now);
    if is_idle(contents, queue, now, waiting) {
        return Ok(Step::Idle);
    }
    let Ok(ops) = work_with(alloc, queue, handler, waiting) else {
        return Err(CommitFault::Memory);
    };
    step_answer(manager.commit(disk, ops.as_slice(), now))
}
