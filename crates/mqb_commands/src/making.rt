ghost use Rattle.std.specs.Prelude.{◌≡◌, ◌≤◌};
ghost use Rattle.mqb_commands.specs.Causes.{DiskFaultHasCause};
ghost use Rattle.mqb_commands.specs.Said.{Inits, Makes};

use crate::opening::open_status;
use crate::{Answer, Status};
use mqb_answers::Manager;
use mqb_base::{Identity, Memory};
use mqb_outside::Disk;
use mqb_transcript::make_script;
use std::alloc::Global;

/// A script of some orders.
pub fn make(alloc: Global, orders: u32) -> Answer
    requires least { 1 ≤ orders }
    requires most { orders ≤ 10000 }
    ensures { Makes orders result.text.items result.end }
{
    let mut text = Vec::new(alloc);
    match make_script(alloc, orders, &mut text) {
        Ok(()) => Answer::new(text, Status::Done),
        Err(Memory) => Answer::memory(alloc),
    }
}

/// Makes an empty disk the store of a manager.
pub fn init<D: Disk>(alloc: Global, disk: &mut D, identity: &Identity) -> Answer
    ensures inits { Inits identity.now (D.view disk.old) (D.view disk.new)
        result.text.items result.end }
    ensures cause { DiskFaultHasCause (D.view disk.old).faults (D.view disk.new).faults
        result.end }
{
    let Ok(text) = Vec::from_slice(alloc, b"ok\n") else {
        return Answer::memory(alloc);
    };
    match Manager::format(alloc, disk, identity) {
        Ok(manager) => {
            manager.close();
            Answer::new(text, Status::Done)
        }
        Err(fault) => Answer::fault(alloc, open_status(fault)),
    }
}
