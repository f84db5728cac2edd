ghost use Rattle.mqb_commands.specs.Causes.{DiskFaultHasCause};
ghost use Rattle.mqb_commands.specs.Outputs.{IsLookEnd};
ghost use Rattle.mqb_commands.specs.Said.{Lists, ListsOn};

use crate::opening::open;
use crate::{Answer, Status};
use mqb_answers::Manager;
use mqb_base::Memory;
use mqb_listing::print;
use mqb_outside::Disk;
use std::alloc::Global;

/// What a manager holds.
pub fn answer_list(alloc: Global, manager: &Manager) -> Answer
    ensures lists { ListsOn manager.now result.text.items result.end }
    ensures ends { IsLookEnd result.end }
{
    let mut text = Vec::new(alloc);
    match print(alloc, manager.state().contents(), &mut text) {
        Ok(()) => Answer::new(text, Status::Done),
        Err(Memory) => Answer::memory(alloc),
    }
}

/// What the manager of a store holds.
pub fn list<D: Disk>(alloc: Global, disk: &mut D) -> Answer
    ensures lists { Lists (D.view disk.old) (D.view disk.new) result.text.items result.end }
    ensures cause { DiskFaultHasCause (D.view disk.old).faults (D.view disk.new).faults
        result.end }
{
    let manager = match open(alloc, disk) {
        Ok(manager) => manager,
        Err(fault) => return Answer::fault(alloc, fault),
    };
    let answer = answer_list(alloc, &manager);
    manager.close();
    answer
}
