ghost use Rattle.std.specs.Prelude.{◌≡◌, [], None};
ghost use Rattle.mqb_commands.specs.Called.{TellsFaults};
ghost use Rattle.mqb_commands.specs.Causes.{DiskFaultHasCause};
ghost use Rattle.mqb_commands.specs.Checkpointed.{Checkpoints, CheckpointsOn, end_of};
ghost use Rattle.mqb_answers.specs.mqb_manager.Keeping.{KeepsDisk};
ghost use Rattle.mqb_answers.specs.mqb_manager.States.{IsOnDisk, IsUp};
ghost use Rattle.mqb_commands.specs.Outputs.{GoesOn, IsAnswerEnd, IsSaid};
ghost use Rattle.mqb_transcript.specs.Texts.{printed};

use crate::{Answer, Status, open};
use mqb_answers::{
    AnswerFault, CheckpointFault, Manager, checkpoint_reply, checkpoints_are_replied,
};
use mqb_base::Memory;
use mqb_outside::Disk;
use mqb_transcript::{Reply, print_reply};
use std::alloc::Global;

fn end_of(given: &Result<(), CheckpointFault>) -> Status
    ensures { result ≡ end_of given.now }
{
    match given {
        Ok(()) => Status::Done,
        Err(_) => Status::Refused,
    }
}

/// The line of a reply that names no host.
fn say(alloc: Global, reply: &Reply, end: Status) -> Answer
    ensures { IsSaid (printed [] None reply.now) end result.text.items result.end }
{
    let mut text = Vec::new(alloc);
    match print_reply(alloc, None, reply, &[], &mut text) {
        Ok(()) => Answer::new(text, end),
        Err(Memory) => Answer::memory(alloc),
    }
}

/// Writes the state of a manager anew, in place of the records of its store.
pub fn answer_checkpoint<D: Disk>(alloc: Global, manager: &mut Manager, disk: &mut D) -> Answer
    requires up { IsUp manager.old }
    requires on { IsOnDisk (D.view disk.old) manager.old }
    ensures checkpoints { CheckpointsOn (disk.new ≡ disk.old)
        (D.view disk.old).faults (D.view disk.new).faults
        manager.old manager.new result.text.items result.end }
    ensures disk { KeepsDisk (D.view disk.old) (D.view disk.new) manager.old manager.new }
    ensures unlinked { manager.old.session ≡ None → manager.new.session ≡ None }
    ensures up { GoesOn result.end → IsUp manager.new }
    ensures calm { GoesOn result.end → (D.view disk.new).faults ≡ (D.view disk.old).faults }
    ensures ends { IsAnswerEnd result.end }
    ensures faults { TellsFaults (D.view disk.old).faults (D.view disk.new).faults
        result.text.items result.end }
{
    checkpoints_are_replied();
    let given = manager.checkpoint(disk);
    let end = end_of(&given);
    match checkpoint_reply(given) {
        Ok(reply) => say(alloc, &reply, end),
        Err(AnswerFault::DiskFault) => Answer::fault(alloc, Status::DiskFault),
        Err(AnswerFault::Memory) => Answer::memory(alloc),
    }
}

/// Writes the state of the manager of a store anew, in place of its records.
pub fn checkpoint<D: Disk>(alloc: Global, disk: &mut D) -> Answer
    ensures checkpoints { Checkpoints (D.view disk.old) (D.view disk.new)
        result.text.items result.end }
    ensures cause { DiskFaultHasCause (D.view disk.old).faults (D.view disk.new).faults
        result.end }
    ensures faults { TellsFaults (D.view disk.old).faults (D.view disk.new).faults
        result.text.items result.end }
{
    let mut manager = match open(alloc, disk) {
        Ok(manager) => manager,
        Err(fault) => return Answer::fault(alloc, fault),
    };
    let answer = answer_checkpoint(alloc, &mut manager, disk);
    manager.close();
    answer
}
