ghost use Rattle.std.specs.Prelude.{◌≡◌, None};
ghost use Rattle.mqb_commands.specs.Causes.{DiskFaultHasCause};
ghost use Rattle.mqb_commands.specs.Called.{CallsAt, CallsOn, TellsFaults, status_of};
ghost use Rattle.mqb_answers.specs.mqb_manager.Keeping.{KeepsDisk};
ghost use Rattle.mqb_answers.specs.mqb_manager.States.{IsOnDisk, IsUp};
ghost use Rattle.mqb_commands.specs.Outputs.{GoesOn, IsAnswerEnd};
ghost use Rattle.mqb_outside.specs.Disk.{Counted};
ghost use Rattle.mqb_words.specs.Formed.{IsFormedCall};

use crate::{Answer, Status, open};
use mqb_answers::{AnswerFault, CallEnd, Manager, answer};
use mqb_outside::{Clock, Disk};
use mqb_words::Call;
use std::alloc::Global;

fn status_of(end: CallEnd) -> Status
    ensures { result ≡ status_of end }
{
    match end {
        CallEnd::Done => Status::Done,
        CallEnd::Refused => Status::Refused,
    }
}

/// Makes one call of a manager at a moment.
pub fn answer_call<D: Disk>(
    alloc: Global,
    manager: &mut Manager,
    disk: &mut D,
    call: &Call,
    now: u32,
) -> Answer
    requires formed { IsFormedCall call.now }
    requires up { IsUp manager.old }
    requires on { IsOnDisk (D.view disk.old) manager.old }
    ensures calls { CallsOn call.now now (D.view disk.old).faults (D.view disk.new).faults
        manager.old manager.new result.text.items result.end }
    ensures disk { KeepsDisk (D.view disk.old) (D.view disk.new) manager.old manager.new }
    ensures unlinked { manager.old.session ≡ None → manager.new.session ≡ None }
    ensures up { GoesOn result.end → IsUp manager.new }
    ensures calm { GoesOn result.end → (D.view disk.new).faults ≡ (D.view disk.old).faults }
    ensures ends { IsAnswerEnd result.end }
    ensures faults { TellsFaults (D.view disk.old).faults (D.view disk.new).faults
        result.text.items result.end }
{
    let mut text = Vec::new(alloc);
    match answer(alloc, manager, disk, call, now, &mut text) {
        Ok(end) => Answer::new(text, status_of(end)),
        Err(AnswerFault::DiskFault) => Answer::fault(alloc, Status::DiskFault),
        Err(AnswerFault::Memory) => Answer::memory(alloc),
    }
}

/// Makes one call of the manager of a store, at the moment of the clock.
pub fn call<D: Disk, C: Clock>(alloc: Global, disk: &mut D, clock: &mut C, call: &Call) -> Answer
    requires { IsFormedCall call.now }
    ensures calls { CallsAt call.now (C.steady clock.old) (D.view disk.old) (D.view disk.new)
        result.text.items result.end }
    ensures cause { DiskFaultHasCause (D.view disk.old).faults (D.view disk.new).faults
        result.end }
    ensures faults { TellsFaults (D.view disk.old).faults (D.view disk.new).faults
        result.text.items result.end }
    ensures clock { C.steady clock.new ≡ C.steady clock.old }
    ensures asked { Counted 1 (C.asked clock.old) (C.asked clock.new) }
{
    let now = clock.now();
    let mut manager = match open(alloc, disk) {
        Ok(manager) => manager,
        Err(fault) => return Answer::fault(alloc, fault),
    };
    let answer = answer_call(alloc, &mut manager, disk, call, now);
    manager.close();
    answer
}
