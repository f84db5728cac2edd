//! One step of the program, and its line.
ghost use Rattle.std.specs.Prelude.{◌≡◌, ◌≢◌, Err, MatchResult};
ghost use Rattle.mqb_manager.specs.Keeping.{KeepsDisk};
ghost use Rattle.mqb_manager.specs.States.{IsOnDisk, IsUp};
ghost use Rattle.mqb_outside.specs.Disk.{Counted};
ghost use Rattle.mqb_outside.specs.Faults.{Rose};
ghost use Rattle.mqb_work.specs.Causes.{DiskFaultHasCause, FailsAsSaid, WriteFaultHasCause};
ghost use Rattle.mqb_work.specs.Turns.{IsTurnTo, TellsTurn, end_by};
ghost use Rattle.mqb_work.specs.Works.{Works};

use crate::lines::turn_line;
use crate::status::WorkStatus;
use crate::words::Job;
use mqb_base::Identity;
use mqb_commands::write_all;
use mqb_manager::Manager;
use mqb_model::CommitFault;
use mqb_outside::{Clock, Disk, Sink};
use mqb_worker::{Step, step};
use std::alloc::Global;

/// How the program ends behind a step, where it does.
fn end_by(answer: Result<Step, CommitFault>) -> Result<(), WorkStatus>
    ensures { result ≡ end_by answer }
{
    match answer {
        Ok(Step::Done { .. }) => Ok(()),
        Ok(Step::Idle) => Err(WorkStatus::Done),
        Err(CommitFault::DiskFault) => Err(WorkStatus::DiskFault),
        Err(CommitFault::Memory) => Err(WorkStatus::Memory),
        Err(_) => Err(WorkStatus::Refused),
    }
}

/// Writes the line of a step, and says how the program ends, where it does.
#[tactic(auto, using(crate::proofs::Telling::tells_end, crate::proofs::Telling::tells_broken, crate::proofs::Telling::end_write))]
fn tell_turn<K: Sink>(
    alloc: Global,
    hosts: &[Identity],
    answer: Result<Step, CommitFault>,
    out: &mut K,
) -> Result<(), WorkStatus>
    ensures told { TellsTurn hosts.now answer (K.taken out.old) (K.taken out.new) result }
    ensures stops { answer ≡ Err CommitFault.DiskFault → result ≡ Err WorkStatus.DiskFault }
    ensures write_faults { MatchResult result
        (λ _. K.write_faults out.new ≡ K.write_faults out.old)
        (WriteFaultHasCause (K.write_faults out.old) (K.write_faults out.new)) }
{
    match answer {
        Err(CommitFault::DiskFault) => return Err(WorkStatus::DiskFault),
        Err(CommitFault::Memory) => return Err(WorkStatus::Memory),
        _ => {}
    }
    let Ok(line) = turn_line(alloc, hosts, answer) else {
        return Err(WorkStatus::Memory);
    };
    match write_all(out, &line) {
        Ok(()) => end_by(answer),
        Err(_) => Err(WorkStatus::WriteFault),
    }
}

/// Makes a step at the moment of the clock.
fn make_turn<D: Disk, C: Clock>(
    alloc: Global,
    job: &Job,
    manager: &mut Manager,
    disk: &mut D,
    clock: &mut C,
) -> Result<Step, CommitFault>
    requires up { IsUp manager.old }
    requires on { IsOnDisk (D.view disk.old) manager.old }
    ensures turn { IsTurnTo job.now (C.steady clock.old) manager.old manager.new result }
    ensures up { result ≢ Err CommitFault.DiskFault → IsUp manager.new }
    ensures disk { KeepsDisk (D.view disk.old) (D.view disk.new) manager.old manager.new }
    ensures disk_faults { FailsAsSaid (D.view disk.old).faults (D.view disk.new).faults result }
    ensures clock { C.steady clock.new ≡ C.steady clock.old }
    ensures asked { Counted 1 (C.asked clock.old) (C.asked clock.new) }
{
    let now = clock.now();
    step(alloc, disk, manager, &job.queue, &job.prefix, now)
}

/// Makes a step, and writes its line.
pub(crate) fn turn_and_tell<K: Sink, D: Disk, C: Clock>(
    alloc: Global,
    job: &Job,
    hosts: &[Identity],
    manager: &mut Manager,
    out: &mut K,
    disk: &mut D,
    clock: &mut C,
) -> Result<(), WorkStatus>
    requires up { IsUp manager.old }
    requires on { IsOnDisk (D.view disk.old) manager.old }
    ensures works { Works job.now hosts.now 1 (C.steady clock.old) manager.old manager.new
        (K.taken out.old) (K.taken out.new) result }
    ensures up { result ≢ Err WorkStatus.DiskFault → IsUp manager.new }
    ensures disk { KeepsDisk (D.view disk.old) (D.view disk.new) manager.old manager.new }
    ensures write_faults { MatchResult result
        (λ _. K.write_faults out.new ≡ K.write_faults out.old)
        (WriteFaultHasCause (K.write_faults out.old) (K.write_faults out.new)) }
    ensures disk_faults { MatchResult result
        (λ _. (D.view disk.new).faults ≡ (D.view disk.old).faults)
        (DiskFaultHasCause (D.view disk.old).faults (D.view disk.new).faults) }
    ensures clock { C.steady clock.new ≡ C.steady clock.old }
    ensures asked { Counted 1 (C.asked clock.old) (C.asked clock.new) }
{
    let answer = make_turn(alloc, job, manager, disk, clock);
    tell_turn(alloc, hosts, answer, out)
}
