//! The program: steps one after another, each with its line.
ghost use Rattle.std.specs.Prelude.{◌≡◌, ◌≢◌, ◌⊎◌, Err, MatchResult, map};
ghost use Rattle.std.specs.String.{string_bytes};
ghost use Rattle.mqb_manager.specs.Keeping.{KeepsDisk};
ghost use Rattle.mqb_manager.specs.States.{IsOnDisk, IsUp};
ghost use Rattle.mqb_outside.specs.Disk.{AtMost};
ghost use Rattle.mqb_work.specs.Causes.{DiskFaultHasCause, WriteFaultHasCause};
ghost use Rattle.mqb_work.specs.Words.{job_of};
ghost use Rattle.mqb_work.specs.Works.{Runs, Works, WorksJob};

use crate::status::{WorkStatus, unopened};
use crate::turns::turn_and_tell;
use crate::words::{Job, job_of};
use mqb_answers::hosts_of;
use mqb_base::Identity;
use mqb_commands::open;
use mqb_forms::LineFault;
use mqb_manager::Manager;
use mqb_outside::{Clock, Disk, Sink};
use std::alloc::Global;

/// Makes so many steps as a job asks for.
fn work_all<K: Sink, D: Disk, C: Clock>(
    alloc: Global,
    job: &Job,
    hosts: &[Identity],
    manager: &mut Manager,
    out: &mut K,
    disk: &mut D,
    clock: &mut C,
) -> Result<(), WorkStatus>
    requires up { IsUp manager.old }
    requires on { IsOnDisk (D.view disk.old) manager.old }
    ensures works { Works job.now hosts.now job.now.count (C.steady clock.old) manager.old
        manager.new (K.taken out.old) (K.taken out.new) result }
    ensures up { result ≢ Err WorkStatus.DiskFault → IsUp manager.new }
    ensures disk { KeepsDisk (D.view disk.old) (D.view disk.new) manager.old manager.new }
    ensures write_faults { MatchResult result
        (λ _. K.write_faults out.new ≡ K.write_faults out.old)
        (WriteFaultHasCause (K.write_faults out.old) (K.write_faults out.new)) }
    ensures disk_faults { MatchResult result
        (λ _. (D.view disk.new).faults ≡ (D.view disk.old).faults)
        (DiskFaultHasCause (D.view disk.old).faults (D.view disk.new).faults) }
    ensures clock { C.steady clock.new ≡ C.steady clock.old }
    ensures asked { AtMost job.now.count (C.asked clock.old) (C.asked clock.new) }
{
    for _index in 0..job.count {
        turn_and_tell(alloc, job, hosts, manager, out, disk, clock)?;
    }
    Ok(())
}

/// Works a job over the store that a disk is.
fn work_job<K: Sink, D: Disk, C: Clock>(
    alloc: Global,
    job: &Job,
    out: &mut K,
    disk: &mut D,
    clock: &mut C,
) -> WorkStatus
    ensures works { WorksJob job.now (C.steady clock.old) (D.view disk.old) (D.view disk.new)
        (K.taken out.old) (K.taken out.new) result }
    ensures usage { result ≢ WorkStatus.Usage }
    ensures write_faults { WriteFaultHasCause (K.write_faults out.old) (K.write_faults out.new)
        result }
    ensures disk_faults { DiskFaultHasCause (D.view disk.old).faults (D.view disk.new).faults
        result }
    ensures clock { C.steady clock.new ≡ C.steady clock.old }
    ensures asked { AtMost job.now.count (C.asked clock.old) (C.asked clock.new) }
{
    let mut manager = match open(alloc, disk) {
        Ok(manager) => manager,
        Err(status) => return unopened(status),
    };
    let Ok(hosts) = hosts_of(alloc, &manager) else {
        manager.close();
        return WorkStatus::Memory;
    };
    let worked = work_all(alloc, job, hosts.as_slice(), &mut manager, out, disk, clock);
    manager.close();
    match worked {
        Ok(()) => WorkStatus::Done,
        Err(status) => status,
    }
}

/// Does what the words of a command line ask for, without the program's name. `disk` is the store
/// that the second of them names.
pub fn run_worker<K: Sink, D: Disk, C: Clock>(
    alloc: Global,
    words: &[String],
    out: &mut K,
    disk: &mut D,
    clock: &mut C,
) -> WorkStatus
    // What is worked and written, and what the store is left as; or memory ran out before the words
    // were read, and everything is as it was.
    ensures ran { Runs (job_of (map string_bytes words.now)) (C.steady clock.old)
        (D.view disk.old) (D.view disk.new) (K.taken out.old) (K.taken out.new) result
        ⊎ ((result ≡ WorkStatus.Memory) × (out.new ≡ out.old) × (disk.new ≡ disk.old)
        × (clock.new ≡ clock.old)) }
    ensures usage { result ≡ WorkStatus.Usage
        → (out.new ≡ out.old) × (disk.new ≡ disk.old) × (clock.new ≡ clock.old) }
    ensures write_faults { WriteFaultHasCause (K.write_faults out.old) (K.write_faults out.new)
        result }
    ensures disk_faults { DiskFaultHasCause (D.view disk.old).faults (D.view disk.new).faults
        result }
    ensures clock { C.steady clock.new ≡ C.steady clock.old }
{
    match job_of(alloc, words) {
        Ok(job) => work_job(alloc, &job, out, disk, clock),
        Err(LineFault::Faulty(_)) => WorkStatus::Usage,
        Err(LineFault::Memory) => WorkStatus::Memory,
    }
}
