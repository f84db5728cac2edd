//! Lines are answered: what each asks is done and said, and the end of the answer
//! is written behind it.
ghost use Rattle.std.specs.Prelude.{◌≡◌, ◌≢◌, Err, IfErr, None, OnOk, Ok};
ghost use Rattle.mqb_commands.specs.Causes.{DiskFaultHasCause};
ghost use Rattle.mqb_commands.specs.Outputs.{GoesOn, WriteFaultHasCause};
ghost use Rattle.mqb_manager.specs.Keeping.{KeepsDisk};
ghost use Rattle.mqb_manager.specs.States.{IsOnDisk, IsUp};
ghost use Rattle.mqb_outside.specs.Faults.{HasCause};
ghost use Rattle.mqb_outside.specs.Told.{Took};
ghost use Rattle.mqb_shell.specs.Answered.{AnswersLine, DoesLine, EndsAnswer};
ghost use Rattle.mqb_shell.specs.Ends.{IsLineEnd, IsStop, ended_by};

use crate::asking::{asked_in, end_line};
use crate::doing::do_command;
use mqb_commands::{Answer, Status, write_all};
use mqb_manager::Manager;
use mqb_net::PatientNet;
use mqb_outside::{Clock, Disk, Sink};
use std::alloc::Global;

/// Does what a line asks, and says it.
fn do_line<K: Sink, D: Disk, N: PatientNet, C: Clock>(
    alloc: Global,
    line: &[u8],
    manager: &mut Manager,
    out: &mut K,
    disk: &mut D,
    net: &mut N,
    clock: &mut C,
) -> Status
    requires up { IsUp manager.old }
    requires on { IsOnDisk (D.view disk.old) manager.old }
    requires unlinked { manager.old.session ≡ None }
    ensures does { DoesLine line.now (C.steady clock.old) (record {
      manager = manager.old;
      disk_faults = (D.view disk.old).faults;
      asked = C.asked clock.old;
      finished = N.finished net.old;
      faults = N.faults net.old;
      lost = N.lost net.old;
      idle = N.idle net.old;
    }) (record {
      manager = manager.new;
      disk_faults = (D.view disk.new).faults;
      asked = C.asked clock.new;
      finished = N.finished net.new;
      faults = N.faults net.new;
      lost = N.lost net.new;
      idle = N.idle net.new;
    })
        (K.taken out.old) (K.taken out.new) result }
    ensures disk { KeepsDisk (D.view disk.old) (D.view disk.new) manager.old manager.new }
    ensures unlinked { manager.new.session ≡ None }
    ensures up { GoesOn result → IsUp manager.new }
    ensures calm { GoesOn result → (D.view disk.new).faults ≡ (D.view disk.old).faults }
    ensures quiet { result ≢ Status.WriteFault →
        K.write_faults out.new ≡ K.write_faults out.old }
    ensures write_faults { WriteFaultHasCause (K.write_faults out.old) (K.write_faults out.new)
        result }
    ensures disk_faults { DiskFaultHasCause (D.view disk.old).faults (D.view disk.new).faults
        result }
    ensures unfinished { N.unfinished net.new ≡ N.unfinished net.old }
    ensures clock { C.steady clock.new ≡ C.steady clock.old }
    ensures ends { IsLineEnd result }
{
    match asked_in(alloc, line) {
        Ok(asked) => do_command(alloc, &asked, manager, out, disk, net, clock),
        Err(Status::Memory) => Status::Memory,
        Err(why) => Answer::fault(alloc, why).write(out),
    }
}

/// Whether a shell goes on behind such an end of a line.
fn goes_on(end: Status) -> Result<(), Status>
    ensures on { OnOk result (GoesOn end) }
    ensures off { IfErr result (λ why. (why ≡ end) × (GoesOn end → ⊥)) }
{
    match end {
        Status::DiskFault | Status::WriteFault | Status::Memory => Err(end),
        _ => Ok(()),
    }
}

/// Writes the line that ends an answer, and says whether the shell goes on behind it.
fn end_answer<K: Sink>(end: Status, out: &mut K) -> Result<(), Status>
    ensures ends { EndsAnswer end (K.taken out.old) (K.taken out.new) result }
    ensures quiet { ended_by result ≢ Status.WriteFault →
        K.write_faults out.new ≡ K.write_faults out.old }
    ensures cause { end ≢ Status.WriteFault →
        WriteFaultHasCause (K.write_faults out.old) (K.write_faults out.new) (ended_by result) }
    ensures same { end ≡ Status.WriteFault → out.new ≡ out.old }
{
    if end == Status::WriteFault {
        return Err(end);
    }
    match write_all(out, end_line(end)) {
        Ok(()) => goes_on(end),
        Err(_) => Err(Status::WriteFault),
    }
}

/// Answers a line, and says whether the shell goes on behind that.
pub(crate) fn answer_line<K: Sink, D: Disk, N: PatientNet, C: Clock>(
    alloc: Global,
    line: &[u8],
    manager: &mut Manager,
    out: &mut K,
    disk: &mut D,
    net: &mut N,
    clock: &mut C,
) -> Result<(), Status>
    requires up { IsUp manager.old }
    requires on { IsOnDisk (D.view disk.old) manager.old }
    requires unlinked { manager.old.session ≡ None }
    ensures answers { AnswersLine line.now (C.steady clock.old) (record {
      manager = manager.old;
      disk_faults = (D.view disk.old).faults;
      asked = C.asked clock.old;
      finished = N.finished net.old;
      faults = N.faults net.old;
      lost = N.lost net.old;
      idle = N.idle net.old;
    }) (record {
      manager = manager.new;
      disk_faults = (D.view disk.new).faults;
      asked = C.asked clock.new;
      finished = N.finished net.new;
      faults = N.faults net.new;
      lost = N.lost net.new;
      idle = N.idle net.new;
    })
        (K.taken out.old) (K.taken out.new) result }
    ensures disk { KeepsDisk (D.view disk.old) (D.view disk.new) manager.old manager.new }
    ensures unlinked { manager.new.session ≡ None }
    ensures up { OnOk result (IsUp manager.new) }
    ensures calm { OnOk result ((D.view disk.new).faults ≡ (D.view disk.old).faults) }
    ensures quiet { (ended_by result) ≢ Status.WriteFault →
        K.write_faults out.new ≡ K.write_faults out.old }
    ensures write_faults { WriteFaultHasCause (K.write_faults out.old) (K.write_faults out.new)
        (ended_by result) }
    ensures disk_faults { DiskFaultHasCause (D.view disk.old).faults (D.view disk.new).faults
        (ended_by result) }
    ensures unfinished { N.unfinished net.new ≡ N.unfinished net.old }
    ensures clock { C.steady clock.new ≡ C.steady clock.old }
    ensures ends { IfErr result IsStop }
{
    let end = do_line(alloc, line, manager, out, disk, net, clock);
    end_answer(end, out)
}
