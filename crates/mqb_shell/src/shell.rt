ghost use Rattle.std.specs.Prelude.{◌≡◌, None};
ghost use Rattle.mqb_commands.specs.Causes.{DiskFaultHasCause};
ghost use Rattle.mqb_commands.specs.Outputs.{IsFaultLine, ReadFaultHasCause};
ghost use Rattle.mqb_commands.specs.Outputs.{Says, WriteFaultHasCause};
ghost use Rattle.mqb_manager.specs.Keeping.{KeepsDisk};
ghost use Rattle.mqb_manager.specs.States.{IsOnDisk, IsUp};
ghost use Rattle.mqb_shell.specs.Ends.{IsReadingEnd};
ghost use Rattle.mqb_shell.specs.Shells.{EndsInput, IsShellEnd, Shell, ShellsStore};

use crate::taking::take_piece;
use mqb_base::Failed;
use mqb_commands::{Answer, Status, open};
use mqb_manager::Manager;
use mqb_net::PatientNet;
use mqb_outside::{Clock, Disk, Sink, Source};
use mqb_serving::PeerFault;
use std::alloc::Global;

/// The most bytes that are read at a time.
const MAX_PIECE: usize = 65_536;

/// Says why no more is read, and ends so.
fn stop<K: Sink>(alloc: Global, why: Status, out: &mut K) -> Status
    requires { IsReadingEnd why }
    ensures said { Says (IsFaultLine why) (K.taken out.old) (K.taken out.new) result }
    ensures write_faults { WriteFaultHasCause (K.write_faults out.old) (K.write_faults out.new)
        result }
{
    Answer::fault(alloc, why).write(out)
}

/// Ends at the end of the input, behind bytes that are no whole line where there are some.
fn end_input<K: Sink>(alloc: Global, line: &[u8], out: &mut K) -> Status
    ensures ends { EndsInput line.now (K.taken out.old) (K.taken out.new) result }
    ensures write_faults { WriteFaultHasCause (K.write_faults out.old) (K.write_faults out.new)
        result }
{
    if line.is_empty() {
        return Status::Done;
    }
    stop(alloc, Status::Peer(PeerFault::PeerClosed), out)
}

/// Reads lines and answers each, up to the end of the input or to what ends the shell before.
fn answer_lines<S: Source, K: Sink, D: Disk, N: PatientNet, C: Clock>(
    alloc: Global,
    input: &mut S,
    manager: &mut Manager,
    out: &mut K,
    disk: &mut D,
    net: &mut N,
    clock: &mut C,
) -> Status
    requires up { IsUp manager.old }
    requires on { IsOnDisk (D.view disk.old) manager.old }
    requires unlinked { manager.old.session ≡ None }
    ensures shell { Shell (C.steady clock.old) (S.held input.old) (S.held input.new)
        (K.taken out.old) (K.taken out.new) (record {
          manager = manager.old;
          disk_faults = (D.view disk.old).faults;
          asked = C.asked clock.old;
          finished = N.finished net.old;
          faults = N.faults net.old;
          lost = N.lost net.old;
          idle = N.idle net.old;
        }) (record {
          manager = manager.new;
          disk_faults = (D.view disk.new).faults;
          asked = C.asked clock.new;
          finished = N.finished net.new;
          faults = N.faults net.new;
          lost = N.lost net.new;
          idle = N.idle net.new;
        }) result }
    ensures disk { KeepsDisk (D.view disk.old) (D.view disk.new) manager.old manager.new }
    ensures read_faults { ReadFaultHasCause (S.read_faults input.old) (S.read_faults input.new)
        result }
    ensures write_faults { WriteFaultHasCause (K.write_faults out.old) (K.write_faults out.new)
        result }
    ensures disk_faults { DiskFaultHasCause (D.view disk.old).faults (D.view disk.new).faults
        result }
    ensures unfinished { N.unfinished net.new ≡ N.unfinished net.old }
    ensures clock { C.steady clock.new ≡ C.steady clock.old }
    ensures ends { IsShellEnd result }
{
    let Ok(mut buffer) = Vec::from_elem(alloc, 0, MAX_PIECE) else {
        return Status::Memory;
    };
    let mut line = Vec::new(alloc);
    for _read in 0..u64::MAX {
        let count = match input.read(&mut buffer) {
            Ok(0) => return end_input(alloc, line.as_slice(), out),
            Ok(count) => count,
            Err(Failed) => return stop(alloc, Status::ReadFault, out),
        };
        let piece = &buffer[..count];
        match take_piece(alloc, piece, &mut line, manager, out, disk, net, clock) {
            Ok(()) => {}
            Err(end) => return end,
        }
    }
    stop(alloc, Status::Peer(PeerFault::TooMuch), out)
}

/// Opens a store, and does the commands that the lines of the input ask for, one after another.
pub fn run_shell<S: Source, K: Sink, D: Disk, N: PatientNet, C: Clock>(
    alloc: Global,
    input: &mut S,
    out: &mut K,
    disk: &mut D,
    net: &mut N,
    clock: &mut C,
) -> Status
    ensures shell { ShellsStore (C.steady clock.old) (D.view disk.old) (D.view disk.new)
        (S.held input.old) (S.held input.new) (K.taken out.old) (K.taken out.new)
        (C.asked clock.old) (C.asked clock.new) (record {
          finished = N.finished net.old;
          finished_now = N.finished net.new;
          faults = N.faults net.old;
          faults_now = N.faults net.new;
          lost = N.lost net.old;
          lost_now = N.lost net.new;
          idle = N.idle net.old;
          idle_now = N.idle net.new;
        }) result }
    ensures read_faults { ReadFaultHasCause (S.read_faults input.old) (S.read_faults input.new)
        result }
    ensures write_faults { WriteFaultHasCause (K.write_faults out.old) (K.write_faults out.new)
        result }
    ensures disk_faults { DiskFaultHasCause (D.view disk.old).faults (D.view disk.new).faults
        result }
    ensures unfinished { N.unfinished net.new ≡ N.unfinished net.old }
    ensures clock { C.steady clock.new ≡ C.steady clock.old }
    ensures ends { IsShellEnd result }
{
    let mut manager = match open(alloc, disk) {
        Ok(manager) => manager,
        Err(fault) => return Answer::fault(alloc, fault).write(out),
    };
    let end = answer_lines(alloc, input, &mut manager, out, disk, net, clock);
    manager.close();
    end
}
