//! What a manager that is open does by a command.
ghost use Rattle.std.specs.Prelude.{◌≡◌, ◌≢◌, None, true};
ghost use Rattle.mqb_commands.specs.Causes.{DiskFaultHasCause};
ghost use Rattle.mqb_connections.specs.Served.{end_of};
ghost use Rattle.mqb_commands.specs.Outputs.{GoesOn, WriteFaultHasCause};
ghost use Rattle.mqb_manager.specs.Keeping.{KeepsDisk};
ghost use Rattle.mqb_manager.specs.States.{IsOnDisk, IsUp};
ghost use Rattle.mqb_shell.specs.Doing.{DoesOn};
ghost use Rattle.mqb_shell.specs.Ends.{IsLineEnd};
ghost use Rattle.mqb_words.specs.Formed.{IsFormed};
ghost use Rattle.mqb_words.specs.Lines.{is_open_command};

use mqb_commands::{Status, answer_call, answer_checkpoint, answer_list, answer_peek};
use mqb_connections::{attend_all, reach_host, serve_all};
use mqb_manager::Manager;
use mqb_net::PatientNet;
use mqb_outside::{Clock, Disk, Sink};
use mqb_serving::Errand;
use mqb_words::Command;
use std::alloc::Global;

fn status_of(served: Result<(), Status>) -> Status
    ensures { result ≡ end_of served }
{
    match served {
        Ok(()) => Status::Done,
        Err(end) => end,
    }
}

/// Does a command, says what it comes to, and how it ends.
pub fn do_command<K: Sink, D: Disk, N: PatientNet, C: Clock>(
    alloc: Global,
    asked: &Command,
    manager: &mut Manager,
    out: &mut K,
    disk: &mut D,
    net: &mut N,
    clock: &mut C,
) -> Status
    requires formed { IsFormed asked.now }
    requires open { is_open_command asked.now ≡ true }
    requires up { IsUp manager.old }
    requires on { IsOnDisk (D.view disk.old) manager.old }
    requires unlinked { manager.old.session ≡ None }
    ensures does { DoesOn asked.now (C.steady clock.old) (record {
      manager = manager.old;
      disk_faults = (D.view disk.old).faults;
      asked = C.asked clock.old;
      finished = N.finished net.old;
      faults = N.faults net.old;
      lost = N.lost net.old;
      idle = N.idle net.old;
    }) (record {
      manager = manager.new;
      disk_faults = (D.view disk.new).faults;
      asked = C.asked clock.new;
      finished = N.finished net.new;
      faults = N.faults net.new;
      lost = N.lost net.new;
      idle = N.idle net.new;
    })
        (K.taken out.old) (K.taken out.new) result }
    ensures disk { KeepsDisk (D.view disk.old) (D.view disk.new) manager.old manager.new }
    ensures unlinked { manager.new.session ≡ None }
    ensures up { GoesOn result → IsUp manager.new }
    ensures calm { GoesOn result → (D.view disk.new).faults ≡ (D.view disk.old).faults }
    ensures quiet { result ≢ Status.WriteFault →
        K.write_faults out.new ≡ K.write_faults out.old }
    ensures write_faults { WriteFaultHasCause (K.write_faults out.old) (K.write_faults out.new)
        result }
    ensures disk_faults { DiskFaultHasCause (D.view disk.old).faults (D.view disk.new).faults
        result }
    ensures unfinished { N.unfinished net.new ≡ N.unfinished net.old }
    ensures clock { C.steady clock.new ≡ C.steady clock.old }
    ensures ends { IsLineEnd result }
{
    match asked {
        Command::Call(call) => {
            let now = clock.now();
            answer_call(alloc, manager, disk, call, now).write(out)
        }
        Command::Checkpoint => answer_checkpoint(alloc, manager, disk).write(out),
        Command::List => answer_list(alloc, manager).write(out),
        Command::Peek { place, count } => {
            let now = clock.now();
            answer_peek(alloc, manager, place, *count, now).write(out)
        }
        Command::Serve { count } => {
            status_of(serve_all(alloc, *count, manager, out, disk, net, clock))
        }
        Command::Attend { seconds } => {
            status_of(attend_all(alloc, *seconds, manager, out, disk, net, clock))
        }
        Command::Push { host, address } => reach_host(
            alloc,
            Errand::Push,
            *address,
            host,
            manager,
            out,
            disk,
            net,
            clock,
        ),
        Command::Fetch {
            host,
            address,
            seconds,
        } => {
            net.end_by_silence(Some(*seconds));
            let end = reach_host(
                alloc,
                Errand::Fetch,
                *address,
                host,
                manager,
                out,
                disk,
                net,
                clock,
            );
            net.end_by_silence(None);
            end
        }
        _ => unreachable!(),
    }
}
