//! `probe`: one connection over input and output.
ghost use Rattle.std.specs.Prelude.{◌≡◌, ◌≢◌, Err, None};
ghost use Rattle.mqb_commands.specs.Causes.{DiskFaultHasCause};
ghost use Rattle.mqb_connections.specs.Asked.{AsksOnce};
ghost use Rattle.mqb_connections.specs.Causes.{IsProbeEnd};
ghost use Rattle.mqb_connections.specs.Probed.{CompletesProbe, ProbesStore};
ghost use Rattle.mqb_connections.specs.Statuses.{probe_status};
ghost use Rattle.mqb_journal.specs.Causes.{FaultsAsSaid};
ghost use Rattle.mqb_manager.specs.Keeping.{KeepsDisk};
ghost use Rattle.mqb_manager.specs.States.{IsOnDisk, IsUp};
ghost use Rattle.mqb_serve.specs.Talking.{stored_of};
ghost use Rattle.mqb_serving.specs.Serving.{Serves, ServesWhole, is_disk_fault};
ghost use Rattle.mqb_serving.specs.Serving.{is_read_fault, is_write_fault};
ghost use Rattle.mqb_commands.specs.Outputs.{ReadFaultHasCause, WriteFaultHasCause};

use crate::piped::Piped;
use mqb_commands::{Status, open};
use mqb_manager::Manager;
use mqb_outside::{Clock, Disk, Sink, Source};
use mqb_serve::serve_one;
use mqb_serving::{ConnFault, Purpose};
use std::alloc::Global;

/// How the program ends by the end of the connection of a probe.
fn probe_status(end: Result<(), ConnFault>) -> Status
    ensures { result ≡ probe_status end }
{
    match end {
        Ok(()) => Status::Done,
        Err(ConnFault::Peer(fault)) => Status::Peer(fault),
        Err(ConnFault::ReadFault) => Status::ReadFault,
        Err(ConnFault::WriteFault) => Status::WriteFault,
        Err(ConnFault::DiskFault) => Status::DiskFault,
        Err(ConnFault::Memory) => Status::Memory,
    }
}

/// Serves one connection over an input and an output.
fn serve_piped<S: Source, K: Sink, D: Disk>(
    alloc: Global,
    manager: &mut Manager,
    input: &mut S,
    out: &mut K,
    disk: &mut D,
    now: u32,
) -> Result<(), ConnFault>
    requires up { IsUp manager.old }
    requires on { IsOnDisk (D.view disk.old) manager.old }
    requires unlinked { manager.old.session ≡ None }
    ensures served { Serves Purpose.Serve now (stored_of manager.old) (stored_of manager.new)
        (S.held input.old) (S.held input.new) (K.taken out.old) (K.taken out.new) result }
    ensures whole { ServesWhole result Purpose.Serve now (stored_of manager.old)
        (stored_of manager.new) (S.held input.old) (K.taken out.old) (K.taken out.new) }
    ensures up { result ≢ Err ConnFault.DiskFault → IsUp manager.new }
    ensures disk { KeepsDisk (D.view disk.old) (D.view disk.new) manager.old manager.new }
    ensures disk_faults { FaultsAsSaid is_disk_fault (D.view disk.old).faults
        (D.view disk.new).faults result }
    ensures read_faults { FaultsAsSaid is_read_fault (S.read_faults input.old)
        (S.read_faults input.new) result }
    ensures write_faults { FaultsAsSaid is_write_fault (K.write_faults out.old)
        (K.write_faults out.new) result }
{
    let mut piped = Piped { input, out };
    serve_one(alloc, disk, manager, &mut piped, now)
}

/// Serves one connection over the input and the output, on which nothing else is written.
pub fn probe<S: Source, K: Sink, D: Disk, C: Clock>(
    alloc: Global,
    input: &mut S,
    out: &mut K,
    disk: &mut D,
    clock: &mut C,
) -> Status
    ensures probes { ProbesStore (C.steady clock.old) (D.view disk.old) (D.view disk.new)
        (S.held input.old) (S.held input.new) (K.taken out.old) (K.taken out.new) result }
    ensures complete { CompletesProbe (D.view disk.old) (D.view disk.new) (S.read_faults input.old)
        (S.read_faults input.new) (K.write_faults out.old) (K.write_faults out.new) result }
    ensures read_faults { ReadFaultHasCause (S.read_faults input.old) (S.read_faults input.new)
        result }
    ensures write_faults { WriteFaultHasCause (K.write_faults out.old) (K.write_faults out.new)
        result }
    ensures disk_faults { DiskFaultHasCause (D.view disk.old).faults (D.view disk.new).faults
        result }
    ensures clock { C.steady clock.new ≡ C.steady clock.old }
    ensures asked { AsksOnce (C.asked clock.old) (C.asked clock.new) }
    ensures ends { IsProbeEnd result }
{
    let mut manager = match open(alloc, disk) {
        Ok(manager) => manager,
        Err(status) => return status,
    };
    let now = clock.now();
    let end = serve_piped(alloc, &mut manager, input, out, disk, now);
    manager.close();
    probe_status(end)
}
