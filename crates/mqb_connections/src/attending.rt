//! `attend`: connections that peers make, one after another, until none comes.
ghost use Rattle.std.specs.Prelude.{◌≡◌, ◌≢◌, Err, IfErr, IfOk, MatchResult, None};
ghost use Rattle.mqb_commands.specs.Causes.{DiskFaultHasCause};
ghost use Rattle.mqb_commands.specs.Outputs.{GoesOn, WriteFaultHasCause};
ghost use Rattle.mqb_connections.specs.Asked.{AsksForEach};
ghost use Rattle.mqb_connections.specs.Causes.{IsLinkEnd, IsNetEnd, NetFaultHasCause};
ghost use Rattle.mqb_connections.specs.Served.{AttendsFrom, Completes, MOST_ATTENDED};
ghost use Rattle.mqb_connections.specs.Served.{ServesPeers, end_of};
ghost use Rattle.mqb_manager.specs.Keeping.{KeepsDisk};
ghost use Rattle.mqb_manager.specs.States.{IsOnDisk, IsUp};
ghost use Rattle.mqb_outside.specs.Faults.{Rose};

use crate::serving::{serve_and_tell, tell_net_fault};
use mqb_base::Failed;
use mqb_commands::{Status, open};
use mqb_manager::Manager;
use mqb_outside::{Clock, Disk, Net, Sink};
use std::alloc::Global;

/// Serves each peer that comes to a manager, one after another, until none came for so many
/// seconds, and says of each connection how it ended, as soon as it did.
pub fn attend_all<K: Sink, D: Disk, N: Net, C: Clock>(
    alloc: Global,
    seconds: u32,
    manager: &mut Manager,
    out: &mut K,
    disk: &mut D,
    net: &mut N,
    clock: &mut C,
) -> Result<(), Status>
    requires up { IsUp manager.old }
    requires on { IsOnDisk (D.view disk.old) manager.old }
    requires unlinked { manager.old.session ≡ None }
    ensures served { ServesPeers (Rose (N.idle net.old) (N.idle net.new)) 1 MOST_ATTENDED
        (C.steady clock.old) manager.old manager.new (N.finished net.old) (N.finished net.new)
        (N.faults net.old) (N.faults net.new) (K.taken out.old) (K.taken out.new)
        (end_of result) }
    ensures up { end_of result ≢ Status.DiskFault → IsUp manager.new }
    ensures unlinked { manager.new.session ≡ None }
    ensures disk { KeepsDisk (D.view disk.old) (D.view disk.new) manager.old manager.new }
    ensures idle { end_of result ≢ Status.Done → N.idle net.new ≡ N.idle net.old }
    ensures calm { GoesOn (end_of result) →
        (D.view disk.new).faults ≡ (D.view disk.old).faults }
    ensures quiet { end_of result ≢ Status.WriteFault →
        K.write_faults out.new ≡ K.write_faults out.old }
    ensures unfinished { N.unfinished net.new ≡ N.unfinished net.old }
    ensures write_faults { MatchResult result
        (λ _. K.write_faults out.new ≡ K.write_faults out.old)
        (WriteFaultHasCause (K.write_faults out.old) (K.write_faults out.new)) }
    ensures disk_faults { MatchResult result
        (λ _. (D.view disk.new).faults ≡ (D.view disk.old).faults)
        (DiskFaultHasCause (D.view disk.old).faults (D.view disk.new).faults) }
    ensures net_faults { MatchResult result
        (λ _. N.faults net.new ≡ N.faults net.old)
        (NetFaultHasCause (Rose (N.faults net.old) (N.faults net.new))) }
    ensures clock { C.steady clock.new ≡ C.steady clock.old }
    ensures asked { AsksForEach MOST_ATTENDED (N.finished net.old) (N.finished net.new)
        (C.asked clock.old) (C.asked clock.new) }
    ensures ends { IfErr result IsLinkEnd }
{
    for index in 0..u32::MAX {
        match net.await_peer(seconds) {
            Ok(true) => serve_and_tell(alloc, index + 1, manager, out, disk, net, clock)?,
            Ok(false) => return Ok(()),
            Err(Failed) => return Err(tell_net_fault(alloc, out)),
        }
    }
    Ok(())
}

/// Serves each peer that comes to a store's manager, as of `attend_all`.
pub fn attend<K: Sink, D: Disk, N: Net, C: Clock>(
    alloc: Global,
    seconds: u32,
    out: &mut K,
    disk: &mut D,
    net: &mut N,
    clock: &mut C,
) -> Status
    ensures served { AttendsFrom (C.steady clock.old)
        (D.view disk.old) (D.view disk.new) (record {
          finished = N.finished net.old;
          finished_now = N.finished net.new;
          faults = N.faults net.old;
          faults_now = N.faults net.new;
          lost = N.lost net.old;
          lost_now = N.lost net.new;
          idle = N.idle net.old;
          idle_now = N.idle net.new;
        }) (K.taken out.old) (K.taken out.new) result }
    ensures unfinished { N.unfinished net.new ≡ N.unfinished net.old }
    ensures complete { Completes (D.view disk.old) (D.view disk.new) (N.faults net.old)
        (N.faults net.new) (K.write_faults out.old) (K.write_faults out.new) result }
    ensures write_faults { WriteFaultHasCause (K.write_faults out.old) (K.write_faults out.new)
        result }
    ensures disk_faults { DiskFaultHasCause (D.view disk.old).faults (D.view disk.new).faults
        result }
    ensures net_faults { NetFaultHasCause (Rose (N.faults net.old) (N.faults net.new)) result }
    ensures clock { C.steady clock.new ≡ C.steady clock.old }
    ensures asked { AsksForEach MOST_ATTENDED (N.finished net.old) (N.finished net.new)
        (C.asked clock.old) (C.asked clock.new) }
    ensures ends { IsNetEnd result }
{
    let mut manager = match open(alloc, disk) {
        Ok(manager) => manager,
        Err(status) => return status,
    };
    let served = attend_all(alloc, seconds, &mut manager, out, disk, net, clock);
    manager.close();
    match served {
        Ok(()) => Status::Done,
        Err(status) => status,
    }
}
