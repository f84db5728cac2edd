//! `serve`: connections that peers make, one after another.
ghost use Rattle.std.specs.Prelude.{◌≡◌, ◌≢◌, Err, IfErr, IfOk, MatchResult, None, OnErr};
ghost use Rattle.mqb_commands.specs.Causes.{DiskFaultHasCause};
ghost use Rattle.mqb_connections.specs.Asked.{AsksForEach, RoseBy};
ghost use Rattle.mqb_connections.specs.Causes.{IsLinkEnd, IsNetEnd, NetFaultHasCause};
ghost use Rattle.mqb_connections.specs.Served.{Completes, ServesFrom, ServesPeers, end_of};
ghost use Rattle.mqb_connections.specs.Told.{TellsEnd, TellsNetFault};
ghost use Rattle.mqb_connections.specs.Visits.{IsNext};
ghost use Rattle.mqb_journal.specs.Causes.{FaultsAsSaid};
ghost use Rattle.mqb_manager.specs.Keeping.{KeepsDisk};
ghost use Rattle.mqb_manager.specs.States.{IsOnDisk, IsUp};
ghost use Rattle.mqb_outside.specs.Faults.{HasCause, Rose};
ghost use Rattle.mqb_serving.specs.Serving.{is_disk_fault};
ghost use Rattle.mqb_commands.specs.Outputs.{GoesOn, WriteFaultHasCause};

use crate::lines::end_line;
use mqb_base::{Failed, Memory};
use mqb_commands::{Answer, Status, open, write_all};
use mqb_manager::Manager;
use mqb_outside::{Clock, Disk, Net, Sink};
use mqb_serve::serve_one;
use mqb_serving::{ConnFault, Purpose};
use std::alloc::Global;

/// Writes the line of a connection that ended, and says how the program ends, where it does.
#[tactic(auto, using(crate::proofs::Ending::told_end))]
fn tell_end<K: Sink>(
    alloc: Global,
    number: u32,
    end: Result<(), ConnFault>,
    out: &mut K,
) -> Result<(), Status>
    ensures told { TellsEnd number end (K.taken out.old) (K.taken out.new) result }
    ensures stops { end ≡ Err ConnFault.DiskFault → result ≡ Err Status.DiskFault }
    ensures quiet { end_of result ≢ Status.WriteFault →
        K.write_faults out.new ≡ K.write_faults out.old }
    ensures write_faults { MatchResult result
        (λ _. K.write_faults out.new ≡ K.write_faults out.old)
        (WriteFaultHasCause (K.write_faults out.old) (K.write_faults out.new)) }
    ensures ends { IfErr result IsLinkEnd }
{
    match end {
        Err(ConnFault::DiskFault) => return Err(Status::DiskFault),
        Err(ConnFault::Memory) => return Err(Status::Memory),
        _ => {}
    }
    let line = match end_line(alloc, number, end) {
        Ok(line) => line,
        Err(Memory) => return Err(Status::Memory),
    };
    match write_all(out, &line) {
        Ok(()) => Ok(()),
        Err(_) => Err(Status::WriteFault),
    }
}

/// Ends where the net gave no connection.
#[tactic(auto, using(crate::proofs::Ending::told_net))]
pub(crate) fn tell_net_fault<K: Sink>(alloc: Global, out: &mut K) -> Status
    ensures told { TellsNetFault (K.taken out.old) (K.taken out.new) result }
    ensures quiet { result ≢ Status.WriteFault →
        K.write_faults out.new ≡ K.write_faults out.old }
    ensures write_faults { WriteFaultHasCause (K.write_faults out.old) (K.write_faults out.new)
        result }
    ensures ends { IsLinkEnd result }
{
    let answer = Answer::fault(alloc, Status::NetFault);
    answer.write(out)
}

/// Serves the next connection that a peer makes, and says how it ended.
fn serve_next<D: Disk, N: Net, C: Clock>(
    alloc: Global,
    manager: &mut Manager,
    disk: &mut D,
    net: &mut N,
    clock: &mut C,
) -> Result<Result<(), ConnFault>, Failed>
    requires up { IsUp manager.old }
    requires on { IsOnDisk (D.view disk.old) manager.old }
    requires unlinked { manager.old.session ≡ None }
    ensures unlinked { manager.new.session ≡ None }
    ensures up { IfOk result (λ end. end ≢ Err ConnFault.DiskFault → IsUp manager.new) }
    ensures disk { KeepsDisk (D.view disk.old) (D.view disk.new) manager.old manager.new }
    ensures disk_faults { IfOk result (FaultsAsSaid is_disk_fault (D.view disk.old).faults
        (D.view disk.new).faults) }
    ensures next { IfOk result (IsNext Purpose.Serve (C.steady clock.old) manager.old manager.new
        (N.finished net.old) (N.finished net.new)) }
    ensures unchanged { OnErr result ((disk.new ≡ disk.old) × (manager.new ≡ manager.old)
        × (N.finished net.new ≡ N.finished net.old)) }
    ensures net_faults { HasCause (N.faults net.old) (N.faults net.new) result }
    ensures idle { N.idle net.new ≡ N.idle net.old }
    ensures unfinished { N.unfinished net.new ≡ N.unfinished net.old }
    ensures clock { C.steady clock.new ≡ C.steady clock.old }
    ensures asked { MatchResult result (λ _. RoseBy 1 (C.asked clock.old) (C.asked clock.new))
        (λ _. C.asked clock.new ≡ C.asked clock.old) }
{
    let mut conn = net.accept()?;
    let now = clock.now();
    let end = serve_one(alloc, disk, manager, &mut conn, now);
    net.finish(conn);
    Ok(end)
}

/// Serves the next connection that a peer makes, and writes its line.
pub(crate) fn serve_and_tell<K: Sink, D: Disk, N: Net, C: Clock>(
    alloc: Global,
    number: u32,
    manager: &mut Manager,
    out: &mut K,
    disk: &mut D,
    net: &mut N,
    clock: &mut C,
) -> Result<(), Status>
    requires up { IsUp manager.old }
    requires on { IsOnDisk (D.view disk.old) manager.old }
    requires unlinked { manager.old.session ≡ None }
    ensures served { ServesPeers ⊥ number 1 (C.steady clock.old) manager.old manager.new
        (N.finished net.old) (N.finished net.new) (N.faults net.old) (N.faults net.new)
        (K.taken out.old) (K.taken out.new) (end_of result) }
    ensures stops { result ≢ Err Status.Done }
    ensures unlinked { manager.new.session ≡ None }
    ensures up { end_of result ≢ Status.DiskFault → IsUp manager.new }
    ensures disk { KeepsDisk (D.view disk.old) (D.view disk.new) manager.old manager.new }
    ensures idle { N.idle net.new ≡ N.idle net.old }
    ensures calm { GoesOn (end_of result) →
        (D.view disk.new).faults ≡ (D.view disk.old).faults }
    ensures quiet { end_of result ≢ Status.WriteFault →
        K.write_faults out.new ≡ K.write_faults out.old }
    ensures unfinished { N.unfinished net.new ≡ N.unfinished net.old }
    ensures write_faults { MatchResult result
        (λ _. K.write_faults out.new ≡ K.write_faults out.old)
        (WriteFaultHasCause (K.write_faults out.old) (K.write_faults out.new)) }
    ensures disk_faults { MatchResult result
        (λ _. (D.view disk.new).faults ≡ (D.view disk.old).faults)
        (DiskFaultHasCause (D.view disk.old).faults (D.view disk.new).faults) }
    ensures net_faults { MatchResult result
        (λ _. N.faults net.new ≡ N.faults net.old)
        (NetFaultHasCause (Rose (N.faults net.old) (N.faults net.new))) }
    ensures clock { C.steady clock.new ≡ C.steady clock.old }
    ensures asked { AsksForEach 1 (N.finished net.old) (N.finished net.new) (C.asked clock.old)
        (C.asked clock.new) }
    ensures ends { IfErr result IsLinkEnd }
{
    match serve_next(alloc, manager, disk, net, clock) {
        Ok(end) => tell_end(alloc, number, end, out),
        Err(Failed) => Err(tell_net_fault(alloc, out)),
    }
}

/// Serves so many connections that peers make of a manager, one after another, and says of each how
/// it ended, as soon as it did.
pub fn serve_all<K: Sink, D: Disk, N: Net, C: Clock>(
    alloc: Global,
    count: u32,
    manager: &mut Manager,
    out: &mut K,
    disk: &mut D,
    net: &mut N,
    clock: &mut C,
) -> Result<(), Status>
    requires up { IsUp manager.old }
    requires on { IsOnDisk (D.view disk.old) manager.old }
    requires unlinked { manager.old.session ≡ None }
    ensures served { ServesPeers ⊥ 1 count (C.steady clock.old) manager.old manager.new
        (N.finished net.old) (N.finished net.new) (N.faults net.old) (N.faults net.new)
        (K.taken out.old) (K.taken out.new) (end_of result) }
    ensures up { end_of result ≢ Status.DiskFault → IsUp manager.new }
    ensures unlinked { manager.new.session ≡ None }
    ensures idle { N.idle net.new ≡ N.idle net.old }
    ensures disk { KeepsDisk (D.view disk.old) (D.view disk.new) manager.old manager.new }
    ensures calm { GoesOn (end_of result) →
        (D.view disk.new).faults ≡ (D.view disk.old).faults }
    ensures quiet { end_of result ≢ Status.WriteFault →
        K.write_faults out.new ≡ K.write_faults out.old }
    ensures unfinished { N.unfinished net.new ≡ N.unfinished net.old }
    ensures write_faults { MatchResult result
        (λ _. K.write_faults out.new ≡ K.write_faults out.old)
        (WriteFaultHasCause (K.write_faults out.old) (K.write_faults out.new)) }
    ensures disk_faults { MatchResult result
        (λ _. (D.view disk.new).faults ≡ (D.view disk.old).faults)
        (DiskFaultHasCause (D.view disk.old).faults (D.view disk.new).faults) }
    ensures net_faults { MatchResult result
        (λ _. N.faults net.new ≡ N.faults net.old)
        (NetFaultHasCause (Rose (N.faults net.old) (N.faults net.new))) }
    ensures clock { C.steady clock.new ≡ C.steady clock.old }
    ensures asked { AsksForEach count (N.finished net.old) (N.finished net.new)
        (C.asked clock.old) (C.asked clock.new) }
    ensures ends { IfErr result IsLinkEnd }
{
    for index in 0..count {
        serve_and_tell(alloc, index + 1, manager, out, disk, net, clock)?;
    }
    Ok(())
}

/// Serves so many connections that peers make of a store's manager, as of `serve_all`.
pub fn serve<K: Sink, D: Disk, N: Net, C: Clock>(
    alloc: Global,
    count: u32,
    out: &mut K,
    disk: &mut D,
    net: &mut N,
    clock: &mut C,
) -> Status
    ensures served { ServesFrom count (C.steady clock.old)
        (D.view disk.old) (D.view disk.new) (record {
          finished = N.finished net.old;
          finished_now = N.finished net.new;
          faults = N.faults net.old;
          faults_now = N.faults net.new;
          lost = N.lost net.old;
          lost_now = N.lost net.new;
          idle = N.idle net.old;
          idle_now = N.idle net.new;
        }) (K.taken out.old) (K.taken out.new) result }
    ensures unfinished { N.unfinished net.new ≡ N.unfinished net.old }
    ensures complete { Completes (D.view disk.old) (D.view disk.new) (N.faults net.old)
        (N.faults net.new) (K.write_faults out.old) (K.write_faults out.new) result }
    ensures write_faults { WriteFaultHasCause (K.write_faults out.old) (K.write_faults out.new)
        result }
    ensures disk_faults { DiskFaultHasCause (D.view disk.old).faults (D.view disk.new).faults
        result }
    ensures net_faults { NetFaultHasCause (Rose (N.faults net.old) (N.faults net.new)) result }
    ensures clock { C.steady clock.new ≡ C.steady clock.old }
    ensures asked { AsksForEach count (N.finished net.old) (N.finished net.new)
        (C.asked clock.old) (C.asked clock.new) }
    ensures ends { IsNetEnd result }
{
    let mut manager = match open(alloc, disk) {
        Ok(manager) => manager,
        Err(status) => return status,
    };
    let served = serve_all(alloc, count, &mut manager, out, disk, net, clock);
    manager.close();
    match served {
        Ok(()) => Status::Done,
        Err(status) => status,
    }
}
