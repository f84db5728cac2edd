//! `push` and `fetch`: one connection to a peer.
ghost use Rattle.std.specs.Option.{option_or};
ghost use Rattle.std.specs.Prelude.{◌<◌, ◌≡◌, ◌≢◌, ◌⊎◌, Err, IfOk, IfSome, MatchResult, None};
ghost use Rattle.std.specs.Prelude.{OnErr, Some, length};
ghost use Rattle.mqb_commands.specs.Causes.{DiskFaultHasCause};
ghost use Rattle.mqb_connections.specs.Asked.{AsksForEach, RoseBy};
ghost use Rattle.mqb_connections.specs.Causes.{IsLinkEnd, IsNetEnd, NetFaultHasCause, is_lost};
ghost use Rattle.mqb_connections.specs.Reached.{CompletesReach, IsReach, ReachesAt, ReachesOn};
ghost use Rattle.mqb_connections.specs.Reached.{ReachesStore, TellsReach};
ghost use Rattle.mqb_connections.specs.Reached.{address_at, index_of_host};
ghost use Rattle.mqb_connections.specs.Statuses.{reach_status};
ghost use Rattle.mqb_journal.specs.Causes.{FaultsAsSaid};
ghost use Rattle.mqb_manager.specs.Keeping.{KeepsDisk};
ghost use Rattle.mqb_manager.specs.States.{IsOnDisk, IsUp};
ghost use Rattle.mqb_outside.specs.Faults.{HasCause, Rose};
ghost use Rattle.mqb_serve.specs.Talking.{stored_of};
ghost use Rattle.mqb_serving.specs.Serving.{Serves, ServesWhole, is_disk_fault};
ghost use Rattle.mqb_serving.specs.Serving.{is_read_fault, is_write_fault};
ghost use Rattle.mqb_commands.specs.Outputs.{GoesOn, WriteFaultHasCause};

use crate::lines::end_line;
use mqb_base::{Failed, Identity, Memory, Name};
use mqb_commands::{Status, open, tell};
use mqb_manager::Manager;
use mqb_outside::{Clock, Conn, Disk, Net, Sink};
use mqb_serve::{fetch_one, push_one};
use mqb_serving::{ConnFault, Errand, Purpose};
use std::alloc::Global;

/// The index of the first peer of a host, ignoring ASCII case.
fn index_of_host(peers: &[Identity], host: &Name) -> Option<usize>
    ensures index { result ≡ index_of_host peers.now host.now }
    ensures within { IfSome result (λ peer. peer < length peers.now) }
{
    peers
        .iter()
        .position(|peer| peer.host.eq_ignore_ascii_case(host))
}

/// The index of the first peer of a host that a manager knows.
fn peer_of_host(manager: &Manager, host: &Name) -> Option<usize>
    ensures index { result ≡ index_of_host manager.now.store.state.peers host.now }
    ensures within { IfSome result (λ peer. peer < length manager.now.store.state.peers) }
{
    index_of_host(manager.state().contents().peers(), host)
}

/// The address that the words name, or else that of the peer at an index.
fn address_for(named: Option<[u8; 4]>, peers: &[Identity], peer: usize) -> [u8; 4]
    requires { peer < length peers.now }
    ensures { Some result ≡ option_or named (address_at peers.now peer) }
{
    match named {
        Some(address) => address,
        None => peers[peer].address,
    }
}

/// How the program ends by the end of its connection to a peer.
fn reach_status(end: Result<(), ConnFault>) -> Status
    ensures { result ≡ reach_status end }
{
    match end {
        Ok(()) => Status::Done,
        Err(ConnFault::Peer(fault)) => Status::Peer(fault),
        Err(ConnFault::ReadFault | ConnFault::WriteFault) => Status::NetFault,
        Err(ConnFault::DiskFault) => Status::DiskFault,
        Err(ConnFault::Memory) => Status::Memory,
    }
}

/// Pushes to the peer at an index over a connection, or fetches.
fn serve_peer<D: Disk, C: Conn>(
    alloc: Global,
    why: Errand,
    peer: u32,
    disk: &mut D,
    manager: &mut Manager,
    conn: &mut C,
    now: u32,
) -> Result<(), ConnFault>
    requires up { IsUp manager.old }
    requires on { IsOnDisk (D.view disk.old) manager.old }
    ensures served { Serves (Purpose.Reach why peer) now (stored_of manager.old)
        (stored_of manager.new) (C.held conn.old) (C.held conn.new) (C.taken conn.old)
        (C.taken conn.new) result }
    ensures whole { ServesWhole result (Purpose.Reach why peer) now (stored_of manager.old)
        (stored_of manager.new) (C.held conn.old) (C.taken conn.old) (C.taken conn.new) }
    ensures unlinked { manager.new.session ≡ None }
    ensures up { result ≢ Err ConnFault.DiskFault → IsUp manager.new }
    ensures disk { KeepsDisk (D.view disk.old) (D.view disk.new) manager.old manager.new }
    ensures disk_faults { FaultsAsSaid is_disk_fault (D.view disk.old).faults
        (D.view disk.new).faults result }
    ensures read_faults { FaultsAsSaid is_read_fault (C.read_faults conn.old)
        (C.read_faults conn.new) result }
    ensures write_faults { FaultsAsSaid is_write_fault (C.write_faults conn.old)
        (C.write_faults conn.new) result }
    ensures given { C.given conn.new ≡ C.given conn.old }
    ensures address { C.address conn.new ≡ C.address conn.old }
    ensures lent { C.lent conn.new ≡ C.lent conn.old }
{
    match why {
        Errand::Push => push_one(alloc, disk, manager, peer, conn, now),
        Errand::Fetch => fetch_one(alloc, disk, manager, peer, conn, now),
    }
}

/// Reaches the peer at an index over a connection to it, and says how it ended.
fn reach_over<D: Disk, N: Net, C: Clock>(
    alloc: Global,
    why: Errand,
    named: Option<[u8; 4]>,
    peer: usize,
    manager: &mut Manager,
    disk: &mut D,
    net: &mut N,
    clock: &mut C,
) -> Result<Result<(), ConnFault>, Failed>
    requires up { IsUp manager.old }
    requires on { IsOnDisk (D.view disk.old) manager.old }
    requires unlinked { manager.old.session ≡ None }
    requires peer { peer < length manager.old.store.state.peers }
    ensures reach { IfOk result (IsReach why named peer (C.steady clock.old) manager.old manager.new
        (N.finished net.old) (N.finished net.new)) }
    ensures up { IfOk result (λ end. end ≢ Err ConnFault.DiskFault → IsUp manager.new) }
    ensures unlinked { manager.new.session ≡ None }
    ensures disk { KeepsDisk (D.view disk.old) (D.view disk.new) manager.old manager.new }
    ensures disk_faults { IfOk result (FaultsAsSaid is_disk_fault (D.view disk.old).faults
        (D.view disk.new).faults) }
    ensures unchanged { OnErr result ((disk.new ≡ disk.old) × (manager.new ≡ manager.old)) }
    ensures net_faults { HasCause (N.faults net.old) (N.faults net.new) result }
    ensures lost { IfOk result (FaultsAsSaid is_lost (N.lost net.old) (N.lost net.new)) }
    ensures none_lost { OnErr result (N.lost net.new ≡ N.lost net.old) }
    ensures none_finished { OnErr result (N.finished net.new ≡ N.finished net.old) }
    ensures unfinished { N.unfinished net.new ≡ N.unfinished net.old }
    ensures clock { C.steady clock.new ≡ C.steady clock.old }
    ensures asked { MatchResult result (λ _. RoseBy 1 (C.asked clock.old) (C.asked clock.new))
        (λ _. C.asked clock.new ≡ C.asked clock.old) }
{
    let address = address_for(named, manager.state().contents().peers(), peer);
    let mut conn = net.connect(address)?;
    let now = clock.now();
    let end = serve_peer(alloc, why, peer as u32, disk, manager, &mut conn, now);
    net.finish(conn);
    Ok(end)
}

/// Writes the line of the connection, and ends as it did.
#[tactic(auto, using(crate::proofs::Reaches::line_told, crate::proofs::Reaches::no_line, crate::proofs::Reaches::plain_reach))]
fn tell_reach<K: Sink>(alloc: Global, end: Result<(), ConnFault>, out: &mut K) -> Status
    ensures told { TellsReach end (K.taken out.old) (K.taken out.new) result }
    ensures quiet { result ≢ Status.WriteFault →
        K.write_faults out.new ≡ K.write_faults out.old }
    ensures write_faults { WriteFaultHasCause (K.write_faults out.old) (K.write_faults out.new)
        result }
{
    match end {
        Err(ConnFault::DiskFault) => return Status::DiskFault,
        Err(ConnFault::Memory) => return Status::Memory,
        _ => {}
    }
    match end_line(alloc, 1, end) {
        Ok(line) => tell(out, &line, reach_status(end)),
        Err(Memory) => Status::Memory,
    }
}

/// Reaches the peer at an index, and says how the connection ended.
fn reach_at<K: Sink, D: Disk, N: Net, C: Clock>(
    alloc: Global,
    why: Errand,
    named: Option<[u8; 4]>,
    peer: usize,
    manager: &mut Manager,
    out: &mut K,
    disk: &mut D,
    net: &mut N,
    clock: &mut C,
) -> Status
    requires up { IsUp manager.old }
    requires on { IsOnDisk (D.view disk.old) manager.old }
    requires unlinked { manager.old.session ≡ None }
    requires peer { peer < length manager.old.store.state.peers }
    ensures reaches { ReachesAt why named (Some peer) (C.steady clock.old) (disk.new ≡ disk.old)
        (D.view disk.old).faults (D.view disk.new).faults manager.old manager.new (record {
          finished = N.finished net.old;
          finished_now = N.finished net.new;
          faults = N.faults net.old;
          faults_now = N.faults net.new;
          lost = N.lost net.old;
          lost_now = N.lost net.new;
          idle = N.idle net.old;
          idle_now = N.idle net.new;
        }) (K.taken out.old) (K.taken out.new) result }
    ensures disk { KeepsDisk (D.view disk.old) (D.view disk.new) manager.old manager.new }
    ensures unlinked { manager.new.session ≡ None }
    ensures up { GoesOn result → IsUp manager.new }
    ensures calm { GoesOn result → (D.view disk.new).faults ≡ (D.view disk.old).faults }
    ensures quiet { result ≢ Status.WriteFault →
        K.write_faults out.new ≡ K.write_faults out.old }
    ensures write_faults { WriteFaultHasCause (K.write_faults out.old) (K.write_faults out.new)
        result }
    ensures disk_faults { DiskFaultHasCause (D.view disk.old).faults (D.view disk.new).faults
        result }
    ensures unfinished { N.unfinished net.new ≡ N.unfinished net.old }
    ensures clock { C.steady clock.new ≡ C.steady clock.old }
    ensures asked { AsksForEach 1 (N.finished net.old) (N.finished net.new) (C.asked clock.old)
        (C.asked clock.new) }
    ensures ends { IsLinkEnd result }
{
    match reach_over(alloc, why, named, peer, manager, disk, net, clock) {
        Ok(end) => tell_reach(alloc, end, out),
        Err(Failed) => tell(out, b"connection 1: netfault\n", Status::NetFault),
    }
}

/// Reaches the peer of a host from a manager, at the address that the words name or else at the
/// peer's own, and says how the connection ended.
pub fn reach_host<K: Sink, D: Disk, N: Net, C: Clock>(
    alloc: Global,
    why: Errand,
    named: Option<[u8; 4]>,
    host: &Name,
    manager: &mut Manager,
    out: &mut K,
    disk: &mut D,
    net: &mut N,
    clock: &mut C,
) -> Status
    requires up { IsUp manager.old }
    requires on { IsOnDisk (D.view disk.old) manager.old }
    requires unlinked { manager.old.session ≡ None }
    ensures reaches { ReachesOn why named host.now (C.steady clock.old) (disk.new ≡ disk.old)
        (D.view disk.old).faults (D.view disk.new).faults manager.old manager.new (record {
          finished = N.finished net.old;
          finished_now = N.finished net.new;
          faults = N.faults net.old;
          faults_now = N.faults net.new;
          lost = N.lost net.old;
          lost_now = N.lost net.new;
          idle = N.idle net.old;
          idle_now = N.idle net.new;
        }) (K.taken out.old) (K.taken out.new) result }
    ensures disk { KeepsDisk (D.view disk.old) (D.view disk.new) manager.old manager.new }
    ensures unlinked { manager.new.session ≡ None }
    ensures up { GoesOn result → IsUp manager.new }
    ensures calm { GoesOn result → (D.view disk.new).faults ≡ (D.view disk.old).faults }
    ensures quiet { result ≢ Status.WriteFault →
        K.write_faults out.new ≡ K.write_faults out.old }
    ensures write_faults { WriteFaultHasCause (K.write_faults out.old) (K.write_faults out.new)
        result }
    ensures disk_faults { DiskFaultHasCause (D.view disk.old).faults (D.view disk.new).faults
        result }
    ensures unfinished { N.unfinished net.new ≡ N.unfinished net.old }
    ensures clock { C.steady clock.new ≡ C.steady clock.old }
    ensures asked { AsksForEach 1 (N.finished net.old) (N.finished net.new) (C.asked clock.old)
        (C.asked clock.new) }
    ensures ends { IsLinkEnd result }
{
    match peer_of_host(manager, host) {
        Some(peer) => reach_at(alloc, why, named, peer, manager, out, disk, net, clock),
        None => tell(out, b"nopeer\n", Status::Refused),
    }
}

/// Reaches the peer of a host from a store, as of `reach_host`.
pub fn reach<K: Sink, D: Disk, N: Net, C: Clock>(
    alloc: Global,
    why: Errand,
    named: Option<[u8; 4]>,
    host: &Name,
    out: &mut K,
    disk: &mut D,
    net: &mut N,
    clock: &mut C,
) -> Status
    ensures reaches { ReachesStore why named host.now (C.steady clock.old)
        (D.view disk.old) (D.view disk.new) (record {
          finished = N.finished net.old;
          finished_now = N.finished net.new;
          faults = N.faults net.old;
          faults_now = N.faults net.new;
          lost = N.lost net.old;
          lost_now = N.lost net.new;
          idle = N.idle net.old;
          idle_now = N.idle net.new;
        }) (K.taken out.old) (K.taken out.new) result }
    ensures unfinished { N.unfinished net.new ≡ N.unfinished net.old }
    ensures complete { CompletesReach (D.view disk.old) (D.view disk.new) (record {
      finished = N.finished net.old;
      finished_now = N.finished net.new;
      faults = N.faults net.old;
      faults_now = N.faults net.new;
      lost = N.lost net.old;
      lost_now = N.lost net.new;
      idle = N.idle net.old;
      idle_now = N.idle net.new;
    }) (K.write_faults out.old) (K.write_faults out.new) result }
    ensures write_faults { WriteFaultHasCause (K.write_faults out.old) (K.write_faults out.new)
        result }
    ensures disk_faults { DiskFaultHasCause (D.view disk.old).faults (D.view disk.new).faults
        result }
    ensures net_faults { NetFaultHasCause (Rose (N.faults net.old) (N.faults net.new)
        ⊎ Rose (N.lost net.old) (N.lost net.new)) result }
    ensures clock { C.steady clock.new ≡ C.steady clock.old }
    ensures asked { AsksForEach 1 (N.finished net.old) (N.finished net.new) (C.asked clock.old)
        (C.asked clock.new) }
    ensures ends { IsNetEnd result }
{
    let mut manager = match open(alloc, disk) {
        Ok(manager) => manager,
        Err(status) => return status,
    };
    let end = reach_host(alloc, why, named, host, &mut manager, out, disk, net, clock);
    manager.close();
    end
}
