//! How a manager is made on an empty disk, with the other one as its peer.
ghost use Rattle.std.specs.Prelude.{[], ◌∷◌, ◌≡◌, ◌≢◌, Err, IfOk, OnOk, false, length};
ghost use Rattle.mqb_outside.specs.Disk.{OnlyReads};
ghost use Rattle.mqb_journal.specs.Causes.{FaultsAsSaid};
ghost use Rattle.mqb_moves.specs.States.{manager_of};
ghost use Rattle.mqb_model.specs.managers.Manager.{new_manager};
ghost use Rattle.mqb_model.specs.records.Peer.{is_met};
ghost use Rattle.mqb_moves.specs.Calling.{seat_of};
ghost use Rattle.mqb_moves.specs.Seats.{IsHeldOn, records_of, seated};
ghost use Rattle.mqb_network.specs.Network.{formatted};
ghost use Rattle.mqb_world.specs.Faults.{making_failed};
ghost use Rattle.mqb_world.specs.Making.{HasBytes, IsEmpty};

use crate::faults::WorldFault;
use mqb_base::Identity;
use mqb_model::AddPeerFault;
use mqb_moves::{Manager, OpenFault};
use mqb_outside::Power;
use mqb_turns::Seat;
use std::alloc::Global;

/// Finds that a disk has no bytes.
pub(crate) fn find_empty<P: Power>(disk: &mut P) -> Result<(), WorldFault>
    ensures empty { OnOk result (IsEmpty (P.view disk.old)) }
    ensures not_empty { result ≡ Err WorldFault.NotEmpty → HasBytes (P.view disk.old) }
    ensures never { result ≢ Err WorldFault.NetFull }
    ensures rich { result ≢ Err WorldFault.Memory }
    ensures reads { OnlyReads (P.view disk.old) (P.view disk.new) }
    ensures switch { (P.view disk.new).switch ≡ (P.view disk.old).switch }
    ensures cause { FaultsAsSaid making_failed (P.view disk.old).faults
        (P.view disk.new).faults result }
{
    let Ok(len) = disk.len() else {
        return Err(WorldFault::DiskFault);
    };
    if len > 0 {
        return Err(WorldFault::NotEmpty);
    }
    Ok(())
}

/// A manager with nothing but its identity.
fn format<P: Power>(alloc: Global, disk: &mut P, own: &Identity) -> Result<Manager, WorldFault>
    requires whole { length own.now.guid.0 ≡ 16 }
    ensures manager { IfOk result (λ n. manager_of n ≡ new_manager own.now) }
    ensures count { IfOk result (λ n. n.store.journal.count ≡ 1) }
    ensures held { IfOk result (λ n. IsHeldOn (P.view disk.new) (seat_of n)) }
    ensures not_empty { result ≡ Err WorldFault.NotEmpty → HasBytes (P.view disk.old) }
    ensures never { result ≢ Err WorldFault.NetFull }
    ensures switch { (P.view disk.new).switch ≡ (P.view disk.old).switch }
    ensures cause { FaultsAsSaid making_failed (P.view disk.old).faults
        (P.view disk.new).faults result }
{
    match Manager::format(alloc, disk, own) {
        Ok(manager) => Ok(manager),
        Err(OpenFault::NotEmpty) => Err(WorldFault::NotEmpty),
        Err(OpenFault::Memory) => Err(WorldFault::Memory),
        Err(OpenFault::DiskFault) => Err(WorldFault::DiskFault),
        Err(OpenFault::BadStore { at: _ }) => unreachable!(),
    }
}

/// A manager knows another one that it did not know.
fn meet<P: Power>(
    manager: &mut Manager,
    disk: &mut P,
    own: &Identity,
    peer: &Identity,
) -> Result<(), WorldFault>
    requires apart { is_met own.now peer.now ≡ false }
    requires new { manager_of manager.old ≡ new_manager own.now }
    requires held { IsHeldOn (P.view disk.old) (seat_of manager.old) }
    requires one { manager.old.store.journal.count ≡ 1 }
    ensures manager { OnOk result (manager_of manager.new ≡ formatted own.now (peer.now ∷ [])) }
    ensures held { OnOk result (IsHeldOn (P.view disk.new) (seat_of manager.new)) }
    ensures count { OnOk result (manager.new.store.journal.count ≡ 2) }
    ensures not_empty { result ≢ Err WorldFault.NotEmpty }
    ensures never { result ≢ Err WorldFault.NetFull }
    ensures switch { (P.view disk.new).switch ≡ (P.view disk.old).switch }
    ensures cause { FaultsAsSaid making_failed (P.view disk.old).faults
        (P.view disk.new).faults result }
{
    match manager.add_peer(disk, peer) {
        Ok(_) => Ok(()),
        Err(AddPeerFault::Memory) => Err(WorldFault::Memory),
        Err(AddPeerFault::DiskFault) => Err(WorldFault::DiskFault),
        Err(AddPeerFault::Down) => unreachable!(),
        Err(AddPeerFault::PeerThere) => unreachable!(),
        Err(AddPeerFault::TooManyPeers) => unreachable!(),
    }
}

/// A manager on an empty disk, which knows one peer.
pub(crate) fn make<P: Power>(
    alloc: Global,
    disk: &mut P,
    own: &Identity,
    peer: &Identity,
) -> Result<Seat, WorldFault>
    requires whole { length own.now.guid.0 ≡ 16 }
    requires apart { is_met own.now peer.now ≡ false }
    ensures manager { IfOk result (λ seat. seated seat ≡ formatted own.now (peer.now ∷ [])) }
    ensures held { IfOk result (IsHeldOn (P.view disk.new)) }
    ensures count { IfOk result (λ seat. records_of seat ≡ 2) }
    ensures not_empty { result ≡ Err WorldFault.NotEmpty → HasBytes (P.view disk.old) }
    ensures never { result ≢ Err WorldFault.NetFull }
    ensures switch { (P.view disk.new).switch ≡ (P.view disk.old).switch }
    ensures cause { FaultsAsSaid making_failed (P.view disk.old).faults
        (P.view disk.new).faults result }
{
    let mut manager = format(alloc, disk, own)?;
    match meet(&mut manager, disk, own, peer) {
        Ok(()) => Ok(Seat::new(alloc, manager)),
        Err(fault) => {
            manager.close();
            Err(fault)
        }
    }
}
