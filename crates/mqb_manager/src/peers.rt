ghost use Rattle.std.specs.Prelude.{◌<◌, ◌≡◌, ◌≤◌, All, Err, None, length};
ghost use Rattle.mqb_entries.specs.SpelledEntries.{spelled};
ghost use Rattle.mqb_entries.specs.declared.entry.Entry.TheVariants as form;
ghost use Rattle.mqb_manager.specs.Calls.{CallsForRecord, IsCall, RefusesFirst, SaysDown};
ghost use Rattle.mqb_manager.specs.States.{IsOnDisk, IsUp, manager_of};
ghost use Rattle.mqb_model.specs.calls.AddPeer.{add_peer, add_peer_refusal};
ghost use Rattle.mqb_model.specs.declared.limits.TheConstants.{MAX_RECORD};
ghost use Rattle.mqb_model.specs.records.Reading.{identity_of};
ghost use Rattle.mqb_names.specs.Values.{IsName};

use crate::manager::Manager;
use crate::writing::{answer, calls_can_be_written};
use mqb_base::Identity;
use mqb_entries::{Entry, IdentityView, NameSlice};
use mqb_model::{AddPeerFault, MAX_PEERS};
use mqb_outside::Disk;
use mqb_store::{ExpressWork, peer_there};

fn bytes_fit(bytes: &[u8])
    ensures { All (λ b. b < 256) bytes.now }
{}

/// An address has four bytes. This says so, and does nothing.
fn address_fits(address: &[u8; 4])
    ensures { length address.now ≡ 4 }
{
    bytes_fit(address);
}

/// A manager as an entry shows it.
fn view_of(identity: &Identity) -> IdentityView<'_>
    ensures identity { identity_of result ≡ identity.now }
    ensures name { IsName identity.now.host }
    ensures size { length (spelled (form.Peer result)) ≤ MAX_RECORD }
{
    let host = NameSlice::of(&identity.host);
    let _name = host.as_slice();
    address_fits(&identity.address);
    IdentityView {
        host,
        guid: identity.guid,
        address: identity.address,
    }
}

impl Manager {
    fn add_peer_refusal(&self, peer: &Identity) -> Option<AddPeerFault>
        ensures { result ≡ add_peer_refusal (manager_of self.now) peer.now }
    {
        if self.is_down() {
            return Some(AddPeerFault::Down);
        }
        let contents = self.store.state().contents();
        if peer_there(contents, peer) {
            return Some(AddPeerFault::PeerThere);
        }
        if contents.peers().len() >= MAX_PEERS {
            return Some(AddPeerFault::TooManyPeers);
        }
        None
    }

    /// Adds a manager to those that it knows, and answers its index, which counts from 0.
    pub fn add_peer<D: Disk>(&mut self, disk: &mut D, peer: &Identity) -> Result<u32, AddPeerFault>
        requires { IsUp self.old → IsOnDisk (D.view disk.old) self.old }
        ensures call { IsCall AddPeerFault.Memory AddPeerFault.DiskFault (D.view disk.old)
            (D.view disk.new) self.old self.new (add_peer (manager_of self.old) peer.now) result }
        ensures down { SaysDown AddPeerFault.Down self.old self.new result }
        ensures first { RefusesFirst (add_peer (manager_of self.old) peer.now) result }
        // Where no record is written the disk is not called.
        ensures untouched { (add_peer (manager_of self.old) peer.now).entry ≡ None
            → disk.new ≡ disk.old }
        ensures memory { result ≡ Err AddPeerFault.Memory → disk.new ≡ disk.old }
        ensures calls { CallsForRecord (D.view disk.old) (D.view disk.new)
            (add_peer (manager_of self.old) peer.now).entry result }
    {
        calls_can_be_written();
        self.is_valid();
        if let Some(fault) = self.add_peer_refusal(peer) {
            return Err(fault);
        }
        let index = self.state().contents().peers().len() as u32;
        let entry = Entry::Peer(view_of(peer));
        let written = self.write(disk, Some(&entry), ExpressWork::Nothing);
        answer(
            written,
            index,
            AddPeerFault::Memory,
            AddPeerFault::DiskFault,
        )
    }
}
