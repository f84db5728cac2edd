ghost use Rattle.std.specs.Prelude.{◌≡◌, ◌+◌, ◌<◌, OnOk, length};
ghost use Rattle.std.specs.List.{list_any};
ghost use Rattle.mqb_base.specs.Same.{same_ignoring_case};
ghost use Rattle.mqb_model.specs.declared.limits.TheConstants.{MAX_PEERS};
ghost use Rattle.mqb_snapshot.specs.Fields.{guid_known, host_at, host_known, peer_guid_at};
ghost use Rattle.mqb_read_back.specs.Answers.{Gives, Joins};
ghost use Rattle.mqb_snapshot.specs.Reading.{identity_at, peer_at, peer_joined, peers_joined};

use crate::faults::BackFault;
use crate::fields::{address_field, guid_field, name_field, within_field};
use crate::parts::ReadParts;
use mqb_base::{Guid, Identity, Name};
use mqb_contents::{Change, Contents, NewPeer};
use mqb_fields::Cursor;
use mqb_model::MAX_PEERS;
use std::alloc::Global;

#[tactic(auto, unfolding(mqb_snapshot::specs::Reading::identity_at))]
pub(crate) fn identity_field(alloc: Global, cursor: &mut Cursor<'_>) -> Result<Identity, BackFault>
    ensures { Gives identity_at cursor.old cursor.new result }
{
    Ok(Identity {
        host: name_field(alloc, cursor)?,
        guid: guid_field(cursor)?,
        address: address_field(cursor)?,
    })
}

fn any_has_host(peers: &[Identity], host: &Name) -> bool
    ensures { result ≡ list_any (λ peer. same_ignoring_case peer.host host.now) peers.now }
{
    peers
        .iter()
        .any(|peer| peer.host.eq_ignore_ascii_case(host))
}

fn host_known(contents: &Contents, host: &Name) -> bool
    ensures { result ≡ host_known contents.now.lists host.now }
{
    contents.identity().host.eq_ignore_ascii_case(host) || any_has_host(contents.peers(), host)
}

fn guid_known(contents: &Contents, guid: Guid) -> bool
    ensures { result ≡ guid_known contents.now.lists guid }
{
    contents.identity().guid == guid || contents.peer_known(guid).is_some()
}

/// The host of a peer that is new.
#[tactic(auto, unfolding(mqb_snapshot::specs::Fields::host_at))]
fn host_field(
    alloc: Global,
    contents: &Contents,
    cursor: &mut Cursor<'_>,
) -> Result<Name, BackFault>
    ensures { Gives (host_at contents.now.lists) cursor.old cursor.new result }
{
    let at = cursor.at();
    let host = name_field(alloc, cursor)?;
    if host_known(contents, &host) {
        return Err(BackFault::Bad { at });
    }
    Ok(host)
}

/// The GUID of a peer that is new.
#[tactic(auto, unfolding(mqb_snapshot::specs::Fields::peer_guid_at))]
fn peer_guid_field(contents: &Contents, cursor: &mut Cursor<'_>) -> Result<Guid, BackFault>
    ensures { Gives (peer_guid_at contents.now.lists) cursor.old cursor.new result }
{
    let at = cursor.at();
    let guid = guid_field(cursor)?;
    if guid_known(contents, guid) {
        return Err(BackFault::Bad { at });
    }
    Ok(guid)
}

/// A peer that is new.
#[tactic(auto, unfolding(mqb_snapshot::specs::Reading::peer_at))]
fn peer_field(
    alloc: Global,
    contents: &Contents,
    cursor: &mut Cursor<'_>,
) -> Result<Identity, BackFault>
    ensures { Gives (peer_at contents.now.lists) cursor.old cursor.new result }
{
    Ok(Identity {
        host: host_field(alloc, contents, cursor)?,
        guid: peer_guid_field(contents, cursor)?,
        address: address_field(cursor)?,
    })
}

impl ReadParts {
    /// A peer joins the others.
    #[tactic(auto, unfolding(mqb_snapshot::specs::Reading::peer_joined))]
    fn peer(&mut self, cursor: &mut Cursor<'_>) -> Result<(), BackFault>
        requires { length self.old.state.peers < MAX_PEERS }
        ensures joined { Joins peer_joined self.old cursor.old self.new cursor.new result }
        ensures peers { OnOk result (length self.new.state.peers ≡
            length self.old.state.peers + 1) }
        ensures places { OnOk result (self.new.state.places ≡ self.old.state.places) }
    {
        let peer = peer_field(self.alloc, &self.contents, cursor)?;
        self.change(Change::AddPeer(NewPeer::new(self.alloc, peer)))?;
        Ok(())
    }

    /// All peers, behind their count.
    #[tactic(auto, unfolding(mqb_snapshot::specs::Reading::peers_joined))]
    pub(crate) fn peers(&mut self, cursor: &mut Cursor<'_>) -> Result<(), BackFault>
        requires { length self.old.state.peers ≡ 0 }
        ensures joined { Joins peers_joined self.old cursor.old self.new cursor.new result }
        ensures places { OnOk result (self.new.state.places ≡ self.old.state.places) }
    {
        let count = within_field(cursor, 0, MAX_PEERS as u32)?;
        for _ in 0..count {
            self.peer(cursor)?;
        }
        Ok(())
    }
}
