ghost use Rattle.std.specs.Prelude.{◌≡◌, ◌≤◌, Err, IfOk, OnOk, false, true};
ghost use Rattle.std.specs.List.{list_any};
ghost use Rattle.mqb_contents.specs.Rooms.{IsGrown};
ghost use Rattle.mqb_model.specs.records.Peer.{is_met, peer_fits, peer_there, with_peer};
ghost use Rattle.mqb_model.specs.records.Reading.{identity_of};
ghost use Rattle.mqb_model.specs.rules.Effects.{begun, joined};
ghost use Rattle.mqb_arrivals.specs.declared.faults.RecordFault.TheVariants as fault;

use mqb_arrivals::RecordFault;
use mqb_base::{Identity, Memory, Name};
use mqb_contents::Contents;
use mqb_drafts::Draft;
use mqb_entries::{IdentityView, NameSlice};
use mqb_model::MAX_PEERS;
use std::alloc::Global;

/// A copy of a name.
pub(crate) fn owned_name(alloc: Global, name: &NameSlice<'_>) -> Result<Name, Memory>
    ensures { IfOk result (λ owned. owned ≡ name.now) }
{
    Name::new(alloc, name.as_slice()).map_err(|_| Memory)
}

/// A copy of an identity.
pub fn owned_identity(alloc: Global, view: &IdentityView<'_>) -> Result<Identity, Memory>
    ensures { IfOk result (λ owned. owned ≡ identity_of view.now) }
{
    Ok(Identity {
        host: owned_name(alloc, &view.host)?,
        guid: view.guid,
        address: view.address,
    })
}

fn is_met(known: &Identity, peer: &Identity) -> bool
    ensures { result ≡ is_met known.now peer.now }
{
    known.guid == peer.guid || known.host.eq_ignore_ascii_case(&peer.host)
}

fn any_is_met(known: &[Identity], peer: &Identity) -> bool
    ensures { result ≡ list_any (λ k. is_met k peer.now) known.now }
{
    known.iter().any(|k| is_met(k, peer))
}

/// Whether a manager is this one or a peer: it has the same GUID, or the same host
/// ignoring ASCII case.
pub fn peer_there(contents: &Contents, peer: &Identity) -> bool
    ensures { result ≡ peer_there contents.now.lists peer.now }
{
    is_met(contents.identity(), peer) || any_is_met(contents.peers(), peer)
}

fn peer_fits(contents: &Contents, peer: &Identity) -> bool
    ensures { result ≡ peer_fits contents.now.lists peer.now }
{
    !peer_there(contents, peer) && contents.peers().len() < MAX_PEERS
}

/// A peer joins the others.
#[tactic(auto, using(crate::proofs::Framing::joined_begun))]
pub(crate) fn add_peer(draft: &mut Draft, view: &IdentityView<'_>) -> Result<(), RecordFault>
    ensures ok { OnOk result (draft.new.effect ≡ joined draft.old.effect
        (begun (with_peer draft.old.effect.state (identity_of view.now)))) }
    ensures fit { OnOk result (peer_fits draft.old.effect.state (identity_of view.now) ≡ true) }
    ensures start { draft.new.start ≡ draft.old.start }
    ensures grown { IsGrown draft.old.rooms draft.new.rooms }
    ensures held { OnOk result (draft.new.held ≤ draft.old.held) }
    ensures unfit { result ≡ Err fault.Unfit →
        peer_fits draft.old.effect.state (identity_of view.now) ≡ false }
{
    let identity = owned_identity(draft.alloc(), view)?;
    if !peer_fits(draft.contents(), &identity) {
        return Err(RecordFault::Unfit);
    }
    draft.add_peer(identity)?;
    Ok(())
}
