ghost use Rattle.std.specs.Prelude.{◌≡◌, ◌∷◌, IfOk};
ghost use Rattle.mqb_answers.specs.Texts.{hosts_of};

use mqb_base::{Identity, Memory};
use mqb_replies::Manager;
use std::alloc::Global;

fn known_hosts(
    alloc: Global,
    identity: &Identity,
    peers: &[Identity],
) -> Result<Vec<Identity>, Memory>
    ensures { IfOk result (λ hosts. hosts.items ≡ identity.now ∷ peers.now) }
{
    let mut hosts = Vec::new(alloc);
    hosts.push(identity.clone()?)?;
    for peer in peers {
        hosts.push(peer.clone()?)?;
    }
    Ok(hosts)
}

/// The managers that are printed as their hosts: a manager and its peers.
pub fn hosts_of(alloc: Global, manager: &Manager) -> Result<Vec<Identity>, Memory>
    ensures { IfOk result (λ hosts. hosts.items ≡ hosts_of manager.now.store.state) }
{
    let state = manager.state();
    known_hosts(alloc, state.identity(), state.peers())
}
