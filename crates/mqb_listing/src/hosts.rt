ghost use Rattle.std.specs.Prelude.{◌≡◌, ◌∷◌, IfOk};

use mqb_base::{Identity, Memory};
use std::alloc::Global;

/// The managers that are printed as their hosts: a manager and its peers.
pub(crate) fn known_hosts(
    alloc: Global,
    identity: &Identity,
    peers: &[Identity],
) -> Result<Vec<Identity>, Memory>
    ensures { IfOk result (λ hosts. hosts.items ≡ identity.now ∷ peers.now) }
{
    let mut hosts = Vec::new(alloc);
    hosts.push(identity.clone()?)?;
    for peer in peers {
        hosts.push(peer.clone()?)?;
    }
    Ok(hosts)
}
