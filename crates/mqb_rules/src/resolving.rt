ghost use Rattle.std.specs.Prelude.{◌≡◌, ◌<◌, false, length, IfSome, position};
ghost use Rattle.std.specs.Option.{option_map_or};
ghost use Rattle.mqb_base.specs.Same.{same_guid};
ghost use Rattle.mqb_model.specs.state.Resolving.{at_peer, at_queue, guid_at, is_for_order_layer};
ghost use Rattle.mqb_model.specs.state.Resolving.{is_host_of, is_own_host, is_registered, peer_at};
ghost use Rattle.mqb_model.specs.state.Resolving.{queue_named, queue_numbered};
ghost use Rattle.mqb_model.specs.state.Resolving.{queue_registered, resolved};

use mqb_base::{Guid, Host, Identity, Name, QueueName, QueuePlan};
use mqb_drafts::Contents;
use mqb_fate::names_order_layer;
use mqb_model::Target;
use mqb_queue::Queues;

fn is_host_of(host: &Host, peer: &Identity) -> bool
    ensures { result ≡ is_host_of host.now peer.now }
{
    match host {
        Host::Os(name) => name.eq_ignore_ascii_case(&peer.host),
        Host::Tcp(address) => *address == peer.address,
    }
}

fn is_own_host(own: &Identity, host: &Host) -> bool
    ensures { result ≡ is_own_host own.now host.now }
{
    match host {
        Host::Os(name) => {
            name.as_slice() == b".".as_slice() || name.eq_ignore_ascii_case(&own.host)
        }
        Host::Tcp(address) => *address == own.address,
    }
}

fn at_peer(peer: Option<u32>) -> Target
    ensures { result ≡ at_peer peer }
{
    match peer {
        Some(k) => Target::AtPeer(k),
        None => Target::Nowhere,
    }
}

fn at_queue(queue: Option<u32>) -> Target
    ensures { result ≡ at_queue queue }
{
    match queue {
        Some(number) => Target::Here(Some(number)),
        None => Target::Nowhere,
    }
}

/// The number of the queue that has a name, ignoring ASCII case.
pub fn queue_named(contents: &Contents, name: &Name) -> Option<u32>
    ensures { result ≡ queue_named contents.now.lists name.now }
{
    match contents.queues().find(name) {
        Some(k) => Some(k + 1),
        None => None,
    }
}

fn queue_numbered(contents: &Contents, number: u32) -> Option<u32>
    ensures { result ≡ queue_numbered contents.now.lists number }
{
    match contents.queues().plan_numbered(number) {
        Some(_) => Some(number),
        None => None,
    }
}

fn index_of_host(peers: &[Identity], host: &Host) -> Option<usize>
    ensures index { result ≡ position (is_host_of host.now) peers.now }
    ensures within { IfSome result (λ k. k < length peers.now) }
{
    peers.iter().position(|peer| is_host_of(host, peer))
}

fn peer_at(contents: &Contents, host: &Host) -> Option<u32>
    ensures { result ≡ peer_at contents.now.lists host.now }
{
    match index_of_host(contents.peers(), host) {
        Some(k) => Some(k as u32),
        None => None,
    }
}

/// Where a name leads.
pub fn resolved(contents: &Contents, name: &QueueName) -> Target
    ensures { result ≡ resolved contents.now.lists name.now }
{
    match name {
        QueueName::Public {
            guid,
            journal: false,
        } => at_queue(queue_registered(contents, *guid)),
        QueueName::Private {
            qm,
            number,
            journal: false,
        } => {
            if *qm == contents.identity().guid {
                Target::Here(queue_numbered(contents, *number))
            } else {
                at_peer(contents.peer_known(*qm))
            }
        }
        QueueName::Direct {
            host,
            queue,
            journal: false,
        } => {
            if is_own_host(contents.identity(), host) {
                Target::Here(queue_named(contents, queue))
            } else {
                at_peer(peer_at(contents, host))
            }
        }
        _ => Target::Nowhere,
    }
}

/// The manager to which a message for a target goes.
pub fn guid_at(contents: &Contents, target: Target) -> Guid
    ensures { result ≡ guid_at contents.now.lists target }
{
    match target {
        Target::AtPeer(k) => match contents.peers().get(k as usize) {
            Some(peer) => peer.guid,
            None => contents.identity().guid,
        },
        Target::Here(_) | Target::Nowhere => contents.identity().guid,
    }
}

/// Whether a name is that of this manager's order layer. Its host tells: no queue is looked for.
#[tactic(auto, using(crate::proofs::Here::here_by_host))]
pub fn is_for_order_layer(contents: &Contents, name: &QueueName) -> bool
    ensures { result ≡ is_for_order_layer contents.now.lists name.now }
{
    match name {
        QueueName::Direct {
            host,
            journal: false,
            ..
        } => names_order_layer(name) && is_own_host(contents.identity(), host),
        _ => false,
    }
}

/// Whether a queue is registered under a GUID.
pub fn is_registered(plan: &QueuePlan, guid: Guid) -> bool
    ensures { result ≡ option_map_or (same_guid guid) plan.now.public false }
{
    match plan.public {
        Some(public) => guid == public,
        None => false,
    }
}

fn index_registered(queues: &Queues, guid: Guid) -> Option<u32>
    ensures index { result ≡ position (is_registered guid) queues.now.lists.queues }
    ensures within { IfSome result (λ k. k < length queues.now.lists.queues) }
{
    for k in 0..queues.count() {
        if is_registered(queues.plan(k), guid) {
            return Some(k);
        }
    }
    None
}

fn queue_registered(contents: &Contents, guid: Guid) -> Option<u32>
    ensures { result ≡ queue_registered contents.now.lists guid }
{
    match index_registered(contents.queues(), guid) {
        Some(k) => Some(k + 1),
        None => None,
    }
}
