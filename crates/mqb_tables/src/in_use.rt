//! The table that leads from the peers and destinations of outgoing rows to their ordinals.
ghost use Rattle.std.specs.Prelude.{◌≡◌, ℕ, OnOk, Some, if◌then◌else◌};
ghost use Rattle.std.specs.Cmp.Rules.{hashing};
ghost use Rattle.std.proofs.Common.{rules};
ghost use Rattle.indexmap.specs.IndexMap.{get, keys};
ghost use Rattle.mqb_orders.specs.declared.keys.OutKey.{OutKey};
ghost use Rattle.mqb_tables.specs.Keys.{AreKeysKept, HasKey, out_key, same_out_key};

use indexmap::{Equivalent, IndexMap};
use mqb_base::{Memory, QueueName};
use mqb_orders::OutKey;

/// A key whose destination is borrowed.
#[derive(Clone, Copy, Debug, PartialEq, Eq, Hash)]
struct OutRef<'a> {
    peer: u32,
    destination: &'a QueueName,
}

impl<'a> Equivalent<OutKey> for OutRef<'a> {
    ghost use Rattle.mqb_orders.specs.contracts.keys.OutKeyPartialEq.TheImpl as eq;
    ghost use Rattle.mqb_orders.specs.declared.keys.OutKey.{OutKey};

    ghost equivalent = { λ q key. eq.ghosts.eq (out_key q.peer q.destination.now) key };

    ghost respects_hash = { Prim.search (hashing, rules) };

    ghost respects_eq = { Prim.search (hashing, rules) };

    fn equivalent(&self, key: &OutKey) -> bool {
        self.peer == key.peer && *self.destination == key.destination
    }
}

/// The number to which the table leads from a peer and a destination.
pub fn number_of(in_use: &IndexMap<OutKey, u32>, peer: u32, destination: &QueueName) -> Option<u32>
    ensures { result ≡ get same_out_key in_use.now (out_key peer destination.now) }
{
    in_use.get(OutRef { peer, destination }).copied()
}

/// Enters a peer and a destination that the table does not have. It may lead
/// from them to any number.
pub fn make_room(
    in_use: &mut IndexMap<OutKey, u32>,
    peer: u32,
    destination: &QueueName,
) -> Result<(), Memory>
    ensures kept { (key : OutKey) (n : ℕ) → get same_out_key in_use.old key ≡ Some n →
        get same_out_key in_use.new key ≡ Some n }
    ensures grown { AreKeysKept same_out_key (keys in_use.old) (keys in_use.new) }
    ensures ok { OnOk result
        (HasKey same_out_key (keys in_use.new) (out_key peer destination.now)) }
{
    if number_of(in_use, peer, destination).is_none() {
        let key = OutKey {
            peer,
            destination: destination.clone()?,
        };
        in_use.insert(key, 0)?;
    }
    Ok(())
}

/// The table leads from a peer and a destination, which it has, to a number. It takes no memory.
pub fn lead(in_use: &mut IndexMap<OutKey, u32>, peer: u32, destination: &QueueName, number: u32)
    requires { HasKey same_out_key (keys in_use.old) (out_key peer destination.now) }
    ensures updates { (key : OutKey) → get same_out_key in_use.new key ≡
        if same_out_key (out_key peer destination.now) key then Some number
        else get same_out_key in_use.old key }
    ensures keys { keys in_use.new ≡ keys in_use.old }
{
    if let Some(ordinal) = in_use.get_mut(OutRef { peer, destination }) {
        *ordinal = number;
    }
}
