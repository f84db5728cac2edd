//! The table that leads from the sources and destinations of incoming rows to
//! their places in the list.
ghost use Rattle.std.specs.Prelude.{◌≡◌, ℕ, OnOk, Some, if◌then◌else◌};
ghost use Rattle.std.specs.Cmp.Rules.{hashing};
ghost use Rattle.std.proofs.Common.{rules};
ghost use Rattle.indexmap.specs.IndexMap.{get, keys};
ghost use Rattle.mqb_orders.specs.declared.keys.InKey.{InKey};
ghost use Rattle.mqb_tables.specs.Keys.{AreKeysKept, HasKey, in_key, same_in_key};

use indexmap::{Equivalent, IndexMap};
use mqb_base::{Guid, Memory, QueueName};
use mqb_orders::InKey;

/// A key whose destination is borrowed.
#[derive(Clone, Copy, Debug, PartialEq, Eq, Hash)]
struct InRef<'a> {
    source: Guid,
    destination: &'a QueueName,
}

impl<'a> Equivalent<InKey> for InRef<'a> {
    ghost use Rattle.mqb_orders.specs.contracts.keys.InKeyPartialEq.TheImpl as eq;
    ghost use Rattle.mqb_orders.specs.declared.keys.InKey.{InKey};

    ghost equivalent = { λ q key. eq.ghosts.eq (in_key q.source q.destination.now) key };

    ghost respects_hash = { Prim.search (hashing, rules) };

    ghost respects_eq = { Prim.search (hashing, rules) };

    fn equivalent(&self, key: &InKey) -> bool {
        self.source == key.source && *self.destination == key.destination
    }
}

/// The number to which the table leads from a source and a destination.
pub fn number_of(
    sources: &IndexMap<InKey, u32>,
    source: Guid,
    destination: &QueueName,
) -> Option<u32>
    ensures { result ≡ get same_in_key sources.now (in_key source destination.now) }
{
    sources
        .get(InRef {
            source,
            destination,
        })
        .copied()
}

/// Enters a source and a destination that the table does not have. It may lead
/// from them to any number.
pub fn make_room(
    sources: &mut IndexMap<InKey, u32>,
    source: Guid,
    destination: &QueueName,
) -> Result<(), Memory>
    ensures kept { (key : InKey) (n : ℕ) → get same_in_key sources.old key ≡ Some n →
        get same_in_key sources.new key ≡ Some n }
    ensures grown { AreKeysKept same_in_key (keys sources.old) (keys sources.new) }
    ensures ok { OnOk result
        (HasKey same_in_key (keys sources.new) (in_key source destination.now)) }
{
    if number_of(sources, source, destination).is_none() {
        let key = InKey {
            source,
            destination: destination.clone()?,
        };
        sources.insert(key, 0)?;
    }
    Ok(())
}

/// The table leads from a source and a destination, which it has, to a number. It takes no memory.
pub fn lead(sources: &mut IndexMap<InKey, u32>, source: Guid, destination: &QueueName, number: u32)
    requires { HasKey same_in_key (keys sources.old) (in_key source destination.now) }
    ensures updates { (key : InKey) → get same_in_key sources.new key ≡
        if same_in_key (in_key source destination.now) key then Some number
        else get same_in_key sources.old key }
    ensures keys { keys sources.new ≡ keys sources.old }
{
    if let Some(place) = sources.get_mut(InRef {
        source,
        destination,
    }) {
        *place = number;
    }
}
