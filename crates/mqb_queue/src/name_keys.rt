//! The table that leads from the names of queues to their places in the list.
ghost use Rattle.std.specs.Prelude.{◌≡◌, ◌+◌, ◌<◌, ◌≤◌, All, None, OnErr, OnOk, IsOk, Some, length, map};
ghost use Rattle.indexmap.specs.IndexMap.{IsUnchanged, Updates, get, index_map_len, spare};
ghost use Rattle.mqb_base.specs.Names.{name_fault};
ghost use Rattle.mqb_queue.specs.Names.{LeadsTo, key_of, same_key, with_key};
ghost use Rattle.mqb_queue.specs.Places.{NamesDiffer};
ghost use Rattle.mqb_queue.specs.Seen.{queue_of};

use crate::queue::Queue;
use indexmap::IndexMap;
use mqb_base::{MAX_NAME, Memory, Name};

/// A queue's name in lower case, followed by zeros.
#[derive(Clone, Copy, Debug, PartialEq, Eq, Hash)]
pub(crate) struct NameKey(pub [u8; 64]);

/// The key of a name.
pub(crate) fn name_key(name: &Name) -> NameKey
    ensures key { result ≡ key_of name.now }
    ensures valid { name_fault name.now ≡ None }
{
    let mut key = [0; MAX_NAME];
    for (k, byte) in name.as_slice().iter().enumerate() {
        key[k] = byte.to_ascii_lowercase();
    }
    NameKey(key)
}

/// A key that the table does not have gets a number. It takes no memory.
pub(crate) fn enter(names: &mut IndexMap<NameKey, u32>, key: NameKey, number: u32)
    requires room { 0 < spare names.old }
    requires absent { get same_key names.old key ≡ None }
    ensures updates { Updates same_key names.old names.new key (Some number) }
    ensures len { index_map_len names.new ≡ index_map_len names.old + 1 }
    ensures spare { spare names.old ≤ spare names.new + 1 }
{
    let _ = names.insert(key, number);
}

/// The table has the names of these queues alone. It takes no memory.
pub(crate) fn enter_all(names: &mut IndexMap<NameKey, u32>, queues: &[Queue])
    requires few { length queues.now ≤ 0xFFFFFFFF }
    requires room { length queues.now ≤ index_map_len names.old + spare names.old }
    requires valid { All (λ q. name_fault q.plan.name ≡ None) (map queue_of queues.now) }
    requires differ { NamesDiffer (map queue_of queues.now) }
    ensures leads { LeadsTo (map queue_of queues.now) names.new }
    ensures len { index_map_len names.new ≡ length queues.now }
    ensures room { index_map_len names.old + spare names.old ≤
        index_map_len names.new + spare names.new }
{
    names.clear();
    for (k, queue) in queues.iter().enumerate() {
        enter(names, name_key(&queue.plan.name), k as u32);
    }
}
