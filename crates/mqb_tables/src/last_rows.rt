//! The last outgoing row that leads to a destination, and the table that leads to its ordinal.
ghost use Rattle.std.specs.Prelude.{◌≡◌, ◌<◌, IfSome, None, Some, false, filter, length, map};
ghost use Rattle.std.specs.Prelude.{option_and_then, slice_get};
ghost use Rattle.std.specs.List.{last_or};
ghost use Rattle.std.specs.Option.{option_map_or};
ghost use Rattle.indexmap.specs.IndexMap.{get, keys};
ghost use Rattle.mqb_orders.specs.Rows.{leads_to, row_of};
ghost use Rattle.mqb_orders.specs.declared.keys.OutKey.{OutKey};
ghost use Rattle.mqb_tables.specs.Keys.{HasKey, out_key, same_out_key};

use crate::in_use::lead;
use indexmap::IndexMap;
use mqb_base::QueueName;
use mqb_orders::{OutKey, OutRow};

fn leads_to(row: &OutRow, peer: u32, destination: &QueueName) -> bool
    ensures { result ≡ leads_to peer destination.now (row_of row.now) }
{
    row.peer == peer && row.destination == *destination
}

/// Whether the row at a place is there and leads to a destination at a peer.
pub fn leads_there(rows: &[OutRow], k: u32, peer: u32, destination: &QueueName) -> bool
    ensures { result ≡ option_map_or (leads_to peer destination.now)
        (slice_get (map row_of rows.now) k) false }
{
    match rows.get(k as usize) {
        Some(row) => leads_to(row, peer, destination),
        None => false,
    }
}

pub fn index_of_last(rows: &[OutRow], peer: u32, destination: &QueueName) -> Option<usize>
    ensures row { option_and_then (slice_get (map row_of rows.now)) result ≡
        last_or None (filter (leads_to peer destination.now) (map row_of rows.now)) }
    ensures within { IfSome result (λ k. k < length rows.now) }
{
    let mut last = None;
    for (k, row) in rows.iter().enumerate() {
        if leads_to(row, peer, destination) {
            last = Some(k);
        }
    }
    last
}

/// The table leads from a peer and a destination, which it has, to the ordinal of the last row that
/// has them, where there is one. It takes no memory.
pub fn lead_to_last(
    in_use: &mut IndexMap<OutKey, u32>,
    rows: &[OutRow],
    peer: u32,
    destination: &QueueName,
)
    requires { HasKey same_out_key (keys in_use.old) (out_key peer destination.now) }
    ensures last { IfSome
        (last_or None (filter (leads_to peer destination.now) (map row_of rows.now)))
        (λ row. get same_out_key in_use.new (out_key peer destination.now) ≡
        Some row.sequence.ordinal) }
    ensures others { (key : OutKey) → same_out_key (out_key peer destination.now) key ≡ false →
        get same_out_key in_use.new key ≡ get same_out_key in_use.old key }
    ensures keys { keys in_use.new ≡ keys in_use.old }
{
    if let Some(k) = index_of_last(rows, peer, destination) {
        lead(in_use, peer, destination, rows[k].sequence.ordinal);
    }
}
