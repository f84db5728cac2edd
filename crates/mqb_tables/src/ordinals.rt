//! The table that leads from the ordinals of outgoing rows to their places in the list.
ghost use Rattle.std.specs.Prelude.{◌≡◌, ℕ, ◌+◌, ◌<◌, ◌≤◌, ◌==◌, None, Some, OnOk, if◌then◌else◌};
ghost use Rattle.std.specs.Prelude.{length, map, nat_eq};
ghost use Rattle.indexmap.specs.IndexMap.{IsUnchanged, get, index_map_len, spare};
ghost use Rattle.mqb_tables.specs.Tables.{HaveOwnOrdinals, LeadsTo};
ghost use Rattle.mqb_orders.specs.Rows.{row_of};

use indexmap::IndexMap;
use mqb_base::Memory;
use mqb_orders::OutRow;

/// An ordinal that the table does not have gets a place. It takes no memory.
pub fn enter(ordinals: &mut IndexMap<u32, u32>, ordinal: u32, row: u32)
    requires { 0 < spare ordinals.old }
    ensures kept { (o n : ℕ) → get nat_eq ordinals.old o ≡ Some n → get nat_eq ordinals.new o ≡
        Some n }
    ensures entered { (o : ℕ) → get nat_eq ordinals.old o ≡ None → get nat_eq ordinals.new o ≡
        if ordinal == o then Some row else None }
    ensures few { index_map_len ordinals.new ≤ index_map_len ordinals.old + 1 }
    ensures own { index_map_len ordinals.old < index_map_len ordinals.new →
        get nat_eq ordinals.old ordinal ≡ None }
    ensures room { index_map_len ordinals.old + spare ordinals.old ≤
        index_map_len ordinals.new + spare ordinals.new }
{
    if !ordinals.contains_key(&ordinal) {
        let _ = ordinals.insert(ordinal, row);
    }
}

/// Makes room for the ordinals of so many rows.
pub fn make_room(ordinals: &mut IndexMap<u32, u32>, rows: usize) -> Result<(), Memory>
    requires { index_map_len ordinals.old ≤ rows }
    ensures same { IsUnchanged ordinals.old ordinals.new }
    ensures grows { spare ordinals.old ≤ spare ordinals.new }
    ensures ok { OnOk result (rows ≤ index_map_len ordinals.new + spare ordinals.new) }
{
    ordinals.reserve(rows - ordinals.len())?;
    Ok(())
}

/// The table has the ordinals of these rows alone. It takes no memory.
pub fn enter_all(ordinals: &mut IndexMap<u32, u32>, rows: &[OutRow])
    requires few { length rows.now ≤ 0xFFFFFFFF }
    requires room { length rows.now ≤ index_map_len ordinals.old + spare ordinals.old }
    ensures leads { LeadsTo (map row_of rows.now) ordinals.new }
    ensures few { index_map_len ordinals.new ≤ length rows.now }
    ensures own { length rows.now ≤ index_map_len ordinals.new →
        HaveOwnOrdinals (map row_of rows.now) }
    ensures room { index_map_len ordinals.old + spare ordinals.old ≤
        index_map_len ordinals.new + spare ordinals.new }
{
    ordinals.clear();
    for (k, row) in rows.iter().enumerate() {
        enter(ordinals, row.sequence.ordinal, k as u32);
    }
}
