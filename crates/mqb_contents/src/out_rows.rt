ghost use Rattle.std.specs.Prelude.{◌≡◌, ◌<◌, ◌≤◌, [], ◌∷◌, ◌++◌, All, IsSomeAnd, IfSome, None};
ghost use Rattle.std.specs.Prelude.{OnOk, Some, filter, insert, length, map, option_and_then};
ghost use Rattle.std.specs.Prelude.{remove, slice_get};
ghost use Rattle.mqb_base.specs.declared.roomed.TheConstants.{MAX_MEMBERS};
ghost use Rattle.mqb_tables.specs.Ends.{last_of, without_last};
ghost use Rattle.mqb_contents.specs.Rooms.{kept_room};
ghost use Rattle.mqb_tables.specs.Rooms.{AreMembersGrown, no_members};
ghost use Rattle.mqb_contents.specs.Seen.{room_of};
ghost use Rattle.mqb_contents.specs.Rows.{CanKeep, IsBegun, KeepsCommitted, begun_row, keeping};
ghost use Rattle.mqb_contents.specs.Rows.{kept_count, marks_of, with_marks};
ghost use Rattle.mqb_tables.specs.Tables.{LeadsTo, LeadsToLast};
ghost use Rattle.mqb_tables.specs.mqb_model.Lists.{with_changed};
ghost use Rattle.mqb_orders.specs.KeptLists.{Rises};
ghost use Rattle.mqb_orders.specs.Rows.{leads_to, row_of};
ghost use Rattle.std.specs.List.{last_or};
ghost use Rattle.mqb_tables.specs.Keys.{AreKeysKept, HasKey, out_key, same_out_key};

use crate::marks::RowMarks;
use crate::new_row::NewRow;
use indexmap::IndexMap;
use mqb_base::{MAX_MEMBERS, Memory, QueueName, Roomed};
use mqb_orders::{Kept, OutKey, OutRow};
use mqb_tables::in_use;
use mqb_tables::last_rows::{index_of_last, lead_to_last, leads_there};
use mqb_tables::ordinals::{enter, enter_all, make_room};
use std::alloc::Global;
use std::marker::Model;

/// The outgoing rows of a manager. Contracts see them, and beside them how many messages
/// each can keep without memory, how many rows there can be, and the peers and
/// destinations that the table has.
#[derive(Debug, Drop)]
pub(crate) struct OutRows {
    rows: Roomed<OutRow>,
    ordinals: IndexMap<u32, u32>,
    in_use: IndexMap<OutKey, u32>,
}

impl Model for OutRows {
    ghost use Rattle.std.specs.Prelude.{◌≤◌, All, List, map};
    ghost use Rattle.mqb_base.specs.Rooms.{WithRooms};
    ghost use Rattle.mqb_base.specs.declared.roomed.TheConstants.{MAX_MEMBERS};
    ghost use Rattle.indexmap.specs.IndexMap.{keys};
    ghost use Rattle.mqb_contents.specs.Rooms.{OutRooms};
    ghost use Rattle.mqb_tables.specs.Tables.{AreNumbered, LeadsToLast};
    ghost use Rattle.mqb_contents.specs.Rows.{KeepsCommitted};
    ghost use Rattle.mqb_contents.specs.Seen.{room_of, with_keys};
    ghost use Rattle.mqb_tables.specs.Seen.{seen_members};
    ghost use Rattle.mqb_orders.specs.Rows.{Row, row_of};

    ghost Value = { WithRooms (List Row) OutRooms };

    ghost view = { λ o. with_keys (keys o.in_use) (seen_members row_of room_of o.rows) };

    ghost invariant = { λ o. (o.rows.room ≤ MAX_MEMBERS)
        × All (λ r. KeepsCommitted (row_of r)) o.rows.items
        × AreNumbered (map row_of o.rows.items) o.rows.room o.ordinals
        × LeadsToLast (map row_of o.rows.items) o.in_use };
}

/// A row keeps a message before the one at an index, or at the end, where there is room.
fn insert_kept(row: &mut OutRow, index: u32, kept: Kept)
    requires can { CanKeep index kept (row_of row.old) }
    requires room { length row.old.kept.items < row.old.kept.room }
    ensures row { row_of row.new ≡ keeping (insert row.old.kept.items index kept) (row_of row.old) }
    ensures room { room_of row.new ≡ room_of row.old }
{
    row.kept.insert(index, kept);
}

/// The message that a row keeps at an index leaves.
fn remove_kept(row: &mut OutRow, index: u32) -> Kept
    requires { index < length row.old.kept.items }
    ensures removed { slice_get row.old.kept.items index ≡ Some result }
    ensures row { row_of row.new ≡ keeping (remove row.old.kept.items index) (row_of row.old) }
    ensures room { room_of row.new ≡ room_of row.old }
    ensures left { length row.new.kept.items < row.new.kept.room }
    ensures rises { Rises row.old.kept.items }
{
    let _kept = row.kept.get(index);
    row.kept.remove(index)
}

/// Makes room for one more message that a row keeps.
fn make_room_in(row: &mut OutRow) -> Result<(), Memory>
    ensures row { row_of row.new ≡ row_of row.old }
    ensures grows { room_of row.old ≤ room_of row.new }
    ensures ok { OnOk result (length row.new.kept.items < row.new.kept.room) }
{
    row.kept.reserve(1)
}

fn mark(row: &mut OutRow, marks: RowMarks) -> RowMarks
    ensures before { result ≡ marks_of (row_of row.old) }
    ensures row { row_of row.new ≡ with_marks marks (row_of row.old) }
    ensures room { room_of row.new ≡ room_of row.old }
{
    let before = RowMarks {
        committed: row.committed,
        offered: row.offered,
        acked: row.acked,
    };
    row.committed = marks.committed;
    row.offered = marks.offered;
    row.acked = marks.acked;
    before
}

impl OutRows {
    pub(crate) fn new(alloc: Global) -> OutRows
        ensures { result ≡ record {
          lists = [];
          rooms = record { members = no_members; keys = [] };
        } }
    {
        OutRows {
            rows: Roomed::new(alloc),
            ordinals: IndexMap::new(alloc),
            in_use: IndexMap::new(alloc),
        }
    }

    pub(crate) fn count(&self) -> usize
        ensures count { result ≡ length self.now.lists }
        ensures rooms { length self.now.rooms.members.each ≡ length self.now.lists }
    {
        self.rows.len()
    }

    pub(crate) fn as_slice(&self) -> &[OutRow]
        ensures rows { map row_of result.now ≡ self.now.lists }
        ensures within { length self.now.lists ≤ MAX_MEMBERS }
        ensures committed { All KeepsCommitted self.now.lists }
    {
        self.rows.as_slice()
    }

    /// The ordinals of the rows, each with the place of the first row that has it.
    pub(crate) fn ordinals(&self) -> &IndexMap<u32, u32>
        ensures { LeadsTo self.now.lists result.now }
    {
        &self.ordinals
    }

    /// The peers and destinations of the rows, each with the ordinal of the last row that has them.
    pub(crate) fn in_use(&self) -> &IndexMap<OutKey, u32>
        ensures { LeadsToLast self.now.lists result.now }
    {
        &self.in_use
    }

    pub(crate) fn get(&self, row: u32) -> &OutRow
        requires { row < length self.now.lists }
        ensures row { slice_get self.now.lists row ≡ Some (row_of result.now) }
        ensures committed { KeepsCommitted (row_of result.now) }
    {
        &self.rows.as_slice()[row as usize]
    }

    /// The place of the last row that leads to a destination at a peer. Where each row has an
    /// ordinal of its own, the tables tell.
    pub(crate) fn last_to(&self, peer: u32, destination: &QueueName) -> Option<u32>
        ensures row { option_and_then (slice_get self.now.lists) result ≡
            last_or None (filter (leads_to peer destination.now) self.now.lists) }
        ensures within { IfSome result (λ k. k < length self.now.lists) }
    {
        if self.ordinals.len() < self.rows.len() {
            return index_of_last(self.rows.as_slice(), peer, destination).map(|k| k as u32);
        }
        let ordinal = in_use::number_of(&self.in_use, peer, destination)?;
        let row = *self.ordinals.get(&ordinal)?;
        if leads_there(self.rows.as_slice(), row, peer, destination) {
            Some(row)
        } else {
            None
        }
    }

    /// A row keeps a message before the one at an index, or at the end, where there is room.
    pub(crate) fn insert_kept(&mut self, row: u32, index: u32, kept: Kept)
        requires can { IsSomeAnd (slice_get self.old.lists row) (CanKeep index kept) }
        requires room { kept_count self.old.lists row < kept_room self.old.rooms.members row }
        ensures rows { self.new ≡ record self.old {
          lists = with_changed (λ r. keeping (insert r.kept index kept) r) self.old.lists row;
        } }
    {
        insert_kept(self.rows.get_mut(row as usize), index, kept);
    }

    /// The message that a row keeps at an index leaves.
    pub(crate) fn remove_kept(&mut self, row: u32, index: u32) -> Kept
        requires { IsSomeAnd (slice_get self.old.lists row) (λ r. index < length r.kept) }
        ensures removed { IsSomeAnd (slice_get self.old.lists row)
            (λ r. slice_get r.kept index ≡ Some result) }
        ensures rows { self.new ≡ record self.old {
          lists = with_changed (λ r. keeping (remove r.kept index) r) self.old.lists row;
        } }
        ensures back { IsSomeAnd (slice_get self.new.lists row) (CanKeep index result) }
        ensures room { kept_count self.new.lists row < kept_room self.new.rooms.members row }
    {
        remove_kept(self.rows.get_mut(row as usize), index)
    }

    /// A row gets other marks. The answer is those that it had.
    pub(crate) fn mark(&mut self, row: u32, marks: RowMarks) -> RowMarks
        requires { IsSomeAnd (slice_get self.old.lists row)
            (λ r. KeepsCommitted (with_marks marks r)) }
        ensures before { IsSomeAnd (slice_get self.old.lists row) (λ r. result ≡ marks_of r) }
        ensures rows { self.new ≡ record self.old {
          lists = with_changed (with_marks marks) self.old.lists row;
        } }
        ensures back { IsSomeAnd (slice_get self.new.lists row)
            (λ r. KeepsCommitted (with_marks result r)) }
    {
        mark(self.rows.get_mut(row as usize), marks)
    }

    /// A row joins the others at the end, where there is room.
    pub(crate) fn push(&mut self, row: NewRow)
        requires room { length self.old.lists < self.old.rooms.members.more }
        requires key { HasKey same_out_key self.old.rooms.keys (out_key row.peer row.destination) }
        ensures rows { self.new.lists ≡
            self.old.lists ++ begun_row row.peer row.destination row.sequence ∷ [] }
        ensures rooms { self.new.rooms.members ≡ record self.old.rooms.members {
          each = self.old.rooms.members.each ++ row.room ∷ [];
        } }
        ensures keys { self.new.rooms.keys ≡ self.old.rooms.keys }
    {
        let row = row.into_row();
        in_use::lead(
            &mut self.in_use,
            row.peer,
            &row.destination,
            row.sequence.ordinal,
        );
        enter(
            &mut self.ordinals,
            row.sequence.ordinal,
            self.rows.len() as u32,
        );
        self.rows.push(row);
    }

    /// The last row leaves, in which nothing was committed.
    pub(crate) fn pop(&mut self) -> NewRow
        requires { IsSomeAnd (last_of self.old.lists) IsBegun }
        ensures row { last_of self.old.lists ≡
            Some (begun_row result.peer result.destination result.sequence) }
        ensures row_room { last_of self.old.rooms.members.each ≡ Some result.room }
        ensures rows { self.new.lists ≡ without_last self.old.lists }
        ensures rooms { self.new.rooms.members ≡ record self.old.rooms.members {
          each = without_last self.old.rooms.members.each;
        } }
        ensures keys { self.new.rooms.keys ≡ self.old.rooms.keys }
        ensures key { HasKey same_out_key self.new.rooms.keys
            (out_key result.peer result.destination) }
        ensures room { length self.new.lists < self.new.rooms.members.more }
    {
        let row = self.rows.pop();
        enter_all(&mut self.ordinals, self.rows.as_slice());
        lead_to_last(
            &mut self.in_use,
            self.rows.as_slice(),
            row.peer,
            &row.destination,
        );
        NewRow::from_row(row)
    }

    /// Makes room for one more message that a row keeps.
    pub(crate) fn make_room_in(&mut self, row: u32) -> Result<(), Memory>
        requires { row < length self.old.lists }
        ensures rows { self.new.lists ≡ self.old.lists }
        ensures grown { AreMembersGrown (λ n. n) self.old.rooms.members self.new.rooms.members }
        ensures keys { self.new.rooms.keys ≡ self.old.rooms.keys }
        ensures ok { OnOk result
            (kept_count self.new.lists row < kept_room self.new.rooms.members row) }
    {
        make_room_in(self.rows.get_mut(row as usize))
    }

    /// Makes room for one more row that leads to a destination at a peer.
    pub(crate) fn make_room(&mut self, peer: u32, destination: &QueueName) -> Result<(), Memory>
        ensures rows { self.new.lists ≡ self.old.lists }
        ensures grown { AreMembersGrown (λ n. n) self.old.rooms.members self.new.rooms.members }
        ensures keys { AreKeysKept same_out_key self.old.rooms.keys self.new.rooms.keys }
        ensures room { OnOk result (length self.new.lists < self.new.rooms.members.more) }
        ensures key { OnOk result
            (HasKey same_out_key self.new.rooms.keys (out_key peer destination.now)) }
    {
        if self.rows.len() >= MAX_MEMBERS {
            return Err(Memory);
        }
        in_use::make_room(&mut self.in_use, peer, destination)?;
        make_room(&mut self.ordinals, self.rows.len() + 1)?;
        self.rows.make_room(1)
    }
}
