ghost use Rattle.std.specs.Prelude.{◌≡◌, ◌<◌, ◌≤◌, [], ◌∷◌, ◌++◌, IfSome, IsSomeAnd, OnOk, Some};
ghost use Rattle.std.specs.Prelude.{length, false, position, slice_get};
ghost use Rattle.std.specs.Option.{option_map_or};
ghost use Rattle.mqb_base.specs.declared.roomed.TheConstants.{MAX_MEMBERS};
ghost use Rattle.mqb_tables.specs.Ends.{last_of, without_last};
ghost use Rattle.mqb_contents.specs.Rows.{deciding};
ghost use Rattle.mqb_tables.specs.Tables.{LeadsToSource};
ghost use Rattle.mqb_tables.specs.mqb_model.Lists.{with_changed};
ghost use Rattle.mqb_tables.specs.mqb_model.state.Rows.{is_row_of};
ghost use Rattle.mqb_tables.specs.Keys.{AreKeysKept, HasKey, in_key, same_in_key};

use indexmap::IndexMap;
use mqb_base::{Guid, MAX_MEMBERS, Memory, QueueName, Roomed, SequenceId};
use mqb_orders::{InKey, InRow};
use mqb_tables::sources::{lead, make_room, number_of};
use std::alloc::Global;
use std::marker::Model;

/// The incoming rows of a manager. Contracts see them, and beside them how many there can be
/// without memory, and the sources and destinations that the table has.
#[derive(Debug, Drop)]
pub(crate) struct InRows {
    rows: Roomed<InRow>,
    sources: IndexMap<InKey, u32>,
}

impl Model for InRows {
    ghost use Rattle.std.specs.Prelude.{◌≤◌, List};
    ghost use Rattle.indexmap.specs.IndexMap.{keys};
    ghost use Rattle.mqb_base.specs.Rooms.{WithRooms};
    ghost use Rattle.mqb_base.specs.declared.roomed.TheConstants.{MAX_MEMBERS};
    ghost use Rattle.mqb_contents.specs.Rooms.{InRooms};
    ghost use Rattle.mqb_tables.specs.Tables.{LeadsToSource};
    ghost use Rattle.mqb_orders.specs.declared.rows.InRow.{InRow};

    ghost Value = { WithRooms (List InRow) InRooms };

    ghost view = { λ i. record {
      lists = i.rows.items;
      rooms = record { more = i.rows.room; keys = keys i.sources };
    } };

    ghost invariant = { λ i. (i.rows.room ≤ MAX_MEMBERS) × LeadsToSource i.rows.items i.sources };
}

/// An incoming row gets another sequence and another last number. The answer is those that it had.
fn decide(row: &mut InRow, sequence: SequenceId, last: u32) -> (SequenceId, u32)
    ensures row { row.new ≡ deciding sequence last row.old }
    ensures before { result ≡ (row.old.sequence, row.old.last) }
{
    let before = (row.sequence, row.last);
    row.sequence = sequence;
    row.last = last;
    before
}

fn is_row_of(rows: &[InRow], row: u32, source: Guid, destination: &QueueName) -> bool
    ensures { result ≡
        option_map_or (is_row_of source destination.now) (slice_get rows.now row) false }
{
    match rows.get(row as usize) {
        Some(row) => row.source == source && row.destination == *destination,
        None => false,
    }
}

impl InRows {
    pub(crate) fn new(alloc: Global) -> InRows
        ensures { result ≡ record { lists = []; rooms = record { more = 0; keys = [] } } }
    {
        InRows {
            rows: Roomed::new(alloc),
            sources: IndexMap::new(alloc),
        }
    }

    pub(crate) fn as_slice(&self) -> &[InRow]
        ensures rows { result.now ≡ self.now.lists }
        ensures within { length self.now.lists ≤ MAX_MEMBERS }
    {
        self.rows.as_slice()
    }

    /// The sources and destinations of the rows, each with the place of the
    /// first row that has them.
    pub(crate) fn sources(&self) -> &IndexMap<InKey, u32>
        ensures { LeadsToSource self.now.lists result.now }
    {
        &self.sources
    }

    /// The place of the first row of a source and a destination.
    pub(crate) fn find(&self, source: Guid, destination: &QueueName) -> Option<u32>
        ensures index { result ≡ position (is_row_of source destination.now) self.now.lists }
        ensures within { IfSome result (λ k. k < length self.now.lists) }
    {
        let row = number_of(&self.sources, source, destination)?;
        if is_row_of(self.rows.as_slice(), row, source, destination) {
            Some(row)
        } else {
            None
        }
    }

    /// A row gets another sequence and another last number. The answer is those that it had.
    pub(crate) fn decide(&mut self, row: u32, sequence: SequenceId, last: u32) -> (SequenceId, u32)
        requires { row < length self.old.lists }
        ensures before { IsSomeAnd (slice_get self.old.lists row)
            (λ r. result ≡ (r.sequence, r.last)) }
        ensures rows { self.new ≡ record self.old {
          lists = with_changed (deciding sequence last) self.old.lists row;
        } }
    {
        decide(self.rows.get_mut(row as usize), sequence, last)
    }

    /// A row joins the others at the end, where there is room.
    pub(crate) fn push(&mut self, row: InRow)
        requires room { length self.old.lists < self.old.rooms.more }
        requires key { HasKey same_in_key self.old.rooms.keys (in_key row.source row.destination) }
        ensures { self.new ≡ record self.old { lists = self.old.lists ++ row ∷ [] } }
    {
        if self.find(row.source, &row.destination).is_none() {
            lead(
                &mut self.sources,
                row.source,
                &row.destination,
                self.rows.len() as u32,
            );
        }
        self.rows.push(row);
    }

    /// The last row leaves.
    pub(crate) fn pop(&mut self) -> InRow
        requires { 0 < length self.old.lists }
        ensures last { last_of self.old.lists ≡ Some result }
        ensures rows { self.new ≡ record self.old { lists = without_last self.old.lists } }
        ensures room { length self.new.lists < self.new.rooms.more }
        ensures key { HasKey same_in_key self.new.rooms.keys
            (in_key result.source result.destination) }
    {
        self.rows.pop()
    }

    /// Makes room for one more row of a source and a destination.
    pub(crate) fn make_room(&mut self, source: Guid, destination: &QueueName) -> Result<(), Memory>
        ensures rows { self.new.lists ≡ self.old.lists }
        ensures more { self.old.rooms.more ≤ self.new.rooms.more }
        ensures keys { AreKeysKept same_in_key self.old.rooms.keys self.new.rooms.keys }
        ensures room { OnOk result (length self.new.lists < self.new.rooms.more) }
        ensures key { OnOk result
            (HasKey same_in_key self.new.rooms.keys (in_key source destination.now)) }
    {
        if self.rows.len() >= MAX_MEMBERS {
            return Err(Memory);
        }
        make_room(&mut self.sources, source, destination)?;
        self.rows.make_room(1)
    }
}
