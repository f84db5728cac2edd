ghost use Rattle.std.specs.Prelude.{◌≡◌, ◌==◌, ◌+◌, ◌<◌, ◌≤◌, ◌-◌, [], ◌∷◌, ◌++◌, length, max};
ghost use Rattle.std.specs.Prelude.{insert, remove, drop, take, slice_get, Some, IsOk, OnOk, OnErr};
ghost use Rattle.std.specs.Borrow.{sem};
ghost use Rattle.mqb_base.specs.Lending.{LendsItem};

use crate::answers::Memory;
use std::alloc::Global;
use std::marker::Model;

/// The most members of a list that a manager keeps.
pub const MAX_MEMBERS: usize = 4_294_967_295;

/// A list, and room for more members. Contracts see the members and the room: how many there can be
/// without memory, those that are there included. Only `make_room` takes memory.
#[derive(Debug, Drop)]
pub struct Roomed<T> {
    items: Vec<T>,
    room: usize,
}

impl<T> Model for Roomed<T> {
    ghost use Rattle.std.specs.Prelude.{◌≤◌, vec_len, vec_capacity};
    ghost use Rattle.mqb_base.specs.Rooms.{Room};

    ghost Value = { Room T };

    ghost view = { λ l. record { items = l.items.items; room = l.room } };

    ghost invariant = { λ l. (vec_len l.items ≤ l.room) × (l.room ≤ vec_capacity l.items) };
}

impl<T> Roomed<T> {
    /// An empty list without room.
    pub fn new(alloc: Global) -> Roomed<T>
        ensures { result ≡ record { items = []; room = 0 } }
    {
        Roomed {
            items: Vec::new(alloc),
            room: 0,
        }
    }

    /// How many members there can be without memory.
    pub fn room(&self) -> usize
        ensures room { result ≡ self.now.room }
        ensures within { length self.now.items ≤ self.now.room }
    {
        self.room
    }

    pub fn len(&self) -> usize
        ensures len { result ≡ length self.now.items }
        ensures within { length self.now.items ≤ self.now.room }
    {
        self.items.len()
    }

    pub fn is_empty(&self) -> bool
        ensures { result ≡ (length self.now.items == 0) }
    {
        self.items.is_empty()
    }

    pub fn as_slice(&self) -> &[T]
        ensures items { result.now ≡ self.now.items }
        ensures within { length self.now.items ≤ self.now.room }
    {
        self.items.as_slice()
    }

    /// Makes room for `more` members beside those that are there.
    pub fn make_room(&mut self, more: usize) -> Result<(), Memory>
        ensures items { self.new.items ≡ self.old.items }
        ensures grows { self.old.room ≤ self.new.room }
        ensures ok { OnOk result (length self.new.items + more ≤ self.new.room) }
        ensures exact { OnOk result (self.new ≡ record self.old {
          room = max self.old.room (length self.old.items + more);
        }) }
        ensures refused { OnErr result (self.new ≡ self.old) }

        // Where there is room already, it stays as it is.
        ensures ready { length self.old.items + more ≤ self.old.room → IsOk result }
        ensures unchanged { length self.old.items + more ≤ self.old.room → self.new ≡ self.old }
    {
        if more <= self.room - self.items.len() {
            return Ok(());
        }
        self.items.reserve(more)?;
        self.room = self.items.len() + more;
        Ok(())
    }

    /// Gives back room, down to what was there before.
    pub fn give_back(&mut self, room: usize)
        requires members { length self.old.items ≤ room }
        requires less { room ≤ self.old.room }
        ensures { self.new ≡ record self.old { room = room } }
    {
        self.room = room;
    }

    /// Puts a member before the one at a place, or at the end.
    pub fn insert(&mut self, at: usize, item: T)
        requires place { at ≤ length self.old.items }
        requires room { length self.old.items < self.old.room }
        ensures { self.new ≡ record self.old { items = insert self.old.items at item } }
    {
        self.items.insert(at, item).unwrap();
    }

    /// Takes out the member at a place. The later ones move down.
    pub fn remove(&mut self, at: usize) -> T
        requires { at < length self.old.items }
        ensures removed { slice_get self.old.items at ≡ Some result }
        ensures rest { self.new ≡ record self.old { items = remove self.old.items at } }
        ensures room { length self.new.items < self.new.room }
    {
        self.items.remove(at)
    }

    /// Adds a member at the end.
    pub fn push(&mut self, item: T)
        requires { length self.old.items < self.old.room }
        ensures { self.new ≡ record self.old { items = self.old.items ++ item ∷ [] } }
    {
        self.items.push_reserved(item);
    }

    /// Takes out the last member.
    pub fn pop(&mut self) -> T
        requires { 0 < length self.old.items }
        ensures popped { slice_get self.old.items (length self.old.items - 1) ≡ Some result }
        ensures rest { self.new ≡ record self.old {
          items = take (length self.old.items - 1) self.old.items;
        } }
        ensures room { length self.new.items < self.new.room }
    {
        self.items.remove(self.items.len() - 1)
    }

    /// Drops the first members. The later ones move down.
    pub fn drop_first(&mut self, count: usize)
    where
        T: Drop,
        requires { count ≤ length self.old.items }
        ensures { self.new ≡ record self.old { items = drop count self.old.items } }
    {
        self.items.drain(..count);
    }

    /// The member at a place, to be changed.
    pub fn get_mut(&mut self, at: usize) -> &mut T
        requires { at < length self.old.items }
        ensures value { slice_get self.old.items at ≡ Some result.now }
        ensures* back { sem 𝓛 (LendsItem T.row self.entry at result) }
    {
        &mut self.items[at]
    }
}
