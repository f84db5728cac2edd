ghost use Rattle.std.specs.Prelude.{◌≡◌, List, ◌+◌, ◌<◌, ◌≤◌, ◌-◌, ◌/◌, [], ◌∷◌, ◌++◌, length, max};
ghost use Rattle.std.specs.Prelude.{insert, remove, drop, slice_get, Some, IsOk, OnOk, OnErr};
ghost use Rattle.std.specs.Prelude.{vec_len, vec_capacity};

use crate::vacant::Vacant;
use mqb_base::Memory;
use std::alloc::Global;
use std::marker::Model;
use std::mem::replace;

/// A list, and room for more members. Contracts see the members and the room: how many there can be
/// without memory, those that are there included. A member that leaves at the front vacates its
/// slot, and the others stay where they are.
#[derive(Debug, Drop)]
pub struct RoomedDeque<T> {
    /// The vacated slots, and then the members.
    slots: Vec<T>,
    /// How many slots are vacated.
    head: usize,
    room: usize,
    alloc: Global,
}

impl<T> Model for RoomedDeque<T> {
    ghost use Rattle.std.specs.Prelude.{◌≤◌, ◌+◌, ◌/◌, drop, vec_len, vec_capacity};
    ghost use Rattle.mqb_base.specs.Rooms.{Room};

    ghost Value = { Room T };

    ghost view = { λ l. record { items = drop l.head l.slots.items; room = l.room } };

    ghost invariant = { λ l. (l.head ≤ vec_len l.slots) × (vec_len l.slots ≤ l.head + l.room) ×
        (l.room + l.room / 2 ≤ vec_capacity l.slots) };
}

/// Where each slot is taken, moves the members down over those that are vacated: at least half as
/// many as there are members.
fn make_slot<T: Drop>(slots: &mut Vec<T>, head: usize) -> usize
    requires head { head ≤ vec_len slots.old }
    requires vacated { (vec_len slots.old - head) + (vec_len slots.old - head) / 2 <
        vec_capacity slots.old }
    ensures members { drop result slots.new.items ≡ drop head slots.old.items }
    ensures head { result ≤ vec_len slots.new }
    ensures len { vec_len slots.new + head ≡ vec_len slots.old + result }
    ensures slot { vec_len slots.new < vec_capacity slots.new }
    ensures capacity { vec_capacity slots.new ≡ vec_capacity slots.old }
{
    if slots.len() < slots.capacity() {
        return head;
    }
    let members = slots.len() - head;
    prove!(members / 2 < head);
    slots.drain(..head);
    0
}

/// What the next vacated slot is to hold: a clone of what the last one holds.
fn filler<T: Vacant>(slots: &[T], head: usize, alloc: Global) -> Result<T, Memory>
    requires { head ≤ length slots.now }
{
    if head == 0 {
        T::vacant(alloc)
    } else {
        Ok(slots[head - 1].clone()?)
    }
}

/// Takes out the first member, in whose slot the filler stands then.
fn vacate<T>(slots: &mut Vec<T>, head: usize, filler: T) -> T
    requires { head < vec_len slots.old }
    ensures removed { slice_get (drop head slots.old.items) 0 ≡ Some result }
    ensures rest { drop (head + 1) slots.new.items ≡ remove (drop head slots.old.items) 0 }
    ensures len { vec_len slots.new ≡ vec_len slots.old }
    ensures capacity { vec_capacity slots.new ≡ vec_capacity slots.old }
{
    replace(&mut slots[head], filler)
}

/// Puts a member before the first one, into a vacated slot.
fn reoccupy<T: Drop>(slots: &mut Vec<T>, head: usize, item: T)
    requires some { 0 < head }
    requires head { head ≤ vec_len slots.old }
    ensures members { drop (head - 1) slots.new.items ≡ item ∷ drop head slots.old.items }
    ensures len { vec_len slots.new ≡ vec_len slots.old }
    ensures capacity { vec_capacity slots.new ≡ vec_capacity slots.old }
{
    slots[head - 1] = item;
}

/// Moves a member of a list to its front. Those before it move up.
#[tactic(auto, using(crate::proofs::Behind::raised))]
fn raise<T>(items: &mut [T], at: usize)
    requires { at < length items.old }
    ensures moved { slice_get items.new 0 ≡ slice_get items.old at }
    ensures rest { drop 1 items.new ≡ remove items.old at }
    ensures len { length items.new ≡ length items.old }
{
    items[..at + 1].rotate_right(1);
}

/// Moves a member to the front. Those before it move up.
fn to_front<T>(slots: &mut Vec<T>, head: usize, at: usize)
    requires { head + at < vec_len slots.old }
    ensures moved { slice_get (drop head slots.new.items) 0 ≡
        slice_get (drop head slots.old.items) at }
    ensures rest { remove (drop head slots.new.items) 0 ≡ remove (drop head slots.old.items) at }
    ensures len { vec_len slots.new ≡ vec_len slots.old }
    ensures capacity { vec_capacity slots.new ≡ vec_capacity slots.old }
{
    raise(&mut slots[head..], at);
}

/// Moves the first member to a place. Those up to there move down.
fn from_front<T>(slots: &mut Vec<T>, head: usize, at: usize)
    requires { head + at < vec_len slots.old }
    ensures moved { (item : T) (rest : List T) → drop head slots.old.items ≡ item ∷ rest →
        drop head slots.new.items ≡ insert rest at item }
    ensures len { vec_len slots.new ≡ vec_len slots.old }
    ensures capacity { vec_capacity slots.new ≡ vec_capacity slots.old }
{
    slots[head..head + at + 1].rotate_left(1);
}

/// Takes out a member. Those behind it move down.
#[tactic(auto, using(crate::proofs::Behind::drop_remove))]
fn take_out<T>(slots: &mut Vec<T>, head: usize, at: usize) -> T
    requires { head + at < vec_len slots.old }
    ensures removed { slice_get (drop head slots.old.items) at ≡ Some result }
    ensures rest { drop head slots.new.items ≡ remove (drop head slots.old.items) at }
    ensures len { vec_len slots.new + 1 ≡ vec_len slots.old }
    ensures capacity { vec_capacity slots.new ≡ vec_capacity slots.old }
{
    slots.remove(head + at)
}

/// Puts a member before the one at a place, or at the end. Those behind it move up.
#[tactic(auto, using(crate::proofs::Behind::drop_insert))]
fn put_in<T: Drop>(slots: &mut Vec<T>, head: usize, at: usize, item: T)
    requires place { head + at ≤ vec_len slots.old }
    requires slot { vec_len slots.old < vec_capacity slots.old }
    ensures members { drop head slots.new.items ≡ insert (drop head slots.old.items) at item }
    ensures len { vec_len slots.new ≡ vec_len slots.old + 1 }
    ensures capacity { vec_capacity slots.new ≡ vec_capacity slots.old }
{
    slots.insert(head + at, item).unwrap();
}

impl<T> RoomedDeque<T> {
    /// An empty list without room.
    pub fn new(alloc: Global) -> RoomedDeque<T>
        ensures { result ≡ record { items = []; room = 0 } }
    {
        RoomedDeque {
            slots: Vec::new(alloc),
            head: 0,
            room: 0,
            alloc,
        }
    }

    /// How many members there can be without memory.
    pub fn room(&self) -> usize
        ensures room { result ≡ self.now.room }
        ensures within { length self.now.items ≤ self.now.room }
    {
        self.room
    }

    pub fn len(&self) -> usize
        ensures len { result ≡ length self.now.items }
        ensures within { length self.now.items ≤ self.now.room }
    {
        self.slots.len() - self.head
    }

    pub fn as_slice(&self) -> &[T]
        ensures items { result.now ≡ self.now.items }
        ensures within { length self.now.items ≤ self.now.room }
    {
        &self.slots.as_slice()[self.head..]
    }

    /// Makes room for `more` members beside those that are there, and half as many slots again, so
    /// that a full list that members leave and join is moved down but seldom.
    pub fn make_room(&mut self, more: usize) -> Result<(), Memory>
        ensures items { self.new.items ≡ self.old.items }
        ensures grows { self.old.room ≤ self.new.room }
        ensures ok { OnOk result (length self.new.items + more ≤ self.new.room) }
        ensures exact { OnOk result (self.new ≡ record self.old {
          room = max self.old.room (length self.old.items + more);
        }) }
        ensures refused { OnErr result (self.new ≡ self.old) }

        // Where there is room already, it stays as it is.
        ensures ready { length self.old.items + more ≤ self.old.room → IsOk result }
        ensures unchanged { length self.old.items + more ≤ self.old.room → self.new ≡ self.old }
    {
        let len = self.slots.len() - self.head;
        if more <= self.room - len {
            return Ok(());
        }
        let room = len.checked_add(more).ok_or(Memory)?;
        let slots = room.checked_add(room / 2).ok_or(Memory)?;
        self.slots.reserve(slots.saturating_sub(self.slots.len()))?;
        self.room = room;
        Ok(())
    }

    /// Gives back room, down to what was there before.
    pub fn give_back(&mut self, room: usize)
        requires members { length self.old.items ≤ room }
        requires less { room ≤ self.old.room }
        ensures { self.new ≡ record self.old { room = room } }
    {
        self.room = room;
    }
}

impl<T: Vacant> RoomedDeque<T> {
    /// Adds a member at the end.
    pub fn push(&mut self, item: T)
        requires { length self.old.items < self.old.room }
        ensures { self.new ≡ record self.old { items = self.old.items ++ item ∷ [] } }
    {
        self.head = make_slot(&mut self.slots, self.head);
        self.slots.push_reserved(item);
    }

    /// Puts a member before the one at a place, or at the end. The fewer members move: those before
    /// it, or those behind it.
    pub fn insert(&mut self, at: usize, item: T)
        requires place { at ≤ length self.old.items }
        requires room { length self.old.items < self.old.room }
        ensures { self.new ≡ record self.old { items = insert self.old.items at item } }
    {
        if self.head > 0 && at <= (self.slots.len() - self.head) / 2 {
            reoccupy(&mut self.slots, self.head, item);
            self.head -= 1;
            from_front(&mut self.slots, self.head, at);
            return;
        }
        self.head = make_slot(&mut self.slots, self.head);
        put_in(&mut self.slots, self.head, at, item);
    }

    /// Takes out the member at a place. The fewer members move: those before it, or those behind
    /// it. Where a slot cannot be filled, those behind it do.
    pub fn remove(&mut self, at: usize) -> T
        requires { at < length self.old.items }
        ensures removed { slice_get self.old.items at ≡ Some result }
        ensures rest { self.new ≡ record self.old { items = remove self.old.items at } }
        ensures room { length self.new.items < self.new.room }
    {
        if at <= (self.slots.len() - self.head) / 2 {
            if let Ok(filler) = filler(self.slots.as_slice(), self.head, self.alloc) {
                to_front(&mut self.slots, self.head, at);
                let item = vacate(&mut self.slots, self.head, filler);
                self.head += 1;
                return item;
            }
        }
        take_out(&mut self.slots, self.head, at)
    }

    /// Drops the first members.
    pub fn drop_first(&mut self, count: usize)
        requires { count ≤ length self.old.items }
        ensures { self.new ≡ record self.old { items = drop count self.old.items } }
    {
        for _k in 0..count {
            let _ = self.remove(0);
        }
    }
}
