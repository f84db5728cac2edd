ghost use Rattle.std.specs.Prelude.{◌≡◌, List, ◌+◌, ◌<◌, ◌≤◌, ◌-◌, ◌/◌, [], ◌∷◌, ◌++◌, length, max};
ghost use Rattle.std.specs.Prelude.{nat_lt, insert, remove, slice_get, Some, IsOk, OnOk, OnErr};
ghost use Rattle.std.specs.Prelude.{vec_len, vec_capacity};
ghost use Rattle.mqb_deque.specs.Gaps.{around};

use crate::split_slice::SplitSlice;
use crate::vacant::Vacant;
use mqb_base::Memory;
use std::alloc::Global;
use std::marker::Model;
use std::mem::replace;

/// A list, and room for more members. Contracts see the members and the room: how many there can be
/// without memory, those that are there included. A member that leaves vacates its slot, and the
/// gap of vacated slots goes to where members leave or join.
#[derive(Debug, Drop)]
pub struct GapBuffer<T> {
    /// The members before the gap, the vacated slots, and the members behind it.
    slots: Vec<T>,
    /// How many members stand before the gap.
    front: usize,
    /// How many slots are vacated.
    gap: usize,
    room: usize,
    alloc: Global,
}

impl<T> Model for GapBuffer<T> {
    ghost use Rattle.std.specs.Prelude.{◌≤◌, ◌+◌, ◌/◌, vec_len, vec_capacity};
    ghost use Rattle.mqb_base.specs.Rooms.{Room};
    ghost use Rattle.mqb_deque.specs.Gaps.{around};

    ghost Value = { Room T };

    ghost view = { λ l. record { items = around l.front l.gap l.slots.items; room = l.room } };

    ghost invariant = { λ l. (l.front + l.gap ≤ vec_len l.slots) ×
        (vec_len l.slots ≤ l.gap + l.room) × (l.room + l.room / 2 ≤ vec_capacity l.slots) };
}

/// Where each slot is taken, closes the gap: at least half as many slots are vacated
/// as there are members.
#[tactic(auto, using(crate::proofs::Gaps::closed))]
fn make_slot<T: Drop>(slots: &mut Vec<T>, front: usize, gap: usize) -> usize
    requires gap { front + gap ≤ vec_len slots.old }
    requires vacated { (vec_len slots.old - gap) + (vec_len slots.old - gap) / 2 <
        vec_capacity slots.old }
    ensures members { around front result slots.new.items ≡ around front gap slots.old.items }
    ensures gap { front + result ≤ vec_len slots.new }
    ensures len { vec_len slots.new + gap ≡ vec_len slots.old + result }
    ensures slot { vec_len slots.new < vec_capacity slots.new }
    ensures capacity { vec_capacity slots.new ≡ vec_capacity slots.old }
{
    if slots.len() < slots.capacity() {
        return gap;
    }
    let members = slots.len() - gap;
    prove!(members / 2 < gap);
    slots.drain(front..front + gap);
    0
}

/// What the next vacated slot is to hold: a clone of what another one holds.
fn filler<T: Vacant>(slots: &[T], front: usize, gap: usize, alloc: Global) -> Result<T, Memory>
    requires { front + gap ≤ length slots.now }
{
    if gap == 0 {
        T::vacant(alloc)
    } else {
        Ok(slots[front].clone()?)
    }
}

/// Adds a member at the end.
#[tactic(auto, using(crate::proofs::Gaps::pushed))]
fn push_last<T: Drop>(slots: &mut Vec<T>, front: usize, gap: usize, item: T)
    requires gap { front + gap ≤ vec_len slots.old }
    requires slot { vec_len slots.old < vec_capacity slots.old }
    ensures members { around front gap slots.new.items ≡
        around front gap slots.old.items ++ item ∷ [] }
    ensures len { vec_len slots.new ≡ vec_len slots.old + 1 }
    ensures capacity { vec_capacity slots.new ≡ vec_capacity slots.old }
{
    slots.push_reserved(item);
}

/// Moves the member behind the gap before it, or the one before it behind it.
#[tactic(auto, using(crate::proofs::Gaps::swapped_up, crate::proofs::Gaps::swapped_down))]
fn step<T>(slots: &mut [T], front: usize, gap: usize)
    requires some { 0 < gap }
    requires place { front + gap < length slots.old }
    ensures up { around (front + 1) gap slots.new ≡ around front gap slots.old }
    ensures down { around front gap slots.new ≡ around (front + 1) gap slots.old }
    ensures len { length slots.new ≡ length slots.old }
{
    slots.swap(front, front + gap);
}

/// Moves the gap behind more members.
fn raise_gap<T>(slots: &mut [T], front: usize, gap: usize, to: usize)
    requires some { 0 < gap }
    requires higher { front ≤ to }
    requires place { to + gap ≤ length slots.old }
    ensures members { around to gap slots.new ≡ around front gap slots.old }
    ensures len { length slots.new ≡ length slots.old }
{
    for k in front..to {
        step(slots, k, gap);
    }
}

/// Moves the gap before more members.
fn lower_gap<T>(slots: &mut [T], front: usize, gap: usize, to: usize)
    requires some { 0 < gap }
    requires lower { to ≤ front }
    requires place { front + gap ≤ length slots.old }
    ensures members { around to gap slots.new ≡ around front gap slots.old }
    ensures len { length slots.new ≡ length slots.old }
{
    for k in 0..front - to {
        step(slots, front - k - 1, gap);
    }
}

/// Moves the gap to a place. The members between move, and no others.
fn move_gap<T>(slots: &mut [T], front: usize, gap: usize, to: usize)
    requires gap { front + gap ≤ length slots.old }
    requires place { to + gap ≤ length slots.old }
    ensures members { around to gap slots.new ≡ around front gap slots.old }
    ensures len { length slots.new ≡ length slots.old }
{
    if gap == 0 {
        return;
    }
    if front < to {
        raise_gap(slots, front, gap, to);
    } else {
        lower_gap(slots, front, gap, to);
    }
}

/// Takes out the member behind the gap, in whose slot the filler stands then.
#[tactic(auto, using(crate::proofs::Gaps::vacated, crate::proofs::Gaps::got_behind))]
fn vacate<T>(slots: &mut Vec<T>, front: usize, gap: usize, filler: T) -> T
    requires { front + gap < vec_len slots.old }
    ensures removed { slice_get (around front gap slots.old.items) front ≡ Some result }
    ensures rest { around front (gap + 1) slots.new.items ≡
        remove (around front gap slots.old.items) front }
    ensures len { vec_len slots.new ≡ vec_len slots.old }
    ensures capacity { vec_capacity slots.new ≡ vec_capacity slots.old }
{
    replace(&mut slots[front + gap], filler)
}

/// Puts a member into the last vacated slot.
#[tactic(auto, using(crate::proofs::Gaps::reoccupied))]
fn reoccupy<T: Drop>(slots: &mut Vec<T>, front: usize, gap: usize, item: T)
    requires some { 0 < gap }
    requires gap { front + gap ≤ vec_len slots.old }
    ensures members { around front (gap - 1) slots.new.items ≡
        insert (around front gap slots.old.items) front item }
    ensures len { vec_len slots.new ≡ vec_len slots.old }
    ensures capacity { vec_capacity slots.new ≡ vec_capacity slots.old }
{
    slots[front + gap - 1] = item;
}

/// Takes out a member that stands behind the gap. Those behind it move down.
#[tactic(auto, using(crate::proofs::Gaps::taken_out, crate::proofs::Gaps::got_behind))]
fn take_out<T>(slots: &mut Vec<T>, front: usize, gap: usize, at: usize) -> T
    requires behind { front ≤ at }
    requires there { gap + at < vec_len slots.old }
    ensures removed { slice_get (around front gap slots.old.items) at ≡ Some result }
    ensures rest { around front gap slots.new.items ≡
        remove (around front gap slots.old.items) at }
    ensures len { vec_len slots.new + 1 ≡ vec_len slots.old }
    ensures capacity { vec_capacity slots.new ≡ vec_capacity slots.old }
{
    slots.remove(gap + at)
}

/// Puts a member behind the gap, before the one at a place or at the end. Those behind it move up.
#[tactic(auto, using(crate::proofs::Gaps::put_in))]
fn put_in<T: Drop>(slots: &mut Vec<T>, front: usize, gap: usize, at: usize, item: T)
    requires behind { front ≤ at }
    requires place { gap + at ≤ vec_len slots.old }
    requires slot { vec_len slots.old < vec_capacity slots.old }
    ensures members { around front gap slots.new.items ≡
        insert (around front gap slots.old.items) at item }
    ensures len { vec_len slots.new ≡ vec_len slots.old + 1 }
    ensures capacity { vec_capacity slots.new ≡ vec_capacity slots.old }
{
    slots.insert(gap + at, item).unwrap();
}

/// A place is nearer to the end than to the gap before it.
fn is_near_end(len: usize, front: usize, at: usize) -> bool
    requires { at ≤ len }
    ensures { result ≡ nat_lt (len - at) (at - front) }
{
    len - at < at.saturating_sub(front)
}

impl<T> GapBuffer<T> {
    /// An empty list without room.
    pub fn new(alloc: Global) -> GapBuffer<T>
        ensures { result ≡ record { items = []; room = 0 } }
    {
        GapBuffer {
            slots: Vec::new(alloc),
            front: 0,
            gap: 0,
            room: 0,
            alloc,
        }
    }

    /// How many members there can be without memory.
    pub fn room(&self) -> usize
        ensures room { result ≡ self.now.room }
        ensures within { length self.now.items ≤ self.now.room }
    {
        self.room
    }

    pub fn len(&self) -> usize
        ensures len { result ≡ length self.now.items }
        ensures within { length self.now.items ≤ self.now.room }
    {
        self.slots.len() - self.gap
    }

    /// The members, in two parts.
    pub fn as_split(&self) -> SplitSlice<'_, T>
        ensures items { result ≡ self.now.items }
        ensures within { length self.now.items ≤ self.now.room }
    {
        let slots = self.slots.as_slice();
        SplitSlice::new(&slots[..self.front], &slots[self.front + self.gap..])
    }

    /// Makes room for `more` members beside those that are there, and half as many slots again, so
    /// that a full list that members leave and join has its gap closed but seldom.
    pub fn make_room(&mut self, more: usize) -> Result<(), Memory>
        ensures items { self.new.items ≡ self.old.items }
        ensures grows { self.old.room ≤ self.new.room }
        ensures ok { OnOk result (length self.new.items + more ≤ self.new.room) }
        ensures exact { OnOk result (self.new ≡ record self.old {
          room = max self.old.room (length self.old.items + more);
        }) }
        ensures refused { OnErr result (self.new ≡ self.old) }

        // Where there is room already, it stays as it is.
        ensures ready { length self.old.items + more ≤ self.old.room → IsOk result }
        ensures unchanged { length self.old.items + more ≤ self.old.room → self.new ≡ self.old }
    {
        let len = self.slots.len() - self.gap;
        if more <= self.room - len {
            return Ok(());
        }
        let room = len.checked_add(more).ok_or(Memory)?;
        let slots = room.checked_add(room / 2).ok_or(Memory)?;
        self.slots.reserve(slots.saturating_sub(self.slots.len()))?;
        self.room = room;
        Ok(())
    }

    /// Gives back room, down to what was there before.
    pub fn give_back(&mut self, room: usize)
        requires members { length self.old.items ≤ room }
        requires less { room ≤ self.old.room }
        ensures { self.new ≡ record self.old { room = room } }
    {
        self.room = room;
    }
}

impl<T: Vacant> GapBuffer<T> {
    /// Adds a member at the end.
    pub fn push(&mut self, item: T)
        requires { length self.old.items < self.old.room }
        ensures { self.new ≡ record self.old { items = self.old.items ++ item ∷ [] } }
    {
        self.gap = make_slot(&mut self.slots, self.front, self.gap);
        push_last(&mut self.slots, self.front, self.gap, item);
    }

    /// Puts a member before the one at a place, or at the end. Those between the gap and the place
    /// move, or those behind the place.
    pub fn insert(&mut self, at: usize, item: T)
        requires place { at ≤ length self.old.items }
        requires room { length self.old.items < self.old.room }
        ensures { self.new ≡ record self.old { items = insert self.old.items at item } }
    {
        if is_near_end(self.slots.len() - self.gap, self.front, at) {
            self.gap = make_slot(&mut self.slots, self.front, self.gap);
            put_in(&mut self.slots, self.front, self.gap, at, item);
            return;
        }
        move_gap(&mut self.slots, self.front, self.gap, at);
        self.front = at;
        if self.gap == 0 {
            put_in(&mut self.slots, self.front, 0, at, item);
        } else {
            reoccupy(&mut self.slots, self.front, self.gap, item);
            self.gap -= 1;
        }
    }

    /// Takes out the member at a place. Those between the gap and the place move, or those behind
    /// the place. Where a slot cannot be filled, both do.
    pub fn remove(&mut self, at: usize) -> T
        requires { at < length self.old.items }
        ensures removed { slice_get self.old.items at ≡ Some result }
        ensures rest { self.new ≡ record self.old { items = remove self.old.items at } }
        ensures room { length self.new.items < self.new.room }
    {
        if is_near_end(self.slots.len() - self.gap, self.front, at) {
            return take_out(&mut self.slots, self.front, self.gap, at);
        }
        let filler = filler(self.slots.as_slice(), self.front, self.gap, self.alloc);
        move_gap(&mut self.slots, self.front, self.gap, at);
        self.front = at;
        match filler {
            Ok(filler) => {
                let item = vacate(&mut self.slots, self.front, self.gap, filler);
                self.gap += 1;
                item
            }
            Err(_) => take_out(&mut self.slots, self.front, self.gap, at),
        }
    }
}
