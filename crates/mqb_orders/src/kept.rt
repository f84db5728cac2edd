ghost use Rattle.std.specs.Prelude.{◌≡◌, ◌+◌, ◌-◌, ◌<◌, ◌≤◌, ◌==◌, [], ◌∷◌, ◌++◌, length, insert};
ghost use Rattle.std.specs.Prelude.{remove, drop, take, slice_get, max, All, Some, IsOk, IsErr};
ghost use Rattle.std.specs.Prelude.{OnOk, OnErr, IfErr, nat_lt, nat_le};
ghost use Rattle.std.specs.List.{list_any};
ghost use Rattle.std.specs.VecDeque.{deque_len, deque_capacity};
ghost use Rattle.mqb_base.specs.Bits.{keeps_dead};
ghost use Rattle.mqb_base.specs.declared.roomed.TheConstants.{MAX_MEMBERS};
ghost use Rattle.mqb_orders.specs.KeptLists.{Rises, released};

use mqb_base::{MAX_MEMBERS, Memory, Message};
use std::alloc::Global;
use std::collections::VecDeque;
use std::marker::Model;

/// A message of a stream that its source still keeps, and its number.
#[derive(Clone, Debug, PartialEq, Eq, Drop)]
pub struct Kept {
    pub number: u32,
    pub message: Message,
}

/// The kept messages of one stream, in rising order of number. Contracts see the list and its room:
/// how many messages there can be without memory, at most `MAX_MEMBERS`.
#[derive(Debug, Drop)]
pub struct KeptList {
    items: VecDeque<Kept>,
    room: usize,
}

impl Model for KeptList {
    ghost use Rattle.std.specs.Prelude.{◌≤◌};
    ghost use Rattle.std.specs.VecDeque.{deque_len, deque_capacity};
    ghost use Rattle.mqb_base.specs.Rooms.{Room};
    ghost use Rattle.mqb_base.specs.declared.roomed.TheConstants.{MAX_MEMBERS};
    ghost use Rattle.mqb_orders.specs.KeptLists.{Rises};
    ghost use Rattle.mqb_orders.specs.declared.kept.Kept.{Kept};

    ghost Value = { Room Kept };

    ghost view = { λ l. record { items = l.items.items; room = l.room } };

    ghost invariant = { λ l. (deque_len l.items ≤ l.room) × (l.room ≤ deque_capacity l.items)
        × (l.room ≤ MAX_MEMBERS) × Rises l.items.items };
}

impl KeptList {
    /// An empty list.
    pub fn new(alloc: Global) -> KeptList
        ensures { result ≡ record { items = []; room = 0 } }
    {
        KeptList {
            items: VecDeque::new(alloc),
            room: 0,
        }
    }

    pub fn len(&self) -> u32
        ensures len { result ≡ length self.now.items }
        ensures within { length self.now.items ≤ self.now.room }
        ensures rises { Rises self.now.items }
    {
        self.items.len() as u32
    }

    pub fn is_empty(&self) -> bool
        ensures { result ≡ (length self.now.items == 0) }
    {
        self.items.is_empty()
    }

    /// The message at a place.
    pub fn get(&self, at: u32) -> &Kept
        requires { at < length self.now.items }
        ensures kept { slice_get self.now.items at ≡ Some result.now }
        ensures rises { Rises self.now.items }
    {
        self.items.get(at as usize).unwrap()
    }

    /// Makes room for `n` more, and for no more than that where there was less.
    pub fn reserve(&mut self, n: u32) -> Result<(), Memory>
        ensures ok { OnOk result (self.new ≡ record self.old {
          room = max self.old.room (length self.old.items + n);
        }) }
        ensures refused { OnErr result (self.new ≡ self.old) }
        ensures ready { length self.old.items + n ≤ self.old.room → IsOk result }

        // The limit.
        ensures limit { MAX_MEMBERS < length self.old.items + n → IsErr result }
    {
        let wanted = self.items.len() + n as usize;
        if wanted <= self.room {
            return Ok(());
        }
        if wanted > MAX_MEMBERS {
            return Err(Memory);
        }
        self.items.reserve(n as usize)?;
        self.room = wanted;
        Ok(())
    }

    /// Adds a message at the end. Its number is greater than all that are kept.
    pub fn push(&mut self, kept: Kept) -> Result<(), (Kept, Memory)>
        requires { All (λ k. k.number < kept.number) self.old.items }
        ensures items { OnOk result (self.new.items ≡ self.old.items ++ kept ∷ []) }
        ensures room { OnOk result (self.new.room ≡ max self.old.room (length self.old.items + 1)) }
        ensures refused { OnErr result (self.new ≡ self.old) }
        ensures handed_back { IfErr result (λ back. back.0 ≡ kept) }
        ensures ready { length self.old.items < self.old.room → IsOk result }

        // The limit.
        ensures limit { length self.old.items ≡ MAX_MEMBERS → IsErr result }
    {
        match self.reserve(1) {
            Ok(()) => {
                self.items.push_back_reserved(kept);
                Ok(())
            }
            Err(memory) => Err((kept, memory)),
        }
    }

    /// Takes out the last message.
    pub fn pop(&mut self) -> Kept
        requires { 0 < length self.old.items }
        ensures popped { slice_get self.old.items (length self.old.items - 1) ≡ Some result }
        ensures rest { self.new ≡ record self.old {
          items = take (length self.old.items - 1) self.old.items;
        } }
        ensures room { length self.new.items < self.new.room }
    {
        self.items.pop_back().unwrap()
    }

    /// Puts a message before the one at a place, or at the end, where its number is in order.
    pub fn insert(&mut self, at: u32, kept: Kept)
        requires place { at ≤ length self.old.items }
        requires room { length self.old.items < self.old.room }
        requires rises { Rises (insert self.old.items at kept) }
        ensures { self.new ≡ record self.old { items = insert self.old.items at kept } }
    {
        self.items.insert(at as usize, kept).unwrap();
    }

    /// Takes out the message at a place. The others move on the shorter side.
    pub fn remove(&mut self, at: u32) -> Kept
        requires { at < length self.old.items }
        ensures removed { slice_get self.old.items at ≡ Some result }
        ensures rest { self.new ≡ record self.old { items = remove self.old.items at } }
        ensures room { length self.new.items < self.new.room }
    {
        self.items.remove(at as usize).unwrap()
    }

    /// How many messages have a number up to this one. They are the first.
    pub(crate) fn count_up_to(&self, number: u32) -> u32
        ensures within { result ≤ length self.now.items }
        ensures first { All (λ k. k.number ≤ number) (take result self.now.items) }
        ensures rest { All (λ k. number < k.number) (drop result self.now.items) }
    {
        self.items.partition_point(|kept| kept.number <= number) as u32
    }

    /// The same, found from the front on: it looks at these and at one more.
    fn count_from_front(&self, number: u32) -> u32
        ensures within { result ≤ length self.now.items }
        ensures first { All (λ k. k.number ≤ number) (take result self.now.items) }
        ensures rest { All (λ k. number < k.number) (drop result self.now.items) }
    {
        match self.items.iter().position(|kept| kept.number > number) {
            Some(at) => at as u32,
            None => self.items.len() as u32,
        }
    }

    fn has_dead_letters(&self, count: u32) -> bool
        ensures { result ≡ list_any (λ k. keeps_dead k.message) (take count self.now.items) }
    {
        self.items
            .iter()
            .take(count as usize)
            .any(|kept| kept.message.keeps_dead())
    }

    /// Drops the messages up to a number, which was acknowledged, but for those with the
    /// dead-letter bit: their fate is not known yet. Where there are none of these, the messages
    /// above the number do not move.
    pub fn release(&mut self, number: u32)
        ensures { self.new ≡ record self.old { items = released number self.old.items } }
    {
        let count = self.count_from_front(number);
        if self.has_dead_letters(count) {
            release_each(&mut self.items, number);
        } else {
            drop_first(&mut self.items, count as usize);
        }
    }
}

fn drop_first(items: &mut VecDeque<Kept>, count: usize)
    requires { count ≤ deque_len items.old }
    ensures items { items.new.items ≡ drop count items.old.items }
    ensures bound { deque_len items.new ≤ deque_len items.old }
    ensures capacity { deque_capacity items.new ≡ deque_capacity items.old }
{
    items.drain(..count);
}

fn release_each(items: &mut VecDeque<Kept>, number: u32)
    ensures kept { items.new.items ≡ released number items.old.items }
    ensures bound { deque_len items.new ≤ deque_len items.old }
    ensures capacity { deque_capacity items.new ≡ deque_capacity items.old }
{
    items.retain(|kept| kept.number > number || kept.message.keeps_dead());
}
