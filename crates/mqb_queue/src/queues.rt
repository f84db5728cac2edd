ghost use Rattle.std.specs.Prelude.{◌≡◌, ◌+◌, ◌-◌, ◌<◌, ◌≤◌, ◌∷◌, [], ◌++◌, length, max, slice_get, Some, None, IsSome, IfSome, IsSomeAnd, OnOk, OnErr, IfErr, IsOk, IsErr, option_copied};
ghost use Rattle.std.specs.Borrow.{sem};
ghost use Rattle.std.specs.Option.{option_map};
ghost use Rattle.mqb_base.specs.declared.roomed.TheConstants.{MAX_MEMBERS};
ghost use Rattle.mqb_queue.specs.Lending.{LendsLists};
ghost use Rattle.mqb_queue.specs.Places.{NamesDiffer, found, lists_at, new_queue, no_queue_room, no_rooms, nothing, numbered, place_named, rooms_at, with_queue, with_queue_room, without_last};
ghost use Rattle.mqb_queue.specs.Seen.{queue_of};

use crate::lists::Lists;
use crate::name_keys::{NameKey, enter, enter_all, name_key};
use crate::new_queue::NewQueue;
use crate::queue::{Queue, numbered};
use indexmap::IndexMap;
use mqb_base::{EntryPlace, MAX_MEMBERS, Memory, Name, Place, QueuePlan, Roomed};
use std::alloc::Global;
use std::marker::Model;

/// The queues of a manager, at most `MAX_MEMBERS`, and the lists that every manager has. Contracts
/// see the lists of all places, and beside them their rooms.
#[derive(Debug, Drop)]
pub struct Queues {
    queues: Roomed<Queue>,
    names: IndexMap<NameKey, u32>,
    dead: Lists,
    dead_xact: Lists,
    journal: Lists,
    alloc: Global,
}

impl Model for Queues {
    ghost use Rattle.std.specs.Prelude.{◌≤◌, map};
    ghost use Rattle.mqb_base.specs.Rooms.{WithRooms};
    ghost use Rattle.mqb_base.specs.declared.roomed.TheConstants.{MAX_MEMBERS};
    ghost use Rattle.mqb_queue.specs.Places.{Places, PlaceRooms, NamesDiffer};
    ghost use Rattle.mqb_queue.specs.Seen.{queue_of, seen};

    ghost Value = { WithRooms Places PlaceRooms };

    ghost view = { λ q. seen q.queues q.dead q.dead_xact q.journal };

    ghost use Rattle.mqb_queue.specs.Names.{IsNamed};

    ghost invariant = { λ q. (q.queues.room ≤ MAX_MEMBERS) × NamesDiffer (map queue_of q.queues.items) × IsNamed (map queue_of q.queues.items) q.queues.room q.names };
}

impl Queues {
    /// No queues, and places without messages.
    pub fn new(alloc: Global) -> Queues
        ensures { result ≡ record { lists = nothing; rooms = no_rooms } }
    {
        Queues {
            queues: Roomed::new(alloc),
            names: IndexMap::new(alloc),
            dead: Lists::new(alloc),
            dead_xact: Lists::new(alloc),
            journal: Lists::new(alloc),
            alloc,
        }
    }

    /// How many queues there are.
    pub fn count(&self) -> u32
        ensures count { result ≡ length self.now.lists.queues }
        ensures distinct { NamesDiffer self.now.lists.queues }
        ensures rooms { length self.now.rooms.queues ≡ length self.now.lists.queues }
    {
        self.queues.len() as u32
    }

    /// The plan of the queue at a place in the list, from 0.
    pub fn plan(&self, k: u32) -> &QueuePlan
        requires { k < length self.now.lists.queues }
        ensures { option_map (λ q. q.plan) (slice_get self.now.lists.queues k) ≡ Some result.now }
    {
        &self.queue(k).plan
    }

    pub(crate) fn queue(&self, k: u32) -> &Queue
        requires { k < length self.now.lists.queues }
        ensures { slice_get self.now.lists.queues k ≡ Some (queue_of result.now) }
    {
        &self.queues.as_slice()[k as usize]
    }

    /// The plan of the queue of a number, from 1, where there is one.
    pub fn plan_numbered(&self, number: u32) -> Option<&QueuePlan>
        ensures { option_copied result ≡ option_map (λ q. q.plan) (numbered self.now.lists.queues
            number) }
    {
        Some(&numbered(self.queues.as_slice(), number)?.plan)
    }

    /// The place in the list, from 0, of the queue with this name, the case of letters left aside.
    pub fn find(&self, name: &Name) -> Option<u32>
        ensures found { result ≡ found self.now.lists.queues name.now }
        ensures within { IfSome result (λ k. k < length self.now.lists.queues) }
        ensures few { length self.now.lists.queues ≤ MAX_MEMBERS }
    {
        let _count = self.queues.len();
        self.names.get(&name_key(name)).copied()
    }

    /// A place as the store names it, where it is there.
    pub fn place(&self, place: &Place) -> Option<EntryPlace>
        ensures { result ≡ place_named self.now.lists.queues place.now }
    {
        match place {
            Place::Queue(name) => Some(EntryPlace::Queue(self.find(name)? + 1)),
            Place::JournalOf(name) => Some(EntryPlace::JournalOf(self.find(name)? + 1)),
            Place::Dead => Some(EntryPlace::Dead),
            Place::DeadXact => Some(EntryPlace::DeadXact),
            Place::Journal => Some(EntryPlace::Journal),
        }
    }

    pub(crate) fn lists(&self, at: EntryPlace) -> Option<&Lists>
        ensures lists { option_map (λ l. l.lists) (option_copied result) ≡
            lists_at self.now.lists at }
        ensures rooms { option_map (λ l. l.rooms) (option_copied result) ≡
            rooms_at self.now.rooms at }
    {
        match at {
            EntryPlace::Queue(number) => Some(&numbered(self.queues.as_slice(), number)?.lists),
            EntryPlace::JournalOf(number) => Some(
                &numbered(self.queues.as_slice(), number)?.journal,
            ),
            EntryPlace::Dead => Some(&self.dead),
            EntryPlace::DeadXact => Some(&self.dead_xact),
            EntryPlace::Journal => Some(&self.journal),
        }
    }

    pub(crate) fn lists_mut(&mut self, at: EntryPlace) -> &mut Lists
        requires { IsSome (lists_at self.old.lists at) }
        ensures lists { lists_at self.old.lists at ≡ Some result.now.lists }
        ensures rooms { rooms_at self.old.rooms at ≡ Some result.now.rooms }
        ensures* back { sem 𝓛 (LendsLists self.entry at result) }
    {
        match at {
            EntryPlace::Queue(number) => &mut self.queues.get_mut(number as usize - 1).lists,
            EntryPlace::JournalOf(number) => &mut self.queues.get_mut(number as usize - 1).journal,
            EntryPlace::Dead => &mut self.dead,
            EntryPlace::DeadXact => &mut self.dead_xact,
            EntryPlace::Journal => &mut self.journal,
        }
    }

    /// Makes room for a queue of this name. Where there is one of the name, none is needed.
    pub fn reserve_queue(&mut self, name: &Name) -> Result<(), Memory>
        ensures ok { OnOk result (self.new ≡ record self.old {
          rooms = with_queue_room self.old name.now;
        }) }
        ensures refused { OnErr result (self.new ≡ self.old) }
        ensures ready { length self.old.lists.queues < self.old.rooms.more_queues → IsOk result }
        ensures limit { found self.old.lists.queues name.now ≡ None →
            length self.old.lists.queues ≡ MAX_MEMBERS → IsErr result }
    {
        if self.find(name).is_some() {
            return Ok(());
        }
        if self.queues.len() >= MAX_MEMBERS {
            return Err(Memory);
        }
        self.names.reserve(1)?;
        self.queues.make_room(1)
    }

    /// Adds a queue without messages at the end.
    pub fn add_queue(&mut self, plan: QueuePlan) -> Result<(), (QueuePlan, Memory)>
        requires { found self.old.lists.queues plan.name ≡ None }
        ensures lists { OnOk result (self.new.lists ≡ with_queue plan self.old.lists) }
        ensures rooms { OnOk result (self.new.rooms ≡ record self.old.rooms {
          queues = self.old.rooms.queues ++ no_queue_room ∷ [];
          more_queues = max self.old.rooms.more_queues (length self.old.lists.queues + 1);
        }) }
        ensures refused { OnErr result (self.new ≡ self.old) }
        ensures handed_back { IfErr result (λ back. back.0 ≡ plan) }
        ensures ready { length self.old.lists.queues < self.old.rooms.more_queues → IsOk result }
        ensures limit { length self.old.lists.queues ≡ MAX_MEMBERS → IsErr result }
    {
        if let Err(memory) = self.reserve_queue(&plan.name) {
            return Err((plan, memory));
        }
        self.push_queue(NewQueue::new(self.alloc, plan));
        Ok(())
    }

    /// Adds a queue without messages at the end, where there is room.
    pub fn push_queue(&mut self, queue: NewQueue)
        requires named { found self.old.lists.queues queue.plan.name ≡ None }
        requires room { length self.old.lists.queues < self.old.rooms.more_queues }
        ensures lists { self.new.lists ≡ with_queue queue.plan self.old.lists }
        ensures rooms { self.new.rooms ≡ record self.old.rooms {
          queues = self.old.rooms.queues ++ queue.rooms ∷ [];
        } }
    {
        let key = name_key(&queue.plan().name);
        enter(&mut self.names, key, self.queues.len() as u32);
        self.queues.push(queue.into_queue());
    }

    /// Takes out the last queue, which has no messages: what `push_queue` added goes back.
    pub fn pop_queue(&mut self) -> NewQueue
        requires { IsSomeAnd (slice_get self.old.lists.queues (length self.old.lists.queues - 1))
            (λ q. q ≡ new_queue q.plan) }
        ensures plan { slice_get self.old.lists.queues (length self.old.lists.queues - 1) ≡
            Some (new_queue result.plan) }
        ensures rooms { slice_get self.old.rooms.queues (length self.old.rooms.queues - 1) ≡
            Some result.rooms }
        ensures rest { self.new ≡ without_last self.old }
        ensures room { length self.new.lists.queues < self.new.rooms.more_queues }
    {
        let queue = self.queues.pop();
        enter_all(&mut self.names, self.queues.as_slice());
        NewQueue::from_queue(queue)
    }
}
