ghost use Rattle.std.specs.Prelude.{◌≡◌, ◌==◌, ◌+◌, ◌<◌, ◌≤◌, length, insert, slice_get, filter};
ghost use Rattle.std.specs.Prelude.{count_by, not, take, Some, IsOk, IsErr, OnOk, OnErr};
ghost use Rattle.std.specs.Prelude.{IfErr, option_map};
ghost use Rattle.mqb_base.specs.declared.message.Lane.TheVariants.{Durable, Express};
ghost use Rattle.mqb_base.specs.declared.roomed.TheConstants.{MAX_MEMBERS};
ghost use Rattle.mqb_plain.specs.Lists.{InOrder, is_sent_by, marks_of, messages_of, unmarked};
ghost use Rattle.mqb_plain.specs.Plain.{MaySend, count, inserted, next_unsent, no_plain, no_room};
ghost use Rattle.mqb_plain.specs.Plain.{outgoing_in, pushed, room_for, room_to_push, sent};
ghost use Rattle.mqb_plain.specs.Plain.{spare, without};

use crate::outgoing::{OutList, Outgoing};
use mqb_base::{Lane, MAX_MEMBERS, Memory, Message, SessionHead};
use std::alloc::Global;
use std::marker::Model;

/// The plain messages that wait for one peer, recoverable and express ones, at most `MAX_MEMBERS`
/// together. A message that was sent in this connection bears the number of its list that its
/// session header had. A recoverable one is released when the peer tells that it has stored so
/// many, an express one is dropped when the peer tells that it has got so many.
///
/// Contracts see both lists as messages with their numbers, and beside them how many each can
/// have without memory.
#[derive(Debug, Drop)]
pub struct PlainOut {
    recoverable: OutList,
    express: OutList,
}

impl Model for PlainOut {
    ghost use Rattle.std.specs.Prelude.{◌≤◌, ◌+◌};
    ghost use Rattle.mqb_base.specs.Rooms.{WithRooms};
    ghost use Rattle.mqb_base.specs.declared.roomed.TheConstants.{MAX_MEMBERS};
    ghost use Rattle.mqb_plain.specs.Plain.{PlainLists, PlainRooms};

    ghost Value = { WithRooms PlainLists PlainRooms };

    ghost view = { λ p. record {
      lists = record { recoverable = p.recoverable.items; express = p.express.items };
      rooms = record { recoverable = p.recoverable.room; express = p.express.room };
    } };

    ghost invariant = { λ p. p.recoverable.room + p.express.room ≤ MAX_MEMBERS };
}

impl PlainOut {
    /// Both lists are empty.
    pub fn new(alloc: Global) -> PlainOut
        ensures { result ≡ record { lists = no_plain; rooms = no_room } }
    {
        PlainOut {
            recoverable: OutList::new(alloc),
            express: OutList::new(alloc),
        }
    }

    /// How many messages wait.
    pub fn len(&self) -> u32
        ensures len { result ≡ count self.now.lists }
        ensures within { count self.now.lists ≤ MAX_MEMBERS }
    {
        (self.recoverable.len() + self.express.len()) as u32
    }

    pub fn is_empty(&self) -> bool
        ensures { result ≡ (count self.now.lists == 0) }
    {
        self.len() == 0
    }

    /// The recoverable messages, in order.
    pub fn recoverable(&self) -> &[Message]
        ensures messages { result.now ≡ messages_of self.now.lists.recoverable }
        ensures in_order { InOrder self.now.lists.recoverable }
    {
        self.recoverable.as_slice()
    }

    /// The express messages, in order.
    pub fn express(&self) -> &[Message]
        ensures messages { result.now ≡ messages_of self.now.lists.express }
        ensures in_order { InOrder self.now.lists.express }
    {
        self.express.as_slice()
    }

    /// The numbers of the messages of a lane that were sent in this connection.
    /// They are the first ones.
    pub fn marks(&self, lane: Lane) -> &[u16]
        ensures { result.now ≡ marks_of (outgoing_in lane self.now.lists) }
    {
        match lane {
            Lane::Durable => self.recoverable.marks(),
            Lane::Express => self.express.marks(),
        }
    }

    /// Makes room for so many more, and for no more than that where there was less.
    pub fn reserve(&mut self, recoverable: u32, express: u32) -> Result<(), Memory>
        ensures ok { OnOk result (self.new ≡ record self.old {
          rooms = room_for recoverable express self.old.lists self.old.rooms;
        }) }
        ensures refused { OnErr result (self.new ≡ self.old) }

        // Where there is room already.
        ensures ready { recoverable ≤ spare Durable self.old → express ≤ spare Express self.old →
            IsOk result }

        // The limit.
        ensures limit { MAX_MEMBERS < count self.old.lists + (recoverable + express) →
            IsErr result }
    {
        let before = self.recoverable.room();
        let wanted = before.max(self.recoverable.len() + recoverable as usize);
        let wanted_express = self
            .express
            .room()
            .max(self.express.len() + express as usize);
        if wanted + wanted_express > MAX_MEMBERS {
            return Err(Memory);
        }
        self.recoverable.make_room(recoverable as usize)?;
        if let Err(memory) = self.express.make_room(express as usize) {
            self.recoverable.give_back(before);
            return Err(memory);
        }
        Ok(())
    }

    fn push(&mut self, lane: Lane, message: Message) -> Result<(), (Message, Memory)>
        ensures lists { OnOk result (self.new.lists ≡ pushed lane message self.old.lists) }
        ensures rooms { OnOk result (self.new.rooms ≡
            room_to_push lane self.old.lists self.old.rooms) }
        ensures refused { OnErr result (self.new ≡ self.old) }
        ensures handed_back { IfErr result (λ back. back.0 ≡ message) }
        ensures ready { 0 < spare lane self.old → IsOk result }
        ensures limit { count self.old.lists ≡ MAX_MEMBERS → IsErr result }
    {
        let room = match lane {
            Lane::Durable => self.reserve(1, 0),
            Lane::Express => self.reserve(0, 1),
        };
        if let Err(memory) = room {
            return Err((message, memory));
        }
        match lane {
            Lane::Durable => self.recoverable.push(message),
            Lane::Express => self.express.push(message),
        }
        Ok(())
    }

    /// Adds a recoverable message at the end, unsent.
    pub fn push_recoverable(&mut self, message: Message) -> Result<(), (Message, Memory)>
        ensures lists { OnOk result (self.new.lists ≡ pushed Durable message self.old.lists) }
        ensures rooms { OnOk result (self.new.rooms ≡
            room_to_push Durable self.old.lists self.old.rooms) }
        ensures refused { OnErr result (self.new ≡ self.old) }
        ensures handed_back { IfErr result (λ back. back.0 ≡ message) }
        ensures ready { 0 < spare Durable self.old → IsOk result }

        // The limit.
        ensures limit { count self.old.lists ≡ MAX_MEMBERS → IsErr result }
    {
        self.push(Lane::Durable, message)
    }

    /// Adds an express message at the end, unsent.
    pub fn push_express(&mut self, message: Message) -> Result<(), (Message, Memory)>
        ensures lists { OnOk result (self.new.lists ≡ pushed Express message self.old.lists) }
        ensures rooms { OnOk result (self.new.rooms ≡
            room_to_push Express self.old.lists self.old.rooms) }
        ensures refused { OnErr result (self.new ≡ self.old) }
        ensures handed_back { IfErr result (λ back. back.0 ≡ message) }
        ensures ready { 0 < spare Express self.old → IsOk result }

        // The limit.
        ensures limit { count self.old.lists ≡ MAX_MEMBERS → IsErr result }
    {
        self.push(Lane::Express, message)
    }

    /// The next message to send in this connection: recoverable ones go first.
    pub fn unsent(&self) -> Option<&Message>
        ensures { option_map (λ message. message.now) result ≡ next_unsent self.now.lists }
    {
        match self.recoverable.first_unsent() {
            Some(message) => Some(message),
            None => self.express.first_unsent(),
        }
    }

    /// Marks the message that `unsent` gives with the number that its session header has for its
    /// list. That number is above those of the list.
    pub fn mark_sent(&mut self, head: &SessionHead)
        requires { MaySend self.old.lists head.now }
        ensures { self.new ≡ record self.old { lists = sent head.now self.old.lists } }
    {
        if self.recoverable.first_unsent().is_some() {
            self.recoverable.mark_next(head.recoverable);
        } else {
            self.express.mark_next(head.user);
        }
    }

    /// How many recoverable messages are released where the peer has stored so many in this
    /// connection. They are the first of the list.
    pub fn released_by(&self, stored: u16) -> u32
        ensures count { result ≡ count_by (is_sent_by stored) self.now.lists.recoverable }
        ensures first { filter (is_sent_by stored) self.now.lists.recoverable ≡
            take result self.now.lists.recoverable }
    {
        self.recoverable.sent_by(stored) as u32
    }

    /// Drops the express messages that the peer has got, by the count of packets that it
    /// got in this connection.
    pub fn drop_express(&mut self, ack: u16)
        ensures lists { self.new.lists ≡ record self.old.lists {
          express = filter (λ o. not (is_sent_by ack o)) self.old.lists.express;
        } }
        ensures rooms { self.new.rooms ≡ self.old.rooms }
    {
        self.express.drop_sent_by(ack);
    }

    /// Makes each message unsent, for a new connection.
    pub fn restart_marks(&mut self)
        ensures lists { self.new.lists ≡ record {
          recoverable = unmarked self.old.lists.recoverable;
          express = unmarked self.old.lists.express;
        } }
        ensures rooms { self.new.rooms ≡ self.old.rooms }
    {
        self.recoverable.unmark();
        self.express.unmark();
    }

    /// Takes out the message of a lane at a place, with its mark. The later ones
    /// move down, with theirs.
    pub fn remove(&mut self, lane: Lane, k: u32) -> Outgoing
        requires { k < length (outgoing_in lane self.old.lists) }
        ensures removed { slice_get (outgoing_in lane self.old.lists) k ≡ Some result }
        ensures rest { self.new ≡ record self.old { lists = without lane k self.old.lists } }
        ensures room { 0 < spare lane self.new }
    {
        match lane {
            Lane::Durable => self.recoverable.remove(k as usize),
            Lane::Express => self.express.remove(k as usize),
        }
    }

    /// Puts a message of a lane before the one at a place, or at the end, with its mark: what
    /// `remove` took out goes back.
    pub fn insert(&mut self, lane: Lane, k: u32, outgoing: Outgoing)
        requires place { k ≤ length (outgoing_in lane self.old.lists) }
        requires room { 0 < spare lane self.old }
        requires in_order { InOrder (insert (outgoing_in lane self.old.lists) k outgoing) }
        ensures { self.new ≡ record self.old { lists = inserted lane k outgoing self.old.lists } }
    {
        match lane {
            Lane::Durable => self.recoverable.insert(k as usize, outgoing),
            Lane::Express => self.express.insert(k as usize, outgoing),
        }
    }

    /// Takes out the recoverable message at a place. The later ones move down, with their marks.
    #[tactic(auto, using(crate::proofs::Placing::message_of_place))]
    pub fn remove_recoverable(&mut self, k: u32) -> Message
        requires { k < length self.old.lists.recoverable }
        ensures removed { slice_get (messages_of self.old.lists.recoverable) k ≡ Some result }
        ensures rest { self.new ≡ record self.old { lists = without Durable k self.old.lists } }
    {
        self.remove(Lane::Durable, k).message
    }

    /// Takes out the express message at a place. The later ones move down, with their marks.
    #[tactic(auto, using(crate::proofs::Placing::message_of_place))]
    pub fn remove_express(&mut self, k: u32) -> Message
        requires { k < length self.old.lists.express }
        ensures removed { slice_get (messages_of self.old.lists.express) k ≡ Some result }
        ensures rest { self.new ≡ record self.old { lists = without Express k self.old.lists } }
    {
        self.remove(Lane::Express, k).message
    }
}
