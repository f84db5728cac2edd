ghost use Rattle.std.specs.Prelude.{◌≡◌, ◌+◌, ◌<◌, ◌≤◌, ◌++◌, nat_lt, length, slice_get, Some, OnOk, OnErr, IfSome, IfErr, IsOk, IsErr, option_map, option_copied};
ghost use Rattle.mqb_base.specs.declared.message.Lane.TheVariants.{Durable, Express};
ghost use Rattle.mqb_base.specs.declared.message.Message.{Message};
ghost use Rattle.mqb_base.specs.declared.roomed.TheConstants.{MAX_MEMBERS};
ghost use Rattle.mqb_queue.specs.Empty.{AreEmpty, rooms_in};
ghost use Rattle.mqb_queue.specs.First.{is_wanted, first_index, first_of, first_position};
ghost use Rattle.mqb_queue.specs.Lists.{no_messages, no_room, count, messages_in, put, inserted, room_for, room_to_put, spare, without};

use crate::choice::Choice;
use crate::first::Position;
use crate::messages::MessageList;
use mqb_base::{Lane, MAX_MEMBERS, Memory, Message};
use mqb_deque::{GapBuffer, SplitSlice};
use std::alloc::Global;
use std::marker::Model;

/// The messages of a place, at most `MAX_MEMBERS`: the durable ones and the express ones, each the oldest first. Contracts see both lists, and
/// beside them how many messages each can have without memory.
#[derive(Debug, Drop)]
pub(crate) struct Lists {
    durable: MessageList,
    express: MessageList,
}

impl Model for Lists {
    ghost use Rattle.std.specs.Prelude.{◌≤◌, ◌+◌};
    ghost use Rattle.mqb_base.specs.Rooms.{WithRooms};
    ghost use Rattle.mqb_base.specs.declared.message.Lane.TheVariants.{Durable, Express};
    ghost use Rattle.mqb_base.specs.declared.roomed.TheConstants.{MAX_MEMBERS};
    ghost use Rattle.mqb_queue.specs.Lists.{Lists, ListRooms};

    ghost Value = { WithRooms Lists ListRooms };

    ghost view = { λ l. record {
      lists = record { durable = l.durable.items; express = l.express.items };
      rooms = record { durable = l.durable.room; express = l.express.room };
    } };

    ghost invariant = { λ l. l.durable.room + l.express.room ≤ MAX_MEMBERS };
}

fn position(lane: Lane, index: usize) -> Position
    requires { index < MAX_MEMBERS }
    ensures { result ≡ record { lane = lane; index = index } }
{
    Position {
        lane,
        index: index as u32,
    }
}

impl Lists {
    pub(crate) fn new(alloc: Global) -> Lists
        ensures { result ≡ record { lists = no_messages; rooms = no_room } }
    {
        Lists::from_empty((GapBuffer::new(alloc), GapBuffer::new(alloc)))
    }

    pub(crate) fn from_empty(empty: (GapBuffer<Message>, GapBuffer<Message>)) -> Lists
        requires { AreEmpty empty }
        ensures { result ≡ record { lists = no_messages; rooms = rooms_in empty } }
    {
        Lists {
            durable: MessageList::from_empty(empty.0),
            express: MessageList::from_empty(empty.1),
        }
    }

    pub(crate) fn into_empty(self) -> (GapBuffer<Message>, GapBuffer<Message>)
        requires { self.lists ≡ no_messages }
        ensures empty { AreEmpty result }
        ensures rooms { rooms_in result ≡ self.rooms }
    {
        (self.durable.into_messages(), self.express.into_messages())
    }

    pub(crate) fn count(&self) -> u32
        ensures count { result ≡ count self.now.lists }
        ensures within { count self.now.lists ≤ MAX_MEMBERS }
    {
        (self.durable.len() + self.express.len()) as u32
    }

    pub(crate) fn messages(&self, lane: Lane) -> SplitSlice<'_, Message>
        ensures messages { result ≡ messages_in lane self.now.lists }
        ensures within { length (messages_in lane self.now.lists) ≤ MAX_MEMBERS }
    {
        match lane {
            Lane::Durable => self.durable.as_split(),
            Lane::Express => self.express.as_split(),
        }
    }

    pub(crate) fn reserve(&mut self, durable: u32, express: u32) -> Result<(), Memory>
        ensures ok { OnOk result (self.new ≡ record self.old {
          rooms = room_for durable express self.old.lists self.old.rooms;
        }) }
        ensures refused { OnErr result (self.new ≡ self.old) }
        ensures ready { durable ≤ spare Durable self.old → express ≤ spare Express self.old →
            IsOk result }
        ensures limit { MAX_MEMBERS < count self.old.lists + (durable + express) → IsErr result }
    {
        let before = self.durable.room();
        let wanted = before.max(self.durable.len() + durable as usize);
        let wanted_express = self
            .express
            .room()
            .max(self.express.len() + express as usize);
        if wanted + wanted_express > MAX_MEMBERS {
            return Err(Memory);
        }
        self.durable.make_room(durable as usize)?;
        if let Err(memory) = self.express.make_room(express as usize) {
            self.durable.give_back(before);
            return Err(memory);
        }
        Ok(())
    }

    pub(crate) fn put(&mut self, lane: Lane, message: Message) -> Result<(), (Message, Memory)>
        ensures lists { OnOk result (self.new.lists ≡ put lane message self.old.lists) }
        ensures rooms { OnOk result (self.new.rooms ≡
            room_to_put lane self.old.lists self.old.rooms) }
        ensures refused { OnErr result (self.new ≡ self.old) }
        ensures handed_back { IfErr result (λ back. back.0 ≡ message) }
        ensures ready { 0 < spare lane self.old → IsOk result }
        ensures limit { count self.old.lists ≡ MAX_MEMBERS → IsErr result }
    {
        let room = match lane {
            Lane::Durable => self.reserve(1, 0),
            Lane::Express => self.reserve(0, 1),
        };
        if let Err(memory) = room {
            return Err((message, memory));
        }
        match lane {
            Lane::Durable => self.durable.push(message),
            Lane::Express => self.express.push(message),
        }
        Ok(())
    }

    pub(crate) fn insert(&mut self, lane: Lane, k: usize, message: Message)
        requires place { k ≤ length (messages_in lane self.old.lists) }
        requires room { 0 < spare lane self.old }
        ensures { self.new ≡ record self.old { lists = inserted lane k message self.old.lists } }
    {
        match lane {
            Lane::Durable => self.durable.insert(k, message),
            Lane::Express => self.express.insert(k, message),
        }
    }

    pub(crate) fn remove(&mut self, lane: Lane, k: usize) -> Message
        requires { k < length (messages_in lane self.old.lists) }
        ensures removed { slice_get (messages_in lane self.old.lists) k ≡ Some result }
        ensures rest { self.new ≡ record self.old { lists = without lane k self.old.lists } }
        ensures room { 0 < spare lane self.new }
        ensures place { k ≤ length (messages_in lane self.new.lists) }
    {
        match lane {
            Lane::Durable => self.durable.remove(k),
            Lane::Express => self.express.remove(k),
        }
    }

    fn is_lower(&self, durable: usize, express: usize) -> bool
        requires durable { durable < length self.now.lists.durable }
        requires express { express < length self.now.lists.express }
        ensures { (former latter : Message) →
            slice_get self.now.lists.durable durable ≡ Some former →
            slice_get self.now.lists.express express ≡ Some latter →
            result ≡ nat_lt former.priority latter.priority }
    {
        self.durable.as_split().at(durable).priority < self.express.as_split().at(express).priority
    }

    pub(crate) fn first_position(&self, choice: &Choice) -> Option<Position>
        ensures within { IfSome result (λ p. p.index < length (messages_in p.lane self.now.lists)) }
        ensures first { result ≡ first_position (is_wanted choice.now.at choice.now.moment
            choice.now.id) self.now.lists }
    {
        let durable = self.durable.first_index(choice);
        let express = self.express.first_index(choice);
        match (durable, express) {
            (Some(former), Some(latter)) => Some(if self.is_lower(former, latter) {
                position(Lane::Express, latter)
            } else {
                position(Lane::Durable, former)
            }),
            (Some(former), None) => Some(position(Lane::Durable, former)),
            (None, Some(latter)) => Some(position(Lane::Express, latter)),
            (None, None) => None,
        }
    }

    pub(crate) fn first_durable(&self, choice: &Choice) -> Option<u32>
        ensures within { IfSome result (λ k. k < length self.now.lists.durable) }
        ensures first { result ≡ first_index (is_wanted choice.now.at choice.now.moment
            choice.now.id) self.now.lists.durable }
    {
        self.durable.first_index(choice).map(|index| index as u32)
    }

    pub(crate) fn first(&self, choice: &Choice) -> Option<&Message>
        ensures { option_copied result ≡ first_of (is_wanted choice.now.at choice.now.moment
            choice.now.id) (self.now.lists.durable ++ self.now.lists.express) }
    {
        let position = self.first_position(choice)?;
        self.messages(position.lane).get(position.index as usize)
    }
}
