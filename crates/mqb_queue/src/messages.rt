ghost use Rattle.std.specs.Prelude.{◌≡◌, ◌<◌, ◌≤◌, ◌+◌, [], ◌∷◌, ◌++◌, length, max, insert, remove, slice_get, Some, IfSome, IsOk, OnOk, OnErr};
ghost use Rattle.mqb_queue.specs.First.{first_index, is_wanted};

use crate::choice::Choice;
use crate::counts::{LEVELS, bound_of, count_less, count_more};
use crate::passes::{NO_PASSES, Pass, go_on, raise, shift};
use crate::search::first_index;
use mqb_base::{Memory, Message};
use mqb_deque::{GapBuffer, SplitSlice};
use std::marker::Model;

/// Messages, the oldest first. Contracts see the list, and its room.
#[derive(Debug, Drop)]
pub(crate) struct MessageList {
    messages: GapBuffer<Message>,
    /// How many messages have each priority from 0 to 6, and how many another one.
    counts: [usize; LEVELS],
    /// None of the messages has a greater priority.
    top: u8,
    /// How far the messages of each level have ended.
    passes: [Pass; LEVELS],
}

impl Model for MessageList {
    ghost use Rattle.mqb_base.specs.Rooms.{Room};
    ghost use Rattle.mqb_base.specs.declared.message.Message.{Message};
    ghost use Rattle.mqb_queue.specs.Passes.{AreKnown};

    ghost Value = { Room Message };

    ghost view = { λ l. l.messages };

    ghost invariant = { λ l. AreKnown l.top l.counts l.passes l.messages.items };
}

impl MessageList {
    pub(crate) fn from_empty(messages: GapBuffer<Message>) -> MessageList
        requires { messages.items ≡ [] }
        ensures { result ≡ messages }
    {
        MessageList {
            messages,
            counts: [0; LEVELS],
            top: 0,
            passes: NO_PASSES,
        }
    }

    pub(crate) fn into_messages(self) -> GapBuffer<Message>
        ensures { result ≡ self }
    {
        self.messages
    }

    pub(crate) fn len(&self) -> usize
        ensures len { result ≡ length self.now.items }
        ensures within { length self.now.items ≤ self.now.room }
    {
        self.messages.len()
    }

    pub(crate) fn room(&self) -> usize
        ensures { result ≡ self.now.room }
    {
        self.messages.room()
    }

    pub(crate) fn as_split(&self) -> SplitSlice<'_, Message>
        ensures items { result ≡ self.now.items }
        ensures within { length self.now.items ≤ self.now.room }
    {
        self.messages.as_split()
    }

    pub(crate) fn make_room(&mut self, more: usize) -> Result<(), Memory>
        ensures ok { OnOk result (self.new ≡ record self.old {
          room = max self.old.room (length self.old.items + more);
        }) }
        ensures refused { OnErr result (self.new ≡ self.old) }
        ensures ready { length self.old.items + more ≤ self.old.room → IsOk result }
    {
        self.messages.make_room(more)
    }

    pub(crate) fn give_back(&mut self, room: usize)
        requires members { length self.old.items ≤ room }
        requires less { room ≤ self.old.room }
        ensures { self.new ≡ record self.old { room = room } }
    {
        self.messages.give_back(room);
    }

    pub(crate) fn push(&mut self, message: Message)
        requires { length self.old.items < self.old.room }
        ensures { self.new ≡ record self.old { items = self.old.items ++ message ∷ [] } }
    {
        self.top = self.top.max(message.priority);
        count_more(&mut self.counts, message.priority, self.messages.room());
        self.messages.push(message);
    }

    pub(crate) fn insert(&mut self, at: usize, message: Message)
        requires place { at ≤ length self.old.items }
        requires room { length self.old.items < self.old.room }
        ensures { self.new ≡ record self.old { items = insert self.old.items at message } }
    {
        self.top = self.top.max(message.priority);
        count_more(&mut self.counts, message.priority, self.messages.room());
        self.messages.insert(at, message);
        let messages = self.messages.as_split();
        raise(&mut self.passes, &messages, at);
    }

    pub(crate) fn remove(&mut self, at: usize) -> Message
        requires { at < length self.old.items }
        ensures removed { slice_get self.old.items at ≡ Some result }
        ensures rest { self.new ≡ record self.old { items = remove self.old.items at } }
        ensures room { length self.new.items < self.new.room }
        ensures place { at ≤ length self.new.items }
    {
        let message = self.messages.remove(at);
        count_less(&mut self.counts, message.priority);
        shift(&mut self.passes, at);
        let messages = self.messages.as_split();
        go_on(&mut self.passes, &self.counts, &messages, at, &message);
        message
    }

    pub(crate) fn first_index(&self, choice: &Choice) -> Option<usize>
        ensures within { IfSome result (λ k. k < length self.now.items) }
        ensures room { length self.now.items ≤ self.now.room }
        ensures first { result ≡ first_index (is_wanted choice.now.at choice.now.moment
            choice.now.id) self.now.items }
    {
        let bound = bound_of(&self.counts, self.top);
        let messages = self.messages.as_split();
        first_index(&messages, &self.counts, &self.passes, bound, choice)
    }
}
