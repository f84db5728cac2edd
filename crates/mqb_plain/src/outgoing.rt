ghost use Rattle.std.specs.Prelude.{◌≡◌, ◌+◌, ◌<◌, ◌≤◌, [], ◌∷◌, ◌++◌, length, max, insert, remove};
ghost use Rattle.std.specs.Prelude.{slice_get, filter, count_by, nat_le, not, take, take_while};
ghost use Rattle.std.specs.Prelude.{Some, IsSome, IsOk, OnOk, OnErr, option_map};
ghost use Rattle.mqb_plain.specs.Lists.{InOrder, first_unsent, greatest_mark, is_sent_by};
ghost use Rattle.mqb_plain.specs.Lists.{marked_next, marks_of, messages_of, unmarked, unsent};

use mqb_base::{Memory, Message, Roomed};
use mqb_deque::RoomedDeque;
use std::alloc::Global;
use std::marker::Model;

/// A plain message for a peer, and the number of its list that its session header had, where it was
/// sent in this connection.
#[derive(Debug, PartialEq, Eq, Drop)]
pub struct Outgoing {
    pub message: Message,
    pub mark: Option<u16>,
}

/// Messages in order, of which the first ones were sent in this connection.
#[derive(Debug, Drop)]
pub(crate) struct OutList {
    messages: RoomedDeque<Message>,
    /// The numbers of those that were sent.
    marks: Roomed<u16>,
}

impl Model for OutList {
    ghost use Rattle.mqb_base.specs.Rooms.{Room};
    ghost use Rattle.mqb_plain.specs.Lists.{IsList, marked};
    ghost use Rattle.mqb_plain.specs.declared.outgoing.Outgoing.{Outgoing};

    ghost Value = { Room Outgoing };

    ghost view = { λ l.
        record { items = marked l.messages.items l.marks.items; room = l.messages.room } };

    ghost invariant = { λ l. IsList l.messages.items l.marks.items l.messages.room l.marks.room };
}

/// How many of rising numbers are up to this one.
fn count_up_to(marks: &[u16], number: u16) -> usize
    ensures { result ≡ length (take_while (λ mark. nat_le mark number) marks.now) }
{
    marks.iter().take_while(|mark| **mark <= number).count()
}

fn message_at(messages: &[Message], at: usize) -> Option<&Message>
    ensures { option_map (λ message. message.now) result ≡ slice_get messages.now at }
{
    messages.get(at)
}

/// Takes out the number at a place, if there is one.
fn remove_mark(marks: &mut Roomed<u16>, at: usize) -> Option<u16>
    ensures removed { result ≡ slice_get marks.old.items at }
    ensures rest { marks.new ≡ record marks.old { items = remove marks.old.items at } }
{
    if at < marks.len() {
        Some(marks.remove(at))
    } else {
        None
    }
}

impl OutList {
    pub(crate) fn new(alloc: Global) -> OutList
        ensures { result ≡ record { items = []; room = 0 } }
    {
        OutList {
            messages: RoomedDeque::new(alloc),
            marks: Roomed::new(alloc),
        }
    }

    pub(crate) fn len(&self) -> usize
        ensures len { result ≡ length self.now.items }
        ensures within { length self.now.items ≤ self.now.room }
    {
        self.messages.len()
    }

    pub(crate) fn room(&self) -> usize
        ensures { result ≡ self.now.room }
    {
        self.messages.room()
    }

    pub(crate) fn as_slice(&self) -> &[Message]
        ensures messages { result.now ≡ messages_of self.now.items }
        ensures in_order { InOrder self.now.items }
    {
        self.messages.as_slice()
    }

    /// The numbers of those that were sent. They are the first.
    pub(crate) fn marks(&self) -> &[u16]
        ensures { result.now ≡ marks_of self.now.items }
    {
        self.marks.as_slice()
    }

    /// Makes room for `more`, and for no more than that where there was less.
    #[tactic(auto, using(crate::proofs::Marking::length_marked))]
    pub(crate) fn make_room(&mut self, more: usize) -> Result<(), Memory>
        requires { length self.old.items + more ≤ 0xFFFFFFFF }
        ensures ok { OnOk result (self.new ≡ record self.old {
          room = max self.old.room (length self.old.items + more);
        }) }
        ensures refused { OnErr result (self.new ≡ self.old) }
        ensures ready { length self.old.items + more ≤ self.old.room → IsOk result }
    {
        self.marks
            .make_room(self.messages.len() - self.marks.len() + more)?;
        self.messages.make_room(more)
    }

    /// Gives back room, down to what was there before.
    pub(crate) fn give_back(&mut self, room: usize)
        requires members { length self.old.items ≤ room }
        requires less { room ≤ self.old.room }
        ensures { self.new ≡ record self.old { room = room } }
    {
        self.messages.give_back(room);
    }

    /// Adds a message at the end, where there is room.
    pub(crate) fn push(&mut self, message: Message)
        requires { length self.old.items < self.old.room }
        ensures { self.new ≡ record self.old { items = self.old.items ++ unsent message ∷ [] } }
    {
        self.messages.push(message);
    }

    pub(crate) fn first_unsent(&self) -> Option<&Message>
        ensures { option_map (λ message. message.now) result ≡ first_unsent self.now.items }
    {
        message_at(self.messages.as_slice(), self.marks.len())
    }

    /// Marks the first unsent message with a number.
    pub(crate) fn mark_next(&mut self, number: u16)
        requires unsent { IsSome (first_unsent self.old.items) }
        requires above { greatest_mark self.old.items < number }
        ensures { self.new ≡ record self.old { items = marked_next number self.old.items } }
    {
        self.marks.push(number);
    }

    /// How many were sent with a number up to this one. They are the first.
    pub(crate) fn sent_by(&self, number: u16) -> usize
        ensures within { result ≤ self.now.room }
        ensures count { result ≡ count_by (is_sent_by number) self.now.items }
        ensures first { filter (is_sent_by number) self.now.items ≡ take result self.now.items }
    {
        count_up_to(self.marks.as_slice(), number)
    }

    /// Drops those that were sent with a number up to this one.
    pub(crate) fn drop_sent_by(&mut self, number: u16)
        ensures { self.new ≡ record self.old {
          items = filter (λ o. not (is_sent_by number o)) self.old.items;
        } }
    {
        let count = count_up_to(self.marks.as_slice(), number);
        self.messages.drop_first(count);
        self.marks.drop_first(count);
    }

    /// Makes each message unsent.
    pub(crate) fn unmark(&mut self)
        ensures { self.new ≡ record self.old { items = unmarked self.old.items } }
    {
        self.marks.drop_first(self.marks.len());
    }

    /// Takes out the message at a place. The later ones move down, with their marks.
    pub(crate) fn remove(&mut self, at: usize) -> Outgoing
        requires { at < length self.old.items }
        ensures removed { slice_get self.old.items at ≡ Some result }
        ensures rest { self.new ≡ record self.old { items = remove self.old.items at } }
        ensures room { length self.new.items < self.new.room }
    {
        let message = self.messages.remove(at);
        let mark = remove_mark(&mut self.marks, at);
        Outgoing { message, mark }
    }

    /// Puts a message before the one at a place, or at the end, with its mark.
    pub(crate) fn insert(&mut self, at: usize, outgoing: Outgoing)
        requires place { at ≤ length self.old.items }
        requires room { length self.old.items < self.old.room }
        requires in_order { InOrder (insert self.old.items at outgoing) }
        ensures { self.new ≡ record self.old { items = insert self.old.items at outgoing } }
    {
        self.messages.insert(at, outgoing.message);
        if let Some(mark) = outgoing.mark {
            self.marks.insert(at, mark);
        }
    }
}
