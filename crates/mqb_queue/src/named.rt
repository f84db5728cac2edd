//! Places by name.
ghost use Rattle.std.specs.Prelude.{◌≡◌, ◌+◌, ◌<◌, ◌≤◌, length, slice_get, Some, None, IsSome, IfSome, IsSomeAnd, OnOk, OnErr, IfErr, IsOk, IsErr, option_copied, option_and_then};
ghost use Rattle.std.specs.Option.{option_map};
ghost use Rattle.mqb_base.specs.declared.message.Lane.TheVariants.{Durable, Express};
ghost use Rattle.mqb_base.specs.declared.roomed.TheConstants.{MAX_MEMBERS};
ghost use Rattle.mqb_queue.specs.Arrival.{length_met, refusal_at};
ghost use Rattle.mqb_queue.specs.First.{first_named};
ghost use Rattle.mqb_queue.specs.Lists.{count, put, room_for, room_to_put, without};
ghost use Rattle.mqb_queue.specs.Places.{changed_named, lists_at, lists_named, place_named, spare_named, with_more_room_named};

use crate::arrival::arrival_refusal;
use crate::choice::Choice;
use crate::lists::Lists;
use crate::queues::Queues;
use mqb_base::{Class, EntryPlace, Lane, Memory, Message, Place};
use mqb_deque::SplitSlice;

fn length_met(recorded: bool, lists: &Lists) -> u32
    ensures { result ≡ length_met recorded lists.now.lists }
{
    if recorded {
        lists.messages(Lane::Durable).len() as u32
    } else {
        lists.count()
    }
}

impl Queues {
    /// Why an arrival is refused at the queue at this place in the list, from 0, or at none.
    /// `recorded` says that the message is not express, and `remaining` is the time in seconds that
    /// it has left to reach the queue.
    pub fn admit(
        &self,
        queue: Option<u32>,
        transactional: bool,
        recorded: bool,
        remaining: u32,
    ) -> Option<Class>
        requires { IfSome queue (λ k. k < length self.now.lists.queues) }
        ensures { result ≡ refusal_at self.now.lists.queues queue transactional recorded remaining }
    {
        match queue {
            Some(k) => {
                let queue = self.queue(k);
                let length = length_met(recorded, &queue.lists);
                arrival_refusal(Some(&queue.plan), length, transactional, remaining)
            }
            None => arrival_refusal(None, 0, transactional, remaining),
        }
    }

    /// The message of a place that is taken first, if the place is there and has one not yet due.
    pub fn first(&self, place: &Place, now: u32) -> Option<&Message>
        ensures { option_copied result ≡ first_named self.now.lists place.now now }
    {
        let at = self.place(place)?;
        self.lists(at)?.first(&Choice {
            at,
            moment: now,
            id: None,
        })
    }

    /// How many messages a place has.
    pub fn len(&self, place: &Place) -> Option<u32>
        ensures { result ≡ option_map count (lists_named self.now.lists place.now) }
    {
        self.len_at(self.place(place)?)
    }

    /// The durable messages of a place, the oldest first, in two parts.
    pub fn durable(&self, place: &Place) -> Option<SplitSlice<'_, Message>>
        ensures { result ≡ option_map (λ l. l.durable) (lists_named self.now.lists
            place.now) }
    {
        self.messages_at(self.place(place)?, Lane::Durable)
    }

    /// The express messages of a place, the oldest first, in two parts.
    pub fn express(&self, place: &Place) -> Option<SplitSlice<'_, Message>>
        ensures { result ≡ option_map (λ l. l.express) (lists_named self.now.lists
            place.now) }
    {
        self.messages_at(self.place(place)?, Lane::Express)
    }

    /// A place that is there, as the store names it.
    fn place_there(&self, place: &Place) -> EntryPlace
        requires { IsSome (lists_named self.now.lists place.now) }
        ensures place { place_named self.now.lists.queues place.now ≡ Some result }
        ensures there { IsSome (lists_at self.now.lists result) }
    {
        self.place(place).unwrap()
    }

    /// Adds a durable message at the end of a place.
    pub fn put(&mut self, place: &Place, message: Message) -> Result<(), (Message, Memory)>
        requires there { IsSome (lists_named self.old.lists place.now) }
        ensures lists { OnOk result (self.new.lists ≡
            changed_named self.old.lists place.now (put Durable message)) }
        ensures rooms { OnOk result (self.new.rooms ≡
            with_more_room_named self.old place.now (room_to_put Durable)) }
        ensures refused { OnErr result (self.new ≡ self.old) }
        ensures handed_back { IfErr result (λ back. back.0 ≡ message) }
        ensures ready { 0 < spare_named self.old place.now Durable → IsOk result }
        ensures limit { IfSome (lists_named self.old.lists place.now)
            (λ l. count l ≡ MAX_MEMBERS → IsErr result) }
    {
        let at = self.place_there(place);
        self.put_at(at, Lane::Durable, message)
    }

    /// Adds an express message at the end of a place.
    pub fn put_express(&mut self, place: &Place, message: Message) -> Result<(), (Message, Memory)>
        requires there { IsSome (lists_named self.old.lists place.now) }
        ensures lists { OnOk result (self.new.lists ≡
            changed_named self.old.lists place.now (put Express message)) }
        ensures rooms { OnOk result (self.new.rooms ≡
            with_more_room_named self.old place.now (room_to_put Express)) }
        ensures refused { OnErr result (self.new ≡ self.old) }
        ensures handed_back { IfErr result (λ back. back.0 ≡ message) }
        ensures ready { 0 < spare_named self.old place.now Express → IsOk result }
        ensures limit { IfSome (lists_named self.old.lists place.now)
            (λ l. count l ≡ MAX_MEMBERS → IsErr result) }
    {
        let at = self.place_there(place);
        self.put_at(at, Lane::Express, message)
    }

    /// Takes out the k-th durable message of a place, from 0.
    pub fn remove(&mut self, place: &Place, k: u32) -> Message
        requires { IsSomeAnd (lists_named self.old.lists place.now) (λ l. k < length l.durable) }
        ensures removed { option_and_then (λ l. slice_get l.durable k)
            (lists_named self.old.lists place.now) ≡ Some result }
        ensures rest { self.new ≡ record self.old {
          lists = changed_named self.old.lists place.now (without Durable k);
        } }
    {
        let at = self.place_there(place);
        self.remove_at(at, Lane::Durable, k)
    }

    /// Takes out the k-th express message of a place, from 0.
    pub fn remove_express(&mut self, place: &Place, k: u32) -> Message
        requires { IsSomeAnd (lists_named self.old.lists place.now) (λ l. k < length l.express) }
        ensures removed { option_and_then (λ l. slice_get l.express k)
            (lists_named self.old.lists place.now) ≡ Some result }
        ensures rest { self.new ≡ record self.old {
          lists = changed_named self.old.lists place.now (without Express k);
        } }
    {
        let at = self.place_there(place);
        self.remove_at(at, Lane::Express, k)
    }

    /// Makes room in a place for so many more messages of each kind, and no more where it had less.
    pub fn reserve(&mut self, place: &Place, durable: u32, express: u32) -> Result<(), Memory>
        requires there { IsSome (lists_named self.old.lists place.now) }
        ensures ok { OnOk result (self.new ≡ record self.old {
          rooms = with_more_room_named self.old place.now (room_for durable express);
        }) }
        ensures refused { OnErr result (self.new ≡ self.old) }
        ensures ready { durable ≤ spare_named self.old place.now Durable →
            express ≤ spare_named self.old place.now Express → IsOk result }
        ensures limit { IfSome (lists_named self.old.lists place.now)
            (λ l. MAX_MEMBERS < count l + (durable + express) → IsErr result) }
    {
        let at = self.place_there(place);
        self.reserve_at(at, durable, express)
    }
}
