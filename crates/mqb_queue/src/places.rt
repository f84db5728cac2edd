//! Places as the store names them: each call and the one that takes it back.
ghost use Rattle.std.specs.Prelude.{◌≡◌, ◌+◌, ◌<◌, ◌≤◌, length, slice_get, Some, None, IsSome, IfSome, IsSomeAnd, OnOk, OnErr, IfErr, IsOk, IsErr, option_and_then};
ghost use Rattle.std.specs.Option.{option_map};
ghost use Rattle.mqb_base.specs.declared.message.Lane.TheVariants.{Durable, Express};
ghost use Rattle.mqb_base.specs.declared.roomed.TheConstants.{MAX_MEMBERS};
ghost use Rattle.mqb_queue.specs.First.{first_index, first_position, index_named, is_wanted};
ghost use Rattle.mqb_queue.specs.Lists.{count, inserted, messages_in, put, room_for, room_to_put, without};
ghost use Rattle.mqb_queue.specs.Places.{changed_at, lists_at, spare_at, with_more_room};

use crate::choice::Choice;
use crate::first::Position;
use crate::queues::Queues;
use mqb_base::{EntryPlace, Lane, Memory, Message, MessageId};
use mqb_deque::SplitSlice;

impl Queues {
    /// How many messages a place has.
    pub fn len_at(&self, at: EntryPlace) -> Option<u32>
        ensures { result ≡ option_map count (lists_at self.now.lists at) }
    {
        Some(self.lists(at)?.count())
    }

    /// The messages of a lane of a place, the oldest first, in two parts.
    pub fn messages_at(&self, at: EntryPlace, lane: Lane) -> Option<SplitSlice<'_, Message>>
        ensures messages { result ≡ option_map (messages_in lane) (lists_at self.now.lists at) }
        ensures within { IfSome result (λ m. length m ≤ MAX_MEMBERS) }
    {
        Some(self.lists(at)?.messages(lane))
    }

    /// Where the first message of a place stands, if the place is there and one can be taken.
    pub fn first_position(&self, at: EntryPlace, now: u32) -> Option<Position>
        ensures first { result ≡ option_and_then (first_position (is_wanted at now None))
            (lists_at self.now.lists at) }
        ensures within { IfSome result (λ p. IsSomeAnd (lists_at self.now.lists at)
            (λ l. p.index < length (messages_in p.lane l))) }
    {
        self.lists(at)?.first_position(&Choice {
            at,
            moment: now,
            id: None,
        })
    }

    /// Where the first durable message of a place stands that can be taken.
    pub fn first_durable(&self, at: EntryPlace, now: u32) -> Option<u32>
        ensures index { result ≡ option_and_then (λ l.
            first_index (is_wanted at now None) l.durable) (lists_at self.now.lists at) }
        ensures within { IfSome result (λ k. IsSomeAnd (lists_at self.now.lists at)
            (λ l. k < length l.durable)) }
    {
        self.lists(at)?.first_durable(&Choice {
            at,
            moment: now,
            id: None,
        })
    }

    /// Where the durable message of a place stands that an identifier names: the first of several.
    pub fn index_named(&self, at: EntryPlace, id: MessageId, now: u32) -> Option<u32>
        ensures index { result ≡ index_named self.now.lists at id now }
        ensures within { IfSome result (λ k. IsSomeAnd (lists_at self.now.lists at)
            (λ l. k < length l.durable)) }
    {
        self.lists(at)?.first_durable(&Choice {
            at,
            moment: now,
            id: Some(id),
        })
    }

    /// Makes room in a place for so many more messages of each kind, and no more where it had less.
    pub fn reserve_at(&mut self, at: EntryPlace, durable: u32, express: u32) -> Result<(), Memory>
        requires there { IsSome (lists_at self.old.lists at) }
        ensures ok { OnOk result (self.new ≡ record self.old {
          rooms = with_more_room self.old at (room_for durable express);
        }) }
        ensures refused { OnErr result (self.new ≡ self.old) }
        ensures ready { durable ≤ spare_at self.old at Durable →
            express ≤ spare_at self.old at Express → IsOk result }
        ensures limit { IfSome (lists_at self.old.lists at)
            (λ l. MAX_MEMBERS < count l + (durable + express) → IsErr result) }
    {
        self.lists_mut(at).reserve(durable, express)
    }

    /// Adds a message at the end of a lane of a place.
    pub fn put_at(
        &mut self,
        at: EntryPlace,
        lane: Lane,
        message: Message,
    ) -> Result<(), (Message, Memory)>
        requires there { IsSome (lists_at self.old.lists at) }
        ensures lists { OnOk result (self.new.lists ≡
            changed_at self.old.lists at (put lane message)) }
        ensures rooms { OnOk result (self.new.rooms ≡
            with_more_room self.old at (room_to_put lane)) }
        ensures refused { OnErr result (self.new ≡ self.old) }
        ensures handed_back { IfErr result (λ back. back.0 ≡ message) }
        ensures ready { 0 < spare_at self.old at lane → IsOk result }
        ensures limit { IfSome (lists_at self.old.lists at)
            (λ l. count l ≡ MAX_MEMBERS → IsErr result) }
    {
        self.lists_mut(at).put(lane, message)
    }

    /// Puts a message of a lane before the k-th or at the end: what `remove_at` took out goes back.
    pub fn insert_at(&mut self, at: EntryPlace, lane: Lane, k: u32, message: Message)
        requires place { IsSomeAnd (lists_at self.old.lists at)
            (λ l. k ≤ length (messages_in lane l)) }
        requires room { 0 < spare_at self.old at lane }
        ensures { self.new ≡ record self.old {
          lists = changed_at self.old.lists at (inserted lane k message);
        } }
    {
        self.lists_mut(at).insert(lane, k as usize, message);
    }

    /// Takes out the k-th message of a lane of a place, from 0.
    pub fn remove_at(&mut self, at: EntryPlace, lane: Lane, k: u32) -> Message
        requires { IsSomeAnd (lists_at self.old.lists at) (λ l. k < length (messages_in lane l)) }
        ensures removed { option_and_then (λ l. slice_get (messages_in lane l) k)
            (lists_at self.old.lists at) ≡ Some result }
        ensures rest { self.new ≡ record self.old {
          lists = changed_at self.old.lists at (without lane k);
        } }
        ensures room { 0 < spare_at self.new at lane }
        ensures place { IsSomeAnd (lists_at self.new.lists at)
            (λ l. k ≤ length (messages_in lane l)) }
    {
        self.lists_mut(at).remove(lane, k as usize)
    }
}
