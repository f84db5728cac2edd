ghost use Rattle.std.specs.Prelude.{◌≡◌, ◌<◌, ◌≤◌, [], ◌∷◌, ◌++◌, IsSomeAnd, OnOk, Some, length};
ghost use Rattle.std.specs.Prelude.{map, slice_get};
ghost use Rattle.mqb_tables.specs.Ends.{last_of, without_last};
ghost use Rattle.mqb_tables.specs.Rooms.{AreMembersGrown, no_members, plain_room};
ghost use Rattle.mqb_base.specs.declared.message.Lane.{Lane};
ghost use Rattle.mqb_tables.specs.Waits.{CanWait, plain_count};
ghost use Rattle.mqb_tables.specs.Seen.{lists_of, rooms_of};
ghost use Rattle.mqb_model.specs.Lists.{with_changed};
ghost use Rattle.mqb_model.specs.managers.Beside.{all_unmarked};
ghost use Rattle.mqb_plain.specs.Lists.{InOrder, messages_of};
ghost use Rattle.mqb_plain.specs.Plain.{MaySend, inserted, outgoing_in, room_in, sent, without};

use mqb_base::{Lane, Memory, Message, Roomed, SessionHead};
use mqb_plain::{Outgoing, PlainOut};
use std::alloc::Global;
use std::marker::Model;

/// The plain messages that wait for each peer. Contracts see them, and beside them how many
/// messages each peer can have without memory, and how many peers there can be.
#[derive(Debug, Drop)]
pub struct PlainOuts {
    peers: Roomed<PlainOut>,
}

impl Model for PlainOuts {
    ghost use Rattle.std.specs.Prelude.{List};
    ghost use Rattle.mqb_base.specs.Rooms.{WithRooms};
    ghost use Rattle.mqb_tables.specs.Rooms.{MemberRooms};
    ghost use Rattle.mqb_tables.specs.Seen.{lists_of, rooms_of, seen_members};
    ghost use Rattle.mqb_plain.specs.Plain.{PlainLists, PlainRooms};

    ghost Value = { WithRooms (List PlainLists) (MemberRooms PlainRooms) };

    ghost view = { λ p. seen_members lists_of rooms_of p.peers };
}

fn messages(plain: &PlainOut, lane: Lane) -> &[Message]
    ensures messages { result.now ≡ messages_of (outgoing_in lane plain.now.lists) }
    ensures in_order { InOrder (outgoing_in lane plain.now.lists) }
{
    match lane {
        Lane::Durable => plain.recoverable(),
        Lane::Express => plain.express(),
    }
}

fn count_in(plain: &PlainOut, lane: Lane) -> u32
    ensures count { result ≡ length (outgoing_in lane plain.now.lists) }
    ensures in_order { InOrder (outgoing_in lane plain.now.lists) }
{
    let _count = plain.len();
    messages(plain, lane).len() as u32
}

/// The message of a lane at an index leaves.
fn remove(plain: &mut PlainOut, lane: Lane, index: u32) -> Outgoing
    requires { index < length (outgoing_in lane plain.old.lists) }
    ensures removed { slice_get (outgoing_in lane plain.old.lists) index ≡ Some result }
    ensures lists { lists_of plain.new ≡ without lane index (lists_of plain.old) }
    ensures rooms { rooms_of plain.new ≡ rooms_of plain.old }
    ensures left { length (outgoing_in lane plain.new.lists) < room_in lane plain.new.rooms }
    ensures in_order { InOrder (outgoing_in lane plain.old.lists) }
{
    let _messages = messages(plain, lane);
    plain.remove(lane, index)
}

/// Makes room for one more message of a lane.
fn make_room_in(plain: &mut PlainOut, lane: Lane) -> Result<(), Memory>
    ensures lists { lists_of plain.new ≡ lists_of plain.old }
    ensures grows { (kind : Lane) → room_in kind plain.old.rooms ≤ room_in kind plain.new.rooms }
    ensures ok { OnOk result
        (length (outgoing_in lane plain.new.lists) < room_in lane plain.new.rooms) }
{
    match lane {
        Lane::Durable => plain.reserve(1, 0),
        Lane::Express => plain.reserve(0, 1),
    }
}

impl PlainOuts {
    /// There is no peer.
    pub fn new(alloc: Global) -> PlainOuts
        ensures { result ≡ record { lists = []; rooms = no_members } }
    {
        PlainOuts {
            peers: Roomed::new(alloc),
        }
    }

    /// How many peers there are.
    pub fn count(&self) -> usize
        ensures count { result ≡ length self.now.lists }
        ensures rooms { length self.now.rooms.each ≡ length self.now.lists }
    {
        self.peers.len()
    }

    /// The plain messages for the peer at an index.
    pub fn get(&self, peer: u32) -> &PlainOut
        requires { peer < length self.now.lists }
        ensures { slice_get self.now.lists peer ≡ Some result.now.lists }
    {
        &self.peers.as_slice()[peer as usize]
    }

    /// How many messages of a lane wait for a peer.
    pub fn count_in(&self, peer: u32, lane: Lane) -> u32
        requires { peer < length self.now.lists }
        ensures count { result ≡ plain_count self.now.lists peer lane }
        ensures in_order { IsSomeAnd (slice_get self.now.lists peer)
            (λ p. InOrder (outgoing_in lane p)) }
    {
        count_in(self.get(peer), lane)
    }

    /// A message of a lane waits for a peer before the one at an index, or at the end,
    /// where there is room.
    pub fn insert(&mut self, peer: u32, lane: Lane, index: u32, outgoing: Outgoing)
        requires can { IsSomeAnd (slice_get self.old.lists peer) (CanWait lane index outgoing) }
        requires room { plain_count self.old.lists peer lane < plain_room self.old.rooms peer lane }
        ensures { self.new ≡ record self.old {
          lists = with_changed (inserted lane index outgoing) self.old.lists peer;
        } }
    {
        self.peers
            .get_mut(peer as usize)
            .insert(lane, index, outgoing);
    }

    /// The message of a lane that waits for a peer at an index leaves.
    pub fn remove(&mut self, peer: u32, lane: Lane, index: u32) -> Outgoing
        requires { IsSomeAnd (slice_get self.old.lists peer)
            (λ p. index < length (outgoing_in lane p)) }
        ensures removed { IsSomeAnd (slice_get self.old.lists peer)
            (λ p. slice_get (outgoing_in lane p) index ≡ Some result) }
        ensures plain { self.new ≡ record self.old {
          lists = with_changed (without lane index) self.old.lists peer;
        } }
        ensures back { IsSomeAnd (slice_get self.new.lists peer) (CanWait lane index result) }
        ensures room { plain_count self.new.lists peer lane < plain_room self.new.rooms peer lane }
    {
        remove(self.peers.get_mut(peer as usize), lane, index)
    }

    /// The next message for a peer was sent with a session header.
    pub fn mark_sent(&mut self, peer: u32, head: &SessionHead)
        requires { IsSomeAnd (slice_get self.old.lists peer) (λ p. MaySend p head.now) }
        ensures { self.new ≡ record self.old {
          lists = with_changed (sent head.now) self.old.lists peer;
        } }
    {
        self.peers.get_mut(peer as usize).mark_sent(head);
    }

    fn unmark_for(&mut self, peer: usize)
        requires { peer < length self.old.lists }
        ensures { self.new ≡ record self.old {
          lists = with_changed all_unmarked self.old.lists peer;
        } }
    {
        self.peers.get_mut(peer).restart_marks();
    }

    /// No message counts as sent any more.
    pub fn unmark(&mut self)
        ensures { self.new ≡ record self.old { lists = map all_unmarked self.old.lists } }
    {
        for peer in 0..self.peers.len() {
            self.unmark_for(peer);
        }
    }

    /// A peer joins the others at the end, where there is room.
    pub fn push(&mut self, plain: PlainOut)
        requires { length self.old.lists < self.old.rooms.more }
        ensures lists { self.new.lists ≡ self.old.lists ++ plain.lists ∷ [] }
        ensures rooms { self.new.rooms ≡ record self.old.rooms {
          each = self.old.rooms.each ++ plain.rooms ∷ [];
        } }
    {
        self.peers.push(plain);
    }

    /// The last peer leaves.
    pub fn pop(&mut self) -> PlainOut
        requires { 0 < length self.old.lists }
        ensures last { last_of self.old.lists ≡ Some result.lists }
        ensures last_rooms { last_of self.old.rooms.each ≡ Some result.rooms }
        ensures lists { self.new.lists ≡ without_last self.old.lists }
        ensures rooms { self.new.rooms ≡ record self.old.rooms {
          each = without_last self.old.rooms.each;
        } }
        ensures room { length self.new.lists < self.new.rooms.more }
    {
        self.peers.pop()
    }

    /// Makes room for one more message of a lane that waits for a peer.
    pub fn make_room_in(&mut self, peer: u32, lane: Lane) -> Result<(), Memory>
        requires { peer < length self.old.lists }
        ensures lists { self.new.lists ≡ self.old.lists }
        ensures grown { (kind : Lane) →
            AreMembersGrown (room_in kind) self.old.rooms self.new.rooms }
        ensures ok { OnOk result
            (plain_count self.new.lists peer lane < plain_room self.new.rooms peer lane) }
    {
        make_room_in(self.peers.get_mut(peer as usize), lane)
    }

    /// Makes room for one more peer.
    pub fn make_room(&mut self) -> Result<(), Memory>
        ensures lists { self.new.lists ≡ self.old.lists }
        ensures grown { (kind : Lane) →
            AreMembersGrown (room_in kind) self.old.rooms self.new.rooms }
        ensures ok { OnOk result (length self.new.lists < self.new.rooms.more) }
    {
        self.peers.make_room(1)
    }
}
