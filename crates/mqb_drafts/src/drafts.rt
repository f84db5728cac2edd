ghost use Rattle.std.specs.Prelude.{◌≡◌, ◌+◌, ◌<◌, ◌≤◌, [], ◌∷◌, IsSome, IsSomeAnd, OnOk};
ghost use Rattle.std.specs.Prelude.{length, slice_get};
ghost use Rattle.mqb_contents.specs.Changes.{AllReady, Can, HasRoom, changed, held, inverse};
ghost use Rattle.mqb_contents.specs.Changes.{lists_after, messages_back, redone, rooms_redone};
ghost use Rattle.mqb_contents.specs.Rooms.{IsGrown};
ghost use Rattle.mqb_contents.specs.mqb_model.rules.Effects.{begun, without_line};
ghost use Rattle.mqb_contents.specs.mqb_model.state.Places.{put_at, with_plain, without_at};
ghost use Rattle.mqb_base.specs.Lanes.{lane_of};
ghost use Rattle.mqb_plain.specs.Plain.{outgoing_in, pushed, without};
ghost use Rattle.mqb_queue.specs.Lists.{messages_in};
ghost use Rattle.mqb_queue.specs.Places.{lists_at};

use crate::logs::Log;
use crate::turns::redo;
use mqb_base::{EntryPlace, Lane, Line, Memory, Message, Roomed};
use mqb_contents::{Change, Contents};
use mqb_plain::Outgoing;
use std::alloc::Global;
use std::marker::Model;

/// A state in which changes are tried, and the lines of what was done so far. What a manager keeps
/// is large, and is not moved.
#[derive(Debug, Drop)]
pub struct Draft {
    pub(crate) contents: Box<Contents>,
    pub(crate) log: Log,
    pub(crate) lines: Roomed<Line>,
    pub(crate) alloc: Global,
}

impl Model for Draft {
    ghost use Rattle.mqb_contents.specs.Changes.{AllReady, messages_back, redone, rooms_redone};
    ghost use Rattle.mqb_drafts.specs.Drafts.{Drafted};

    ghost Value = { Drafted };

    ghost view = { λ d. record {
      effect = record { state = d.contents.value.lists; lines = d.lines.items };
      start = redone d.contents.value.lists d.log.items;
      rooms = rooms_redone d.contents.value.rooms d.log.items;
      held = messages_back d.log.items;
    } };

    ghost invariant = { λ d. AllReady d.contents.value d.log.items };
}

/// Makes room for a change, and for the change back.
fn make_room(contents: &mut Box<Contents>, log: &mut Log, change: &Change) -> Result<(), Memory>
    requires { Can contents.old.value.lists change.now }
    ensures lists { contents.new.value.lists ≡ contents.old.value.lists }
    ensures grown { IsGrown contents.old.value.rooms contents.new.value.rooms }
    ensures log { log.new.items ≡ log.old.items }
    ensures room { OnOk result (HasRoom contents.new.value change.now) }
    ensures logged { OnOk result (length log.old.items + 1 ≤ log.new.room) }
{
    log.make_room(1)?;
    contents.make_room(change)
}

/// Makes a change, and notes the change back.
fn make(contents: &mut Box<Contents>, log: &mut Log, change: Change)
    requires can { Can contents.old.value.lists change }
    requires room { HasRoom contents.old.value change }
    requires logged { length log.old.items < log.old.room }
    ensures made { contents.new.value ≡ changed contents.old.value change }
    ensures log { log.new.items ≡ inverse contents.old.value change ∷ log.old.items }
    ensures can_back { Can contents.new.value.lists (inverse contents.old.value change) }
    ensures room_back { HasRoom contents.new.value (inverse contents.old.value change) }
{
    let back = contents.change(change);
    log.push(back);
}

impl Draft {
    /// Nothing was done yet.
    pub fn new(alloc: Global, contents: Box<Contents>) -> Draft
        ensures { result ≡ record {
          effect = begun contents.value.lists;
          start = contents.value.lists;
          rooms = contents.value.rooms;
          held = 0;
        } }
    {
        Draft {
            contents,
            log: Log::new(alloc),
            lines: Roomed::new(alloc),
            alloc,
        }
    }

    /// The allocator of the state's lists.
    pub fn alloc(&self) -> Global {
        self.alloc
    }

    /// What the state has become so far.
    pub fn contents(&self) -> &Contents
        ensures { result.now.lists ≡ self.now.effect.state }
    {
        &self.contents
    }

    /// The state as it became, the changes that lead back to the state as it was, and the lines.
    pub fn keep(self) -> (Box<Contents>, Log, Roomed<Line>)
        ensures state { result.0.value.lists ≡ self.effect.state }
        ensures ready { AllReady result.0.value result.1.items }
        ensures back { redone result.0.value.lists result.1.items ≡ self.start }
        ensures rooms { rooms_redone result.0.value.rooms result.1.items ≡ self.rooms }
        ensures messages { messages_back result.1.items ≡ self.held }
        ensures lines { result.2.items ≡ self.effect.lines }
    {
        let Draft {
            contents,
            log,
            lines,
            alloc: _,
        } = self;
        (contents, log, lines)
    }

    /// The state as it was. It takes no memory.
    pub fn take_back(self) -> Box<Contents>
        ensures start { result.value.lists ≡ self.start }
        ensures rooms { result.value.rooms ≡ self.rooms }
    {
        let Draft {
            mut contents,
            log,
            lines: _,
            alloc: _,
        } = self;
        redo(&mut contents, log);
        contents
    }

    /// Makes room for so many changes at once. Contracts see nothing of it: a change
    /// makes room for itself.
    pub(crate) fn make_room(&mut self, changes: usize) -> Result<(), Memory>
        ensures { self.new ≡ self.old }
    {
        self.log.make_room(changes)
    }

    /// Makes a change.
    pub fn change(&mut self, change: Change) -> Result<(), Memory>
        requires { Can self.old.effect.state change }
        ensures ok { OnOk result (self.new.effect ≡ without_line self.old.effect
            (lists_after self.old.effect.state change)) }
        ensures start { self.new.start ≡ self.old.start }
        ensures grown { IsGrown self.old.rooms self.new.rooms }
        ensures held { OnOk result (self.new.held ≡ self.old.held + held change) }
    {
        match make_room(&mut self.contents, &mut self.log, &change) {
            Ok(()) => {
                make(&mut self.contents, &mut self.log, change);
                Ok(())
            }
            Err(Memory) => {
                change.discard();
                Err(Memory)
            }
        }
    }
}

/// Messages.
impl Draft {
    /// A message joins its lane of a place at the end.
    pub fn put(&mut self, at: EntryPlace, message: Message) -> Result<(), Memory>
        requires { IsSome (lists_at self.old.effect.state.places at) }
        ensures ok { OnOk result (self.new.effect ≡ without_line self.old.effect
            (put_at self.old.effect.state at message)) }
        ensures start { self.new.start ≡ self.old.start }
        ensures grown { IsGrown self.old.rooms self.new.rooms }
        ensures held { OnOk result (self.new.held ≤ self.old.held + 1) }
    {
        let lane = message.delivery.lane();
        let index = self.contents.count_at(at, lane);
        self.change(Change::Insert {
            at,
            lane,
            index,
            message,
        })
    }

    /// The message of a lane of a place at an index leaves.
    pub fn take_out(&mut self, at: EntryPlace, lane: Lane, index: u32) -> Result<(), Memory>
        requires { IsSomeAnd (lists_at self.old.effect.state.places at)
            (λ l. index < length (messages_in lane l)) }
        ensures ok { OnOk result (self.new.effect ≡ without_line self.old.effect
            (without_at lane self.old.effect.state at index)) }
        ensures start { self.new.start ≡ self.old.start }
        ensures grown { IsGrown self.old.rooms self.new.rooms }
        ensures held { OnOk result (self.new.held ≤ self.old.held) }
    {
        self.change(Change::Remove { at, lane, index })
    }

    /// The plain message of a lane for a peer at an index leaves.
    pub fn take_out_plain(&mut self, peer: u32, lane: Lane, index: u32) -> Result<(), Memory>
        requires { IsSomeAnd (slice_get self.old.effect.state.plain peer)
            (λ p. index < length (outgoing_in lane p)) }
        ensures ok { OnOk result (self.new.effect ≡ without_line self.old.effect
            (with_plain (without lane index) self.old.effect.state peer)) }
        ensures start { self.new.start ≡ self.old.start }
        ensures grown { IsGrown self.old.rooms self.new.rooms }
        ensures held { OnOk result (self.new.held ≤ self.old.held) }
    {
        self.change(Change::RemovePlain { peer, lane, index })
    }

    /// A message joins the plain messages for a peer at the end of its lane, unsent.
    pub fn push_plain(&mut self, peer: u32, message: Message) -> Result<(), Memory>
        requires { peer < length self.old.effect.state.plain }
        ensures ok { OnOk result (self.new.effect ≡ without_line self.old.effect
            (with_plain (pushed (lane_of message.delivery) message) self.old.effect.state peer)) }
        ensures start { self.new.start ≡ self.old.start }
        ensures grown { IsGrown self.old.rooms self.new.rooms }
        ensures held { OnOk result (self.new.held ≤ self.old.held + 1) }
    {
        let lane = message.delivery.lane();
        let index = self.contents.plain_count(peer, lane);
        let outgoing = Outgoing {
            message,
            mark: None,
        };
        self.change(Change::InsertPlain {
            peer,
            lane,
            index,
            outgoing,
        })
    }
}
