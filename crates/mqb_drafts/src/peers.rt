ghost use Rattle.std.specs.Prelude.{◌≡◌, ◌+◌, ◌<◌, ◌≤◌, ◌^◌, ◌++◌, [], ◌∷◌, None, OnOk, length};
ghost use Rattle.mqb_base.specs.declared.message.Delivery.TheVariants.{Express, Recoverable};
ghost use Rattle.mqb_contents.specs.Rooms.{IsGrown};
ghost use Rattle.mqb_drafts.specs.Drafts.{HasNext, noted};
ghost use Rattle.mqb_contents.specs.mqb_model.declared.limits.TheConstants.{MAX_PEERS, MAX_QUEUES};
ghost use Rattle.mqb_contents.specs.mqb_model.records.Peer.{with_new_queue, with_peer};
ghost use Rattle.mqb_contents.specs.mqb_model.rules.Effects.{without_line};
ghost use Rattle.mqb_contents.specs.mqb_model.rules.Numbers.{number_taken, numbers_taken};
ghost use Rattle.mqb_queue.specs.Places.{found};

use crate::drafts::Draft;
use mqb_base::{Identity, Line, Memory, QueuePlan};
use mqb_contents::{Change, Counters, NewPeer};
use mqb_queue::NewQueue;

impl Draft {
    /// A peer joins the others at the end.
    pub fn add_peer(&mut self, identity: Identity) -> Result<(), Memory>
        requires { length self.old.effect.state.peers < MAX_PEERS }
        ensures ok { OnOk result (self.new.effect ≡ without_line self.old.effect
            (with_peer self.old.effect.state identity)) }
        ensures start { self.new.start ≡ self.old.start }
        ensures grown { IsGrown self.old.rooms self.new.rooms }
        ensures held { OnOk result (self.new.held ≤ self.old.held) }
    {
        self.change(Change::AddPeer(NewPeer::new(self.alloc, identity)))
    }

    /// A queue joins the others at the end.
    pub fn add_queue(&mut self, plan: QueuePlan) -> Result<(), Memory>
        requires named { found self.old.effect.state.places.queues plan.name ≡ None }
        requires few { length self.old.effect.state.places.queues < MAX_QUEUES }
        ensures ok { OnOk result (self.new.effect ≡ without_line self.old.effect
            (with_new_queue self.old.effect.state plan)) }
        ensures start { self.new.start ≡ self.old.start }
        ensures grown { IsGrown self.old.rooms self.new.rooms }
        ensures held { OnOk result (self.new.held ≤ self.old.held) }
    {
        self.change(Change::AddQueue(NewQueue::new(self.alloc, plan)))
    }

    /// The next number of a durable message is taken.
    pub fn take_number(&mut self) -> Result<(), Memory>
        requires { HasNext self.old.effect.state.next_number }
        ensures ok { OnOk result (self.new.effect ≡ without_line self.old.effect
            (number_taken self.old.effect.state Recoverable)) }
        ensures start { self.new.start ≡ self.old.start }
        ensures grown { IsGrown self.old.rooms self.new.rooms }
        ensures held { OnOk result (self.new.held ≤ self.old.held) }
    {
        self.take_numbers(1)
    }

    /// So many numbers of durable messages are taken. Each of these is about to make two changes,
    /// so there is room for them then.
    pub fn take_numbers(&mut self, count: u32) -> Result<(), Memory>
        requires { self.old.effect.state.next_number + count < 2 ^ 32 }
        ensures ok { OnOk result (self.new.effect ≡ without_line self.old.effect
            (numbers_taken self.old.effect.state count)) }
        ensures start { self.new.start ≡ self.old.start }
        ensures grown { IsGrown self.old.rooms self.new.rooms }
        ensures held { OnOk result (self.new.held ≤ self.old.held) }
    {
        self.make_room(2 * count as usize + 1)?;
        let counters = self.contents.counters();
        self.change(Change::Count(Counters {
            next_number: counters.next_number + count,
            ..counters
        }))
    }

    /// The next number of an express message is taken.
    pub fn take_express_number(&mut self) -> Result<(), Memory>
        ensures ok { OnOk result (self.new.effect ≡ without_line self.old.effect
            (number_taken self.old.effect.state Express)) }
        ensures start { self.new.start ≡ self.old.start }
        ensures grown { IsGrown self.old.rooms self.new.rooms }
        ensures held { OnOk result (self.new.held ≤ self.old.held) }
    {
        let counters = self.contents.counters();
        self.change(Change::Count(counters.with_express_taken()))
    }

    /// Sequences are full at this count of messages.
    pub fn set_roll(&mut self, count: u32) -> Result<(), Memory>
        ensures ok { OnOk result (self.new.effect ≡ without_line self.old.effect
            (record self.old.effect.state { roll = count })) }
        ensures start { self.new.start ≡ self.old.start }
        ensures grown { IsGrown self.old.rooms self.new.rooms }
        ensures held { OnOk result (self.new.held ≤ self.old.held) }
    {
        let counters = self.contents.counters();
        self.change(Change::Count(Counters {
            roll: count,
            ..counters
        }))
    }

    /// A line joins the others at the end.
    pub fn note(&mut self, line: Line) -> Result<(), Memory>
        ensures ok { OnOk result (self.new.effect ≡ noted self.old.effect line) }
        ensures start { self.new.start ≡ self.old.start }
        ensures grown { IsGrown self.old.rooms self.new.rooms }
        ensures held { OnOk result (self.new.held ≤ self.old.held) }
    {
        self.lines.make_room(1)?;
        self.lines.push(line);
        Ok(())
    }
}
