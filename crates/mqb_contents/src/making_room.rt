//! Room for a change is made before the change, which then takes no memory.
ghost use Rattle.std.specs.Prelude.{◌≡◌, ◌<◌, IsSome, OnOk, length};
ghost use Rattle.mqb_base.specs.declared.message.Lane.{Lane};
ghost use Rattle.mqb_contents.specs.Changes.{Can, HasRoom};
ghost use Rattle.mqb_contents.specs.Rooms.{IsGrown, place_room};
ghost use Rattle.mqb_tables.specs.mqb_model.rules.Purges.{count_at};
ghost use Rattle.mqb_queue.specs.Places.{lists_at};

use crate::change::Change;
use crate::contents::Contents;
use mqb_base::{EntryPlace, Lane, Memory};

impl Contents {
    /// Makes room for a change. Room that there is stays, also on a refusal.
    pub fn make_room(&mut self, change: &Change) -> Result<(), Memory>
        requires { Can self.old.lists change.now }
        ensures lists { self.new.lists ≡ self.old.lists }
        ensures grown { IsGrown self.old.rooms self.new.rooms }
        ensures ok { OnOk result (HasRoom self.new change.now) }
    {
        match change {
            Change::Insert { at, lane, .. } => self.make_room_at(*at, *lane),
            Change::InsertPlain { peer, lane, .. } => self.plain.make_room_in(*peer, *lane),
            Change::InsertKept { row, .. } => self.outs.make_room_in(*row),
            Change::AddRow(row) => self.outs.make_room(row.peer(), row.destination()),
            Change::AddIn(row) => self.ins.make_room(row.source, &row.destination),
            Change::AddPeer(_) => self.make_room_for_peer(),
            Change::AddQueue(queue) => self.queues.reserve_queue(&queue.plan().name),
            Change::DropRow | Change::DropPeer | Change::DropQueue => {
                self.know_rooms();
                Ok(())
            }
            Change::Remove { .. }
            | Change::RemovePlain { .. }
            | Change::RemoveKept { .. }
            | Change::Mark { .. }
            | Change::Decide { .. }
            | Change::DropIn
            | Change::Count(_) => Ok(()),
        }
    }

    /// Each queue, peer and row has its room.
    fn know_rooms(&self)
        ensures queues { length self.now.rooms.places.queues ≡
            length self.now.lists.places.queues }
        ensures plain { length self.now.rooms.plain.each ≡ length self.now.lists.plain }
        ensures outs { length self.now.rooms.outs.each ≡ length self.now.lists.outs }
    {
        let _queues = self.queues.count();
        let _plain = self.plain.count();
        let _outs = self.outs.count();
    }

    fn make_room_at(&mut self, at: EntryPlace, lane: Lane) -> Result<(), Memory>
        requires { IsSome (lists_at self.old.lists.places at) }
        ensures lists { self.new.lists ≡ self.old.lists }
        ensures grown { IsGrown self.old.rooms self.new.rooms }
        ensures ok { OnOk result (count_at lane self.new.lists at <
            place_room self.new.rooms.places at lane) }
    {
        let _queues = self.queues.count();
        match lane {
            Lane::Durable => self.queues.reserve_at(at, 1, 0),
            Lane::Express => self.queues.reserve_at(at, 0, 1),
        }
    }

    fn make_room_for_peer(&mut self) -> Result<(), Memory>
        ensures lists { self.new.lists ≡ self.old.lists }
        ensures grown { IsGrown self.old.rooms self.new.rooms }
        ensures peers { OnOk result (length self.new.lists.peers < self.new.rooms.peers) }
        ensures plain { OnOk result (length self.new.lists.plain < self.new.rooms.plain.more) }
    {
        self.peers.make_room(1)?;
        self.plain.make_room()
    }
}
