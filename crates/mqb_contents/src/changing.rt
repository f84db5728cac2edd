//! The changes, one by one. Each is made without memory, and answers the change back.
ghost use Rattle.std.specs.Prelude.{◌≡◌};
ghost use Rattle.mqb_contents.specs.Changes.{Can, HasRoom, IsMade, changed, inverse};
ghost use Rattle.mqb_contents.specs.declared.change.Change.TheVariants as change;

use crate::change::Change;
use crate::contents::Contents;
use crate::counters::Counters;
use crate::marks::RowMarks;
use crate::new_peer::NewPeer;
use crate::new_row::NewRow;
use mqb_base::{EntryPlace, Lane, Message, SequenceId};
use mqb_orders::{InRow, Kept};
use mqb_plain::Outgoing;
use mqb_queue::NewQueue;

impl Contents {
    /// Makes a change, and answers the change back. It takes no memory.
    pub fn change(&mut self, change: Change) -> Change
        requires can { Can self.old.lists change }
        requires room { HasRoom self.old change }
        ensures changed { self.new ≡ changed self.old change }
        ensures inverse { result ≡ inverse self.old change }
        ensures can { Can self.new.lists result }
        ensures room { HasRoom self.new result }
    {
        match change {
            Change::Insert {
                at,
                lane,
                index,
                message,
            } => self.insert(at, lane, index, message),
            Change::Remove { at, lane, index } => self.remove(at, lane, index),
            Change::InsertPlain {
                peer,
                lane,
                index,
                outgoing,
            } => self.insert_plain(peer, lane, index, outgoing),
            Change::RemovePlain { peer, lane, index } => self.remove_plain(peer, lane, index),
            Change::InsertKept { row, index, kept } => self.insert_kept(row, index, kept),
            Change::RemoveKept { row, index } => self.remove_kept(row, index),
            Change::Mark { row, marks } => self.mark(row, marks),
            Change::AddRow(row) => self.add_row(row),
            Change::DropRow => self.drop_row(),
            Change::Decide {
                index,
                sequence,
                last,
            } => self.decide(index, sequence, last),
            Change::AddIn(row) => self.add_in(row),
            Change::DropIn => self.drop_in(),
            Change::AddPeer(peer) => self.add_peer(peer),
            Change::DropPeer => self.drop_peer(),
            Change::AddQueue(queue) => self.add_queue(queue),
            Change::DropQueue => self.drop_queue(),
            Change::Count(counters) => self.count(counters),
        }
    }
}

/// Messages and marks.
impl Contents {
    fn insert(&mut self, at: EntryPlace, lane: Lane, index: u32, message: Message) -> Change
        requires can { Can self.old.lists (change.Insert at lane index message) }
        requires room { HasRoom self.old (change.Insert at lane index message) }
        ensures { IsMade self.old (change.Insert at lane index message) self.new result }
    {
        self.queues.insert_at(at, lane, index, message);
        Change::Remove { at, lane, index }
    }

    fn remove(&mut self, at: EntryPlace, lane: Lane, index: u32) -> Change
        requires can { Can self.old.lists (change.Remove at lane index) }
        ensures { IsMade self.old (change.Remove at lane index) self.new result }
    {
        let message = self.queues.remove_at(at, lane, index);
        Change::Insert {
            at,
            lane,
            index,
            message,
        }
    }

    fn insert_plain(&mut self, peer: u32, lane: Lane, index: u32, outgoing: Outgoing) -> Change
        requires can { Can self.old.lists (change.InsertPlain peer lane index outgoing) }
        requires room { HasRoom self.old (change.InsertPlain peer lane index outgoing) }
        ensures { IsMade self.old (change.InsertPlain peer lane index outgoing) self.new result }
    {
        self.plain.insert(peer, lane, index, outgoing);
        Change::RemovePlain { peer, lane, index }
    }

    fn remove_plain(&mut self, peer: u32, lane: Lane, index: u32) -> Change
        requires can { Can self.old.lists (change.RemovePlain peer lane index) }
        ensures { IsMade self.old (change.RemovePlain peer lane index) self.new result }
    {
        let outgoing = self.plain.remove(peer, lane, index);
        Change::InsertPlain {
            peer,
            lane,
            index,
            outgoing,
        }
    }

    fn insert_kept(&mut self, row: u32, index: u32, kept: Kept) -> Change
        requires can { Can self.old.lists (change.InsertKept row index kept) }
        requires room { HasRoom self.old (change.InsertKept row index kept) }
        ensures { IsMade self.old (change.InsertKept row index kept) self.new result }
    {
        self.outs.insert_kept(row, index, kept);
        Change::RemoveKept { row, index }
    }

    fn remove_kept(&mut self, row: u32, index: u32) -> Change
        requires can { Can self.old.lists (change.RemoveKept row index) }
        ensures { IsMade self.old (change.RemoveKept row index) self.new result }
    {
        let kept = self.outs.remove_kept(row, index);
        Change::InsertKept { row, index, kept }
    }

    fn mark(&mut self, row: u32, marks: RowMarks) -> Change
        requires can { Can self.old.lists (change.Mark row marks) }
        ensures { IsMade self.old (change.Mark row marks) self.new result }
    {
        let marks = self.outs.mark(row, marks);
        Change::Mark { row, marks }
    }
}

/// Rows, peers, queues and counters.
impl Contents {
    fn add_row(&mut self, row: NewRow) -> Change
        requires room { HasRoom self.old (change.AddRow row) }
        ensures { IsMade self.old (change.AddRow row) self.new result }
    {
        self.outs.push(row);
        Change::DropRow
    }

    fn drop_row(&mut self) -> Change
        requires can { Can self.old.lists change.DropRow }
        requires room { HasRoom self.old change.DropRow }
        ensures { IsMade self.old change.DropRow self.new result }
    {
        Change::AddRow(self.outs.pop())
    }

    fn decide(&mut self, index: u32, sequence: SequenceId, last: u32) -> Change
        requires can { Can self.old.lists (change.Decide index sequence last) }
        ensures { IsMade self.old (change.Decide index sequence last) self.new result }
    {
        let before = self.ins.decide(index, sequence, last);
        Change::Decide {
            index,
            sequence: before.0,
            last: before.1,
        }
    }

    fn add_in(&mut self, row: InRow) -> Change
        requires room { HasRoom self.old (change.AddIn row) }
        ensures { IsMade self.old (change.AddIn row) self.new result }
    {
        self.ins.push(row);
        Change::DropIn
    }

    fn drop_in(&mut self) -> Change
        requires can { Can self.old.lists change.DropIn }
        ensures { IsMade self.old change.DropIn self.new result }
    {
        Change::AddIn(self.ins.pop())
    }

    fn add_peer(&mut self, peer: NewPeer) -> Change
        requires can { Can self.old.lists (change.AddPeer peer) }
        requires room { HasRoom self.old (change.AddPeer peer) }
        ensures { IsMade self.old (change.AddPeer peer) self.new result }
    {
        let (identity, plain) = peer.into_parts();
        self.peers.push(identity);
        self.plain.push(plain);
        Change::DropPeer
    }

    fn drop_peer(&mut self) -> Change
        requires can { Can self.old.lists change.DropPeer }
        requires room { HasRoom self.old change.DropPeer }
        ensures { IsMade self.old change.DropPeer self.new result }
    {
        let plain = self.plain.pop();
        let identity = self.peers.pop();
        Change::AddPeer(NewPeer::from_parts(identity, plain))
    }

    fn add_queue(&mut self, queue: NewQueue) -> Change
        requires can { Can self.old.lists (change.AddQueue queue) }
        requires room { HasRoom self.old (change.AddQueue queue) }
        ensures { IsMade self.old (change.AddQueue queue) self.new result }
    {
        self.queues.push_queue(queue);
        Change::DropQueue
    }

    fn drop_queue(&mut self) -> Change
        requires can { Can self.old.lists change.DropQueue }
        requires room { HasRoom self.old change.DropQueue }
        ensures { IsMade self.old change.DropQueue self.new result }
    {
        let _count = self.queues.count();
        Change::AddQueue(self.queues.pop_queue())
    }

    fn count(&mut self, counters: Counters) -> Change
        ensures { IsMade self.old (change.Count counters) self.new result }
    {
        let before = self.counters;
        self.counters = counters;
        Change::Count(before)
    }
}
