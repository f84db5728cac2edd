//! The messages of places, and those for peers.
ghost use Rattle.std.specs.Prelude.{◌≡◌, ◌<◌, IsSome, OnOk, length};
ghost use Rattle.mqb_base.specs.declared.message.Lane.TheVariants.{Durable};
ghost use Rattle.mqb_model.specs.state.Places.{put_at, with_plain};
ghost use Rattle.mqb_plain.specs.Plain.{pushed};
ghost use Rattle.mqb_queue.specs.Places.{lists_at};
ghost use Rattle.mqb_read_back.specs.Answers.{Joins};
ghost use Rattle.mqb_snapshot.specs.Parts.{each_joined};
ghost use Rattle.mqb_snapshot.specs.Reading.{held_joined, place_joined, placed_joined};
ghost use Rattle.mqb_snapshot.specs.Reading.{places_joined, plain_joined, waiting_joined};

use crate::faults::BackFault;
use crate::fields::{flag_field, recoverable_flag, u32_field};
use crate::parts::ReadParts;
use crate::stored::message_field;
use mqb_base::{EntryPlace, Lane, Memory, Message};
use mqb_contents::Change;
use mqb_fields::Cursor;
use mqb_packet::Headers;
use mqb_plain::Outgoing;

/// The messages of places.
impl ReadParts {
    /// A message joins its lane of a place at the end.
    fn put(&mut self, at: EntryPlace, message: Message) -> Result<(), Memory>
        requires { IsSome (lists_at self.old.state.places at) }
        ensures { OnOk result (self.new ≡ record self.old {
          state = put_at self.old.state at message;
        }) }
    {
        let lane = message.delivery.lane();
        let index = self.contents.count_at(at, lane);
        self.change(Change::Insert {
            at,
            lane,
            index,
            message,
        })
    }

    /// A message joins a place.
    #[tactic(auto, unfolding(mqb_snapshot::specs::Reading::placed_joined))]
    fn placed(&mut self, cursor: &mut Cursor<'_>, at: EntryPlace) -> Result<(), BackFault>
        requires { IsSome (lists_at self.old.state.places at) }
        ensures joined { Joins (placed_joined at) self.old cursor.old self.new cursor.new result }
        ensures queues { OnOk result (length self.new.state.places.queues ≡
            length self.old.state.places.queues) }
    {
        let transactional = flag_field(cursor)?;
        let message = message_field(self.alloc, cursor, transactional, Headers::Bare)?;
        self.put(at, message)?;
        Ok(())
    }

    /// The messages of a place, behind their count.
    #[tactic(auto, unfolding(mqb_snapshot::specs::Reading::place_joined))]
    fn place(&mut self, cursor: &mut Cursor<'_>, at: EntryPlace) -> Result<(), BackFault>
        requires { IsSome (lists_at self.old.state.places at) }
        ensures joined { Joins (place_joined at) self.old cursor.old self.new cursor.new result }
        ensures queues { OnOk result (length self.new.state.places.queues ≡
            length self.old.state.places.queues) }
    {
        let count = u32_field(cursor)?;
        for _ in 0..count {
            self.placed(cursor, at)?;
        }
        Ok(())
    }

    /// The messages of the queue at an index, and those of its journal.
    #[tactic(auto, unfolding(mqb_snapshot::specs::Reading::held_joined))]
    fn held(&mut self, cursor: &mut Cursor<'_>, k: u32) -> Result<(), BackFault>
        requires { k < length self.old.state.places.queues }
        ensures joined { Joins (held_joined k) self.old cursor.old self.new cursor.new result }
        ensures queues { OnOk result (length self.new.state.places.queues ≡
            length self.old.state.places.queues) }
    {
        let _few = self.contents.queues();
        self.place(cursor, EntryPlace::Queue(k + 1))?;
        self.place(cursor, EntryPlace::JournalOf(k + 1))
    }

    fn held_by_all(&mut self, cursor: &mut Cursor<'_>) -> Result<(), BackFault>
        ensures { Joins (each_joined (length self.old.state.places.queues) 0 held_joined)
            self.old cursor.old self.new cursor.new result }
    {
        for k in 0..self.contents.queues().count() {
            self.held(cursor, k)?;
        }
        Ok(())
    }

    /// The messages of all places.
    #[tactic(auto, unfolding(mqb_snapshot::specs::Reading::places_joined))]
    pub(crate) fn places(&mut self, cursor: &mut Cursor<'_>) -> Result<(), BackFault>
        ensures { Joins places_joined self.old cursor.old self.new cursor.new result }
    {
        self.held_by_all(cursor)?;
        self.place(cursor, EntryPlace::Dead)?;
        self.place(cursor, EntryPlace::DeadXact)?;
        self.place(cursor, EntryPlace::Journal)
    }
}

/// Plain messages.
impl ReadParts {
    /// A message joins those for the peer at an index.
    fn push_plain(&mut self, peer: u32, message: Message) -> Result<(), Memory>
        requires { peer < length self.old.state.plain }
        ensures { OnOk result (self.new ≡ record self.old {
          state = with_plain (pushed Durable message) self.old.state peer;
        }) }
    {
        let index = self.contents.plain_count(peer, Lane::Durable);
        let outgoing = Outgoing {
            message,
            mark: None,
        };
        self.change(Change::InsertPlain {
            peer,
            lane: Lane::Durable,
            index,
            outgoing,
        })
    }

    /// A recoverable message joins those for the peer at an index.
    #[tactic(auto, unfolding(mqb_snapshot::specs::Reading::plain_joined))]
    fn plain(&mut self, cursor: &mut Cursor<'_>, k: u32) -> Result<(), BackFault>
        requires { k < length self.old.state.plain }
        ensures joined { Joins (plain_joined k) self.old cursor.old self.new cursor.new result }
        ensures peers { OnOk result (length self.new.state.plain ≡ length self.old.state.plain) }
    {
        recoverable_flag(cursor)?;
        let message = self.own_field(cursor, false, Headers::Session)?;
        self.push_plain(k, message)?;
        Ok(())
    }

    /// The messages for the peer at an index, behind their count.
    #[tactic(auto, unfolding(mqb_snapshot::specs::Reading::waiting_joined))]
    fn waiting(&mut self, cursor: &mut Cursor<'_>, k: u32) -> Result<(), BackFault>
        requires { k < length self.old.state.plain }
        ensures joined { Joins (waiting_joined k) self.old cursor.old self.new cursor.new result }
        ensures peers { OnOk result (length self.new.state.plain ≡ length self.old.state.plain) }
    {
        let count = u32_field(cursor)?;
        for _ in 0..count {
            self.plain(cursor, k)?;
        }
        Ok(())
    }

    /// The messages for all peers.
    pub(crate) fn waiting_for_all(&mut self, cursor: &mut Cursor<'_>) -> Result<(), BackFault>
        ensures { Joins (each_joined (length self.old.state.plain) 0 waiting_joined)
            self.old cursor.old self.new cursor.new result }
    {
        for k in 0..self.contents.peers().len() as u32 {
            self.waiting(cursor, k)?;
        }
        Ok(())
    }
}
