ghost use Rattle.std.specs.Prelude.{◌≡◌, ◌+◌, ◌<◌, ◌≤◌, [], ◌∷◌, MatchOption, OnOk, length};
ghost use Rattle.mqb_contents.specs.Changes.{messages};

use mqb_base::{Memory, Roomed};
use mqb_contents::Change;
use std::alloc::Global;
use std::marker::Model;

/// Changes, the last that joined them first. Contracts see them in that order, and how many there
/// can be without memory.
#[derive(Debug, Drop)]
pub struct Log {
    changes: Roomed<Change>,
}

impl Model for Log {
    ghost use Rattle.std.specs.Prelude.{reverse};
    ghost use Rattle.mqb_base.specs.Rooms.{Room};
    ghost use Rattle.mqb_contents.specs.declared.change.Change.{Change};

    ghost Value = { Room Change };

    ghost view = { λ l. record { items = reverse l.changes.items; room = l.changes.room } };
}

impl Log {
    pub(crate) fn new(alloc: Global) -> Log
        ensures { result ≡ record { items = []; room = 0 } }
    {
        Log {
            changes: Roomed::new(alloc),
        }
    }

    pub(crate) fn len(&self) -> usize
        ensures { result ≡ length self.now.items }
    {
        self.changes.len()
    }

    /// Makes room for so many more.
    pub(crate) fn make_room(&mut self, more: usize) -> Result<(), Memory>
        ensures changes { self.new.items ≡ self.old.items }
        ensures grows { self.old.room ≤ self.new.room }
        ensures ok { OnOk result (length self.new.items + more ≤ self.new.room) }
    {
        self.changes.make_room(more)
    }

    pub(crate) fn push(&mut self, change: Change)
        requires { length self.old.items < self.old.room }
        ensures { self.new ≡ record self.old { items = change ∷ self.old.items } }
    {
        self.changes.push(change);
    }

    /// Takes out the change that joined last.
    pub(crate) fn pop(&mut self) -> Option<Change>
        ensures { MatchOption result ((self.old.items ≡ []) × (self.new ≡ self.old))
            (λ c. self.old ≡ record self.new { items = c ∷ self.new.items }) }
    {
        if self.changes.is_empty() {
            return None;
        }
        Some(self.changes.pop())
    }

    /// Lets the changes go.
    pub fn discard(self) {
        let Log { changes } = self;
        Change::discard_all(changes);
    }

    /// How many messages the changes hold.
    pub fn messages(&self) -> u64
        ensures { result ≡ messages self.now.items }
    {
        let mut count = 0;
        for change in self.changes.as_slice() {
            if change.holds_message() {
                count += 1;
            }
        }
        count
    }
}
