ghost use Rattle.std.specs.Prelude.{◌≡◌, ◌==◌, ◌++◌, [], ◌∷◌, IfOk, IsTrue, OnErr, OnOk};
ghost use Rattle.mqb_contents.specs.Changes.{Can, lists_after};
ghost use Rattle.mqb_model.specs.state.State.{empty};
ghost use Rattle.mqb_snapshot.specs.Fields.{is_own, own_at};
ghost use Rattle.mqb_read_back.specs.Answers.{Gives};

use crate::faults::BackFault;
use crate::stored::message_field;
use indexmap::IndexSet;
use mqb_base::{Identity, Memory, Message};
use mqb_contents::{Change, Contents};
use mqb_fields::Cursor;
use mqb_packet::Headers;
use std::alloc::Global;
use std::marker::Model;

/// The parts of a state that were read so far, and the numbers of the manager's own
/// messages among them.
#[derive(Debug)]
pub(crate) struct ReadParts {
    pub(crate) contents: Contents,
    numbers: IndexSet<u32>,
    pub(crate) alloc: Global,
}

impl Model for ReadParts {
    ghost use Rattle.mqb_snapshot.specs.Parts.{Parts};

    ghost Value = { Parts };

    ghost view = { λ p. record { state = p.contents.lists; numbers = p.numbers.keys } };
}

impl ReadParts {
    /// The identity alone was read.
    pub(crate) fn new(alloc: Global, identity: Identity) -> ReadParts
        ensures { result ≡ record { state = empty identity; numbers = [] } }
    {
        ReadParts {
            contents: Contents::empty(alloc, identity),
            numbers: IndexSet::new(alloc),
            alloc,
        }
    }

    pub(crate) fn into_contents(self) -> Contents
        ensures { result.lists ≡ self.state }
    {
        let ReadParts {
            contents,
            numbers,
            alloc: _,
        } = self;
        drop(numbers);
        contents
    }

    /// Lets go what was read.
    pub(crate) fn close(self) {
        self.into_contents().close();
    }

    /// The numbers of the manager's own messages.
    pub(crate) fn numbers(&self) -> &[u32]
        ensures { result.now ≡ self.now.numbers }
    {
        self.numbers.as_slice()
    }

    /// Makes a change, and room for it before.
    pub(crate) fn change(&mut self, change: Change) -> Result<(), Memory>
        requires { Can self.old.state change }
        ensures { OnOk result (self.new ≡ record self.old {
          state = lists_after self.old.state change;
        }) }
    {
        match self.contents.make_room(&change) {
            Ok(()) => {
                self.contents.change(change).discard();
                Ok(())
            }
            Err(Memory) => {
                change.discard();
                Err(Memory)
            }
        }
    }

    /// Whether a message is the manager's, with a number that no other one has. Its
    /// number is noted then.
    fn note(&mut self, message: &Message) -> Result<bool, Memory>
        ensures own { IfOk result (λ own. own ≡ is_own self.old message.now) }
        ensures noted { IfOk result (λ own. IsTrue own → self.new ≡ record self.old {
          numbers = self.old.numbers ++ message.now.id.number ∷ [];
        }) }
    {
        if message.id.qm != self.contents.identity().guid {
            return Ok(false);
        }
        Ok(self.numbers.insert(message.id.number)?)
    }

    /// A packet in which a store has a message of the manager, with a number that no other one has.
    /// Its number is noted.
    #[tactic(auto, unfolding(mqb_snapshot::specs::Fields::own_at))]
    pub(crate) fn own_field(
        &mut self,
        cursor: &mut Cursor<'_>,
        transactional: bool,
        beside: Headers,
    ) -> Result<Message, BackFault>
        ensures read { Gives (own_at self.old beside transactional) cursor.old cursor.new result }
        ensures noted { IfOk result (λ message. self.new ≡ record self.old {
          numbers = self.old.numbers ++ message.id.number ∷ [];
        }) }
    {
        let at = cursor.at();
        let message = message_field(self.alloc, cursor, transactional, beside)?;
        if self.note(&message)? {
            Ok(message)
        } else {
            Err(BackFault::Bad { at })
        }
    }
}
