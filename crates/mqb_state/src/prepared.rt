ghost use Rattle.std.specs.Prelude.{◌≡◌};
ghost use Rattle.mqb_contents.specs.Changes.{messages};

use mqb_base::{Line, Roomed};
use mqb_drafts::Log;
use std::marker::Model;

/// What an entry does to the state for which it was prepared: changes that take
/// no memory, and lines.
#[derive(Debug, Drop)]
pub struct Prepared {
    pub(crate) log: Log,
    pub(crate) lines: Roomed<Line>,
}

impl Model for Prepared {
    ghost use Rattle.mqb_state.specs.Prepared.{Preparation};

    ghost Value = { Preparation };

    ghost view = { λ p. record { changes = p.log.items; lines = p.lines.items } };
}

impl Prepared {
    /// The lines of the ledger, in order.
    pub fn lines(&self) -> &[Line]
        ensures { result.now ≡ self.now.lines }
    {
        self.lines.as_slice()
    }

    /// How many messages the changes hold: those that are new, and none that the state had.
    pub fn messages(&self) -> u64
        ensures { result ≡ messages self.now.changes }
    {
        self.log.messages()
    }
}
