ghost use Rattle.std.specs.Prelude.{◌≡◌};

use mqb_base::{Line, Roomed};
use mqb_drafts::Log;
use std::marker::Model;

/// What leads back from what was done, and the lines of it.
#[derive(Debug, Drop)]
pub struct Attempt {
    pub(crate) back: Log,
    pub(crate) lines: Roomed<Line>,
}

impl Model for Attempt {
    ghost use Rattle.mqb_state.specs.Attempts.{Attempted};

    ghost Value = { Attempted };

    ghost view = { λ a. record { back = a.back.items; lines = a.lines.items } };
}

impl Attempt {
    /// The lines of the ledger, in order. What was done stays done.
    pub fn into_lines(self) -> Roomed<Line>
        ensures { result.items ≡ self.lines }
    {
        let Attempt { back, lines } = self;
        back.discard();
        lines
    }
}
