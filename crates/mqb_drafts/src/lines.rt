//! Lines that are set aside: what is done beside a record has none.
ghost use Rattle.std.specs.Prelude.{◌≡◌};
ghost use Rattle.mqb_contents.specs.mqb_model.rules.Effects.{begun};

use crate::drafts::Draft;
use mqb_base::{Line, Roomed};
use std::mem;

impl Draft {
    /// Takes the lines out: what follows is told as if nothing had been done before.
    pub fn take_lines(&mut self) -> Roomed<Line>
        ensures lines { result.items ≡ self.old.effect.lines }
        ensures left { self.new ≡ record self.old { effect = begun self.old.effect.state } }
    {
        mem::replace(&mut self.lines, Roomed::new(self.alloc))
    }

    /// Puts lines in the place of those that there are.
    pub fn put_lines(&mut self, lines: Roomed<Line>)
        ensures { self.new ≡ record self.old {
          effect = record self.old.effect { lines = lines.items };
        } }
    {
        self.lines = lines;
    }
}
