//! What was sent is noted without memory, and what was noted is forgotten where a connection ends.
ghost use Rattle.std.specs.Prelude.{◌≡◌};
ghost use Rattle.mqb_timeouts.specs.Noting.{CanNote, origin_of};
ghost use Rattle.mqb_model.specs.managers.Beside.{beside_done, noted_as};
ghost use Rattle.mqb_model.specs.managers.Beside as beside;

use crate::state::State;
use mqb_base::SessionHead;
use mqb_timeouts::{Origin, note_sent};

impl State {
    /// No plain message counts as sent any more.
    pub fn unmark(&mut self)
        ensures lists { self.new.lists ≡ beside_done beside.Unmarks self.old.lists }
        ensures rooms { self.new.rooms ≡ self.old.rooms }
    {
        self.contents.unmark();
    }

    /// A packet was sent to a peer with this session header: an acknowledgement took an express
    /// number, and a plain message counts as sent.
    pub fn note_sent(&mut self, peer: u32, origin: Origin, head: &SessionHead)
        requires { CanNote peer head.now self.old.lists (origin_of origin) }
        ensures lists { self.new.lists ≡ noted_as peer head.now self.old.lists (origin_of origin) }
        ensures rooms { self.new.rooms ≡ self.old.rooms }
    {
        note_sent(&mut self.contents, peer, origin, head);
    }
}
