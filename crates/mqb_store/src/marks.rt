ghost use Rattle.std.specs.Prelude.{◌≡◌};
ghost use Rattle.mqb_state.specs.Noting.{CanNote, origin_of};
ghost use Rattle.mqb_model.specs.managers.Beside as beside;
ghost use Rattle.mqb_model.specs.managers.Beside.{beside_done, noted_as};

use crate::store::Store;
use mqb_base::SessionHead;
use mqb_state::Origin;

/// What was sent on a connection, which no record tells.
impl Store {
    /// No plain message counts as sent any more.
    pub fn unmark(&mut self)
        ensures { self.new ≡ record self.old {
          state = beside_done beside.Unmarks self.old.state;
        } }
    {
        self.state.unmark();
    }

    /// A packet was sent to a peer with this session header.
    pub fn note_sent(&mut self, peer: u32, origin: Origin, head: &SessionHead)
        requires { CanNote peer head.now self.old.state (origin_of origin) }
        ensures { self.new ≡ record self.old {
          state = noted_as peer head.now self.old.state (origin_of origin);
        } }
    {
        self.state.note_sent(peer, origin, head);
    }
}
