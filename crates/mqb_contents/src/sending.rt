//! What was sent is noted. That takes no memory, and no change takes it back.
ghost use Rattle.std.specs.Prelude.{◌≡◌, IsSomeAnd, map, slice_get};
ghost use Rattle.mqb_base.specs.declared.message.Delivery.TheVariants.{Express};
ghost use Rattle.mqb_tables.specs.mqb_model.managers.Beside.{all_unmarked};
ghost use Rattle.mqb_tables.specs.mqb_model.rules.Numbers.{number_taken};
ghost use Rattle.mqb_tables.specs.mqb_model.state.Places.{with_plain};
ghost use Rattle.mqb_plain.specs.Plain.{MaySend, sent};

use crate::contents::Contents;
use mqb_base::SessionHead;

impl Contents {
    /// No plain message counts as sent any more.
    pub fn unmark(&mut self)
        ensures { self.new ≡ record self.old {
          lists = record self.old.lists { plain = map all_unmarked self.old.lists.plain };
        } }
    {
        self.plain.unmark();
    }

    /// The next plain message for a peer was sent with a session header.
    pub fn mark_sent(&mut self, peer: u32, head: &SessionHead)
        requires { IsSomeAnd (slice_get self.old.lists.plain peer) (λ p. MaySend p head.now) }
        ensures { self.new ≡ record self.old {
          lists = with_plain (sent head.now) self.old.lists peer;
        } }
    {
        self.plain.mark_sent(peer, head);
    }

    /// A message that is kept nowhere took the next express number.
    pub fn take_express_number(&mut self)
        ensures { self.new ≡ record self.old { lists = number_taken self.old.lists Express } }
    {
        self.counters = self.counters.with_express_taken();
    }
}
