//! How connections begin and end at a manager, and how it starts sending anew.
//! None of it calls a disk.
ghost use Rattle.std.specs.Prelude.{◌≡◌, ◌≤◌, false};
ghost use Rattle.mqb_model.specs.calls.Link.{link, resend};
ghost use Rattle.mqb_model.specs.managers.Manager.{is_down};
ghost use Rattle.mqb_model.specs.managers.Outcomes.{succeeded};
ghost use Rattle.mqb_moves.specs.Holding.{StaysStored};
ghost use Rattle.mqb_moves.specs.Seats.{seated};
ghost use Rattle.mqb_moves.specs.mqb_network.Changes.{parted};

use crate::seat::Seat;
use mqb_model::{LinkFault, Role, calls_leave_store};

impl Seat {
    /// Begins a session at a manager that is up. The answer is the manager's.
    pub fn link(&mut self, role: Role, window: u16) -> Result<(), LinkFault>
        requires up { is_down (seated self.old) ≡ false }
        requires window { 1 ≤ window }
        ensures answer { result ≡ (link (seated self.old) role window).answer }
        ensures left { seated self.new
            ≡ succeeded (seated self.old) (link (seated self.old) role window) }
        ensures stored { StaysStored self.old self.new }
    {
        calls_leave_store();
        self.is_valid();
        self.manager.link(role, window)
    }

    /// The connection of a manager ended: one that is up forgets it.
    pub fn part(&mut self)
        ensures left { seated self.new ≡ parted (seated self.old) }
        ensures stored { StaysStored self.old self.new }
    {
        calls_leave_store();
        self.is_valid();
        if !self.is_down() {
            self.manager.unlink();
        }
    }

    /// What the rows to the linked peer have is sent anew.
    pub fn resend(&mut self)
        requires { is_down (seated self.old) ≡ false }
        ensures left { seated self.new
            ≡ succeeded (seated self.old) (resend (seated self.old)) }
        ensures stored { StaysStored self.old self.new }
    {
        calls_leave_store();
        self.is_valid();
        self.manager.resend();
    }
}
