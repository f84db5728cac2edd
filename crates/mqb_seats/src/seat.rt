ghost use Rattle.std.specs.Prelude.{[], ◌≡◌, IfOk, None, Some, false, if◌then◌else◌};
ghost use Rattle.std.specs.Prelude.{option_copied, true};
ghost use Rattle.mqb_model.specs.managers.Manager.{is_down};
ghost use Rattle.mqb_model.specs.managers.Valid.{IsValidManager};
ghost use Rattle.mqb_moves.specs.Calling.{seat_of};
ghost use Rattle.mqb_moves.specs.Seats.{seated};

use mqb_base::{Line, Memory};
use mqb_model::unread_is_valid;
use mqb_moves::Manager;
use mqb_replies::listed;
use mqb_transcript::Listed;
use std::alloc::Global;
use std::marker::Model;

/// A manager with its disk. Where a start of it failed, the manager in it is the one of before,
/// which is called no more.
#[derive(Debug)]
pub struct Seat {
    pub(crate) alloc: Global,
    pub(crate) manager: Manager,
    pub(crate) unread: bool,
}

impl Model for Seat {
    ghost use Rattle.mqb_moves.specs.Seats.{SeatState};

    ghost Value = { SeatState };

    ghost view = { λ s. record { manager = s.manager; unread = s.unread } };
}

impl Seat {
    /// A manager that was started.
    pub fn new(alloc: Global, manager: Manager) -> Seat
        ensures { result ≡ seat_of manager }
    {
        Seat {
            alloc,
            manager,
            unread: false,
        }
    }

    /// Lets the manager go; whatever it recorded stays on its disk.
    pub fn close(self) {
        let Seat {
            alloc: _,
            manager,
            unread: _,
        } = self;
        manager.close();
    }

    /// The allocator with which it was made.
    pub fn alloc(&self) -> Global {
        self.alloc
    }

    /// The manager that is held is valid. This says so, and does nothing.
    pub fn is_valid(&self)
        ensures { IsValidManager (seated self.now) }
    {
        unread_is_valid();
        self.manager.is_valid();
    }

    /// Whether the manager is down.
    pub fn is_down(&self) -> bool
        ensures { result ≡ is_down (seated self.now) }
    {
        self.unread || self.manager.is_down()
    }

    /// The manager, where it is up.
    pub fn manager(&self) -> Option<&Manager>
        ensures up { is_down (seated self.now) ≡ false
            → option_copied result ≡ Some self.now.manager }
        ensures down { is_down (seated self.now) ≡ true → option_copied result ≡ None }
    {
        if self.is_down() {
            None
        } else {
            Some(&self.manager)
        }
    }

    /// The lines of the last record.
    pub fn lines(&self) -> &[Line]
        ensures { result.now ≡ self.now.manager.store.lines }
    {
        self.manager.lines()
    }

    /// A copy of the lines of the last record, where something was recorded, and else none.
    pub fn lines_where(&self, recorded: bool) -> Result<Listed<Line>, Memory>
        ensures { IfOk result (λ lines. lines ≡
            (if recorded then self.now.manager.store.lines else [])) }
    {
        if !recorded {
            return Ok(Listed::new(self.alloc));
        }
        listed(self.alloc, self.manager.lines())
    }
}
