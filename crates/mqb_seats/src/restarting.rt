//! How a call of a manager's disk is armed, and how the manager is dropped and started again over
//! what a restart left there.
ghost use Rattle.std.specs.Prelude.{◌==◌, ◌≡◌, ◌≤◌, IfOk, Some, not};
ghost use Rattle.mqb_outside.specs.Disk.{Counted};
ghost use Rattle.mqb_moves.specs.Calling.{seat_of};
ghost use Rattle.mqb_moves.specs.Seats.{IsHeldOn};
ghost use Rattle.mqb_seats.specs.Lasting.{Lasts};
ghost use Rattle.mqb_seats.specs.Opened.{IsAsLeft, IsOpened, opened_by};

use crate::seat::Seat;
use mqb_base::Memory;
use mqb_journal::stands_for_one_list;
use mqb_model::durable_is_applied;
use mqb_moves::{Manager, OpenFault};
use mqb_outside::{Mode, Pick, Power};
use mqb_store_laws::{images_open_to_one, opened_is_not_bad};
use std::mem::replace;

/// What a start came to.
#[derive(Clone, Copy, Debug, PartialEq, Eq)]
pub enum Opened {
    /// The store has the records that there were.
    Same,
    /// It has the record in doubt besides.
    Kept,
    /// The disk failed.
    Unread,
}

fn opened_by(kept: bool) -> Opened
    ensures { result ≡ opened_by kept }
{
    if kept { Opened::Kept } else { Opened::Same }
}

impl Seat {
    /// The manager that was started takes the place of the one before. The count of records tells
    /// whether the one in doubt was kept.
    fn opened(&mut self, manager: Manager) -> Opened
        ensures seat { self.new ≡ seat_of manager }
        ensures opened { result ≡
            opened_by (not (manager.store.journal.count == self.old.manager.store.journal.count)) }
    {
        let kept = manager.lsn() != self.manager.lsn();
        replace(&mut self.manager, manager).close();
        self.unread = false;
        opened_by(kept)
    }

    /// Arms a call of the disk. What the disk has stays, and so the manager is held as before.
    pub fn arm<P: Power>(&self, disk: &mut P, call: u32, mode: Mode)
        requires call { 1 ≤ call }
        requires held { IsHeldOn (P.view disk.old) self.now }
        ensures held { IsHeldOn (P.view disk.new) self.now }
        ensures armed { P.armed disk.new ≡ Some (call, mode) }
        ensures arms { Counted 1 (P.view disk.old).switch.arms (P.view disk.new).switch.arms }
        ensures restarts { (P.view disk.new).switch.restarts ≡ (P.view disk.old).switch.restarts }
        ensures pick { (P.view disk.new).switch.last_pick ≡ (P.view disk.old).switch.last_pick }
        ensures left { (P.view disk.new).switch.last_left ≡ (P.view disk.old).switch.last_left }
        ensures faults { (P.view disk.new).faults ≡ (P.view disk.old).faults }
    {
        disk.arm(call, mode);
    }

    /// Leaves on the disk what a crash may leave, and starts the manager on that: nothing is
    /// written behind it. Where the disk fails, the manager is down, with the doubt that there was.
    pub fn restart<P: Power>(&mut self, disk: &mut P, pick: Pick) -> Result<Opened, Memory>
        requires { IsHeldOn (P.view disk.old) self.old }
        ensures opened { IfOk result
            (IsOpened (P.view disk.old) (P.view disk.new) self.old self.new) }
        ensures restarts { Counted 1 (P.view disk.old).switch.restarts
            (P.view disk.new).switch.restarts }
        ensures arms { (P.view disk.new).switch.arms ≡ (P.view disk.old).switch.arms }
        ensures pick { (P.view disk.new).switch.last_pick ≡ Some pick }
        ensures left { IsAsLeft (P.view disk.new) }
        ensures lasts { Lasts (P.view disk.old) (P.view disk.new) self.old self.new }
    {
        images_open_to_one();
        opened_is_not_bad();
        stands_for_one_list();
        durable_is_applied();
        self.manager.is_valid();
        disk.restart(pick);
        match Manager::start(self.alloc, disk) {
            Ok(manager) => Ok(self.opened(manager)),
            Err(OpenFault::Memory) => Err(Memory),
            Err(OpenFault::DiskFault) => {
                self.unread = true;
                Ok(Opened::Unread)
            }
            Err(OpenFault::NotEmpty) => unreachable!(),
            Err(OpenFault::BadStore { at: _ }) => unreachable!(),
        }
    }
}
