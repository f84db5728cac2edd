//! How a call of a disk is armed, and how a manager is started again.
ghost use Rattle.std.specs.Prelude.{◌≡◌, IfOk, Some};
ghost use Rattle.mqb_outside.specs.Disk.{Counted};
ghost use Rattle.mqb_seats.specs.Holding.{StaysStored};
ghost use Rattle.mqb_seats.specs.Lasting.{Lasts};
ghost use Rattle.mqb_seats.specs.Opened.{IsAsLeft};
ghost use Rattle.mqb_seats.specs.Seats.{IsHeldOn};
ghost use Rattle.mqb_turns.specs.Starts.{IsStarted, opened_reply, was_kept};
ghost use Rattle.mqb_turns.specs.Sides.{side};

use crate::between::{note, part};
use mqb_base::Memory;
use mqb_outside::{Pick, Power};
use mqb_script::Which;
use mqb_seats::{Opened, Seat};
use mqb_traffic::Traffic;
use mqb_transcript::Reply;

/// Whether the record in doubt was kept.
fn was_kept(opened: Opened) -> bool
    ensures { result ≡ was_kept opened }
{
    match opened {
        Opened::Kept => true,
        Opened::Same => false,
        Opened::Unread => false,
    }
}

/// How a start is told.
fn told(own: &Seat, was_down: bool, opened: Opened) -> Result<Reply, Memory>
    ensures { IfOk result
        (λ given. given ≡ opened_reply was_down own.now.manager.store.lines opened) }
{
    match opened {
        Opened::Same => Ok(if was_down {
            Reply::OpenedLost
        } else {
            Reply::Opened
        }),
        Opened::Kept => Ok(Reply::OpenedKept {
            lines: own.lines_where(true)?,
        }),
        Opened::Unread => Ok(Reply::Failed),
    }
}

/// The connection ends, and the manager is started again over what the restart of its disk left.
pub fn restart<P: Power>(
    own: &mut Seat,
    other: &mut Seat,
    traffic: &mut Traffic,
    which: Which,
    disk: &mut P,
    pick: Pick,
) -> Result<Reply, Memory>
    requires held { IsHeldOn (P.view disk.old) own.old }
    ensures turn { IfOk result (IsStarted which (side own.old other.old traffic.old)
        (side own.new other.new traffic.new) (P.view disk.old) (P.view disk.new)) }
    ensures restarts { Counted 1 (P.view disk.old).switch.restarts
        (P.view disk.new).switch.restarts }
    ensures arms { (P.view disk.new).switch.arms ≡ (P.view disk.old).switch.arms }
    ensures pick { (P.view disk.new).switch.last_pick ≡ Some pick }
    ensures left { IsAsLeft (P.view disk.new) }
    ensures lasts { Lasts (P.view disk.old) (P.view disk.new) own.old own.new }
    ensures beside { StaysStored other.old other.new }
{
    own.is_valid();
    part(own, other, traffic);
    let was_down = own.is_down();
    let opened = own.restart(disk, pick)?;
    note(own, other, traffic, was_kept(opened))?;
    told(own, was_down, opened)
}
