//! What a call of one manager leaves between the two: the lines of its record join the ledger, and
//! their connection ends where a disk failed.
ghost use Rattle.std.specs.Prelude.{◌≡◌, IfOk, OnOk};
ghost use Rattle.mqb_seats.specs.Called.{failure_of};
ghost use Rattle.mqb_seats.specs.Holding.{StaysStored};
ghost use Rattle.mqb_turns.specs.Replies.{failure_reply};
ghost use Rattle.mqb_turns.specs.Settling.{EndedWhere, IsNoted, IsParted, Settles};
ghost use Rattle.mqb_turns.specs.Sides.{side};

use mqb_base::Memory;
use mqb_script::Which;
use mqb_seats::{Called, Failure, Seat};
use mqb_traffic::Traffic;
use mqb_transcript::Reply;

/// How the failure of a disk is told.
pub fn failure_reply(how: Failure) -> Reply
    ensures { result ≡ failure_reply (failure_of how) }
{
    match how {
        Failure::Stopped => Reply::Stopped,
        Failure::Failed => Reply::Failed,
    }
}

/// The connection ends, where one stands, and both managers forget it.
pub fn part(own: &mut Seat, other: &mut Seat, traffic: &mut Traffic)
    ensures { (which : Which) → IsParted which (side own.old other.old traffic.old)
        (side own.new other.new traffic.new) }
{
    if !traffic.end() {
        return;
    }
    own.part();
    other.part();
}

/// It ends where this holds.
pub fn part_where(ends: bool, own: &mut Seat, other: &mut Seat, traffic: &mut Traffic)
    ensures { (which : Which) → EndedWhere which ends (side own.old other.old traffic.old)
        (side own.new other.new traffic.new) }
{
    if !ends {
        return;
    }
    part(own, other, traffic);
}

/// The lines of a manager's last record join the ledger, where it was just recorded.
pub fn note(own: &Seat, other: &Seat, traffic: &mut Traffic, recorded: bool) -> Result<(), Memory>
    ensures { OnOk result ((which : Which) → IsNoted which (side own.now other.now traffic.old)
        (side own.now other.now traffic.new) recorded) }
{
    if !recorded {
        return Ok(());
    }
    traffic.add_lines(own.lines())?;
    Ok(())
}

/// A call of one manager is told.
pub fn settle(
    own: &mut Seat,
    other: &mut Seat,
    traffic: &mut Traffic,
    called: Called,
) -> Result<Reply, Memory>
    ensures settled { IfOk result (λ given. (which : Which) → Settles which
        (side own.old other.old traffic.old) (side own.new other.new traffic.new) called given) }
    ensures own { StaysStored own.old own.new }
    ensures beside { StaysStored other.old other.new }
{
    match called {
        Called::Told { reply, recorded } => {
            note(own, other, traffic, recorded)?;
            Ok(reply)
        }
        Called::Broke(how) => {
            part(own, other, traffic);
            Ok(failure_reply(how))
        }
    }
}
