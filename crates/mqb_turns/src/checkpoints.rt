ghost use Rattle.std.specs.Prelude.{◌≡◌, IfOk};
ghost use Rattle.mqb_seats.specs.Holding.{StaysStored};
ghost use Rattle.mqb_seats.specs.Lasting.{Lasts};
ghost use Rattle.mqb_seats.specs.Seats.{IsHeldOn};
ghost use Rattle.mqb_turns.specs.Rewrites.{IsRewriteTurn};
ghost use Rattle.mqb_turns.specs.Sides.{side};

use crate::between::settle;
use mqb_base::Memory;
use mqb_outside::Power;
use mqb_script::Which;
use mqb_seats::Seat;
use mqb_traffic::Traffic;
use mqb_transcript::Reply;

/// The state of one manager is written anew, in place of its records. It is a turn of the network.
pub fn checkpoint<P: Power>(
    own: &mut Seat,
    other: &mut Seat,
    traffic: &mut Traffic,
    which: Which,
    disk: &mut P,
) -> Result<Reply, Memory>
    requires held { IsHeldOn (P.view disk.old) own.old }
    ensures turn { IfOk result (IsRewriteTurn which (side own.old other.old traffic.old)
        (side own.new other.new traffic.new) (P.view disk.old) (P.view disk.new)
        (P.is_stopped disk.new)) }
    ensures switch { (P.view disk.new).switch ≡ (P.view disk.old).switch }
    ensures lasts { Lasts (P.view disk.old) (P.view disk.new) own.old own.new }
    ensures beside { StaysStored other.old other.new }
{
    let called = own.checkpoint(disk)?;
    settle(own, other, traffic, called)
}
