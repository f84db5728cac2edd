ghost use Rattle.std.specs.Prelude.{◌≡◌, IfOk};
ghost use Rattle.mqb_network.specs.Events as event;
ghost use Rattle.mqb_seats.specs.mqb_replies.Requests.{IsFormed, seen_request};
ghost use Rattle.mqb_seats.specs.Holding.{StaysStored};
ghost use Rattle.mqb_seats.specs.Lasting.{Lasts};
ghost use Rattle.mqb_seats.specs.Seats.{IsHeldOn};
ghost use Rattle.mqb_traffic.specs.Networks.{index_of};
ghost use Rattle.mqb_turns.specs.Sides.{side};
ghost use Rattle.mqb_turns.specs.Turns.{IsTurn, answers_to};

use crate::between::settle;
use mqb_base::Memory;
use mqb_model::refusals_change_nothing;
use mqb_outside::Power;
use mqb_script::Which;
use mqb_seats::{Request, Seat};
use mqb_traffic::Traffic;
use mqb_transcript::Reply;

/// A request of one manager with its disk. It is a turn of the network.
pub fn ask<P: Power>(
    own: &mut Seat,
    other: &mut Seat,
    traffic: &mut Traffic,
    which: Which,
    disk: &mut P,
    request: Request<'_>,
) -> Result<Reply, Memory>
    requires formed { IsFormed (seen_request request) }
    requires held { IsHeldOn (P.view disk.old) own.old }
    ensures turn { IfOk result (IsTurn which (side own.old other.old traffic.old)
        (side own.new other.new traffic.new) (P.view disk.old) (P.view disk.new)
        (P.is_stopped disk.new) (answers_to which (side own.old other.old traffic.old)
        (event.Asks (index_of which) (seen_request request.entry)))) }
    ensures switch { (P.view disk.new).switch ≡ (P.view disk.old).switch }
    ensures lasts { Lasts (P.view disk.old) (P.view disk.new) own.old own.new }
    ensures beside { StaysStored other.old other.new }
{
    refusals_change_nothing();
    let called = own.ask(disk, request)?;
    settle(own, other, traffic, called)
}
