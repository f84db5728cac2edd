//! How the packets of one manager go: they join the medium, and each is noted.
ghost use Rattle.std.specs.Prelude.{◌+◌, ◌<◌, ◌^◌, ◌≡◌, IfOk, OnErr, length};
ghost use Rattle.mqb_seats.specs.Holding.{StaysStored};
ghost use Rattle.mqb_seats.specs.Lasting.{Lasts};
ghost use Rattle.mqb_seats.specs.Seats.{IsHeldOn};
ghost use Rattle.mqb_network.specs.Events as event;
ghost use Rattle.mqb_network.specs.Sending.{numbers_behind};
ghost use Rattle.mqb_posts.specs.Posting.{IsWithin};
ghost use Rattle.mqb_turns.specs.Sends.{ComesShort, IsPumpTurn, IsSent, pump_at};
ghost use Rattle.mqb_traffic.specs.Networks.{index_of};
ghost use Rattle.mqb_turns.specs.Sides.{side};
ghost use Rattle.mqb_turns.specs.Turns.{answers_to};

use crate::between::{failure_reply, note, part};
use mqb_base::Memory;
use mqb_model::{refusals_change_nothing, refused_is_same};
use mqb_outside::{Medium, Power};
use mqb_posts::PostFault;
use mqb_script::Which;
use mqb_seats::{Pumped, Seat, pumps_are_counted};
use mqb_traffic::Traffic;
use mqb_transcript::{Listed, Reply};
use std::alloc::Global;

/// The numbers of packets behind those that were sent before.
#[tactic(auto, using(crate::proofs::Rows::numbers_more))]
pub fn numbers(alloc: Global, before: u32, count: u32) -> Result<Listed<u32>, Memory>
    requires { before + count < 2 ^ 32 }
    ensures { IfOk result (λ list. list ≡ numbers_behind before count) }
{
    let mut list = Listed::new(alloc);
    for i in 0..count {
        list.push(before + 1 + i)?;
    }
    Ok(list)
}

/// The packets of a manager go.
///
/// # Errors
/// `NetFull` where the next one would pass the medium's limit, `Memory`: those before it were
/// added, and the managers are used no more.
pub fn send_out<P: Power, M: Medium>(
    own: &mut Seat,
    other: &mut Seat,
    traffic: &mut Traffic,
    which: Which,
    disk: &mut P,
    medium: &mut M,
    now: u32,
) -> Result<Pumped, PostFault>
    requires held { IsHeldOn (P.view disk.old) own.old }
    requires within { IsWithin (M.strings medium.old) }
    requires few { length traffic.old.notes < 2 ^ 32 }
    ensures sent { IfOk result (IsSent which (side own.old other.old traffic.old)
        (side own.new other.new traffic.new) (P.view disk.old) (P.view disk.new)
        (P.is_stopped disk.new) (M.strings medium.old) (M.strings medium.new) now) }
    ensures short { ComesShort (M.strings medium.old) (M.strings medium.new)
        (pump_at which (side own.old other.old traffic.old) now) result }
    ensures faults { OnErr result ((P.view disk.new).faults ≡ (P.view disk.old).faults) }
    ensures switch { (P.view disk.new).switch ≡ (P.view disk.old).switch }
    ensures lasts { Lasts (P.view disk.old) (P.view disk.new) own.old own.new }
    ensures beside { StaysStored other.old other.new }
{
    pumps_are_counted();
    refused_is_same();
    own.is_valid();
    let pumped = own.pump(disk, medium, now)?;
    match pumped {
        Pumped::Went { count, recorded } => {
            note(own, other, traffic, recorded)?;
            traffic.note_sent(which, now, count)?;
            Ok(Pumped::Went { count, recorded })
        }
        Pumped::Refused(reply) => Ok(Pumped::Refused(reply)),
        Pumped::Broke(how) => {
            part(own, other, traffic);
            Ok(Pumped::Broke(how))
        }
    }
}

/// The event of a pump.
pub fn pump<P: Power, M: Medium>(
    own: &mut Seat,
    other: &mut Seat,
    traffic: &mut Traffic,
    which: Which,
    disk: &mut P,
    medium: &mut M,
    now: u32,
) -> Result<Reply, PostFault>
    requires held { IsHeldOn (P.view disk.old) own.old }
    requires within { IsWithin (M.strings medium.old) }
    requires noted { length traffic.old.notes ≡ length (M.strings medium.old) }
    ensures turn { IfOk result (IsPumpTurn which (side own.old other.old traffic.old)
        (side own.new other.new traffic.new) (P.view disk.old) (P.view disk.new)
        (P.is_stopped disk.new) (M.strings medium.old) (M.strings medium.new)
        (answers_to which (side own.old other.old traffic.old) (event.Pump (index_of which) now))) }
    ensures short { ComesShort (M.strings medium.old) (M.strings medium.new)
        (pump_at which (side own.old other.old traffic.old) now) result }
    ensures faults { OnErr result ((P.view disk.new).faults ≡ (P.view disk.old).faults) }
    ensures switch { (P.view disk.new).switch ≡ (P.view disk.old).switch }
    ensures lasts { Lasts (P.view disk.old) (P.view disk.new) own.old own.new }
    ensures beside { StaysStored other.old other.new }
{
    refusals_change_nothing();
    let before = traffic.count();
    let pumped = send_out(own, other, traffic, which, disk, medium, now)?;
    match pumped {
        Pumped::Went { count, recorded: _ } => Ok(Reply::Pumped {
            packets: numbers(own.alloc(), before, count)?,
        }),
        Pumped::Refused(reply) => Ok(reply),
        Pumped::Broke(how) => Ok(failure_reply(how)),
    }
}
