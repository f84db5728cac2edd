//! How a manager hears a packet, and gives packets out.
ghost use Rattle.std.specs.Prelude.{[], ◌≡◌, IfOk, OnErr, Some};
ghost use Rattle.mqb_model.specs.calls.hear.Hear.{hear};
ghost use Rattle.mqb_model.specs.calls.pump.Pump.{pump};
ghost use Rattle.mqb_moves.specs.Seats.{IsHeldOn, seated};
ghost use Rattle.mqb_packet.specs.Parts.{seen_packet};
ghost use Rattle.mqb_packet.specs.Spelled.{IsLent, packet_in};
ghost use Rattle.mqb_packet.specs.declared.packet.Packet.{Packet};
ghost use Rattle.mqb_posts.specs.Posting.{IsWithin};
ghost use Rattle.mqb_seats.specs.Lasting.{Lasts};
ghost use Rattle.mqb_seats.specs.Passed.{IsHeard, TellsHeard};
ghost use Rattle.mqb_seats.specs.Pumped.{ArePosted, IsPumped, SpellPumped, TellsPumped};

use crate::called::{Failure, how};
use crate::seat::Seat;
use mqb_base::{Heard, Memory};
use mqb_model::{
    HearFault, PumpFault, pumped_is_readable, refusals_change_nothing, refused_is_same,
};
use mqb_moves::{definitions_do_not_fail, down_refuses_all};
use mqb_outside::{Medium, Power};
use mqb_packet::PacketView;
use mqb_posts::{PostFault, post_packets};
use mqb_store_laws::images_open_to_one;
use mqb_transcript::Reply;

/// What became of a packet that was given to a manager.
#[derive(Clone, Copy, Debug, PartialEq, Eq)]
pub enum Passed {
    /// It was heard. Where that was recorded, the manager's lines are those of the record.
    Heard { heard: Heard, recorded: bool },
    /// The manager is not linked, or down.
    Gone,
    /// The disk failed in it, and the manager is down.
    Broke(Failure),
}

/// What became of a pump.
#[derive(Debug, Drop)]
pub enum Pumped {
    /// So many packets went. Where that was recorded, the manager's lines are those of the record.
    Went { count: u32, recorded: bool },
    /// None went, and this is the reply.
    Refused(Reply),
    /// The disk failed in it, the manager is down, and no packet went.
    Broke(Failure),
}

/// What became of a packet, by what the manager answered and whether that was recorded.
fn became<P: Power>(
    disk: &P,
    answer: Result<Heard, HearFault>,
    recorded: bool,
) -> Result<Passed, Memory>
    ensures { IfOk result (TellsHeard (P.is_stopped disk.now) answer recorded) }
{
    match answer {
        Ok(heard) => Ok(Passed::Heard { heard, recorded }),
        Err(HearFault::Down) => Ok(Passed::Gone),
        Err(HearFault::NotLinked) => Ok(Passed::Gone),
        Err(HearFault::Memory) => Err(Memory),
        Err(HearFault::DiskFault) => Ok(Passed::Broke(how(disk))),
    }
}

/// What became of a pump, by what the manager answered and whether that was recorded.
fn went<P: Power>(
    disk: &P,
    answer: Result<u32, PumpFault>,
    recorded: bool,
) -> Result<Pumped, Memory>
    ensures told { IfOk result (TellsPumped (P.is_stopped disk.now) answer recorded) }
    ensures wanted { OnErr result (answer ≡ Err PumpFault.Memory) }
{
    match answer {
        Ok(count) => Ok(Pumped::Went { count, recorded }),
        Err(PumpFault::Down) => Ok(Pumped::Refused(Reply::Down)),
        Err(PumpFault::NotLinked) => Ok(Pumped::Refused(Reply::Unlinked)),
        Err(PumpFault::Spent) => Ok(Pumped::Refused(Reply::Spent)),
        Err(PumpFault::Memory) => Err(Memory),
        Err(PumpFault::DiskFault) => Ok(Pumped::Broke(how(disk))),
    }
}

impl Seat {
    /// Hears a packet that was read, at a moment in seconds.
    pub fn hear<P: Power>(
        &mut self,
        disk: &mut P,
        packet: &PacketView<'_>,
        now: u32,
    ) -> Result<Passed, Memory>
        requires held { IsHeldOn (P.view disk.old) self.old }
        requires lent { IsLent packet.now }
        ensures heard { IfOk result (λ passed. (p : Packet) →
            packet_in (seen_packet packet.now) ≡ Some p → IsHeard (P.view disk.old)
            (P.view disk.new) (P.is_stopped disk.new) self.old self.new
            (hear (seated self.old) p now) passed) }
        ensures switch { (P.view disk.new).switch ≡ (P.view disk.old).switch }
        ensures lasts { Lasts (P.view disk.old) (P.view disk.new) self.old self.new }
    {
        images_open_to_one();
        definitions_do_not_fail();
        down_refuses_all();
        refused_is_same();
        self.is_valid();
        if self.is_down() {
            return Ok(Passed::Gone);
        }
        let before = self.manager.lsn();
        let answer = self.manager.hear(disk, packet, now);
        let recorded = self.manager.lsn() != before;
        became(disk, answer, recorded)
    }

    /// Adds the bytes of the packets that go at a moment in seconds.
    fn give_out<P: Power>(
        &mut self,
        disk: &mut P,
        now: u32,
        out: &mut Vec<u8>,
    ) -> Result<Pumped, Memory>
        requires held { IsHeldOn (P.view disk.old) self.old }
        requires empty { out.old.items ≡ [] }
        ensures pumped { IfOk result (IsPumped (P.view disk.old) (P.view disk.new)
            (P.is_stopped disk.new) self.old self.new (pump (seated self.old) now)) }
        ensures spelled { IfOk result (SpellPumped (pump (seated self.old) now) out.new.items) }
        ensures faults { OnErr result ((P.view disk.new).faults ≡ (P.view disk.old).faults) }
        ensures switch { (P.view disk.new).switch ≡ (P.view disk.old).switch }
        ensures lasts { Lasts (P.view disk.old) (P.view disk.new) self.old self.new }
    {
        images_open_to_one();
        definitions_do_not_fail();
        down_refuses_all();
        refused_is_same();
        refusals_change_nothing();
        pumped_is_readable();
        self.is_valid();
        if self.is_down() {
            return Ok(Pumped::Refused(Reply::Down));
        }
        let before = self.manager.lsn();
        let answer = self.manager.pump(disk, now, out);
        let recorded = self.manager.lsn() != before;
        went(disk, answer, recorded)
    }

    /// Sends the packets that go at a moment in seconds: each is added to the medium.
    ///
    /// # Errors
    /// `NetFull` where the next one would pass the medium's limit, `Memory`: those
    /// before it were added.
    pub fn pump<P: Power, M: Medium>(
        &mut self,
        disk: &mut P,
        medium: &mut M,
        now: u32,
    ) -> Result<Pumped, PostFault>
        requires held { IsHeldOn (P.view disk.old) self.old }
        requires within { IsWithin (M.strings medium.old) }
        ensures pumped { IfOk result (IsPumped (P.view disk.old) (P.view disk.new)
            (P.is_stopped disk.new) self.old self.new (pump (seated self.old) now)) }
        ensures posted { ArePosted (M.strings medium.old) (M.strings medium.new)
            (pump (seated self.old) now) result }
        ensures faults { OnErr result ((P.view disk.new).faults ≡ (P.view disk.old).faults) }
        ensures switch { (P.view disk.new).switch ≡ (P.view disk.old).switch }
        ensures lasts { Lasts (P.view disk.old) (P.view disk.new) self.old self.new }
    {
        let mut out = Vec::new(self.alloc);
        let pumped = self.give_out(disk, now, &mut out)?;
        match pumped {
            Pumped::Went { count, recorded } => match post_packets(&out, medium) {
                Ok(()) => Ok(Pumped::Went { count, recorded }),
                Err(fault) => Err(fault),
            },
            Pumped::Refused(reply) => Ok(Pumped::Refused(reply)),
            Pumped::Broke(how) => Ok(Pumped::Broke(how)),
        }
    }
}
