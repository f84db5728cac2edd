//! The call `pump`: which packets go, and what is known once they went.
//!
//! Room for their bytes is made before the disk is called, since that takes memory. Where a mark
//! rises it is recorded, and only then are the packets spelled. That, and what is noted behind
//! it, takes no memory.
ghost use Rattle.std.specs.Prelude.{[], ◌∷◌, ◌++◌, ◌<◌, ◌≡◌, ◌≤◌, ◌==◌, All, Err, None, OnErr, OnOk, flat_map, length, nat_lt, not};
ghost use Rattle.mqb_choosing.specs.Going.{any_waits};
ghost use Rattle.mqb_heads.specs.declared.base.TheConstants.{MAX_PACKET};
ghost use Rattle.mqb_manager.specs.Calls.{CallsForRecord, IsCall, SaysDown, SaysUnlinked};
ghost use Rattle.mqb_manager.specs.Quiet.{IsQuiet};
ghost use Rattle.mqb_manager.specs.Pumps.{ComesToSend, IsLinkedOn, IsPlanned, IsPumped, pump_fault, waiting_for};
ghost use Rattle.mqb_manager.specs.States.{IsOnDisk, IsUp, manager_of};
ghost use Rattle.mqb_model.specs.calls.pump.Pump.{pump, pump_at, sending_ack, sending_one, set_up_packet};
ghost use Rattle.mqb_model.specs.managers.Manager.{linked_peer};
ghost use Rattle.mqb_session.specs.Phases.{owed_by};
ghost use Rattle.mqb_model.specs.managers.Outcomes.{succeeded};
ghost use Rattle.mqb_model.specs.managers.Valid.{IsValidManager};
ghost use Rattle.mqb_packet.specs.Plain.{IsWellFormedPacket, packet_size, plain_spelling};
ghost use Rattle.mqb_packet.specs.Values.{IsPacket};

use crate::manager::Manager;
use crate::sending::pump_fault;
use crate::writing::calls_can_be_written;
use mqb_choosing::{Sending, sent_are_next, set_up_packet};
use mqb_model::{PumpFault, applied_is_valid};
use mqb_outside::Disk;
use mqb_packet::{Packet, PutFault, put_packet};
use mqb_session::{Kind, Session};
use mqb_setup::Internal;
use mqb_store::{is_ready, linked_peer};

impl Manager {
    /// Its end of a session, while it is linked.
    fn linked(&self) -> Option<Session>
        ensures { result ≡ self.now.session }
    {
        self.session
    }

    /// The index of the peer to which its session leads.
    fn peer_of(&self, session: &Session) -> u32
        ensures { result ≡ linked_peer self.now.store.state session.now }
    {
        linked_peer(self.store.state(), session)
    }

    fn has_peer(&self, peer: u32) -> bool
        ensures { result ≡ nat_lt peer (length self.now.store.state.peers) }
    {
        (peer as usize) < self.store.state().peers().len()
    }

    /// A packet of the session itself goes, which is at this state then.
    fn send_one(
        &mut self,
        packet: &Packet,
        session: Session,
        out: &mut Vec<u8>,
    ) -> Result<u32, PumpFault>
        requires well_formed { IsWellFormedPacket packet.now }
        requires size { packet_size packet.now ≤ MAX_PACKET }
        requires valid { IsValidManager (succeeded (manager_of self.old)
            (sending_one (manager_of self.old) packet.now session)) }
        ensures quiet { IsQuiet PumpFault.Memory self.old self.new
            (sending_one (manager_of self.old) packet.now session) result }
        ensures sent { OnOk result (out.new.items ≡
            out.old.items ++ flat_map plain_spelling (packet.now ∷ [])) }
        ensures refused { OnErr result (out.new.items ≡ out.old.items) }
    {
        match put_packet(packet, out) {
            Ok(()) => {
                self.session = Some(session);
                Ok(1)
            }
            Err(PutFault::Memory) => Err(PumpFault::Memory),
            Err(PutFault::TooLarge) => unreachable!(),
        }
    }

    /// Where nothing was chosen, an acknowledgement that the session owes goes.
    fn send_ack(&mut self, session: Session, out: &mut Vec<u8>) -> Result<u32, PumpFault>
        requires valid { IsValidManager (succeeded (manager_of self.old)
            (sending_ack (manager_of self.old) session)) }
        ensures quiet { IsQuiet PumpFault.Memory self.old self.new
            (sending_ack (manager_of self.old) session) result }
        ensures sent { OnOk result (out.new.items ≡ out.old.items ++ flat_map plain_spelling
            (sending_ack (manager_of self.old) session).packets) }
        ensures fits { OnOk result (All IsPacket
            (sending_ack (manager_of self.old) session).packets) }
        ensures refused { OnErr result (out.new.items ≡ out.old.items) }
    {
        self.is_valid();
        if session.owes_ack() {
            let mut behind = session;
            let packet = set_up_packet(Internal::Ack(behind.stamp(Kind::Ack)));
            self.send_one(&packet, behind, out)
        } else {
            Ok(0)
        }
    }

    /// What was chosen goes: the marks that rise are recorded before any packet does.
    fn send_all<D: Disk>(
        &mut self,
        disk: &mut D,
        session: Session,
        sending: Sending,
        now: u32,
        out: &mut Vec<u8>,
    ) -> Result<u32, PumpFault>
        requires linked { IsLinkedOn (D.view disk.old) self.old session }
        requires index { sending.peer ≡ linked_peer self.old.store.state session }
        requires planned { IsPlanned self.old session now sending.peer sending.choices
            sending.cursors.items sending.owes.items }
        requires comes { ComesToSend self.old session now sending.peer }
        ensures { IsPumped (D.view disk.old) (D.view disk.new) (disk.new ≡ disk.old) self.old
            self.new (pump (manager_of self.old) now) out.old.items out.new.items result }
    {
        calls_can_be_written();
        applied_is_valid();
        sent_are_next();
        self.is_valid();
        let count = sending.choices.as_slice().len() as u32;
        match self.prepare_chosen(&sending, out) {
            Err(_) => Err(PumpFault::Memory),
            Ok(marks) => match self.write_marks(disk, &marks) {
                Ok(()) => {
                    self.put_chosen(&sending, now, out);
                    self.note_chosen(sending);
                    Ok(count)
                }
                Err(fault) => Err(pump_fault(fault)),
            },
        }
    }

    /// What was chosen goes, or where nothing was, what the session owes.
    fn send_chosen<D: Disk>(
        &mut self,
        disk: &mut D,
        session: Session,
        sending: Sending,
        now: u32,
        out: &mut Vec<u8>,
    ) -> Result<u32, PumpFault>
        requires linked { IsLinkedOn (D.view disk.old) self.old session }
        requires index { sending.peer ≡ linked_peer self.old.store.state session }
        requires peer { sending.peer < length self.old.store.state.peers }
        requires planned { IsPlanned self.old session now sending.peer sending.choices
            sending.cursors.items sending.owes.items }
        requires any { any_waits sending.choices ≡ not (length
            (waiting_for self.old session now sending.peer) == 0) }
        requires comes { pump (manager_of self.old) now ≡
            pump_at (manager_of self.old) now session sending.peer }
        ensures { IsPumped (D.view disk.old) (D.view disk.new) (disk.new ≡ disk.old) self.old
            self.new (pump (manager_of self.old) now) out.old.items out.new.items result }
    {
        calls_can_be_written();
        self.is_valid();
        if sending.is_stuck(&session) {
            return Err(PumpFault::Spent);
        }
        if sending.is_idle() {
            return self.send_ack(session, out);
        }
        self.send_all(disk, session, sending, now, out)
    }

    /// A session that is ready sends to the peer at an index.
    fn pump_to<D: Disk>(
        &mut self,
        disk: &mut D,
        session: Session,
        peer: u32,
        now: u32,
        out: &mut Vec<u8>,
    ) -> Result<u32, PumpFault>
        requires linked { IsLinkedOn (D.view disk.old) self.old session }
        requires index { peer ≡ linked_peer self.old.store.state session }
        requires peer { peer < length self.old.store.state.peers }
        requires comes { pump (manager_of self.old) now ≡
            pump_at (manager_of self.old) now session peer }
        ensures { IsPumped (D.view disk.old) (D.view disk.new) (disk.new ≡ disk.old) self.old
            self.new (pump (manager_of self.old) now) out.old.items out.new.items result }
    {
        match self.choose_for(session, peer, now) {
            Err(_) => Err(PumpFault::Memory),
            Ok(sending) => self.send_chosen(disk, session, sending, now, out),
        }
    }

    /// A session that is ready sends to its peer, where that is there.
    fn pump_peer<D: Disk>(
        &mut self,
        disk: &mut D,
        session: Session,
        now: u32,
        out: &mut Vec<u8>,
    ) -> Result<u32, PumpFault>
        requires linked { IsLinkedOn (D.view disk.old) self.old session }
        requires comes { pump (manager_of self.old) now ≡ pump_at (manager_of self.old) now session
            (linked_peer self.old.store.state session) }
        ensures { IsPumped (D.view disk.old) (D.view disk.new) (disk.new ≡ disk.old) self.old
            self.new (pump (manager_of self.old) now) out.old.items out.new.items result }
    {
        self.is_valid();
        let peer = self.peer_of(&session);
        if self.has_peer(peer) {
            self.pump_to(disk, session, peer, now, out)
        } else {
            Ok(0)
        }
    }

    /// A session whose phase owes nothing sends where it is ready.
    fn pump_ready<D: Disk>(
        &mut self,
        disk: &mut D,
        session: Session,
        now: u32,
        out: &mut Vec<u8>,
    ) -> Result<u32, PumpFault>
        requires linked { IsLinkedOn (D.view disk.old) self.old session }
        requires none { owed_by session.phase now session ≡ None }
        ensures { IsPumped (D.view disk.old) (D.view disk.new) (disk.new ≡ disk.old) self.old
            self.new (pump (manager_of self.old) now) out.old.items out.new.items result }
    {
        self.is_valid();
        if is_ready(&session) {
            self.pump_peer(disk, session, now, out)
        } else {
            Ok(0)
        }
    }

    /// A set-up packet that the phase of a session owes goes alone.
    fn pump_linked<D: Disk>(
        &mut self,
        disk: &mut D,
        session: Session,
        now: u32,
        out: &mut Vec<u8>,
    ) -> Result<u32, PumpFault>
        requires { IsLinkedOn (D.view disk.old) self.old session }
        ensures { IsPumped (D.view disk.old) (D.view disk.new) (disk.new ≡ disk.old) self.old
            self.new (pump (manager_of self.old) now) out.old.items out.new.items result }
    {
        calls_can_be_written();
        self.is_valid();
        let mut behind = session;
        match behind.owed(now) {
            Some(part) => self.send_one(&set_up_packet(part), behind, out),
            None => self.pump_ready(disk, session, now, out),
        }
    }

    /// A manager that is up sends where it is linked.
    fn pump_up<D: Disk>(
        &mut self,
        disk: &mut D,
        now: u32,
        out: &mut Vec<u8>,
    ) -> Result<u32, PumpFault>
        requires up { IsUp self.old }
        requires on { IsOnDisk (D.view disk.old) self.old }
        ensures pumped { IsPumped (D.view disk.old) (D.view disk.new) (disk.new ≡ disk.old) self.old
            self.new (pump (manager_of self.old) now) out.old.items out.new.items result }
        ensures unlinked { SaysUnlinked PumpFault.NotLinked self.old self.new result }
    {
        self.is_valid();
        match self.linked() {
            None => Err(PumpFault::NotLinked),
            Some(session) => self.pump_linked(disk, session, now, out),
        }
    }

    /// Adds to `out` the packets that go to the linked peer at `now`, and answers how many: a set-up packet of the session alone; or what waits, as many as
    /// may go; or an acknowledgement of the session where nothing waits.
    ///
    /// # Errors
    /// `Down`, `NotLinked`; `Spent` where something waits and the session has used all its numbers; `Memory` and `DiskFault`. `out` is as it was then.
    pub fn pump<D: Disk>(
        &mut self,
        disk: &mut D,
        now: u32,
        out: &mut Vec<u8>,
    ) -> Result<u32, PumpFault>
        requires { IsUp self.old → IsOnDisk (D.view disk.old) self.old }
        ensures call { IsCall PumpFault.Memory PumpFault.DiskFault (D.view disk.old)
            (D.view disk.new) self.old self.new (pump (manager_of self.old) now) result }
        ensures down { SaysDown PumpFault.Down self.old self.new result }
        ensures unlinked { SaysUnlinked PumpFault.NotLinked self.old self.new result }
        // The packets' plain spelling, in turn.
        ensures sent { OnOk result (out.new.items ≡ out.old.items ++ flat_map plain_spelling
            (pump (manager_of self.old) now).packets) }
        // Their numbers fit their types, so that they can be read back.
        ensures fits { OnOk result (All IsPacket (pump (manager_of self.old) now).packets) }
        ensures refused { OnErr result (out.new.items ≡ out.old.items) }
        ensures untouched { (pump (manager_of self.old) now).entry ≡ None → disk.new ≡ disk.old }
        ensures memory { result ≡ Err PumpFault.Memory → disk.new ≡ disk.old }
        ensures calls { CallsForRecord (D.view disk.old) (D.view disk.new)
            (pump (manager_of self.old) now).entry result }
    {
        self.is_valid();
        if self.is_down() {
            return Err(PumpFault::Down);
        }
        self.pump_up(disk, now, out)
    }
}
