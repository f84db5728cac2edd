//! How a packet is heard: a plan is made, what arrived is written, the connection is as planned.
ghost use Rattle.std.specs.Prelude.{◌≡◌, ◌≢◌, ◌<◌, All, Err, IfSome, None, OnOk, Some, false, true};
ghost use Rattle.mqb_outside.specs.Disk.{Counted};
ghost use Rattle.mqb_hearing.specs.Plans.{IsAsHeard, ShowsReadable, outcome_of, whole_of};
ghost use Rattle.mqb_manager.specs.Calls.{IsCall};
ghost use Rattle.mqb_manager.specs.States.{IsOnDisk, IsUp, manager_of};
ghost use Rattle.mqb_model.specs.calls.hear.Hear.{hear};
ghost use Rattle.mqb_model.specs.laws.Durable.{LeavesStore};
ghost use Rattle.mqb_model.specs.laws.Fitting.{IsFitting};
ghost use Rattle.mqb_model.specs.laws.Keeping.{StaysValid};
ghost use Rattle.mqb_model.specs.managers.Manager.{is_down};
ghost use Rattle.mqb_packet.specs.Parts.{seen_packet};
ghost use Rattle.mqb_packet.specs.Spelled.{IsLent, packet_in};
ghost use Rattle.mqb_packet.specs.declared.packet.Packet.{Packet};

use crate::manager::Manager;
use crate::writing::calls_can_be_written;
use mqb_base::Heard;
use mqb_choosing::{make_room, mark};
use mqb_hearing::Hearing;
use mqb_model::HearFault;
use mqb_outside::Disk;
use mqb_packet::{PacketView, each_view_spells_a_packet, read_is_written};
use mqb_store::WriteFault;

fn are_bytes(bytes: &[u8])
    ensures { All (λ b. b < 256) bytes.now }
{}

/// A packet that was read can be heard. This says so, and does nothing.
fn can_be_heard(packet: &PacketView<'_>)
    requires { IsLent packet.now }
    ensures { ShowsReadable packet.now }
{
    each_view_spells_a_packet();
    read_is_written();
    if let PacketView::User(view) = packet {
        are_bytes(view.whole);
    }
}

impl Manager {
    /// Has what arrived written and does the work beside it, all of whose memory is taken before the disk is called. Behind it the connection is as
    /// planned; where the disk fails, it is forgotten.
    fn follow<D: Disk>(&mut self, disk: &mut D, hearing: Hearing<'_>) -> Result<Heard, HearFault>
        requires up { IsUp self.old }
        requires on { IsOnDisk (D.view disk.old) self.old }
        requires fits { IsFitting (manager_of self.old)
            (outcome_of (manager_of self.old) hearing) }
        requires valid { StaysValid (manager_of self.old)
            (outcome_of (manager_of self.old) hearing) }
        requires stored { LeavesStore (manager_of self.old)
            (outcome_of (manager_of self.old) hearing) }
        ensures call { IsCall HearFault.Memory HearFault.DiskFault (D.view disk.old)
            (D.view disk.new) self.old self.new
            (outcome_of (manager_of self.old) hearing.entry) result }
        ensures untouched { hearing.entry.arrival.written ≡ None → disk.new ≡ disk.old }
        ensures memory { result ≡ Err HearFault.Memory → disk.new ≡ disk.old }
        ensures calls { OnOk result (IfSome hearing.entry.arrival.written
            (λ _. Counted 4 (D.view disk.old).calls (D.view disk.new).calls)) }
        ensures heard { result ≢ Err HearFault.Memory → IfSome hearing.entry.arrival.written
            (IsAsHeard hearing.entry.arrival.packet self.new.store.entry) }
    {
        let Hearing {
            answer,
            session,
            arrival,
            work,
            owes,
        } = hearing;
        make_room(&mut self.owes, owes)?;
        let entry = arrival.entry();
        match self.store.write(disk, entry.as_ref(), work) {
            Ok(()) => {
                self.session = Some(session);
                mark(&mut self.owes, owes);
                Ok(answer)
            }
            Err(WriteFault::Memory) => Err(HearFault::Memory),
            Err(WriteFault::DiskFault) => {
                self.session = None;
                self.cursors.clear();
                self.owes.clear();
                Err(HearFault::DiskFault)
            }
        }
    }

    /// Hears a packet that was read, at a moment in seconds, and answers what it was heard as.
    ///
    /// # Errors
    /// `Down` and `NotLinked`: nothing has changed, and neither has it after `Memory`. After `DiskFault` the manager is down.
    pub fn hear<D: Disk>(
        &mut self,
        disk: &mut D,
        packet: &PacketView<'_>,
        now: u32,
    ) -> Result<Heard, HearFault>
        requires on { IsUp self.old → IsOnDisk (D.view disk.old) self.old }
        requires lent { IsLent packet.now }
        ensures call { (p : Packet) → packet_in (seen_packet packet.now) ≡ Some p →
            IsCall HearFault.Memory HearFault.DiskFault (D.view disk.old) (D.view disk.new)
            self.old self.new (hear (manager_of self.old) p now) result }
        ensures down { is_down (manager_of self.old) ≡ true
            → (result ≡ Err HearFault.Down) × (self.new ≡ self.old) }
        ensures unlinked { is_down (manager_of self.old) ≡ false → self.old.session ≡ None
            → (result ≡ Err HearFault.NotLinked) × (self.new ≡ self.old) }
        // There is such a packet.
        ensures readable { ShowsReadable packet.now }
        ensures untouched { (p : Packet) → packet_in (seen_packet packet.now) ≡ Some p →
            (hear (manager_of self.old) p now).entry ≡ None → disk.new ≡ disk.old }
        ensures memory { result ≡ Err HearFault.Memory → disk.new ≡ disk.old }
        // A record is four calls of the disk.
        ensures calls { (p : Packet) → packet_in (seen_packet packet.now) ≡ Some p →
            OnOk result (IfSome (hear (manager_of self.old) p now).entry
            (λ _. Counted 4 (D.view disk.old).calls (D.view disk.new).calls)) }
        // Its packet is the very bytes that were heard.
        ensures heard { (p : Packet) → packet_in (seen_packet packet.now) ≡ Some p →
            result ≢ Err HearFault.Memory → IfSome (hear (manager_of self.old) p now).entry
            (IsAsHeard (whole_of packet.now) self.new.store.entry) }
    {
        calls_can_be_written();
        self.is_valid();
        can_be_heard(packet);
        if self.is_down() {
            return Err(HearFault::Down);
        }
        let Some(session) = self.session else {
            return Err(HearFault::NotLinked);
        };
        let alloc = *self.owes.allocator();
        let contents = self.store.state().contents();
        let hearing = mqb_hearing::hear(alloc, contents, session, packet, now)?;
        self.follow(disk, hearing)
    }
}
