//! What goes to a peer: it is planned, room is made for its bytes, its marks are written, its bytes are made, and then it is noted.
ghost use Rattle.std.specs.Prelude.{◌+◌, ◌++◌, ◌<◌, ◌≡◌, ◌≤◌, ◌==◌, All, IfOk, IsSomeAnd, OnOk, flat_map, fold, length, map, not, slice_get};
ghost use Rattle.std.specs.Vec.{vec_capacity};
ghost use Rattle.mqb_choosing.specs.Choices.{IsThere, bytes_in, origin_of, shown_in};
ghost use Rattle.mqb_choosing.specs.Going.{any_waits};
ghost use Rattle.mqb_store.specs.Noting as noting;
ghost use Rattle.mqb_manager.specs.Pumps.{CanNoteAll, IsPlanned, pump_fault, sent_as, waiting_for, with_sent};
ghost use Rattle.mqb_manager.specs.States.{manager_of};
ghost use Rattle.mqb_manager.specs.Writing.{IsReady, WritesEntry};
ghost use Rattle.mqb_model.specs.calls.pump.Pump.{marks_for, packet_for};
ghost use Rattle.mqb_model.specs.declared.limits.TheConstants.{MAX_PACKETS};
ghost use Rattle.mqb_model.specs.managers.Beside.{Nothing, noted};
ghost use Rattle.mqb_model.specs.managers.Valid.{IsValidManager};
ghost use Rattle.mqb_packet.specs.Plain.{plain_spelling};
ghost use Rattle.mqb_packet.specs.Values.{IsPacket};
ghost use Rattle.mqb_choosing.specs.Plans.{offered_form};

use crate::manager::Manager;
use mqb_base::{Lane, Memory};
use mqb_choosing::{
    Choices, Origin, Sending, offered_entry, plan_sending, prepare_sending, put_sending,
};
use mqb_entries::Mark;
use mqb_model::PumpFault;
use mqb_outside::Disk;
use mqb_session::Session;
use mqb_store::{ExpressWork, Store, WriteFault};

pub(crate) fn pump_fault(fault: WriteFault) -> PumpFault
    ensures { result ≡ pump_fault fault }
{
    match fault {
        WriteFault::Memory => PumpFault::Memory,
        WriteFault::DiskFault => PumpFault::DiskFault,
    }
}

/// Where a packet came from, as it is noted.
fn noted_origin(origin: &Origin) -> mqb_store::Origin
    ensures { noting.origin_of result ≡ origin_of origin.now }
{
    match origin {
        Origin::Owed { row, .. } => mqb_store::Origin::Owed { row: *row },
        Origin::Waiting { lane, .. } => match lane {
            Lane::Durable => mqb_store::Origin::OfRecoverable,
            Lane::Express => mqb_store::Origin::OfExpress,
        },
        Origin::Kept { row, tx, .. } => mqb_store::Origin::OfRow {
            row: *row,
            number: tx.number,
        },
    }
}

/// Notes each packet that went to the peer at an index.
fn note_all(store: &mut Store, peer: u32, choices: &Choices)
    requires { CanNoteAll peer store.old.state (map sent_as choices.now.choices) }
    ensures { store.new ≡ record store.old {
      state = fold (noted peer) store.old.state (map sent_as choices.now.choices);
    } }
{
    for choice in choices.as_slice() {
        store.note_sent(peer, noted_origin(&choice.origin), &choice.head);
    }
}

impl Manager {
    /// What goes to the peer at an index.
    pub(crate) fn choose_for(
        &self,
        session: Session,
        peer: u32,
        now: u32,
    ) -> Result<Sending, Memory>
        requires { peer < length self.now.store.state.peers }
        ensures peer { IfOk result (λ s. s.peer ≡ peer) }
        ensures planned { IfOk result (λ s. IsPlanned self.now session now s.peer s.choices
            s.cursors.items s.owes.items) }
        ensures any { IfOk result (λ s. any_waits s.choices ≡ not (length
            (waiting_for self.now session now s.peer) == 0)) }
    {
        let alloc = *self.cursors.allocator();
        let contents = self.store.state().contents();
        plan_sending(
            alloc,
            contents,
            session,
            &self.cursors,
            &self.owes,
            peer,
            now,
        )
    }

    /// The marks that rise, once there is room for the packets' bytes.
    pub(crate) fn prepare_chosen(
        &self,
        sending: &Sending,
        out: &mut Vec<u8>,
    ) -> Result<Vec<Mark>, Memory>
        requires { All (IsThere self.now.store.state) sending.now.choices.choices }
        ensures marks { IfOk result (λ marks. marks.items ≡ marks_for self.now.store.state
            (map (λ given. given.0) (shown_in self.now.store.state sending.now.choices.choices))) }
        ensures room { OnOk result
            (length out.new.items + sending.now.choices.bytes ≤ vec_capacity out.new) }
        ensures stays { out.new.items ≡ out.old.items }
    {
        let alloc = *self.cursors.allocator();
        let contents = self.store.state().contents();
        prepare_sending(alloc, contents, sending, out)
    }

    /// Adds the packets' bytes, for which there is room.
    pub(crate) fn put_chosen(&self, sending: &Sending, now: u32, out: &mut Vec<u8>)
        requires peer { sending.now.peer < length self.now.store.state.peers }
        requires there { All (IsThere self.now.store.state) sending.now.choices.choices }
        requires room { length out.old.items
            + bytes_in self.now.store.state sending.now.choices.choices ≤ vec_capacity out.old }
        ensures put { IsSomeAnd (slice_get self.now.store.state.peers sending.now.peer)
            (λ to. out.new.items ≡ out.old.items ++
            flat_map (λ given. plain_spelling (packet_for to.guid now given))
            (shown_in self.now.store.state sending.now.choices.choices)) }
        ensures fits { IsSomeAnd (slice_get self.now.store.state.peers sending.now.peer)
            (λ to. All (λ given. IsPacket (packet_for to.guid now given))
            (shown_in self.now.store.state sending.now.choices.choices)) }
    {
        let contents = self.store.state().contents();
        put_sending(contents, sending, now, out);
    }

    /// Writes the marks that rise, where one does.
    pub(crate) fn write_marks<D: Disk>(
        &mut self,
        disk: &mut D,
        marks: &[Mark],
    ) -> Result<(), WriteFault>
        requires few { length marks.now ≤ MAX_PACKETS }
        requires ready { IsReady (D.view disk.old) self.old (offered_form marks.now) Nothing }
        ensures { WritesEntry (D.view disk.old) (D.view disk.new) (disk.new ≡ disk.old) self.old
            self.new (offered_form marks.now) Nothing result }
    {
        let entry = offered_entry(marks);
        self.write(disk, entry.as_ref(), ExpressWork::Nothing)
    }

    /// Notes that packets went.
    pub(crate) fn note_chosen(&mut self, sending: Sending)
        requires can { CanNoteAll sending.peer self.old.store.state
            (map sent_as sending.choices.choices) }
        requires valid { IsValidManager (manager_of (with_sent self.old sending.peer
            sending.choices sending.cursors.items sending.owes.items)) }
        ensures { self.new ≡ with_sent self.old sending.peer sending.choices
            sending.cursors.items sending.owes.items }
    {
        let Sending {
            peer,
            choices,
            cursors,
            owes,
        } = sending;
        note_all(&mut self.store, peer, &choices);
        self.session = Some(choices.session());
        self.cursors = cursors;
        self.owes = owes;
    }
}
