//! What one end of a connection does, step by step.
ghost use Rattle.std.specs.Prelude.{[], ◌≡◌, ◌+◌, ◌<◌, ◌≤◌, Err, IfErr, IfOk, IfSome, None, Ok};
ghost use Rattle.std.specs.Prelude.{OnErr, false, length, take, true};
ghost use Rattle.mqb_outside.specs.Told.{Gave};
ghost use Rattle.mqb_journal.specs.Causes.{FaultsAsSaid};
ghost use Rattle.mqb_manager.specs.States.{IsOnDisk, IsUp, manager_of};
ghost use Rattle.mqb_model.specs.managers.Readers.{phase_of};
ghost use Rattle.mqb_serve.specs.Talking.{Keeps, stopped_hearing, stopped_pumping, stored_of};
ghost use Rattle.mqb_serving.specs.Serving.{Hears, is_read_fault, is_write_fault};
ghost use Rattle.mqb_serving.specs.Steps.{Converses, Goes, HearsFrame, HearsHeld, Itself, Listens};
ghost use Rattle.mqb_serving.specs.Steps.{PumpsOnce, Stands, end_of};
ghost use Rattle.mqb_serving.specs.declared.limits.TheConstants.{MAX_READ};
ghost use Rattle.mqb_serving.specs.Conversations.{Conversation, answered, end_after};
ghost use Rattle.mqb_serving.specs.Conversations.{end_of_purpose, end_of_session, is_through};
ghost use Rattle.mqb_serving.specs.Conversations.{looked_at, no_bytes, pumped, read_on, sent_some};
ghost use Rattle.mqb_stream.specs.Framing.{fed, next, wants_more};
ghost use Rattle.mqb_stream.specs.Histories.{part_of};

use crate::sending::send_all;
use mqb_base::Heard;
use mqb_fields::HeadFault;
use mqb_heads::MAX_PACKET;
use mqb_manager::Manager;
use mqb_model::{HearFault, PumpFault, refusals_change_nothing};
use mqb_outside::{Conn, Disk};
use mqb_packet::view;
use mqb_serving::{ConnFault, Errand, MAX_PUMPS, MAX_READ, PeerFault, Purpose};
use mqb_session::Phase;
use mqb_stream::{Framer, Next};
use std::alloc::Global;

/// How a connection ends: well, or by a fault of the peer.
pub(crate) type End = Result<(), PeerFault>;

/// What one end of a connection has beside its manager.
#[derive(Debug, Drop)]
pub(crate) struct Talk {
    purpose: Purpose,
    moment: u32,
    framer: Framer,
    // How many bytes came.
    came: u64,
    // The packets of one pump.
    out: Vec<u8>,
    ghost count: { came ≡ framer.place + length framer.held },
    ghost most: { came ≤ MAX_READ },
}

/// The session is ready, and nothing for its peer is outstanding.
fn is_through(manager: &Manager) -> bool
    ensures { result ≡ is_through (manager_of manager.now) }
{
    matches!(manager.phase(), Some(Phase::Ready)) && !manager.outstanding()
}

/// The end of a connection whose session closed.
fn end_of_session(manager: &Manager) -> Option<End>
    ensures { result ≡ end_of_session (phase_of (manager_of manager.now)) }
{
    match manager.phase() {
        Some(Phase::Closed(why)) => Some(Err(PeerFault::Closed(why))),
        _ => None,
    }
}

/// A push ends as soon as it is through; the others go on.
fn end_of_purpose(purpose: Purpose, manager: &Manager) -> Option<End>
    ensures { result ≡ end_of_purpose purpose (manager_of manager.now) }
{
    match purpose {
        Purpose::Reach {
            errand: Errand::Push,
            ..
        } if is_through(manager) => Some(Ok(())),
        _ => None,
    }
}

/// The end by what the last pump answered.
fn end_after(answer: Result<u32, PumpFault>, purpose: Purpose, manager: &Manager) -> Option<End>
    ensures { result ≡ end_after answer purpose (manager_of manager.now) }
{
    match answer {
        Err(_) => Some(Err(PeerFault::Spent)),
        Ok(_) => match end_of_session(manager) {
            Some(end) => Some(end),
            None => end_of_purpose(purpose, manager),
        },
    }
}

fn sent_some(answer: &Result<u32, PumpFault>) -> bool
    ensures { result ≡ sent_some answer.now }
{
    match answer {
        Ok(count) => *count != 0,
        Err(_) => false,
    }
}

/// The fault of a pump that was not made.
fn stopped_pumping(answer: &Result<u32, PumpFault>) -> Option<ConnFault>
    ensures { result ≡ stopped_pumping answer.now }
{
    match answer {
        Err(PumpFault::Memory) => Some(ConnFault::Memory),
        Err(PumpFault::DiskFault) => Some(ConnFault::DiskFault),
        _ => None,
    }
}

/// The fault of a packet that was not heard.
fn stopped_hearing(answer: &Result<Heard, HearFault>) -> Option<ConnFault>
    ensures { result ≡ stopped_hearing answer.now }
{
    match answer {
        Err(HearFault::Memory) => Some(ConnFault::Memory),
        Err(HearFault::DiskFault) => Some(ConnFault::DiskFault),
        _ => None,
    }
}

/// Hears the packet that a frame is, or answers why it is none.
fn hear_frame<D: Disk>(
    disk: &mut D,
    manager: &mut Manager,
    frame: &[u8],
    moment: u32,
) -> Result<Result<(), HeadFault>, ConnFault>
    requires up { IsUp manager.old }
    requires on { IsOnDisk (D.view disk.old) manager.old }
    ensures hears { HearsFrame frame.now (stored_of manager.old) moment (stored_of manager.new)
        result }
    ensures keeps { Keeps (D.view disk.old) (D.view disk.new) manager.old manager.new result }
    ensures no_write { IfErr result (λ why. is_write_fault why ≡ false) }
    ensures no_read { IfErr result (λ why. is_read_fault why ≡ false) }
{
    let packet = match view(frame) {
        Ok(packet) => packet,
        Err(fault) => return Ok(Err(fault)),
    };
    let heard = manager.hear(disk, &packet, moment);
    match stopped_hearing(&heard) {
        Some(fault) => Err(fault),
        None => Ok(Ok(())),
    }
}

impl Talk {
    /// One end at a moment in seconds, to which nothing came.
    pub(crate) fn new(alloc: Global, purpose: Purpose, moment: u32) -> Result<Talk, ConnFault>
        ensures purpose { IfOk result (λ talk. talk.purpose ≡ purpose) }
        ensures moment { IfOk result (λ talk. talk.moment ≡ moment) }
        ensures framer { IfOk result (λ talk. talk.framer ≡ no_bytes) }
        ensures fault { IfErr result (λ why. why ≡ ConnFault.Memory) }
    {
        match Framer::new(alloc, MAX_PACKET) {
            Ok(framer) => Ok(Talk {
                purpose,
                moment,
                framer,
                came: 0,
                out: Vec::new(alloc),
            }),
            Err(_) => Err(ConnFault::Memory),
        }
    }

    /// The place of the present packet among the bytes that came.
    fn place(&self) -> u64
        ensures { result ≡ self.now.framer.place }
    {
        self.came - u64::from(self.framer.held())
    }

    /// Pumps once, and sends what goes.
    fn pump_once<D: Disk, C: Conn>(
        &mut self,
        disk: &mut D,
        manager: &mut Manager,
        conn: &mut C,
    ) -> Result<Result<u32, PumpFault>, ConnFault>
        requires up { IsUp manager.old }
        requires on { IsOnDisk (D.view disk.old) manager.old }
        ensures pumps { PumpsOnce (stored_of manager.old) self.old.moment (stored_of manager.new)
            (C.taken conn.old) (C.taken conn.new) result }
        ensures keeps { Keeps (D.view disk.old) (D.view disk.new) manager.old manager.new result }
        ensures purpose { self.new.purpose ≡ self.old.purpose }
        ensures moment { self.new.moment ≡ self.old.moment }
        ensures framer { self.new.framer ≡ self.old.framer }
        ensures came { self.new.came ≡ self.old.came }
        ensures write_faults { FaultsAsSaid is_write_fault (C.write_faults conn.old)
            (C.write_faults conn.new) result }
        ensures read_faults { C.read_faults conn.new ≡ C.read_faults conn.old }
        ensures no_read { IfErr result (λ why. is_read_fault why ≡ false) }
        ensures held { C.held conn.new ≡ C.held conn.old }
        ensures given { C.given conn.new ≡ C.given conn.old }
        ensures address { C.address conn.new ≡ C.address conn.old }
        ensures lent { C.lent conn.new ≡ C.lent conn.old }
    {
        refusals_change_nothing();
        self.out.clear();
        let answer = manager.pump(disk, self.moment, &mut self.out);
        if let Some(fault) = stopped_pumping(&answer) {
            return Err(fault);
        }
        match send_all(conn, &self.out) {
            Ok(()) => Ok(answer),
            Err(_) => Err(ConnFault::WriteFault),
        }
    }

    /// Pumps until nothing goes, and answers the end of the connection where that comes.
    fn pump_to_rest<D: Disk, C: Conn>(
        &mut self,
        disk: &mut D,
        manager: &mut Manager,
        conn: &mut C,
    ) -> Result<Option<End>, ConnFault>
        requires up { IsUp manager.old }
        requires on { IsOnDisk (D.view disk.old) manager.old }
        ensures goes { (c : Conversation) →
            Stands c self.old.purpose self.old.moment (stored_of manager.old) self.old.framer →
            Goes (Itself c) c (pumped MAX_PUMPS c) (C.taken conn.old) (C.taken conn.new)
            self.new.purpose self.new.moment (stored_of manager.new) self.new.framer result }
        ensures keeps { Keeps (D.view disk.old) (D.view disk.new) manager.old manager.new result }
        ensures purpose { self.new.purpose ≡ self.old.purpose }
        ensures moment { self.new.moment ≡ self.old.moment }
        ensures framer { self.new.framer ≡ self.old.framer }
        ensures came { self.new.came ≡ self.old.came }
        ensures write_faults { FaultsAsSaid is_write_fault (C.write_faults conn.old)
            (C.write_faults conn.new) result }
        ensures read_faults { C.read_faults conn.new ≡ C.read_faults conn.old }
        ensures no_read { IfErr result (λ why. is_read_fault why ≡ false) }
        ensures held { C.held conn.new ≡ C.held conn.old }
        ensures given { C.given conn.new ≡ C.given conn.old }
        ensures address { C.address conn.new ≡ C.address conn.old }
        ensures lent { C.lent conn.new ≡ C.lent conn.old }
    {
        for _pump in 0..MAX_PUMPS {
            let answer = self.pump_once(disk, manager, conn)?;
            if !sent_some(&answer) {
                return Ok(end_after(answer, self.purpose, manager));
            }
        }
        Ok(None)
    }

    /// Does what the framer answers: a packet that is whole is heard.
    fn answer<D: Disk, C: Conn>(
        &mut self,
        disk: &mut D,
        manager: &mut Manager,
        conn: &mut C,
    ) -> Result<Option<End>, ConnFault>
        requires up { IsUp manager.old }
        requires on { IsOnDisk (D.view disk.old) manager.old }
        ensures goes { (c : Conversation) →
            Stands c self.old.purpose self.old.moment (stored_of manager.old) self.old.framer →
            Goes (HearsHeld c) c (answered (next c.framing) c) (C.taken conn.old)
            (C.taken conn.new) self.new.purpose self.new.moment (stored_of manager.new)
            self.new.framer result }
        ensures wants { result ≡ Ok None → wants_more (next self.new.framer) ≡ true }
        ensures came { self.new.came ≡ self.old.came }
        ensures keeps { Keeps (D.view disk.old) (D.view disk.new) manager.old manager.new result }
        ensures write_faults { FaultsAsSaid is_write_fault (C.write_faults conn.old)
            (C.write_faults conn.new) result }
        ensures read_faults { C.read_faults conn.new ≡ C.read_faults conn.old }
        ensures no_read { IfErr result (λ why. is_read_fault why ≡ false) }
        ensures held { C.held conn.new ≡ C.held conn.old }
        ensures given { C.given conn.new ≡ C.given conn.old }
        ensures address { C.address conn.new ≡ C.address conn.old }
        ensures lent { C.lent conn.new ≡ C.lent conn.old }
    {
        let heard = match self.framer.next() {
            Next::More { .. } => return Ok(None),
            Next::Bad { fault, place } => return Ok(Some(Err(PeerFault::Bad { place, fault }))),
            Next::Packet(frame) => hear_frame(disk, manager, frame, self.moment)?,
        };
        match heard {
            Ok(()) => {
                self.framer.advance();
                self.pump_to_rest(disk, manager, conn)
            }
            Err(fault) => {
                let place = self.place();
                Ok(Some(Err(PeerFault::Bad { place, fault })))
            }
        }
    }

    /// Looks at what is held. The connection ends here where it brought too many bytes.
    fn look<D: Disk, C: Conn>(
        &mut self,
        disk: &mut D,
        manager: &mut Manager,
        conn: &mut C,
    ) -> Result<Option<End>, ConnFault>
        requires up { IsUp manager.old }
        requires on { IsOnDisk (D.view disk.old) manager.old }
        ensures goes { (c : Conversation) →
            Stands c self.old.purpose self.old.moment (stored_of manager.old) self.old.framer →
            Goes (HearsHeld c) c (looked_at c) (C.taken conn.old) (C.taken conn.new)
            self.new.purpose self.new.moment (stored_of manager.new) self.new.framer result }
        ensures wants { result ≡ Ok None → wants_more (next self.new.framer) ≡ true }
        ensures came { self.new.came ≡ self.old.came }
        ensures less { result ≡ Ok None → self.new.came < MAX_READ }
        ensures keeps { Keeps (D.view disk.old) (D.view disk.new) manager.old manager.new result }
        ensures write_faults { FaultsAsSaid is_write_fault (C.write_faults conn.old)
            (C.write_faults conn.new) result }
        ensures read_faults { C.read_faults conn.new ≡ C.read_faults conn.old }
        ensures no_read { IfErr result (λ why. is_read_fault why ≡ false) }
        ensures held { C.held conn.new ≡ C.held conn.old }
        ensures given { C.given conn.new ≡ C.given conn.old }
        ensures address { C.address conn.new ≡ C.address conn.old }
        ensures lent { C.lent conn.new ≡ C.lent conn.old }
    {
        let ended = self.answer(disk, manager, conn)?;
        if let Some(end) = ended {
            return Ok(Some(end));
        }
        if self.came == MAX_READ {
            return Ok(Some(Err(PeerFault::TooMuch)));
        }
        Ok(None)
    }

    /// Takes from a piece what belongs to the present packet, and answers how many bytes that is.
    fn feed(&mut self, piece: &[u8]) -> usize
        requires some { 0 < length piece.now }
        requires wants { wants_more (next self.old.framer) ≡ true }
        requires few { self.old.came + length piece.now ≤ MAX_READ }
        ensures part { take result piece.now ≡ part_of self.old.framer piece.now }
        ensures some { 0 < result }
        ensures within { result ≤ length piece.now }
        ensures framer { self.new.framer ≡ fed self.old.framer piece.now }
        ensures came { self.new.came ≡ self.old.came + result }
        ensures purpose { self.new.purpose ≡ self.old.purpose }
        ensures moment { self.new.moment ≡ self.old.moment }
    {
        let Ok(count) = self.framer.feed(piece) else {
            unreachable!()
        };
        self.came += count as u64;
        count
    }

    /// Takes a piece, packet by packet.
    fn take_piece<D: Disk, C: Conn>(
        &mut self,
        disk: &mut D,
        manager: &mut Manager,
        conn: &mut C,
        piece: &[u8],
    ) -> Result<Option<End>, ConnFault>
        requires up { IsUp manager.old }
        requires on { IsOnDisk (D.view disk.old) manager.old }
        requires wants { wants_more (next self.old.framer) ≡ true }
        requires few { self.old.came + length piece.now ≤ MAX_READ }
        requires less { self.old.came < MAX_READ }
        ensures goes { (c : Conversation) →
            Stands c self.old.purpose self.old.moment (stored_of manager.old) self.old.framer →
            Goes (Hears c piece.now) c (read_on c piece.now) (C.taken conn.old) (C.taken conn.new)
            self.new.purpose self.new.moment (stored_of manager.new) self.new.framer result }
        ensures wants { result ≡ Ok None → wants_more (next self.new.framer) ≡ true }
        ensures came { result ≡ Ok None → self.new.came ≡ self.old.came + length piece.now }
        ensures less { result ≡ Ok None → self.new.came < MAX_READ }
        ensures keeps { Keeps (D.view disk.old) (D.view disk.new) manager.old manager.new result }
        ensures write_faults { FaultsAsSaid is_write_fault (C.write_faults conn.old)
            (C.write_faults conn.new) result }
        ensures read_faults { C.read_faults conn.new ≡ C.read_faults conn.old }
        ensures no_read { IfErr result (λ why. is_read_fault why ≡ false) }
        ensures held { C.held conn.new ≡ C.held conn.old }
        ensures given { C.given conn.new ≡ C.given conn.old }
        ensures address { C.address conn.new ≡ C.address conn.old }
        ensures lent { C.lent conn.new ≡ C.lent conn.old }
    {
        let mut rest = piece;
        while !rest.is_empty() {
            let count = self.feed(rest);
            (_, rest) = rest.split_at(count);
            let ended = self.look(disk, manager, conn)?;
            if let Some(end) = ended {
                return Ok(Some(end));
            }
        }
        Ok(None)
    }

    /// Reads a piece into the front of a buffer, and answers how long it is. None is longer than
    /// what may still come.
    fn read<C: Conn>(&self, conn: &mut C, buffer: &mut [u8]) -> Result<usize, ConnFault>
        requires less { self.now.came < MAX_READ }
        requires room { 0 < length buffer.old }
        ensures gave { IfOk result (λ n. Gave (C.held conn.old) (C.held conn.new)
            (take n buffer.new)) }
        ensures within { IfOk result (λ n. n ≤ length buffer.new) }
        ensures few { IfOk result (λ n. self.now.came + n ≤ MAX_READ) }
        ensures ended { IfOk result (λ n. n ≡ 0 → IfSome (C.held conn.new) (λ rest. rest ≡ [])) }
        ensures stays { OnErr result (C.held conn.new ≡ C.held conn.old) }
        ensures fault { IfErr result (λ why. why ≡ ConnFault.ReadFault) }
        ensures read_faults { FaultsAsSaid is_read_fault (C.read_faults conn.old)
            (C.read_faults conn.new) result }
        ensures taken { C.taken conn.new ≡ C.taken conn.old }
        ensures write_faults { C.write_faults conn.new ≡ C.write_faults conn.old }
        ensures given { C.given conn.new ≡ C.given conn.old }
        ensures address { C.address conn.new ≡ C.address conn.old }
        ensures lent { C.lent conn.new ≡ C.lent conn.old }
    {
        let room = (MAX_READ - self.came).min(buffer.len() as u64) as usize;
        match conn.receive(&mut buffer[..room]) {
            Ok(count) => Ok(count),
            Err(_) => Err(ConnFault::ReadFault),
        }
    }

    /// The end where no more bytes come: well where it is through and holds no part of a packet.
    fn end_of_bytes(&self, manager: &Manager) -> End
        ensures { result ≡ end_of (is_through (manager_of manager.now)) self.now.framer.held }
    {
        if is_through(manager) && self.framer.held() == 0 {
            Ok(())
        } else {
            Err(PeerFault::PeerClosed)
        }
    }

    /// Reads what comes, piece by piece, until the connection ends.
    fn listen<D: Disk, C: Conn>(
        &mut self,
        disk: &mut D,
        manager: &mut Manager,
        conn: &mut C,
        buffer: &mut [u8],
    ) -> Result<End, ConnFault>
        requires up { IsUp manager.old }
        requires on { IsOnDisk (D.view disk.old) manager.old }
        requires wants { wants_more (next self.old.framer) ≡ true }
        requires less { self.old.came < MAX_READ }
        requires room { 0 < length buffer.old }
        ensures listens { (c : Conversation) →
            Stands c self.old.purpose self.old.moment (stored_of manager.old) self.old.framer →
            Listens c (C.held conn.old) (C.held conn.new) (C.taken conn.old) (C.taken conn.new)
            (stored_of manager.new) result }
        ensures keeps { Keeps (D.view disk.old) (D.view disk.new) manager.old manager.new result }
        ensures write_faults { FaultsAsSaid is_write_fault (C.write_faults conn.old)
            (C.write_faults conn.new) result }
        ensures read_faults { FaultsAsSaid is_read_fault (C.read_faults conn.old)
            (C.read_faults conn.new) result }
        ensures given { C.given conn.new ≡ C.given conn.old }
        ensures address { C.address conn.new ≡ C.address conn.old }
        ensures lent { C.lent conn.new ≡ C.lent conn.old }
    {
        'pieces: loop {
            let count = self.read(conn, buffer)?;
            if count == 0 {
                return Ok(self.end_of_bytes(manager));
            }
            let ended = self.take_piece(disk, manager, conn, &buffer[..count])?;
            if let Some(end) = ended {
                return Ok(end);
            }
        }
    }

    /// Pumps first, and then reads what comes.
    pub(crate) fn converse<D: Disk, C: Conn>(
        &mut self,
        disk: &mut D,
        manager: &mut Manager,
        conn: &mut C,
        buffer: &mut [u8],
    ) -> Result<End, ConnFault>
        requires up { IsUp manager.old }
        requires on { IsOnDisk (D.view disk.old) manager.old }
        requires nothing { self.old.framer ≡ no_bytes }
        requires room { 0 < length buffer.old }
        ensures converses { (c : Conversation) →
            Stands c self.old.purpose self.old.moment (stored_of manager.old) self.old.framer →
            Converses c (C.held conn.old) (C.held conn.new) (C.taken conn.old) (C.taken conn.new)
            (stored_of manager.new) result }
        ensures keeps { Keeps (D.view disk.old) (D.view disk.new) manager.old manager.new result }
        ensures write_faults { FaultsAsSaid is_write_fault (C.write_faults conn.old)
            (C.write_faults conn.new) result }
        ensures read_faults { FaultsAsSaid is_read_fault (C.read_faults conn.old)
            (C.read_faults conn.new) result }
        ensures given { C.given conn.new ≡ C.given conn.old }
        ensures address { C.address conn.new ≡ C.address conn.old }
        ensures lent { C.lent conn.new ≡ C.lent conn.old }
    {
        let ended = self.pump_to_rest(disk, manager, conn)?;
        match ended {
            Some(end) => Ok(end),
            None => self.listen(disk, manager, conn, buffer),
        }
    }
}
