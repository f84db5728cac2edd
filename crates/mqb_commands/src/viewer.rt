ghost use Rattle.std.specs.Prelude.{◌≡◌, ◌+◌, ◌^◌, ◌<◌, [], IfOk, List, length, ℕ};
ghost use Rattle.mqb_commands.specs.Cuts.{held_at};
ghost use Rattle.mqb_commands.specs.Viewing.{IsOpen, ShowCause, ShowsBytes, ShowsFrame, end_of};

use crate::lines::line_of;
use crate::shown_faults::ShowFault;
use crate::write_all;
use mqb_base::Memory;
use mqb_outside::Sink;
use mqb_packet::{MAX_PACKET, view};
use mqb_serving::PeerFault;
use mqb_stream::{Framer, Full, Next};
use std::alloc::Global;

/// Cuts what comes into packets and writes a line for each.
#[derive(Debug, Drop)]
pub(crate) struct Viewer {
    framer: Framer,
    // the place of the present packet in the stream
    place: u64,
    ghost same: { place ≡ framer.place },
}

/// Writes the line of the packet that a frame at a place of the stream is.
fn show_frame<K: Sink>(
    alloc: Global,
    place: u64,
    frame: &[u8],
    out: &mut K,
) -> Result<(), ShowFault>
    ensures shown { ShowsFrame place frame.now (K.taken out.old) (K.taken out.new) result }
    ensures cause { ShowCause (K.write_faults out.old) (K.write_faults out.new) result }
{
    let packet = match view(frame) {
        Ok(packet) => packet,
        Err(fault) => return Err(ShowFault::Peer(PeerFault::Bad { place, fault })),
    };
    let line = line_of(alloc, place, frame.len(), &packet)?;
    match write_all(out, &line) {
        Ok(()) => Ok(()),
        Err(_) => Err(ShowFault::WriteFault),
    }
}

impl Viewer {
    /// A viewer to which nothing came yet.
    pub(crate) fn new(alloc: Global) -> Result<Viewer, Memory>
        ensures { IfOk result (λ viewer. viewer.framer ≡ held_at 0 []) }
    {
        Ok(Viewer {
            framer: Framer::new(alloc, MAX_PACKET)?,
            place: 0,
        })
    }

    /// What is said where no more bytes come.
    pub(crate) fn end(&self) -> Result<(), ShowFault>
        ensures { result ≡ end_of self.now.framer.held }
    {
        if self.framer.held() > 0 {
            return Err(ShowFault::Peer(PeerFault::PeerClosed));
        }
        Ok(())
    }

    /// Shows the packet that it holds whole, where it does.
    fn show_held<K: Sink>(&mut self, alloc: Global, out: &mut K) -> Result<(), ShowFault>
        requires framer { self.old.framer ≡ held_at self.old.framer.place self.old.framer.held }
        requires fits { self.old.framer.place + length self.old.framer.held < 2 ^ 64 }
        ensures shown { (unread : List ℕ) → ShowsBytes self.old.framer self.new.framer unread unread
            (K.taken out.old) (K.taken out.new) result }
        ensures cause { ShowCause (K.write_faults out.old) (K.write_faults out.new) result }
    {
        let size = match self.framer.next() {
            Next::More { .. } => return Ok(()),
            Next::Bad { fault, place } => {
                return Err(ShowFault::Peer(PeerFault::Bad { place, fault }));
            }
            Next::Packet(frame) => match show_frame(alloc, self.place, frame, out) {
                Ok(()) => frame.len(),
                Err(why) => return Err(why),
            },
        };
        self.framer.advance();
        self.place += size as u64;
        Ok(())
    }

    /// Shows the packets that end in a piece.
    pub(crate) fn show_piece<K: Sink>(
        &mut self,
        alloc: Global,
        piece: &[u8],
        out: &mut K,
    ) -> Result<(), ShowFault>
        requires framer { self.old.framer ≡ held_at self.old.framer.place self.old.framer.held }
        requires open { IsOpen self.old.framer }
        requires fits { self.old.framer.place +
            (length self.old.framer.held + length piece.now) < 2 ^ 64 }
        ensures shown { ShowsBytes self.old.framer self.new.framer piece.now []
            (K.taken out.old) (K.taken out.new) result }
        ensures cause { ShowCause (K.write_faults out.old) (K.write_faults out.new) result }
    {
        let mut rest = piece;
        while !rest.is_empty() {
            match self.framer.feed(rest) {
                Ok(n) => (_, rest) = rest.split_at(n),
                Err(Full) => unreachable!(),
            }
            match self.show_held(alloc, out) {
                Ok(()) => {}
                Err(why) => return Err(why),
            }
        }
        Ok(())
    }
}
