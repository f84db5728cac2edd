//! The packets of one way, byte by byte.
ghost use Rattle.std.specs.Prelude.{◌≡◌, ◌+◌, ◌∷◌, ◌++◌, ◌<◌, ◌≤◌, ◌^◌, [], IfOk, OnOk};
ghost use Rattle.std.specs.Prelude.{length, true};
ghost use Rattle.mqb_heads.specs.declared.base.TheConstants.{MAX_PACKET};
ghost use Rattle.mqb_inspect.specs.Cutting.{Comes, IsReadAs, fed_byte, held_behind, wants_behind};
ghost use Rattle.mqb_stream.specs.Framing.{next, wants_more};

use mqb_base::Memory;
use mqb_fields::HeadFault;
use mqb_packet::{Packet, to_owned, view};
use mqb_stream::{Framer, Next};
use std::alloc::Global;

/// What a byte completes.
#[derive(Debug, Drop)]
pub enum Came {
    Nothing,
    /// Bytes that are no packet.
    Bad { fault: HeadFault },
    Packet(Packet),
}

/// What a frame is.
fn read_frame(alloc: Global, frame: &[u8]) -> Result<Came, Memory>
    ensures { IfOk result (IsReadAs frame.now) }
{
    match view(frame) {
        Ok(packet) => Ok(Came::Packet(to_owned(alloc, &packet)?)),
        Err(fault) => Ok(Came::Bad { fault }),
    }
}

/// What is held now.
fn look(alloc: Global, framer: &Framer) -> Result<Came, Memory>
    ensures { IfOk result (Comes (next framer.now)) }
{
    match framer.next() {
        Next::More { .. } => Ok(Came::Nothing),
        Next::Bad { fault, .. } => Ok(Came::Bad { fault }),
        Next::Packet(frame) => read_frame(alloc, frame),
    }
}

/// A byte joins what is held.
#[tactic(auto, using(crate::proofs::Coming::fed_is))]
fn feed_byte(framer: &mut Framer, byte: u8)
    requires limit { framer.old.limit ≡ MAX_PACKET }
    requires wants { wants_more (next framer.old) ≡ true }
    requires few { framer.old.place + length framer.old.held < 2 ^ 32 }
    ensures { framer.new ≡ fed_byte framer.old byte }
{
    let Ok(_count) = framer.feed(&[byte]) else {
        unreachable!()
    };
}

/// Takes a byte, and answers what it completes. A packet is held no more then.
#[tactic(auto, using(crate::proofs::Coming::comes_whole, crate::proofs::Coming::comes_wants, crate::proofs::Coming::wants_empty))]
pub fn take_byte(alloc: Global, framer: &mut Framer, byte: u8) -> Result<Came, Memory>
    requires limit { framer.old.limit ≡ MAX_PACKET }
    requires wants { wants_more (next framer.old) ≡ true }
    requires few { framer.old.place + length framer.old.held < 2 ^ 32 }
    ensures comes { IfOk result (Comes (next (fed_byte framer.old byte))) }
    ensures held { IfOk result (λ came. framer.new.held ≡
        held_behind came (framer.old.held ++ byte ∷ [])) }
    ensures wants { IfOk result (λ came. wants_behind came ≡ true →
        wants_more (next framer.new) ≡ true) }
    ensures limit { OnOk result (framer.new.limit ≡ MAX_PACKET) }
    ensures few { framer.new.place + length framer.new.held ≤
        framer.old.place + length framer.old.held + 1 }
{
    feed_byte(framer, byte);
    match look(alloc, framer)? {
        Came::Nothing => Ok(Came::Nothing),
        Came::Bad { fault } => Ok(Came::Bad { fault }),
        Came::Packet(packet) => {
            framer.advance();
            Ok(Came::Packet(packet))
        }
    }
}
