ghost use Rattle.std.specs.Prelude.{◌≡◌};
ghost use Rattle.mqb_timeouts.specs.Noting.{CanNote, origin_of};
ghost use Rattle.mqb_model.specs.managers.Beside.{noted_as};

use mqb_base::SessionHead;
use mqb_contents::Contents;

/// Where a packet that was sent to a peer came from.
#[derive(Clone, Copy, Debug, PartialEq, Eq)]
pub enum Origin {
    /// The incoming row at an index owed the acknowledgement that it is.
    Owed { row: u32 },
    OfRecoverable,
    OfExpress,
    /// The outgoing row at an index keeps its message under a number.
    OfRow { row: u32, number: u32 },
}

/// A packet was sent to a peer with this session header: an acknowledgement took an express number,
/// and a plain message counts as sent. That takes no memory.
pub fn note_sent(contents: &mut Contents, peer: u32, origin: Origin, head: &SessionHead)
    requires { CanNote peer head.now contents.old.lists (origin_of origin) }
    ensures lists { contents.new.lists ≡
        noted_as peer head.now contents.old.lists (origin_of origin) }
    ensures rooms { contents.new.rooms ≡ contents.old.rooms }
{
    match origin {
        Origin::Owed { .. } => contents.take_express_number(),
        Origin::OfRecoverable | Origin::OfExpress => contents.mark_sent(peer, head),
        Origin::OfRow { .. } => {}
    }
}
