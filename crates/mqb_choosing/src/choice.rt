ghost use Rattle.std.specs.Prelude.{◌≡◌, ◌≤◌, IsSome, Some, length};
ghost use Rattle.mqb_base.specs.declared.roomed.TheConstants.{MAX_MEMBERS};
ghost use Rattle.mqb_plain.specs.Lists.{InOrder, messages_of};
ghost use Rattle.mqb_plain.specs.Plain.{outgoing_in};
ghost use Rattle.mqb_model.specs.calls.pump.Choosing.{headers_for};
ghost use Rattle.mqb_choosing.specs.Choices.{kind_for, message_at, tx_for};

use mqb_base::{Lane, Message, SessionHead, TxHead};
use mqb_contents::Contents;
use mqb_packet::Headers;
use mqb_plain::PlainOut;
use mqb_session::Kind;

/// Where a packet comes from, and where its message stands.
#[derive(Debug, Drop)]
pub enum Origin {
    /// The incoming row at an index owes this acknowledgement, which was made for the packet.
    Owed { row: u32, message: Message },
    /// It waits for the peer at an index, at an index of its lane.
    Waiting { peer: u32, lane: Lane, index: u32 },
    /// The outgoing row at an index keeps it at an index. The header has its number, and
    /// the kept one before it.
    Kept { row: u32, index: u32, tx: TxHead },
}

/// The plain messages of a lane, in order.
pub(crate) fn messages_in(plain: &PlainOut, lane: Lane) -> &[Message]
    ensures messages { result.now ≡ messages_of (outgoing_in lane plain.now.lists) }
    ensures in_order { InOrder (outgoing_in lane plain.now.lists) }
    ensures few { length result.now ≤ MAX_MEMBERS }
{
    let _count = plain.len();
    match lane {
        Lane::Durable => plain.recoverable(),
        Lane::Express => plain.express(),
    }
}

impl Origin {
    /// The kind of its packet: recoverable messages have a numbering of their own.
    pub(crate) fn kind(&self) -> Kind
        ensures { result ≡ kind_for self.now }
    {
        match self {
            Origin::Waiting {
                lane: Lane::Durable,
                ..
            } => Kind::Recoverable,
            _ => Kind::Plain,
        }
    }

    /// The headers of its packet.
    pub(crate) fn headers(&self) -> Headers
        ensures { result ≡ headers_for (tx_for self.now) }
    {
        match self {
            Origin::Kept { .. } => Headers::TxAndSession,
            _ => Headers::Session,
        }
    }

    /// Its message.
    pub(crate) fn message<'a>(&'a self, contents: &'a Contents) -> &'a Message
        requires { IsSome (message_at contents.now.lists self.now) }
        ensures { message_at contents.now.lists self.now ≡ Some result.now }
    {
        match self {
            Origin::Owed { message, .. } => message,
            Origin::Waiting { peer, lane, index } => {
                &messages_in(contents.plain(*peer), *lane)[*index as usize]
            }
            Origin::Kept { row, index, .. } => &contents.out(*row).kept.get(*index).message,
        }
    }
}

/// A packet that goes, and the header of the session that it goes with.
#[derive(Debug, Drop)]
pub struct Choice {
    pub origin: Origin,
    pub head: SessionHead,
}
