ghost use Rattle.std.specs.Prelude.{◌≡◌};
ghost use Rattle.mqb_packet.specs.Plain.{carriage_of};

use mqb_base::{Guid, Message, SessionHead, TxHead};
use mqb_setup::{Establish, Parameters};

/// What a user packet has beside its message: the manager to which it goes, the seconds that are
/// left for its message to reach its queue, and its headers.
#[derive(Clone, Copy, Debug, PartialEq, Eq)]
pub struct Carriage {
    pub to: Guid,
    pub remaining: u32,
    pub tx: Option<TxHead>,
    pub session: Option<SessionHead>,
}

/// Which headers are counted with a message's own: none, a session header, or a transaction header
/// and a session header.
#[derive(Clone, Copy, Debug, PartialEq, Eq)]
pub enum Headers {
    Bare,
    Session,
    TxAndSession,
}

/// A message on its way to the manager `to`. `remaining` is the seconds that are left for it to
/// reach its queue, of which 0xFFFFFFFF are without limit.
#[derive(Clone, Debug, PartialEq, Eq, Drop)]
pub struct UserPacket {
    pub message: Message,
    pub to: Guid,
    pub remaining: u32,
    pub tx: Option<TxHead>,
    pub session: Option<SessionHead>,
}

impl UserPacket {
    pub(crate) fn carriage(&self) -> Carriage
        ensures { result ≡ carriage_of self.now }
    {
        Carriage {
            to: self.to,
            remaining: self.remaining,
            tx: self.tx,
            session: self.session,
        }
    }
}

/// A packet. The last three are internal ones, of which `Ack` carries a session header alone.
#[derive(Clone, Debug, PartialEq, Eq, Drop)]
pub enum Packet {
    User(UserPacket),
    Establish(Establish),
    Parameters(Parameters),
    Ack(SessionHead),
}
