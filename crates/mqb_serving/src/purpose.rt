ghost use Rattle.std.specs.Prelude.{◌≡◌};
ghost use Rattle.mqb_serving.specs.Conversations.{role_of};

use mqb_model::Role;

/// What a peer is reached for.
#[derive(Clone, Copy, Debug, PartialEq, Eq)]
pub enum Errand {
    /// It is to take what waits for it: the connection ends as soon as nothing
    /// for it is outstanding.
    Push,
    /// It is to give what waits at it, too: the connection ends where no more bytes come.
    Fetch,
}

/// What a connection is for.
#[derive(Clone, Copy, Debug, PartialEq, Eq)]
pub enum Purpose {
    /// A peer made it, and asks for a session. It ends where no more bytes come.
    Serve,
    /// The peer at an index is asked for a session.
    Reach { errand: Errand, peer: u32 },
}

impl Purpose {
    /// Which end the manager is.
    pub fn role(self) -> Role
        ensures { result ≡ role_of self }
    {
        match self {
            Purpose::Serve => Role::Acceptor,
            Purpose::Reach { peer, .. } => Role::Initiator { peer },
        }
    }
}
