ghost use Rattle.std.specs.Prelude.{◌≡◌};
ghost use Rattle.mqb_plain.specs.Plain.{no_plain, no_room};

use mqb_base::Identity;
use mqb_plain::PlainOut;
use std::alloc::Global;
use std::marker::Model;

/// A peer for which no plain message waits, which is to join the others or was the last of them.
/// Contracts see who it is, and the rooms of its plain messages.
#[derive(Debug, Drop)]
pub struct NewPeer {
    identity: Identity,
    plain: PlainOut,
}

impl Model for NewPeer {
    ghost use Rattle.std.specs.Prelude.{◌≡◌};
    ghost use Rattle.mqb_contents.specs.Rows.{EmptyPeer};
    ghost use Rattle.mqb_plain.specs.Plain.{no_plain};

    ghost Value = { EmptyPeer };

    ghost view = { λ n. record { identity = n.identity; rooms = n.plain.rooms } };

    ghost invariant = { λ n. n.plain.lists ≡ no_plain };
}

impl NewPeer {
    /// A peer without room.
    pub fn new(alloc: Global, identity: Identity) -> NewPeer
        ensures { result ≡ record { identity = identity; rooms = no_room } }
    {
        NewPeer {
            identity,
            plain: PlainOut::new(alloc),
        }
    }

    pub(crate) fn from_parts(identity: Identity, plain: PlainOut) -> NewPeer
        requires { plain.lists ≡ no_plain }
        ensures { result ≡ record { identity = identity; rooms = plain.rooms } }
    {
        NewPeer { identity, plain }
    }

    pub(crate) fn into_parts(self) -> (Identity, PlainOut)
        ensures identity { result.0 ≡ self.identity }
        ensures plain { result.1 ≡ record { lists = no_plain; rooms = self.rooms } }
    {
        (self.identity, self.plain)
    }
}
