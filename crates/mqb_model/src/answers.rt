ghost use Rattle.std.specs.Prelude.{◌≡◌};

use mqb_base::{Message, MessageId, SequenceId};
use std::marker::Model;

/// What became of one op of a transaction: its message joined a sequence under a number, was put
/// into a queue here, or was taken.
#[derive(Debug, PartialEq, Eq, Drop)]
pub enum Done {
    Sent {
        id: MessageId,
        sequence: SequenceId,
        number: u32,
    },
    Put(MessageId),
    Took(Message),
}

/// A transaction that was made. Contracts see what became of its ops, one for each.
#[derive(Debug, Drop)]
pub struct Committed {
    done: Vec<Done>,
}

impl Model for Committed {
    ghost use Rattle.std.specs.Prelude.{List};
    ghost use Rattle.mqb_model.specs.declared.answers.Done.{Done};

    ghost Value = { List Done };

    ghost view = { λ c. c.done.items };
}

impl Committed {
    /// A transaction whose ops came to this.
    pub fn new(done: Vec<Done>) -> Committed
        ensures { result ≡ done.items }
    {
        Committed { done }
    }

    pub fn done(&self) -> &[Done]
        ensures { result.now ≡ self.now }
    {
        self.done.as_slice()
    }
}

/// Which end of a session a manager is: it asks the peer at an index, or waits to be asked.
#[derive(Clone, Copy, Debug, PartialEq, Eq)]
pub enum Role {
    Initiator { peer: u32 },
    Acceptor,
}

/// How many messages left in a tick.
#[derive(Clone, Copy, Debug, PartialEq, Eq)]
pub struct Ticked {
    pub durable: u64,
    pub express: u64,
}
