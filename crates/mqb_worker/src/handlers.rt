ghost use Rattle.std.specs.Prelude.{◌≡◌, List, IfOk, ℕ};
ghost use Rattle.mqb_worker.specs.Work.{prefixed};

use mqb_base::{Bytes, Memory};
use std::alloc::Global;
use std::marker::Model;

/// What is made of the body of a message: a function of its bytes.
pub trait Handler {
    /// The function.
    ghost meaning: { Self → List ℕ → List ℕ };

    /// The body of the reply to a body.
    fn answer(&self, alloc: Global, body: &[u8]) -> Result<Bytes, Memory>
        ensures { IfOk result (λ reply. reply ≡ meaning self.now body.now) };
}

/// Answers with its bytes, and the body behind them. Contracts see its bytes.
#[derive(Debug, Drop)]
pub struct Prefix {
    bytes: Bytes,
}

impl Model for Prefix {
    ghost use Rattle.std.specs.Prelude.{List, ℕ};

    ghost Value = { List ℕ };

    ghost view = { λ p. p.bytes };
}

impl Prefix {
    /// A copy of these bytes.
    pub fn new(alloc: Global, bytes: &[u8]) -> Result<Prefix, Memory>
        ensures { IfOk result (λ prefix. prefix ≡ bytes.now) }
    {
        Ok(Prefix {
            bytes: Bytes::from_slice(alloc, bytes)?,
        })
    }
}

impl Handler for Prefix {
    ghost meaning = { prefixed };

    fn answer(&self, alloc: Global, body: &[u8]) -> Result<Bytes, Memory> {
        let mut reply = Vec::from_slice(alloc, self.bytes.as_slice())?;
        reply.extend_from_slice(body)?;
        Bytes::from_slice(alloc, &reply)
    }
}
