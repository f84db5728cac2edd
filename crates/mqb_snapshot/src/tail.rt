ghost use Rattle.std.specs.Prelude.{◌≡◌, ◌<◌, ◌++◌, ◌^◌, [], length, replicate, IfOk, OnErr, OnOk};

use mqb_base::Memory;
use std::marker::Model;

/// Bytes that are added to a list, and can be taken back. Contracts see what stood
/// before, and what was added.
#[derive(Debug, Drop)]
pub(crate) struct Tail {
    pub(crate) bytes: Vec<u8>,
    start: usize,
}

impl Model for Tail {
    ghost use Rattle.std.specs.Prelude.{◌≤◌, drop, take, vec_len};
    ghost use Rattle.mqb_snapshot.specs.Tails.{Added};

    ghost Value = { Added };

    ghost view = { λ t.
        record { front = take t.start t.bytes.items; text = drop t.start t.bytes.items } };

    ghost invariant = { λ t. t.start ≤ vec_len t.bytes };
}

/// Adds zeros, and tells where they start.
pub(crate) fn add_zeros(out: &mut Vec<u8>, count: usize) -> Result<usize, Memory>
    requires { count < 2 ^ 40 }
    ensures room { OnOk result (out.new.items ≡ out.old.items ++ replicate count 0) }
    ensures start { IfOk result (λ start. start ≡ length out.old.items) }
    ensures stays { OnErr result (out.new.items ≡ out.old.items) }
{
    let start = out.len();
    out.resize(start + count, 0)?;
    Ok(start)
}

impl Tail {
    /// Nothing is added to these bytes yet.
    pub(crate) fn new(bytes: Vec<u8>) -> Tail
        ensures { result ≡ record { front = bytes.items; text = [] } }
    {
        let start = bytes.len();
        Tail { bytes, start }
    }

    /// All bytes.
    pub(crate) fn into_whole(self) -> Vec<u8>
        ensures { result.items ≡ self.front ++ self.text }
    {
        self.bytes
    }

    /// The bytes that stood before.
    pub(crate) fn into_front(mut self) -> Vec<u8>
        ensures { result.items ≡ self.front }
    {
        self.bytes.truncate(self.start);
        self.bytes
    }

    pub(crate) fn put(&mut self, bytes: &[u8]) -> Result<(), Memory>
        ensures added { OnOk result (self.new.text ≡ self.old.text ++ bytes.now) }
        ensures front { self.new.front ≡ self.old.front }
    {
        self.bytes.extend_from_slice(bytes)?;
        Ok(())
    }
}
