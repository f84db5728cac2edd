ghost use Rattle.std.specs.Prelude.{[], ◌∷◌, ◌≡◌, None, IfOk, OnErr};

use mqb_base::Failed;
use mqb_outside::{Conn, Sink, Source};

/// A connection over an input and an output.
#[derive(Drop)]
pub(crate) struct Piped<'a, S: Source, K: Sink> {
    pub(crate) input: &'a mut S,
    pub(crate) out: &'a mut K,
}

impl<'a, S: Source, K: Sink> Source for Piped<'a, S, K> {
    ghost held = { λ p. S.held p.input.now };

    ghost read_faults = { λ p. S.read_faults p.input.now };

    fn read(&mut self, buf: &mut [u8]) -> Result<usize, Failed> {
        self.input.read(buf)
    }
}

impl<'a, S: Source, K: Sink> Sink for Piped<'a, S, K> {
    ghost taken = { λ p. K.taken p.out.now };

    ghost write_faults = { λ p. K.write_faults p.out.now };

    fn write(&mut self, bytes: &[u8]) -> Result<usize, Failed> {
        self.out.write(bytes)
    }
}

impl<'a, S: Source, K: Sink> Conn for Piped<'a, S, K> {
    ghost given = { λ _. None };

    ghost address = { λ _. None };

    ghost lent = { λ p. p.input.ghost_name ∷ p.out.ghost_name ∷ [] };

    fn receive(&mut self, buf: &mut [u8]) -> Result<usize, Failed> {
        self.input.read(buf)
    }

    fn send(&mut self, bytes: &[u8]) -> Result<usize, Failed> {
        self.out.write(bytes)
    }
}
