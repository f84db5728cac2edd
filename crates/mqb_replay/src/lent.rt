//! A source over a text that is lent, and a sink that keeps nothing.
ghost use Rattle.std.specs.Prelude.{◌≡◌, None, Some};

use mqb_base::Failed;
use mqb_outside::{Sink, Source};

/// A source that gives a text and does not fail.
#[derive(Debug, Drop)]
pub(crate) struct LentSource<'t> {
    rest: &'t [u8],
}

impl<'t> LentSource<'t> {
    pub(crate) fn new(text: &'t [u8]) -> LentSource<'t>
        ensures held { ⟦<LentSource<'t> as Source>⟧.held result ≡ Some text.now }
        ensures faults { ⟦<LentSource<'t> as Source>⟧.read_faults result ≡ 0 }
    {
        LentSource { rest: text }
    }
}

impl<'t> Source for LentSource<'t> {
    ghost held = { λ s. Some s.rest.now };

    ghost read_faults = { λ s. 0 };

    fn read(&mut self, buf: &mut [u8]) -> Result<usize, Failed> {
        let n = self.rest.len().min(buf.len());
        let (front, rest) = self.rest.split_at(n);
        buf[..n].copy_from_slice(front);
        self.rest = rest;
        Ok(n)
    }
}

/// A sink that keeps nothing of what it takes, and does not fail.
#[derive(Debug, Drop)]
pub(crate) struct Nowhere;

impl Sink for Nowhere {
    ghost taken = { λ s. None };

    ghost write_faults = { λ s. 0 };

    fn write(&mut self, bytes: &[u8]) -> Result<usize, Failed> {
        Ok(bytes.len())
    }
}
