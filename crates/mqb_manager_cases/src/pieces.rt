//! Bytes in memory that come in pieces.
ghost use Rattle.std.specs.Prelude.{None};

use mqb_base::{Failed, Memory};
use mqb_outside::{MemorySource, Source};
use std::alloc::Global;

/// What comes, and how.
#[derive(Clone, Copy)]
pub(crate) struct Coming<'a> {
    pub(crate) bytes: &'a [u8],
    /// How long the first piece is at most. None is empty.
    pub(crate) first: usize,
    /// How long each other piece is at most.
    pub(crate) rest: usize,
    /// The numbers of the calls that fail, each counted from 1.
    pub(crate) failing_reads: &'a [u32],
    pub(crate) failing_writes: &'a [u32],
}

impl<'a> Coming<'a> {
    /// All at once, and no call fails.
    pub(crate) fn whole(bytes: &'a [u8]) -> Coming<'a> {
        Coming {
            bytes,
            first: usize::MAX,
            rest: usize::MAX,
            failing_reads: &[],
            failing_writes: &[],
        }
    }
}

/// A source over bytes that come in pieces.
#[derive(Drop)]
pub(crate) struct Pieces {
    source: MemorySource,
    next: usize,
    rest: usize,
}

impl Pieces {
    pub(crate) fn new(alloc: Global, coming: Coming<'_>) -> Result<Pieces, Memory> {
        Ok(Pieces {
            source: MemorySource::new(alloc, coming.bytes, coming.failing_reads)?,
            next: coming.first,
            rest: coming.rest,
        })
    }
}

impl Source for Pieces {
    ghost held = { λ _. None };

    ghost read_faults = { λ p. ⟦<MemorySource as Source>⟧.read_faults p.source };

    fn read(&mut self, buf: &mut [u8]) -> Result<usize, Failed> {
        let most = self.next.min(buf.len());
        self.next = self.rest;
        self.source.read(&mut buf[..most])
    }
}
