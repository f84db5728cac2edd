ghost use Rattle.std.specs.Prelude.{◌≡◌, ◌<◌, ◌≤◌, ℕ, List, [], Option, None, length, take, min};
ghost use Rattle.std.specs.Prelude.{vec_len, IfOk, IfSome, OnErr};
ghost use Rattle.mqb_outside.specs.Told.{Gave};
ghost use Rattle.mqb_outside.specs.Faults.{HasCause};

use crate::calls::Calls;
use mqb_base::{Failed, Memory};
use std::alloc::Global;
use std::io;

/// Where bytes come from.
pub trait Source {
    /// What is still to come, where it is told.
    ghost held: { Self → Option (List ℕ) };

    /// How often it has failed.
    ghost read_faults: { Self → ℕ };

    /// Fills the front of `buf`, and says how much of it. For a `buf` that is not empty, 0
    /// is the end of input.
    fn read(&mut self, buf: &mut [u8]) -> Result<usize, Failed>
        ensures within { IfOk result (λ n. n ≤ length buf.old) }
        ensures gave { IfOk result (λ n. Gave (held self.old) (held self.new) (take n buf.new)) }
        ensures ended { IfOk result (λ n. n ≡ 0 → 0 < length buf.old
            → IfSome (held self.old) (λ rest. rest ≡ [])) }
        ensures unchanged { OnErr result (held self.new ≡ held self.old) }
        ensures cause { HasCause (read_faults self.old) (read_faults self.new) result };
}

/// A source over bytes in memory.
#[derive(Debug, Drop)]
pub struct MemorySource {
    bytes: Vec<u8>,
    at: usize,
    calls: Calls,
    ghost within: { at ≤ vec_len bytes },
}

impl MemorySource {
    ghost use Rattle.mqb_outside.specs.Plans.{planned};
    ghost use Rattle.mqb_outside.specs.Forms.{reads_of};

    /// It holds a copy of `bytes`, and fails at the calls that `failing` names, counted from 1.
    pub fn new(alloc: Global, bytes: &[u8], failing: &[u32]) -> Result<MemorySource, Memory>
        ensures held { IfOk result
            (λ source. ⟦<MemorySource as Source>⟧.held source ≡ Some bytes.now) }
        ensures faults { IfOk result (λ source. ⟦<MemorySource as Source>⟧.read_faults source ≡ 0) }
        ensures plan { IfOk result (λ source. reads_of source ≡ planned failing.now) }
    {
        Ok(MemorySource {
            bytes: Vec::from_slice(alloc, bytes)?,
            at: 0,
            calls: Calls::new(alloc, failing)?,
        })
    }
}

fn copy_front(from: &[u8], to: &mut [u8]) -> usize
    ensures count { result ≡ min (length from.now) (length to.old) }
    ensures front { take result to.new ≡ take result from.now }
{
    let n = from.len().min(to.len());
    to[..n].copy_from_slice(&from[..n]);
    n
}

impl Source for MemorySource {
    ghost use Rattle.mqb_outside.specs.Forms.{held_in, read_faults_of, reads_of};

    ghost held = { held_in };

    ghost read_faults = { read_faults_of };

    ghost use Rattle.std.specs.Prelude.{◌↔◌, IsErr, IsTrue};
    ghost use Rattle.mqb_outside.specs.Plans.{is_to_fail, called};

    #[tactic(auto, using(crate::proofs::Pieces::drop_is_take_drop))]
    fn read(&mut self, buf: &mut [u8]) -> Result<usize, Failed>
        ensures fails { IsErr result ↔ IsTrue (is_to_fail (reads_of self.old)) }
        ensures called { reads_of self.new ≡ called (reads_of self.old) }
        ensures within { IfOk result (λ n. n ≤ length buf.old) }
        ensures gave { IfOk result
            (λ n. Gave (held_in self.old) (held_in self.new) (take n buf.new)) }
        ensures ended { IfOk result (λ n. n ≡ 0 → 0 < length buf.old
            → IfSome (held_in self.old) (λ rest. rest ≡ [])) }
        ensures unchanged { OnErr result (held_in self.new ≡ held_in self.old) }
        ensures cause { HasCause (read_faults_of self.old) (read_faults_of self.new) result }
    {
        if self.calls.next_fails() {
            return Err(Failed);
        }
        let (_, rest) = self.bytes.split_at(self.at);
        let n = copy_front(rest, buf);
        self.at += n;
        Ok(n)
    }
}

/// A source over a reader of std, such as standard input. It does not tell what it holds.
#[derive(Drop)]
pub struct StdSource<R: io::Read + Drop> {
    reader: R,
    faults: u64,
}

impl<R: io::Read + Drop> StdSource<R> {
    pub fn new(reader: R) -> StdSource<R>
        ensures { ⟦<StdSource<R> as Source>⟧.read_faults result ≡ 0 }
    {
        StdSource { reader, faults: 0 }
    }
}

impl<R: io::Read + Drop> Source for StdSource<R> {
    ghost held = { λ _. None };

    ghost read_faults = { λ s. s.faults };

    fn read(&mut self, buf: &mut [u8]) -> Result<usize, Failed> {
        match self.reader.read(buf) {
            Ok(n) => Ok(n),
            Err(_) => {
                self.faults = self.faults.saturating_add(1);
                Err(Failed)
            }
        }
    }
}
