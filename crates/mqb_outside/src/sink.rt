ghost use Rattle.std.specs.Prelude.{◌≡◌, ◌<◌, ◌≤◌, ℕ, List, [], Option, Some, None, length, take};
ghost use Rattle.std.specs.Prelude.{IfOk, OnErr};
ghost use Rattle.mqb_outside.specs.Told.{Took, Writes};
ghost use Rattle.mqb_outside.specs.Faults.{HasCause};

use crate::calls::Calls;
use mqb_base::{Failed, Memory};
use std::alloc::Global;
use std::io;

/// Where bytes go.
pub trait Sink {
    /// What it has taken, where it is told.
    ghost taken: { Self → Option (List ℕ) };

    /// How often it has failed.
    ghost write_faults: { Self → ℕ };

    /// Takes a front of `bytes`, and says how much of it: at least one byte, where there is one.
    fn write(&mut self, bytes: &[u8]) -> Result<usize, Failed>
        ensures within { IfOk result (λ n. n ≤ length bytes.now) }
        ensures some { IfOk result (λ n. 0 < length bytes.now → 0 < n) }
        ensures took { IfOk result
            (λ n. Took (taken self.old) (taken self.new) (take n bytes.now)) }
        ensures unchanged { OnErr result (taken self.new ≡ taken self.old) }
        ensures cause { HasCause (write_faults self.old) (write_faults self.new) result };
}

/// A sink that keeps what it takes.
#[derive(Debug, Drop)]
pub struct MemorySink {
    bytes: Vec<u8>,
    calls: Calls,
}

impl MemorySink {
    ghost use Rattle.mqb_outside.specs.Plans.{planned};
    ghost use Rattle.mqb_outside.specs.Forms.{writes_of};

    /// It has taken nothing, and fails at the calls that `failing` names, counted from 1, and
    /// where memory runs out.
    pub fn new(alloc: Global, failing: &[u32]) -> Result<MemorySink, Memory>
        ensures taken { IfOk result (λ sink. ⟦<MemorySink as Sink>⟧.taken sink ≡ Some []) }
        ensures faults { IfOk result (λ sink. ⟦<MemorySink as Sink>⟧.write_faults sink ≡ 0) }
        ensures plan { IfOk result (λ sink. writes_of sink ≡ planned failing.now) }
    {
        Ok(MemorySink {
            bytes: Vec::new(alloc),
            calls: Calls::new(alloc, failing)?,
        })
    }

    /// What it has taken.
    pub fn as_slice(&self) -> &[u8]
        ensures { ⟦<MemorySink as Sink>⟧.taken self.now ≡ Some result.now }
    {
        self.bytes.as_slice()
    }
}

impl Sink for MemorySink {
    ghost use Rattle.std.specs.Prelude.{IsErr, IsTrue};
    ghost use Rattle.mqb_outside.specs.Plans.{is_to_fail, called};
    ghost use Rattle.mqb_outside.specs.Forms.{taken_by, write_faults_of, writes_of};

    ghost taken = { taken_by };

    ghost write_faults = { write_faults_of };

    fn write(&mut self, bytes: &[u8]) -> Result<usize, Failed>
        ensures fails { IsTrue (is_to_fail (writes_of self.old)) → IsErr result }
        ensures called { writes_of self.new ≡ called (writes_of self.old) }
        ensures writes { Writes (taken_by self.old) (taken_by self.new) bytes.now result }
        ensures all { IfOk result (λ n. n ≡ length bytes.now) }
        ensures cause { HasCause (write_faults_of self.old) (write_faults_of self.new) result }
    {
        if self.calls.next_fails() {
            return Err(Failed);
        }
        if self.bytes.extend_from_slice(bytes).is_err() {
            self.calls.fault();
            return Err(Failed);
        }
        Ok(bytes.len())
    }
}

/// A sink over a writer of std, such as standard output. It does not tell what it has taken.
#[derive(Drop)]
pub struct StdSink<W: io::Write + Drop> {
    writer: W,
    faults: u64,
}

impl<W: io::Write + Drop> StdSink<W> {
    pub fn new(writer: W) -> StdSink<W>
        ensures { ⟦<StdSink<W> as Sink>⟧.write_faults result ≡ 0 }
    {
        StdSink { writer, faults: 0 }
    }
}

impl<W: io::Write + Drop> Sink for StdSink<W> {
    ghost taken = { λ _. None };

    ghost write_faults = { λ s. s.faults };

    fn write(&mut self, bytes: &[u8]) -> Result<usize, Failed> {
        match self.writer.write(bytes) {
            Ok(n) if n > 0 || bytes.is_empty() => Ok(n),
            _ => {
                self.faults = self.faults.saturating_add(1);
                Err(Failed)
            }
        }
    }
}
