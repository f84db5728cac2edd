ghost use Rattle.std.specs.Prelude.{◌≡◌, ◌↔◌, ◌+◌, ◌<◌, ◌≤◌, [], Some, None, IsTrue, IsErr};
ghost use Rattle.std.specs.Prelude.{IfOk, length};
ghost use Rattle.mqb_outside.specs.Told.{Reads, Writes};
ghost use Rattle.mqb_outside.specs.Faults.{HasCause};

use crate::conn::Conn;
use crate::{MemorySink, MemorySource, Sink, Source};
use mqb_base::{Bytes, Failed, Memory};
use std::alloc::Global;

/// A connection over bytes in memory, which keeps what is sent on it.
#[derive(Debug, Drop)]
pub struct MemoryConn {
    source: MemorySource,
    sink: MemorySink,
    given: Bytes,
    address: Option<[u8; 4]>,
    read_faults: u64,
    write_faults: u64,
}

impl MemoryConn {
    ghost use Rattle.mqb_outside.specs.Plans.{planned, is_to_fail, called};
    ghost use Rattle.mqb_outside.specs.Conns.{held_by, taken_on, reads_of, writes_of};

    /// It holds a copy of `bytes`. `failing_reads` and `failing_writes` are the numbers of the
    /// calls that fail, each counted from 1.
    pub fn new(
        alloc: Global,
        bytes: &[u8],
        failing_reads: &[u32],
        failing_writes: &[u32],
    ) -> Result<MemoryConn, Memory>
        ensures held { IfOk result (λ conn. ⟦<MemoryConn as Source>⟧.held conn ≡ Some bytes.now) }
        ensures given { IfOk result (λ conn. ⟦<MemoryConn as Conn>⟧.given conn ≡ Some bytes.now) }
        ensures taken { IfOk result (λ conn. ⟦<MemoryConn as Sink>⟧.taken conn ≡ Some []) }
        ensures read_faults { IfOk result (λ conn. ⟦<MemoryConn as Source>⟧.read_faults conn ≡ 0) }
        ensures write_faults { IfOk result (λ conn. ⟦<MemoryConn as Sink>⟧.write_faults conn ≡ 0) }
        ensures address { IfOk result (λ conn. ⟦<MemoryConn as Conn>⟧.address conn ≡ None) }
        ensures reads { IfOk result (λ conn. reads_of conn ≡ planned failing_reads.now) }
        ensures writes { IfOk result (λ conn. writes_of conn ≡ planned failing_writes.now) }
    {
        Ok(MemoryConn {
            source: MemorySource::new(alloc, bytes, failing_reads)?,
            sink: MemorySink::new(alloc, failing_writes)?,
            given: Bytes::from_slice(alloc, bytes)?,
            address: None,
            read_faults: 0,
            write_faults: 0,
        })
    }

    /// The same connection, to this address.
    pub(crate) fn to_address(self, address: [u8; 4]) -> MemoryConn
        ensures { result ≡ record self { address = Some address } }
    {
        MemoryConn {
            address: Some(address),
            ..self
        }
    }

    /// Whether one of its counts of faults is not 0.
    pub(crate) fn had_faults(&self) -> bool
        ensures { IsTrue result ↔ (0 < self.now.read_faults + self.now.write_faults) }
    {
        self.read_faults > 0 || self.write_faults > 0
    }

    // Reads of its source, and counts a fault.
    fn hear(&mut self, buf: &mut [u8]) -> Result<usize, Failed>
        ensures fails { IsErr result ↔ IsTrue (is_to_fail (reads_of self.old)) }
        ensures called { reads_of self.new ≡ called (reads_of self.old) }
        ensures reads { Reads (held_by self.old) (held_by self.new) buf.old buf.new result }
        ensures cause { HasCause self.old.read_faults self.new.read_faults result }
        ensures rest { self.new
            ≡ record self.old { source = self.new.source; read_faults = self.new.read_faults } }
    {
        let heard = self.source.read(buf);
        if heard.is_err() {
            self.read_faults = self.read_faults.saturating_add(1);
        }
        heard
    }

    // Writes to its sink, and counts a fault.
    fn tell(&mut self, bytes: &[u8]) -> Result<usize, Failed>
        ensures fails { IsTrue (is_to_fail (writes_of self.old)) → IsErr result }
        ensures called { writes_of self.new ≡ called (writes_of self.old) }
        ensures writes { Writes (taken_on self.old) (taken_on self.new) bytes.now result }
        ensures all { IfOk result (λ n. n ≡ length bytes.now) }
        ensures cause { HasCause self.old.write_faults self.new.write_faults result }
        ensures rest { self.new
            ≡ record self.old { sink = self.new.sink; write_faults = self.new.write_faults } }
    {
        let told = self.sink.write(bytes);
        if told.is_err() {
            self.write_faults = self.write_faults.saturating_add(1);
        }
        told
    }

    /// What was sent on it.
    pub fn sent(&self) -> &[u8]
        ensures { ⟦<MemoryConn as Sink>⟧.taken self.now ≡ Some result.now }
    {
        self.sink.as_slice()
    }
}

impl Source for MemoryConn {
    ghost use Rattle.mqb_outside.specs.Plans.{is_to_fail, called};
    ghost use Rattle.mqb_outside.specs.Conns.{held_by, read_faults_of, reads_of, writes_of};

    ghost held = { held_by };

    ghost read_faults = { read_faults_of };

    fn read(&mut self, buf: &mut [u8]) -> Result<usize, Failed>
        ensures fails { IsErr result ↔ IsTrue (is_to_fail (reads_of self.old)) }
        ensures called { reads_of self.new ≡ called (reads_of self.old) }
        ensures writes { writes_of self.new ≡ writes_of self.old }
        ensures reads { Reads (held_by self.old) (held_by self.new) buf.old buf.new result }
        ensures cause { HasCause (read_faults_of self.old) (read_faults_of self.new) result }
    {
        self.hear(buf)
    }
}

impl Sink for MemoryConn {
    ghost use Rattle.mqb_outside.specs.Plans.{is_to_fail, called};
    ghost use Rattle.mqb_outside.specs.Conns.{taken_on, reads_of, write_faults_of, writes_of};

    ghost taken = { taken_on };

    ghost write_faults = { write_faults_of };

    fn write(&mut self, bytes: &[u8]) -> Result<usize, Failed>
        ensures fails { IsTrue (is_to_fail (writes_of self.old)) → IsErr result }
        ensures called { writes_of self.new ≡ called (writes_of self.old) }
        ensures reads { reads_of self.new ≡ reads_of self.old }
        ensures writes { Writes (taken_on self.old) (taken_on self.new) bytes.now result }
        ensures cause { HasCause (write_faults_of self.old) (write_faults_of self.new) result }
    {
        self.tell(bytes)
    }
}

impl Conn for MemoryConn {
    ghost use Rattle.mqb_outside.specs.Plans.{is_to_fail, called};
    ghost use Rattle.mqb_outside.specs.Conns.{address_of, given_to, held_by, read_faults_of};
    ghost use Rattle.mqb_outside.specs.Conns.{reads_of, taken_on, write_faults_of, writes_of};

    ghost given = { given_to };

    ghost address = { address_of };

    fn receive(&mut self, buf: &mut [u8]) -> Result<usize, Failed>
        ensures fails { IsErr result ↔ IsTrue (is_to_fail (reads_of self.old)) }
        ensures called { reads_of self.new ≡ called (reads_of self.old) }
        ensures writes { writes_of self.new ≡ writes_of self.old }
        ensures reads { Reads (held_by self.old) (held_by self.new) buf.old buf.new result }
        ensures cause { HasCause (read_faults_of self.old) (read_faults_of self.new) result }
        ensures taken { taken_on self.new ≡ taken_on self.old }
        ensures write_faults { write_faults_of self.new ≡ write_faults_of self.old }
        ensures given { given_to self.new ≡ given_to self.old }
        ensures address { address_of self.new ≡ address_of self.old }
    {
        self.hear(buf)
    }

    fn send(&mut self, bytes: &[u8]) -> Result<usize, Failed>
        ensures fails { IsTrue (is_to_fail (writes_of self.old)) → IsErr result }
        ensures called { writes_of self.new ≡ called (writes_of self.old) }
        ensures reads { reads_of self.new ≡ reads_of self.old }
        ensures writes { Writes (taken_on self.old) (taken_on self.new) bytes.now result }
        ensures cause { HasCause (write_faults_of self.old) (write_faults_of self.new) result }
        ensures held { held_by self.new ≡ held_by self.old }
        ensures read_faults { read_faults_of self.new ≡ read_faults_of self.old }
        ensures given { given_to self.new ≡ given_to self.old }
        ensures address { address_of self.new ≡ address_of self.old }
    {
        self.tell(bytes)
    }
}
