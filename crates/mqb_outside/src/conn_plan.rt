ghost use Rattle.std.specs.Prelude.{◌≡◌, [], Some, None, IfOk};

use crate::conn::Conn;
use crate::memory_conn::MemoryConn;
use crate::{Sink, Source};
use mqb_base::{Bytes, Memory};
use std::alloc::Global;

/// A connection that a net in memory is to give: what it holds, and the numbers of its calls that
/// fail, each counted from 1.
#[derive(Debug, Drop)]
pub struct ConnPlan {
    pub bytes: Bytes,
    pub failing_reads: Vec<u32>,
    pub failing_writes: Vec<u32>,
}

impl ConnPlan {
    ghost use Rattle.mqb_outside.specs.ConnPlans.{planned};
    ghost use Rattle.mqb_outside.specs.Conns.{IsAsPlanned, address_of, held_by, read_faults_of};
    ghost use Rattle.mqb_outside.specs.Conns.{taken_on, write_faults_of};

    /// The connection that is planned.
    pub(crate) fn open(&self, alloc: Global) -> Result<MemoryConn, Memory>
        ensures planned { IfOk result (λ c. IsAsPlanned (planned self.now) c) }
        ensures given { IfOk result (λ c. ⟦<MemoryConn as Conn>⟧.given c ≡ held_by c) }
        ensures taken { IfOk result (λ c. taken_on c ≡ Some []) }
        ensures faultless { IfOk result (λ c. (read_faults_of c ≡ 0) × (write_faults_of c ≡ 0)) }
        ensures address { IfOk result (λ c. address_of c ≡ None) }
    {
        MemoryConn::new(
            alloc,
            self.bytes.as_slice(),
            &self.failing_reads,
            &self.failing_writes,
        )
    }
}
