ghost use Rattle.std.specs.Prelude.{◌≡◌, false, true, IsTrue, IfOk};
ghost use Rattle.mqb_outside.specs.Faults.{Rose};
ghost use Rattle.mqb_outside.specs.Plans.{planned, is_to_fail, called};

use mqb_base::Memory;
use std::alloc::Global;

/// The calls of an object in memory: how many there were, which are to fail, and how
/// often it has failed.
#[derive(Debug, Drop)]
pub(crate) struct Calls {
    made: u64,
    failing: Vec<u32>,
    pub(crate) faults: u64,
}

impl Calls {
    ghost use Rattle.mqb_outside.specs.Counting.{plan_of};

    /// None was made. `failing` are the numbers of those that are to fail, from 1.
    pub(crate) fn new(alloc: Global, failing: &[u32]) -> Result<Calls, Memory>
        ensures plan { IfOk result (λ calls. plan_of calls ≡ planned failing.now) }
        ensures faults { IfOk result (λ calls. calls.faults ≡ 0) }
    {
        Ok(Calls {
            made: 0,
            failing: Vec::from_slice(alloc, failing)?,
            faults: 0,
        })
    }

    /// Counts a call, and says whether it is to fail. One that does is counted as a fault.
    pub(crate) fn next_fails(&mut self) -> bool
        ensures fails { result ≡ is_to_fail (plan_of self.old) }
        ensures called { plan_of self.new ≡ called (plan_of self.old) }
        ensures fault { IsTrue result → Rose self.old.faults self.new.faults }
        ensures none { result ≡ false → self.new.faults ≡ self.old.faults }
    {
        self.made = self.made.saturating_add(1);
        let fails = self
            .failing
            .iter()
            .any(|call| u64::from(*call) == self.made);
        if fails {
            self.fault();
        }
        fails
    }

    pub(crate) fn fault(&mut self)
        ensures fault { Rose self.old.faults self.new.faults }
        ensures plan { plan_of self.new ≡ plan_of self.old }
    {
        self.faults = self.faults.saturating_add(1);
    }
}
