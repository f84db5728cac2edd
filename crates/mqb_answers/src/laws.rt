//! What holds of every call's definition. Each law is a function with nothing to do.
ghost use Rattle.mqb_answers.specs.Outcomes.{OutcomesAreTold};

/// No definition of a call answers a fault of the machine: `Memory` and `DiskFault` come of memory
/// and of the disk alone.
pub fn outcomes_are_told()
    ensures { OutcomesAreTold }
{}
