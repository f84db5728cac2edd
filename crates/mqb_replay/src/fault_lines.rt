//! The line of a fault, which is written last.
ghost use Rattle.std.specs.Prelude.{Err};
ghost use Rattle.mqb_replay.specs.Faults.{TellCause};
ghost use Rattle.mqb_replay.specs.Replays.{Tells, TellsLine};

use crate::faults::ReplayFault;
use mqb_commands::{append_fault, write_all};
use mqb_outside::Sink;
use std::alloc::Global;

/// Writes the line of a fault, and says how the replay ended.
#[tactic(auto, using(crate::proofs::Telling::told_whole, crate::proofs::Telling::told_cut, crate::proofs::Telling::told_short))]
fn tell_fault<K: Sink>(alloc: Global, fault: ReplayFault, out: &mut K) -> ReplayFault
    ensures told { TellsLine fault (K.taken out.old) (K.taken out.new) (Err result) }
    ensures cause { TellCause (K.write_faults out.old) (K.write_faults out.new) (Err fault)
        (Err result) }
{
    let mut text = Vec::new(alloc);
    if append_fault(alloc, fault.status(), &mut text).is_err() {
        return ReplayFault::Memory;
    }
    match write_all(out, &text) {
        Ok(()) => fault,
        Err(_) => ReplayFault::WriteFault,
    }
}

/// Ends a replay: the line of its fault is written, where it has one.
pub(crate) fn tell<K: Sink>(
    alloc: Global,
    end: Result<(), ReplayFault>,
    out: &mut K,
) -> Result<(), ReplayFault>
    ensures told { Tells end (K.taken out.old) (K.taken out.new) result }
    ensures cause { TellCause (K.write_faults out.old) (K.write_faults out.new) end result }
{
    match end {
        Ok(()) => Ok(()),
        Err(ReplayFault::WriteFault) => Err(ReplayFault::WriteFault),
        Err(ReplayFault::Memory) => Err(ReplayFault::Memory),
        Err(fault) => Err(tell_fault(alloc, fault, out)),
    }
}
