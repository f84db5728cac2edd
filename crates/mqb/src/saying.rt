//! The commands that make one answer: it is made whole, and written.
ghost use Rattle.std.specs.Prelude.{◌≢◌, ◌≤◌};
ghost use Rattle.mqb_commands.specs.Called.{CallsAt};
ghost use Rattle.mqb_commands.specs.Causes.{DiskFaultHasCause};
ghost use Rattle.mqb_commands.specs.Checkpointed.{Checkpoints};
ghost use Rattle.mqb_commands.specs.Peeked.{Peeks};
ghost use Rattle.mqb_commands.specs.Said.{Inits, Lists, Makes};
ghost use Rattle.mqb_outside.specs.Disk.{Counted};
ghost use Rattle.mqb_commands.specs.Outputs.{Says, WriteFaultHasCause};
ghost use Rattle.mqb_words.specs.Formed.{IsFormedCall};

use mqb_base::{Identity, Place};
use mqb_commands::Status;
use mqb_outside::{Clock, Disk, Sink};
use mqb_words::Call;
use std::alloc::Global;

/// Makes a script of orders.
#[tactic(auto, using(crate::proofs::Quiet::makes_quiet, crate::proofs::Quiet::quiet_plain))]
pub(crate) fn say_made<K: Sink>(alloc: Global, orders: u32, out: &mut K) -> Status
    requires least { 1 ≤ orders }
    requires most { orders ≤ 10000 }
    ensures says { Says (Makes orders) (K.taken out.old) (K.taken out.new) result }
    ensures cause { WriteFaultHasCause (K.write_faults out.old) (K.write_faults out.new) result }
    ensures net { result ≢ Status.NetFault }
    ensures disk { result ≢ Status.DiskFault }
{
    let answer = mqb_commands::make(alloc, orders);
    answer.write(out)
}

/// Makes an empty disk the store of a manager.
#[tactic(auto, using(crate::proofs::Quiet::inits_quiet, crate::proofs::Quiet::quiet_plain))]
pub(crate) fn say_formatted<K: Sink, D: Disk>(
    alloc: Global,
    identity: &Identity,
    out: &mut K,
    disk: &mut D,
) -> Status
    ensures says { Says (Inits identity.now (D.view disk.old) (D.view disk.new)) (K.taken out.old)
        (K.taken out.new) result }
    ensures cause { WriteFaultHasCause (K.write_faults out.old) (K.write_faults out.new) result }
    ensures net { result ≢ Status.NetFault }
    ensures disk { DiskFaultHasCause (D.view disk.old).faults (D.view disk.new).faults result }
{
    let answer = mqb_commands::init(alloc, disk, identity);
    answer.write(out)
}

/// Writes the state of the manager of a store anew.
#[tactic(auto, using(crate::proofs::Quiet::checkpoints_quiet, crate::proofs::Quiet::quiet_plain))]
pub(crate) fn say_checkpointed<K: Sink, D: Disk>(alloc: Global, out: &mut K, disk: &mut D) -> Status
    ensures says { Says (Checkpoints (D.view disk.old) (D.view disk.new)) (K.taken out.old)
        (K.taken out.new) result }
    ensures cause { WriteFaultHasCause (K.write_faults out.old) (K.write_faults out.new) result }
    ensures net { result ≢ Status.NetFault }
    ensures disk { DiskFaultHasCause (D.view disk.old).faults (D.view disk.new).faults result }
{
    let answer = mqb_commands::checkpoint(alloc, disk);
    answer.write(out)
}

/// Lists what the manager of a store holds.
#[tactic(auto, using(crate::proofs::Quiet::lists_quiet, crate::proofs::Quiet::quiet_plain))]
pub(crate) fn say_listed<K: Sink, D: Disk>(alloc: Global, out: &mut K, disk: &mut D) -> Status
    ensures says { Says (Lists (D.view disk.old) (D.view disk.new)) (K.taken out.old)
        (K.taken out.new) result }
    ensures cause { WriteFaultHasCause (K.write_faults out.old) (K.write_faults out.new) result }
    ensures net { result ≢ Status.NetFault }
    ensures disk { DiskFaultHasCause (D.view disk.old).faults (D.view disk.new).faults result }
{
    let answer = mqb_commands::list(alloc, disk);
    answer.write(out)
}

/// Makes one call of the manager of a store.
#[tactic(auto, using(crate::proofs::Quiet::calls_quiet, crate::proofs::Quiet::quiet_plain))]
pub(crate) fn say_called<K: Sink, D: Disk, C: Clock>(
    alloc: Global,
    call: &Call,
    out: &mut K,
    disk: &mut D,
    clock: &mut C,
) -> Status
    requires { IsFormedCall call.now }
    ensures says { Says (CallsAt call.now (C.steady clock.old) (D.view disk.old) (D.view disk.new))
        (K.taken out.old) (K.taken out.new) result }
    ensures cause { WriteFaultHasCause (K.write_faults out.old) (K.write_faults out.new) result }
    ensures net { result ≢ Status.NetFault }
    ensures disk { DiskFaultHasCause (D.view disk.old).faults (D.view disk.new).faults result }
    ensures asked { Counted 1 (C.asked clock.old) (C.asked clock.new) }
{
    let answer = mqb_commands::call(alloc, disk, clock, call);
    answer.write(out)
}

/// Tells the messages of a place that would be taken next.
#[tactic(auto, using(crate::proofs::Quiet::peeks_quiet, crate::proofs::Quiet::quiet_plain))]
pub(crate) fn say_peeked<K: Sink, D: Disk, C: Clock>(
    alloc: Global,
    place: &Place,
    count: u32,
    out: &mut K,
    disk: &mut D,
    clock: &mut C,
) -> Status
    requires { 1 ≤ count }
    ensures says { Says (Peeks place.now count (C.steady clock.old) (D.view disk.old)
        (D.view disk.new)) (K.taken out.old) (K.taken out.new) result }
    ensures cause { WriteFaultHasCause (K.write_faults out.old) (K.write_faults out.new) result }
    ensures net { result ≢ Status.NetFault }
    ensures disk { DiskFaultHasCause (D.view disk.old).faults (D.view disk.new).faults result }
    ensures asked { Counted 1 (C.asked clock.old) (C.asked clock.new) }
{
    let answer = mqb_commands::peek(alloc, disk, clock, place, count);
    answer.write(out)
}
