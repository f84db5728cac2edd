ghost use Rattle.std.specs.Prelude.{◌≡◌, ◌↔◌, false, map, true};
ghost use Rattle.std.specs.String.{string_bytes};
ghost use Rattle.mqb_inspect.specs.Runs.{Inspects, TellsVerdict, ReadFaultHasCause};
ghost use Rattle.mqb_inspect.specs.Runs.{WriteFaultHasCause, exit_of, fault_status};
ghost use Rattle.mqb_inspect.specs.Runs.{is_inspect, status_of};

use crate::inspect::inspect;
use crate::output::write_all;
use crate::texts::verdict_text;
use mqb_capture::{InspectFault, Verdict};
use mqb_outside::{Sink, Source};
use std::alloc::Global;

/// How the program ended.
#[derive(Clone, Copy, Debug, PartialEq, Eq)]
pub enum InspectStatus {
    /// The capture is lawful.
    Lawful,
    /// The words are not `inspect`.
    Usage,
    /// The bytes stop being a capture at a place.
    Capture { at: u64 },
    /// The input failed.
    ReadFault,
    /// The output failed.
    WriteFault,
    /// The capture is too large.
    TooMuch,
    /// Memory ran out.
    Memory,
    /// A packet breaks the capture.
    Broken,
}

impl InspectStatus {
    /// The exit status of the program.
    pub fn exit(self) -> u8
        ensures { result ≡ exit_of self }
    {
        match self {
            InspectStatus::Lawful => 0,
            InspectStatus::Usage => 2,
            InspectStatus::Capture { .. } => 3,
            InspectStatus::ReadFault => 4,
            InspectStatus::WriteFault => 5,
            InspectStatus::TooMuch => 9,
            InspectStatus::Memory => 10,
            InspectStatus::Broken => 12,
        }
    }
}

/// Whether the words are `inspect`.
fn is_inspect(words: &[String]) -> bool
    ensures { result ≡ is_inspect (map string_bytes words.now) }
{
    match words {
        [word] => word.as_bytes() == b"inspect".as_slice(),
        _ => false,
    }
}

fn status_of(verdict: Verdict) -> InspectStatus
    ensures { result ≡ status_of verdict }
{
    match verdict {
        Verdict::Lawful { .. } => InspectStatus::Lawful,
        Verdict::Broken { .. } => InspectStatus::Broken,
    }
}

fn fault_status(fault: InspectFault) -> InspectStatus
    ensures { result ≡ fault_status fault }
{
    match fault {
        InspectFault::Capture { at } => InspectStatus::Capture { at },
        InspectFault::TooMuch => InspectStatus::TooMuch,
        InspectFault::ReadFault => InspectStatus::ReadFault,
        InspectFault::Memory => InspectStatus::Memory,
    }
}

/// Writes the line of a verdict.
fn tell<K: Sink>(alloc: Global, verdict: Verdict, out: &mut K) -> InspectStatus
    ensures told { TellsVerdict verdict (K.taken out.old) (K.taken out.new) result }
    ensures cause { WriteFaultHasCause (K.write_faults out.old) (K.write_faults out.new) result }
{
    let Ok(text) = verdict_text(alloc, verdict) else {
        return InspectStatus::Memory;
    };
    match write_all(out, &text) {
        Ok(()) => status_of(verdict),
        Err(_) => InspectStatus::WriteFault,
    }
}

/// Inspects the capture that the input is, where the words ask for that, and writes the line of its
/// verdict. Where there is none nothing is written.
pub fn run_inspect<S: Source, K: Sink>(
    alloc: Global,
    words: &[String],
    input: &mut S,
    out: &mut K,
) -> InspectStatus
    ensures usage { (result ≡ InspectStatus.Usage)
        ↔ (is_inspect (map string_bytes words.now) ≡ false) }
    ensures idle { result ≡ InspectStatus.Usage → (input.new ≡ input.old) × (out.new ≡ out.old) }
    ensures inspects { is_inspect (map string_bytes words.now) ≡ true →
        Inspects (S.held input.old) (S.held input.new) (K.taken out.old) (K.taken out.new) result }
    ensures read_fault { ReadFaultHasCause (S.read_faults input.old) (S.read_faults input.new)
        result }
    ensures write_fault { WriteFaultHasCause (K.write_faults out.old) (K.write_faults out.new)
        result }
{
    if !is_inspect(words) {
        return InspectStatus::Usage;
    }
    match inspect(alloc, input) {
        Ok(verdict) => tell(alloc, verdict, out),
        Err(fault) => fault_status(fault),
    }
}
