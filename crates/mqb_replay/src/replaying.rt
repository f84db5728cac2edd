ghost use Rattle.std.specs.Prelude.{[], ◌≡◌, Err};
ghost use Rattle.mqb_outside.specs.Faults.{Rose};
ghost use Rattle.mqb_replay.specs.Completeness.{Completes};
ghost use Rattle.mqb_replay.specs.Devices.{devices};
ghost use Rattle.mqb_replay.specs.Faults.{WriteCause};
ghost use Rattle.mqb_replay.specs.Replays.{EndsSo, Replays};

use crate::fault_lines::tell;
use crate::faults::ReplayFault;
use crate::plays::play;
use mqb_outside::{Medium, Power, Sink, Source};
use mqb_script::read_script;
use std::alloc::Global;

/// Reads a script whole and plays it.
fn read_and_play<S: Source, K: Sink, P: Power, M: Medium>(
    alloc: Global,
    input: &mut S,
    out: &mut K,
    first: &mut P,
    second: &mut P,
    medium: &mut M,
) -> Result<(), ReplayFault>
    requires empty { M.strings medium.old ≡ [] }
    ensures ends { EndsSo (S.held input.old) (S.held input.new)
        (devices (M.strings medium.old) (P.view first.old) (P.view second.old))
        (devices (M.strings medium.new) (P.view first.new) (P.view second.new))
        (K.taken out.old) (K.taken out.new) result }
    ensures read { result ≡ Err ReplayFault.ReadFault
        → Rose (S.read_faults input.old) (S.read_faults input.new) }
    ensures write { WriteCause (K.write_faults out.old) (K.write_faults out.new) result }
{
    let script = read_script(alloc, input)?;
    play(alloc, script.events(), out, first, second, medium)
}

/// Replays the script from the input over two managers on these disks, and writes the transcript.
/// The medium is empty.
pub fn replay<S: Source, K: Sink, P: Power, M: Medium>(
    alloc: Global,
    input: &mut S,
    out: &mut K,
    first: &mut P,
    second: &mut P,
    medium: &mut M,
) -> Result<(), ReplayFault>
    requires empty { M.strings medium.old ≡ [] }
    // What is written, sent and stored, by what the input held.
    ensures replayed { Replays (S.held input.old) (S.held input.new)
        (devices (M.strings medium.old) (P.view first.old) (P.view second.old))
        (devices (M.strings medium.new) (P.view first.new) (P.view second.new))
        (K.taken out.old) (K.taken out.new) result }

    // A script whose packets fit the medium is replayed whole, where no device fails that must not.
    ensures complete { Completes (S.held input.old)
        (devices (M.strings medium.old) (P.view first.old) (P.view second.old))
        (S.read_faults input.old) (S.read_faults input.new)
        (K.write_faults out.old) (K.write_faults out.new) result }

    // Where each fault comes from.
    ensures read { result ≡ Err ReplayFault.ReadFault
        → Rose (S.read_faults input.old) (S.read_faults input.new) }
    ensures write { result ≡ Err ReplayFault.WriteFault
        → Rose (K.write_faults out.old) (K.write_faults out.new) }
{
    let end = read_and_play(alloc, input, out, first, second, medium);
    tell(alloc, end, out)
}
