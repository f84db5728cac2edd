ghost use Rattle.std.specs.Prelude.{◌≡◌, ◌≢◌, ◌<◌, ◌≤◌, [], IfOk, IfSome, OnErr, length, take};
ghost use Rattle.mqb_outside.specs.Faults.{HasCause};
ghost use Rattle.mqb_outside.specs.Told.{Gave};
ghost use Rattle.mqb_commands.specs.Outputs.{ReadFaultHasCause, WriteFaultHasCause};
ghost use Rattle.mqb_commands.specs.Shown.{Shows};
ghost use Rattle.mqb_commands.specs.Showing.{ShowCauses, ShowsAll, Stopped};

use crate::shown_faults::ShowFault;
use crate::viewer::Viewer;
use crate::{Answer, Status};
use mqb_base::Failed;
use mqb_outside::{Sink, Source};
use mqb_serving::{MAX_READ, PeerFault};
use std::alloc::Global;

/// How many bytes are read at once.
const PIECE: usize = 4096;

/// Reads into the front of a buffer.
fn read_front<S: Source>(input: &mut S, buffer: &mut [u8], room: usize) -> Result<usize, Failed>
    requires { room ≤ length buffer.old }
    ensures within { IfOk result (λ n. n ≤ room) }
    ensures gave { IfOk result
        (λ n. Gave (S.held input.old) (S.held input.new) (take n buffer.new)) }
    ensures ended { IfOk result (λ n. n ≡ 0 → 0 < room
        → IfSome (S.held input.old) (λ rest. rest ≡ [])) }
    ensures unchanged { OnErr result (S.held input.new ≡ S.held input.old) }
    ensures cause { HasCause (S.read_faults input.old) (S.read_faults input.new) result }
{
    input.read(&mut buffer[..room])
}

/// Shows the packets of an input up to its end, or up to what ends that.
fn show_all<S: Source, K: Sink>(alloc: Global, input: &mut S, out: &mut K) -> Result<(), ShowFault>
    ensures shown { ShowsAll (S.held input.old) (S.held input.new) (K.taken out.old)
        (K.taken out.new) result }
    ensures causes { ShowCauses (S.read_faults input.old) (S.read_faults input.new)
        (K.write_faults out.old) (K.write_faults out.new) result }
{
    let Ok(mut viewer) = Viewer::new(alloc) else {
        return Err(ShowFault::Memory);
    };
    let mut buffer = [0; PIECE];
    let mut count = 0;
    while count < MAX_READ {
        let room = (MAX_READ - count).min(PIECE as u64) as usize;
        let Ok(n) = read_front(input, &mut buffer, room) else {
            return Err(ShowFault::ReadFault);
        };
        if n == 0 {
            return viewer.end();
        }
        count += n as u64;
        match viewer.show_piece(alloc, &buffer[..n], out) {
            Ok(()) => {}
            Err(why) => return Err(why),
        }
    }
    Err(ShowFault::Peer(PeerFault::TooMuch))
}

/// Writes the fault line, where there is one.
fn stop<K: Sink>(alloc: Global, fault: ShowFault, out: &mut K) -> Status
    ensures stopped { Stopped fault (K.taken out.old) (K.taken out.new) result }
    ensures cause { fault ≢ ShowFault.WriteFault →
        WriteFaultHasCause (K.write_faults out.old) (K.write_faults out.new) result }
    ensures same { fault ≡ ShowFault.WriteFault → K.write_faults out.new ≡ K.write_faults out.old }
    ensures quiet { result ≡ Status.ReadFault → fault ≡ ShowFault.ReadFault }
{
    match fault {
        ShowFault::WriteFault => Status::WriteFault,
        ShowFault::Memory => Status::Memory,
        ShowFault::ReadFault => Answer::fault(alloc, Status::ReadFault).write(out),
        ShowFault::Peer(fault) => Answer::fault(alloc, Status::Peer(fault)).write(out),
    }
}

/// Shows the packets of an input: a line for each, as it comes, and a fault line where the
/// input is not all packets.
pub fn show<S: Source, K: Sink>(alloc: Global, input: &mut S, out: &mut K) -> Status
    ensures shown { Shows (S.held input.old) (S.held input.new) (K.taken out.old) (K.taken out.new)
        result }
    ensures read_fault { ReadFaultHasCause (S.read_faults input.old) (S.read_faults input.new)
        result }
    ensures write_fault { WriteFaultHasCause (K.write_faults out.old) (K.write_faults out.new)
        result }
{
    match show_all(alloc, input, out) {
        Ok(()) => Status::Done,
        Err(fault) => stop(alloc, fault, out),
    }
}
