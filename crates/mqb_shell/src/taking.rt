//! Bytes are taken, and the lines that end in them are answered.
ghost use Rattle.std.specs.Prelude.{◌+◌, ◌++◌, ◌<◌, ◌==◌, ◌≡◌, ◌≢◌, ◌≤◌, IfErr, IfOk, List, None};
ghost use Rattle.std.specs.Prelude.{OnOk, length, position, take, ℕ};
ghost use Rattle.mqb_commands.specs.Causes.{DiskFaultHasCause};
ghost use Rattle.mqb_commands.specs.Outputs.{WriteFaultHasCause};
ghost use Rattle.mqb_manager.specs.Keeping.{KeepsDisk};
ghost use Rattle.mqb_manager.specs.States.{IsOnDisk, IsUp};
ghost use Rattle.mqb_shell.specs.Answered.{TakesFront, TakesPiece};
ghost use Rattle.mqb_shell.specs.Ends.{IsStop, ended_by};
ghost use Rattle.mqb_shell.specs.Lines.{IsOneLine};

use crate::answering::answer_line;
use crate::asking::MAX_LINE;
use mqb_base::Memory;
use mqb_commands::Status;
use mqb_manager::Manager;
use mqb_net::PatientNet;
use mqb_outside::{Clock, Disk, Sink};
use std::alloc::Global;

/// Adds bytes of a line to those that are held of it: as many as say whether it is too long.
fn hold(line: &mut Vec<u8>, bytes: &[u8]) -> Result<(), Memory>
    ensures { (text : List ℕ) → line.old.items ≡ take (MAX_LINE + 1) text →
        OnOk result (line.new.items ≡ take (MAX_LINE + 1) (text ++ bytes.now)) }
{
    let room = (MAX_LINE + 1).saturating_sub(line.len());
    line.extend_from_slice(&bytes[..room.min(bytes.len())])?;
    Ok(())
}

/// The place of the first line feed.
fn line_feed(piece: &[u8]) -> Option<usize>
    ensures { result ≡ position (λ b. b == 10) piece.now }
{
    piece.iter().position(|byte| *byte == b'\n')
}

/// Takes the bytes of a piece up to its first line feed, and answers the line that ends there;
/// without one it takes all. It says how many it took.
fn take_front<K: Sink, D: Disk, N: PatientNet, C: Clock>(
    alloc: Global,
    piece: &[u8],
    line: &mut Vec<u8>,
    manager: &mut Manager,
    out: &mut K,
    disk: &mut D,
    net: &mut N,
    clock: &mut C,
) -> Result<usize, Status>
    requires some { 0 < length piece.now }
    requires up { IsUp manager.old }
    requires on { IsOnDisk (D.view disk.old) manager.old }
    requires unlinked { manager.old.session ≡ None }
    ensures count { IfOk result (λ n. (0 < n) × (n ≤ length piece.now)) }
    ensures takes { (held : List ℕ) → line.old.items ≡ take (MAX_LINE + 1) held → IsOneLine held →
        TakesFront (C.steady clock.old) held piece.now line.new.items (record {
          manager = manager.old;
          disk_faults = (D.view disk.old).faults;
          asked = C.asked clock.old;
          finished = N.finished net.old;
          faults = N.faults net.old;
          lost = N.lost net.old;
          idle = N.idle net.old;
        }) (record {
          manager = manager.new;
          disk_faults = (D.view disk.new).faults;
          asked = C.asked clock.new;
          finished = N.finished net.new;
          faults = N.faults net.new;
          lost = N.lost net.new;
          idle = N.idle net.new;
        })
        (K.taken out.old) (K.taken out.new) result }
    ensures disk { KeepsDisk (D.view disk.old) (D.view disk.new) manager.old manager.new }
    ensures unlinked { manager.new.session ≡ None }
    ensures up { OnOk result (IsUp manager.new) }
    ensures calm { OnOk result ((D.view disk.new).faults ≡ (D.view disk.old).faults) }
    ensures quiet { (ended_by result) ≢ Status.WriteFault →
        K.write_faults out.new ≡ K.write_faults out.old }
    ensures write_faults { WriteFaultHasCause (K.write_faults out.old) (K.write_faults out.new)
        (ended_by result) }
    ensures disk_faults { DiskFaultHasCause (D.view disk.old).faults (D.view disk.new).faults
        (ended_by result) }
    ensures unfinished { N.unfinished net.new ≡ N.unfinished net.old }
    ensures clock { C.steady clock.new ≡ C.steady clock.old }
    ensures ends { IfErr result IsStop }
{
    let Some(at) = line_feed(piece) else {
        return match hold(line, piece) {
            Ok(()) => Ok(piece.len()),
            Err(Memory) => Err(Status::Memory),
        };
    };
    let Ok(()) = hold(line, &piece[..at]) else {
        return Err(Status::Memory);
    };
    match answer_line(alloc, line.as_slice(), manager, out, disk, net, clock) {
        Ok(()) => {
            line.clear();
            Ok(at + 1)
        }
        Err(end) => Err(end),
    }
}

/// Takes a piece of the input: the lines that end in it are answered, and what is behind the
/// last line feed is held.
pub(crate) fn take_piece<K: Sink, D: Disk, N: PatientNet, C: Clock>(
    alloc: Global,
    piece: &[u8],
    line: &mut Vec<u8>,
    manager: &mut Manager,
    out: &mut K,
    disk: &mut D,
    net: &mut N,
    clock: &mut C,
) -> Result<(), Status>
    requires up { IsUp manager.old }
    requires on { IsOnDisk (D.view disk.old) manager.old }
    requires unlinked { manager.old.session ≡ None }
    ensures takes { (held : List ℕ) → line.old.items ≡ take (MAX_LINE + 1) held → IsOneLine held →
        TakesPiece (C.steady clock.old) held piece.now line.new.items (record {
          manager = manager.old;
          disk_faults = (D.view disk.old).faults;
          asked = C.asked clock.old;
          finished = N.finished net.old;
          faults = N.faults net.old;
          lost = N.lost net.old;
          idle = N.idle net.old;
        }) (record {
          manager = manager.new;
          disk_faults = (D.view disk.new).faults;
          asked = C.asked clock.new;
          finished = N.finished net.new;
          faults = N.faults net.new;
          lost = N.lost net.new;
          idle = N.idle net.new;
        })
        (K.taken out.old) (K.taken out.new) result }
    ensures disk { KeepsDisk (D.view disk.old) (D.view disk.new) manager.old manager.new }
    ensures unlinked { manager.new.session ≡ None }
    ensures up { OnOk result (IsUp manager.new) }
    ensures calm { OnOk result ((D.view disk.new).faults ≡ (D.view disk.old).faults) }
    ensures quiet { (ended_by result) ≢ Status.WriteFault →
        K.write_faults out.new ≡ K.write_faults out.old }
    ensures write_faults { WriteFaultHasCause (K.write_faults out.old) (K.write_faults out.new)
        (ended_by result) }
    ensures disk_faults { DiskFaultHasCause (D.view disk.old).faults (D.view disk.new).faults
        (ended_by result) }
    ensures unfinished { N.unfinished net.new ≡ N.unfinished net.old }
    ensures clock { C.steady clock.new ≡ C.steady clock.old }
    ensures ends { IfErr result IsStop }
{
    let mut at = 0;
    while at < piece.len() {
        match take_front(alloc, &piece[at..], line, manager, out, disk, net, clock) {
            Ok(count) => at += count,
            Err(end) => return Err(end),
        }
    }
    Ok(())
}
