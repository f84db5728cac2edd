use mqb_base::{Guid, Memory};
use mqb_disk::{Call, TraceDisk};
use mqb_journal::{AppendFault, CheckpointFault, Journal, OpenFault, ScanFault};
use mqb_outside::Disk;
use std::alloc::Global;
use std::fmt::Display;
use std::test::Fail;

/// What a formatted disk answers to an append.
fn append<D: Disk>(
    alloc: Global,
    disk: &mut D,
    entry: &[u8],
) -> Result<Result<(), AppendFault>, OpenFault> {
    let mut journal = Journal::format(alloc, disk, Guid([9; 16]))?;
    let answer = journal.append(disk, entry);
    drop(journal);
    Ok(answer)
}

/// What is written, in this order.
const WRITTEN: &[u8] =
    b"MQBJ\x01\0\0\0\x09\x09\x09\x09\x09\x09\x09\x09\x09\x09\x09\x09\x09\x09\x09\x09\0\
\x03\0\0\0\x01\x02\x03\0\x01";

/// Whether these were the calls: the header with the gate; the length, the record and the next
/// gate; and the gate.
fn is_called_so(disk: &TraceDisk) -> bool {
    let wrote = |at, from, len| Call::Wrote { at, from, len };
    let calls = [
        wrote(0, 0, 25),
        Call::Synced,
        wrote(25, 25, 8),
        Call::Synced,
        wrote(24, 33, 1),
        Call::Synced,
    ];
    disk.calls() == calls.as_slice()
}

#[test]
fn the_calls_of_an_append(rt: HostRuntime) -> Result<(), Fail> {
    let mut disk = TraceDisk::new(rt.alloc(), 64, 16)?;
    let answer = append(rt.alloc(), &mut disk, &[1, 2, 3]);
    let is_called_so = is_called_so(&disk);
    let is_written = disk.written() == WRITTEN;
    drop(disk);
    assert!(rt; answer == Ok(Ok(())));
    assert!(rt; is_called_so);
    assert!(rt; is_written);
    Ok(())
}

const BASE: [u8; 4] = [4; 4];

/// What a formatted disk answers to two checkpoints, or to the first where that fails.
fn checkpoint_twice<D: Disk>(
    alloc: Global,
    disk: &mut D,
) -> Result<Result<(), CheckpointFault>, OpenFault> {
    let mut journal = Journal::format(alloc, disk, Guid([9; 16]))?;
    let answer = match journal.checkpoint(disk, &BASE) {
        Ok(()) => journal.checkpoint(disk, &BASE),
        Err(fault) => Err(fault),
    };
    drop(journal);
    Ok(answer)
}

/// Whether these were the calls behind those of a format, twice seven: the area behind a head that
/// is new, and then behind the first area.
fn is_rewritten_so(disk: &TraceDisk) -> bool {
    let wrote = |at, from, len| Call::Wrote { at, from, len };
    let calls = [
        wrote(0, 0, 25),
        Call::Synced,
        wrote(25, 25, 4_105),
        wrote(5, 4_130, 3),
        Call::Synced,
        wrote(4, 4_133, 1),
        Call::Synced,
        Call::Cut { len: 4_130 },
        Call::Synced,
        wrote(4_130, 4_134, 17),
        wrote(4_105, 4_151, 8),
        Call::Synced,
        wrote(4_096, 4_159, 1),
        Call::Synced,
        Call::Cut { len: 4_147 },
        Call::Synced,
    ];
    disk.calls() == calls.as_slice()
}

/// What the second of them writes: its area, where that is found, and the selector.
const REWRITTEN: &[u8] = b"\x0c\0\0\0\0\0\0\0\0\0\0\0\x04\x04\x04\x04\0\x22\x10\0\0\0\0\0\0\x01";

#[test]
fn the_calls_of_two_checkpoints(rt: HostRuntime) -> Result<(), Fail> {
    let mut disk = TraceDisk::new(rt.alloc(), 8_192, 32)?;
    let answer = checkpoint_twice(rt.alloc(), &mut disk);
    let is_called_so = is_rewritten_so(&disk);
    let is_written = disk.written().ends_with(REWRITTEN);
    drop(disk);
    assert!(rt; answer == Ok(Ok(())));
    assert!(rt; is_called_so);
    assert!(rt; is_written);
    Ok(())
}

/// Adds the text of each fault, and a line feed behind it.
fn put<E: Display>(alloc: Global, faults: &[E], out: &mut Vec<u8>) -> Result<(), Memory> {
    for fault in faults {
        let text = format!(in alloc; "{fault}\n")?;
        out.extend_from_slice(text.as_bytes())?;
    }
    Ok(())
}

const TEXTS: &[u8] = b"the disk is not empty
no store that can be read: at 24
out of memory
a call of the disk failed
no store that can be read: at 0
a call of the disk failed
an earlier call failed
the record is too large
out of memory
a call of the disk failed
an earlier call failed
the store is too far on for another base
the base is too large
out of memory
a call of the disk failed
";

fn put_all(alloc: Global, out: &mut Vec<u8>) -> Result<(), Memory> {
    let opening = [
        OpenFault::NotEmpty,
        OpenFault::BadStore { at: 24 },
        OpenFault::Memory,
        OpenFault::DiskFault,
    ];
    put(alloc, &opening, out)?;
    let scanning = [ScanFault::BadStore { at: 0 }, ScanFault::DiskFault];
    put(alloc, &scanning, out)?;
    let appending = [
        AppendFault::Down,
        AppendFault::TooLarge,
        AppendFault::Memory,
        AppendFault::DiskFault,
    ];
    put(alloc, &appending, out)?;
    let checkpointing = [
        CheckpointFault::Down,
        CheckpointFault::TooFar,
        CheckpointFault::TooLarge,
        CheckpointFault::Memory,
        CheckpointFault::DiskFault,
    ];
    put(alloc, &checkpointing, out)
}

#[test]
fn texts_of_faults(rt: HostRuntime) -> Result<(), Fail> {
    let mut out = Vec::new(rt.alloc());
    put_all(rt.alloc(), &mut out)?;
    assert!(rt; out.as_slice() == TEXTS);
    Ok(())
}
