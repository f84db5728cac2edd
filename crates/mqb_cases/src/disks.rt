use mqb_base::Failed;
use mqb_disk::{Call, FileDisk, MemoryDisk, OpenFault, TraceDisk};
use mqb_outside::{Disk, Pick, Power};
use std::alloc::{AllocError, Global};
use std::fs;
use std::test::Fail;

/// Two device calls: the length, and the write.
fn write<D: Disk>(disk: &mut D, at: u64, bytes: &[u8]) -> Result<(), Failed> {
    if at <= disk.len()? && bytes.len() < 100 {
        disk.write_at(at, bytes)
    } else {
        Err(Failed)
    }
}

/// Two device calls: the length, and the cut.
fn cut<D: Disk>(disk: &mut D, len: u64) -> Result<(), Failed> {
    if len <= disk.len()? {
        disk.cut(len)
    } else {
        Err(Failed)
    }
}

/// Three device calls: the length, the write, and the sync.
fn write_and_sync<D: Disk>(disk: &mut D, bytes: &[u8]) -> Result<(), Failed> {
    write(disk, 0, bytes)?;
    disk.sync()
}

/// Whether a disk holds exactly these bytes.
fn holds<D: Disk>(alloc: Global, disk: &mut D, bytes: &[u8]) -> Result<bool, AllocError> {
    let mut text = Vec::from_elem(alloc, 0, bytes.len())?;
    if disk.len() != Ok(bytes.len() as u64) {
        return Ok(false);
    }
    Ok(disk.read_at(0, &mut text).is_ok() && text.as_slice() == bytes)
}

/// A pick, and what it leaves of `abcd` where it was written over, and where it was cut.
static LEFT: [(Pick, &'static [u8], &'static [u8]); 4] = [
    (Pick::Old, b"abcd", b"abcd"),
    (Pick::New, b"abWXYZ", b"a"),
    (Pick::Half, b"abWX", b"abcd"),
    (Pick::Ones, b"ab\x01\x01\x01\x01", b"a"),
];

fn change<D: Disk>(disk: &mut D, cuts: bool) -> Result<(), Failed> {
    write_and_sync(disk, b"abcd")?;
    if cuts {
        cut(disk, 1)
    } else {
        write(disk, 2, b"WXYZ")
    }
}

/// Whether a restart leaves these bytes of a disk that is changed.
fn is_left<D: Power>(
    alloc: Global,
    disk: &mut D,
    cuts: bool,
    pick: Pick,
    bytes: &[u8],
) -> Result<bool, AllocError> {
    if change(disk, cuts).is_err() {
        return Ok(false);
    }
    disk.restart(pick);
    holds(alloc, disk, bytes)
}

/// The same of a new disk.
fn leaves(alloc: Global, cuts: bool, pick: Pick, bytes: &[u8]) -> Result<bool, Fail> {
    let mut disk = MemoryDisk::new(alloc, 16)?;
    let is_left = is_left(alloc, &mut disk, cuts, pick, bytes);
    drop(disk);
    Ok(is_left?)
}

#[test]
fn what_a_restart_leaves(rt: HostRuntime) -> Result<(), Fail> {
    for (pick, written, shortened) in LEFT {
        let is_left = leaves(rt.alloc(), false, pick, written)?;
        let is_cut = leaves(rt.alloc(), true, pick, shortened)?;
        assert!(rt; is_left && is_cut, "{pick:?}");
    }
    Ok(())
}

/// Whether each of 64 writes is made.
fn writes_64<D: Disk>(disk: &mut D) -> bool {
    for _ in 0..64 {
        if write(disk, 0, &[7; 16]).is_err() {
            return false;
        }
    }
    true
}

/// Which are made of a write of 17 bytes, 64 of 16 bytes, one more, a sync, and one more.
fn made<D: Disk>(disk: &mut D) -> [bool; 5] {
    let long = write(disk, 0, &[7; 17]).is_ok();
    let many = writes_64(disk);
    let one_more = write(disk, 0, b"x").is_ok();
    let synced = disk.sync().is_ok();
    let then = write(disk, 0, b"x").is_ok();
    [long, many, one_more, synced, then]
}

#[test]
fn limits(rt: HostRuntime) -> Result<(), Fail> {
    let mut disk = MemoryDisk::new(rt.alloc(), 16)?;
    let made = made(&mut disk);
    drop(disk);
    assert!(rt; made == [false, true, false, true, true]);
    Ok(())
}

/// Five calls. The disk holds `ab` then.
fn cut_to_two<D: Disk>(disk: &mut D) -> Result<(), Failed> {
    write_and_sync(disk, b"abcd")?;
    cut(disk, 2)
}

/// Whether a sync and then the length are answered.
fn answered<D: Disk>(disk: &mut D) -> [bool; 2] {
    let synced = disk.sync().is_ok();
    let measured = disk.len().is_ok();
    [synced, measured]
}

/// Whether these are its reads, its other calls, and what it was given to write.
fn is_traced(disk: &TraceDisk) -> bool {
    let wrote = Call::Wrote {
        at: 0,
        from: 0,
        len: 4,
    };
    let calls = [wrote, Call::Synced, Call::Cut { len: 2 }, Call::Synced];
    let are_reads = disk.reads() == [(0, 2)].as_slice();
    let are_calls = disk.calls() == calls.as_slice();
    let is_written = disk.written() == b"abcd".as_slice();
    are_reads && are_calls && is_written
}

#[test]
fn a_trace_keeps_its_calls(rt: HostRuntime) -> Result<(), Fail> {
    let mut disk = TraceDisk::new(rt.alloc(), 16, 8)?;
    let cut = cut_to_two(&mut disk);
    let is_cut = holds(rt.alloc(), &mut disk, b"ab");
    let answered = answered(&mut disk);
    let is_traced = is_traced(&disk);
    drop(disk);
    assert!(rt; cut == Ok(()) && is_cut?);
    assert!(rt; answered == [true, false]);
    assert!(rt; is_traced);
    Ok(())
}

const PATH: &str = "/tmp/mqb_cases_disk_in_a_file";

/// Why no disk was opened. One that was is closed.
fn fault_of(opened: Result<FileDisk, OpenFault>) -> Option<OpenFault> {
    match opened {
        Ok(disk) => {
            drop(disk);
            None
        }
        Err(fault) => Some(fault),
    }
}

/// Why the file is not opened, not made, and not opened to be read alone.
fn faults(rt: &HostRuntime) -> [Option<OpenFault>; 3] {
    [
        fault_of(FileDisk::open(rt, PATH)),
        fault_of(FileDisk::create(rt, PATH)),
        fault_of(FileDisk::open_shared(rt, PATH)),
    ]
}

/// Writes `abcdef`, cuts it, and writes over what is left: `aBCde`.
fn write_over<D: Disk>(disk: &mut D) -> Result<(), Failed> {
    write_and_sync(disk, b"abcdef")?;
    cut(disk, 5)?;
    write(disk, 1, b"BC")
}

const IN_USE: Option<OpenFault> = Some(OpenFault::InUse);

/// Whether a file is made and written, and is in use meanwhile.
fn is_made(rt: &HostRuntime) -> Result<bool, OpenFault> {
    let mut disk = FileDisk::create(rt, PATH)?;
    let written = write_over(&mut disk);
    let faults = faults(rt);
    drop(disk);
    Ok(written == Ok(()) && faults == [IN_USE; 3])
}

/// Whether it has what was written.
fn is_read(rt: &HostRuntime) -> Result<bool, Fail> {
    let mut disk = FileDisk::open(rt, PATH)?;
    let is_read = holds(rt.alloc(), &mut disk, b"aBCde");
    drop(disk);
    Ok(is_read?)
}

/// Whether a write, a cut and a sync are made.
fn changed<D: Disk>(disk: &mut D) -> [bool; 3] {
    let written = write(disk, 0, b"x").is_ok();
    let shortened = cut(disk, 0).is_ok();
    let synced = disk.sync().is_ok();
    [written, shortened, synced]
}

/// Whether two read it, and nobody else opens it meanwhile.
fn is_shared(rt: &HostRuntime, one: &mut FileDisk) -> Result<bool, Fail> {
    let mut other = FileDisk::open_shared(rt, PATH)?;
    let fault = fault_of(FileDisk::open(rt, PATH));
    let changed = changed(one);
    let is_read = holds(rt.alloc(), &mut other, b"aBCde");
    drop(other);
    let is_kept = changed == [false, false, true];
    let is_read = is_read?;
    Ok(fault == IN_USE && is_kept && is_read)
}

#[test]
fn a_disk_in_a_file(rt: HostRuntime) -> Result<(), Fail> {
    drop(fs::remove_file(&rt, PATH));
    assert!(rt; fault_of(FileDisk::open(&rt, PATH)) == Some(OpenFault::Missing));
    assert!(rt; is_made(&rt)?);
    assert!(rt; is_read(&rt)?);
    let mut one = FileDisk::open_shared(&rt, PATH)?;
    let is_shared = is_shared(&rt, &mut one);
    drop(one);
    assert!(rt; is_shared?);
    fs::remove_file(&rt, PATH)?;
    Ok(())
}
