//! What no transcript tells of a replay: that a delivery takes the packet from the medium, and that a restart calls its disk.
ghost use Rattle.std.specs.Prelude.{[], ◌≡◌};

use crate::counting_medium::CountingMedium;
use mqb_disk::MemoryDisk;
use mqb_outside::{Medium, MemoryMedium, MemorySink, MemorySource};
use mqb_replay::replay;
use std::alloc::Global;
use std::cell::Cell;
use std::test::Fail;

/// The room of a disk.
const ROOM: usize = 1 << 20;

/// The transcript of a script over alpha's disk, beta's, and this medium.
fn told<M: Medium>(
    alloc: Global,
    input: &mut MemorySource,
    first: &mut MemoryDisk,
    second: &mut MemoryDisk,
    medium: &mut M,
) -> Result<Vec<u8>, Fail>
    requires { M.strings medium.old ≡ [] }
{
    let mut out = MemorySink::new(alloc, &[])?;
    let replayed = replay(alloc, input, &mut out, first, second, medium);
    let text = Vec::from_slice(alloc, out.as_slice());
    drop(out);
    replayed?;
    Ok(text?)
}

/// The same over a new disk for beta.
fn transcript<M: Medium>(
    alloc: Global,
    script: &[u8],
    first: &mut MemoryDisk,
    medium: &mut M,
) -> Result<Vec<u8>, Fail>
    requires { M.strings medium.old ≡ [] }
{
    let mut second = MemoryDisk::new(alloc, ROOM)?;
    let mut input = MemorySource::new(alloc, script, &[])?;
    let told = told(alloc, &mut input, first, &mut second, medium);
    drop(input);
    drop(second);
    told
}

/// The last line delivers a packet that was never sent.
const SCRIPT: &[u8] = b"queue beta orders tx 100 none
connect alpha 1000 64 64
commit alpha 1000 send,DIRECT=OS:beta\\PRIVATE$\\orders,-,-,-,-,-,one
pump alpha 1001
deliver 5 1001
deliver 5 1001
deliver 9 1001
";

/// Four times while the connection is set up, and once for each of the two deliveries of packet 5.
#[test]
fn replay_asks_the_medium(rt: HostRuntime) -> Result<(), Fail> {
    let mut first = MemoryDisk::new(rt.alloc(), ROOM)?;
    let mut medium = CountingMedium {
        inner: MemoryMedium::new(rt.alloc()),
        asked: Cell::new(0),
    };
    let told = transcript(rt.alloc(), SCRIPT, &mut first, &mut medium);
    let asked = medium.asked.get();
    drop(medium);
    drop(first);
    drop(told?);
    assert!(rt; asked == 6);
    Ok(())
}

/// The first call of the disk fails that the restart makes, so the manager is not started.
const NOT_STARTED: &[u8] = b"1 failed
end
alpha down
beta dead
beta deadxact
beta journal
";

#[test]
fn restart_calls_the_disk(rt: HostRuntime) -> Result<(), Fail> {
    let mut first = MemoryDisk::new(rt.alloc(), ROOM)?;
    first.arm_restart();
    let mut medium = MemoryMedium::new(rt.alloc());
    let told = transcript(rt.alloc(), b"restart alpha old\n", &mut first, &mut medium);
    drop(medium);
    drop(first);
    assert!(rt; told?.as_slice() == NOT_STARTED);
    Ok(())
}
