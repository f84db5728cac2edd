//! A worker whose disk stops in a step: what stands in both queues then.
use mqb_base::{Failed, Name, NameError, Place};
use mqb_disk::MemoryDisk;
use mqb_outside::{Disk, Mode, Pick, Power};
use mqb_worker::{Manager, OpenFault, Prefix, step};
use std::alloc::Global;
use std::test::Fail;

/// Alpha, which has the queues `orders` and `replies`, and in the first an order of its own,
/// committed at 1000, whose body is `one` and which asks to be answered in the second.
static STORE: [u8; 334] = *b"MQBJ\x01\0\0\0\
\x0D\x0C\x0B\x0A\x12\x11\x14\x13\x15\x16\x17\x18\x19\x1A\x1B\x1C\
\x01\x1B\0\0\0\x01\x05alpha\x0D\x0C\x0B\x0A\x12\x11\x14\x13\x15\x16\x17\x18\x19\x1A\x1B\x1C\x0A\0\0\x01\
\x01\x13\0\0\0\x03\x06orders\x01\0\0\0\0\x01\x09\0\0\0\0\
\x01\x14\0\0\0\x03\x07replies\x02\0\0\0\0\x01\x09\0\0\0\0\
\x01\xDF\0\0\0\x04\xE8\x03\0\0\x01\x01\xD4\0\0\0\
\x10\0\0\0LIOR\xD4\0\0\0\xFF\xFF\xFF\xFF\
\x0D\x0C\x0B\x0A\x12\x11\x14\x13\x15\x16\x17\x18\x19\x1A\x1B\x1C\
\x0D\x0C\x0B\x0A\x12\x11\x14\x13\x15\x16\x17\x18\x19\x1A\x1B\x1C\
\xFF\xFF\xFF\xFF\xE8\x03\0\0\x01\0\0\0\x0D\x03\0\0\
\x14\0O\0S\0:\0.\0\\\0P\0R\0I\0V\0A\0T\0E\0$\0\\\0o\0r\0d\0e\0r\0s\0\
\x15\0O\0S\0:\0.\0\\\0P\0R\0I\0V\0A\0T\0E\0$\0\\\0r\0e\0p\0l\0i\0e\0s\0\0\0\
\0\0\0\0\0\0\0\0\0\0\0\0\0\0\0\0\0\0\0\0\0\0\0\0\0\0\0\0\0\0\0\0\
\x03\0\0\0\x03\0\0\0\0\0\0\0\0\0\0\0\0\0\0\0\0\0\0\0one\0\
\0";

/// As many bytes as the store may have.
const ROOM: usize = 16_384;

/// How many calls the disk has where that store is written and a manager started: two; three up to
/// the first gate, two for each record, and a sync.
const STARTED: u32 = 14;

const NOW: u32 = 2000;

fn write<D: Disk>(disk: &mut D, bytes: &[u8]) -> Result<(), Failed> {
    if bytes.len() > 1000 {
        return Err(Failed);
    }
    disk.write_at(0, bytes)?;
    disk.sync()
}

/// A step is made, however it ends.
fn work<D: Disk>(
    alloc: Global,
    disk: &mut D,
    queue: &Name,
    prefix: &Prefix,
) -> Result<(), OpenFault> {
    let mut manager = Manager::start(alloc, disk)?;
    let _answer = step(alloc, disk, &mut manager, queue, prefix, NOW);
    manager.close();
    Ok(())
}

/// How many messages a place has.
fn count(manager: &Manager, place: &Place) -> u32 {
    match manager.state().queues().len(place) {
        Some(count) => count,
        None => u32::MAX,
    }
}

/// How many messages both queues have behind a start.
fn counts<D: Disk>(
    alloc: Global,
    disk: &mut D,
    orders: &Place,
    replies: &Place,
) -> Result<[u32; 2], OpenFault> {
    let manager = Manager::start(alloc, disk)?;
    let counts = [count(&manager, orders), count(&manager, replies)];
    manager.close();
    Ok(counts)
}

fn queue(alloc: Global, name: &[u8]) -> Result<Place, NameError> {
    Ok(Place::Queue(Name::new(alloc, name)?))
}

fn work_on(alloc: Global, disk: &mut MemoryDisk) -> Result<Result<(), OpenFault>, Fail> {
    let name = Name::new(alloc, b"orders")?;
    let prefix = Prefix::new(alloc, b"ok:")?;
    Ok(work(alloc, disk, &name, &prefix))
}

fn counts_on(alloc: Global, disk: &mut MemoryDisk) -> Result<Result<[u32; 2], OpenFault>, Fail> {
    let orders = queue(alloc, b"orders")?;
    let replies = queue(alloc, b"replies")?;
    Ok(counts(alloc, disk, &orders, &replies))
}

/// How many messages both queues have behind a step of which this call of the disk stops or
/// fails, and a restart.
fn left(alloc: Global, mode: Mode, call: u32, pick: Pick) -> Result<[u32; 2], Fail> {
    let mut disk = MemoryDisk::new(alloc, ROOM)?;
    disk.arm(call.saturating_add(STARTED).max(1), mode);
    let written = write(&mut disk, &STORE);
    let worked = work_on(alloc, &mut disk)?;
    disk.restart(pick);
    let counts = counts_on(alloc, &mut disk)?;
    let (Ok(()), Ok(())) = (written, worked) else {
        return Err(Fail::new("no step"));
    };
    Ok(counts?)
}

/// The same by each pick.
fn left_by_each(alloc: Global, mode: Mode, call: u32) -> Result<[[u32; 2]; 4], Fail> {
    let old = left(alloc, mode, call, Pick::Old)?;
    let new = left(alloc, mode, call, Pick::New)?;
    let half = left(alloc, mode, call, Pick::Half)?;
    let ones = left(alloc, mode, call, Pick::Ones)?;
    Ok([old, new, half, ones])
}

/// The order waits, and is not answered; or it was taken, and its reply is there.
const WAITS: [u32; 2] = [1, 0];

const ANSWERED: [u32; 2] = [0, 1];

/// A call of the step of which the disk stops or fails, and what stands in both
/// queues by each pick.
static STOPS: [(Mode, u32, [[u32; 2]; 4]); 6] = [
    (Mode::Stop, 1, [WAITS, WAITS, WAITS, WAITS]),
    (Mode::Stop, 2, [WAITS, WAITS, WAITS, WAITS]),
    (Mode::Stop, 3, [WAITS, ANSWERED, WAITS, ANSWERED]),
    (Mode::Stop, 4, [WAITS, ANSWERED, WAITS, ANSWERED]),
    (Mode::Stop, 5, [ANSWERED, ANSWERED, ANSWERED, ANSWERED]),
    (Mode::Fail, 1, [WAITS, WAITS, WAITS, WAITS]),
];

#[test]
fn what_a_stopped_step_leaves(rt: HostRuntime) -> Result<(), Fail> {
    for (mode, call, queues) in STOPS {
        assert!(rt;
            left_by_each(rt.alloc(), mode, call)? == queues,
            "{mode:?} {call}"
        );
    }
    Ok(())
}
