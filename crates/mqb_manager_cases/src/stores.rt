//! A manager on a disk: what it reads of a bad store, and what is in doubt where its disk stops.
use crate::orders::write;
use mqb_base::{Guid, Identity, Name, NameError};
use mqb_disk::{MemoryDisk, TraceDisk};
use mqb_journal::OpenFault;
use mqb_manager::Manager;
use mqb_outside::{Disk, Mode, Pick, Power};
use std::alloc::Global;
use std::test::Fail;

/// A manager whose GUID is sixteen equal bytes.
pub(crate) fn identity(alloc: Global, host: &[u8], byte: u8) -> Result<Identity, NameError> {
    Ok(Identity {
        host: Name::new(alloc, host)?,
        guid: Guid([byte; 16]),
        address: [10, 0, 0, byte],
    })
}

/// A store whose first record is of no kind. The length of the second one is 9,000,000.
const BAD: [u8; 88] =
    *b"MQBJ\x01\0\0\0AAAAAAAAAAAAAAAA\x01\x1B\0\0\0\xC8\x05alphaAAAAAAAAAAAAAAAA\x0A\0\0\x01\x01@T\
\x89\0\x02\x04betaBBBBBBBBBBBBBBBB\x0A\0\0\x02\0";

/// Why no manager starts on a disk.
fn fault_on(alloc: Global, disk: &mut TraceDisk) -> Option<OpenFault> {
    match Manager::start(alloc, disk) {
        Ok(manager) => {
            manager.close();
            None
        }
        Err(fault) => Some(fault),
    }
}

/// Where the furthest of these reads ends.
fn last_byte(reads: &[(u64, u64)]) -> u64 {
    let mut last = 0;
    for read in reads {
        last = read.0.saturating_add(read.1).max(last);
    }
    last
}

/// Each record is applied before the next one is read: of the second one the gate alone is.
#[test]
fn records_are_read_one_at_a_time(rt: HostRuntime) -> Result<(), Fail> {
    let mut disk = TraceDisk::new(rt.alloc(), 128, 32)?;
    let written = write(&mut disk, &BAD);
    let fault = fault_on(rt.alloc(), &mut disk);
    let last = last_byte(disk.reads());
    drop(disk);
    assert!(rt; written == Ok(()));
    assert!(rt; fault == Some(OpenFault::BadStore { at: 24 }));
    assert!(rt; last <= 57);
    Ok(())
}

/// The entry by which a manager knows beta.
const PEER: &[u8] = b"\x02\x04betaBBBBBBBBBBBBBBBB\x0A\0\0B";

/// How many calls the disk has where a store is formatted.
const FORMATTED: u32 = 7;

/// Whether the entry of a peer is in doubt behind the call that records it.
fn is_doubted<D: Disk>(
    alloc: Global,
    disk: &mut D,
    own: &Identity,
    peer: &Identity,
) -> Result<bool, OpenFault> {
    let mut manager = Manager::format(alloc, disk, own)?;
    let _index = manager.add_peer(disk, peer);
    let is_doubted = manager.doubt() == Some(PEER);
    manager.close();
    Ok(is_doubted)
}

fn is_beta_doubted<D: Disk>(alloc: Global, disk: &mut D) -> Result<bool, Fail> {
    let own = identity(alloc, b"alpha", b'A')?;
    let peer = identity(alloc, b"beta", b'B')?;
    let is_doubted = is_doubted(alloc, disk, &own, &peer);
    drop(peer);
    drop(own);
    Ok(is_doubted?)
}

/// Whether nothing is in doubt behind a start and a checkpoint is written; the number of records.
fn started<D: Disk>(alloc: Global, disk: &mut D) -> Result<(bool, u64), OpenFault> {
    let mut manager = Manager::start(alloc, disk)?;
    let count = manager.lsn();
    let is_settled = manager.doubt().is_none();
    let is_written = manager.checkpoint(disk).is_ok();
    manager.close();
    Ok((is_settled && is_written, count))
}

/// How many records a restart leaves where the disk stops or fails in a call of the record of a peer,
/// or none where its entry was not in doubt, or still is.
fn left(alloc: Global, mode: Mode, call: u32, pick: Pick) -> Result<u64, Fail> {
    let mut disk = MemoryDisk::new(alloc, 8_192)?;
    disk.arm(call.saturating_add(FORMATTED).max(1), mode);
    let is_doubted = is_beta_doubted(alloc, &mut disk);
    disk.restart(pick);
    let started = started(alloc, &mut disk);
    drop(disk);
    let is_doubted = is_doubted?;
    let (is_settled, count) = started?;
    Ok(if is_doubted && is_settled { count } else { 0 })
}

/// The same by each pick.
fn left_by_each(alloc: Global, mode: Mode, call: u32) -> Result<[u64; 4], Fail> {
    let old = left(alloc, mode, call, Pick::Old)?;
    let new = left(alloc, mode, call, Pick::New)?;
    let half = left(alloc, mode, call, Pick::Half)?;
    let ones = left(alloc, mode, call, Pick::Ones)?;
    Ok([old, new, half, ones])
}

/// A call of a record of which the disk stops or fails, and how many records are left by each pick.
static STOPS: [(Mode, u32, [u64; 4]); 5] = [
    (Mode::Stop, 1, [1, 1, 1, 1]),
    (Mode::Stop, 2, [1, 1, 1, 1]),
    (Mode::Stop, 3, [1, 2, 1, 2]),
    (Mode::Stop, 4, [1, 2, 1, 2]),
    (Mode::Fail, 1, [1, 1, 1, 1]),
];

#[test]
fn what_a_stopped_call_leaves(rt: HostRuntime) -> Result<(), Fail> {
    for (mode, call, counts) in STOPS {
        assert!(rt;
            left_by_each(rt.alloc(), mode, call)? == counts,
            "{mode:?} {call}"
        );
    }
    Ok(())
}
