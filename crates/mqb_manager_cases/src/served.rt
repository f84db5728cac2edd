//! What is served over an input and an output: cut into pieces, and where a call fails. A store goes on from one row to the next.
use crate::orders::{BETA, NOTHING_CAME, ONE_CAME, disk_of, order};
use crate::pieces::Coming;
use crate::runs::{is_held, served};
use mqb_base::Memory;
use mqb_commands::Status;
use mqb_disk::MemoryDisk;
use std::alloc::Global;
use std::test::Fail;

/// How long the first piece is at most, and how long each other one. Packets end at 572 and 604, and their sizes stand 8 bytes behind where they begin.
static PIECES: [(usize, usize); 16] = [
    (1, 1),
    (2, 3),
    (8, 812),
    (12, 812),
    (16, 16),
    (36, 36),
    (571, 1),
    (571, 812),
    (572, 32),
    (573, 812),
    (583, 4),
    (603, 812),
    (604, 208),
    (605, 812),
    (619, 812),
    (811, 812),
];

/// How a connection ends over which this comes, where the same is sent as before.
fn alike(
    alloc: Global,
    disk: &mut MemoryDisk,
    coming: Coming<'_>,
    whole: &[u8],
) -> Result<Option<Status>, Memory> {
    let mut sent = Vec::new(alloc);
    let end = served(alloc, disk, coming, &mut sent);
    let is_alike = sent.as_slice() == whole;
    drop(sent);
    let end = end?;
    Ok(is_alike.then_some(end))
}

/// Whether it ends as before however the bytes are cut, and leaves the same.
fn is_cut_alike(
    alloc: Global,
    disk: &mut MemoryDisk,
    coming: Coming<'_>,
    end: Status,
    whole: &[u8],
) -> Result<bool, Memory> {
    for (first, rest) in PIECES {
        let cut = Coming {
            first,
            rest,
            ..coming
        };
        if alike(alloc, disk, cut, whole)? != Some(end) || !is_held(alloc, disk, ONE_CAME) {
            return Ok(false);
        }
    }
    Ok(true)
}

/// The same of a store that has served all at once before.
fn is_served_alike(alloc: Global, disk: &mut MemoryDisk, bytes: &[u8]) -> Result<bool, Memory> {
    let whole = Coming::whole(bytes);
    let mut sent = Vec::new(alloc);
    let end = served(alloc, disk, whole, &mut sent)?;
    is_cut_alike(alloc, disk, whole, end, sent.as_slice())
}

#[test]
fn what_is_served_is_cut(rt: HostRuntime) -> Result<(), Fail> {
    let bytes = order(rt.alloc())?;
    let mut beta = disk_of(rt.alloc(), &BETA)?;
    let is_alike = is_served_alike(rt.alloc(), &mut beta, &bytes);
    drop(beta);
    drop(bytes);
    assert!(rt; is_alike?);
    Ok(())
}

/// As many bytes come at once. So the third of five pieces ends the set-up, and the last is empty.
const PIECE: usize = 208;

/// The reads and writes that fail, how it ends, the bytes sent before, and what the store holds.
type Row = (&'static [u32], &'static [u32], Status, usize, &'static str);

static FAILING: [Row; 8] = [
    (&[1], &[], Status::ReadFault, 0, NOTHING_CAME),
    (&[2], &[], Status::ReadFault, 0, NOTHING_CAME),
    (&[3], &[], Status::ReadFault, 0, NOTHING_CAME),
    (&[4], &[], Status::ReadFault, 604, NOTHING_CAME),
    (&[], &[1], Status::WriteFault, 0, NOTHING_CAME),
    (&[], &[2], Status::WriteFault, 572, NOTHING_CAME),
    (&[], &[3], Status::WriteFault, 604, ONE_CAME),
    (&[5], &[], Status::ReadFault, 820, ONE_CAME),
];

/// Whether a connection goes as its row tells.
fn is_served_so(
    alloc: Global,
    disk: &mut MemoryDisk,
    bytes: &[u8],
    row: &Row,
) -> Result<bool, Memory> {
    let (failing_reads, failing_writes, end, count, text) = *row;
    let coming = Coming {
        bytes,
        first: PIECE,
        rest: PIECE,
        failing_reads,
        failing_writes,
    };
    let mut sent = Vec::new(alloc);
    let ended = served(alloc, disk, coming, &mut sent);
    let sent_count = sent.len();
    drop(sent);
    Ok(ended? == end && sent_count == count && is_held(alloc, disk, text))
}

/// The first of the rows that is not so.
fn first_wrong(
    alloc: Global,
    disk: &mut MemoryDisk,
    bytes: &[u8],
) -> Result<Option<usize>, Memory> {
    for (k, row) in FAILING.iter().enumerate() {
        if !is_served_so(alloc, disk, bytes, row)? {
            return Ok(Some(k));
        }
    }
    Ok(None)
}

#[test]
fn a_call_fails_that_serves(rt: HostRuntime) -> Result<(), Fail> {
    let bytes = order(rt.alloc())?;
    let mut beta = disk_of(rt.alloc(), &BETA)?;
    let wrong = first_wrong(rt.alloc(), &mut beta, &bytes);
    drop(beta);
    drop(bytes);
    assert!(rt; wrong?.is_none());
    Ok(())
}
