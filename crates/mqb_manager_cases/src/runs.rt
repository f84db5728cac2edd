//! One connection of a store.
use crate::asking::{holds, probes, pushes};
use crate::pieces::{Coming, Pieces};
use mqb_base::{Bytes, Memory, Name};
use mqb_commands::Status;
use mqb_disk::MemoryDisk;
use mqb_outside::{ConnPlan, MemoryNet, MemorySink};
use std::alloc::Global;
use std::test::Fail;

/// Whether a store holds exactly this, as `list` says it.
pub(crate) fn is_held(alloc: Global, disk: &mut MemoryDisk, text: &str) -> bool {
    let found = holds(alloc, disk);
    let is_held = found.as_slice() == text.as_bytes();
    drop(found);
    is_held
}

/// A store serves what comes from this source. What is sent is added behind what was sent before.
fn answered(
    alloc: Global,
    disk: &mut MemoryDisk,
    input: &mut Pieces,
    failing_writes: &[u32],
    sent: &mut Vec<u8>,
) -> Result<Status, Memory> {
    let mut out = MemorySink::new(alloc, failing_writes)?;
    let end = probes(alloc, input, &mut out, disk);
    let kept = sent.extend_from_slice(out.as_slice());
    drop(out);
    kept?;
    Ok(end)
}

/// A store serves what comes: how it ends.
pub(crate) fn served(
    alloc: Global,
    disk: &mut MemoryDisk,
    coming: Coming<'_>,
    sent: &mut Vec<u8>,
) -> Result<Status, Memory> {
    let mut input = Pieces::new(alloc, coming)?;
    let end = answered(alloc, disk, &mut input, coming.failing_writes, sent);
    drop(input);
    end
}

/// A connection over which this comes at once.
pub(crate) fn plan_of(alloc: Global, coming: Coming<'_>) -> Result<ConnPlan, Memory> {
    let bytes = Bytes::from_slice(alloc, coming.bytes)?;
    let failing_reads = Vec::from_slice(alloc, coming.failing_reads)?;
    let failing_writes = Vec::from_slice(alloc, coming.failing_writes)?;
    Ok(ConnPlan {
        bytes,
        failing_reads,
        failing_writes,
    })
}

/// A net of one connection, over which this comes at once.
fn net_of(alloc: Global, coming: Coming<'_>) -> Result<MemoryNet, Memory> {
    let plan = plan_of(alloc, coming)?;
    let mut plans = Vec::new(alloc);
    plans.push(Some(plan))?;
    MemoryNet::new(alloc, plans)
}

/// How many bytes were sent over the first connection that ended.
fn sent_first(net: &MemoryNet) -> usize {
    match net.finished().first() {
        Some(conn) => conn.sent().len(),
        None => 0,
    }
}

/// What is printed where a push ends so.
fn line_of(end: Status) -> &'static [u8] {
    match end {
        Status::Done => b"connection 1: ended\n",
        Status::NetFault => b"connection 1: netfault\n",
        _ => b"connection 1: closed\n",
    }
}

/// How a push ends, and whether the line says so that it prints.
fn told(
    alloc: Global,
    host: &Name,
    disk: &mut MemoryDisk,
    net: &mut MemoryNet,
) -> Result<(Status, bool), Memory> {
    let mut out = MemorySink::new(alloc, &[])?;
    let end = pushes(alloc, host, &mut out, disk, net);
    let is_told = out.as_slice() == line_of(end);
    drop(out);
    Ok((end, is_told))
}

/// A store pushes to beta, over a connection over which this comes at once: how it ends, where its
/// line says so, and how many bytes are sent.
pub(crate) fn pushed(
    alloc: Global,
    disk: &mut MemoryDisk,
    coming: Coming<'_>,
) -> Result<Option<(Status, usize)>, Fail> {
    let host = Name::new(alloc, b"beta")?;
    let mut net = net_of(alloc, coming)?;
    let told = told(alloc, &host, disk, &mut net);
    let sent = sent_first(&net);
    drop(net);
    drop(host);
    let (end, is_told) = told?;
    Ok(is_told.then_some((end, sent)))
}
