//! The commands, of which nothing is said here. So a test that calls them over forms in memory has nothing to carry, and nothing to prove of a manager.
use mqb_base::Name;
use mqb_commands::{Status, list};
use mqb_connections::{attend, probe, reach, serve};
use mqb_outside::{Disk, FixedClock, Net, Sink, Source};
use mqb_serving::Errand;
use std::alloc::Global;

/// When all happens, in seconds.
const NOW: u32 = 1000;

/// Probes a store.
pub(crate) fn probes<S: Source, K: Sink, D: Disk>(
    alloc: Global,
    input: &mut S,
    out: &mut K,
    disk: &mut D,
) -> Status {
    probe(alloc, input, out, disk, &mut FixedClock(NOW))
}

/// Serves so many connections.
pub(crate) fn serves<K: Sink, D: Disk, N: Net>(
    alloc: Global,
    count: u32,
    out: &mut K,
    disk: &mut D,
    net: &mut N,
) -> Status {
    serve(alloc, count, out, disk, net, &mut FixedClock(NOW))
}

/// Serves each peer that comes.
pub(crate) fn attends<K: Sink, D: Disk, N: Net>(
    alloc: Global,
    out: &mut K,
    disk: &mut D,
    net: &mut N,
) -> Status {
    attend(alloc, 1, out, disk, net, &mut FixedClock(NOW))
}

/// Pushes to a host.
pub(crate) fn pushes<K: Sink, D: Disk, N: Net>(
    alloc: Global,
    host: &Name,
    out: &mut K,
    disk: &mut D,
    net: &mut N,
) -> Status {
    reach(
        alloc,
        Errand::Push,
        None,
        host,
        out,
        disk,
        net,
        &mut FixedClock(NOW),
    )
}

/// What a store holds.
pub(crate) fn holds<D: Disk>(alloc: Global, disk: &mut D) -> Vec<u8> {
    list(alloc, disk).text
}
