//! Connections over a net in memory, whose calls fail or which gives none, and what is said then.
use crate::asking::{attends, serves};
use crate::orders::{ALPHA, BETA, IS_ACKNOWLEDGED, IS_OFFERED, WAITS, asking, disk_of, order};
use crate::pieces::Coming;
use crate::runs::{is_held, plan_of, pushed, served};
use mqb_base::Memory;
use mqb_commands::Status;
use mqb_disk::MemoryDisk;
use mqb_outside::{ConnPlan, MemoryNet, MemorySink};
use mqb_serving::PeerFault;
use std::alloc::Global;
use std::test::Fail;

/// Whether beta acknowledges the order, the reads and the writes that fail, how it ends, how many bytes were sent before, and what the store holds.
type Row = (
    bool,
    &'static [u32],
    &'static [u32],
    Status,
    usize,
    &'static str,
);

const CLOSED: Status = Status::Peer(PeerFault::PeerClosed);

static FAILING: [Row; 8] = [
    (true, &[], &[1], Status::NetFault, 0, WAITS),
    (true, &[], &[2], Status::NetFault, 572, WAITS),
    (true, &[1], &[], Status::NetFault, 572, WAITS),
    (true, &[], &[3], Status::NetFault, 604, IS_OFFERED),
    (false, &[], &[], CLOSED, 812, IS_OFFERED),
    (false, &[2], &[], Status::NetFault, 812, IS_OFFERED),
    (true, &[], &[4], Status::NetFault, 812, IS_ACKNOWLEDGED),
    (true, &[], &[], Status::Done, 604, IS_ACKNOWLEDGED),
];

/// What beta sends to alpha: 572, 32 and 216 bytes, of which the last are an order acknowledgement.
fn answers(alloc: Global) -> Result<Vec<u8>, Fail> {
    let order = order(alloc)?;
    let mut beta = disk_of(alloc, &BETA)?;
    let mut sent = Vec::new(alloc);
    let end = served(alloc, &mut beta, Coming::whole(&order), &mut sent);
    drop(beta);
    drop(order);
    end?;
    Ok(sent)
}

/// Whether a push goes as its row tells.
fn is_pushed_so(
    alloc: Global,
    disk: &mut MemoryDisk,
    answers: &[u8],
    asking: &[u8],
    row: &Row,
) -> Result<bool, Fail> {
    let (is_acknowledged, failing_reads, failing_writes, end, count, text) = *row;
    let coming = Coming {
        failing_reads,
        failing_writes,
        ..Coming::whole(if is_acknowledged { answers } else { asking })
    };
    let went = pushed(alloc, disk, coming)?;
    Ok(went == Some((end, count)) && is_held(alloc, disk, text))
}

/// The first of the rows that is not so. The store goes on from one row to the next.
fn first_wrong(
    alloc: Global,
    disk: &mut MemoryDisk,
    answers: &[u8],
    asking: &[u8],
) -> Result<Option<usize>, Fail> {
    for (k, row) in FAILING.iter().enumerate() {
        if !is_pushed_so(alloc, disk, answers, asking, row)? {
            return Ok(Some(k));
        }
    }
    Ok(None)
}

#[test]
fn a_call_fails_that_pushes(rt: HostRuntime) -> Result<(), Fail> {
    let answers = answers(rt.alloc())?;
    let asking = asking(rt.alloc())?;
    let mut alpha = disk_of(rt.alloc(), &ALPHA)?;
    let wrong = first_wrong(rt.alloc(), &mut alpha, &answers, &asking);
    drop(alpha);
    assert!(rt; wrong?.is_none());
    Ok(())
}

/// The reads and the writes that fail of four connections, over each of which an order comes: two of
/// them are lost.
static FOUR: [(&'static [u32], &'static [u32]); 4] = [
    (&[], &[]),
    (&[1], &[]),
    (&[], &[3]),
    (&[], &[]),
];

fn put_four(plans: &mut Vec<Option<ConnPlan>>, alloc: Global, order: &[u8]) -> Result<(), Memory> {
    for (failing_reads, failing_writes) in FOUR {
        let coming = Coming {
            failing_reads,
            failing_writes,
            ..Coming::whole(order)
        };
        let plan = plan_of(alloc, coming)?;
        plans.push(Some(plan))?;
    }
    Ok(())
}

fn four(alloc: Global, order: &[u8]) -> Result<MemoryNet, Memory> {
    let mut plans = Vec::new(alloc);
    match put_four(&mut plans, alloc, order) {
        Ok(()) => MemoryNet::new(alloc, plans),
        Err(memory) => {
            drop(plans);
            Err(memory)
        }
    }
}

const LINES: &str = "connection 1: ended\nconnection 2: netfault\nconnection 3: netfault
connection 4: ended\n";

/// How many are to be served, or as many as come, what is printed, and the exit status. One net goes through two of these.
type Serving = (Option<u32>, &'static str, u8);

static SERVINGS: [[Serving; 2]; 2] = [
    [(Some(4), LINES, 0), (Some(1), "fault: netfault\n", 7)],
    [(None, LINES, 0), (None, "", 0)],
];

/// Whether this is printed, and so the exit status, where so many are served, or as many as come.
fn is_told(
    alloc: Global,
    disk: &mut MemoryDisk,
    net: &mut MemoryNet,
    serving: &Serving,
) -> Result<bool, Memory> {
    let (count, text, exit) = *serving;
    let mut out = MemorySink::new(alloc, &[])?;
    let end = match count {
        Some(count) => serves(alloc, count, &mut out, disk, net),
        None => attends(alloc, &mut out, disk, net),
    };
    let is_told = out.as_slice() == text.as_bytes();
    drop(out);
    Ok(is_told && end.exit() == exit && net.finished().len() == 4)
}

/// Whether both are told over a net of four connections.
fn are_told(
    alloc: Global,
    disk: &mut MemoryDisk,
    order: &[u8],
    servings: &[Serving; 2],
) -> Result<bool, Memory> {
    let mut net = four(alloc, order)?;
    let first = is_told(alloc, disk, &mut net, &servings[0]);
    let then = is_told(alloc, disk, &mut net, &servings[1]);
    drop(net);
    Ok([first?, then?] == [true; 2])
}

#[test]
fn connections_are_lost(rt: HostRuntime) -> Result<(), Fail> {
    let order = order(rt.alloc())?;
    for servings in SERVINGS.iter() {
        let mut beta = disk_of(rt.alloc(), &BETA)?;
        let are_told = are_told(rt.alloc(), &mut beta, &order, servings);
        drop(beta);
        assert!(rt; are_told?);
    }
    Ok(())
}
