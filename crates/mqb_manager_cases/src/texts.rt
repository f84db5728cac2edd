//! Texts of faults of an entry, a state, a store and a manager's calls, which no program prints.
use mqb_base::Memory;
use mqb_entries::EntryFault;
use mqb_model::{
    AddPeerFault, CommitFault, CreateFault, HearFault, LinkFault, OpFault, PumpFault, PurgeFault,
    SendFault, StoreFault, TakeFault,
};
use mqb_state::{BackFault, PrepareFault};
use mqb_store::WriteFault;
use std::alloc::Global;
use std::fmt::Display;
use std::test::Fail;

/// Adds the text of each fault, and a line feed behind it.
fn put<E: Display>(alloc: Global, faults: &[E], out: &mut Vec<u8>) -> Result<(), Memory> {
    for fault in faults {
        let text = format!(in alloc; "{fault}\n")?;
        out.extend_from_slice(text.as_bytes())?;
    }
    Ok(())
}

static ENTRY: [EntryFault; 1] = [EntryFault { at: 7 }];

static PREPARE: [PrepareFault; 2] = [PrepareFault::Unfit, PrepareFault::Memory];

static BACK: [BackFault; 2] = [BackFault::Bad { at: 40 }, BackFault::Memory];

static WRITE: [WriteFault; 2] = [WriteFault::Memory, WriteFault::DiskFault];

fn put_stores(alloc: Global, out: &mut Vec<u8>) -> Result<(), Memory> {
    put(alloc, &ENTRY, out)?;
    put(alloc, &PREPARE, out)?;
    put(alloc, &BACK, out)?;
    put(alloc, &WRITE, out)
}

static ADD_PEER: [AddPeerFault; 5] = [
    AddPeerFault::Down,
    AddPeerFault::PeerThere,
    AddPeerFault::TooManyPeers,
    AddPeerFault::Memory,
    AddPeerFault::DiskFault,
];

static CREATE: [CreateFault; 5] = [
    CreateFault::Down,
    CreateFault::QueueThere,
    CreateFault::TooManyQueues,
    CreateFault::Memory,
    CreateFault::DiskFault,
];

static STORE: [StoreFault; 3] = [StoreFault::Down, StoreFault::Memory, StoreFault::DiskFault];

static LINK: [LinkFault; 3] = [LinkFault::Down, LinkFault::Linked, LinkFault::NoPeer];

static TAKE: [TakeFault; 5] = [
    TakeFault::Down,
    TakeFault::NoQueue,
    TakeFault::QueueEmpty,
    TakeFault::Memory,
    TakeFault::DiskFault,
];

static PURGE: [PurgeFault; 4] = [
    PurgeFault::Down,
    PurgeFault::NoQueue,
    PurgeFault::Memory,
    PurgeFault::DiskFault,
];

fn put_places(alloc: Global, out: &mut Vec<u8>) -> Result<(), Memory> {
    put(alloc, &ADD_PEER, out)?;
    put(alloc, &CREATE, out)?;
    put(alloc, &STORE, out)?;
    put(alloc, &LINK, out)?;
    put(alloc, &TAKE, out)?;
    put(alloc, &PURGE, out)
}

static OP: [OpFault; 6] = [
    OpFault::NoQueue,
    OpFault::NotTransactional,
    OpFault::QueueEmpty,
    OpFault::UnknownPeer,
    OpFault::QueueFull,
    OpFault::SequenceSpent,
];

static COMMIT: [CommitFault; 8] = [
    CommitFault::Down,
    CommitFault::NoOps,
    CommitFault::TooManyOps,
    CommitFault::AtOp {
        index: 2,
        fault: OpFault::QueueFull,
    },
    CommitFault::NumbersSpent,
    CommitFault::TooLarge,
    CommitFault::Memory,
    CommitFault::DiskFault,
];

static SEND: [SendFault; 9] = [
    SendFault::Down,
    SendFault::UnknownPeer,
    SendFault::NoQueue,
    SendFault::Transactional,
    SendFault::QueueFull,
    SendFault::NumbersSpent,
    SendFault::TooLarge,
    SendFault::Memory,
    SendFault::DiskFault,
];

static HEAR: [HearFault; 4] = [
    HearFault::Down,
    HearFault::NotLinked,
    HearFault::Memory,
    HearFault::DiskFault,
];

static PUMP: [PumpFault; 5] = [
    PumpFault::Down,
    PumpFault::NotLinked,
    PumpFault::Spent,
    PumpFault::Memory,
    PumpFault::DiskFault,
];

fn put_messages(alloc: Global, out: &mut Vec<u8>) -> Result<(), Memory> {
    put(alloc, &OP, out)?;
    put(alloc, &COMMIT, out)?;
    put(alloc, &SEND, out)?;
    put(alloc, &HEAR, out)?;
    put(alloc, &PUMP, out)
}

const TEXTS: &[u8] = b"no entry's field stands at 7
a record that does not fit
out of memory
no state's field stands at 40
out of memory
out of memory
a call of the disk failed
the manager is down
the host or the GUID is known already
64 peers are known
out of memory
a call of the disk failed
the manager is down
the name or the GUID is a queue's already
1,024 queues are there
out of memory
a call of the disk failed
the manager is down
out of memory
a call of the disk failed
the manager is down
a session is there
no such peer
the manager is down
no such queue
no message can be taken
out of memory
a call of the disk failed
the manager is down
no such queue
out of memory
a call of the disk failed
no such queue
the queue is not transactional
no message can be taken
the destination leads nowhere
the queue is full
no sequence is left
the manager is down
a transaction has an op
a transaction has at most 64 ops
op 2: the queue is full
no message number is left
a packet or the record is too large
out of memory
a call of the disk failed
the manager is down
the destination leads nowhere
no such queue
the queue is transactional
the queue is full
no message number is left
the packet is too large
out of memory
a call of the disk failed
the manager is down
no session is there
out of memory
a call of the disk failed
the manager is down
no session is there
the session has used all its numbers
out of memory
a call of the disk failed
";

#[test]
fn texts_of_faults(rt: HostRuntime) -> Result<(), Fail> {
    let mut out = Vec::new(rt.alloc());
    put_stores(rt.alloc(), &mut out)?;
    put_places(rt.alloc(), &mut out)?;
    put_messages(rt.alloc(), &mut out)?;
    assert!(rt; out.as_slice() == TEXTS);
    Ok(())
}
