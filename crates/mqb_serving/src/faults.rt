use mqb_base::Cause;
use mqb_fields::HeadFault;
use thiserror::Error;

/// What a peer did that ended a connection badly. `place` is that of a packet's first byte
/// among those that came.
#[derive(Clone, Copy, Debug, PartialEq, Eq, Error)]
pub enum PeerFault {
    #[error("the peer ended the connection too soon")]
    PeerClosed,
    #[error("the packet at {place}: {fault}")]
    Bad { place: u64, fault: HeadFault },
    #[error("the session closed: {0:?}")]
    Closed(Cause),
    #[error("the session has used all its numbers")]
    Spent,
    #[error("the connection brought too many bytes")]
    TooMuch,
}

/// Why a connection ended badly. After `DiskFault` the manager is down; after all
/// others it is not linked.
#[derive(Clone, Copy, Debug, PartialEq, Eq, Error)]
pub enum ConnFault {
    #[error("{0}")]
    Peer(PeerFault),
    #[error("a read of the connection failed")]
    ReadFault,
    #[error("a write to the connection failed")]
    WriteFault,
    #[error("a call of the disk failed")]
    DiskFault,
    #[error("out of memory")]
    Memory,
}
