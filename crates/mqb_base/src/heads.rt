use crate::ids::SequenceId;

/// The transaction header of a packet: the sequence, the message's number in it, and the number of
/// the kept message before it, or 0.
#[derive(Clone, Copy, Debug, PartialEq, Eq)]
pub struct TxHead {
    pub sequence: SequenceId,
    pub number: u32,
    pub previous: u32,
}

/// The session header of a packet. The first two numbers are counts of what its sender got and
/// stored, the next two are the packet's own, and `window` is the sender's own window.
/// `stored_flags` is written 0, and no value of it has a meaning.
#[derive(Clone, Copy, Debug, PartialEq, Eq)]
pub struct SessionHead {
    pub ack: u16,
    pub stored: u16,
    pub stored_flags: u32,
    pub user: u16,
    pub recoverable: u16,
    pub window: u16,
}
