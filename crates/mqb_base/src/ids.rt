use crate::names::Name;

/// A GUID, its bytes in the order of its text. In packets and stores its first three
/// numbers are little-endian.
#[derive(Clone, Copy, Debug, PartialEq, Eq, Hash)]
pub struct Guid(pub [u8; 16]);

/// The identifier of a message: its source manager, and a number of that manager. Durable messages
/// have numbers from 1 to 0x7FFFFFFF, and express ones from 0x80000000 on.
#[derive(Clone, Copy, Debug, PartialEq, Eq, Hash)]
pub struct MessageId {
    pub qm: Guid,
    pub number: u32,
}

/// The identifier of a sequence, ordered by its ordinal and then by the moment of its first commit.
#[derive(Clone, Copy, Debug, PartialEq, Eq, PartialOrd, Ord, Hash)]
pub struct SequenceId {
    pub ordinal: u32,
    pub stamp: u32,
}

/// A manager: its host, its GUID and its IPv4 address.
#[derive(Clone, Debug, PartialEq, Eq, Drop)]
pub struct Identity {
    pub host: Name,
    pub guid: Guid,
    pub address: [u8; 4],
}
