use thiserror::Error;

/// The most UTF-16 units of a direct name: `OS:`, a host, `\PRIVATE$\` and a queue.
pub const MAX_DIRECT_UNITS: usize = 141;

/// Why no wire form of a name stands at the front of bytes.
#[derive(Clone, Copy, Debug, PartialEq, Eq, Error)]
pub enum WireFault {
    /// The bytes end before the count of a direct name's units, or before the last byte.
    #[error("the bytes end in a name")]
    Short,
    /// No such type, too many units, or units that are no direct name.
    #[error("no name")]
    Bad,
}

/// The wire form of a name: its type, 1 to 3, and its bytes.
#[derive(Clone, Copy, Debug)]
pub struct NameView<'a> {
    pub kind: u8,
    pub part: &'a [u8],
}
