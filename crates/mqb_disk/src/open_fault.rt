use std::io::{self, ErrorKind};
use thiserror::Error;

/// Why no disk was opened in a file.
#[derive(Clone, Copy, Debug, PartialEq, Eq, Error)]
pub enum OpenFault {
    #[error("another disk is open in the file")]
    InUse,
    #[error("no such file")]
    Missing,
    #[error("the file cannot be opened")]
    Failed,
}

/// A lock that would be waited for is another disk's.
pub(crate) fn fault_of(error: &io::Error) -> OpenFault {
    match error.kind() {
        ErrorKind::WouldBlock => OpenFault::InUse,
        ErrorKind::NotFound => OpenFault::Missing,
        _ => OpenFault::Failed,
    }
}
