//! Why a device over a store fails.
use std::alloc::AllocError;
use std::io::ErrorKind;
use thiserror::Error;

/// Why a call of a `RespDevice` answered `Failed`. From `Wrong` on the pipes are used no more, until
/// the device gets others.
#[derive(Clone, Copy, Debug, PartialEq, Eq, Error)]
pub enum StoreFailure {
    /// The object is longer than 64 MiB.
    #[error("an object is too long")]
    TooLong,
    /// The store replied an error, as `-OOM` or `-ERR`.
    #[error("the store refused a command")]
    Refused,
    /// The store has the object no more.
    #[error("the store has lost an object")]
    Lost,
    /// What came back is not what was written: its length or its digest differs.
    #[error("an object is damaged")]
    Damaged,
    /// The reply is none to this command.
    #[error("a reply of another kind")]
    Wrong,
    /// What came is no reply, or one that is longer than it may be.
    #[error("a malformed reply")]
    Malformed,
    /// More came than the reply.
    #[error("bytes behind a reply")]
    Surplus,
    /// The input ended before the reply did.
    #[error("the input has ended")]
    Ended,
    /// The system failed a read.
    #[error("cannot read: {0}")]
    Read(ErrorKind),
    /// The system failed a write.
    #[error("cannot write: {0}")]
    Write(ErrorKind),
    /// A growth of memory was refused in the midst of a reply.
    #[error("memory")]
    Memory,
    /// An earlier call broke the pipes, and they were not used.
    #[error("the pipes are broken")]
    Broken,
}

/// Why a device could not be opened.
#[derive(Clone, Copy, Debug, PartialEq, Eq, Error)]
pub enum StoreOpenFault {
    /// A growth of memory was refused.
    #[error("memory")]
    Memory,
    /// The system gave no random bytes, or did not open a pipe, and answered so.
    #[error("{0}")]
    Io(ErrorKind),
}

impl From<AllocError> for StoreOpenFault {
    fn from(_refused: AllocError) -> StoreOpenFault {
        StoreOpenFault::Memory
    }
}
