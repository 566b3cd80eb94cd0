//! What can be wrong: want of memory, and bytes that are not what they were to be.
use std::alloc::{AllocError, AllocFailed};
use thiserror::Error;

/// A growth was refused.
#[derive(Clone, Copy, Debug, PartialEq, Eq, Error)]
#[error("out of memory")]
pub struct Memory;

impl From<AllocError> for Memory {
    fn from(_refused: AllocError) -> Memory {
        Memory
    }
}

impl<T: Drop> From<AllocFailed<T>> for Memory {
    fn from(_refused: AllocFailed<T>) -> Memory {
        Memory
    }
}

/// Why bytes are no value, or no object.
#[derive(Clone, Copy, Debug, PartialEq, Eq, Error)]
pub enum ObjectFault {
    /// A growth was refused, for bytes that do begin with a value.
    #[error("out of memory")]
    Memory,
    /// The bytes end within a value, a count or a header.
    #[error("bytes cut short")]
    Short,
    /// Bytes follow the last pair.
    #[error("bytes after the last pair")]
    Trailing,
    /// A key is not above the key before it.
    #[error("keys out of order")]
    Disorder,
    /// The count is above 1,048,576.
    #[error("count of pairs out of range")]
    CountWrong,
    /// The header gives another bucket or another name.
    #[error("object of another bucket or name")]
    Misplaced,
}

/// Why bytes make no text.
#[derive(Clone, Copy, Debug, PartialEq, Eq, Error)]
pub enum TextFault {
    /// A growth was refused.
    #[error("out of memory")]
    Memory,
    /// There are more than 65,535 bytes.
    #[error("text too long")]
    TooLong,
}
