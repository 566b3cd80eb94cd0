//! What can be wrong with a case file.

use std::alloc::{AllocError, AllocFailed};
use thiserror::Error;

/// Why a line can't be read.
#[derive(Clone, Copy, Debug, PartialEq, Eq, Error)]
pub enum BadLine {
    /// A growth was refused.
    #[error("out of memory")]
    Memory,
    /// A quoted word has no end, or other text touches it.
    #[error("a quoted word begins behind a blank and ends before one")]
    Quote,
    /// What stands behind a `\` is not `n`, `r`, `t`, `\`, `"`, or `x` with two hexadecimal digits.
    #[error("behind a \\ stands n, r, t, \\, \" or x with two digits")]
    Escape,
    /// A call stands before the first `case`.
    #[error("a call stands behind a line `case NAME`")]
    NoCase,
    /// A case has no name.
    #[error("a case has a name")]
    NoName,
    /// A line of text or of a reply belongs to no call.
    #[error("a line that begins with | or > stands behind its call")]
    NoCall,
    /// `side by side` within such lines, `end` without them, or a case that ends within them.
    #[error("`side by side` and `end` stand in turn, within one case")]
    Block,
    /// A line is only the name of a thread.
    #[error("a call stands behind the name of its thread")]
    NoWords,
}

impl From<AllocError> for BadLine {
    fn from(_refused: AllocError) -> BadLine {
        BadLine::Memory
    }
}

impl<T: Drop> From<AllocFailed<T>> for BadLine {
    fn from(_refused: AllocFailed<T>) -> BadLine {
        BadLine::Memory
    }
}

/// The first line of a file that can't be read, counted from 1, and why.
#[derive(Clone, Copy, Debug, PartialEq, Eq, Error)]
#[error("line {line}: {bad}")]
pub struct CaseFault {
    pub line: u32,
    pub bad: BadLine,
}
