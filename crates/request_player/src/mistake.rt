//! Why a call has no reply.

use std::alloc::{AllocError, AllocFailed};
use thiserror::Error;

#[derive(Clone, Copy, Debug, Error)]
pub(crate) enum Mistake {
    /// A growth was refused. The call may be made once more.
    #[error("memory")]
    Memory,
    /// The line can't be played, or broke a promise that is no reply.
    #[error("{0}")]
    Said(&'static str),
}

/// What stands on the line is not what the call takes.
pub(crate) const WORDS: Mistake = Mistake::Said(
    "the call is given other words, see the README of the cases",
);

impl From<AllocError> for Mistake {
    fn from(_refused: AllocError) -> Mistake {
        Mistake::Memory
    }
}

impl<T: Drop> From<AllocFailed<T>> for Mistake {
    fn from(_refused: AllocFailed<T>) -> Mistake {
        Mistake::Memory
    }
}
