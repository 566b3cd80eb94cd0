//! Why a call gets no reply.

use far_object::{Memory, TextFault};
use std::alloc::{AllocError, AllocFailed};
use std::{fmt, io};
use thiserror::Error;

/// Why a call gets no reply.
#[derive(Clone, Copy, Debug, PartialEq, Eq, Error)]
pub enum Mistake {
    /// A growth was refused, to the call or to the player.
    #[error("memory")]
    Memory,
    /// The line is no call, or the call may not be made so.
    #[error("{0}")]
    Call(&'static str),
}

impl From<AllocError> for Mistake {
    fn from(_refused: AllocError) -> Mistake {
        Mistake::Memory
    }
}

impl<T: Drop> From<AllocFailed<T>> for Mistake {
    fn from(_refused: AllocFailed<T>) -> Mistake {
        Mistake::Memory
    }
}

impl From<Memory> for Mistake {
    fn from(_refused: Memory) -> Mistake {
        Mistake::Memory
    }
}

impl From<io::Error> for Mistake {
    fn from(_refused: io::Error) -> Mistake {
        Mistake::Memory
    }
}

impl From<TextFault> for Mistake {
    fn from(fault: TextFault) -> Mistake {
        match fault {
            TextFault::Memory => Mistake::Memory,
            TextFault::TooLong => Mistake::Call("a text has at most 65,535 bytes"),
        }
    }
}
