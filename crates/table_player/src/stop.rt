//! Why a call has no reply of its own.

use anyhow::{Result, bail};
use std::alloc::{AllocError, AllocFailed, Global};

/// Why a call has no reply of its own.
#[derive(Clone, Copy)]
pub enum Stop {
    /// A growth was refused.
    Memory,
    /// The case asks for what can't be.
    Mistake(&'static str),
}

impl From<AllocError> for Stop {
    fn from(_refused: AllocError) -> Stop {
        Stop::Memory
    }
}

impl<T: Drop> From<AllocFailed<T>> for Stop {
    fn from(_refused: AllocFailed<T>) -> Stop {
        Stop::Memory
    }
}

/// A call's reply, or why it has none.
pub type Reply = Result<String, Stop>;

/// A mistake of the case.
pub fn mistake(text: &'static str) -> Result<String> {
    bail!("{text}")
}

/// What is told of a call.
pub fn told(alloc: Global, reply: Reply) -> Result<String> {
    match reply {
        Ok(text) => Ok(text),
        Err(Stop::Memory) => Ok(String::from_str(alloc, "memory")?),
        Err(Stop::Mistake(text)) => mistake(text),
    }
}
