//! Why a file gives no commands.
ghost use Rattle.std.specs.Prelude.{◌≡◌};
ghost use Rattle.command_file.specs.declared.fault.FileFault.TheVariants.{Memory};

use std::alloc::{AllocError, AllocFailed};
use thiserror::Error;

/// Why a file gives no commands.
#[derive(Clone, Copy, Debug, PartialEq, Eq, Error)]
pub enum FileFault {
    /// The first line that is neither empty nor a command. The first line of a file has the number 1.
    #[error("line {0}: bad command")]
    BadLine(u32),
    /// All the lines that a file may have are good, and there are more.
    #[error("too many lines")]
    TooManyLines,
    /// The reader failed, other than by an interruption.
    #[error("read")]
    Read,
    /// A growth was refused.
    #[error("memory")]
    Memory,
}

impl From<AllocError> for FileFault {
    ghost from_gives = { λ _ fault. fault ≡ Memory };

    fn from(_refused: AllocError) -> FileFault {
        FileFault::Memory
    }
}

impl<T: Drop> From<AllocFailed<T>> for FileFault {
    ghost from_gives = { λ _ fault. fault ≡ Memory };

    fn from(_refused: AllocFailed<T>) -> FileFault {
        FileFault::Memory
    }
}
