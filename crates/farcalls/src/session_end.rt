//! How a session ends.

use request_loop::LoopFault;
use thiserror::Error;

/// Why a session ended before its requests did.
#[derive(Clone, Copy, Debug, PartialEq, Eq, Error)]
pub enum SessionFault {
    /// The system could not open one of its pipes.
    #[error("its pipes can't be opened")]
    Pipes,
    /// An allocation failed.
    #[error("memory was refused")]
    Memory,
    /// The loop can't go on, for example because a packet can't be read.
    #[error("{0}")]
    Loop(LoopFault),
}

/// How a session has ended.
#[derive(Drop)]
pub enum SessionEnd<I: Drop, O: Drop> {
    /// It served until no more packets came. These are its reader and its writer.
    Served(I, O),
    Failed(SessionFault),
}
