//! Why a plain run ends early.

use command_file::FileFault;
use thiserror::Error;

/// Why a plain run ended early.
#[derive(Clone, Copy, Debug, PartialEq, Eq, Error)]
pub enum PlainFault {
    /// The file gives no commands.
    #[error("{0}")]
    File(FileFault),
    /// A command asks the table itself, which this run has not. The first command of the file has the number 1.
    #[error("command {0}: asks the table")]
    AsksTable(u32),
    /// A growth was refused.
    #[error("memory")]
    Memory,
    /// A write of the output failed.
    #[error("write failed")]
    Write,
    /// There is no memory to put the pairs in order. The lines before `contents` were written.
    #[error("contents: memory")]
    Contents,
}
