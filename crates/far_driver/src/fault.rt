//! Why a run ends early.
ghost use Rattle.std.specs.Prelude.{◌≡◌};
ghost use Rattle.far_driver.specs.declared.fault.RunFault.TheVariants.{Memory as refused};
ghost use Rattle.far_driver.specs.Faults.{of_file, of_threads};

use command_file::FileFault;
use run_lines::LineRefusal;
use std::alloc::AllocError;
use thiserror::Error;
use threaded_run::ThreadedFault;

/// Why a run ended early. Files are counted from 1, and so are the lines of each.
#[derive(Clone, Copy, Debug, PartialEq, Eq, Error)]
pub enum RunFault {
    /// The first field of the settings that is outside its limits.
    #[error("bad config {0}")]
    BadConfig(u32),
    /// The first line of a file that is neither empty nor a command.
    #[error("file {0} line {1}: bad command")]
    BadLine(u32, u32),
    /// A file whose first 65,536 lines are good, and that has more.
    #[error("file {0}: too many lines")]
    TooManyLines(u32),
    /// A file of which a read failed.
    #[error("file {0}: read failed")]
    Read(u32),
    /// A growth was refused.
    #[error("memory")]
    Memory,
    /// A device failed as it was made empty.
    #[error("device")]
    Device,
    /// There are not as many passes as files and one more.
    #[error("passes spent")]
    Passes,
    /// The gate gave up.
    #[error("gate gave up")]
    Gate,
    /// A write of the output failed.
    #[error("write failed")]
    Write,
    /// The contents can't be read. The lines before `contents` were written.
    #[error("contents: {0}")]
    Contents(LineRefusal),
}

/// The fault of a run for that of its file.
pub(crate) fn of_file(file: u32, fault: FileFault) -> RunFault
    ensures { result ≡ of_file file fault }
{
    match fault {
        FileFault::BadLine(line) => RunFault::BadLine(file, line),
        FileFault::TooManyLines => RunFault::TooManyLines(file),
        FileFault::Read => RunFault::Read(file),
        FileFault::Memory => RunFault::Memory,
    }
}

impl From<ThreadedFault> for RunFault {
    ghost from_gives = { λ fault result. result ≡ of_threads fault };

    fn from(fault: ThreadedFault) -> RunFault {
        match fault {
            ThreadedFault::Memory => RunFault::Memory,
            ThreadedFault::Device => RunFault::Device,
            ThreadedFault::Passes => RunFault::Passes,
            ThreadedFault::Gate => RunFault::Gate,
            ThreadedFault::Write => RunFault::Write,
            ThreadedFault::Contents(refusal) => RunFault::Contents(refusal),
        }
    }
}

impl From<AllocError> for RunFault {
    ghost from_gives = { λ _ fault. fault ≡ refused };

    fn from(_refused: AllocError) -> RunFault {
        RunFault::Memory
    }
}
