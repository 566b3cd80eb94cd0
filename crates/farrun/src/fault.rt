//! Why the program ends early, and the status that it ends with.
ghost use Rattle.std.specs.Prelude.{◌≡◌};
ghost use Rattle.farrun.specs.Statuses.{status_of};

use far_driver::{ProgramFault, RunFault};
use file_device::FolderFault;
use std::io::ErrorKind;
use thiserror::Error;

/// Why the program ends early. Its text is the line on standard error.
#[derive(Clone, Copy, Debug, PartialEq, Eq, Error)]
pub enum FarrunFault {
    /// The words are no three numbers and 1 to 64 files; there are more than 64 folders; or there is no pair of pipes for each
    /// lane, or a folder beside them.
    #[error("usage: farrun [--far DIR | --far-resp-in PIPE --far-resp-out PIPE]... [--lanes N] BUCKETS FRAMES LIMIT FILE...")]
    Usage,
    /// A folder that can't be used.
    #[error("{0}")]
    Folder(FolderFault),
    /// A pair of pipes that can't be opened, by its number from 1, with the system's reason.
    #[error("far-resp {0}: cannot open: {1}")]
    Store(usize, ErrorKind),
    /// What comes of the files and the run.
    #[error("{0}")]
    Program(ProgramFault),
}

/// A growth was refused.
pub const MEMORY: FarrunFault = FarrunFault::Program(ProgramFault::Run(RunFault::Memory));

/// A write of the output failed.
pub const WRITE: FarrunFault = FarrunFault::Program(ProgramFault::Run(RunFault::Write));

impl FarrunFault {
    /// The status that the program ends with: 2 for wrong arguments, folders, pipes, settings and command files, and 1 for what the
    /// system refused.
    pub fn status(self) -> u8
        ensures { result ≡ status_of self }
    {
        match self {
            FarrunFault::Usage => 2,
            FarrunFault::Folder(FolderFault::CannotOpen(_)) | FarrunFault::Store(_, _) => 2,
            FarrunFault::Folder(FolderFault::Memory) => 1,
            FarrunFault::Program(fault) => fault.status(),
        }
    }
}
