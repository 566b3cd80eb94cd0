//! Why the program ends early, and the status that it ends with.
ghost use Rattle.std.specs.Prelude.{◌≡◌};
ghost use Rattle.far_driver.specs.declared.fault.RunFault.TheVariants.{Memory as run_memory};
ghost use Rattle.far_driver.specs.declared.status.ProgramFault.TheVariants.{Run as program_run};
ghost use Rattle.far_driver.specs.Statuses.{status_of};

use crate::fault::RunFault;
use far_object::Memory;
use thiserror::Error;

/// Why the program ends early. Its text is the line on standard error.
#[derive(Clone, Copy, Debug, PartialEq, Eq, Error)]
pub enum ProgramFault {
    /// The arguments are no three numbers and 1 to 64 files.
    #[error("usage: fartable BUCKETS FRAMES LIMIT FILE...")]
    Usage,
    /// A file, counted from 1, that can't be opened.
    #[error("file {0}: cannot open")]
    CannotOpen(u32),
    /// What the run itself answered.
    #[error("{0}")]
    Run(RunFault),
}

impl From<RunFault> for ProgramFault {
    ghost from_gives = { λ fault program. program ≡ program_run fault };

    fn from(fault: RunFault) -> ProgramFault {
        ProgramFault::Run(fault)
    }
}

impl From<Memory> for ProgramFault {
    ghost from_gives = { λ _ program. program ≡ program_run run_memory };

    fn from(_refused: Memory) -> ProgramFault {
        ProgramFault::Run(RunFault::Memory)
    }
}

impl ProgramFault {
    /// The status that the program ends with: 2 for wrong arguments, settings and command files, and 1 for what the
    /// system refused.
    pub fn status(self) -> u8
        ensures { result ≡ status_of self }
    {
        match self {
            ProgramFault::Usage => 2,
            ProgramFault::CannotOpen(_) => 1,
            ProgramFault::Run(fault) => match fault {
                RunFault::BadConfig(_) => 2,
                RunFault::BadLine(_, _) => 2,
                RunFault::TooManyLines(_) => 2,
                RunFault::Read(_) => 1,
                RunFault::Memory => 1,
                RunFault::Device => 1,
                RunFault::Passes => 1,
                RunFault::Gate => 1,
                RunFault::Write => 1,
                RunFault::Contents(_) => 1,
            },
        }
    }
}
