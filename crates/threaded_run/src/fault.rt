//! Why a run ends early.
ghost use Rattle.std.specs.Prelude.{None};
ghost use Rattle.far_map.specs.Faults.{IsEarlyFault};
ghost use Rattle.threaded_run.specs.Runs.{IsEarly};

use crate::work_fault::WorkFault;
use far_map::MapFault;
use run_lines::LineRefusal;
use thiserror::Error;

/// Why a run ended early.
#[derive(Clone, Copy, Debug, PartialEq, Eq, Error)]
pub enum ThreadedFault {
    /// A growth was refused.
    #[error("memory")]
    Memory,
    /// A device failed as it was made empty.
    #[error("device")]
    Device,
    /// There are not as many passes as files and one more; or a pass was drawn that the run does not have, which no run meets.
    #[error("passes spent")]
    Passes,
    /// The gate gave up.
    #[error("gate gave up")]
    Gate,
    /// A write of the output failed.
    #[error("write failed")]
    Write,
    /// The contents can't be read. The lines before `contents` were written.
    #[error("contents: {0}")]
    Contents(LineRefusal),
}

impl From<WorkFault> for ThreadedFault {
    ghost from_gives = { λ _ fault. IsEarly fault };

    fn from(fault: WorkFault) -> ThreadedFault {
        match fault {
            WorkFault::Memory => ThreadedFault::Memory,
            WorkFault::Gate => ThreadedFault::Gate,
        }
    }
}

/// The fault of a run whose map ended before its workers did.
pub(crate) fn of_run(fault: MapFault) -> ThreadedFault
    requires { IsEarlyFault None fault }
    ensures { IsEarly result }
{
    match fault {
        MapFault::PassesSpent => ThreadedFault::Passes,
        MapFault::Device => ThreadedFault::Device,
        MapFault::Memory => ThreadedFault::Memory,
        _ => unreachable!(),
    }
}
