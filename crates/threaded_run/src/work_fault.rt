//! Why a worker gives up.
ghost use Rattle.std.specs.Prelude.{◌≡◌};
ghost use Rattle.threaded_run.specs.declared.work_fault.WorkFault.TheVariants.{Memory as refused};

use far_object::Memory;

/// Why a worker gave up.
#[derive(Clone, Copy, Debug, PartialEq, Eq)]
pub(crate) enum WorkFault {
    Memory,
    Gate,
}

impl From<Memory> for WorkFault {
    ghost from_gives = { λ _ fault. fault ≡ refused };

    fn from(_refused: Memory) -> WorkFault {
        WorkFault::Memory
    }
}
