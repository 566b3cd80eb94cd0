//! Why a call on a lane is refused.

use far_device::DeviceFault;
use far_object::Memory;
use std::alloc::{AllocError, AllocFailed};
use thiserror::Error;

/// Why a call on a lane is refused.
#[derive(Clone, Copy, Debug, PartialEq, Eq, Error)]
pub enum LaneFault {
    /// A growth of memory was refused.
    #[error("memory")]
    Memory,
    /// The lane's device failed in this call, and counted the failure.
    #[error("device failed")]
    Device,
}

impl From<DeviceFault> for LaneFault {
    ghost use Rattle.std.specs.Prelude.{◌≡◌};
    ghost use Rattle.lane_store.specs.Lanes.{lane_fault};

    ghost from_gives = { λ fault result. result ≡ lane_fault fault };

    fn from(fault: DeviceFault) -> LaneFault {
        match fault {
            DeviceFault::Memory => LaneFault::Memory,
            DeviceFault::Failed => LaneFault::Device,
        }
    }
}

impl From<Memory> for LaneFault {
    ghost use Rattle.std.specs.Prelude.{◌≡◌};
    ghost use Rattle.lane_store.specs.declared.fault.LaneFault.TheVariants.{Memory};

    ghost from_gives = { λ _ fault. fault ≡ Memory };

    fn from(_refused: Memory) -> LaneFault {
        LaneFault::Memory
    }
}

impl From<AllocError> for LaneFault {
    ghost use Rattle.std.specs.Prelude.{◌≡◌};
    ghost use Rattle.lane_store.specs.declared.fault.LaneFault.TheVariants.{Memory};

    ghost from_gives = { λ _ fault. fault ≡ Memory };

    fn from(_refused: AllocError) -> LaneFault {
        LaneFault::Memory
    }
}

impl<T: Drop> From<AllocFailed<T>> for LaneFault {
    ghost use Rattle.std.specs.Prelude.{◌≡◌};
    ghost use Rattle.lane_store.specs.declared.fault.LaneFault.TheVariants.{Memory};

    ghost from_gives = { λ _ fault. fault ≡ Memory };

    fn from(_refused: AllocFailed<T>) -> LaneFault {
        LaneFault::Memory
    }
}
