//! Why a call of a device fails.
use std::alloc::{AllocError, AllocFailed};
use thiserror::Error;

/// Why a call of a device failed.
#[derive(Clone, Copy, Debug, PartialEq, Eq, Error)]
pub enum DeviceFault {
    /// An allocation failed. The count of failures does not rise.
    #[error("memory")]
    Memory,
    /// The device itself failed, for example because a disk is full. The count of failures has risen by
    /// one.
    #[error("device failed")]
    Failed,
}

impl From<AllocError> for DeviceFault {
    ghost use Rattle.std.specs.Prelude.{◌≡◌};
    ghost use Rattle.far_device.specs.declared.fault.DeviceFault.TheVariants.{Memory};

    ghost from_gives = { λ _ fault. fault ≡ Memory };

    fn from(_refused: AllocError) -> DeviceFault {
        DeviceFault::Memory
    }
}

impl<T: Drop> From<AllocFailed<T>> for DeviceFault {
    ghost use Rattle.std.specs.Prelude.{◌≡◌};
    ghost use Rattle.far_device.specs.declared.fault.DeviceFault.TheVariants.{Memory};

    ghost from_gives = { λ _ fault. fault ≡ Memory };

    fn from(_refused: AllocFailed<T>) -> DeviceFault {
        DeviceFault::Memory
    }
}
