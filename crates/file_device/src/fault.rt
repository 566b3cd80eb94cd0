//! Why a disk, or a device on it, fails.
use std::alloc::AllocError;
use std::io::ErrorKind;
use thiserror::Error;

/// The step of a disk that the system refused.
#[derive(Clone, Copy, Debug, PartialEq, Eq, Error)]
pub enum Step {
    /// To draw random bytes for a file's name or the keys of digests.
    #[error("no random bytes")]
    Random,
    /// To make a scratch file in its folder.
    #[error("cannot open a scratch file")]
    Open,
    /// To remove the name of a scratch file that was just made.
    #[error("cannot unlink a scratch file")]
    Unlink,
    /// To write all bytes of an object to its slot. For example, the disk is full.
    #[error("cannot write a slot")]
    Write,
    /// To read all bytes of an object from its slot. For example, the file is too short.
    #[error("cannot read a slot")]
    Read,
    /// To cut a scratch file without objects to no bytes.
    #[error("cannot cut a scratch file")]
    Cut,
}

/// Why a call of a disk failed.
#[derive(Clone, Copy, Debug, PartialEq, Eq, Error)]
pub enum DiskFault {
    /// An allocation failed.
    #[error("memory")]
    Memory,
    /// The system refused this step, with this kind of error.
    #[error("{0}: {1}")]
    Io(Step, ErrorKind),
}

impl From<AllocError> for DiskFault {
    ghost use Rattle.std.specs.Prelude.{◌≡◌};
    ghost use Rattle.file_device.specs.declared.fault.DiskFault.TheVariants.{Memory};

    ghost from_gives = { λ _ fault. fault ≡ Memory };

    fn from(_refused: AllocError) -> DiskFault {
        DiskFault::Memory
    }
}

/// Why a call of a `FileDevice` returned `Failed`.
#[derive(Clone, Copy, Debug, PartialEq, Eq, Error)]
pub enum FileFailure {
    /// The object has more than 64 MiB, which is the longest slot.
    #[error("an object is too long")]
    TooLong,
    /// All 2^32 slots of the object's class are in use.
    #[error("no slot is free")]
    NoSlot,
    /// The disk returned other bytes than were written: their length or digest differs.
    #[error("an object is damaged")]
    Damaged,
    /// The disk failed. The fault in it is `Io`, because `Memory` is not counted.
    #[error(transparent)]
    Disk(DiskFault),
}
