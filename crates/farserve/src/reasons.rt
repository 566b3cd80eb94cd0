//! Why a device failed, in the words of `DeviceReason`, and why a folder can't be used.

use far_server::DeviceReason;
use file_device::{DiskFault, FileFailure, Step};
use resp_device::StoreFailure;
use std::io::ErrorKind;

/// The reason of a fault of the system, at this step of a disk.
fn reason_of_step(step: Step, kind: ErrorKind) -> DeviceReason {
    match kind {
        ErrorKind::StorageFull | ErrorKind::QuotaExceeded | ErrorKind::FileTooLarge => {
            DeviceReason::NoSpace
        }
        ErrorKind::PermissionDenied => DeviceReason::PermissionDenied,
        ErrorKind::ReadOnlyFilesystem => DeviceReason::ReadOnly,
        ErrorKind::NotFound | ErrorKind::NotADirectory => DeviceReason::Missing,
        ErrorKind::UnexpectedEof => DeviceReason::Damaged,
        ErrorKind::OutOfMemory => DeviceReason::Other,
        // The system's number of an input/output error has no kind of its own.
        _ => match step {
            Step::Write | Step::Read | Step::Cut => DeviceReason::InputOutput,
            Step::Random | Step::Open | Step::Unlink => DeviceReason::Other,
        },
    }
}

/// The reason of a failure of a device over scratch files.
pub fn reason_of_file(failure: Option<FileFailure>) -> DeviceReason {
    match failure {
        Some(FileFailure::Disk(DiskFault::Io(step, kind))) => reason_of_step(step, kind),
        Some(FileFailure::NoSlot) => DeviceReason::NoSpace,
        Some(FileFailure::Damaged) => DeviceReason::Damaged,
        Some(FileFailure::TooLong) | Some(FileFailure::Disk(DiskFault::Memory)) | None => {
            DeviceReason::Other
        }
    }
}

/// The reason of a failure of a device over a store.
pub fn reason_of_store(failure: Option<StoreFailure>) -> DeviceReason {
    match failure {
        Some(StoreFailure::Refused) => DeviceReason::Refused,
        Some(StoreFailure::Lost) => DeviceReason::Lost,
        Some(StoreFailure::Damaged) => DeviceReason::Damaged,
        Some(StoreFailure::Ended)
        | Some(StoreFailure::Read(_))
        | Some(StoreFailure::Write(_))
        | Some(StoreFailure::Broken) => DeviceReason::Unreachable,
        Some(StoreFailure::TooLong)
        | Some(StoreFailure::Wrong)
        | Some(StoreFailure::Malformed)
        | Some(StoreFailure::Surplus)
        | Some(StoreFailure::Memory)
        | None => DeviceReason::Other,
    }
}

/// Why the system did not open scratch files in a folder, in its own words, and what would do. None if there
/// are no words for it here.
pub fn folder_words(fault: DiskFault) -> Option<(&'static str, &'static str)> {
    let DiskFault::Io(_, kind) = fault else {
        return None;
    };
    match kind {
        ErrorKind::NotFound => Some((
            "No such file or directory",
            "make the folder before the start",
        )),
        ErrorKind::PermissionDenied => Some((
            "Permission denied",
            "the server's user has to be able to make files in it",
        )),
        ErrorKind::NotADirectory => Some(("Not a directory", "name a folder")),
        ErrorKind::ReadOnlyFilesystem => Some((
            "Read-only file system",
            "name a folder on a disk that takes writes",
        )),
        ErrorKind::StorageFull => Some(("No space left on device", "make room on its disk")),
        ErrorKind::QuotaExceeded => Some(("Disk quota exceeded", "raise the quota")),
        ErrorKind::InvalidFilename => Some(("File name too long", "name a shorter path")),
        ErrorKind::FilesystemLoop => Some((
            "Too many levels of symbolic links",
            "name the folder itself",
        )),
        _ => None,
    }
}
