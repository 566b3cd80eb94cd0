//! Why a device failed last, for the replies to calls that are refused for it. No contract claims anything
//! about it.

use file_device::{DiskFault, FileFailure, Step};
use std::io::ErrorKind;
use std::sync::atomic::{AtomicU32, Ordering};

/// Why a device failed.
#[derive(Clone, Copy, PartialEq, Eq)]
pub enum FarReason {
    /// It did not say why.
    Unknown,
    NoSpace,
    InputOutput,
    PermissionDenied,
    ReadOnly,
    Missing,
    Damaged,
    Other,
}

/// All reasons, by the number that is kept of each.
const REASONS: [FarReason; 8] = [
    FarReason::Unknown,
    FarReason::NoSpace,
    FarReason::InputOutput,
    FarReason::PermissionDenied,
    FarReason::ReadOnly,
    FarReason::Missing,
    FarReason::Damaged,
    FarReason::Other,
];

/// Why a device failed that failed so at this step.
fn reason_of_step(step: Step, kind: ErrorKind) -> FarReason {
    match kind {
        ErrorKind::StorageFull | ErrorKind::QuotaExceeded | ErrorKind::FileTooLarge => {
            FarReason::NoSpace
        }
        ErrorKind::PermissionDenied => FarReason::PermissionDenied,
        ErrorKind::ReadOnlyFilesystem => FarReason::ReadOnly,
        ErrorKind::NotFound | ErrorKind::NotADirectory => FarReason::Missing,
        ErrorKind::UnexpectedEof => FarReason::Damaged,
        // The system's number of an input/output error has no kind of its own.
        _ => match step {
            Step::Write | Step::Read | Step::Cut => FarReason::InputOutput,
            Step::Random | Step::Open | Step::Unlink => FarReason::Other,
        },
    }
}

/// Why a device failed, by what it reports.
fn reason_of(failure: Option<FileFailure>) -> FarReason {
    match failure {
        Some(FileFailure::Disk(DiskFault::Io(step, kind))) => reason_of_step(step, kind),
        Some(FileFailure::NoSlot) => FarReason::NoSpace,
        Some(FileFailure::Damaged) => FarReason::Damaged,
        Some(FileFailure::TooLong) | Some(FileFailure::Disk(DiskFault::Memory)) | None => {
            FarReason::Other
        }
    }
}

/// The number of a reason.
fn number_of(reason: FarReason) -> u32 {
    match reason {
        FarReason::Unknown => 0,
        FarReason::NoSpace => 1,
        FarReason::InputOutput => 2,
        FarReason::PermissionDenied => 3,
        FarReason::ReadOnly => 4,
        FarReason::Missing => 5,
        FarReason::Damaged => 6,
        FarReason::Other => 7,
    }
}

/// Why a device of the map failed last, whoever called it: a session or the evictor.
#[derive(Drop)]
pub struct LastReason {
    number: AtomicU32,
}

impl LastReason {
    /// No device has failed.
    pub fn new() -> LastReason {
        LastReason {
            number: AtomicU32::new(0),
        }
    }

    /// A device reports that a call of it has failed, and why.
    pub fn tell(&self, failure: Option<FileFailure>) {
        self.number
            .store(number_of(reason_of(failure)), Ordering::SeqCst);
    }

    /// Why a device failed last.
    pub fn get(&self) -> FarReason {
        match REASONS.get(self.number.load(Ordering::SeqCst) as usize) {
            Some(reason) => *reason,
            None => FarReason::Unknown,
        }
    }
}
