//! Why devices fail, as INFO and clients are told it.

/// Why a call of a device failed. It is as fine as what an operator can do about it.
#[derive(Clone, Copy, Debug, PartialEq, Eq)]
pub enum DeviceReason {
    /// The disk is full, or a limit on its bytes is reached.
    NoSpace,
    /// The system could not read or write.
    InputOutput,
    /// The system does not permit it.
    PermissionDenied,
    /// The disk takes no writes.
    ReadOnly,
    /// The folder is not there, or no longer.
    Missing,
    /// The store is away, or was silent for too long.
    Unreachable,
    /// The store replied with an error.
    Refused,
    /// The store no longer has the object.
    Lost,
    /// Other bytes came back than were written, or fewer.
    Damaged,
    /// Anything else.
    Other,
}

/// All reasons, each at the place of its number.
pub const DEVICE_REASONS: [DeviceReason; 10] = [
    DeviceReason::NoSpace,
    DeviceReason::InputOutput,
    DeviceReason::PermissionDenied,
    DeviceReason::ReadOnly,
    DeviceReason::Missing,
    DeviceReason::Unreachable,
    DeviceReason::Refused,
    DeviceReason::Lost,
    DeviceReason::Damaged,
    DeviceReason::Other,
];

impl DeviceReason {
    /// The reason in words, without a capital or a period.
    pub fn text(self) -> &'static str {
        match self {
            DeviceReason::NoSpace => "no space left on device",
            DeviceReason::InputOutput => "input/output error",
            DeviceReason::PermissionDenied => "permission denied",
            DeviceReason::ReadOnly => "read-only file system",
            DeviceReason::Missing => "no such file or directory",
            DeviceReason::Unreachable => "store unreachable",
            DeviceReason::Refused => "store replied with an error",
            DeviceReason::Lost => "store has lost the object",
            DeviceReason::Damaged => "damaged object",
            DeviceReason::Other => "other error",
        }
    }

    /// The name of INFO's count of such failures.
    pub(crate) fn count_name(self) -> &'static str {
        match self {
            DeviceReason::NoSpace => "device_errors_no_space",
            DeviceReason::InputOutput => "device_errors_input_output",
            DeviceReason::PermissionDenied => "device_errors_permission_denied",
            DeviceReason::ReadOnly => "device_errors_read_only",
            DeviceReason::Missing => "device_errors_missing",
            DeviceReason::Unreachable => "device_errors_unreachable",
            DeviceReason::Refused => "device_errors_refused",
            DeviceReason::Lost => "device_errors_lost",
            DeviceReason::Damaged => "device_errors_damaged",
            DeviceReason::Other => "device_errors_other",
        }
    }
}
