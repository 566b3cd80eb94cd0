//! How often a device has failed, and why it did so last.
ghost use Rattle.std.specs.Prelude.{◌≡◌, ◌+◌, ◌-◌, ◌^◌, min, Err};
ghost use Rattle.file_device.specs.Counts.{count_after_fault};

use crate::{DiskFault, FileFailure};
use far_device::DeviceFault;

/// The count of failures, and why it rose last.
#[derive(Drop)]
pub(crate) struct Failures {
    pub(crate) count: u64,
    pub(crate) last: Option<FileFailure>,
}

impl Failures {
    pub(crate) fn new() -> Self
        ensures { result.count ≡ 0 }
    {
        Failures {
            count: 0,
            last: None,
        }
    }

    /// Counts a failure. A count of 2^64 - 1 stays.
    pub(crate) fn add(&mut self, why: FileFailure) -> DeviceFault
        ensures failed { result ≡ DeviceFault.Failed }
        ensures counted { self.new.count ≡ min (self.old.count + 1) (2 ^ 64 - 1) }
    {
        self.count = self.count.saturating_add(1);
        self.last = Some(why);
        DeviceFault::Failed
    }

    /// The device's fault for this fault of the disk. It is counted, unless it is `Memory`.
    pub(crate) fn of_disk(&mut self, fault: DiskFault) -> DeviceFault
        ensures counted { self.new.count ≡ count_after_fault result self.old.count }
    {
        match fault {
            DiskFault::Memory => DeviceFault::Memory,
            _ => self.add(FileFailure::Disk(fault)),
        }
    }
}
