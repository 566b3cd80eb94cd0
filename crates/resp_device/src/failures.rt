//! How often a device failed.
ghost use Rattle.std.specs.Prelude.{◌≡◌, ◌+◌, ◌-◌, ◌^◌, min, Some};

use crate::StoreFailure;
use far_device::DeviceFault;

/// The count, and why it last rose.
#[derive(Drop)]
pub(crate) struct Failures {
    pub(crate) count: u64,
    pub(crate) last: Option<StoreFailure>,
}

impl Failures {
    pub(crate) fn new() -> Self
        ensures { result.count ≡ 0 }
    {
        Failures {
            count: 0,
            last: None,
        }
    }

    /// Counts a failure. A count of 2^64 - 1 stays.
    pub(crate) fn add(&mut self, why: StoreFailure) -> DeviceFault
        ensures failed { result ≡ DeviceFault.Failed }
        ensures counted { self.new.count ≡ min (self.old.count + 1) (2 ^ 64 - 1) }
        ensures last { self.new.last ≡ Some why }
    {
        self.count = self.count.saturating_add(1);
        self.last = Some(why);
        DeviceFault::Failed
    }
}
