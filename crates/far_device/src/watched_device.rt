//! A device for tests that counts its writes and failures where others can read the counts.
ghost use Rattle.std.specs.Prelude.{◌≡◌};

use crate::{Device, DeviceFault};
use std::marker::Model;
use std::sync::Arc;
use std::sync::atomic::{AtomicU64, Ordering};

/// A device for tests that passes each call on, and counts in two shared numbers.
///
/// `writes` rises by one at each write, also one that fails. `failures` rises by one after each call in
/// which the inner device's count of failures rose. Both wrap at 2^64. It keeps no labels, so
/// `write_labelled` is a `write`. Contracts see it as the device that it wraps.
#[derive(Drop)]
pub struct WatchedDevice<D> {
    inner: D,
    writes: Arc<AtomicU64>,
    failures: Arc<AtomicU64>,
}

impl<D> Model for WatchedDevice<D> {
    ghost Value = { D };

    ghost coded = { D.code };

    ghost view = { λ d. d.inner };
}

impl<D: Device> WatchedDevice<D> {
    /// Wraps a device. It counts in these two numbers.
    pub fn new(inner: D, writes: Arc<AtomicU64>, failures: Arc<AtomicU64>) -> Self
        ensures { result ≡ inner }
    {
        WatchedDevice {
            inner,
            writes,
            failures,
        }
    }

    /// Counts a failure if the inner device's count is above `before`.
    fn tell_failure(&self, before: u64) {
        if self.inner.failures() > before {
            self.failures.fetch_add(1, Ordering::SeqCst);
        }
    }
}

impl<D: Device> Device for WatchedDevice<D> {
    ghost state = { D.state };

    ghost HONEST = { D.HONEST };

    fn construct(&mut self) -> Result<(), DeviceFault> {
        let before = self.inner.failures();
        let result = self.inner.construct();
        self.tell_failure(before);
        result
    }

    fn write(&mut self, id: u64, bytes: &[u8]) -> Result<(), DeviceFault> {
        self.writes.fetch_add(1, Ordering::SeqCst);
        let before = self.inner.failures();
        let result = self.inner.write(id, bytes);
        self.tell_failure(before);
        result
    }

    fn read(&mut self, id: u64, out: &mut Vec<u8>) -> Result<bool, DeviceFault> {
        let before = self.inner.failures();
        let result = self.inner.read(id, out);
        self.tell_failure(before);
        result
    }

    fn remove(&mut self, id: u64) -> Result<bool, DeviceFault> {
        let before = self.inner.failures();
        let result = self.inner.remove(id);
        self.tell_failure(before);
        result
    }

    fn failures(&self) -> u64 {
        self.inner.failures()
    }
}
