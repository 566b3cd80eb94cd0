//! A device that fails while a case wants it to.
ghost use Rattle.std.specs.Prelude.{◌≡◌};
ghost use Rattle.std.specs.Bool.{OnTrue, OnFalse};
ghost use Rattle.far_device.specs.Faulty.{faulty_state, after_failed};

use far_device::{Device, DeviceFault};
use std::marker::Model;
use std::sync::atomic::{AtomicU64, Ordering};

/// For a count of calls that fail: all, until another is set.
pub const ALL: u64 = u64::MAX;

/// A device whose next `write`, `read` and `remove` calls fail, as many as `due` has. It passes every other call on to the one that it
/// wraps.
#[derive(Drop)]
pub struct SwitchedDevice<'a, D> {
    inner: D,
    due: &'a AtomicU64,
    failed: u64,
}

impl<'a, D> Model for SwitchedDevice<'a, D> {
    ghost use Rattle.far_device.specs.Faulty.{Faulty};

    ghost Value = { Faulty D };

    ghost view = { λ d. record { inner = d.inner; due = 0; failed = d.failed } };
}

impl<'a, D: Device> SwitchedDevice<'a, D> {
    pub fn new(inner: D, due: &'a AtomicU64) -> Self {
        SwitchedDevice {
            inner,
            due,
            failed: 0,
        }
    }

    /// Whether a call fails, which is counted then.
    fn fails(&mut self) -> bool
        ensures fails { OnTrue result (self.new ≡ after_failed self.old) }
        ensures passes { OnFalse result (self.new ≡ self.old) }
    {
        let due = self.due.load(Ordering::SeqCst);
        if due == 0 {
            return false;
        }
        if due != ALL {
            self.due.store(due.saturating_sub(1), Ordering::SeqCst);
        }
        self.failed = self.failed.saturating_add(1);
        true
    }
}

impl<D: Device> Device for SwitchedDevice<'_, D> {
    ghost state = { faulty_state D.state };

    ghost HONEST = { D.HONEST };

    fn construct(&mut self) -> Result<(), DeviceFault> {
        self.inner.construct()
    }

    fn write(&mut self, id: u64, bytes: &[u8]) -> Result<(), DeviceFault> {
        if self.fails() {
            return Err(DeviceFault::Failed);
        }
        self.inner.write(id, bytes)
    }

    fn read(&mut self, id: u64, out: &mut Vec<u8>) -> Result<bool, DeviceFault> {
        if self.fails() {
            return Err(DeviceFault::Failed);
        }
        self.inner.read(id, out)
    }

    fn remove(&mut self, id: u64) -> Result<bool, DeviceFault> {
        if self.fails() {
            return Err(DeviceFault::Failed);
        }
        self.inner.remove(id)
    }

    fn failures(&self) -> u64 {
        self.inner.failures().saturating_add(self.failed)
    }
}
