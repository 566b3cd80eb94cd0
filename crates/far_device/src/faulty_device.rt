//! A device for tests that fails one call, which is chosen when it is made.
ghost use Rattle.std.specs.Prelude.{◌≡◌, ◌≢◌, Err, IsTrue, ◌↔◌};
ghost use Rattle.std.specs.Bool.{OnTrue, OnFalse};
ghost use Rattle.far_device.specs.Calls.{Constructs, Writes, Reads, Removes};
ghost use Rattle.far_device.specs.Faulty.{faulty_state, after_failed, after_passed, after_uncounted};

use crate::{Device, DeviceFault};
use std::marker::Model;

/// A device for tests that fails the k-th of its `write`, `read` and `remove` calls, counted together
/// from 1.
///
/// The failing call returns `Failed`, and the inner device is not called. All other calls are passed
/// on. `construct` is not counted, and `write_labelled` is a `write`, because no labels are kept. The
/// count of failures is the inner device's and this device's together, at most 2^64 - 1.
///
/// Contracts see the inner device, `due` and `failed`. `due` is the place of the failing call among the
/// counted calls to come, from 1. It is 0 if none of them fails. `failed` is how many calls have failed
/// here.
#[derive(Drop)]
pub struct FaultyDevice<D> {
    inner: D,
    due: u64,
    failed: u64,
}

impl<D> Model for FaultyDevice<D> {
    ghost use Rattle.far_device.specs.Faulty.{Faulty};

    ghost Value = { Faulty D };

    ghost view = { λ d. record { inner = d.inner; due = d.due; failed = d.failed } };
}

impl<D: Device> FaultyDevice<D> {
    /// Wraps a device. The k-th counted call fails. If k is 0, none does.
    pub fn new(inner: D, k: u64) -> Self
        ensures { result ≡ record { inner = inner; due = k; failed = 0 } }
    {
        FaultyDevice {
            inner,
            due: k,
            failed: 0,
        }
    }

    /// Counts a call, and returns whether it is the one that fails.
    fn count_call(&mut self) -> bool
        ensures due { IsTrue result ↔ (self.old.due ≡ 1) }
        ensures fails { OnTrue result (self.new ≡ after_failed self.old) }
        ensures passes { OnFalse result (self.new ≡ after_passed self.old self.old.inner) }
    {
        let is_due = self.due == 1;
        self.due = self.due.saturating_sub(1);
        if is_due {
            self.failed = self.failed.saturating_add(1);
        }
        is_due
    }
}

impl<D: Device> Device for FaultyDevice<D> {
    ghost state = { faulty_state D.state };

    ghost HONEST = { D.HONEST };

    /// Passed on, and not counted.
    fn construct(&mut self) -> Result<(), DeviceFault>
        ensures constructs { Constructs (faulty_state D.state self.old) (faulty_state D.state self.new)
            result }
        ensures passed { Constructs (D.state self.old.inner) (D.state self.new.inner) result }
        ensures same { self.new ≡ after_uncounted self.old self.new.inner }
    {
        self.inner.construct()
    }

    fn write(&mut self, id: u64, bytes: &[u8]) -> Result<(), DeviceFault>
        ensures writes { Writes (faulty_state D.state self.old) (faulty_state D.state self.new)
            id bytes.now result }

        // The k-th call fails, and the inner device is as before.
        ensures fails { self.old.due ≡ 1 → result ≡ Err DeviceFault.Failed }
        ensures stays { self.old.due ≡ 1 → self.new ≡ after_failed self.old }

        // Any other call is the inner device's.
        ensures passed { self.old.due ≢ 1 →
            Writes (D.state self.old.inner) (D.state self.new.inner) id bytes.now result }
        ensures counted { self.old.due ≢ 1 → self.new ≡ after_passed self.old self.new.inner }
    {
        if self.count_call() {
            return Err(DeviceFault::Failed);
        }
        self.inner.write(id, bytes)
    }

    fn read(&mut self, id: u64, out: &mut Vec<u8>) -> Result<bool, DeviceFault>
        ensures reads { Reads D.HONEST (faulty_state D.state self.old) (faulty_state D.state self.new)
            id out.old.items out.new.items result }

        // The k-th call fails, and the inner device is as before.
        ensures fails { self.old.due ≡ 1 → result ≡ Err DeviceFault.Failed }
        ensures stays { self.old.due ≡ 1 → self.new ≡ after_failed self.old }

        // Any other call is the inner device's.
        ensures passed { self.old.due ≢ 1 →
            Reads D.HONEST (D.state self.old.inner) (D.state self.new.inner)
            id out.old.items out.new.items result }
        ensures counted { self.old.due ≢ 1 → self.new ≡ after_passed self.old self.new.inner }
    {
        if self.count_call() {
            return Err(DeviceFault::Failed);
        }
        self.inner.read(id, out)
    }

    fn remove(&mut self, id: u64) -> Result<bool, DeviceFault>
        ensures removes { Removes (faulty_state D.state self.old) (faulty_state D.state self.new)
            id result }

        // The k-th call fails, and the inner device is as before.
        ensures fails { self.old.due ≡ 1 → result ≡ Err DeviceFault.Failed }
        ensures stays { self.old.due ≡ 1 → self.new ≡ after_failed self.old }

        // Any other call is the inner device's.
        ensures passed { self.old.due ≢ 1 →
            Removes (D.state self.old.inner) (D.state self.new.inner) id result }
        ensures counted { self.old.due ≢ 1 → self.new ≡ after_passed self.old self.new.inner }
    {
        if self.count_call() {
            return Err(DeviceFault::Failed);
        }
        self.inner.remove(id)
    }

    fn failures(&self) -> u64 {
        self.inner.failures().saturating_add(self.failed)
    }
}
