//! A device for tests whose reads lose their last byte.
ghost use Rattle.std.specs.Prelude.{◌≡◌, ◌++◌, false, IsTrue, IfOk, IfSome};
ghost use Rattle.std.specs.Bool.{OnTrue};
ghost use Rattle.std.specs.FinMap.{get};
ghost use Rattle.far_device.specs.Calls.{Reads};
ghost use Rattle.far_device.specs.Lying.{without_last};

use crate::{Device, DeviceFault};
use std::marker::Model;

/// A device for tests: each read appends the inner device's bytes without the last one.
///
/// If there are no bytes, it appends none. All other calls are passed on. It is not honest, and keeps
/// no labels. Contracts see it as the device that it wraps.
#[derive(Drop)]
pub struct LyingDevice<D> {
    inner: D,
}

impl<D> Model for LyingDevice<D> {
    ghost Value = { D };

    ghost coded = { D.code };

    ghost view = { λ d. d.inner };
}

impl<D: Device> LyingDevice<D> {
    /// Wraps a device.
    pub fn new(inner: D) -> Self
        ensures { result ≡ inner }
    {
        LyingDevice { inner }
    }
}

impl<D: Device> Device for LyingDevice<D> {
    ghost state = { D.state };

    ghost HONEST = { false };

    fn construct(&mut self) -> Result<(), DeviceFault> {
        self.inner.construct()
    }

    fn write(&mut self, id: u64, bytes: &[u8]) -> Result<(), DeviceFault> {
        self.inner.write(id, bytes)
    }

    fn read(&mut self, id: u64, out: &mut Vec<u8>) -> Result<bool, DeviceFault>
        ensures reads { Reads false (D.state self.old) (D.state self.new)
            id out.old.items out.new.items result }

        // Over an honest device a read appends the written bytes without the last one.
        ensures lies { IsTrue D.HONEST → IfOk result (λ there. OnTrue there (IfSome
            (get (D.state self.old).contents id)
            (λ bytes. out.new.items ≡ out.old.items ++ without_last bytes))) }
    {
        let before = out.len();
        let there = self.inner.read(id, out)?;
        // The bytes that `out` had before stay.
        out.truncate(before.max(out.len().saturating_sub(1)));
        Ok(there)
    }

    fn remove(&mut self, id: u64) -> Result<bool, DeviceFault> {
        self.inner.remove(id)
    }

    fn failures(&self) -> u64 {
        self.inner.failures()
    }
}
