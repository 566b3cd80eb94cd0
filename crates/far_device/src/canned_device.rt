//! A device for tests that returns the same bytes at each read.
ghost use Rattle.std.specs.Prelude.{◌≡◌, ◌++◌, false, IfOk};
ghost use Rattle.std.specs.Bool.{OnTrue};
ghost use Rattle.far_device.specs.Calls.{Constructs, Writes, Reads, Removes};
ghost use Rattle.far_device.specs.Canned.{Canned};

use crate::{Device, DeviceFault};
use std::marker::Model;

/// A device for tests: each read of an id that the inner device has appends the same bytes.
///
/// The bytes are chosen when it is made. Which ids there are, errors and the count of failures are the
/// inner device's. A read also returns `Memory` if there is no memory to append the bytes. It is not
/// honest, and keeps no labels. Contracts see the inner device and the bytes.
#[derive(Drop)]
pub struct CannedDevice<D> {
    inner: D,
    bytes: Vec<u8>,
}

impl<D> Model for CannedDevice<D> {
    ghost Value = { Canned D };

    ghost view = { λ d. record { inner = d.inner; bytes = d.bytes.items } };
}

impl<D: Device> CannedDevice<D> {
    /// Wraps a device. Each read appends these bytes.
    pub fn new(inner: D, bytes: Vec<u8>) -> Self
        ensures { result ≡ record { inner = inner; bytes = bytes.items } }
    {
        CannedDevice { inner, bytes }
    }
}

impl<D: Device> Device for CannedDevice<D> {
    ghost state = { λ d. D.state d.inner };

    ghost HONEST = { false };

    fn construct(&mut self) -> Result<(), DeviceFault>
        ensures constructs { Constructs (D.state self.old.inner) (D.state self.new.inner) result }
        ensures same { self.new.bytes ≡ self.old.bytes }
    {
        self.inner.construct()
    }

    fn write(&mut self, id: u64, bytes: &[u8]) -> Result<(), DeviceFault>
        ensures writes { Writes (D.state self.old.inner) (D.state self.new.inner)
            id bytes.now result }
        ensures same { self.new.bytes ≡ self.old.bytes }
    {
        self.inner.write(id, bytes)
    }

    fn read(&mut self, id: u64, out: &mut Vec<u8>) -> Result<bool, DeviceFault>
        ensures reads { Reads false (D.state self.old.inner) (D.state self.new.inner)
            id out.old.items out.new.items result }
        ensures canned { IfOk result (λ there. OnTrue there
            (out.new.items ≡ out.old.items ++ self.old.bytes)) }
        ensures same { self.new.bytes ≡ self.old.bytes }
    {
        let before = out.len();
        let there = self.inner.read(id, out)?;
        if there {
            out.truncate(before);
            out.extend_from_slice(&self.bytes)?;
        }
        Ok(there)
    }

    fn remove(&mut self, id: u64) -> Result<bool, DeviceFault>
        ensures removes { Removes (D.state self.old.inner) (D.state self.new.inner) id result }
        ensures same { self.new.bytes ≡ self.old.bytes }
    {
        self.inner.remove(id)
    }

    fn failures(&self) -> u64 {
        self.inner.failures()
    }
}
