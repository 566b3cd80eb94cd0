//! A device that counts the writes of some bytes, and lists of devices.

use crate::mistake::Mistake;
use far_device::{Device, DeviceFault};
use std::alloc::Global;
use std::sync::Arc;
use std::sync::atomic::{AtomicU64, Ordering};

/// A device that passes each call on, and adds one to a shared number at each write of these bytes.
#[derive(Drop)]
pub struct Looking<D> {
    pub inner: D,
    pub wanted: Vec<u8>,
    pub met: Arc<AtomicU64>,
}

impl<D: Device> Device for Looking<D> {
    ghost state = { λ device. D.state device.inner };

    ghost HONEST = { D.HONEST };

    fn construct(&mut self) -> Result<(), DeviceFault> {
        self.inner.construct()
    }

    fn write(&mut self, id: u64, bytes: &[u8]) -> Result<(), DeviceFault> {
        if bytes == self.wanted.as_slice() {
            self.met.fetch_add(1, Ordering::SeqCst);
        }
        self.inner.write(id, bytes)
    }

    fn read(&mut self, id: u64, out: &mut Vec<u8>) -> Result<bool, DeviceFault> {
        self.inner.read(id, out)
    }

    fn remove(&mut self, id: u64) -> Result<bool, DeviceFault> {
        self.inner.remove(id)
    }

    fn failures(&self) -> u64 {
        self.inner.failures()
    }
}

/// The devices of a run over this one alone.
pub fn alone<D: Device>(alloc: Global, device: D) -> Result<Vec<D>, Mistake> {
    let mut devices = Vec::new(alloc);
    devices.push(device)?;
    Ok(devices)
}
