//! A device that reports how many objects it keeps, and why its calls fail.
ghost use Rattle.std.specs.Prelude.{◌≡◌};
ghost use Rattle.file_device.specs.Honesty.{is_honest_over};

use crate::reasons::reason_of_file;
use far_device::{Device, DeviceFault};
use far_server::FarUsage;
use file_device::{Disk, FileDevice};
use std::rt::Clock;

/// A device over slots that passes each call on. After it, it reports to `usage` by how much the number of its
/// objects has changed, and why the call failed, if it did. The bytes of its files are counted by their space.
#[derive(Drop)]
pub struct CountedDevice<'a, K: Disk, C> {
    inner: FileDevice<K>,
    clock: C,
    usage: &'a FarUsage,
}

impl<'a, K: Disk, C: Clock> CountedDevice<'a, K, C> {
    /// A counted device over an empty one, of which nothing was reported yet.
    pub fn new(inner: FileDevice<K>, clock: C, usage: &'a FarUsage) -> Self
        ensures { result.inner ≡ inner }
    {
        CountedDevice {
            inner,
            clock,
            usage,
        }
    }

    fn objects(&self) -> u64 {
        self.inner.len() as u64
    }

    /// Reports how many objects there are now. There were `before` when it last reported.
    fn tell(&self, before: u64) {
        self.usage.tell_objects(before, self.objects());
    }

    /// Reports why a call failed, if it did. Memory that was refused is no failure of the device.
    fn tell_fault(&self, fault: Option<DeviceFault>) {
        if fault == Some(DeviceFault::Failed) {
            let reason = reason_of_file(self.inner.last_failure());
            self.usage.tell_failure(reason, &self.clock);
        }
    }
}

impl<K: Disk, C: Clock + Drop> Device for CountedDevice<'_, K, C> {
    ghost use Rattle.file_device.specs.Devices.{labels_in, state_in};

    ghost state = { λ device. state_in device.inner };

    ghost HONEST = { is_honest_over K.HONEST };

    ghost labels = { λ device. labels_in device.inner };

    fn construct(&mut self) -> Result<(), DeviceFault> {
        let before = self.objects();
        let result = self.inner.construct();
        self.tell(before);
        self.tell_fault(result.err());
        result
    }

    fn write(&mut self, id: u64, bytes: &[u8]) -> Result<(), DeviceFault> {
        let before = self.objects();
        let result = self.inner.write(id, bytes);
        self.tell(before);
        self.tell_fault(result.err());
        result
    }

    fn read(&mut self, id: u64, out: &mut Vec<u8>) -> Result<bool, DeviceFault> {
        let result = self.inner.read(id, out);
        self.tell_fault(result.err());
        result
    }

    fn remove(&mut self, id: u64) -> Result<bool, DeviceFault> {
        let before = self.objects();
        let result = self.inner.remove(id);
        self.tell(before);
        self.tell_fault(result.err());
        result
    }

    fn write_labelled(&mut self, id: u64, label: u32, bytes: &[u8]) -> Result<bool, DeviceFault> {
        let before = self.objects();
        let result = self.inner.write_labelled(id, label, bytes);
        self.tell(before);
        self.tell_fault(result.err());
        result
    }

    fn read_labelled(&mut self, id: u64, out: &mut Vec<u8>) -> Result<Option<u32>, DeviceFault> {
        let result = self.inner.read_labelled(id, out);
        self.tell_fault(result.err());
        result
    }

    fn failures(&self) -> u64 {
        self.inner.failures()
    }
}
