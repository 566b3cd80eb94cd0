//! A device that keeps nothing, and perhaps can't even be made empty.
ghost use Rattle.std.specs.Prelude.{◌≡◌, ◌+◌, ◌-◌, ◌^◌, min};

use super::devices::DeviceSettings;
use far_device::{Device, DeviceFault};
use std::alloc::Global;

/// A device that keeps nothing: it fails at each call, but where it is made empty only if it is to.
#[derive(Drop)]
pub struct BrokenDevice {
    fails_at_once: bool,
    failures: u64,
}

impl BrokenDevice {
    fn new(fails_at_once: bool) -> BrokenDevice {
        BrokenDevice {
            fails_at_once,
            failures: 0,
        }
    }

    fn fail(&mut self) -> DeviceFault
        ensures fault { result ≡ DeviceFault.Failed }
        ensures counted { self.new.failures ≡ min (self.old.failures + 1) (2 ^ 64 - 1) }
    {
        self.failures = self.failures.saturating_add(1);
        DeviceFault::Failed
    }
}

impl Device for BrokenDevice {
    ghost use Rattle.std.specs.Prelude.{true};
    ghost use Rattle.std.specs.FinMap.{empty};

    ghost state = { λ device. record { contents = empty; failures = device.failures } };

    ghost HONEST = { true };

    fn construct(&mut self) -> Result<(), DeviceFault> {
        if self.fails_at_once {
            return Err(self.fail());
        }
        Ok(())
    }

    fn write(&mut self, _id: u64, _bytes: &[u8]) -> Result<(), DeviceFault> {
        Err(self.fail())
    }

    fn read(&mut self, _id: u64, _out: &mut Vec<u8>) -> Result<bool, DeviceFault> {
        Err(self.fail())
    }

    fn remove(&mut self, _id: u64) -> Result<bool, DeviceFault> {
        Err(self.fail())
    }

    fn failures(&self) -> u64 {
        self.failures
    }
}

/// Devices that keep nothing, of which one may fail at once. None where memory is refused.
pub fn broken_devices(alloc: Global, asked: DeviceSettings<'_>) -> Option<Vec<BrokenDevice>> {
    let mut devices = Vec::new(alloc);
    for at in 0..asked.count {
        let fails_at_once = at.wrapping_add(1) == asked.fails_at_once;
        devices.push(BrokenDevice::new(fails_at_once)).ok()?;
    }
    Some(devices)
}
