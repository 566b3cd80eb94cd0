//! The devices of cases: in memory, and fail, lie or give other bytes where the opening says so.
ghost use Rattle.std.specs.Prelude.{◌≡◌, ◌+◌, ◌-◌, ◌^◌, min, true};

use crate::settings::{Failing, given_pairs};
use crate::stop::Stop;
use case_files::Line;
use far_device::{CannedDevice, Device, DeviceFault, FakeDevice, FaultyDevice, LyingDevice};
use std::alloc::Global;

/// A device that keeps nothing, and fails at each call.
#[derive(Drop)]
pub struct BrokenDevice {
    failures: u64,
}

impl BrokenDevice {
    fn fail(&mut self) -> DeviceFault
        ensures fault { result ≡ DeviceFault.Failed }
        ensures counted { self.new.failures ≡ min (self.old.failures + 1) (2 ^ 64 - 1) }
    {
        self.failures = self.failures.saturating_add(1);
        DeviceFault::Failed
    }
}

impl Device for BrokenDevice {
    ghost use Rattle.std.specs.FinMap.{empty};

    ghost state = { λ device. record { contents = empty; failures = device.failures } };

    ghost HONEST = { true };

    fn construct(&mut self) -> Result<(), DeviceFault> {
        Err(self.fail())
    }

    fn write(&mut self, _id: u64, _bytes: &[u8]) -> Result<(), DeviceFault> {
        Err(self.fail())
    }

    fn read(&mut self, _id: u64, _out: &mut Vec<u8>) -> Result<bool, DeviceFault> {
        Err(self.fail())
    }

    fn remove(&mut self, _id: u64) -> Result<bool, DeviceFault> {
        Err(self.fail())
    }

    fn failures(&self) -> u64 {
        self.failures
    }
}

/// A device to which the removal of this number, counted from 1, is a growth that is refused. It passes all else on.
#[derive(Drop)]
pub struct ShortDevice<D> {
    inner: D,
    due: u64,
}

impl<D: Device> Device for ShortDevice<D> {
    ghost state = { λ device. D.state device.inner };

    ghost HONEST = { D.HONEST };

    fn construct(&mut self) -> Result<(), DeviceFault> {
        self.inner.construct()
    }

    fn write(&mut self, id: u64, bytes: &[u8]) -> Result<(), DeviceFault> {
        self.inner.write(id, bytes)
    }

    fn read(&mut self, id: u64, out: &mut Vec<u8>) -> Result<bool, DeviceFault> {
        self.inner.read(id, out)
    }

    fn remove(&mut self, id: u64) -> Result<bool, DeviceFault> {
        let is_due = self.due == 1;
        self.due = self.due.saturating_sub(1);
        if is_due {
            return Err(DeviceFault::Memory);
        }
        self.inner.remove(id)
    }

    fn failures(&self) -> u64 {
        self.inner.failures()
    }
}

/// A device that an opening makes by its words.
pub trait Made: Device {
    fn make(alloc: Global, line: &Line) -> Result<Self, Stop>;
}

impl Made for FakeDevice {
    fn make(alloc: Global, _line: &Line) -> Result<FakeDevice, Stop> {
        Ok(FakeDevice::new(alloc))
    }
}

impl<D: Made> Made for LyingDevice<D> {
    fn make(alloc: Global, line: &Line) -> Result<LyingDevice<D>, Stop> {
        Ok(LyingDevice::new(D::make(alloc, line)?))
    }
}

impl Made for BrokenDevice {
    fn make(_alloc: Global, _line: &Line) -> Result<BrokenDevice, Stop> {
        Ok(BrokenDevice { failures: 0 })
    }
}

/// An object of so many pairs, whose keys are numbers of three bytes and whose values are empty.
fn object_of(alloc: Global, count: u32) -> Result<Vec<u8>, Stop> {
    let mut bytes = Vec::from_slice(alloc, &count.to_be_bytes())?;
    for number in 0..count {
        let [_, high, middle, low] = number.to_be_bytes();
        bytes.extend_from_slice(&[0, 3, high, middle, low, 0, 0])?;
    }
    Ok(bytes)
}

impl<D: Made> Made for CannedDevice<D> {
    fn make(alloc: Global, line: &Line) -> Result<CannedDevice<D>, Stop> {
        let count = given_pairs(line)?;
        let bytes = if count == 0 {
            Vec::from_slice(alloc, line.named("gives").unwrap_or(&[]))?
        } else {
            object_of(alloc, count)?
        };
        Ok(CannedDevice::new(D::make(alloc, line)?, bytes))
    }
}

/// A device that fails where the opening says so.
pub type Unsure<D> = ShortDevice<FaultyDevice<D>>;

/// The devices of a table.
pub fn devices<D: Made>(
    alloc: Global,
    line: &Line,
    failing: Failing,
    count: u64,
) -> Result<Vec<Unsure<D>>, Stop> {
    let mut devices = Vec::new(alloc);
    for number in 0..count {
        let inner = FaultyDevice::new(D::make(alloc, line)?, failing.fails(number));
        let due = failing.refuses();
        devices.push(ShortDevice { inner, due })?;
    }
    Ok(devices)
}

/// The device that a drained table is handed over to.
pub fn spool<D: Made>(alloc: Global, line: &Line, failing: Failing) -> Result<Unsure<D>, Stop> {
    let inner = FaultyDevice::new(D::make(alloc, line)?, failing.spool_fails());
    Ok(ShortDevice { inner, due: 0 })
}
