//! The devices that a case of lanes may ask for.

use super::gates::{Gate, GatedDevice};
use far_device::{CannedDevice, FakeDevice, FaultyDevice, LyingDevice, WatchedDevice};
use std::alloc::Global;
use std::sync::Arc;
use std::sync::atomic::AtomicU64;

/// What is asked for.
#[derive(Clone, Copy)]
pub struct DeviceSettings<'l> {
    /// How many devices there are.
    pub count: u64,
    /// The call of each device that fails, counted from 1, or 0.
    pub fails_at: u64,
    /// The device that can't be made empty, counted from 1, or 0.
    pub fails_at_once: u64,
    /// What each reading gives.
    pub bytes: &'l [u8],
}

/// What devices say of themselves.
#[derive(Drop)]
pub struct Signs {
    /// How often they failed.
    pub failures: Arc<AtomicU64>,
    pub gate: Arc<Gate>,
}

impl Signs {
    /// None where memory is refused.
    pub fn new(alloc: Global) -> Option<Signs> {
        Some(Signs {
            failures: Arc::new(alloc, AtomicU64::new(0)).ok()?,
            gate: Arc::new(alloc, Gate::shut()).ok()?,
        })
    }
}

/// Devices in the process, of which a call fails.
pub type MemoryDevice = WatchedDevice<FaultyDevice<FakeDevice>>;

pub fn memory_devices(
    alloc: Global,
    asked: DeviceSettings<'_>,
    signs: &Signs,
) -> Option<Vec<MemoryDevice>> {
    let mut devices = Vec::new(alloc);
    for _ in 0..asked.count {
        let writes = Arc::new(alloc, AtomicU64::new(0)).ok()?;
        let failures = signs.failures.clone().ok()?;
        let faulty = FaultyDevice::new(FakeDevice::new(alloc), asked.fails_at);
        devices
            .push(WatchedDevice::new(faulty, writes, failures))
            .ok()?;
    }
    Some(devices)
}

/// Devices whose readings lack their last byte.
pub fn lying_devices(
    alloc: Global,
    asked: DeviceSettings<'_>,
) -> Option<Vec<LyingDevice<FakeDevice>>> {
    let mut devices = Vec::new(alloc);
    for _ in 0..asked.count {
        devices.push(LyingDevice::new(FakeDevice::new(alloc))).ok()?;
    }
    Some(devices)
}

/// Devices whose readings give always the same bytes.
pub fn canned_devices(
    alloc: Global,
    asked: DeviceSettings<'_>,
) -> Option<Vec<CannedDevice<FakeDevice>>> {
    let mut devices = Vec::new(alloc);
    for _ in 0..asked.count {
        let bytes = Vec::from_slice(alloc, asked.bytes).ok()?;
        devices
            .push(CannedDevice::new(FakeDevice::new(alloc), bytes))
            .ok()?;
    }
    Some(devices)
}

/// Devices of which the odd ones stay in a write until the gate is open.
pub fn gated_devices(
    alloc: Global,
    asked: DeviceSettings<'_>,
    signs: &Signs,
) -> Option<Vec<GatedDevice<FakeDevice>>> {
    let mut devices = Vec::new(alloc);
    for at in 0..asked.count {
        let gate = if at % 2 == 1 {
            Some(signs.gate.clone().ok()?)
        } else {
            None
        };
        devices
            .push(GatedDevice::new(FakeDevice::new(alloc), gate))
            .ok()?;
    }
    Some(devices)
}
