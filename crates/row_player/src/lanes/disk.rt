//! Devices over disks in the process, which keep labels, and of which a write or read fails.
use super::devices::{DeviceSettings, Signs};
use anyhow::{Result, bail};
use file_device::{Disk, DiskFault, FileDevice, MemoryDisk, Slot, Step as Stage};
use std::alloc::Global;
use std::hash::RandomState;
use std::io::ErrorKind;
use std::random::RandomSource;
use std::sync::Arc;
use std::sync::atomic::AtomicU64;
use std::sync::atomic::Ordering::SeqCst;

/// A disk whose k-th write or read fails, counted from 1, and tells so.
#[derive(Drop)]
pub struct FailingDisk {
    inner: MemoryDisk,
    due: u64,
    failures: Arc<AtomicU64>,
}

impl FailingDisk {
    fn is_due(&mut self) -> bool {
        let is_due = self.due == 1;
        self.due = self.due.saturating_sub(1);
        if is_due {
            self.failures.fetch_add(1, SeqCst);
        }
        is_due
    }
}

impl Disk for FailingDisk {
    ghost use Rattle.std.specs.Prelude.{false, []};

    ghost HONEST = { false };

    ghost kept = { λ disk slot. [] };

    fn write_slot(&mut self, slot: Slot, bytes: &[u8]) -> Result<(), DiskFault> {
        if self.is_due() {
            return Err(DiskFault::Io(Stage::Write, ErrorKind::StorageFull));
        }
        self.inner.write_slot(slot, bytes)
    }

    fn read_slot(&mut self, slot: Slot, len: u32, out: &mut Vec<u8>) -> Result<(), DiskFault> {
        if self.is_due() {
            return Err(DiskFault::Io(Stage::Read, ErrorKind::Other));
        }
        self.inner.read_slot(slot, len, out)
    }

    fn clear(&mut self, class: u8) -> Result<(), DiskFault> {
        self.inner.clear(class)
    }
}

/// The devices that are asked for. None where memory is refused.
pub fn disk_devices<R: RandomSource>(
    rt: &R,
    alloc: Global,
    asked: DeviceSettings<'_>,
    signs: &Signs,
) -> Result<Option<Vec<FileDevice<FailingDisk>>>> {
    let mut devices = Vec::new(alloc);
    for _ in 0..asked.count {
        let Ok(keys) = RandomState::new(rt) else {
            bail!("the system gives no random bytes");
        };
        let Ok(failures) = signs.failures.clone() else {
            return Ok(None);
        };
        let disk = FailingDisk {
            inner: MemoryDisk::new(alloc),
            due: asked.fails_at,
            failures,
        };
        if devices.push(FileDevice::new(alloc, disk, keys)).is_err() {
            return Ok(None);
        }
    }
    Ok(Some(devices))
}
