//! Opens the devices of a map: over scratch files in folders, or over nothing.
ghost use Rattle.std.specs.Prelude.{◌≡◌};

use crate::fault::FarcallsFault;
use crate::reason::LastReason;
use far_device::{Device, DeviceFault};
use file_device::{Disk, DiskFault, FileDevice, FileDisk, ScratchFolder, Slot, Step};
use std::hash::RandomState;
use std::io::ErrorKind;
use std::random::RandomSource;

/// The most devices besides the one for renewals, unless there are more folders.
const DEVICES: u32 = 4;

/// A device that reports why its calls fail.
#[derive(Drop)]
pub struct ReasonedDevice<'a, K: Disk> {
    inner: FileDevice<K>,
    reason: &'a LastReason,
}

impl<K: Disk> ReasonedDevice<'_, K> {
    /// Reports why a call failed, if it did. Memory that was refused is no failure of the device.
    fn tell_fault(&self, fault: Option<DeviceFault>) {
        if fault == Some(DeviceFault::Failed) {
            self.reason.tell(self.inner.last_failure());
        }
    }
}

impl<K: Disk> Device for ReasonedDevice<'_, K> {
    ghost use Rattle.file_device.specs.Devices.{labels_in, state_in};
    ghost use Rattle.file_device.specs.Honesty.{is_honest_over};

    ghost state = { λ device. state_in device.inner };

    ghost HONEST = { is_honest_over K.HONEST };

    ghost labels = { λ device. labels_in device.inner };

    fn construct(&mut self) -> Result<(), DeviceFault> {
        let result = self.inner.construct();
        self.tell_fault(result.err());
        result
    }

    fn write(&mut self, id: u64, bytes: &[u8]) -> Result<(), DeviceFault> {
        let result = self.inner.write(id, bytes);
        self.tell_fault(result.err());
        result
    }

    fn read(&mut self, id: u64, out: &mut Vec<u8>) -> Result<bool, DeviceFault> {
        let result = self.inner.read(id, out);
        self.tell_fault(result.err());
        result
    }

    fn remove(&mut self, id: u64) -> Result<bool, DeviceFault> {
        let result = self.inner.remove(id);
        self.tell_fault(result.err());
        result
    }

    fn write_labelled(&mut self, id: u64, label: u32, bytes: &[u8]) -> Result<bool, DeviceFault> {
        let result = self.inner.write_labelled(id, label, bytes);
        self.tell_fault(result.err());
        result
    }

    fn read_labelled(&mut self, id: u64, out: &mut Vec<u8>) -> Result<Option<u32>, DeviceFault> {
        let result = self.inner.read_labelled(id, out);
        self.tell_fault(result.err());
        result
    }

    fn failures(&self) -> u64 {
        self.inner.failures()
    }
}

/// A disk that refuses to keep anything.
#[derive(Drop)]
pub struct NoDisk;

impl Disk for NoDisk {
    ghost use Rattle.std.specs.Prelude.{true, []};

    ghost HONEST = { true };

    ghost kept = { λ _ _. [] };

    fn write_slot(&mut self, _slot: Slot, _bytes: &[u8]) -> Result<(), DiskFault> {
        Err(DiskFault::Io(Step::Write, ErrorKind::StorageFull))
    }

    fn read_slot(&mut self, _slot: Slot, _len: u32, _out: &mut Vec<u8>) -> Result<(), DiskFault> {
        Err(DiskFault::Io(Step::Read, ErrorKind::UnexpectedEof))
    }

    fn clear(&mut self, _class: u8) -> Result<(), DiskFault> {
        Ok(())
    }
}

/// A device over scratch files.
pub type FarDevice<'a> = ReasonedDevice<'a, FileDisk<ScratchFolder<HostRuntime>>>;

/// Random keys for a device's digests. `FarcallsFault::Random` is returned if the system gives no random bytes.
fn keys_of<'f, R: RandomSource>(rt: &R) -> Result<RandomState, FarcallsFault<'f>> {
    match RandomState::new(rt) {
        Ok(keys) => Ok(keys),
        Err(fault) => Err(FarcallsFault::Random(fault)),
    }
}

/// Opens the devices over scratch files, in these folders in turn. The last device of the list is one more,
/// for renewals. If there is no folder, the list is empty.
///
/// `FarcallsFault::Folder` is returned for a folder that can't be used, or whose path is empty.
/// `FarcallsFault::Random` is returned if the system gives no random bytes, and `FarcallsFault::Memory` if an
/// allocation fails.
pub fn open_far<'a, 'b>(
    rt: HostRuntime,
    folders: &[&'a str],
    reason: &'b LastReason,
) -> Result<Vec<FarDevice<'b>>, FarcallsFault<'a>> {
    let count = DEVICES.max(folders.len().min(64) as u32);
    let mut devices = Vec::new(rt.alloc());
    for lane in 0..=count {
        let Some(folder) = folders.get(lane as usize % folders.len().max(1)).copied() else {
            return Ok(devices);
        };
        if folder.is_empty() {
            return Err(FarcallsFault::Folder(folder, None));
        }
        let keys = keys_of(&rt)?;
        match FileDisk::open(rt, folder, lane) {
            Ok(disk) => {
                let inner = FileDevice::new(rt.alloc(), disk, keys);
                if devices.push(ReasonedDevice { inner, reason }).is_err() {
                    return Err(FarcallsFault::Memory);
                }
            }
            Err(DiskFault::Memory) => return Err(FarcallsFault::Memory),
            Err(fault) => return Err(FarcallsFault::Folder(folder, Some(fault))),
        }
    }
    Ok(devices)
}

/// Opens the devices of a map that keeps all objects in frames. Both refuse to keep anything; the second one
/// is for renewals. The faults are those of `open_far`, except `FarcallsFault::Folder`.
pub fn open_none<'a, 'f, R>(
    rt: &R,
    reason: &'a LastReason,
) -> Result<Vec<ReasonedDevice<'a, NoDisk>>, FarcallsFault<'f>>
where
    R: AllocGlobal + RandomSource,
{
    let mut devices = Vec::new(rt.alloc());
    for _ in 0..2 {
        let inner = FileDevice::new(rt.alloc(), NoDisk, keys_of(rt)?);
        if devices.push(ReasonedDevice { inner, reason }).is_err() {
            return Err(FarcallsFault::Memory);
        }
    }
    Ok(devices)
}
