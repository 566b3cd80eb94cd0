//! Opens the devices of a server without a far store: over scratch files in folders, or over nothing.
ghost use Rattle.std.specs.Prelude.{◌≤◌};

use crate::bounded_disk::BoundedDisk;
use crate::counted_device::CountedDevice;
use crate::fault::FarserveFault;
use far_server::FarUsage;
use file_device::{DiskFault, FileDevice, FileDisk, MemoryDisk, ScratchFolder, ScratchSpace};
use std::hash::RandomState;
use std::random::RandomSource;
use std::rt::Clock;
use std::sync::Arc;

/// The most devices besides the one for renewals, unless there are more folders.
pub const DEVICES: u32 = 4;

/// A device over scratch files.
pub type FarDevice<'a> = CountedDevice<
    'a,
    BoundedDisk<FileDisk<ScratchFolder<HostRuntime>>>,
    HostRuntime,
>;

/// Random keys for a device's digests. `FarserveFault::Random` is returned if the system gives no random bytes.
pub fn keys_of<'f, R: RandomSource>(rt: &R) -> Result<RandomState, FarserveFault<'f>> {
    match RandomState::new(rt) {
        Ok(keys) => Ok(keys),
        Err(fault) => Err(FarserveFault::Random(fault)),
    }
}

/// How many devices there are in these folders, besides the one for renewals: `count`, or one for each folder
/// if that is more.
fn devices_in(folders: &[&str], count: u32) -> u32
    requires { count ≤ 4 }
    ensures { result ≤ 64 }
{
    count.max(folders.len().min(64) as u32)
}

/// The space of the scratch files of `open_far`. `FarserveFault::Memory` is returned if an allocation fails.
pub fn space_for<'f, R: AllocGlobal>(
    rt: &R,
    folders: &[&str],
    count: u32,
) -> Result<Arc<ScratchSpace>, FarserveFault<'f>>
    requires { count ≤ 4 }
{
    let alloc = rt.alloc();
    let Ok(space) = ScratchSpace::new(alloc, devices_in(folders, count) + 1) else {
        return Err(FarserveFault::Memory);
    };
    match Arc::new(alloc, space) {
        Ok(space) => Ok(space),
        Err(_) => Err(FarserveFault::Memory),
    }
}

/// What the devices of this space report to. `FarserveFault::Memory` is returned if an allocation fails.
pub fn usage_over<'f>(space: &Arc<ScratchSpace>) -> Result<FarUsage, FarserveFault<'f>> {
    match Arc::try_clone(space) {
        Ok(space) => Ok(FarUsage::over(space)),
        Err(_) => Err(FarserveFault::Memory),
    }
}

/// Opens a device over scratch files in a folder, for the lane with this number.
fn open<'a>(
    rt: HostRuntime,
    folder: &str,
    lane: u32,
    most: u64,
    keys: RandomState,
    space: &Arc<ScratchSpace>,
    usage: &'a FarUsage,
) -> Result<FarDevice<'a>, DiskFault> {
    let disk = FileDisk::open_in(rt, folder, lane, Arc::try_clone(space)?)?;
    let device = FileDevice::new(rt.alloc(), BoundedDisk::new(disk, most), keys);
    Ok(CountedDevice::new(device, rt, usage))
}

/// Opens the devices over scratch files, in these folders in turn, with a space of `space_for`.
///
/// There are `count` devices, or one for each folder if that is more. Together they keep at most `most`
/// bytes, each an equal part. The last device of the list is one more, for renewals: it may keep `most` bytes
/// again while a map is renewed. If there is no folder, the list is empty.
///
/// `FarserveFault::Folder` is returned for a folder that can't be used, or whose path is empty. `FarserveFault::Random` is
/// returned if the system gives no random bytes, and `FarserveFault::Memory` if an allocation fails.
pub fn open_far<'a, 'b>(
    rt: HostRuntime,
    folders: &[&'a str],
    count: u32,
    most: u64,
    space: &Arc<ScratchSpace>,
    usage: &'b FarUsage,
) -> Result<Vec<FarDevice<'b>>, FarserveFault<'a>>
    requires { count ≤ 4 }
{
    let count = devices_in(folders, count);
    let mut devices = Vec::new(rt.alloc());
    for lane in 0..=count {
        let Some(folder) = folders.get(lane as usize % folders.len().max(1)).copied() else {
            return Ok(devices);
        };
        if folder.is_empty() {
            return Err(FarserveFault::Folder(folder, None));
        }
        let share = if lane < count {
            most / u64::from(count)
        } else {
            most
        };
        match open(rt, folder, lane, share, keys_of(&rt)?, space, usage) {
            Ok(device) => {
                if devices.push(device).is_err() {
                    return Err(FarserveFault::Memory);
                }
            }
            Err(DiskFault::Memory) => return Err(FarserveFault::Memory),
            Err(fault) => return Err(FarserveFault::Folder(folder, Some(fault))),
        }
    }
    Ok(devices)
}

/// A device that refuses to keep anything.
fn open_one_of_none<'a, 'f, R>(
    rt: &R,
    usage: &'a FarUsage,
) -> Result<CountedDevice<'a, BoundedDisk<MemoryDisk>, R>, FarserveFault<'f>>
where
    R: AllocGlobal + RandomSource + Clock + Copy,
{
    let keys = keys_of(rt)?;
    let disk = BoundedDisk::new(MemoryDisk::new(rt.alloc()), 0);
    Ok(CountedDevice::new(FileDevice::new(rt.alloc(), disk, keys), *rt, usage))
}

/// Opens the devices of a server that keeps all objects in frames. Both refuse to keep anything; the second
/// one is for renewals. The faults are those of `open_far`, except `FarserveFault::Folder`.
pub fn open_none<'a, 'f, R>(
    rt: &R,
    usage: &'a FarUsage,
) -> Result<Vec<CountedDevice<'a, BoundedDisk<MemoryDisk>, R>>, FarserveFault<'f>>
where
    R: AllocGlobal + RandomSource + Clock + Copy,
{
    let mut devices = Vec::new(rt.alloc());
    for _ in 0..2 {
        if devices.push(open_one_of_none(rt, usage)?).is_err() {
            return Err(FarserveFault::Memory);
        }
    }
    Ok(devices)
}
