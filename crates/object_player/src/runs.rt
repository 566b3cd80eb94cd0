//! Long runs of random calls of a device, beside a map.

use crate::numbers::Numbers;
use crate::world::{bytes, named, nothing, number, small, times};
use anyhow::{Result, bail};
use case_files::Line;
use far_device::{Device, DeviceFault};
use file_device::{Disk, FileDevice, Slot};
use std::alloc::Global;

/// How long an object is, and what tells its bytes from those of others.
pub(crate) type Made = (u32, u32);

/// What is to be in a device, and how many calls failed.
#[derive(Drop)]
pub(crate) struct Wanted {
    alloc: Global,
    objects: Vec<Option<Made>>,
    failures: u64,
    written: Vec<u8>,
    read: Vec<u8>,
}

/// Puts the bytes of the object in place of what the list had.
fn fill_with(bytes: &mut Vec<u8>, (len, seed): Made) -> Result<()> {
    bytes.clear();
    for at in 0..len {
        let byte = (at.wrapping_mul(2_654_435_761) ^ seed) >> 24;
        bytes.push(byte as u8)?;
    }
    Ok(())
}

impl Wanted {
    /// Nothing, of so many ids.
    pub(crate) fn new(alloc: Global, ids: usize) -> Result<Wanted> {
        let mut objects = Vec::new(alloc);
        for _ in 0..ids {
            objects.push(None)?;
        }
        Ok(Wanted {
            alloc,
            objects,
            failures: 0,
            written: Vec::new(alloc),
            read: Vec::new(alloc),
        })
    }

    /// What the id has.
    fn object(&self, id: usize) -> Option<Made> {
        self.objects.get(id).copied().unwrap_or(None)
    }

    fn set(&mut self, id: usize, object: Option<Made>) {
        if let Some(place) = self.objects.get_mut(id) {
            *place = object;
        }
    }

    /// Counts a call that failed.
    fn fail(&mut self, fault: DeviceFault) -> Result<()> {
        if fault != DeviceFault::Failed {
            bail!("{fault}");
        }
        self.failures = self.failures.saturating_add(1);
        Ok(())
    }

    /// Writes an object. Where that fails, the id has what it had, or nothing where the device forgets it.
    pub(crate) fn write<D: Device>(
        &mut self,
        device: &mut D,
        (id, object): (usize, Made),
        forgets: bool,
    ) -> Result<()> {
        fill_with(&mut self.written, object)?;
        match device.write(id as u64, self.written.as_slice()) {
            Ok(()) => self.set(id, Some(object)),
            Err(fault) => {
                self.fail(fault)?;
                if forgets {
                    self.set(id, None);
                }
            }
        }
        Ok(())
    }

    /// Reads an object, which has to have the bytes that were written last.
    pub(crate) fn read<D: Device>(&mut self, device: &mut D, id: usize) -> Result<()> {
        self.read.clear();
        match device.read(id as u64, &mut self.read) {
            Ok(found) if found != self.object(id).is_some() => bail!("{id} is there: {found}"),
            Ok(_) => {}
            Err(fault) => {
                if !self.read.is_empty() {
                    bail!("bytes were handed out");
                }
                return self.fail(fault);
            }
        }
        self.written.clear();
        if let Some(object) = self.object(id) {
            fill_with(&mut self.written, object)?;
        }
        if self.read.as_slice() != self.written.as_slice() {
            bail!("{id} has other bytes than were written");
        }
        Ok(())
    }

    /// Takes the object out, if there is one. Where that fails, it stays.
    pub(crate) fn remove<D: Device>(&mut self, device: &mut D, id: usize) -> Result<()> {
        match device.remove(id as u64) {
            Ok(found) if found != self.object(id).is_some() => bail!("{id} was there: {found}"),
            Ok(_) => self.set(id, None),
            Err(fault) => self.fail(fault)?,
        }
        Ok(())
    }

    /// Reads each object, and compares how many calls failed.
    pub(crate) fn end<D: Device>(&mut self, device: &mut D) -> Result<()> {
        for id in 0..self.objects.len() {
            self.read(device, id)?;
        }
        if device.failures() != self.failures {
            bail!(
                "{} failures, and {} are counted",
                self.failures,
                device.failures()
            );
        }
        Ok(())
    }

    /// Replies, where at least so many calls failed, or just none where `least` is 0.
    pub(crate) fn told(&self, least: u64) -> Result<String> {
        if self.failures < least || (least == 0 && self.failures != 0) {
            bail!("{} calls failed", self.failures);
        }
        nothing(self.alloc)
    }
}

/// How many ids a run has.
const IDS: usize = 300;

/// Writes an object, and finds it in one of the first slots: none is lost.
fn write<K: Disk>(
    wanted: &mut Wanted,
    device: &mut FileDevice<K>,
    id: usize,
    object: Made,
) -> Result<()> {
    wanted.write(device, (id, object), false)?;
    let slot = device.slot(id as u64);
    if slot.is_some() != wanted.object(id).is_some() {
        bail!("{id} has a slot: {}", slot.is_some());
    }
    match slot {
        // An id that is written again has two slots for a while.
        Some(slot) if slot.number as usize > IDS => bail!("a slot is lost"),
        _ => Ok(()),
    }
}

/// Makes one call.
fn step<K: Disk>(
    wanted: &mut Wanted,
    device: &mut FileDevice<K>,
    numbers: &mut Numbers,
) -> Result<()> {
    let id = numbers.below(IDS);
    match numbers.below(10) {
        0..=3 => {
            let object = (numbers.length(), numbers.next());
            write(wanted, device, id, object)
        }
        4..=7 => wanted.read(device, id),
        _ => match device.remove(id as u64) {
            Ok(found) if found == wanted.object(id).is_some() => {
                wanted.set(id, None);
                Ok(())
            }
            _ => bail!("{id} was not removed"),
        },
    }
}

/// No two of the ids have one slot.
fn are_apart<K: Disk>(alloc: Global, device: &FileDevice<K>) -> Result<()> {
    let mut slots: Vec<Option<Slot>> = Vec::new(alloc);
    for id in 0..IDS {
        let slot = device.slot(id as u64);
        if slot.is_some() && slots.contains(&slot) {
            bail!("two ids have one slot");
        }
        slots.push(slot)?;
    }
    Ok(())
}

/// Makes so many random calls, at least so many of which fail, and looks at each object at the end.
pub(crate) fn run<K: Disk>(
    alloc: Global,
    device: &mut FileDevice<K>,
    line: &Line,
) -> Result<String> {
    let mut wanted = Wanted::new(alloc, IDS)?;
    let mut numbers = Numbers::new(u64::from(named(line, "seed", 1)?));
    for _ in 0..named(line, "calls", 1)? {
        step(&mut wanted, device, &mut numbers)?;
    }
    wanted.end(device)?;
    are_apart(alloc, device)?;
    wanted.told(u64::from(named(line, "least", 0)?))
}

/// Writes the same bytes under each id below this one.
pub(crate) fn fill<D: Device>(alloc: Global, device: &mut D, line: &Line) -> Result<String> {
    let written = bytes(alloc, line, 2)?;
    for id in 0..times(line, 1)? {
        if let Err(fault) = device.write(u64::from(id), written.as_slice()) {
            bail!("{id}: {fault}");
        }
    }
    nothing(alloc)
}

/// Removes each id below this one, which has to be there.
pub(crate) fn clear<D: Device>(alloc: Global, device: &mut D, line: &Line) -> Result<String> {
    for id in 0..times(line, 1)? {
        if device.remove(u64::from(id)) != Ok(true) {
            bail!("{id} was not there");
        }
    }
    nothing(alloc)
}
