//! Devices on a disk, and disks that misbehave, over one in the process.

use crate::calls::call;
use crate::runs;
use crate::world::{World, fault, flag, number, shown, text};
use anyhow::{Result, bail};
use case_files::Line;
use file_device::{
    CLASSES, Disk, DiskFault, FileDevice, FileDisk, MemoryDisk, Slot, SlotFolder, Step,
};
use std::alloc::Global;
use std::io::ErrorKind;

/// The most bytes of a slot.
const LARGEST: usize = 64 << 20;

/// A disk that a case looks at.
pub(crate) trait Seen: Disk {
    /// How long its files are together, where it has files.
    fn file_bytes(&self) -> Result<u64>;

    /// How many of its reads and writes had a flaw.
    fn flawed(&self) -> u64;
}

impl Seen for MemoryDisk {
    fn file_bytes(&self) -> Result<u64> {
        bail!("a disk in the process has no files")
    }

    fn flawed(&self) -> u64 {
        0
    }
}

impl<D: SlotFolder> Seen for FileDisk<D> {
    fn file_bytes(&self) -> Result<u64> {
        Ok(self.len()?)
    }

    fn flawed(&self) -> u64 {
        0
    }
}

impl Seen for FlawedDisk {
    fn file_bytes(&self) -> Result<u64> {
        bail!("a disk in the process has no files")
    }

    fn flawed(&self) -> u64 {
        self.flawed
    }
}

/// A device on a disk.
#[derive(Drop)]
pub(crate) struct Disks<K: Seen> {
    pub(crate) alloc: Global,
    pub(crate) device: FileDevice<K>,
}

impl<K: Seen> Disks<K> {
    /// The slot of the id: its class, and its number in it.
    fn slot(&self, line: &Line) -> Result<String> {
        match self.device.slot(number(line, 1)?) {
            None => text(self.alloc, "none"),
            Some(slot) => Ok(format!(in self.alloc; "{} {}", slot.class, slot.number)?),
        }
    }

    /// How many bytes a slot of the class has.
    fn slot_bytes(&self, line: &Line) -> Result<String> {
        let class = number(line, 1)?;
        if class >= 21 {
            bail!("the classes are 0 to 20");
        }
        let slot = Slot {
            class: class as u8,
            number: 0,
        };
        shown(self.alloc, &slot.bytes())
    }

    fn class(&self, line: &Line) -> Result<String> {
        match self.device.slot(number(line, 1)?) {
            None => text(self.alloc, "none"),
            Some(slot) => shown(self.alloc, &slot.class),
        }
    }
}

impl<K: Seen> World for Disks<K> {
    fn call(&mut self, line: &Line) -> Result<String> {
        match line.call() {
            "last_failure" => match self.device.last_failure() {
                None => text(self.alloc, "none"),
                Some(why) => fault(self.alloc, &why),
            },
            "len" => shown(self.alloc, &self.device.len()),
            "slot" => self.slot(line),
            "class" => self.class(line),
            "classes" => shown(self.alloc, &CLASSES),
            "slot_bytes" => self.slot_bytes(line),
            "file_bytes" => shown(self.alloc, &self.device.disk().file_bytes()?),
            "fill" => runs::fill(self.alloc, &mut self.device, line),
            "clear" => runs::clear(self.alloc, &mut self.device, line),
            "run" => runs::run(self.alloc, &mut self.device, line),
            "each_flaw_failed" => {
                let found = far_device::Device::failures(&self.device);
                flag(self.alloc, found == self.device.disk().flawed())
            }
            _ => call(self.alloc, &mut self.device, line),
        }
    }
}

/// What is wrong with some calls of a disk.
#[derive(Clone, Copy, PartialEq, Eq)]
pub(crate) enum Flaw {
    /// What is read has one bit flipped, in its last byte.
    FlippedBit,
    /// What is read lacks its last byte.
    Shortened,
    /// What is read has one byte more.
    Lengthened,
    /// A write is not made, so the slot gives what it had before.
    Forgotten,
    /// Of a write only the first half reaches the disk. Behind it the slot has what it had.
    Torn,
    /// A read gives the bytes of the slot beside it.
    Neighbour,
    /// A call fails.
    Failing,
}

/// The flaw that the line names.
pub(crate) fn flaw_of(first: &Line) -> Result<Flaw> {
    match first.named("flaw") {
        Some(b"flipped_bit") => Ok(Flaw::FlippedBit),
        Some(b"shortened") => Ok(Flaw::Shortened),
        Some(b"lengthened") => Ok(Flaw::Lengthened),
        Some(b"forgotten") => Ok(Flaw::Forgotten),
        Some(b"torn") => Ok(Flaw::Torn),
        Some(b"neighbour") => Ok(Flaw::Neighbour),
        Some(b"failing") => Ok(Flaw::Failing),
        _ => bail!(
            "flaw= is flipped_bit, shortened, lengthened, forgotten, torn, neighbour or failing"
        ),
    }
}

/// A disk with a flaw.
#[derive(Drop)]
pub(crate) struct FlawedDisk {
    inner: MemoryDisk,
    flaw: Flaw,
    every: u64,
    calls: u64,
    flawed: u64,
    room: Vec<u8>,
}

impl FlawedDisk {
    /// A disk of whose calls that can have the flaw each has it whose number `every` divides.
    pub(crate) fn new(alloc: Global, flaw: Flaw, every: u64) -> Self {
        FlawedDisk {
            inner: MemoryDisk::new(alloc),
            flaw,
            every,
            calls: 0,
            flawed: 0,
            room: Vec::new(alloc),
        }
    }

    /// Counts a call that can have the flaw, and answers whether it has it.
    fn is_due(&mut self) -> bool {
        self.calls = self.calls.wrapping_add(1);
        self.every != 0 && self.calls % self.every == 0
    }

    /// The same for a read or a write.
    fn has(&mut self, flaw: Flaw) -> bool {
        let has = self.flaw == flaw && self.is_due();
        if has {
            self.flawed = self.flawed.wrapping_add(1);
        }
        has
    }
}

/// The bytes with this flaw, where there are some.
fn spoil(room: &mut Vec<u8>, flaw: Flaw) -> std::result::Result<(), DiskFault> {
    let Some(last) = room.pop() else {
        return Ok(());
    };
    match flaw {
        Flaw::Shortened => return Ok(()),
        Flaw::FlippedBit => room.push(last ^ 4).map_err(|_| DiskFault::Memory)?,
        Flaw::Lengthened => {
            room.push(last).map_err(|_| DiskFault::Memory)?;
            room.push(last).map_err(|_| DiskFault::Memory)?;
        }
        _ => room.push(last).map_err(|_| DiskFault::Memory)?,
    }
    Ok(())
}

/// Whether it is a flaw of what is read.
fn spoils(flaw: Flaw) -> bool {
    matches!(flaw, Flaw::FlippedBit | Flaw::Shortened | Flaw::Lengthened)
}

impl Disk for FlawedDisk {
    ghost use Rattle.std.specs.Prelude.{false, []};

    ghost HONEST = { false };

    ghost kept = { λ disk slot. [] };

    fn write_slot(&mut self, slot: Slot, bytes: &[u8]) -> std::result::Result<(), DiskFault> {
        if self.has(Flaw::Failing) {
            return Err(DiskFault::Io(Step::Write, ErrorKind::StorageFull));
        }
        if self.has(Flaw::Forgotten) {
            return Ok(());
        }
        if self.has(Flaw::Torn) {
            let front = &bytes[..bytes.len() / 2];
            let len = bytes.len().min(LARGEST) as u32;
            self.room.clear();
            self.inner.read_slot(slot, len, &mut self.room)?;
            self.room.resize(bytes.len(), 0)?;
            self.room[..front.len()].copy_from_slice(front);
            let len = self.room.len().min(bytes.len());
            return self.inner.write_slot(slot, &self.room[..len]);
        }
        self.inner.write_slot(slot, bytes)
    }

    fn read_slot(
        &mut self,
        slot: Slot,
        len: u32,
        out: &mut Vec<u8>,
    ) -> std::result::Result<(), DiskFault> {
        if self.has(Flaw::Failing) {
            return Err(DiskFault::Io(Step::Read, ErrorKind::Other));
        }
        self.room.clear();
        let from = if self.has(Flaw::Neighbour) {
            Slot {
                class: slot.class,
                number: slot.number ^ 1,
            }
        } else {
            slot
        };
        self.inner.read_slot(from, len, &mut self.room)?;
        if spoils(self.flaw) && !self.room.is_empty() && self.has(self.flaw) {
            spoil(&mut self.room, self.flaw)?;
        }
        out.extend_from_slice(&self.room)?;
        Ok(())
    }

    fn clear(&mut self, class: u8) -> std::result::Result<(), DiskFault> {
        if self.flaw == Flaw::Failing && self.is_due() {
            return Err(DiskFault::Io(Step::Cut, ErrorKind::Other));
        }
        self.inner.clear(class)
    }
}
