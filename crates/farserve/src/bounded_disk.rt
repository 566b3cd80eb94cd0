//! A disk that takes a bounded number of bytes.
ghost use Rattle.std.specs.Prelude.{◌≡◌, ◌<◌};
ghost use Rattle.file_device.specs.declared.slot.Slot.{Slot};

use file_device::{Disk, DiskFault, FileDisk, MemoryDisk, ScratchFolder, Slot, Step};
use std::fs::File;
use std::io::ErrorKind;
use std::rt::Files;

/// A disk that reports how many bytes it takes. No contract states anything about the numbers.
pub trait Measured: Disk {
    /// How many bytes the disk takes, also for slots that have no object any more.
    fn bytes(&self) -> u64;

    /// By how many bytes the disk becomes larger if the whole slot is written. All slots stay.
    fn growth(&mut self, slot: Slot) -> Result<u64, DiskFault>
        requires known { slot.class < 21 }
        ensures same { (other : Slot) → Self.kept self.new other ≡ Self.kept self.old other };

    /// Gives back this many bytes of classes that have no object, or as many as they have.
    fn give_back(&self, bytes: u64);
}

impl<R: Files<File = File> + Drop> Measured for FileDisk<ScratchFolder<R>> {
    fn bytes(&self) -> u64 {
        FileDisk::bytes(self)
    }

    fn growth(&mut self, slot: Slot) -> Result<u64, DiskFault> {
        FileDisk::growth(self, slot)
    }

    fn give_back(&self, bytes: u64) {
        FileDisk::give_back(self, bytes);
    }
}

/// It is measured only under a limit of 0, and has no bytes then.
impl Measured for MemoryDisk {
    fn bytes(&self) -> u64 {
        0
    }

    fn growth(&mut self, slot: Slot) -> Result<u64, DiskFault> {
        Ok(slot.bytes())
    }

    fn give_back(&self, _bytes: u64) {}
}

/// A disk with a limit. A write is refused if the disk would then take more than `most` bytes.
///
/// What counts is what the disk takes: slots in use, free slots, and classes without objects that have not
/// been cut. Before a write is refused, such classes give back what is missing. A write beyond the limit
/// returns `DiskFault::Io` with `ErrorKind::StorageFull`, and is not passed on.
#[derive(Drop)]
pub struct BoundedDisk<K: Disk> {
    disk: K,
    most: u64,
}

impl<K: Measured> BoundedDisk<K> {
    /// A bounded disk over one that keeps nothing. `most` is in bytes.
    pub fn new(disk: K, most: u64) -> Self {
        BoundedDisk { disk, most }
    }

    /// Whether the slot may be written within the limit. If not, it first has classes without objects give
    /// back what is missing.
    fn has_room(&mut self, slot: Slot) -> Result<bool, DiskFault>
        requires { slot.class < 21 }
        ensures { (other : Slot) → K.kept self.new.disk other ≡ K.kept self.old.disk other }
    {
        let growth = self.disk.growth(slot)?;
        let most = self.most.saturating_sub(growth);
        if growth > 0 && self.disk.bytes() > most {
            self.disk.give_back(self.disk.bytes().saturating_sub(most));
        }
        Ok(growth == 0 || (growth <= self.most && self.disk.bytes() <= most))
    }
}

impl<K: Measured> Disk for BoundedDisk<K> {
    ghost HONEST = { K.HONEST };

    ghost kept = { λ bounded slot. K.kept bounded.disk slot };

    fn write_slot(&mut self, slot: Slot, bytes: &[u8]) -> Result<(), DiskFault> {
        if !self.has_room(slot)? {
            return Err(DiskFault::Io(Step::Write, ErrorKind::StorageFull));
        }
        self.disk.write_slot(slot, bytes)
    }

    fn read_slot(&mut self, slot: Slot, len: u32, out: &mut Vec<u8>) -> Result<(), DiskFault> {
        self.disk.read_slot(slot, len, out)
    }

    // If a class can't be released, it keeps its bytes, and its slots are written again. No fault is
    // returned, because it would end a server that is about to renew its map.
    fn clear(&mut self, class: u8) -> Result<(), DiskFault> {
        let _ = self.disk.clear(class);
        Ok(())
    }
}
