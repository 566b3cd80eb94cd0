//! A disk in the memory of the process.
ghost use Rattle.std.specs.Prelude.{true};
ghost use Rattle.file_device.specs.Slots.{bytes_in};

use crate::class::CLASSES;
use crate::{Disk, DiskFault, Slot};
use std::alloc::{AllocError, Global};
use std::array;
use std::collections::HashMap;

/// A disk in the memory of the process.
///
/// It is honest. It fails only with `Memory`, if an allocation fails.
#[derive(Drop)]
pub struct MemoryDisk {
    alloc: Global,
    classes: [HashMap<u32, Vec<u8>>; CLASSES],
}

impl MemoryDisk {
    /// A disk without bytes. It takes no memory before the first write.
    pub fn new(alloc: Global) -> Self {
        MemoryDisk {
            alloc,
            classes: array::from_fn(|_| HashMap::new(alloc)),
        }
    }
}

impl Disk for MemoryDisk {
    ghost HONEST = { true };

    ghost kept = { λ disk slot. bytes_in disk.classes slot };

    fn write_slot(&mut self, slot: Slot, bytes: &[u8]) -> Result<(), DiskFault> {
        let copy = Vec::from_slice(self.alloc, bytes)?;
        match self.classes[slot.class as usize].insert(slot.number, copy) {
            Ok(_) => Ok(()),
            Err(_) => Err(DiskFault::Memory),
        }
    }

    fn read_slot(&mut self, slot: Slot, len: u32, out: &mut Vec<u8>) -> Result<(), DiskFault> {
        let Some(bytes) = self.classes[slot.class as usize].get(&slot.number) else {
            return Ok(());
        };
        let count = bytes.len().min(len as usize);
        out.extend_from_slice(&bytes[..count])?;
        Ok(())
    }

    fn clear(&mut self, class: u8) -> Result<(), DiskFault> {
        self.classes[class as usize].clear();
        Ok(())
    }
}
