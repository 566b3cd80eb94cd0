//! A disk in files, one for each class of slots.
ghost use Rattle.std.specs.Prelude.{◌≡◌, ◌≤◌, ◌<◌, ◌+◌, ◌*◌, ◌++◌, ◌^◌, ℕ, List, length, take, IsTrue, OnOk, OnErr};
ghost use Rattle.file_device.specs.Disks.{slots_in};
ghost use Rattle.file_device.specs.Files.{byte_of, bytes_from, slot_bytes, IsOutside};
ghost use Rattle.file_device.specs.declared.slot.Slot.{Slot};

use crate::class::CLASSES;
use crate::slot_file::{SlotFile, SlotFolder};
use crate::{Disk, DiskFault, Slot, Step};
use std::alloc::Global;
use std::array;
use std::io::ErrorKind;

/// A disk in the files that a folder makes. The first write to a class makes its file.
///
/// Slot n is at n times the slot's size in the file of its class, so an object is usually read or
/// written by one system call. The disk is honest if its files are.
///
/// It is far memory, not a database: the bytes are lost when the disk is dropped or the process ends.
#[derive(Drop)]
pub struct FileDisk<D: SlotFolder> {
    folder: D,
    files: [Option<D::File>; CLASSES],
    // A buffer as long as the longest read so far. It is kept, so that a read seldom has to zero it
    // first.
    room: Vec<u8>,
}

impl<D: SlotFolder> FileDisk<D> {
    /// An empty disk. It makes the file of class 0, so that a folder that can't be used is found here.
    ///
    /// The error is the folder's.
    pub fn new(alloc: Global, folder: D) -> Result<Self, DiskFault> {
        let mut disk = FileDisk {
            folder,
            files: array::from_fn(|_| None),
            room: Vec::new(alloc),
        };
        disk.make(0)?;
        Ok(disk)
    }

    pub(crate) fn folder(&self) -> &D {
        &self.folder
    }

    /// How long all files are together, in bytes. That includes parts that were never written. The error is
    /// that of a file.
    pub fn len(&self) -> Result<u64, DiskFault> {
        let mut sum = 0u64;
        for place in &self.files {
            if let Some(file) = place {
                sum = sum.saturating_add(file.len()?);
            }
        }
        Ok(sum)
    }

    /// By how many bytes the file of the slot's class becomes longer if the whole slot is written. Makes the
    /// file if there is none. The error is the folder's, or that of a file.
    pub fn growth(&mut self, slot: Slot) -> Result<u64, DiskFault>
        requires known { slot.class < 21 }
        ensures same { (other : Slot) → slots_in D.File.byte self.new other
            ≡ slots_in D.File.byte self.old other }
    {
        self.make(slot.class)?;
        let end = slot.offset() + slot.bytes();
        match &self.files[slot.class as usize] {
            Some(file) => Ok(end.saturating_sub(file.len()?)),
            None => Ok(end),
        }
    }

    /// Makes the file of the class if there is none, and makes it ready for a write.
    fn make(&mut self, class: u8) -> Result<(), DiskFault>
        requires { class < 21 }
        ensures { (slot : Slot) → slot_bytes D.File.byte self.new.files slot
            ≡ slot_bytes D.File.byte self.old.files slot }
    {
        make_in(&mut self.folder, &mut self.files, class)
    }
}

/// Makes the file of the class if there is none, and makes it ready for a write.
fn make_in<D: SlotFolder>(
    folder: &mut D,
    files: &mut [Option<D::File>; CLASSES],
    class: u8,
) -> Result<(), DiskFault>
    requires { class < 21 }
    ensures same { (slot : Slot) → slot_bytes D.File.byte files.new slot
        ≡ slot_bytes D.File.byte files.old slot }
{
    make_at(folder, &mut files[class as usize], class)
}

/// The same at the place of the class.
fn make_at<D: SlotFolder>(
    folder: &mut D,
    place: &mut Option<D::File>,
    class: u8,
) -> Result<(), DiskFault>
    requires { class < 21 }
    ensures same { (at : ℕ) → byte_of D.File.byte place.new at ≡ byte_of D.File.byte place.old at }
{
    match place {
        Some(file) => folder.ready(file),
        None => {
            *place = Some(folder.make(class)?);
            Ok(())
        }
    }
}

/// Writes the bytes to the file, which was made before.
fn write_to<F: SlotFile>(place: &mut Option<F>, bytes: &[u8], at: u64) -> Result<(), DiskFault>
    requires { at + length bytes.now ≤ 2 ^ 58 }
    ensures written { IsTrue F.HONEST → OnOk result
        (bytes_from (byte_of F.byte place.new) at (length bytes.now) ≡ bytes.now) }
    ensures others { (other : ℕ) → IsOutside at (length bytes.now) other
        → byte_of F.byte place.new other ≡ byte_of F.byte place.old other }
{
    match place {
        Some(file) => file.write(bytes, at),
        None => Err(DiskFault::Io(Step::Open, ErrorKind::NotFound)),
    }
}

/// Appends the first `len` bytes of the slot to `out`. `room` is a buffer, which grows to this length.
fn append_from<F: SlotFile>(
    files: &[Option<F>; CLASSES],
    room: &mut Vec<u8>,
    slot: Slot,
    len: u32,
    out: &mut Vec<u8>,
) -> Result<(), DiskFault>
    requires known { slot.class < 21 }
    requires fits { len ≤ 64 * 2 ^ slot.class }
    ensures honest { IsTrue F.HONEST → OnOk result
        (out.new.items ≡ out.old.items ++ take len (slot_bytes F.byte files.now slot)) }
    ensures appended { OnOk result ((bytes : List ℕ) × (out.new.items ≡ out.old.items ++ bytes)) }
    ensures fault { OnErr result (out.new.items ≡ out.old.items) }
{
    let Some(file) = &files[slot.class as usize] else {
        return Err(DiskFault::Io(Step::Read, ErrorKind::NotFound));
    };
    let count = len as usize;
    grow(room, count)?;
    let part = &mut room[..count];
    file.read(part, slot.offset())?;
    out.extend_from_slice(part)?;
    Ok(())
}

/// Makes the buffer at least this long.
fn grow(room: &mut Vec<u8>, count: usize) -> Result<(), DiskFault>
    ensures { OnOk result (count ≤ length room.new.items) }
{
    if room.len() < count {
        room.resize(count, 0)?;
    }
    Ok(())
}

impl<D: SlotFolder> Disk for FileDisk<D> {
    ghost HONEST = { D.File.HONEST };

    ghost kept = { λ disk slot. slot_bytes D.File.byte disk.files slot };

    fn write_slot(&mut self, slot: Slot, bytes: &[u8]) -> Result<(), DiskFault> {
        self.make(slot.class)?;
        write_to(&mut self.files[slot.class as usize], bytes, slot.offset())
    }

    fn read_slot(&mut self, slot: Slot, len: u32, out: &mut Vec<u8>) -> Result<(), DiskFault> {
        append_from(&self.files, &mut self.room, slot, len, out)
    }

    fn clear(&mut self, class: u8) -> Result<(), DiskFault> {
        match &mut self.files[class as usize] {
            Some(file) => file.clear(),
            None => Ok(()),
        }
    }
}
