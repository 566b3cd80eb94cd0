//! A far device over a disk.
//!
//! # Writes
//!
//! An object is always written to a free slot, never over an older object. The index changes only after
//! the disk has accepted the bytes. Then the older object's slot is free. So an object that is
//! overwritten has two slots meanwhile, and a write that fails leaves the older bytes.
//!
//! # A full disk
//!
//! A write that the disk refuses returns `Failed`, and `last_failure` says why. The id has the bytes
//! that it had, and no label. No other object changes. Reads and removals go on.
//!
//! A removed object's slot is used again for an object of the same class. A file gives its space back
//! only when its class has no object any more. So a full disk may refuse a large object although small
//! ones were removed.
//!
//! # A damaged file
//!
//! A read compares the length and the keyed digest with those in the index. If either differs, it
//! returns `Failed`, and `last_failure` is `Damaged`. The caller gets no bytes. A file that is too
//! short, or that the system can't read, is `Failed` too. The object stays in the index, and each later
//! read tries again. It is never reported as absent. Other objects are not affected.
//!
//! # The end
//!
//! The index is in memory only. When the device is dropped or the process ends, all objects are lost.
ghost use Rattle.std.specs.Prelude.{◌≡◌, ◌≢◌, ◌<◌, ◌++◌, ℕ, IsTrue, take, Some, None, IsOk, IsSome, IfOk, IfSome, OnOk, OnErr};
ghost use Rattle.std.specs.Bool.{OnTrue};
ghost use Rattle.std.specs.FinMap.{empty, get, len};
ghost use Rattle.far_device.specs.Calls.{Constructs, Writes, Reads, Removes, count_after};
ghost use Rattle.far_device.specs.Calls.{ReadsLabelled, AreNone, AreSame, Relabels, label_after};
ghost use Rattle.digests.specs.Collisions.{nothing_collided};
ghost use Rattle.digests.specs.Digests.{GivesAlike, GivesAs};
ghost use Rattle.file_device.specs.Honesty.{is_honest_over};
ghost use Rattle.file_device.specs.Owners.{owner_in};
ghost use Rattle.file_device.specs.Places.{bytes_at, slot_of, AreKept, IsFree, IsSound};
ghost use Rattle.file_device.specs.declared.slot.Slot.{Slot};

use crate::catalog::Catalog;
use crate::class::{CLASSES, LONGEST, class_of};
use crate::failures::Failures;
use crate::place::Place;
use crate::{Disk, FileFailure, Slot};
use far_device::{Device, DeviceFault};
use std::alloc::{AllocError, Global};
use std::hash::RandomState;

/// A far device that stores objects in slots of a disk, and an index of them in memory.
///
/// For each object the index has the slot, the length, a digest and the label.
///
/// Whatever the disk does, a read appends bytes with the length and the digest of what was written, or
/// fails. So these bytes are what was written, unless a digest collided. Over an honest disk, which
/// returns what was written, they are so in any case.
///
/// The device has no lock: its user makes one call at a time. A device in scratch files keeps about 61
/// to 72 bytes of memory for each object. In addition it keeps the room of the longest object written
/// and of the longest one read.
#[derive(Drop)]
pub struct FileDevice<K: Disk> {
    disk: K,
    keys: RandomState,
    catalog: Catalog,
    // A copy of the bytes that are being written. The proofs need it.
    scratch: Vec<u8>,
    failures: Failures,
    ghost kept: { AreKept K.HONEST (K.kept disk) keys catalog.index.entries },
}

impl<K: Disk> FileDevice<K> {
    ghost use Rattle.file_device.specs.Devices.{contents_in, labels_in, state_in, slot_in};

    /// An empty device on the disk. The digests are made with these keys.
    ///
    /// Draw the keys at random for each device. Nobody who can write to the disk may know them.
    pub fn new(alloc: Global, disk: K, keys: RandomState) -> Self
        ensures { state_in result ≡ record { contents = empty; failures = 0 } }
    {
        FileDevice {
            disk,
            keys,
            catalog: Catalog::new(alloc),
            scratch: Vec::new(alloc),
            failures: Failures::new(),
        }
    }

    /// The disk, for example to ask for its size.
    pub fn disk(&self) -> &K {
        &self.disk
    }

    /// Why a call returned `Failed` the last time. None if none did.
    pub fn last_failure(&self) -> Option<FileFailure> {
        self.failures.last
    }

    /// How many objects the device has.
    pub fn len(&self) -> usize
        ensures { result ≡ len (contents_in self.now) }
    {
        self.catalog.len()
    }

    /// The slot of the id's object, if there is one. No other id's object is in this slot.
    pub fn slot(&self, id: u64) -> Option<Slot>
        ensures place { result ≡ slot_in self.now id }
        ensures apart { (other : ℕ) → other ≢ id → IsSome result → slot_in self.now other ≢ result }
    {
        match self.catalog.place(id) {
            Some(place) => Some(place.slot()),
            None => None,
        }
    }

    /// Frees a slot that was taken for the id. If no slot of its class is in use then, the disk
    /// releases the class.
    ///
    /// If the disk can't, the class keeps its numbers. It is tried again the next time that no slot of
    /// the class is in use. Such a fault is not counted.
    fn give_back(&mut self, slot: Slot, id: u64)
        requires known { slot.class < 21 }
        requires free { IsFree self.old.catalog.index.entries slot }
        requires owned { owner_in self.old.catalog.owners.ledgers slot ≡ Some id }
        ensures same_index { self.new.catalog.index.entries ≡ self.old.catalog.index.entries }
        ensures same_count { self.new.failures.count ≡ self.old.failures.count }
    {
        self.catalog.give_back(slot, id);
        if self.catalog.is_idle(slot.class) && self.disk.clear(slot.class).is_ok() {
            self.catalog.clear(slot.class);
        }
    }

    /// As `put`, but after an error the id also keeps its label.
    fn store(&mut self, id: u64, label: Option<u32>, bytes: &[u8]) -> Result<(), DeviceFault>
        ensures writes { Writes (state_in self.old) (state_in self.new) id bytes.now result }
        ensures labelled { OnOk result (Relabels (labels_in self.old) (labels_in self.new) id label) }
        ensures refused { OnErr result
            (self.new.catalog.index.entries ≡ self.old.catalog.index.entries) }
    {
        if bytes.len() > LONGEST {
            return Err(self.failures.add(FileFailure::TooLong));
        }
        self.scratch.clear();
        self.scratch.extend_from_slice(bytes)?;
        let class = class_of(bytes.len() as u32);
        let slot = match self.catalog.take(class, id) {
            Ok(Some(slot)) => slot,
            Ok(None) => return Err(self.failures.add(FileFailure::NoSlot)),
            Err(AllocError) => return Err(DeviceFault::Memory),
        };
        if let Err(fault) = self.disk.write_slot(slot, bytes) {
            self.give_back(slot, id);
            return Err(self.failures.of_disk(fault));
        }
        let place = Place::of(slot.number, label, &self.scratch, &self.keys);
        match self.catalog.enter(id, place) {
            Ok(Some(before)) => self.give_back(before, id),
            Ok(None) => {}
            Err(AllocError) => {
                self.give_back(slot, id);
                return Err(DeviceFault::Memory);
            }
        }
        Ok(())
    }

    /// Stores these bytes and this label under the id. After an error the id has the bytes that it had,
    /// and no label.
    fn put(&mut self, id: u64, label: Option<u32>, bytes: &[u8]) -> Result<(), DeviceFault>
        ensures writes { Writes (state_in self.old) (state_in self.new) id bytes.now result }
        ensures refused { OnErr result (contents_in self.new ≡ contents_in self.old) }
        ensures labelled { OnOk result (Relabels (labels_in self.old) (labels_in self.new) id label) }
        ensures unlabelled { OnErr result
            (Relabels (labels_in self.old) (labels_in self.new) id None) }
    {
        let done = self.store(id, label, bytes);
        if done.is_err() {
            self.catalog.unlabel(id);
        }
        done
    }
}

/// Appends the bytes of the place to `out`. After an error `out` is as before.
///
/// Whatever the disk does, the appended bytes have the length and the digest of what was written there.
/// So they are what was written, unless a digest collided.
fn read_place<K: Disk>(
    disk: &mut K,
    failures: &mut Failures,
    keys: &RandomState,
    place: &Place,
    out: &mut Vec<u8>,
) -> Result<(), DeviceFault>
    requires { IsSound keys.now place.now }
    ensures honest { IsTrue K.HONEST → OnOk result
        (out.new.items ≡ out.old.items ++ take place.now.len (K.kept disk.old (slot_of place.now))) }
    ensures same { IsTrue nothing_collided → OnOk result
        (out.new.items ≡ out.old.items ++ bytes_at place.now) }
    ensures alike { OnOk result
        (GivesAs keys.now place.now.len place.now.digest out.old.items out.new.items) }
    ensures fault { OnErr result (out.new.items ≡ out.old.items) }
    ensures counted { failures.new.count ≡ count_after result failures.old.count }
    ensures kept { (slot : Slot) → K.kept disk.new slot ≡ K.kept disk.old slot }
{
    let before = out.len();
    if let Err(fault) = disk.read_slot(place.slot(), place.len, out) {
        return Err(failures.of_disk(fault));
    }
    if !place.fits(keys, &out[before..]) {
        out.truncate(before);
        return Err(failures.add(FileFailure::Damaged));
    }
    Ok(())
}

impl<K: Disk> Device for FileDevice<K> {
    ghost use Rattle.file_device.specs.Devices.{contents_in, keys_in, labels_in, state_in};

    ghost state = { λ device. state_in device };

    ghost HONEST = { is_honest_over K.HONEST };

    ghost labels = { λ device. labels_in device };

    /// Also releases all slots on the disk. After an error the device is empty all the same.
    ///
    /// It returns the disk's fault if a class can't be cleared. Slots that were in use in this class,
    /// or in those after it, are used again only after a later `construct` has cleared them.
    fn construct(&mut self) -> Result<(), DeviceFault>
        ensures constructs { Constructs (state_in self.old) (state_in self.new) result }
        ensures unlabelled { AreNone (labels_in self.new) }
        ensures emptied { contents_in self.new ≡ empty }
    {
        self.catalog.empty();
        for class in 0..CLASSES as u8 {
            if let Err(fault) = self.disk.clear(class) {
                return Err(self.failures.of_disk(fault));
            }
            self.catalog.clear(class);
        }
        Ok(())
    }

    /// `Failed` if the object has more than 64 MiB, if its class has no free slot, or if the disk
    /// fails, for example because it is full. `Memory` if an allocation fails.
    ///
    /// After each error the id has the bytes that it had, and no label.
    fn write(&mut self, id: u64, bytes: &[u8]) -> Result<(), DeviceFault>
        ensures writes { Writes (state_in self.old) (state_in self.new) id bytes.now result }
        ensures unlabelled { Relabels (labels_in self.old) (labels_in self.new) id None }
        ensures refused { OnErr result (contents_in self.new ≡ contents_in self.old) }
    {
        self.put(id, None, bytes)
    }

    /// Whatever the disk does, the appended bytes have the length and the digest of what was written.
    /// So they are what was written, unless a digest collided.
    ///
    /// `Failed` if they have not, or if the disk can't read the slot. `Memory` if an allocation fails.
    fn read(&mut self, id: u64, out: &mut Vec<u8>) -> Result<bool, DeviceFault>
        ensures reads { Reads (is_honest_over K.HONEST) (state_in self.old) (state_in self.new)
            id out.old.items out.new.items result }
        ensures same_labels { AreSame (labels_in self.old) (labels_in self.new) }
        ensures alike { IfOk result (λ there. OnTrue there (IfSome (get (contents_in self.old) id)
            (λ bytes. GivesAlike (keys_in self.old) bytes out.old.items out.new.items))) }
    {
        let Some(place) = self.catalog.place(id) else {
            return Ok(false);
        };
        read_place(&mut self.disk, &mut self.failures, &self.keys, place, out)?;
        Ok(true)
    }

    /// Never fails.
    fn remove(&mut self, id: u64) -> Result<bool, DeviceFault>
        ensures removes { Removes (state_in self.old) (state_in self.new) id result }
        ensures unlabelled { Relabels (labels_in self.old) (labels_in self.new) id None }
        ensures ok { IsOk result }
    {
        match self.catalog.remove(id) {
            Some(slot) => {
                self.give_back(slot, id);
                Ok(true)
            }
            None => Ok(false),
        }
    }

    /// As `write`. It keeps each label.
    fn write_labelled(&mut self, id: u64, label: u32, bytes: &[u8]) -> Result<bool, DeviceFault>
        ensures writes { Writes (state_in self.old) (state_in self.new) id bytes.now result }
        ensures labelled { Relabels (labels_in self.old) (labels_in self.new) id
            (label_after result label) }
        ensures keeps { IfOk result (λ kept. IsTrue kept) }
        ensures refused { OnErr result (contents_in self.new ≡ contents_in self.old) }
    {
        self.put(id, Some(label), bytes)?;
        Ok(true)
    }

    /// As `read`, if the id has a label. It looks into the index once.
    fn read_labelled(&mut self, id: u64, out: &mut Vec<u8>) -> Result<Option<u32>, DeviceFault>
        ensures reads { ReadsLabelled (is_honest_over K.HONEST) (state_in self.old) (state_in self.new)
            (labels_in self.old id) id out.old.items out.new.items result }
        ensures same_labels { AreSame (labels_in self.old) (labels_in self.new) }
        ensures alike { IfOk result (λ found. IfSome found (λ label.
            IfSome (get (contents_in self.old) id)
            (λ bytes. GivesAlike (keys_in self.old) bytes out.old.items out.new.items))) }
    {
        let Some(found) = self.catalog.place(id) else {
            return Ok(None);
        };
        let Some(label) = found.label else {
            return Ok(None);
        };
        read_place(&mut self.disk, &mut self.failures, &self.keys, found, out)?;
        Ok(Some(label))
    }

    fn failures(&self) -> u64 {
        self.failures.count
    }
}
