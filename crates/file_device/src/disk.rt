//! The trait of disks: slots that store bytes.
ghost use Rattle.std.specs.Prelude.{◌≡◌, ◌≢◌, ◌≤◌, ◌<◌, ◌*◌, ◌^◌, Bool, IsTrue, List, ℕ, ◌++◌, length, take, OnOk, OnErr};
ghost use Rattle.file_device.specs.declared.slot.Slot.{Slot};

use crate::{DiskFault, Slot};

/// A place that stores bytes in numbered slots.
///
/// A `FileDevice` decides which slot has which object. The disk knows nothing of objects. The classes
/// of slots are 0 to 20, and `Slot` says how long they are. All errors are `DiskFault`: `Memory` if an
/// allocation fails, and `Io` if the system refuses a step.
///
/// A slot may have any bytes if nothing was written to it, and after the end of what was written last.
/// A disk may also return wrong bytes: `FileDevice` finds that out by a digest.
pub trait Disk: Drop {
    /// Whether a read of a slot returns what was written. It is a statement about the type, and only
    /// contracts read it.
    ghost HONEST: { Bool };

    /// What a slot has.
    ghost kept: { Self → Slot → List ℕ };

    /// Writes the bytes to the front of the slot.
    ///
    /// After an error, for example because the disk is full, the slot may have anything. All other
    /// slots are as before in each case.
    fn write_slot(&mut self, slot: Slot, bytes: &[u8]) -> Result<(), DiskFault>
        requires known { slot.class < 21 }
        requires fits { length bytes.now ≤ 64 * 2 ^ slot.class }
        ensures written { IsTrue HONEST
            → OnOk result (take (length bytes.now) (kept self.new slot) ≡ bytes.now) }
        ensures others { (other : Slot) → other ≢ slot → kept self.new other ≡ kept self.old other };

    /// Appends the first `len` bytes of the slot to `out`. After an error `out` is as before.
    fn read_slot(&mut self, slot: Slot, len: u32, out: &mut Vec<u8>) -> Result<(), DiskFault>
        requires known { slot.class < 21 }
        requires fits { len ≤ 64 * 2 ^ slot.class }
        ensures honest { IsTrue HONEST
            → OnOk result (out.new.items ≡ out.old.items ++ take len (kept self.old slot)) }
        ensures appended { OnOk result ((bytes : List ℕ) × (out.new.items ≡ out.old.items ++ bytes)) }
        ensures fault { OnErr result (out.new.items ≡ out.old.items) }
        ensures same { (other : Slot) → kept self.new other ≡ kept self.old other };

    /// Releases what the slots of the class have. All other slots are as before.
    ///
    /// It is called when no object is in the class. The slots of the class may have anything
    /// afterwards, and may be written again, also after an error.
    fn clear(&mut self, class: u8) -> Result<(), DiskFault>
        requires { class < 21 }
        ensures { (other : Slot) → other.class ≢ class → kept self.new other ≡ kept self.old other };
}
