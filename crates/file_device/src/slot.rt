//! A slot of a disk, with room for one object.
ghost use Rattle.std.specs.Prelude.{◌≡◌, ◌≤◌, ◌<◌, ◌+◌, ◌*◌, ◌^◌};
ghost use Rattle.file_device.specs.Offsets.{size_of, AreApart};
ghost use Rattle.file_device.specs.declared.slot.Slot.{Slot};

use crate::class::SMALLEST;

/// A slot of a disk. The classes are 0 to 20, and a slot of class c has 64 << c bytes: from 64 B to 64
/// MiB. The slots of a class are numbered from 0.
#[derive(Clone, Copy, Debug, PartialEq, Eq)]
pub struct Slot {
    pub class: u8,
    pub number: u32,
}

impl Slot {
    /// How many bytes the slot has.
    pub fn bytes(self) -> u64
        requires { self.class < 21 }
        ensures { result ≡ 64 * 2 ^ self.class }
    {
        u64::from(SMALLEST) << self.class
    }

    /// Where the slot begins in a file that has all slots of its class, in bytes.
    pub fn offset(self) -> u64
        requires { self.class < 21 }
        ensures value { result ≡ self.number * size_of self }
        ensures short { (self.number + 1) * size_of self ≤ 2 ^ 58 }
        ensures apart { (other : Slot) → AreApart self other }
    {
        u64::from(self.number) * self.bytes()
    }
}
