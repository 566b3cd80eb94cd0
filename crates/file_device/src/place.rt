//! Where an object is on a disk, and how its bytes are checked.
ghost use Rattle.std.specs.Prelude.{◌≡◌, ◌≤◌, ◌<◌, ◌*◌, ◌^◌, IsTrue, length};
ghost use Rattle.std.specs.Bool.{OnTrue};
ghost use Rattle.digests.specs.Collisions.{nothing_collided};
ghost use Rattle.digests.specs.Digests.{digest_under};

use crate::Slot;
use crate::class::class_of;
use digests::{are_same, digest_of};
use std::hash::RandomState;
use std::snapshot::Snapshot;

/// A slot's number, and the length, the digest and the label of the object in it. The length determines
/// the class.
#[derive(Drop)]
pub(crate) struct Place {
    pub(crate) number: u32,
    pub(crate) len: u32,
    pub(crate) digest: u64,
    pub(crate) label: Option<u32>,
    // What was written. Only proofs see it, and it takes no memory.
    pub(crate) written: Snapshot<Vec<u8>>,
    ghost short: { len ≤ 2 ^ 26 },
}

impl Place {
    ghost use Rattle.file_device.specs.Places.{bytes_at, slot_of, IsSound};

    /// The place of an object in the slot of this number, with its label, if it has one.
    pub(crate) fn of(number: u32, label: Option<u32>, written: &Vec<u8>, keys: &RandomState) -> Self
        requires { length written.now.items ≤ 2 ^ 26 }
        ensures written { bytes_at result ≡ written.now.items }
        ensures number { result.number ≡ number }
        ensures label { result.label ≡ label }
        ensures sound { IsSound keys.now result }
    {
        Place {
            number,
            len: written.len() as u32,
            digest: digest_of(keys, written),
            label,
            written: Snapshot::of(written),
        }
    }

    /// Whether the bytes have the length and the digest of what was written. If so, they are what was
    /// written, unless a digest collided.
    pub(crate) fn fits(&self, keys: &RandomState, bytes: &[u8]) -> bool
        requires { IsSound keys.now self.now }
        ensures alike { OnTrue result
            ((length bytes.now ≡ self.now.len) × (digest_under keys.now bytes.now ≡ self.now.digest)) }
        ensures same { IsTrue nothing_collided → OnTrue result (bytes.now ≡ bytes_at self.now) }
    {
        are_same(keys, bytes, self.len, self.digest, &self.written)
    }

    pub(crate) fn slot(&self) -> Slot
        ensures value { result ≡ slot_of self.now }
        ensures known { result.class < 21 }
        ensures fits { self.now.len ≤ 64 * 2 ^ result.class }
    {
        Slot {
            class: class_of(self.len),
            number: self.number,
        }
    }
}
