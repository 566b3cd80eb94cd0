//! What is known of an object in the store.
ghost use Rattle.std.specs.Prelude.{◌≡◌, ◌≤◌, ◌^◌, IsTrue, length};
ghost use Rattle.std.specs.Bool.{OnTrue};
ghost use Rattle.digests.specs.Collisions.{nothing_collided};
ghost use Rattle.digests.specs.Digests.{digest_under};

use digests::{are_same, digest_of};
use std::hash::RandomState;
use std::snapshot::Snapshot;

/// The most bytes of an object.
pub(crate) const LONGEST: usize = 1 << 26;

/// Length and digest of an object.
#[derive(Drop)]
pub(crate) struct Kept {
    pub(crate) len: u32,
    pub(crate) digest: u64,
    // What was written, which takes no memory.
    pub(crate) written: Snapshot<Vec<u8>>,
}

impl Kept {
    ghost use Rattle.resp_device.specs.Objects.{bytes_of, IsSound};

    pub(crate) fn of(written: &Vec<u8>, keys: &RandomState) -> Self
        requires { length written.now.items ≤ 2 ^ 26 }
        ensures written { bytes_of result ≡ written.now.items }
        ensures sound { IsSound keys.now result }
    {
        Kept {
            len: written.len() as u32,
            digest: digest_of(keys, written),
            written: Snapshot::of(written),
        }
    }

    /// Whether the bytes have the length and the digest of what was written. If so, they are what was
    /// written, unless a digest collided.
    pub(crate) fn fits(&self, keys: &RandomState, bytes: &[u8]) -> bool
        requires { IsSound keys.now self.now }
        ensures alike { OnTrue result
            ((length bytes.now ≡ self.now.len) × (digest_under keys.now bytes.now ≡ self.now.digest)) }
        ensures same { IsTrue nothing_collided → OnTrue result (bytes.now ≡ bytes_of self.now) }
    {
        are_same(keys, bytes, self.len, self.digest, &self.written)
    }
}
