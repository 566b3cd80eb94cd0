//! The table: its words, frames and lanes.
ghost use Rattle.std.specs.Prelude.{◌≡◌, ◌<◌};
ghost use Rattle.far_object.specs.Buckets.{bucket};

use far_device::Device;
use far_object::{FarObject, Format, bucket_of};
use frame_cache::Frames;
use lane_store::LaneStore;
use version_words::{Naming, Words};

/// A hash table from `K` to `V` that threads share, and that may be larger than its local memory.
///
/// It has a word for each bucket, a fixed number of frames (local slots for one object each) and lanes
/// (devices with their locks). Every call except those that end the table takes `&self`. Each thread makes
/// calls by its own `Caller`, which `enter` returns.
///
/// `Opening::open` or `open_wide`, and then `Opening::named`, open a table. `close`, `close_on_threads`,
/// `close_through` or `drain` ends it.
///
/// A call that takes `rt` may wait for a lane's lock, or repeat until it is done. All other calls wait for
/// nobody.
///
/// `J` stands for this table in types and proofs, so that a caller of one table is never taken for another's.
/// Contracts speak of contents only if the device's type is honest, that is, if it states that a read returns
/// what was written.
#[derive(Drop)]
pub struct FarTable<K: FarObject, V: FarObject, J: Naming, D: Device> {
    pub(crate) words: Words<K, V, J>,
    pub(crate) frames: Frames<K, V, J>,
    pub(crate) lanes: LaneStore<K, V, J, D>,
    // The most bytes of an object.
    pub(crate) limit: u32,
    // How an object is written on a device.
    pub(crate) format: Format,
    ghost honest: { J.limits.honest ≡ D.HONEST },
}

impl<K: FarObject, V: FarObject, J: Naming, D: Device> FarTable<K, V, J, D> {
    /// The number of the key's bucket, for calls such as `state_of` and `pairs_in`.
    pub fn bucket(&self, key: &K) -> u32
        ensures is { result ≡ bucket K.enc J.limits.buckets key.now }
        ensures below { result < J.limits.buckets }
    {
        bucket_of(key, self.words.buckets())
    }
}
