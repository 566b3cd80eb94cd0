//! A hint before several calls: what they are about to read is brought nearer to the processor.
//!
//! On a table that is larger than the processor's caches, a call waits for memory three times. It waits at
//! its bucket's word, at the frame that the word names, and at the object. The loads of one key depend on one
//! another, but not on those of another key. So the words of all keys are loaded first, and then the words of
//! all frames. The processor waits for all loads of such a group at once.
ghost use Rattle.std.specs.Prelude.{◌≡◌, ◌≤◌};
ghost use Rattle.table_core.specs.Lawful.{IsLawful};
ghost use Rattle.version_words.specs.Views.{Goes};

use crate::caller::Caller;
use crate::stages::seen::{Place, split};
use crate::table::FarTable;
use far_device::Device;
use far_object::FarObject;
use version_words::{Naming, Pass};

/// How many keys a prefetch looks at, the first of those that it is given. A processor can have about as many
/// loads from memory under way.
pub const MOST_PREFETCHED: usize = 16;

// With fewer buckets a prefetch does nothing. Their words, and as many frames of 64 bytes each, fit into a
// near cache.
const FEWEST_BUCKETS: u32 = 16_384;

impl<K: FarObject, V: FarObject, J: Naming, D: Device> FarTable<K, V, J, D> {
    // The word of the bucket of this number, or 0 if there is none.
    fn word_of(&self, pass: &mut Pass<K, V, J>, bucket: u32) -> u64
        ensures lawful { IsLawful K.enc V.enc J.limits pass.new.front }
        ensures goes { Goes pass.old pass.new }
    {
        if bucket >= self.words.buckets() {
            let _front = pass.mark();
            return 0;
        }
        self.words.look(pass, bucket)
    }

    // The words of the first `count` of these buckets. The others are 0.
    fn words_of(
        &self,
        pass: &mut Pass<K, V, J>,
        buckets: &[u32; MOST_PREFETCHED],
        count: usize,
    ) -> [u64; MOST_PREFETCHED]
        requires { count ≤ 16 }
        ensures lawful { IsLawful K.enc V.enc J.limits pass.new.front }
        ensures goes { Goes pass.old pass.new }
    {
        let _front = pass.mark();
        let mut words = [0u64; MOST_PREFETCHED];
        for at in 0..count {
            words[at] = self.word_of(pass, buckets[at]);
        }
        words
    }

    /// Begins to load what calls with the first 16 of these keys are about to read: the words of their
    /// buckets, and the words of the frames that these name.
    ///
    /// It is worth its time before several calls on a table that is larger than the processor's caches. It
    /// does nothing if there are fewer than 16,384 buckets. It is no call of the history, moves no object,
    /// and counts nothing.
    pub fn prefetch(&self, caller: &mut Caller<K, V, J>, keys: &[K])
        ensures lawful { IsLawful K.enc V.enc J.limits caller.new.pass.front }
        ensures goes { Goes caller.old.pass caller.new.pass }
        ensures limbo { caller.new.limbo ≡ caller.old.limbo }
    {
        let _front = caller.pass.mark();
        if self.words.buckets() < FEWEST_BUCKETS {
            return;
        }
        let count = keys.len().min(MOST_PREFETCHED);
        let mut buckets = [0u32; MOST_PREFETCHED];
        for at in 0..count {
            buckets[at] = self.bucket(&keys[at]);
        }
        for word in self.words_of(&mut caller.pass, &buckets, count) {
            if let Place::Frame(frame) = split(word) {
                self.frames.prefetch(frame);
            }
        }
    }
}
