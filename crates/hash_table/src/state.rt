//! What a table reports apart from the values of keys.
ghost use Rattle.std.specs.Prelude.{◌≡◌, ◌<◌, IsTrue, IfOk, IfErr, IfSome};
ghost use mathlib.Core.List.{IsPrefix};
ghost use Rattle.frame_cache.specs.Slots.{IsOfVersion};
ghost use Rattle.table_core.specs.Maps.{at_bucket, map_of};
ghost use Rattle.table_core.specs.Logs.{history, word};
ghost use Rattle.table_core.specs.Lawful.{IsLawful};
ghost use Rattle.version_words.specs.Views.{Goes};
ghost use Rattle.hash_table.specs.Stages.{IsUnreadFar};
ghost use Rattle.hash_table.specs.States.{IsState};

use crate::caller::Caller;
use crate::refusal::Refusal;
use crate::stages::seen::{Place, split};
use crate::table::FarTable;
use far_device::Device;
use far_object::FarObject;
use std::alloc::Global;
use std::sync::Wait;
use table_core::word::name_of;
use version_words::{Mark, Naming};

/// Where a bucket's object is, with the name (version number) of the bucket's word.
#[derive(Clone, Copy, Debug, PartialEq, Eq)]
pub enum BucketState {
    /// There is no pair. The name of a bucket that was never written is 0.
    Empty(u64),
    /// It is in a frame.
    Local(u64),
    /// It is on the device.
    Far(u64),
}

impl<K: FarObject, V: FarObject, J: Naming, D: Device> FarTable<K, V, J, D> {
    /// Reports where the object of a bucket is, by one load of its word. `bucket` has to be below the number
    /// of buckets.
    pub fn state_of(&self, caller: &mut Caller<K, V, J>, bucket: u32) -> BucketState
        requires bucket { bucket < J.limits.buckets }
        ensures lawful { IsLawful K.enc V.enc J.limits caller.new.pass.front }
        ensures goes { Goes caller.old.pass caller.new.pass }
        ensures limbo { caller.new.limbo ≡ caller.old.limbo }
        ensures state { IsState (word K.enc J.limits.buckets caller.new.pass.front bucket) result }
    {
        let word = self.words.look(&mut caller.pass, bucket);
        let name = name_of(word);
        match split(word) {
            Place::Nothing => BucketState::Empty(name),
            Place::Frame(_) => BucketState::Local(name),
            Place::Device => BucketState::Far(name),
        }
    }

    /// Lets the caller learn a mark. Afterwards it has seen the prefix of the log that the mark shows.
    pub fn learn(&self, caller: &mut Caller<K, V, J>, mark: &Mark<K, V, J>)
        ensures lawful { IsLawful K.enc V.enc J.limits caller.new.pass.front }
        ensures goes { Goes caller.old.pass caller.new.pass }
        ensures limbo { caller.new.limbo ≡ caller.old.limbo }
        ensures told { IsPrefix mark.now caller.new.pass.front }
    {
        self.words.learn(&mut caller.pass, mark);
    }

    /// Tries once to read all pairs of a bucket, in key order. `bucket` has to be below the number of
    /// buckets. It is no call of the history.
    ///
    /// Errors, after which nothing is changed:
    ///
    /// - `Missed` if the frame does not return the version, or the lane does not have the object
    /// - `Device` if the device fails
    /// - `Damaged` if what the device returns is no object of this bucket and name (version number)
    /// - `Memory` if an allocation fails
    pub fn pairs_in<R: Wait>(
        &self,
        rt: &R,
        alloc: Global,
        caller: &mut Caller<K, V, J>,
        bucket: u32,
    ) -> Result<Vec<(K, V)>, Refusal>
        requires bucket { bucket < J.limits.buckets }
        ensures lawful { IsLawful K.enc V.enc J.limits caller.new.pass.front }
        ensures goes { Goes caller.old.pass caller.new.pass }
        ensures limbo { caller.new.limbo ≡ caller.old.limbo }
        ensures pairs { IfOk result (λ v. IsTrue J.limits.honest → v.items ≡ at_bucket K.enc J.limits.buckets bucket (map_of K.enc V.enc (history caller.new.pass.front))) }
        ensures why { IfErr result (λ e. IsUnreadFar J.limits.honest e) }
    {
        let mut pairs = Vec::new(alloc);
        match self.gather_bucket(rt, alloc, caller, bucket, &mut pairs) {
            Ok(()) => Ok(pairs),
            Err(refusal) => Err(refusal),
        }
    }

    /// The bucket and the name (version number) of what a frame held at a moment of the call. None if it held
    /// nothing, was being filled or emptied, or had as many readers as can be counted. No clause states when
    /// none is returned.
    pub fn frame_seen(&self, frame: u32) -> Option<(u32, u64)>
        ensures bucket { IfSome result (λ found. found.0 < J.limits.buckets) }
        ensures own { IfSome result (λ found. IsOfVersion K.enc V.enc J.limits found.0 found.1) }
        ensures here { IfSome result (λ _. frame < self.now.frames) }
    {
        self.frames.seen(frame)
    }

    /// Whether a get or a scope read the frame since the last such question. It is a hint: no contract says
    /// anything about it.
    pub fn touched(&self, frame: u32) -> bool {
        self.frames.touched(frame)
    }

    /// Whether a frame is listed as free. It takes few loads, however many frames there are. It is a hint: no
    /// contract says anything about it.
    pub fn has_free(&self) -> bool {
        self.frames.has_free()
    }

    /// How many frames are free. It is a hint: no contract says anything about it.
    ///
    /// It reads a word for each 64 frames. Above 65,536 frames it reads some 1,024 words, and reports as if
    /// the others were like them.
    pub fn free(&self) -> u32 {
        self.frames.free()
    }
}
