//! Moves of a bucket's object between a frame and a device, and the reclamation of old versions. They are no
//! calls of the history.
ghost use Rattle.std.specs.Prelude.{◌≡◌, ℕ, IfOk, IfErr, OnOk, MatchBool, length};
ghost use mathlib.Core.List.{IsPrefix};
ghost use Rattle.far_object.specs.Buckets.{bucket};
ghost use Rattle.table_core.specs.BucketWords.{far_place};
ghost use Rattle.table_core.specs.Lawful.{IsLawful};
ghost use Rattle.version_words.specs.Views.{Goes};
ghost use Rattle.hash_table.specs.Calls.{AtMostOneMore, SeenInCall, IsNear, IsRefused, IsFull};
ghost use Rattle.hash_table.specs.Reclaims.{WasTried, IsReclaimed};
ghost use Rattle.hash_table.specs.Refusals.{OfFetch, OfSwapOut, WasRefused};
ghost use Rattle.hash_table.specs.Steps.{IsInFrame, IsOfFrame, IsOfDevice, FetchLeavesSpares, SwapLeavesSpares, IsUnfetched, IsUnswapped, IsMovedOver, IsSwapped};

use crate::caller::Caller;
use crate::refusal::{ReclaimFault, Refusal};
use crate::stages::seen::{Place, lies_in, split};
use crate::table::FarTable;
use crate::traffic::Counted;
use far_device::Device;
use far_object::FarObject;
use lane_store::LaneFault;
use std::alloc::Global;
use std::sync::Wait;
use table_core::word::{EMPTY_PLACE, FAR_PLACE, place_of};
use version_words::{Change, Naming, Spare};

impl<K: FarObject, V: FarObject, J: Naming, D: Device> FarTable<K, V, J, D> {
    /// Tries once to swap in the key's bucket: its object goes from the device into a frame, under a new name
    /// (a version number). It returns false if the bucket's word does not name the device.
    ///
    /// After true the object is in the frame that the bucket's word names, and the word that it replaced is
    /// the newest spare (retired word). `Moved` leaves the spare of the name that this try drew, if it drew
    /// one. False, and any other refusal, leave none.
    ///
    /// Errors, in the order in which the try looks for them:
    ///
    /// - `LimboFull` if 64 spares wait in the caller
    /// - `Missed` if the lane does not have the object, that is, it has no receipt for it
    /// - `Device` if the device fails
    /// - `Damaged` if what the device returns is no object of this bucket and name
    /// - `Memory` if an allocation fails
    /// - `NoFrame` if no frame was free
    /// - `NamesSpent` if the last name was drawn
    /// - `Moved` if another name was drawn at that moment, or if the bucket's word is another one at the end
    pub fn fetch<R: Wait>(
        &self,
        rt: &R,
        alloc: Global,
        caller: &mut Caller<K, V, J>,
        key: &K,
    ) -> Result<bool, Refusal>
        ensures lawful { IsLawful K.enc V.enc J.limits caller.new.pass.front }
        ensures goes { Goes caller.old.pass caller.new.pass }
        ensures limbo { AtMostOneMore caller.old.limbo caller.new.limbo }
        ensures fetched { IfOk result (λ done. MatchBool done
            (IsMovedOver K.enc J.limits (bucket K.enc J.limits.buckets key.now) (λ p. p ≡ far_place) (IsInFrame self.now.frames (bucket K.enc J.limits.buckets key.now)) caller.old.pass caller.old.limbo caller.new.pass caller.new.limbo)
            (IsNear K.enc V.enc J.limits (bucket K.enc J.limits.buckets key.now) caller.new.pass.front × (caller.new.limbo ≡ caller.old.limbo))) }
        ensures given_up { IfErr result (λ e. FetchLeavesSpares (IsOfFrame self.now.frames (bucket K.enc J.limits.buckets key.now)) caller.new.pass.front caller.old.limbo caller.new.limbo e) }
        ensures refused { IfErr result (λ e. IsRefused K.enc V.enc J.limits (bucket K.enc J.limits.buckets key.now) caller.old.pass caller.new.pass e) }
        ensures full { IfErr result (λ e. IsFull e (length caller.old.limbo)) }
        ensures only { IfErr result (λ e. OfFetch e) }
        ensures unmoved { IfErr result (λ e. IsUnfetched K.enc J.limits (bucket K.enc J.limits.buckets key.now) caller.new.pass.front e) }
    {
        let _front = caller.pass.mark();
        if caller.limbo.is_full() {
            return Err(Refusal::LimboFull);
        }
        let b = self.bucket(key);
        let word = self.words.look(&mut caller.pass, b);
        match split(word) {
            Place::Nothing => return Ok(false),
            Place::Frame(_) => return Ok(false),
            Place::Device => {}
        }
        let object = match self.read_device(rt, alloc, &caller.pass, b, word) {
            Ok(object) => object,
            Err(refusal) => {
                caller.limbo.count(Counted::Refused(refusal));
                return Err(refusal);
            }
        };
        caller.limbo.count(Counted::FarRead);
        let length = object.as_bytes().len();
        match self.publish_local(
            &mut caller.pass,
            &mut caller.limbo,
            b,
            word,
            object,
            &Change::Move,
        ) {
            Ok(()) => {
                caller.limbo.count(Counted::SwapIn(length));
                Ok(true)
            }
            Err((refusal, _)) => Err(refusal),
        }
    }

    /// Tries once to swap out the frame of this number: its object goes to the device, under a new name (a
    /// version number). It returns false if nothing was seen in the frame, or if its bucket's word does not
    /// name that.
    ///
    /// After true the device took the object before the bucket's word named it there, and the word of this
    /// frame is the newest spare (retired word). The frame is free once that spare is reclaimed. `Memory` and
    /// `Device` leave the spare of the name that this try drew. So does `Moved`, if it drew one. False, and
    /// any other refusal, leave none.
    ///
    /// Errors:
    ///
    /// - `LimboFull` if 64 spares wait in the caller, before all others
    /// - `Missed` if the frame does not return the version
    /// - `NamesSpent` if the last name was drawn
    /// - `Memory` if an allocation of the lane or its device fails
    /// - `Device` if the device fails
    /// - `Moved` if another name was drawn at that moment, or if the bucket's word is another one at the end
    pub fn swap_out<R: Wait>(
        &self,
        rt: &R,
        caller: &mut Caller<K, V, J>,
        frame: u32,
    ) -> Result<bool, Refusal>
        ensures lawful { IsLawful K.enc V.enc J.limits caller.new.pass.front }
        ensures goes { Goes caller.old.pass caller.new.pass }
        ensures limbo { AtMostOneMore caller.old.limbo caller.new.limbo }
        ensures swapped { IfOk result (λ done. IsSwapped K.enc J.limits self.now.format frame caller.old.pass caller.old.limbo caller.new.pass caller.new.limbo done) }
        ensures given_up { IfErr result (λ e. (b : ℕ) × SwapLeavesSpares (IsOfDevice b) caller.new.pass.front caller.old.limbo caller.new.limbo e) }
        ensures refused { IfErr result (λ e. (b : ℕ) × IsRefused K.enc V.enc J.limits b caller.old.pass caller.new.pass e) }
        ensures full { IfErr result (λ e. IsFull e (length caller.old.limbo)) }
        ensures only { IfErr result (λ e. OfSwapOut e) }
        ensures unmoved { IfErr result (λ e. (b : ℕ) × IsUnswapped K.enc J.limits b frame caller.new.pass.front e) }
        ensures answered { IfErr result (λ e. WasRefused frame e) }
    {
        let _front = caller.pass.mark();
        if caller.limbo.is_full() {
            return Err(Refusal::LimboFull);
        }
        let Some((b, name)) = self.frames.seen(frame) else {
            return Ok(false);
        };
        let word = self.words.look(&mut caller.pass, b);
        if !lies_in(word, name, frame) {
            return Ok(false);
        }
        match self.publish_far(rt, caller, b, word, frame) {
            Ok(()) => Ok(true),
            Err(refusal) => Err(refusal),
        }
    }

    /// Frees what a spare (a retired word) points to: the version in its frame, or the object on the device.
    /// It returns whether that was there, and false for a word without an object. The caller learns the
    /// spare's mark.
    ///
    /// Errors, with which the spare is returned:
    ///
    /// - `Held` if a reader is in the spare's frame
    /// - `Device` if the device fails
    /// - `Memory` if an allocation of the device fails
    ///
    /// That the spare is returned if what it points to is still there is tested, not proved.
    pub fn reclaim<R: Wait>(
        &self,
        rt: &R,
        caller: &mut Caller<K, V, J>,
        spare: Spare<K, V, J>,
    ) -> Result<bool, (Spare<K, V, J>, ReclaimFault)>
        ensures lawful { IsLawful K.enc V.enc J.limits caller.new.pass.front }
        ensures goes { Goes caller.old.pass caller.new.pass }
        ensures limbo { caller.new.limbo ≡ caller.old.limbo }
        ensures told { IsPrefix spare.front caller.new.pass.front }
        ensures tried { WasTried spare }
        ensures reclaimed { OnOk result (IsReclaimed spare) }
        ensures back { IfErr result (λ e. e.0 ≡ spare) }
    {
        self.words.learn(&mut caller.pass, &spare.mark());
        match place_of(spare.word()) {
            EMPTY_PLACE => Ok(false),
            FAR_PLACE => match self.lanes.remove(rt, &spare) {
                Ok(there) => Ok(there),
                Err(LaneFault::Memory) => Err((spare, ReclaimFault::Memory)),
                Err(LaneFault::Device) => {
                    caller.limbo.count(Counted::Refused(Refusal::Device));
                    Err((spare, ReclaimFault::Device))
                }
            },
            _ => match self.reclaim_frame(&mut caller.limbo, &mut caller.buffers, spare) {
                Ok(there) => Ok(there),
                Err(back) => Err((back, ReclaimFault::Held)),
            },
        }
    }
}
