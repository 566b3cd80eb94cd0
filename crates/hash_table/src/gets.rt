//! Gets: one try, one round, and a get that repeats until it is done.
ghost use Rattle.std.specs.Prelude.{◌≡◌, ◌≢◌, ◌<◌, true, IsTrue, IfOk, IfErr, length};
ghost use mathlib.Core.List.{IsPrefix};
ghost use Rattle.far_object.specs.Buckets.{bucket};
ghost use Rattle.table_core.specs.declared.operation.Operation.TheVariants.{Get};
ghost use Rattle.table_core.specs.BucketWords.{name_of, place_of, far_place};
ghost use Rattle.table_core.specs.Maps.{value_at};
ghost use Rattle.table_core.specs.Logs.{contents, word};
ghost use Rattle.table_core.specs.Lawful.{IsLawful};
ghost use Rattle.version_words.specs.Views.{Goes, WasSeen, has_object};
ghost use Rattle.hash_table.specs.declared.refusal.Refusal.TheVariants.{Memory};
ghost use Rattle.hash_table.specs.Calls.{IsFinished, IsRefused, most_spares};
ghost use Rattle.hash_table.specs.Refusals.{OfLocalGet, OfFarGet, OfGet};
ghost use Rattle.hash_table.specs.Rounds.{IsRound};
ghost use Rattle.hash_table.specs.Stages.{IsUnread, IsUnreadFar};

use crate::caller::Caller;
use crate::refusal::Refusal;
use crate::round::{Round, after};
use crate::stages::seen::{Place, split};
use crate::table::FarTable;
use crate::traffic::Counted;
use far_device::Device;
use far_object::{FarObject, Object};
use std::alloc::Global;
use std::sync::Wait;
use version_words::{Change, Moved, Naming, Pass, Probe, empty_holds, seen_answers, seen_stay};

impl<K: FarObject, V: FarObject, J: Naming, D: Device> FarTable<K, V, J, D> {
    // Checks that the word is still there, which makes the call a get with this answer.
    fn answer(
        &self,
        pass: &mut Pass<K, V, J>,
        b: u32,
        old: u64,
        key: &K,
        answer: Option<V>,
    ) -> Result<Option<V>, Moved>
        requires bucket { (b < J.limits.buckets) × (bucket K.enc J.limits.buckets key.now ≡ b) }
        requires seen { WasSeen K.enc J.limits.buckets pass.old.front b old }
        requires value { IsTrue J.limits.honest → answer ≡ value_at K.enc key.now (contents pass.old.front (name_of old)) }
        ensures lawful { IsLawful K.enc V.enc J.limits pass.new.front }
        ensures finished { IfOk result (λ r. IsFinished K.enc V.enc J.limits pass.old (Get key.now) r pass.new) }
        ensures goes { IfErr result (λ _. Goes pass.old pass.new) }
        ensures moved { IfErr result (λ _. word K.enc J.limits.buckets pass.new.front b ≢ old) }
    {
        seen_answers::<K, V>();
        match self.words.check(pass, b, old, &Probe::Get(key)) {
            Ok(()) => Ok(answer),
            Err(moved) => Err(moved),
        }
    }

    // The value of a key in the object under a word that was seen, if that is in a frame or there is none.
    fn read_local(
        &self,
        alloc: Global,
        pass: &Pass<K, V, J>,
        b: u32,
        old: u64,
        key: &K,
    ) -> Result<Option<V>, Refusal>
        requires lawful { IsLawful K.enc V.enc J.limits pass.now.front }
        requires seen { WasSeen K.enc J.limits.buckets pass.now.front b old }
        ensures value { IfOk result (λ r. IsTrue J.limits.honest → r ≡ value_at K.enc key.now (contents pass.now.front (name_of old))) }
        ensures why { IfErr result (λ e. IsUnread old e) }
    {
        match split(old) {
            Place::Device => Err(Refusal::Far),
            Place::Nothing => {
                empty_holds::<K, V>();
                Ok(None)
            }
            Place::Frame(frame) => {
                let Ok(scope) = self.enter_frame(pass, b, old, frame) else {
                    return Err(Refusal::Missed);
                };
                self.frames.touch(frame);
                let found = scope.object().value(alloc, key);
                scope.close();
                match found {
                    Ok(found) => Ok(found),
                    Err(_) => Err(Refusal::Memory),
                }
            }
        }
    }

    // The same, wherever the object is.
    fn read_anywhere<R: Wait>(
        &self,
        rt: &R,
        alloc: Global,
        pass: &Pass<K, V, J>,
        b: u32,
        old: u64,
        key: &K,
    ) -> Result<Option<V>, Refusal>
        requires lawful { IsLawful K.enc V.enc J.limits pass.now.front }
        requires seen { WasSeen K.enc J.limits.buckets pass.now.front b old }
        ensures value { IfOk result (λ r. IsTrue J.limits.honest → r ≡ value_at K.enc key.now (contents pass.now.front (name_of old))) }
        ensures why { IfErr result (λ e. IsUnreadFar J.limits.honest e) }
    {
        match split(old) {
            Place::Device => {}
            Place::Nothing => {
                return match self.read_local(alloc, pass, b, old, key) {
                    Ok(found) => Ok(found),
                    Err(refusal) => Err(refusal),
                };
            }
            Place::Frame(_) => {
                return match self.read_local(alloc, pass, b, old, key) {
                    Ok(found) => Ok(found),
                    Err(refusal) => Err(refusal),
                };
            }
        }
        let object = match self.read_device(rt, alloc, pass, b, old) {
            Ok(object) => object,
            Err(refusal) => return Err(refusal),
        };
        match object.value(alloc, key) {
            Ok(found) => Ok(found),
            Err(_) => Err(Refusal::Memory),
        }
    }

    /// Tries once to get the value of a key from a frame. It returns a copy, or none if the key has no value.
    ///
    /// It waits for nobody, and marks the frame as used, for the choice of what to swap out. It leaves no
    /// spare (retired word). A refused try has made no call.
    ///
    /// Errors:
    ///
    /// - `Far` if the bucket's object is on the device
    /// - `Missed` if the frame does not return the version: it has another one by now, is being filled or
    ///   emptied, or has as many readers as can be counted. It is also returned if 1,000 attempts in a row to
    ///   enter it each met a change by another thread.
    /// - `Memory` if the copy can't be allocated
    /// - `Moved` if the bucket's word is another one at the end
    pub fn try_get(
        &self,
        alloc: Global,
        caller: &mut Caller<K, V, J>,
        key: &K,
    ) -> Result<Option<V>, Refusal>
        ensures lawful { IsLawful K.enc V.enc J.limits caller.new.pass.front }
        ensures limbo { caller.new.limbo ≡ caller.old.limbo }
        ensures finished { IfOk result (λ r. IsFinished K.enc V.enc J.limits caller.old.pass (Get key.now) r caller.new.pass) }
        ensures goes { IfErr result (λ _. Goes caller.old.pass caller.new.pass) }
        ensures refused { IfErr result (λ e. IsRefused K.enc V.enc J.limits (bucket K.enc J.limits.buckets key.now) caller.old.pass caller.new.pass e) }
        ensures only { IfErr result (λ e. OfLocalGet e) }
    {
        let b = self.bucket(key);
        let word = self.words.look(&mut caller.pass, b);
        let found = match self.read_local(alloc, &caller.pass, b, word, key) {
            Ok(found) => found,
            Err(refusal) => return Err(refusal),
        };
        caller.limbo.count(Counted::LocalRead);
        match self.answer(&mut caller.pass, b, word, key, found) {
            Ok(answer) => Ok(answer),
            Err(Moved) => Err(Refusal::Moved),
        }
    }

    /// Tries once to get the value of a key, from a frame or from the device. A far object stays on the
    /// device. It returns a copy, or none if the key has no value.
    ///
    /// It leaves no spare (retired word). A refused try has made no call.
    ///
    /// Errors:
    ///
    /// - `Missed` if the frame does not return the version, or the lane does not have the object, that is, it
    ///   has no receipt for it
    /// - `Device` if the device fails
    /// - `Damaged` if what the device returns is no object of this bucket and name (version number)
    /// - `Memory` if an allocation fails
    /// - `Moved` if the bucket's word is another one at the end
    pub fn read_through<R: Wait>(
        &self,
        rt: &R,
        alloc: Global,
        caller: &mut Caller<K, V, J>,
        key: &K,
    ) -> Result<Option<V>, Refusal>
        ensures lawful { IsLawful K.enc V.enc J.limits caller.new.pass.front }
        ensures limbo { caller.new.limbo ≡ caller.old.limbo }
        ensures finished { IfOk result (λ r. IsFinished K.enc V.enc J.limits caller.old.pass (Get key.now) r caller.new.pass) }
        ensures goes { IfErr result (λ _. Goes caller.old.pass caller.new.pass) }
        ensures refused { IfErr result (λ e. IsRefused K.enc V.enc J.limits (bucket K.enc J.limits.buckets key.now) caller.old.pass caller.new.pass e) }
        ensures only { IfErr result (λ e. OfFarGet e) }
    {
        let b = self.bucket(key);
        let word = self.words.look(&mut caller.pass, b);
        let found = match self.read_anywhere(rt, alloc, &caller.pass, b, word, key) {
            Ok(found) => found,
            Err(refusal) => {
                caller.limbo.count(Counted::Refused(refusal));
                return Err(refusal);
            }
        };
        caller.limbo.count(Counted::read(word));
        match self.answer(&mut caller.pass, b, word, key, found) {
            Ok(answer) => Ok(answer),
            Err(Moved) => Err(Refusal::Moved),
        }
    }

    // A round that answers a get from an object that was read from the device, and stays there.
    fn answer_from(
        &self,
        alloc: Global,
        pass: &mut Pass<K, V, J>,
        b: u32,
        old: u64,
        key: &K,
        object: &Object<K, V>,
    ) -> Result<Round<V>, Refusal>
        requires bucket { (b < J.limits.buckets) × (bucket K.enc J.limits.buckets key.now ≡ b) }
        requires lawful { IsLawful K.enc V.enc J.limits pass.old.front }
        requires seen { WasSeen K.enc J.limits.buckets pass.old.front b old }
        requires object { IsTrue J.limits.honest → object.now ≡ contents pass.old.front (name_of old) }
        ensures lawful { IsLawful K.enc V.enc J.limits pass.new.front }
        ensures round { IfOk result (λ r. IsRound K.enc V.enc J.limits pass.old (Get key.now) r pass.new) }
        ensures goes { IfErr result (λ _. Goes pass.old pass.new) }
        ensures why { IfErr result (λ e. e ≡ Memory) }
    {
        let Ok(found) = object.value(alloc, key) else {
            return Err(Refusal::Memory);
        };
        match self.answer(pass, b, old, key, found) {
            Ok(answer) => Ok(Round::Finished(answer)),
            Err(Moved) => Ok(Round::Again),
        }
    }

    // A round that brings an object that was read from the device into a frame, for the next round. If there
    // is no frame for it, or no name is drawn, it answers from the object.
    fn bring_in(
        &self,
        alloc: Global,
        caller: &mut Caller<K, V, J>,
        b: u32,
        old: u64,
        key: &K,
        object: Object<K, V>,
    ) -> Result<Round<V>, Refusal>
        requires bucket { (b < J.limits.buckets) × (bucket K.enc J.limits.buckets key.now ≡ b) }
        requires lawful { IsLawful K.enc V.enc J.limits caller.old.pass.front }
        requires seen { WasSeen K.enc J.limits.buckets caller.old.pass.front b old }
        requires far { (has_object old ≡ true) × (place_of old ≡ far_place) }
        requires object { IsTrue J.limits.honest → object ≡ contents caller.old.pass.front (name_of old) }
        requires room { length caller.old.limbo < most_spares }
        ensures lawful { IsLawful K.enc V.enc J.limits caller.new.pass.front }
        ensures limbo { IsPrefix caller.old.limbo caller.new.limbo }
        ensures round { IfOk result (λ r. IsRound K.enc V.enc J.limits caller.old.pass (Get key.now) r caller.new.pass) }
        ensures goes { IfErr result (λ _. Goes caller.old.pass caller.new.pass) }
        ensures why { IfErr result (λ e. e ≡ Memory) }
    {
        seen_stay::<K, V>();
        let length = object.as_bytes().len();
        match self.publish_local(
            &mut caller.pass,
            &mut caller.limbo,
            b,
            old,
            object,
            &Change::Move,
        ) {
            Ok(()) => {
                caller.limbo.count(Counted::SwapIn(length));
                Ok(Round::Again)
            }
            Err((_, None)) => Ok(Round::Again),
            Err((_, Some(object))) => {
                match self.answer_from(alloc, &mut caller.pass, b, old, key, &object) {
                    Ok(round) => Ok(round),
                    Err(refusal) => Err(refusal),
                }
            }
        }
    }

    // One round of a get of a far bucket, which reads the device once. It brings the object into a frame for
    // the next round. If it lacks a frame, a name or room for a spare, it answers from what it read.
    fn get_far<R: Wait>(
        &self,
        rt: &R,
        alloc: Global,
        caller: &mut Caller<K, V, J>,
        key: &K,
    ) -> Result<Round<V>, Refusal>
        ensures lawful { IsLawful K.enc V.enc J.limits caller.new.pass.front }
        ensures limbo { IsPrefix caller.old.limbo caller.new.limbo }
        ensures round { IfOk result (λ r. IsRound K.enc V.enc J.limits caller.old.pass (Get key.now) r caller.new.pass) }
        ensures goes { IfErr result (λ _. Goes caller.old.pass caller.new.pass) }
        ensures refused { IfErr result (λ e. IsRefused K.enc V.enc J.limits (bucket K.enc J.limits.buckets key.now) caller.old.pass caller.new.pass e) }
        ensures only { IfErr result (λ e. OfGet e) }
    {
        let b = self.bucket(key);
        let word = self.words.look(&mut caller.pass, b);
        match split(word) {
            Place::Nothing => return Ok(Round::Again),
            Place::Frame(_) => return Ok(Round::Again),
            Place::Device => {}
        }
        let object = match self.read_device(rt, alloc, &caller.pass, b, word) {
            Ok(object) => object,
            Err(refusal) => {
                caller.limbo.count(Counted::Refused(refusal));
                return match after(refusal) {
                    Ok(round) => Ok(round),
                    Err(refusal) => Err(refusal),
                };
            }
        };
        caller.limbo.count(Counted::FarRead);
        if caller.limbo.is_full() || !self.may_reserve(&caller.limbo) {
            return match self.answer_from(alloc, &mut caller.pass, b, word, key, &object) {
                Ok(round) => Ok(round),
                Err(refusal) => Err(refusal),
            };
        }
        match self.bring_in(alloc, caller, b, word, key, object) {
            Ok(round) => Ok(round),
            Err(refusal) => Err(refusal),
        }
    }

    /// One round of a get. `get` makes rounds until one is finished.
    ///
    /// It reads a far bucket's object once and brings it into a frame, where the next round finds it. That
    /// needs a frame, a new name (version number) and room for a spare (retired word). Without one of these
    /// it answers from what it read.
    ///
    /// It returns `Again` if another round may finish the get. It is refused as `get` is, and leaves the
    /// spares that `fetch` leaves.
    pub fn get_round<R: Wait>(
        &self,
        rt: &R,
        alloc: Global,
        caller: &mut Caller<K, V, J>,
        key: &K,
    ) -> Result<Round<V>, Refusal>
        ensures lawful { IsLawful K.enc V.enc J.limits caller.new.pass.front }
        ensures limbo { IsPrefix caller.old.limbo caller.new.limbo }
        ensures round { IfOk result (λ r. IsRound K.enc V.enc J.limits caller.old.pass (Get key.now) r caller.new.pass) }
        ensures goes { IfErr result (λ _. Goes caller.old.pass caller.new.pass) }
        ensures refused { IfErr result (λ e. IsRefused K.enc V.enc J.limits (bucket K.enc J.limits.buckets key.now) caller.old.pass caller.new.pass e) }
        ensures only { IfErr result (λ e. OfGet e) }
    {
        match self.try_get(alloc, caller, key) {
            Ok(answer) => Ok(Round::Finished(answer)),
            Err(Refusal::Far) => match self.get_far(rt, alloc, caller, key) {
                Ok(round) => Ok(round),
                Err(refusal) => Err(refusal),
            },
            Err(refusal) => match after(refusal) {
                Ok(round) => Ok(round),
                Err(refusal) => Err(refusal),
            },
        }
    }

    /// Gets the value of a key. It repeats until it is done, and returns a copy, or none if the key has no
    /// value.
    ///
    /// A far bucket's object is brought into a frame. That needs a frame, a new name (version number) and
    /// room for a spare (retired word). Without one of these the answer is taken from what was read. Swap-ins
    /// leave their spares, whatever is returned. A refused get has made no call.
    ///
    /// Errors:
    ///
    /// - `Memory` if an allocation fails
    /// - `Device` if the device fails
    /// - `Damaged` if what the device returns is no object of this bucket and name
    pub fn get<R: Wait>(
        &self,
        rt: &R,
        alloc: Global,
        caller: &mut Caller<K, V, J>,
        key: &K,
    ) -> Result<Option<V>, Refusal>
        ensures lawful { IsLawful K.enc V.enc J.limits caller.new.pass.front }
        ensures limbo { IsPrefix caller.old.limbo caller.new.limbo }
        ensures finished { IfOk result (λ r. IsFinished K.enc V.enc J.limits caller.old.pass (Get key.now) r caller.new.pass) }
        ensures goes { IfErr result (λ _. Goes caller.old.pass caller.new.pass) }
        ensures refused { IfErr result (λ e. IsRefused K.enc V.enc J.limits (bucket K.enc J.limits.buckets key.now) caller.old.pass caller.new.pass e) }
        ensures only { IfErr result (λ e. OfGet e) }
    {
        for _ in rt.forever() {
            match self.get_round(rt, alloc, caller, key) {
                Ok(Round::Finished(answer)) => return Ok(answer),
                Ok(Round::Again) => {}
                Err(refusal) => return Err(refusal),
            }
        }
        unreachable!()
    }
}
