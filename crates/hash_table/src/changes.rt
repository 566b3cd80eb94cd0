//! Changes: put, remove and put_if.
//!
//! A change installs the bucket's new object under a new name (a version number). The word that it replaces
//! becomes a spare (a retired word) in the caller's limbo (the list of its retired words).
ghost use Rattle.std.specs.Prelude.{IfOk, IfErr, length};
ghost use mathlib.Core.List.{IsPrefix};
ghost use Rattle.far_object.specs.Buckets.{bucket};
ghost use Rattle.table_core.specs.declared.operation.Operation.TheVariants as op;
ghost use Rattle.table_core.specs.Maps.{key_of};
ghost use Rattle.table_core.specs.Lent.{lent, lent_value};
ghost use Rattle.table_core.specs.Lawful.{IsLawful};
ghost use Rattle.version_words.specs.Views.{Goes};
ghost use Rattle.hash_table.specs.Calls.{AtMostOneMore, IsFinished, IsUnchanged, IsFull};
ghost use Rattle.hash_table.specs.Refusals.{OfLocalChange, OfChange};
ghost use Rattle.hash_table.specs.Rounds.{IsRound};
ghost use Rattle.hash_table.specs.Steps.{IsOfFrame, LeavesSpares, GaveUp, IsInstalled, IsInstalledLater, IsRoundLeft};

use crate::caller::Caller;
use crate::refusal::Refusal;
use crate::round::{Round, after};
use crate::table::FarTable;
use crate::traffic::Counted;
use far_device::Device;
use far_object::FarObject;
use std::alloc::Global;
use std::sync::Wait;
use table_core::Operation;
use version_words::Naming;

impl<K: FarObject, V: FarObject, J: Naming, D: Device> FarTable<K, V, J, D> {
    /// One try of a change of a bucket that is empty or in a frame.
    fn try_change<'a>(
        &self,
        alloc: Global,
        caller: &mut Caller<K, V, J>,
        operation: &Operation<&'a K, &'a V>,
    ) -> Result<Option<V>, Refusal>
        ensures lawful { IsLawful K.enc V.enc J.limits caller.new.pass.front }
        ensures limbo { AtMostOneMore caller.old.limbo caller.new.limbo }
        ensures finished { IfOk result (λ r. IsFinished K.enc V.enc J.limits caller.old.pass (lent operation.now) r caller.new.pass) }
        ensures installed { IfOk result (λ _. IsInstalled K.enc V.enc J.limits self.now.limit self.now.frames (bucket K.enc J.limits.buckets (key_of (lent operation.now))) (lent operation.now) caller.old.pass caller.old.limbo caller.new.pass caller.new.limbo) }
        ensures given_up { IfErr result (λ e. LeavesSpares (IsOfFrame self.now.frames (bucket K.enc J.limits.buckets (key_of (lent operation.now)))) caller.old.limbo caller.new.limbo e) }
        ensures goes { IfErr result (λ _. Goes caller.old.pass caller.new.pass) }
        ensures refused { IfErr result (λ e. IsUnchanged K.enc V.enc J.limits self.now.limit (bucket K.enc J.limits.buckets (key_of (lent operation.now))) (lent operation.now) caller.old.pass caller.new.pass e) }
        ensures full { IfErr result (λ e. IsFull e (length caller.old.limbo)) }
        ensures only { IfErr result (λ e. OfLocalChange e) }
    {
        let _front = caller.pass.mark();
        if caller.limbo.is_full() {
            return Err(Refusal::LimboFull);
        }
        let b = self.bucket(operation.key());
        let word = self.words.look(&mut caller.pass, b);
        let built = match self.build_local(
            alloc,
            &mut caller.buffers,
            &caller.pass,
            b,
            word,
            operation,
        ) {
            Ok(built) => built,
            Err(refusal) => return Err(refusal),
        };
        match self.settle(
            &mut caller.pass,
            &mut caller.limbo,
            b,
            word,
            built,
            operation,
        ) {
            Ok(answer) => Ok(answer),
            Err(refusal) => Err(refusal),
        }
    }

    /// One round of an operation, wherever its bucket's object is. `put`, `remove` and `put_if` make rounds
    /// until one is finished. A get reads a far object, which stays on its device.
    ///
    /// It returns `Again` if another round may finish the operation, that is, after what a single try reports
    /// as `Missed` or `Moved`. Such a round leaves one spare at most, of the name that it drew. It is refused
    /// as `put` is, and leaves no spare then.
    pub fn change_round<'a, R: Wait>(
        &self,
        rt: &R,
        alloc: Global,
        caller: &mut Caller<K, V, J>,
        operation: &Operation<&'a K, &'a V>,
    ) -> Result<Round<V>, Refusal>
        ensures lawful { IsLawful K.enc V.enc J.limits caller.new.pass.front }
        ensures limbo { AtMostOneMore caller.old.limbo caller.new.limbo }
        ensures round { IfOk result (λ r. IsRound K.enc V.enc J.limits caller.old.pass (lent operation.now) r caller.new.pass) }
        ensures left { IfOk result (λ r. IsRoundLeft K.enc V.enc J.limits self.now.limit self.now.frames (bucket K.enc J.limits.buckets (key_of (lent operation.now))) (lent operation.now) caller.old.pass caller.old.limbo r caller.new.pass caller.new.limbo) }
        ensures given_up { IfErr result (λ e. LeavesSpares (IsOfFrame self.now.frames (bucket K.enc J.limits.buckets (key_of (lent operation.now)))) caller.old.limbo caller.new.limbo e) }
        ensures goes { IfErr result (λ _. Goes caller.old.pass caller.new.pass) }
        ensures refused { IfErr result (λ e. IsUnchanged K.enc V.enc J.limits self.now.limit (bucket K.enc J.limits.buckets (key_of (lent operation.now))) (lent operation.now) caller.old.pass caller.new.pass e) }
        ensures full { IfErr result (λ e. IsFull e (length caller.new.limbo)) }
        ensures only { IfErr result (λ e. OfChange e) }
    {
        let _front = caller.pass.mark();
        if caller.limbo.is_full() {
            return Err(Refusal::LimboFull);
        }
        let b = self.bucket(operation.key());
        let word = self.words.look(&mut caller.pass, b);
        let built = match self.build_anywhere(
            rt,
            alloc,
            &mut caller.buffers,
            &caller.pass,
            b,
            word,
            operation,
        ) {
            Ok(built) => built,
            Err(refusal) => {
                caller.limbo.count(Counted::Refused(refusal));
                return match after(refusal) {
                    Ok(round) => Ok(round),
                    Err(refusal) => Err(refusal),
                };
            }
        };
        match self.settle(
            &mut caller.pass,
            &mut caller.limbo,
            b,
            word,
            built,
            operation,
        ) {
            Ok(answer) => Ok(Round::Finished(answer)),
            Err(refusal) => match after(refusal) {
                Ok(round) => Ok(round),
                Err(refusal) => Err(refusal),
            },
        }
    }

    // A change that repeats until it is done.
    fn change<'a, R: Wait>(
        &self,
        rt: &R,
        alloc: Global,
        caller: &mut Caller<K, V, J>,
        operation: &Operation<&'a K, &'a V>,
    ) -> Result<Option<V>, Refusal>
        ensures lawful { IsLawful K.enc V.enc J.limits caller.new.pass.front }
        ensures limbo { IsPrefix caller.old.limbo caller.new.limbo }
        ensures finished { IfOk result (λ r. IsFinished K.enc V.enc J.limits caller.old.pass (lent operation.now) r caller.new.pass) }
        ensures installed { IfOk result (λ _. IsInstalledLater K.enc V.enc J.limits self.now.limit self.now.frames (bucket K.enc J.limits.buckets (key_of (lent operation.now))) (lent operation.now) caller.old.pass caller.old.limbo caller.new.pass caller.new.limbo) }
        ensures given_up { IfErr result (λ _. GaveUp (IsOfFrame self.now.frames (bucket K.enc J.limits.buckets (key_of (lent operation.now)))) caller.old.limbo caller.new.limbo) }
        ensures goes { IfErr result (λ _. Goes caller.old.pass caller.new.pass) }
        ensures refused { IfErr result (λ e. IsUnchanged K.enc V.enc J.limits self.now.limit (bucket K.enc J.limits.buckets (key_of (lent operation.now))) (lent operation.now) caller.old.pass caller.new.pass e) }
        ensures full { IfErr result (λ e. IsFull e (length caller.new.limbo)) }
        ensures only { IfErr result (λ e. OfChange e) }
    {
        for _ in rt.forever() {
            match self.change_round(rt, alloc, caller, operation) {
                Ok(Round::Finished(answer)) => return Ok(answer),
                Ok(Round::Again) => {}
                Err(refusal) => return Err(refusal),
            }
        }
        unreachable!()
    }

    /// Tries once to set a key to a value, if its bucket is empty or in a frame. It returns the value before,
    /// or none, and waits for nobody.
    ///
    /// After Ok the new object is in the frame that the bucket's word names, and the word that it replaced is
    /// the newest spare, if it had an object. A refused try has made no call and leaves the bucket as it was.
    /// `Moved` may leave one spare more, of the name that this try drew. No other refusal leaves one.
    ///
    /// Errors, in the order in which the try looks for them:
    ///
    /// - `LimboFull` if 64 spares wait in the caller
    /// - `Far` if the bucket's object is on the device
    /// - `Missed` if the frame does not return the version, for the reasons that `try_get` lists
    /// - `Memory` if an allocation fails, or if the bucket has as many pairs as an object can count
    ///   (`Refusal::Memory`)
    /// - `TooLong` if the new object would be longer than the limit
    /// - `NoFrame` if no frame was free
    /// - `NamesSpent` if the last name was drawn
    /// - `Moved` if another name was drawn at that moment, or if the bucket's word is another one at the end
    pub fn try_put(
        &self,
        alloc: Global,
        caller: &mut Caller<K, V, J>,
        key: &K,
        value: &V,
    ) -> Result<Option<V>, Refusal>
        ensures lawful { IsLawful K.enc V.enc J.limits caller.new.pass.front }
        ensures limbo { AtMostOneMore caller.old.limbo caller.new.limbo }
        ensures finished { IfOk result (λ r. IsFinished K.enc V.enc J.limits caller.old.pass (op.Put key.now value.now) r caller.new.pass) }
        ensures installed { IfOk result (λ _. IsInstalled K.enc V.enc J.limits self.now.limit self.now.frames (bucket K.enc J.limits.buckets key.now) (op.Put key.now value.now) caller.old.pass caller.old.limbo caller.new.pass caller.new.limbo) }
        ensures given_up { IfErr result (λ e. LeavesSpares (IsOfFrame self.now.frames (bucket K.enc J.limits.buckets key.now)) caller.old.limbo caller.new.limbo e) }
        ensures goes { IfErr result (λ _. Goes caller.old.pass caller.new.pass) }
        ensures refused { IfErr result (λ e. IsUnchanged K.enc V.enc J.limits self.now.limit (bucket K.enc J.limits.buckets key.now) (op.Put key.now value.now) caller.old.pass caller.new.pass e) }
        ensures full { IfErr result (λ e. IsFull e (length caller.old.limbo)) }
        ensures only { IfErr result (λ e. OfLocalChange e) }
    {
        self.try_change(alloc, caller, &Operation::Put(key, value))
    }

    /// Tries once to remove a key, if its bucket is empty or in a frame. It returns the value that the key
    /// had, or none, and waits for nobody.
    ///
    /// Its refusals are those of `try_put` except `TooLong`, and leave the same. If the key is not there, it
    /// needs no frame and no name. If no pair is left, it needs no frame, and `Moved` leaves no spare.
    pub fn try_remove(
        &self,
        alloc: Global,
        caller: &mut Caller<K, V, J>,
        key: &K,
    ) -> Result<Option<V>, Refusal>
        ensures lawful { IsLawful K.enc V.enc J.limits caller.new.pass.front }
        ensures limbo { AtMostOneMore caller.old.limbo caller.new.limbo }
        ensures finished { IfOk result (λ r. IsFinished K.enc V.enc J.limits caller.old.pass (op.Remove key.now) r caller.new.pass) }
        ensures installed { IfOk result (λ _. IsInstalled K.enc V.enc J.limits self.now.limit self.now.frames (bucket K.enc J.limits.buckets key.now) (op.Remove key.now) caller.old.pass caller.old.limbo caller.new.pass caller.new.limbo) }
        ensures given_up { IfErr result (λ e. LeavesSpares (IsOfFrame self.now.frames (bucket K.enc J.limits.buckets key.now)) caller.old.limbo caller.new.limbo e) }
        ensures goes { IfErr result (λ _. Goes caller.old.pass caller.new.pass) }
        ensures refused { IfErr result (λ e. IsUnchanged K.enc V.enc J.limits self.now.limit (bucket K.enc J.limits.buckets key.now) (op.Remove key.now) caller.old.pass caller.new.pass e) }
        ensures full { IfErr result (λ e. IsFull e (length caller.old.limbo)) }
        ensures only { IfErr result (λ e. OfLocalChange e) }
    {
        self.try_change(alloc, caller, &Operation::Remove(key))
    }

    /// Tries once to set a key to `value`, if the key's value is `expected` and its bucket is empty or in a
    /// frame. An `expected` of `None` means that the key has no value. It waits for nobody.
    ///
    /// It returns the value before. The key was set exactly if that is the expected one; values are compared
    /// by their encodings.
    ///
    /// Its refusals are those of `try_put`, and leave the same. If the value is not the expected one, no
    /// object is made. So `TooLong`, `NoFrame` and `NamesSpent` are not returned then.
    pub fn try_put_if(
        &self,
        alloc: Global,
        caller: &mut Caller<K, V, J>,
        key: &K,
        expected: Option<&V>,
        value: &V,
    ) -> Result<Option<V>, Refusal>
        ensures lawful { IsLawful K.enc V.enc J.limits caller.new.pass.front }
        ensures limbo { AtMostOneMore caller.old.limbo caller.new.limbo }
        ensures finished { IfOk result (λ r. IsFinished K.enc V.enc J.limits caller.old.pass (op.PutIf key.now (lent_value expected.entry) value.now) r caller.new.pass) }
        ensures installed { IfOk result (λ _. IsInstalled K.enc V.enc J.limits self.now.limit self.now.frames (bucket K.enc J.limits.buckets key.now) (op.PutIf key.now (lent_value expected.entry) value.now) caller.old.pass caller.old.limbo caller.new.pass caller.new.limbo) }
        ensures given_up { IfErr result (λ e. LeavesSpares (IsOfFrame self.now.frames (bucket K.enc J.limits.buckets key.now)) caller.old.limbo caller.new.limbo e) }
        ensures goes { IfErr result (λ _. Goes caller.old.pass caller.new.pass) }
        ensures refused { IfErr result (λ e. IsUnchanged K.enc V.enc J.limits self.now.limit (bucket K.enc J.limits.buckets key.now) (op.PutIf key.now (lent_value expected.entry) value.now) caller.old.pass caller.new.pass e) }
        ensures full { IfErr result (λ e. IsFull e (length caller.old.limbo)) }
        ensures only { IfErr result (λ e. OfLocalChange e) }
    {
        self.try_change(alloc, caller, &Operation::PutIf(key, expected, value))
    }

    /// Sets a key to a value, and returns the value before, or none. It repeats while a try is refused with
    /// `Moved` or `Missed`, and reads a far bucket's object from the device.
    ///
    /// A refused put has made no call and leaves the bucket as it was. Names that were drawn in vain leave
    /// their spares, whatever is returned. After Ok the word that was replaced is the newest spare, after
    /// these, if it had an object.
    ///
    /// Errors:
    ///
    /// - `LimboFull`, `Memory`, `TooLong`, `NoFrame` and `NamesSpent` as `try_put` returns them
    /// - `Device` if the device fails
    /// - `Damaged` if what the device returns is no object of this bucket and name
    pub fn put<R: Wait>(
        &self,
        rt: &R,
        alloc: Global,
        caller: &mut Caller<K, V, J>,
        key: &K,
        value: &V,
    ) -> Result<Option<V>, Refusal>
        ensures lawful { IsLawful K.enc V.enc J.limits caller.new.pass.front }
        ensures limbo { IsPrefix caller.old.limbo caller.new.limbo }
        ensures finished { IfOk result (λ r. IsFinished K.enc V.enc J.limits caller.old.pass (op.Put key.now value.now) r caller.new.pass) }
        ensures installed { IfOk result (λ _. IsInstalledLater K.enc V.enc J.limits self.now.limit self.now.frames (bucket K.enc J.limits.buckets key.now) (op.Put key.now value.now) caller.old.pass caller.old.limbo caller.new.pass caller.new.limbo) }
        ensures given_up { IfErr result (λ _. GaveUp (IsOfFrame self.now.frames (bucket K.enc J.limits.buckets key.now)) caller.old.limbo caller.new.limbo) }
        ensures goes { IfErr result (λ _. Goes caller.old.pass caller.new.pass) }
        ensures refused { IfErr result (λ e. IsUnchanged K.enc V.enc J.limits self.now.limit (bucket K.enc J.limits.buckets key.now) (op.Put key.now value.now) caller.old.pass caller.new.pass e) }
        ensures full { IfErr result (λ e. IsFull e (length caller.new.limbo)) }
        ensures only { IfErr result (λ e. OfChange e) }
    {
        self.change(rt, alloc, caller, &Operation::Put(key, value))
    }

    /// Removes a key, and returns the value that it had, or none. It repeats until it is done, as `put` does.
    /// Its refusals are those of `put` except `TooLong`, and leave the same.
    pub fn remove<R: Wait>(
        &self,
        rt: &R,
        alloc: Global,
        caller: &mut Caller<K, V, J>,
        key: &K,
    ) -> Result<Option<V>, Refusal>
        ensures lawful { IsLawful K.enc V.enc J.limits caller.new.pass.front }
        ensures limbo { IsPrefix caller.old.limbo caller.new.limbo }
        ensures finished { IfOk result (λ r. IsFinished K.enc V.enc J.limits caller.old.pass (op.Remove key.now) r caller.new.pass) }
        ensures installed { IfOk result (λ _. IsInstalledLater K.enc V.enc J.limits self.now.limit self.now.frames (bucket K.enc J.limits.buckets key.now) (op.Remove key.now) caller.old.pass caller.old.limbo caller.new.pass caller.new.limbo) }
        ensures given_up { IfErr result (λ _. GaveUp (IsOfFrame self.now.frames (bucket K.enc J.limits.buckets key.now)) caller.old.limbo caller.new.limbo) }
        ensures goes { IfErr result (λ _. Goes caller.old.pass caller.new.pass) }
        ensures refused { IfErr result (λ e. IsUnchanged K.enc V.enc J.limits self.now.limit (bucket K.enc J.limits.buckets key.now) (op.Remove key.now) caller.old.pass caller.new.pass e) }
        ensures full { IfErr result (λ e. IsFull e (length caller.new.limbo)) }
        ensures only { IfErr result (λ e. OfChange e) }
    {
        self.change(rt, alloc, caller, &Operation::Remove(key))
    }

    /// Sets a key to `value` if the key's value is `expected`, and returns the value before, as `try_put_if`
    /// does. It repeats until it is done, as `put` does. Its refusals are those of `put`, and leave the same.
    pub fn put_if<R: Wait>(
        &self,
        rt: &R,
        alloc: Global,
        caller: &mut Caller<K, V, J>,
        key: &K,
        expected: Option<&V>,
        value: &V,
    ) -> Result<Option<V>, Refusal>
        ensures lawful { IsLawful K.enc V.enc J.limits caller.new.pass.front }
        ensures limbo { IsPrefix caller.old.limbo caller.new.limbo }
        ensures finished { IfOk result (λ r. IsFinished K.enc V.enc J.limits caller.old.pass (op.PutIf key.now (lent_value expected.entry) value.now) r caller.new.pass) }
        ensures installed { IfOk result (λ _. IsInstalledLater K.enc V.enc J.limits self.now.limit self.now.frames (bucket K.enc J.limits.buckets key.now) (op.PutIf key.now (lent_value expected.entry) value.now) caller.old.pass caller.old.limbo caller.new.pass caller.new.limbo) }
        ensures given_up { IfErr result (λ _. GaveUp (IsOfFrame self.now.frames (bucket K.enc J.limits.buckets key.now)) caller.old.limbo caller.new.limbo) }
        ensures goes { IfErr result (λ _. Goes caller.old.pass caller.new.pass) }
        ensures refused { IfErr result (λ e. IsUnchanged K.enc V.enc J.limits self.now.limit (bucket K.enc J.limits.buckets key.now) (op.PutIf key.now (lent_value expected.entry) value.now) caller.old.pass caller.new.pass e) }
        ensures full { IfErr result (λ e. IsFull e (length caller.new.limbo)) }
        ensures only { IfErr result (λ e. OfChange e) }
    {
        self.change(rt, alloc, caller, &Operation::PutIf(key, expected, value))
    }
}
