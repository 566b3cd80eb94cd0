//! A removal on a condition.
//!
//! # It is a removal or a get
//!
//! The call needs no further operation of the history. If the key's value is the expected one, it installs a
//! removal over the word under which it found that value. Otherwise it checks that the word is still there,
//! as a get does. So a newer value is never removed.
ghost use Rattle.std.specs.Prelude.{◌≡◌, Some, None, false, IfOk, IfErr, IfSome, MatchOption, MatchResult, length};
ghost use mathlib.Core.List.{IsPrefix};
ghost use Rattle.far_object.specs.Buckets.{bucket};
ghost use Rattle.table_core.specs.declared.operation.Operation.TheVariants as op;
ghost use Rattle.table_core.specs.Maps.{is_met};
ghost use Rattle.table_core.specs.Lawful.{IsLawful};
ghost use Rattle.version_words.specs.Views.{Goes};
ghost use Rattle.hash_table.specs.Calls.{AtMostOneMore, IsFinished, IsUnchanged, IsFull};
ghost use Rattle.hash_table.specs.Changes.{removal_of};
ghost use Rattle.hash_table.specs.Refusals.{OfChange, passes_by};
ghost use Rattle.hash_table.specs.Steps.{IsOfFrame, LeavesSpares, MayGiveUp, GaveUp, IsInstalled, IsInstalledLater};

use crate::caller::Caller;
use crate::refusal::Refusal;
use crate::stages::build::{Built, is_met};
use crate::table::FarTable;
use crate::traffic::Counted;
use far_device::Device;
use far_object::FarObject;
use std::alloc::Global;
use std::sync::Wait;
use table_core::Operation;
use version_words::Naming;

/// What `FarTable::remove_if` found and did.
#[derive(Drop)]
pub struct Removal<V> {
    /// Whether the value was the expected one. If so, the key is removed.
    pub removed: bool,
    /// The value that the key had.
    pub found: Option<V>,
}

// Makes a round's result of a refused try: none if another round may finish the call.
fn again<V>(refusal: Refusal) -> Result<Option<Removal<V>>, Refusal>
    ensures { MatchResult result (λ r. r ≡ None) (λ e. (e ≡ refusal) × (passes_by refusal ≡ false)) }
{
    if refusal.passes_by() {
        return Ok(None);
    }
    Err(refusal)
}

impl<K: FarObject, V: FarObject, J: Naming, D: Device> FarTable<K, V, J, D> {
    // One round. None if another round may finish the call.
    fn remove_if_round<R: Wait>(
        &self,
        rt: &R,
        alloc: Global,
        caller: &mut Caller<K, V, J>,
        key: &K,
        expected: &V,
    ) -> Result<Option<Removal<V>>, Refusal>
        ensures lawful { IsLawful K.enc V.enc J.limits caller.new.pass.front }
        ensures limbo { AtMostOneMore caller.old.limbo caller.new.limbo }
        ensures met { IfOk result (λ r. IfSome r (λ t. t.removed ≡ is_met V.enc (Some expected.now) t.found)) }
        ensures round { IfOk result (λ r. MatchOption r (Goes caller.old.pass caller.new.pass) (λ t. IsFinished K.enc V.enc J.limits caller.old.pass (removal_of key.now t.removed) t.found caller.new.pass)) }
        ensures left { IfOk result (λ r. MatchOption r (MayGiveUp (IsOfFrame self.now.frames (bucket K.enc J.limits.buckets key.now)) caller.old.limbo caller.new.limbo)
            (λ t. IsInstalled K.enc V.enc J.limits self.now.limit self.now.frames (bucket K.enc J.limits.buckets key.now) (removal_of key.now t.removed) caller.old.pass caller.old.limbo caller.new.pass caller.new.limbo)) }
        ensures given_up { IfErr result (λ e. LeavesSpares (IsOfFrame self.now.frames (bucket K.enc J.limits.buckets key.now)) caller.old.limbo caller.new.limbo e) }
        ensures goes { IfErr result (λ _. Goes caller.old.pass caller.new.pass) }
        ensures refused { IfErr result (λ e. IsUnchanged K.enc V.enc J.limits self.now.limit (bucket K.enc J.limits.buckets key.now) (op.Remove key.now) caller.old.pass caller.new.pass e) }
        ensures full { IfErr result (λ e. IsFull e (length caller.new.limbo)) }
        ensures only { IfErr result (λ e. OfChange e) }
    {
        let _front = caller.pass.mark();
        if caller.limbo.is_full() {
            return Err(Refusal::LimboFull);
        }
        let b = self.bucket(key);
        let word = self.words.look(&mut caller.pass, b);
        let removal = Operation::Remove(key);
        let built = match self.build_anywhere(
            rt,
            alloc,
            &mut caller.buffers,
            &caller.pass,
            b,
            word,
            &removal,
        ) {
            Ok(built) => built,
            Err(refusal) => {
                caller.limbo.count(Counted::Refused(refusal));
                return match again(refusal) {
                    Ok(none) => Ok(none),
                    Err(refusal) => Err(refusal),
                };
            }
        };
        let pass = &mut caller.pass;
        let limbo = &mut caller.limbo;
        if is_met(Some(expected), &built.answer) {
            return match self.settle(pass, limbo, b, word, built, &removal) {
                Ok(found) => Ok(Some(Removal {
                    removed: true,
                    found,
                })),
                Err(refusal) => match again(refusal) {
                    Ok(none) => Ok(none),
                    Err(refusal) => Err(refusal),
                },
            };
        }
        let kept = Built {
            object: None,
            ..built
        };
        match self.settle(pass, limbo, b, word, kept, &Operation::Get(key)) {
            Ok(found) => Ok(Some(Removal {
                removed: false,
                found,
            })),
            Err(refusal) => match again(refusal) {
                Ok(none) => Ok(none),
                Err(refusal) => Err(refusal),
            },
        }
    }

    /// Removes a key if its value is the expected one, and returns the value that it had. Values are compared
    /// by their encodings. It repeats until it is done, as `remove` does.
    ///
    /// In the history it is a removal if the value was the expected one, and otherwise a get. It is refused
    /// as `remove` is, and leaves the same spares (retired words).
    pub fn remove_if<R: Wait>(
        &self,
        rt: &R,
        alloc: Global,
        caller: &mut Caller<K, V, J>,
        key: &K,
        expected: &V,
    ) -> Result<Removal<V>, Refusal>
        ensures lawful { IsLawful K.enc V.enc J.limits caller.new.pass.front }
        ensures limbo { IsPrefix caller.old.limbo caller.new.limbo }
        ensures met { IfOk result (λ t. t.removed ≡ is_met V.enc (Some expected.now) t.found) }
        ensures finished { IfOk result (λ t. IsFinished K.enc V.enc J.limits caller.old.pass (removal_of key.now t.removed) t.found caller.new.pass) }
        ensures installed { IfOk result (λ t. IsInstalledLater K.enc V.enc J.limits self.now.limit self.now.frames (bucket K.enc J.limits.buckets key.now) (removal_of key.now t.removed) caller.old.pass caller.old.limbo caller.new.pass caller.new.limbo) }
        ensures given_up { IfErr result (λ _. GaveUp (IsOfFrame self.now.frames (bucket K.enc J.limits.buckets key.now)) caller.old.limbo caller.new.limbo) }
        ensures goes { IfErr result (λ _. Goes caller.old.pass caller.new.pass) }
        ensures refused { IfErr result (λ e. IsUnchanged K.enc V.enc J.limits self.now.limit (bucket K.enc J.limits.buckets key.now) (op.Remove key.now) caller.old.pass caller.new.pass e) }
        ensures full { IfErr result (λ e. IsFull e (length caller.new.limbo)) }
        ensures only { IfErr result (λ e. OfChange e) }
    {
        for _ in rt.forever() {
            match self.remove_if_round(rt, alloc, caller, key, expected) {
                Ok(Some(removal)) => return Ok(removal),
                Ok(None) => {}
                Err(refusal) => return Err(refusal),
            }
        }
        unreachable!()
    }
}
