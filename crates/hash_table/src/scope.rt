//! A value that is read in its frame, without a copy.
ghost use Rattle.std.specs.Prelude.{◌≡◌, ◌≢◌, IsTrue, Some, IfOk, IfErr, IfSome};
ghost use Rattle.far_object.specs.Buckets.{bucket};
ghost use Rattle.table_core.specs.declared.operation.Operation.TheVariants.{Get};
ghost use Rattle.table_core.specs.BucketWords.{name_of};
ghost use Rattle.table_core.specs.Logs.{word};
ghost use Rattle.table_core.specs.Lawful.{IsLawful};
ghost use Rattle.version_words.specs.Views.{Goes};
ghost use Rattle.hash_table.specs.Calls.{IsFinished, IsRefused};
ghost use Rattle.hash_table.specs.Refusals.{OfScope};
ghost use Rattle.hash_table.specs.Scopes.{shown, Encodes};

use crate::caller::Caller;
use crate::refusal::Refusal;
use crate::stages::seen::{Place, split};
use crate::table::FarTable;
use crate::traffic::Counted;
use far_device::Device;
use far_object::{FarObject, Memory};
use frame_cache::Scope;
use std::alloc::Global;
use std::marker::Model;
use std::ops::Range;
use version_words::{Naming, Probe, empty_holds, seen_answers};

/// A permission to read a value in its frame. It works as a hazard pointer does, but is counted.
///
/// `FarTable::open_scope` opens it. While it is open nobody empties the frame, even if the bucket is changed
/// meanwhile. Close it in the thread that opened it: the compiler refuses a program that drops it. Contracts
/// see the value, and the name (version number) of its version.
pub struct TableScope<'a, K: FarObject, V: FarObject, J: Naming> {
    scope: Scope<'a, K, V, J>,
    place: Range<usize>,
}

impl<'a, K: FarObject, V: FarObject, J: Naming> Model for TableScope<'a, K, V, J> {
    ghost use Rattle.std.specs.List.{between};
    ghost use Rattle.far_object.specs.Objects.{object_of};
    ghost use Rattle.hash_table.specs.Scopes.{ScopeView, IsShown};

    ghost Value = { ScopeView V };

    ghost view = { λ s. record { name = s.scope.name; value = V.dec (between s.place.start s.place.end (object_of K.enc V.enc s.scope.object)) } };

    ghost invariant = { λ s. IsShown K.enc V.enc s.scope.object s.place };
}

impl<'a, K: FarObject, V: FarObject, J: Naming> TableScope<'a, K, V, J> {
    /// The value's encoding, in place. For example, the text `Venus` is two bytes for its length, and then
    /// five.
    pub fn bytes(&self) -> &[u8]
        ensures encoding { Encodes V.enc self.now.value result.now }
        ensures decoded { V.dec result.now ≡ self.now.value }
    {
        &self.scope.object().as_bytes()[self.place.start..self.place.end]
    }

    /// The value, decoded into newly allocated memory. `Memory` is returned if that allocation fails.
    pub fn value(&self, alloc: Global) -> Result<V, Memory>
        ensures { IfOk result (λ v. self.now.value ≡ Some v) }
    {
        match V::decode(alloc, self.bytes()) {
            Ok((value, _)) => Ok(value),
            Err(_) => Err(Memory),
        }
    }

    /// The name (version number) of the version that it reads.
    pub fn name(&self) -> u64
        ensures { result ≡ self.now.name }
    {
        self.scope.name()
    }

    /// Ends the reading. From now on the version can be reclaimed, if no other scope is open on it.
    pub fn close(self) {
        let Self { scope, place: _ } = self;
        scope.close();
    }
}

impl<K: FarObject, V: FarObject, J: Naming, D: Device> FarTable<K, V, J, D> {
    /// Tries once to open a scope on the value of a key, in its frame. None if the key has no value.
    ///
    /// It is a get that waits for nobody, allocates nothing and copies nothing. It marks the frame as used,
    /// for the choice of what to swap out. It leaves no spare (retired word). A refused try has made no call
    /// and holds no frame.
    ///
    /// Errors:
    ///
    /// - `Far` if the bucket's object is on the device
    /// - `Missed` if the frame does not return the version, for the reasons that `try_get` lists
    /// - `Moved` if the bucket's word is another one at the end
    pub fn open_scope(
        &self,
        caller: &mut Caller<K, V, J>,
        key: &K,
    ) -> Result<Option<TableScope<'_, K, V, J>>, Refusal>
        ensures lawful { IsLawful K.enc V.enc J.limits caller.new.pass.front }
        ensures limbo { caller.new.limbo ≡ caller.old.limbo }
        ensures finished { IfOk result (λ s. IsFinished K.enc V.enc J.limits caller.old.pass (Get key.now) (shown s) caller.new.pass) }
        ensures name { IfOk result (λ s. IfSome s (λ t. t.name ≡ name_of (word K.enc J.limits.buckets caller.new.pass.front (bucket K.enc J.limits.buckets key.now)))) }
        ensures goes { IfErr result (λ _. Goes caller.old.pass caller.new.pass) }
        ensures refused { IfErr result (λ e. IsRefused K.enc V.enc J.limits (bucket K.enc J.limits.buckets key.now) caller.old.pass caller.new.pass e) }
        ensures only { IfErr result (λ e. OfScope e) }
    {
        seen_answers::<K, V>();
        empty_holds::<K, V>();
        let b = self.bucket(key);
        let old = self.words.look(&mut caller.pass, b);
        match split(old) {
            Place::Device => Err(Refusal::Far),
            Place::Nothing => {
                caller.limbo.count(Counted::LocalRead);
                let Ok(()) = self.words.check(&mut caller.pass, b, old, &Probe::Get(key)) else {
                    return Err(Refusal::Moved);
                };
                Ok(None)
            }
            Place::Frame(frame) => {
                let Ok(scope) = self.enter_frame(&caller.pass, b, old, frame) else {
                    return Err(Refusal::Missed);
                };
                self.frames.touch(frame);
                caller.limbo.count(Counted::LocalRead);
                let _bytes = scope.object().as_bytes();
                let found = scope.object().find(key);
                let Ok(()) = self.words.check(&mut caller.pass, b, old, &Probe::Get(key)) else {
                    scope.close();
                    return Err(Refusal::Moved);
                };
                match found {
                    None => {
                        scope.close();
                        Ok(None)
                    }
                    Some(place) => Ok(Some(TableScope { scope, place })),
                }
            }
        }
    }
}
