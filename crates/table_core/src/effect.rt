//! What an operation does to the contents of its bucket. Its key and values are lent.
ghost use Rattle.std.specs.Prelude.{◌≡◌};
ghost use Rattle.std.specs.Map.{keys_of};
ghost use Rattle.std.specs.List.Sorted.{IsStrictlySortedBy};
ghost use Rattle.far_object.specs.Buckets.{key_cmp};
ghost use Rattle.table_core.specs.Maps.{after, key_of};
ghost use Rattle.table_core.specs.Changes.{with_effect};
ghost use Rattle.table_core.specs.Lent.{lent};

use crate::contents::{is_expected, value_of};
use crate::operation::Operation;
use far_object::FarObject;

/// What an operation does to the contents of its key's bucket.
#[derive(Drop)]
pub enum Effect<'a, K, V> {
    Puts(&'a K, &'a V),
    Cuts(&'a K),
    Leaves,
}

impl<'a, K: FarObject, V: FarObject> Operation<&'a K, &'a V> {
    /// The operation that was kept, lent.
    pub(crate) fn of(operation: &'a Operation<K, V>) -> Operation<&'a K, &'a V>
        ensures { lent result ≡ operation.now }
    {
        match operation {
            Operation::Put(key, value) => Operation::Put(key, value),
            Operation::Get(key) => Operation::Get(key),
            Operation::Remove(key) => Operation::Remove(key),
            Operation::PutIf(key, expected, value) => Operation::PutIf(
                key,
                expected.as_ref(),
                value,
            ),
        }
    }

    /// Its key.
    pub fn key(&self) -> &'a K
        ensures { result.now ≡ key_of (lent self.now) }
    {
        match self {
            Operation::Put(key, _) => key,
            Operation::Get(key) => key,
            Operation::Remove(key) => key,
            Operation::PutIf(key, _, _) => key,
        }
    }

    /// What it does to these contents.
    pub(crate) fn effect(&self, contents: &[(K, V)]) -> Effect<'a, K, V>
        ensures { IsStrictlySortedBy (key_cmp K.enc) (keys_of contents.now) → with_effect K.enc contents.now result ≡ after K.enc V.enc contents.now (lent self.now) }
    {
        match self {
            Operation::Put(key, value) => Effect::Puts(key, value),
            Operation::Get(_) => Effect::Leaves,
            Operation::Remove(key) => Effect::Cuts(key),
            Operation::PutIf(key, expected, value) => {
                if is_expected(*expected, value_of(contents, *key)) {
                    Effect::Puts(key, value)
                } else {
                    Effect::Leaves
                }
            }
        }
    }
}
