//! What an operation makes of an object, and whether that is within the limit.
ghost use Rattle.std.specs.Prelude.{◌≡◌, ◌<◌, ◌≤◌, [], ◌∷◌, length, IfOk, IfErr};
ghost use Rattle.std.specs.BTreeMap.{insert_entry};
ghost use Rattle.far_object.specs.Buckets.{key_cmp};
ghost use Rattle.far_object.specs.Objects.{object_of};
ghost use Rattle.table_core.specs.declared.operation.Operation.TheVariants as op;
ghost use Rattle.table_core.specs.Maps.{reply, is_met};
ghost use Rattle.table_core.specs.Lent.{lent, lent_value};
ghost use Rattle.hash_table.specs.Changes.{MayMake, Leaves, Fits};
ghost use Rattle.hash_table.specs.Stages.{IsUnmade};

use crate::refusal::Refusal;
use far_object::{Buffers, Entry, FarObject, MOST_PAIRS, Object, full_objects_grow_too_long};
use std::alloc::Global;
use table_core::Operation;

/// The answer of an operation, and the object that it makes. None if it leaves the one that there is.
#[derive(Drop)]
pub struct Built<K: FarObject, V: FarObject> {
    pub(crate) answer: Option<V>,
    pub(crate) object: Option<Object<K, V>>,
    // The bytes of the old object if it is in a frame, and otherwise 0.
    pub(crate) replaced: usize,
}

/// Whether the value is the expected one.
pub(crate) fn is_met<V: FarObject>(expected: Option<&V>, found: &Option<V>) -> bool
    ensures { result ≡ is_met V.enc (lent_value expected.entry) found.now }
{
    match (expected, found) {
        (None, None) => true,
        (Some(expected), Some(found)) => expected.compare(found).is_eq(),
        _ => false,
    }
}

// The object with the value at the key of the entry, if it is no longer than the limit.
fn with<K: FarObject, V: FarObject>(
    alloc: Global,
    buffers: &mut Buffers,
    object: &Object<K, V>,
    entry: &Entry<'_, K, V>,
    value: &V,
    limit: u32,
) -> Result<Object<K, V>, Refusal>
    requires own { entry.now.pairs ≡ object.now }
    ensures with { IfOk result (λ o. o ≡ insert_entry (key_cmp K.enc) object.now entry.now.key value.now) }
    ensures some { IfOk result (λ o. 0 < length o) }
    ensures fits { IfOk result (λ o. length (object_of K.enc V.enc o) ≤ limit) }
    ensures why { IfErr result (λ e. IsUnmade K.enc V.enc limit object.now (op.Put entry.now.key value.now) e) }
{
    full_objects_grow_too_long::<K, V>();
    let _map = object.as_bytes();
    if object.count() >= MOST_PAIRS {
        // An object of this many pairs is longer than a limit of `MOST_PAIRS` bytes, but not than each
        // greater one.
        if limit > MOST_PAIRS {
            return Err(Refusal::Memory);
        }
        return Err(Refusal::TooLong);
    }
    let object = match entry.with_in(alloc, buffers, value) {
        Ok(object) => object,
        Err(_) => return Err(Refusal::Memory),
    };
    if object.as_bytes().len() > limit as usize {
        return Err(Refusal::TooLong);
    }
    Ok(object)
}

// The object of this one pair, if it is no longer than the limit.
fn only<K: FarObject, V: FarObject>(
    alloc: Global,
    buffers: &mut Buffers,
    key: &K,
    value: &V,
    limit: u32,
) -> Result<Object<K, V>, Refusal>
    ensures only { IfOk result (λ o. o ≡ (key.now, value.now) ∷ []) }
    ensures some { IfOk result (λ o. 0 < length o) }
    ensures fits { IfOk result (λ o. length (object_of K.enc V.enc o) ≤ limit) }
    ensures why { IfErr result (λ e. IsUnmade K.enc V.enc limit [] (op.Put key.now value.now) e) }
{
    let object = match Object::of_pair_in(alloc, buffers, key, value) {
        Ok(object) => object,
        Err(_) => return Err(Refusal::Memory),
    };
    if object.as_bytes().len() > limit as usize {
        return Err(Refusal::TooLong);
    }
    Ok(object)
}

/// What the operation makes of a bucket without a pair. It takes one buffer or one allocation if it sets the
/// key, and no memory if it leaves the bucket.
pub(crate) fn build_first<'a, K: FarObject, V: FarObject>(
    alloc: Global,
    buffers: &mut Buffers,
    operation: &Operation<&'a K, &'a V>,
    limit: u32,
) -> Result<Built<K, V>, Refusal>
    ensures answer { IfOk result (λ t. t.answer ≡ reply K.enc [] (lent operation.now)) }
    ensures object { IfOk result (λ t. Leaves K.enc V.enc [] (lent operation.now) t.object) }
    ensures fits { IfOk result (λ t. Fits K.enc V.enc limit (lent operation.now) t.object) }
    ensures may { IfOk result (λ t. MayMake (lent operation.now) t.object) }
    ensures why { IfErr result (λ e. IsUnmade K.enc V.enc limit [] (lent operation.now) e) }
{
    match operation {
        Operation::Put(key, value) => match only(alloc, buffers, *key, *value, limit) {
            Ok(made) => Ok(Built {
                answer: None,
                object: Some(made),
                replaced: 0,
            }),
            Err(refusal) => Err(refusal),
        },
        Operation::Get(_) | Operation::Remove(_) => Ok(Built {
            answer: None,
            object: None,
            replaced: 0,
        }),
        Operation::PutIf(key, expected, value) => {
            if !is_met(*expected, &None) {
                return Ok(Built {
                    answer: None,
                    object: None,
                    replaced: 0,
                });
            }
            match only(alloc, buffers, *key, *value, limit) {
                Ok(made) => Ok(Built {
                    answer: None,
                    object: Some(made),
                    replaced: 0,
                }),
                Err(refusal) => Err(refusal),
            }
        }
    }
}

/// What the operation makes of the object, in which it looks for its key once. The new object is built in one
/// of the buffers if it fits there.
pub(crate) fn build<'a, K: FarObject, V: FarObject>(
    alloc: Global,
    buffers: &mut Buffers,
    object: &Object<K, V>,
    operation: &Operation<&'a K, &'a V>,
    limit: u32,
) -> Result<Built<K, V>, Refusal>
    ensures answer { IfOk result (λ t. t.answer ≡ reply K.enc object.now (lent operation.now)) }
    ensures object { IfOk result (λ t. Leaves K.enc V.enc object.now (lent operation.now) t.object) }
    ensures fits { IfOk result (λ t. Fits K.enc V.enc limit (lent operation.now) t.object) }
    ensures may { IfOk result (λ t. MayMake (lent operation.now) t.object) }
    ensures why { IfErr result (λ e. IsUnmade K.enc V.enc limit object.now (lent operation.now) e) }
{
    let entry = object.entry(operation.key());
    let answer = match entry.value(alloc) {
        Ok(answer) => answer,
        Err(_) => return Err(Refusal::Memory),
    };
    match operation {
        Operation::Put(_, value) => match with(alloc, buffers, object, &entry, *value, limit) {
            Ok(made) => Ok(Built {
                answer,
                object: Some(made),
                replaced: 0,
            }),
            Err(refusal) => Err(refusal),
        },
        Operation::Get(_) => Ok(Built {
            answer,
            object: None,
            replaced: 0,
        }),
        Operation::Remove(_) => {
            if answer.is_none() {
                return Ok(Built {
                    answer,
                    object: None,
                    replaced: 0,
                });
            }
            match entry.without_in(alloc, buffers) {
                Ok(made) => Ok(Built {
                    answer,
                    object: Some(made),
                    replaced: 0,
                }),
                Err(_) => Err(Refusal::Memory),
            }
        }
        Operation::PutIf(_, expected, value) => {
            if !is_met(*expected, &answer) {
                return Ok(Built {
                    answer,
                    object: None,
                    replaced: 0,
                });
            }
            match with(alloc, buffers, object, &entry, *value, limit) {
                Ok(made) => Ok(Built {
                    answer,
                    object: Some(made),
                    replaced: 0,
                }),
                Err(refusal) => Err(refusal),
            }
        }
    }
}
