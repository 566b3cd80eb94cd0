//! Contents as pairs in rising order of their keys' bytes: looking up, comparing, and telling whether one is the other
//! with an effect on it. Nothing here allocates but the copies.
ghost use Rattle.std.specs.Prelude.{
  ◌≡◌,
  ◌+◌,
  ◌<◌,
  ◌≤◌,
  ◌++◌,
  ◌∷◌,
  ◌↔◌,
  IsTrue,
  IfOk,
  Option,
  Some,
  None,
  option_map,
  length,
};
ghost use Rattle.std.specs.Map.{keys_of};
ghost use Rattle.std.specs.List.Sorted.{IsStrictlySortedBy};
ghost use Rattle.far_object.specs.Buckets.{key_cmp};
ghost use Rattle.table_core.specs.Maps.{value_at, is_met};
ghost use Rattle.table_core.specs.Lawful.{AreContents};
ghost use Rattle.table_core.specs.Changes.{IsWithin, place_from, with_effect, is_above};
ghost use Rattle.table_core.specs.Lent.{lent_value};

use crate::effect::Effect;
use far_object::{FarObject, Memory, bucket_of};
use std::alloc::Global;
use std::cmp::Ordering;

/// Where the pair of a key stands, or where it would go.
#[derive(Clone, Copy)]
pub enum Place {
    Gap(usize),
    Here(usize),
}

/// Where the pair of this key stands, or where it would go.
pub fn find<K: FarObject, V>(pairs: &[(K, V)], key: &K) -> Place
    ensures place { result ≡ place_from K.enc key.now 0 pairs.now }
    ensures within { IsWithin (length pairs.now) result }
{
    for (at, pair) in pairs.iter().enumerate() {
        match key.compare(&pair.0) {
            Ordering::Less => return Place::Gap(at),
            Ordering::Equal => return Place::Here(at),
            Ordering::Greater => {}
        }
    }
    Place::Gap(pairs.len())
}

/// The value of this key.
pub fn value_of<'a, K: FarObject, V>(pairs: &'a [(K, V)], key: &K) -> Option<&'a V>
    ensures { IsStrictlySortedBy (key_cmp K.enc) (keys_of pairs.now) → lent_value result ≡ value_at K.enc key.now pairs.now }
{
    match find(pairs, key) {
        Place::Gap(_) => None,
        Place::Here(at) => Some(&pairs[at].1),
    }
}

/// Whether a value is the expected one: none is none, and values are compared by their bytes.
pub fn is_expected<V: FarObject>(expected: Option<&V>, value: Option<&V>) -> bool
    ensures { result ≡ is_met V.enc (lent_value expected.entry) (lent_value value.entry) }
{
    match (expected, value) {
        (None, None) => true,
        (Some(expected), Some(value)) => expected.compare(value).is_eq(),
        _ => false,
    }
}

/// Whether two values are the same. Their bytes tell.
pub fn is_same<T: FarObject>(one: &T, other: &T) -> bool
    ensures { IsTrue result ↔ (one.now ≡ other.now) }
{
    one.admitted();
    other.admitted();
    one.compare(other).is_eq()
}

/// Whether the two lists are the same.
pub fn are_same<K: FarObject, V: FarObject>(one: &[(K, V)], other: &[(K, V)]) -> bool
    ensures { IsTrue result ↔ (one.now ≡ other.now) }
{
    if one.len() != other.len() {
        return false;
    }
    for (at, pair) in one.iter().enumerate() {
        if !is_same(&pair.0, &other[at].0) || !is_same(&pair.1, &other[at].1) {
            return false;
        }
    }
    true
}

/// Whether the list is this pair between those before it and those after it.
pub fn is_spliced<K: FarObject, V: FarObject>(
    list: &[(K, V)],
    before: &[(K, V)],
    key: &K,
    value: &V,
    after: &[(K, V)],
) -> bool
    ensures { IsTrue result ↔ (list.now ≡ before.now ++ (key.now, value.now) ∷ after.now) }
{
    let at = before.len();
    if list.len() <= at {
        return false;
    }
    let pair = &list[at];
    are_same(&list[..at], before)
        && is_same(&pair.0, key)
        && is_same(&pair.1, value)
        && are_same(&list[at + 1..], after)
}

/// Whether the list is the one and then the other.
pub fn is_joined<K: FarObject, V: FarObject>(
    list: &[(K, V)],
    before: &[(K, V)],
    after: &[(K, V)],
) -> bool
    ensures { IsTrue result ↔ (list.now ≡ before.now ++ after.now) }
{
    let at = before.len();
    if list.len() < at {
        return false;
    }
    are_same(&list[..at], before) && are_same(&list[at..], after)
}

/// Whether the new pairs are the old ones with the effect on them.
pub fn is_changed<K: FarObject, V: FarObject>(
    new: &[(K, V)],
    old: &[(K, V)],
    effect: &Effect<K, V>,
) -> bool
    ensures { IsStrictlySortedBy (key_cmp K.enc) (keys_of old.now) → (IsTrue result ↔ (new.now ≡ with_effect K.enc old.now effect.now)) }
{
    match effect {
        Effect::Leaves => are_same(new, old),
        Effect::Puts(key, value) => match find(old, *key) {
            Place::Gap(at) => is_spliced(new, &old[..at], *key, *value, &old[at..]),
            Place::Here(at) => is_spliced(new, &old[..at], &old[at].0, *value, &old[at + 1..]),
        },
        Effect::Cuts(key) => match find(old, *key) {
            Place::Gap(_) => are_same(new, old),
            Place::Here(at) => is_joined(new, &old[..at], &old[at + 1..]),
        },
    }
}

/// Whether the effect leaves the pairs as they are.
pub fn is_left<K: FarObject, V: FarObject>(pairs: &[(K, V)], effect: &Effect<K, V>) -> bool
    ensures { IsStrictlySortedBy (key_cmp K.enc) (keys_of pairs.now) → (IsTrue result ↔ (with_effect K.enc pairs.now effect.now ≡ pairs.now)) }
{
    match effect {
        Effect::Leaves => true,
        Effect::Puts(key, value) => match find(pairs, *key) {
            Place::Gap(_) => false,
            Place::Here(at) => is_same(&pairs[at].1, *value),
        },
        Effect::Cuts(key) => match find(pairs, *key) {
            Place::Gap(_) => true,
            Place::Here(_) => false,
        },
    }
}

/// Whether the pairs are contents of this bucket: its keys, in rising order.
pub fn belong<K: FarObject, V>(buckets: u32, bucket: u32, pairs: &[(K, V)]) -> bool
    requires { 0 < buckets }
    ensures { IsTrue result ↔ AreContents K.enc buckets bucket pairs.now }
{
    let mut last: Option<&K> = None;
    for pair in pairs {
        if bucket_of(&pair.0, buckets) != bucket || !is_above(last, &pair.0) {
            return false;
        }
        last = Some(&pair.0);
    }
    true
}

/// Whether the key is above the last one, if there is one.
fn is_above<K: FarObject>(last: Option<&K>, key: &K) -> bool
    ensures { result ≡ is_above K.enc (lent_value last.entry) key.now }
{
    match last {
        None => true,
        Some(last) => last.compare(key).is_lt(),
    }
}

/// A copy of the pairs, in as much memory as they take.
pub fn copied<K: FarObject, V: FarObject>(
    alloc: Global,
    pairs: &[(K, V)],
) -> Result<Vec<(K, V)>, Memory>
    ensures { IfOk result (λ v. v.items ≡ pairs.now) }
{
    let mut copies = Vec::with_capacity(alloc, pairs.len())?;
    for (key, value) in pairs {
        copies.push((key.copy(alloc)?, value.copy(alloc)?))?;
    }
    Ok(copies)
}
