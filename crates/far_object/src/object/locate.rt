//! The place of a key among an object's bytes: one walk from pair to pair, that compares encoded
//! keys and stops at the first that is not below the one looked for.
ghost use Rattle.std.specs.Prelude.{◌≡◌, ◌+◌, ◌≤◌, length, MatchOption, None};
ghost use Rattle.std.specs.Map.{lookup};
ghost use Rattle.std.specs.BTreeMap.{is_at};
ghost use Rattle.far_object.specs.Buckets.{key_cmp};
ghost use Rattle.far_object.specs.Decoded.{BeginsWith};
ghost use Rattle.far_object.specs.Objects.{value_place, IsValueAt};

use crate::object::Object;
use crate::traits::FarObject;
use std::cmp::Ordering;
use std::ops::Range;

/// Where the pair of a key is, by the places in an object's bytes.
#[derive(Clone, Copy)]
pub enum Spot {
    /// There is none, and it would go here.
    Gap(usize),
    /// Where the key begins, where the value begins, and where the value ends.
    Here(usize, usize, usize),
}

impl<K: FarObject, V: FarObject> Object<K, V> {
    ghost use Rattle.far_object.specs.Spots.{spot_from};

    /// How long the key and the value are that the bytes begin with.
    fn lengths(bytes: &[u8]) -> (usize, usize)
        requires { (e : K × V) × BeginsWith K.enc V.enc K.admits V.admits bytes.now e }
        ensures is { (e : K × V) → BeginsWith K.enc V.enc K.admits V.admits bytes.now e → (result.0 ≡ length (K.enc e.0)) × (result.1 ≡ length (V.enc e.1)) }
        ensures within { result.0 + result.1 ≤ length bytes.now }
    {
        match K::skip(bytes) {
            Err(_) => (0, 0),
            Ok(key) => match V::skip(&bytes[key..]) {
                Err(_) => (0, 0),
                Ok(value) => (key, value),
            },
        }
    }

    /// Where the pair of this key is, or where it would go.
    pub(super) fn locate(&self, key: &K) -> Spot
        ensures { result ≡ spot_from K.enc V.enc key.now 4 self.now }
    {
        let bytes = self.as_bytes();
        let mut at: usize = 4;
        for _i in 0..self.count() {
            let rest = &bytes[at..];
            let (own, value) = Object::<K, V>::lengths(rest);
            match key.compare_to_bytes(&rest[..own]) {
                Ordering::Less => return Spot::Gap(at),
                Ordering::Equal => return Spot::Here(at, at + own, at + own + value),
                Ordering::Greater => at += own + value,
            }
        }
        Spot::Gap(at)
    }

    /// Where the value of this key is written, as a range of `as_bytes`; `None` where the map has
    /// no such key. It allocates nothing, and looks at no pair behind the key's place.
    pub fn find(&self, key: &K) -> Option<Range<usize>>
        ensures place { result ≡ value_place K.enc V.enc key.now self.now }
        ensures value { MatchOption result (lookup (is_at (key_cmp K.enc key.now)) self.now ≡ None) (λ r. IsValueAt K.enc V.enc key.now self.now r) }
    {
        self.place_at(key, self.locate(key))
    }

    /// As `find`, of a key that was located.
    pub(super) fn place_at(&self, key: &K, spot: Spot) -> Option<Range<usize>>
        requires located { spot ≡ spot_from K.enc V.enc key.now 4 self.now }
        ensures place { result ≡ value_place K.enc V.enc key.now self.now }
        ensures value { MatchOption result (lookup (is_at (key_cmp K.enc key.now)) self.now ≡ None) (λ r. IsValueAt K.enc V.enc key.now self.now r) }
    {
        let _bytes = self.as_bytes();
        match spot {
            Spot::Gap(_) => None,
            Spot::Here(_, start, end) => Some(start..end),
        }
    }
}
