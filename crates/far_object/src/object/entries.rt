//! The pairs of an object as values.
ghost use Rattle.std.specs.Prelude.{◌≡◌, ◌+◌, ◌≤◌, length, IfOk};
ghost use Rattle.std.specs.Map.{lookup};
ghost use Rattle.std.specs.BTreeMap.{is_at};
ghost use Rattle.far_object.specs.Buckets.{key_cmp};
ghost use Rattle.far_object.specs.Decoded.{BeginsWith};
ghost use Rattle.far_object.specs.Spots.{spot_from};

use crate::fault::Memory;
use crate::object::Object;
use crate::object::locate::Spot;
use crate::traits::FarObject;
use std::alloc::Global;

impl<K: FarObject, V: FarObject> Object<K, V> {
    /// The pair that the bytes begin with, and how many bytes it takes.
    fn decode_pair(alloc: Global, bytes: &[u8]) -> Result<((K, V), usize), Memory>
        requires { (e : K × V) × BeginsWith K.enc V.enc K.admits V.admits bytes.now e }
        ensures pair { IfOk result (λ p. (e : K × V) → BeginsWith K.enc V.enc K.admits V.admits bytes.now e → (p.0 ≡ e) × (p.1 ≡ length (K.enc e.0) + length (V.enc e.1))) }
        ensures within { IfOk result (λ p. p.1 ≤ length bytes.now) }
    {
        match K::decode(alloc, bytes) {
            Err(_) => Err(Memory),
            Ok((key, own)) => match V::decode(alloc, &bytes[own..]) {
                Err(_) => Err(Memory),
                Ok((value, size)) => Ok(((key, value), own + size)),
            },
        }
    }

    /// The pairs, in rising order of their keys' encoded bytes. `Memory` comes where the list, a
    /// key or a value is refused.
    pub fn entries(&self, alloc: Global) -> Result<Vec<(K, V)>, Memory>
        ensures { IfOk result (λ v. v.items ≡ self.now) }
    {
        let bytes = self.as_bytes();
        let count = self.count();
        let mut entries = Vec::with_capacity(alloc, count as usize)?;
        let mut rest = &bytes[4..];
        for _i in 0..count {
            let (pair, size) = Object::<K, V>::decode_pair(alloc, rest)?;
            entries.push(pair)?;
            rest = &rest[size..];
        }
        Ok(entries)
    }

    /// A copy of the value of this key; `None` where the map has no such key. `Memory` comes where
    /// the value is refused; it alone is copied.
    pub fn value(&self, alloc: Global, key: &K) -> Result<Option<V>, Memory>
        ensures { IfOk result (λ value. value ≡ lookup (is_at (key_cmp K.enc key.now)) self.now) }
    {
        self.value_at(alloc, key, self.locate(key))
    }

    /// As `value`, of a key that was located.
    pub(super) fn value_at(&self, alloc: Global, key: &K, spot: Spot) -> Result<Option<V>, Memory>
        requires located { spot ≡ spot_from K.enc V.enc key.now 4 self.now }
        ensures { IfOk result (λ value. value ≡ lookup (is_at (key_cmp K.enc key.now)) self.now) }
    {
        let bytes = self.as_bytes();
        match self.place_at(key, spot) {
            None => Ok(None),
            Some(place) => match V::decode(alloc, &bytes[place]) {
                Err(_) => Err(Memory),
                Ok((value, _)) => Ok(Some(value)),
            },
        }
    }
}
