//! A new object of one pair, or from an old one, with a pair put or taken away. Each lies in a
//! buffer that was kept, or else in one allocation of the exact size, and every byte is copied once.
ghost use Rattle.std.specs.Prelude.{◌≡◌, ◌-◌, ◌<◌, ◌≤◌, [], ◌∷◌, ◌++◌, length, take, drop, IfOk};
ghost use Rattle.std.specs.Int.{w32, to_be_bytes};
ghost use Rattle.std.specs.BTreeMap.{insert_entry};
ghost use Rattle.far_object.specs.Buckets.{key_cmp};
ghost use Rattle.far_object.specs.Objects.{cut, most_pairs};
ghost use Rattle.far_object.specs.Spots.{spot_from};

use crate::buffers::Buffers;
use crate::fault::Memory;
use crate::keys::size;
use crate::object::Object;
use crate::object::locate::Spot;
use crate::traits::FarObject;
use std::alloc::Global;

impl<K: FarObject, V: FarObject> Object<K, V> {
    /// The object of this one pair. `Memory` comes where its bytes are refused.
    pub fn of_pair(alloc: Global, key: &K, value: &V) -> Result<Object<K, V>, Memory>
        ensures { IfOk result (λ o. o ≡ (key.now, value.now) ∷ []) }
    {
        Object::of_pair_in(alloc, &mut Buffers::new(), key, value)
    }

    /// As `of_pair`, in one of the buffers where it has room there.
    pub fn of_pair_in(
        alloc: Global,
        buffers: &mut Buffers,
        key: &K,
        value: &V,
    ) -> Result<Object<K, V>, Memory>
        ensures { IfOk result (λ o. o ≡ (key.now, value.now) ∷ []) }
    {
        key.admitted();
        value.admitted();
        let bytes = spliced(alloc, buffers, &[0, 0, 0, 0], 1, 4, 4, key, value)?;
        Ok(Object::behind(bytes, 0))
    }

    /// The object with this value at this key, in place of the value that was there. The object
    /// must not be full (`MOST_PAIRS` pairs). `Memory` comes where the new bytes are refused.
    pub fn with(&self, alloc: Global, key: &K, value: &V) -> Result<Object<K, V>, Memory>
        requires { length self.now < most_pairs }
        ensures { IfOk result (λ o. o ≡ insert_entry (key_cmp K.enc) self.now key.now value.now) }
    {
        self.with_at(alloc, &mut Buffers::new(), key, self.locate(key), value)
    }

    /// The object without this key; the same pairs where the key is not there. `Memory` comes where
    /// the new bytes are refused.
    pub fn without(&self, alloc: Global, key: &K) -> Result<Object<K, V>, Memory>
        ensures { IfOk result (λ o. o ≡ cut (key_cmp K.enc) key.now self.now) }
    {
        self.without_at(alloc, &mut Buffers::new(), key, self.locate(key))
    }

    /// As `with`, of a key that was located, in one of the buffers where it has room there.
    pub(super) fn with_at(
        &self,
        alloc: Global,
        buffers: &mut Buffers,
        key: &K,
        spot: Spot,
        value: &V,
    ) -> Result<Object<K, V>, Memory>
        requires located { spot ≡ spot_from K.enc V.enc key.now 4 self.now }
        requires few { length self.now < most_pairs }
        ensures { IfOk result (λ o. o ≡ insert_entry (key_cmp K.enc) self.now key.now value.now) }
    {
        key.admitted();
        value.admitted();
        let bytes = self.as_bytes();
        let count = self.count();
        match spot {
            Spot::Gap(at) => {
                let with = spliced(alloc, buffers, bytes, count + 1, at, at, key, value)?;
                Ok(Object::behind(with, 0))
            }
            Spot::Here(start, _, end) => {
                let with = spliced(alloc, buffers, bytes, count, start, end, key, value)?;
                Ok(Object::behind(with, 0))
            }
        }
    }

    /// As `without`, of a key that was located, in one of the buffers where it has room there.
    pub(super) fn without_at(
        &self,
        alloc: Global,
        buffers: &mut Buffers,
        key: &K,
        spot: Spot,
    ) -> Result<Object<K, V>, Memory>
        requires located { spot ≡ spot_from K.enc V.enc key.now 4 self.now }
        ensures { IfOk result (λ o. o ≡ cut (key_cmp K.enc) key.now self.now) }
    {
        let bytes = self.as_bytes();
        let count = self.count();
        match spot {
            Spot::Gap(_) => {
                let same = copied(alloc, buffers, bytes)?;
                Ok(Object::behind(same, 0))
            }
            Spot::Here(start, _, end) => {
                let rest = without_part(alloc, buffers, bytes, count - 1, start, end)?;
                Ok(Object::behind(rest, 0))
            }
        }
    }
}

/// An object's bytes with this count, and with the pair in place of those from `start` to `end`.
#[tactic(auto, using(std::proofs::lemmas::List::take_rest))]
fn spliced<K: FarObject, V: FarObject>(
    alloc: Global,
    buffers: &mut Buffers,
    bytes: &[u8],
    count: u32,
    start: usize,
    end: usize,
    key: &K,
    value: &V,
) -> Result<Vec<u8>, Memory>
    requires head { 4 ≤ start }
    requires order { start ≤ end }
    requires within { end ≤ length bytes.now }
    ensures { IfOk result (λ v. v.items ≡ to_be_bytes w32 count ++ (take (start - 4) (drop 4 bytes.now) ++ (K.enc key.now ++ (V.enc value.now ++ drop end bytes.now)))) }
{
    let total = start + (bytes.len() - end) + size(key) + size(value);
    let mut out = buffers.room(alloc, total)?;
    out.extend_from_slice(&count.to_be_bytes())?;
    out.extend_from_slice(&bytes[4..start])?;
    key.encode(&mut out)?;
    value.encode(&mut out)?;
    out.extend_from_slice(&bytes[end..])?;
    Ok(out)
}

/// An object's bytes with this count, and without those from `start` to `end`.
#[tactic(auto, using(std::proofs::lemmas::List::take_rest))]
fn without_part(
    alloc: Global,
    buffers: &mut Buffers,
    bytes: &[u8],
    count: u32,
    start: usize,
    end: usize,
) -> Result<Vec<u8>, Memory>
    requires head { 4 ≤ start }
    requires order { start ≤ end }
    requires within { end ≤ length bytes.now }
    ensures { IfOk result (λ v. v.items ≡ to_be_bytes w32 count ++ (take (start - 4) (drop 4 bytes.now) ++ drop end bytes.now)) }
{
    let mut out = buffers.room(alloc, start + (bytes.len() - end))?;
    out.extend_from_slice(&count.to_be_bytes())?;
    out.extend_from_slice(&bytes[4..start])?;
    out.extend_from_slice(&bytes[end..])?;
    Ok(out)
}

/// An object's bytes.
fn copied(alloc: Global, buffers: &mut Buffers, bytes: &[u8]) -> Result<Vec<u8>, Memory>
    ensures { IfOk result (λ v. v.items ≡ bytes.now) }
{
    let mut out = buffers.room(alloc, bytes.len())?;
    out.extend_from_slice(bytes)?;
    Ok(out)
}
