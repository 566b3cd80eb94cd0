//! A map as one list of bytes.
//!
//! The bytes are the count of the pairs, as 4 bytes big-endian, and then the pairs: each the
//! encoding of its key and that of its value. They stand in strictly rising order of their keys'
//! encoded bytes, with nothing between them and nothing behind. So a map has one object, and an
//! object one map.
//!
//! An object that was read keeps the list of bytes that it was handed, with what stood before it,
//! so that reading moves no byte.
ghost use Rattle.std.specs.Prelude.{◌≡◌, ◌+◌, ◌≤◌, List, [], length, drop, IfOk};
ghost use Rattle.far_object.specs.Objects.{object_of, IsMap};

mod change;
mod entries;
mod entry;
mod locate;
mod read;
mod write;

use crate::fault::Memory;
use crate::traits::FarObject;
pub use entry::Entry;
use std::alloc::Global;
use std::marker::{Model, PhantomData};

/// The most pairs that an object may count.
pub const MOST_PAIRS: u32 = 1_048_576;

/// A list of bytes that is known to be an object. Contracts see the pairs of its map, in rising
/// order of their keys' encoded bytes.
#[derive(Drop)]
pub struct Object<K: FarObject, V: FarObject> {
    // In front of the list, so that what a reader asks stands together, and the list's room behind it.
    start: usize,
    bytes: Vec<u8>,
    key: PhantomData<K>,
    value: PhantomData<V>,
}

impl<K: FarObject, V: FarObject> Model for Object<K, V> {
    ghost use Rattle.std.specs.Prelude.{◌≤◌, List, length, drop};
    ghost use Rattle.far_object.specs.Decoded.{decoded_pairs, IsObject};

    ghost Value = { List (K × V) };

    ghost view = { λ o. decoded_pairs K.enc V.enc K.dec V.dec (drop o.start o.bytes.items) };

    ghost invariant = { λ o. (o.start ≤ length o.bytes.items) × IsObject K.enc V.enc K.dec V.dec K.admits V.admits (drop o.start o.bytes.items) };
}

impl<K: FarObject, V: FarObject> Object<K, V> {
    /// The object of no pairs, `00000000`. `Memory` comes where its four bytes are refused.
    pub fn empty(alloc: Global) -> Result<Object<K, V>, Memory>
        ensures { IfOk result (λ o. o ≡ []) }
    {
        let bytes = Vec::from_slice(alloc, &[0, 0, 0, 0])?;
        Ok(Object::behind(bytes, 0))
    }

    /// The object that these bytes are behind the first `start` of them.
    fn behind(bytes: Vec<u8>, start: usize) -> Object<K, V>
        requires within { start ≤ length bytes.items }
        requires object { (es : List (K × V)) × (drop start bytes.items ≡ object_of K.enc V.enc es) × IsMap K.enc K.admits V.admits es }
        ensures { (es : List (K × V)) → drop start bytes.items ≡ object_of K.enc V.enc es → IsMap K.enc K.admits V.admits es → result ≡ es }
    {
        Object {
            bytes,
            start,
            key: PhantomData,
            value: PhantomData,
        }
    }

    /// The object's bytes, in the first format.
    pub fn as_bytes(&self) -> &[u8]
        ensures is { result.now ≡ object_of K.enc V.enc self.now }
        ensures map { IsMap K.enc K.admits V.admits self.now }
        ensures long { length self.now + 3 ≤ length result.now }
    {
        &self.bytes[self.start..]
    }

    // The list that the object lies in, with what stands before it.
    pub(crate) fn into_bytes(self) -> Vec<u8> {
        self.bytes
    }

    /// How many pairs there are, at most `MOST_PAIRS`. It is read from the first four bytes.
    pub fn count(&self) -> u32
        ensures { result ≡ length self.now }
    {
        let bytes = self.as_bytes();
        u32::from_be_bytes([bytes[0], bytes[1], bytes[2], bytes[3]])
    }
}
