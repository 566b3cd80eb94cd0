//! Pairs as they are written.
ghost use Rattle.std.specs.Prelude.{◌≡◌, ◌+◌, ◌++◌, ◌≤◌, [], length, map, IfOk, OnOk, OnErr};
ghost use Rattle.std.specs.List.Sorted.{IsPermutation};
ghost use Rattle.far_object.specs.Decoded.{BeginsWith};
ghost use Rattle.far_pairs.specs.Bundles.{written, Rises};

use crate::lent_pair::LentPair;
use far_object::{FarObject, Memory, Object};
use std::alloc::Global;
use std::marker::{Model, PhantomData};

/// Pairs in the order in which their objects were added, as the bytes that they are written as. Contracts see the list of
/// them.
#[derive(Drop)]
pub struct Bundle<K: FarObject, V: FarObject> {
    bytes: Vec<u8>,
    count: usize,
    key: PhantomData<K>,
    value: PhantomData<V>,
}

impl<K: FarObject, V: FarObject> Model for Bundle<K, V> {
    ghost use Rattle.std.specs.Prelude.{List};
    ghost use Rattle.far_object.specs.Decoded.{pairs_in};
    ghost use Rattle.far_pairs.specs.Bundles.{IsBundle};

    ghost Value = { List (K × V) };

    ghost view = { λ b. pairs_in K.enc V.enc K.dec V.dec b.count b.bytes.items };

    ghost invariant = { λ b. IsBundle K.enc V.enc K.dec V.dec K.admits V.admits b.count b.bytes.items };
}

impl<K: FarObject, V: FarObject> Bundle<K, V> {
    /// No pairs. It takes no memory.
    pub fn new(alloc: Global) -> Bundle<K, V>
        ensures { result ≡ [] }
    {
        Bundle {
            bytes: Vec::new(alloc),
            count: 0,
            key: PhantomData,
            value: PhantomData,
        }
    }

    /// How many pairs there are.
    pub fn len(&self) -> usize
        ensures { result ≡ length self.now }
    {
        self.count
    }

    /// Puts the object's pairs behind the others. `Memory` comes where the growth is refused, or no number counts so many.
    pub fn add(&mut self, object: &Object<K, V>) -> Result<(), Memory>
        ensures ok { OnOk result (self.new ≡ self.old ++ object.now) }
        ensures err { OnErr result (self.new ≡ self.old) }
    {
        let bytes = object.as_bytes();
        let Some(count) = self.count.checked_add(object.count() as usize) else {
            return Err(Memory);
        };
        match self.bytes.extend_from_slice(&bytes[4..]) {
            Ok(()) => {
                self.count = count;
                Ok(())
            }
            Err(_) => Err(Memory),
        }
    }

    // The pair that the bytes begin with, and how many bytes it takes.
    fn first(bytes: &[u8]) -> (LentPair<'_>, usize)
        requires { (e : K × V) × BeginsWith K.enc V.enc K.admits V.admits bytes.now e }
        ensures is { (e : K × V) → BeginsWith K.enc V.enc K.admits V.admits bytes.now e → (result.0 ≡ written K.enc V.enc e) × (result.1 ≡ length (K.enc e.0) + length (V.enc e.1)) }
        ensures within { result.1 ≤ length bytes.now }
    {
        match K::skip(bytes) {
            Err(_) => (LentPair::new(&[], &[]), 0),
            Ok(key) => match V::skip(&bytes[key..]) {
                Err(_) => (LentPair::new(&[], &[]), 0),
                Ok(value) => {
                    let size = key + value;
                    (LentPair::new(&bytes[..key], &bytes[key..size]), size)
                }
            },
        }
    }

    /// Puts each pair, lent, behind the others. After `Memory` some of them may stand there.
    pub fn lend<'a>(&'a self, lent: &mut Vec<LentPair<'a>>) -> Result<(), Memory>
        ensures { OnOk result (lent.new.items ≡ lent.old.items ++ map (written K.enc V.enc) self.now) }
    {
        lent.reserve(self.count)?;
        let mut rest = self.bytes.as_slice();
        for _i in 0..self.count {
            let (pair, size) = Bundle::<K, V>::first(rest);
            lent.push(pair)?;
            rest = &rest[size..];
        }
        Ok(())
    }

    /// The same pairs in the order of their keys' encodings, in a bundle of its own. So pairs that were gathered by several
    /// threads are sorted by these, each over bytes that its processor has at hand, and what is then read in key order lies in
    /// a few rows. `Memory` comes where a growth is refused.
    pub fn in_order(&self, alloc: Global) -> Result<Bundle<K, V>, Memory>
        ensures same { IfOk result (λ bundle. IsPermutation self.now bundle) }
        ensures rising { IfOk result (λ bundle. Rises K.enc V.enc bundle) }
    {
        let mut lent = Vec::new(alloc);
        self.lend(&mut lent)?;
        lent.sort_unstable_by(|one, other| one.compare_keys(other));
        let mut bytes = Vec::with_capacity(alloc, self.bytes.len())?;
        for pair in &lent {
            bytes.extend_from_slice(pair.key())?;
            bytes.extend_from_slice(pair.value())?;
        }
        Ok(Bundle {
            bytes,
            count: self.count,
            key: PhantomData,
            value: PhantomData,
        })
    }
}
