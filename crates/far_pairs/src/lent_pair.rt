//! A pair that lies elsewhere.
ghost use Rattle.std.specs.Prelude.{◌≡◌};
ghost use Rattle.std.specs.Ordering.{nat_cmp};
ghost use Rattle.std.specs.Cmp.Lexicographic.{slice_cmp};

use crate::head::head_of;
use far_object::compare_bytes;
use std::cmp::Ordering;
use std::marker::Model;

/// A key and a value as they are written, lent. Contracts see the bytes of the two.
#[derive(Drop)]
pub struct LentPair<'a> {
    // What the key's first bytes spell.
    head: u128,
    key: &'a [u8],
    value: &'a [u8],
}

impl<'a> Model for LentPair<'a> {
    ghost use Rattle.std.specs.Prelude.{◌≡◌, ℕ, List};
    ghost use Rattle.far_object.specs.Encodings.{AreBytes};
    ghost use Rattle.far_pairs.specs.Heads.{spelled};

    ghost Value = { List ℕ × List ℕ };

    ghost view = { λ p. (p.key.now, p.value.now) };

    ghost invariant = { λ p. AreBytes p.key.now × (p.head ≡ spelled p.key.now 16) };
}

impl<'a> LentPair<'a> {
    pub(crate) fn new(key: &'a [u8], value: &'a [u8]) -> LentPair<'a>
        ensures { result ≡ (key.now, value.now) }
    {
        LentPair {
            head: head_of(key),
            key,
            value,
        }
    }

    /// The same pair, lent once more.
    pub(crate) fn again(&self) -> LentPair<'a>
        ensures { result ≡ self.now }
    {
        LentPair {
            head: self.head,
            key: self.key,
            value: self.value,
        }
    }

    /// How the keys compare, by their bytes. Where the first 16 differ the keys themselves are not looked at.
    pub(crate) fn compare_keys(&self, other: &LentPair<'_>) -> Ordering
        ensures { result ≡ slice_cmp nat_cmp self.now.0 other.now.0 }
    {
        match self.head.cmp(&other.head) {
            Ordering::Equal => compare_bytes(self.key, other.key),
            unequal => unequal,
        }
    }

    /// The key's encoding.
    pub fn key(&self) -> &'a [u8]
        ensures { result.now ≡ self.now.0 }
    {
        self.key
    }

    /// The value's encoding.
    pub fn value(&self) -> &'a [u8]
        ensures { result.now ≡ self.now.1 }
    {
        self.value
    }
}
