//! What a type must have to be a key or a value.
ghost use Rattle.std.specs.Prelude.{
  ◌≡◌,
  ◌<◌,
  ◌++◌,
  length,
  slice_index,
  IfOk,
  IfErr,
  OnErr,
  OnOk,
  Some,
};
ghost use Rattle.std.specs.Ordering.{nat_cmp};
ghost use Rattle.std.specs.Cmp.Lexicographic.{slice_cmp};
ghost use Rattle.far_object.specs.Encodings.{FarLaws, skipped, IsReadFault};

use crate::fault::{Memory, ObjectFault};
use std::alloc::Global;
use std::cmp::Ordering;

/// A type of keys or values, by the bytes that a value is written as, its encoding.
///
/// `enc` is the encoding, `dec` the value that bytes begin with, if they begin with one, and
/// `admits` says which values of the type there are. Each type proves their laws: what `dec` makes
/// of an encoding and any bytes behind it is the value; what it reads is admitted, and the bytes
/// begin with its encoding; an encoding is fewer than 2^32 bytes.
pub trait FarObject: Drop {
    ghost use Rattle.std.specs.Prelude.{List, ℕ, Option};

    ghost enc: { Self → List ℕ };

    ghost dec: { List ℕ → Option Self };

    ghost admits: { Self → Type 0 };

    ghost laws: { FarLaws enc dec admits };

    /// Tells of a value in hand that it is one which the type admits, and does nothing.
    fn admitted(&self)
        ensures { admits self.now };

    /// How many bytes the encoding has.
    fn len(&self) -> usize
        ensures { result ≡ length (enc self.now) };

    /// The byte of the encoding at `i`, which must be below `len`.
    fn byte_at(&self, i: usize) -> u8
        requires { i < length (enc self.now) }
        ensures { result ≡ slice_index (enc self.now) i };

    /// Appends the encoding. `Memory` comes where the growth is refused, and `out` is then as
    /// before.
    fn encode(&self, out: &mut Vec<u8>) -> Result<(), Memory>
        ensures ok { OnOk result (out.new.items ≡ out.old.items ++ enc self.now) }
        ensures err { OnErr result (out.new.items ≡ out.old.items) };

    /// The value that the bytes begin with, and how many bytes it takes. `Short` comes exactly
    /// where they begin with none; `Memory` where they do and the value's memory is refused.
    fn decode(alloc: Global, bytes: &[u8]) -> Result<(Self, usize), ObjectFault>
        ensures value { IfOk result (λ p. dec bytes.now ≡ Some p.0) }
        ensures size { IfOk result (λ p. p.1 ≡ length (enc p.0)) }
        ensures fault { IfErr result (λ e. IsReadFault (dec bytes.now) e) };

    /// How many bytes the value takes that the bytes begin with; `Short` where they begin with
    /// none. It takes no memory.
    fn skip(bytes: &[u8]) -> Result<usize, ObjectFault>
        ensures { result ≡ skipped enc (dec bytes.now) };

    /// A value equal to this one. `Memory` comes where its memory is refused.
    fn copy(&self, alloc: Global) -> Result<Self, Memory>
        ensures { IfOk result (λ x. x ≡ self.now) };

    /// How the encoding compares to these bytes, as lists of bytes. This body reads one byte after
    /// another: a type whose encoding lies in memory should compare slices in its place.
    fn compare_to_bytes(&self, bytes: &[u8]) -> Ordering
        ensures { result ≡ slice_cmp nat_cmp (enc self.now) bytes.now }
    {
        let count = self.len();
        for (i, byte) in bytes.iter().enumerate() {
            if i == count {
                return Ordering::Less;
            }
            let own = self.byte_at(i);
            if own < *byte {
                return Ordering::Less;
            }
            if *byte < own {
                return Ordering::Greater;
            }
        }
        if count == bytes.len() {
            Ordering::Equal
        } else {
            Ordering::Greater
        }
    }

    /// How the encodings of the two compare, as lists of bytes. What `compare_to_bytes` says of its
    /// body holds here too.
    fn compare(&self, other: &Self) -> Ordering
        ensures { result ≡ slice_cmp nat_cmp (enc self.now) (enc other.now) }
    {
        let count = self.len();
        let others = other.len();
        for i in 0..others {
            if i == count {
                return Ordering::Less;
            }
            let own = self.byte_at(i);
            let byte = other.byte_at(i);
            if own < byte {
                return Ordering::Less;
            }
            if byte < own {
                return Ordering::Greater;
            }
        }
        if count == others {
            Ordering::Equal
        } else {
            Ordering::Greater
        }
    }
}
