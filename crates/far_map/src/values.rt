//! What a map can hold: values of any type that is read as bytes.
ghost use Rattle.std.specs.Prelude.{◌≡◌, IfOk};

use crate::refusal::MapRefusal;
use crate::texts::text;
use far_blob::{Blob, BlobFault};
use far_object::{FarObject, Text};
use std::alloc::Global;

/// A type of values. It has bytes, which a reader sees, and an encoding, which the map stores. The bytes are
/// a part of the encoding, so they can be lent without a copy.
///
/// `Text` and `Blob` are such types. The encoding of a `Text` is 2 bytes of length and then its bytes, and
/// that of a `Blob` is 4 bytes of length and then its bytes.
pub trait Value: FarObject {
    ghost use Rattle.std.specs.Prelude.{List, ℕ};

    // Its bytes, as a reader sees them.
    ghost shows: { Self → List ℕ };

    /// Returns the value that has these bytes, which are copied.
    ///
    /// Errors: `TooLong` if a value of the type can't have that many bytes, before any memory is asked for.
    /// `Memory` if the allocation of the copy failed.
    fn from_bytes(alloc: Global, bytes: &[u8]) -> Result<Self, MapRefusal>
        ensures { IfOk result (λ value. shows value ≡ bytes.now) };

    /// Returns its bytes.
    fn as_bytes(&self) -> &[u8]
        ensures { result.now ≡ shows self.now };

    /// Returns the bytes of a value from its encoding, without a copy. `encoded` has to be the encoding of a
    /// value.
    fn part(encoded: &[u8]) -> &[u8]
        requires { (value : Self) × (encoded.now ≡ Self.enc value) }
        ensures { (value : Self) → encoded.now ≡ Self.enc value → result.now ≡ shows value };
}

impl Value for Text {
    ghost shows = { λ text. text };

    fn from_bytes(alloc: Global, bytes: &[u8]) -> Result<Text, MapRefusal> {
        text(alloc, bytes)
    }

    fn as_bytes(&self) -> &[u8] {
        Text::as_bytes(self)
    }

    fn part(encoded: &[u8]) -> &[u8] {
        &encoded[2..]
    }
}

impl Value for Blob {
    ghost shows = { λ blob. blob };

    fn from_bytes(alloc: Global, bytes: &[u8]) -> Result<Blob, MapRefusal> {
        match Blob::new(alloc, bytes) {
            Ok(blob) => Ok(blob),
            Err(BlobFault::TooLong) => Err(MapRefusal::TooLong),
            Err(BlobFault::Memory) => Err(MapRefusal::Memory),
        }
    }

    fn as_bytes(&self) -> &[u8] {
        Blob::as_bytes(self)
    }

    fn part(encoded: &[u8]) -> &[u8] {
        &encoded[4..]
    }
}
