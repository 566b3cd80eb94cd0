//! Blobs: long lists of bytes, as values.
ghost use Rattle.std.specs.Prelude.{◌≡◌, ◌≢◌, ◌<◌, ◌^◌, length, IfOk, ◌↔◌, Err};
ghost use Rattle.std.specs.Int.{w32, to_be_bytes};
ghost use Rattle.far_blob.specs.Encodings.{enc_blob, dec_blob, IsBlob};
ghost use Rattle.far_blob.specs.EncodingLaws.{blob_laws};

use crate::fault::BlobFault;
use far_object::{FarObject, Memory, ObjectFault, compare_bytes};
use std::alloc::Global;
use std::cmp::Ordering;
use std::marker::Model;

/// The most bytes of a blob.
pub const MOST_BYTES: usize = 1 << 24;

/// At most 2^24 bytes, of any values. Contracts see the list of them.
///
/// It is written as its length, 4 bytes big-endian, and then its bytes. So a shorter blob comes
/// before a longer one, and blobs of one length are in the order of their bytes.
#[derive(Drop)]
pub struct Blob {
    bytes: Vec<u8>,
}

impl Model for Blob {
    ghost use Rattle.std.specs.Prelude.{List, ℕ};
    ghost use Rattle.far_blob.specs.Encodings.{IsBlob};

    ghost Value = { List ℕ };

    ghost view = { λ b. b.bytes.items };

    ghost invariant = { λ b. IsBlob b.bytes.items };
}

impl Blob {
    /// The blob of these bytes. `TooLong` comes above 2^24 bytes, before any memory is asked for;
    /// `Memory` where the copy is refused.
    pub fn new(alloc: Global, bytes: &[u8]) -> Result<Blob, BlobFault>
        ensures blob { IfOk result (λ b. b ≡ bytes.now) }
        ensures long { (result ≡ Err BlobFault.TooLong) ↔ (2 ^ 24 < length bytes.now) }
    {
        if bytes.len() > MOST_BYTES {
            return Err(BlobFault::TooLong);
        }
        match Vec::from_slice(alloc, bytes) {
            Ok(bytes) => Ok(Blob { bytes }),
            Err(_) => Err(BlobFault::Memory),
        }
    }

    /// The blob of these bytes, which are not copied. `TooLong` comes above 2^24 bytes, and they
    /// are dropped then; no memory is asked for.
    pub fn from_vec(bytes: Vec<u8>) -> Result<Blob, BlobFault>
        ensures blob { IfOk result (λ b. b ≡ bytes.items) }
        ensures long { (result ≡ Err BlobFault.TooLong) ↔ (2 ^ 24 < length bytes.items) }
        ensures memory { result ≢ Err BlobFault.Memory }
    {
        if bytes.len() <= MOST_BYTES {
            Ok(Blob { bytes })
        } else {
            Err(BlobFault::TooLong)
        }
    }

    /// The bytes, without the length.
    pub fn as_bytes(&self) -> &[u8]
        ensures { result.now ≡ self.now }
    {
        self.bytes.as_slice()
    }

    /// The bytes, without the length and not copied.
    pub fn into_bytes(self) -> Vec<u8>
        ensures { result.items ≡ self }
    {
        let Blob { bytes } = self;
        bytes
    }

    /// The length as it stands before the bytes.
    fn length_bytes(&self) -> [u8; 4]
        ensures { result ≡ to_be_bytes w32 (length self.now) }
    {
        (self.bytes.len() as u32).to_be_bytes()
    }
}

impl FarObject for Blob {
    ghost enc = { enc_blob };

    ghost dec = { dec_blob };

    ghost admits = { IsBlob };

    ghost laws = { blob_laws };

    fn admitted(&self) {
        let _bytes = &self.bytes;
    }

    fn len(&self) -> usize {
        self.bytes.len() + 4
    }

    fn byte_at(&self, i: usize) -> u8 {
        if i < 4 {
            let front = self.length_bytes();
            front[i]
        } else {
            self.bytes[i - 4]
        }
    }

    fn encode(&self, out: &mut Vec<u8>) -> Result<(), Memory> {
        let front = self.length_bytes();
        out.reserve(self.len())?;
        out.extend_from_slice(&front)?;
        out.extend_from_slice(self.as_bytes())?;
        Ok(())
    }

    fn decode(alloc: Global, bytes: &[u8]) -> Result<(Blob, usize), ObjectFault> {
        match bytes.split_first_chunk::<4>() {
            None => Err(ObjectFault::Short),
            Some((front, rest)) => {
                let count = u32::from_be_bytes(*front) as usize;
                if MOST_BYTES < count {
                    return Err(ObjectFault::Short);
                }
                if rest.len() < count {
                    return Err(ObjectFault::Short);
                }
                match Vec::from_slice(alloc, &rest[..count]) {
                    Ok(bytes) => Ok((Blob { bytes }, count + 4)),
                    Err(_) => Err(ObjectFault::Memory),
                }
            }
        }
    }

    fn skip(bytes: &[u8]) -> Result<usize, ObjectFault> {
        match bytes.split_first_chunk::<4>() {
            None => Err(ObjectFault::Short),
            Some((front, rest)) => {
                let count = u32::from_be_bytes(*front) as usize;
                if count > MOST_BYTES || rest.len() < count {
                    Err(ObjectFault::Short)
                } else {
                    Ok(count + 4)
                }
            }
        }
    }

    fn copy(&self, alloc: Global) -> Result<Blob, Memory> {
        let bytes = Vec::from_slice(alloc, &self.bytes)?;
        Ok(Blob { bytes })
    }

    fn compare_to_bytes(&self, bytes: &[u8]) -> Ordering {
        match bytes.split_first_chunk::<4>() {
            None => self.length_bytes().as_slice().cmp(bytes),
            Some((front, rest)) => match self.bytes.len().cmp(&length_of(front)) {
                Ordering::Equal => compare_bytes(self.as_bytes(), rest),
                unequal => unequal,
            },
        }
    }

    fn compare(&self, other: &Blob) -> Ordering {
        match self.bytes.len().cmp(&other.bytes.len()) {
            Ordering::Equal => compare_bytes(self.as_bytes(), other.as_bytes()),
            unequal => unequal,
        }
    }
}

/// The length that these bytes before a blob tell.
fn length_of(front: &[u8; 4]) -> usize
    ensures bytes { to_be_bytes w32 result ≡ front.now }
    ensures below { result < 2 ^ 32 }
{
    u32::from_be_bytes(*front) as usize
}
