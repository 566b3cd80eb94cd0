//! Texts: short lists of bytes, as keys and values.
ghost use Rattle.std.specs.Prelude.{◌≡◌, ◌<◌, ◌≤◌, ◌^◌, length, IfOk, ◌↔◌, Err};
ghost use Rattle.std.specs.Int.{w16, to_be_bytes};
ghost use Rattle.far_object.specs.Encodings.{enc_text, dec_text, IsText};
ghost use Rattle.far_object.specs.EncodingLaws.{text_laws};

use crate::fault::{Memory, ObjectFault, TextFault};
use crate::order::order;
use crate::traits::FarObject;
use std::alloc::Global;
use std::cmp::Ordering;
use std::marker::Model;

/// The most bytes of a text.
const MOST_BYTES: usize = 65_535;

/// At most 65,535 bytes, of any values. Contracts see the list of them.
///
/// It is written as its length, 2 bytes big-endian, and then its bytes. So a shorter text comes
/// before a longer one, and texts of one length are in the order of their bytes.
#[derive(Drop)]
pub struct Text {
    bytes: Vec<u8>,
}

impl Model for Text {
    ghost use Rattle.std.specs.Prelude.{List, ℕ};
    ghost use Rattle.far_object.specs.Encodings.{IsText};

    ghost Value = { List ℕ };

    ghost view = { λ t. t.bytes.items };

    ghost invariant = { λ t. IsText t.bytes.items };
}

impl Text {
    /// The text of these bytes. `TooLong` comes above 65,535 bytes, before any memory is asked
    /// for; `Memory` where the copy is refused.
    pub fn new(alloc: Global, bytes: &[u8]) -> Result<Text, TextFault>
        ensures text { IfOk result (λ t. t ≡ bytes.now) }
        ensures long { (result ≡ Err TextFault.TooLong) ↔ (2 ^ 16 ≤ length bytes.now) }
    {
        if bytes.len() > MOST_BYTES {
            return Err(TextFault::TooLong);
        }
        match Vec::from_slice(alloc, bytes) {
            Ok(bytes) => Ok(Text { bytes }),
            Err(_) => Err(TextFault::Memory),
        }
    }

    /// The bytes, without the length.
    pub fn as_bytes(&self) -> &[u8]
        ensures { result.now ≡ self.now }
    {
        self.bytes.as_slice()
    }

    /// The length as it stands before the bytes.
    fn length_bytes(&self) -> [u8; 2]
        ensures { result ≡ to_be_bytes w16 (length self.now) }
    {
        (self.bytes.len() as u16).to_be_bytes()
    }
}

impl FarObject for Text {
    ghost enc = { enc_text };

    ghost dec = { dec_text };

    ghost admits = { IsText };

    ghost laws = { text_laws };

    fn admitted(&self) {
        let _bytes = &self.bytes;
    }

    fn len(&self) -> usize {
        self.bytes.len() + 2
    }

    fn byte_at(&self, i: usize) -> u8 {
        if i < 2 {
            let front = self.length_bytes();
            front[i]
        } else {
            self.bytes[i - 2]
        }
    }

    fn encode(&self, out: &mut Vec<u8>) -> Result<(), Memory> {
        let front = self.length_bytes();
        out.reserve(self.len())?;
        out.extend_from_slice(&front)?;
        out.extend_from_slice(self.as_bytes())?;
        Ok(())
    }

    fn decode(alloc: Global, bytes: &[u8]) -> Result<(Text, usize), ObjectFault> {
        match bytes.split_first_chunk::<2>() {
            None => Err(ObjectFault::Short),
            Some((front, rest)) => {
                let count = u16::from_be_bytes(*front) as usize;
                if rest.len() < count {
                    return Err(ObjectFault::Short);
                }
                match Vec::from_slice(alloc, &rest[..count]) {
                    Ok(bytes) => Ok((Text { bytes }, count + 2)),
                    Err(_) => Err(ObjectFault::Memory),
                }
            }
        }
    }

    fn skip(bytes: &[u8]) -> Result<usize, ObjectFault> {
        match bytes.split_first_chunk::<2>() {
            None => Err(ObjectFault::Short),
            Some((front, rest)) => {
                let count = u16::from_be_bytes(*front) as usize;
                if rest.len() < count {
                    Err(ObjectFault::Short)
                } else {
                    Ok(count + 2)
                }
            }
        }
    }

    fn copy(&self, alloc: Global) -> Result<Text, Memory> {
        let bytes = Vec::from_slice(alloc, &self.bytes)?;
        Ok(Text { bytes })
    }

    fn compare_to_bytes(&self, bytes: &[u8]) -> Ordering {
        match bytes.split_first_chunk::<2>() {
            None => self.length_bytes().as_slice().cmp(bytes),
            Some((front, rest)) => match self.bytes.len().cmp(&length_of(front)) {
                Ordering::Equal => order(self.as_bytes(), rest),
                unequal => unequal,
            },
        }
    }

    fn compare(&self, other: &Text) -> Ordering {
        match self.bytes.len().cmp(&other.bytes.len()) {
            Ordering::Equal => order(self.as_bytes(), other.as_bytes()),
            unequal => unequal,
        }
    }
}

/// The length that these bytes before a text tell.
fn length_of(front: &[u8; 2]) -> usize
    ensures bytes { to_be_bytes w16 result ≡ front.now }
    ensures below { result < 2 ^ 16 }
{
    u16::from_be_bytes(*front) as usize
}
