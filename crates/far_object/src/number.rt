//! Numbers of 64 bits, written as 8 bytes big-endian.
ghost use Rattle.far_object.specs.Encodings.{enc_u64, dec_u64};
ghost use Rattle.far_object.specs.EncodingLaws.{u64_laws};

use crate::fault::{Memory, ObjectFault};
use crate::order::order;
use crate::traits::FarObject;
use std::alloc::Global;
use std::cmp::Ordering;

impl FarObject for u64 {
    ghost use Rattle.std.specs.Prelude.{◌<◌, ◌^◌};

    ghost enc = { enc_u64 };

    ghost dec = { dec_u64 };

    ghost admits = { λ x. x < 2 ^ 64 };

    ghost laws = { u64_laws };

    fn admitted(&self) {
        let _value = *self;
    }

    fn len(&self) -> usize {
        8
    }

    fn byte_at(&self, i: usize) -> u8 {
        let bytes = self.to_be_bytes();
        bytes[i]
    }

    fn encode(&self, out: &mut Vec<u8>) -> Result<(), Memory> {
        out.extend_from_slice(&self.to_be_bytes())?;
        Ok(())
    }

    fn decode(_alloc: Global, bytes: &[u8]) -> Result<(u64, usize), ObjectFault> {
        match bytes.split_first_chunk::<8>() {
            None => Err(ObjectFault::Short),
            Some((front, _)) => Ok((u64::from_be_bytes(*front), 8)),
        }
    }

    fn skip(bytes: &[u8]) -> Result<usize, ObjectFault> {
        if bytes.len() < 8 {
            Err(ObjectFault::Short)
        } else {
            Ok(8)
        }
    }

    fn copy(&self, _alloc: Global) -> Result<u64, Memory> {
        Ok(*self)
    }

    fn compare_to_bytes(&self, bytes: &[u8]) -> Ordering {
        order(&self.to_be_bytes(), bytes)
    }

    fn compare(&self, other: &u64) -> Ordering {
        // A number that was read is known to be below 2^64, which the order of its eight bytes needs.
        let own = *self;
        let other = *other;
        own.cmp(&other)
    }
}
