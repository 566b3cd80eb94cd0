//! A bit for each number below some count, which nothing is claimed of.

use std::alloc::{AllocError, Global};
use std::sync::atomic::AtomicU64;
use std::sync::atomic::Ordering::SeqCst;

/// How many bits a word has.
pub const WORD: u32 = 64;

/// A bit for each number below some count.
#[derive(Drop)]
pub struct Bits {
    words: Vec<AtomicU64>,
    len: u32,
}

fn bit_of(number: u32) -> u64 {
    1u64.wrapping_shl(number % WORD)
}

impl Bits {
    /// Room for so many bits, which are 0.
    pub fn new(alloc: Global, count: u32) -> Result<Bits, AllocError> {
        let len = count / WORD + 1;
        let mut words = Vec::with_capacity(alloc, len as usize)?;
        for _ in 0..len {
            words.push(AtomicU64::new(0))?;
        }
        Ok(Bits { words, len })
    }

    /// So many bits, which are 1.
    pub fn full(alloc: Global, count: u32) -> Result<Bits, AllocError> {
        let len = count / WORD + 1;
        let mut words = Vec::with_capacity(alloc, len as usize)?;
        for _ in 1..len {
            words.push(AtomicU64::new(u64::MAX))?;
        }
        words.push(AtomicU64::new(bit_of(count).wrapping_sub(1)))?;
        Ok(Bits { words, len })
    }

    /// How many words there are.
    pub fn len(&self) -> u32 {
        self.len
    }

    /// The bits of the word at this place, or none past the last.
    pub fn load(&self, at: usize) -> u64 {
        match self.words.get(at) {
            Some(word) => word.load(SeqCst),
            None => 0,
        }
    }

    /// The first number from this one on whose bit is set, of those that lie in its word.
    pub fn next_in_word(&self, number: u32) -> Option<u32> {
        let from = u64::MAX.wrapping_shl(number % WORD);
        let bits = self.load((number / WORD) as usize) & from;
        if bits == 0 {
            return None;
        }
        Some((number - number % WORD).wrapping_add(bits.trailing_zeros()))
    }

    /// Whether the bit is set.
    pub fn is_set(&self, number: u32) -> bool {
        self.load((number / WORD) as usize) & bit_of(number) != 0
    }

    /// Sets the bit.
    pub fn set(&self, number: u32) {
        if let Some(word) = self.words.get((number / WORD) as usize) {
            word.fetch_or(bit_of(number), SeqCst);
        }
    }

    /// Sets the bit where it is 0. A bit that is set costs one load, so that threads which set it again and again share its
    /// cache line.
    pub fn ensure(&self, number: u32) {
        if !self.is_set(number) {
            self.set(number);
        }
    }

    /// The bits of the word of this number as they were. The number's own is 0 afterwards.
    pub fn clear(&self, number: u32) -> u64 {
        match self.words.get((number / WORD) as usize) {
            Some(word) => word.fetch_and(!bit_of(number), SeqCst),
            None => 0,
        }
    }

    /// Whether the bit was set. It is 0 afterwards. A bit that is 0 costs one load.
    pub fn take(&self, number: u32) -> bool {
        self.is_set(number) && self.clear(number) & bit_of(number) != 0
    }

    /// Whether no bit of the number's word is set, once its own was cleared.
    pub fn clear_to_none(&self, number: u32) -> bool {
        self.clear(number) & !bit_of(number) == 0
    }
}
