//! How a free frame is found by the hints.
ghost use Rattle.std.specs.Prelude.{◌<◌, IfOk, IfSome};

use super::Frames;
use crate::bits::WORD;
use crate::fault::NoFrame;
use crate::reserved_frame::Reserved;
use far_object::FarObject;
use version_words::Naming;

/// How many words of 64 frames a search by the upper layers looks at at most. It goes on behind a word only where each frame
/// that the word names is on its way from one thread to another.
const MOST_WORDS: u32 = 1_024;

impl<K: FarObject, V: FarObject, J: Naming> Frames<K, V, J> {
    // The first of the 64 frames of this word that is named as free, and is.
    fn reserve_in(&self, word: u32) -> Option<Reserved<'_, K, V, J>>
        ensures { IfSome result (λ reserved. reserved < self.now) }
    {
        let mut bits = self.vacant.frames(word);
        for _ in 0..WORD {
            if bits == 0 {
                return None;
            }
            let frame = word.wrapping_mul(WORD).wrapping_add(bits.trailing_zeros());
            if let Some(reserved) = self.reserve_free(frame) {
                return Some(reserved);
            }
            bits &= bits - 1;
        }
        None
    }

    // The first frame in the words from this one on and below the end that the upper layers lead to.
    fn reserve_between(&self, word: u32, end: u32) -> Option<Reserved<'_, K, V, J>>
        ensures { IfSome result (λ reserved. reserved < self.now) }
    {
        let mut word = word;
        for _ in 0..MOST_WORDS {
            word = self.vacant.next_word(word)?;
            if word >= end {
                return None;
            }
            if let Some(reserved) = self.reserve_in(word) {
                return Some(reserved);
            }
            word = word.wrapping_add(1);
        }
        None
    }

    // The first frame that is named, whether the upper layers lead there or not. Each free frame is named in the lowest layer,
    // so if none is returned, each was taken when this came to it.
    fn reserve_passed_over(&self) -> Option<Reserved<'_, K, V, J>>
        ensures { IfSome result (λ reserved. reserved < self.now) }
    {
        for word in 0..self.count() / WORD + 1 {
            if let Some(reserved) = self.reserve_in(word) {
                return Some(reserved);
            }
        }
        None
    }

    /// A free frame for this call alone: the first of those that are named as free, from 0 upwards, that is.
    ///
    /// `NoFrame` is returned if each frame was taken when this call came to it. No clause says which frame comes, nor when
    /// `NoFrame` does.
    pub fn reserve(&self) -> Result<Reserved<'_, K, V, J>, NoFrame>
        ensures here { IfOk result (λ reserved. reserved < self.now) }
    {
        self.reserve_from(0)
    }

    /// As `reserve`, but the frames from this one on are looked at first, and before it those that are named by the same 64
    /// bits; then all others. Callers who begin far from one another take and clear bits of their own, and don't wait for one
    /// another. No clause says which frame comes.
    pub fn reserve_from(&self, frame: u32) -> Result<Reserved<'_, K, V, J>, NoFrame>
        ensures here { IfOk result (λ reserved. reserved < self.now) }
    {
        let word = frame / WORD;
        if let Some(reserved) = self.reserve_between(word, u32::MAX) {
            return Ok(reserved);
        }
        if let Some(reserved) = self.reserve_between(0, word) {
            return Ok(reserved);
        }
        self.reserve_passed_over().ok_or(NoFrame)
    }
}
