//! Which frames are free, as hints: nothing is claimed of them.
//!
//! # Three layers
//!
//! There is a bit for each frame, one for each word of 64 of these, and one for each group of 64 words. So the first free
//! frame is found by few loads at any number of frames, and so is that there is none: at 2^22 frames 17 words lie on top, and
//! below 2^18 one.
//!
//! # Who clears an upper bit looks again
//!
//! A frame is named from the lowest layer upwards. Whoever takes the last frame of a word clears the word's bit, looks at the
//! word again, and names it again where a frame was freed in between; and so for the last word of a group. At rest the upper
//! layers lead to each named frame; a bit there may be missing for a moment, while somebody is about to look again.
//!
//! # Their number
//!
//! No count is kept: each thread that takes or frees a frame would write it. `count` looks at 1,024 words of 64 frames at
//! most, which are all of them up to 65,536 frames.

use crate::bits::{Bits, WORD};
use std::alloc::{AllocError, Global};

/// How many words a count of the free frames looks at at most, but for one.
const MOST_COUNTED: u32 = 1_024;

/// How many groups that are named without need a search passes at most: a group is so only while some thread takes its last
/// word, or names its first.
const MOST_GROUPS: u32 = 1_024;

/// The frames that are free. A frame may be named for a moment that is gone, or not yet free.
#[derive(Drop)]
pub struct Vacant {
    frames: Bits,
    words: Bits,
    groups: Bits,
    // How many words of 64 frames there are.
    len: u32,
}

// How many words of 64 bits so many bits take.
fn words_of(count: u32) -> u32 {
    count / WORD + (count % WORD).min(1)
}

impl Vacant {
    /// All frames below the count.
    pub fn all(alloc: Global, count: u32) -> Result<Vacant, AllocError> {
        let words = words_of(count);
        Ok(Vacant {
            frames: Bits::full(alloc, count)?,
            words: Bits::full(alloc, words)?,
            groups: Bits::full(alloc, words_of(words))?,
            len: words,
        })
    }

    /// The frame is free.
    pub fn set(&self, frame: u32) {
        self.frames.set(frame);
        self.ensure_word(frame / WORD);
    }

    // The upper layers lead to the word.
    fn ensure_word(&self, word: u32) {
        self.words.ensure(word);
        self.groups.ensure(word / WORD);
    }

    /// The frame is taken. Where it wasn't named, this costs one load, and others keep their copy of the word.
    pub fn clear(&self, frame: u32) {
        if !self.frames.is_set(frame) {
            return;
        }
        if self.frames.clear_to_none(frame) {
            self.clear_word(frame / WORD);
        }
    }

    // No frame of the word was named. One that was freed in between is led to again.
    fn clear_word(&self, word: u32) {
        if self.words.clear_to_none(word) {
            self.clear_group(word / WORD);
        }
        if self.frames(word) != 0 {
            self.ensure_word(word);
        }
    }

    // No word of the group was named. One that was named in between is led to again.
    fn clear_group(&self, group: u32) {
        self.groups.clear(group);
        if self.words.load(group as usize) != 0 {
            self.groups.ensure(group);
        }
    }

    /// How many frames are named. Of more than 1,024 words one of so many is looked at, and the others are taken to be like it.
    pub fn count(&self) -> u32 {
        let step = self.len / MOST_COUNTED + (self.len % MOST_COUNTED).min(1);
        let step = step.max(1);
        let mut count = 0u32;
        for at in 0..self.len / step + 1 {
            count = count.wrapping_add(self.frames(at.wrapping_mul(step)).count_ones());
        }
        count.wrapping_mul(step)
    }

    /// Which of the 64 frames of the word are named.
    pub fn frames(&self, word: u32) -> u64 {
        self.frames.load(word as usize)
    }

    /// The first word from this one on that the upper layers lead to.
    pub fn next_word(&self, word: u32) -> Option<u32> {
        if let Some(found) = self.words.next_in_word(word) {
            return Some(found);
        }
        let mut group = word / WORD;
        for _ in 0..MOST_GROUPS {
            group = self.next_group(group.wrapping_add(1))?;
            if let Some(found) = self.words.next_in_word(group.wrapping_mul(WORD)) {
                return Some(found);
            }
        }
        None
    }

    // The first group from this one on that is named.
    fn next_group(&self, group: u32) -> Option<u32> {
        if let Some(found) = self.groups.next_in_word(group) {
            return Some(found);
        }
        for at in group / WORD + 1..self.groups.len() {
            if let Some(found) = self.groups.next_in_word(at.wrapping_mul(WORD)) {
                return Some(found);
            }
        }
        None
    }
}
