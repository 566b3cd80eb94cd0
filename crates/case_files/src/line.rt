//! A line that calls something.
//!
//! A word that no call reads would be one that its writer believes in: a misspelt setting, say. So a line notes which of its words were
//! read, and whether its thread was, and `Playing::tell` refuses a line of which one was not.

use std::sync::atomic::Ordering::Relaxed;
use std::sync::atomic::{AtomicBool, AtomicU64};

/// A call, with what it is given and what it has to reply.
#[derive(Drop)]
pub struct Line {
    /// Where it stands in its file, counted from 1.
    pub number: u32,
    /// The name of the thread that makes the call, which is empty where none is named.
    pub(crate) thread: Vec<u8>,
    /// The call's name and what it is given.
    pub words: Vec<Vec<u8>>,
    /// The lines behind it that begin with `|`, each with an LF.
    pub text: Vec<u8>,
    /// What it has to reply: what stands behind `->`, and the lines behind it that begin with `>`, with an LF between two.
    pub reply: Vec<u8>,
    /// The lines of one block are played side by side. Blocks are counted from 1 in each case, and 0 is of no block.
    pub block: u32,
    /// A bit for each of the first 63 words that was read, the lowest for the call's name, and one for all others.
    pub(crate) read: AtomicU64,
    pub(crate) is_thread_read: AtomicBool,
}

/// How often a call may be told to do something: a case that is mistyped ends too.
pub const MOST_TIMES: u64 = 1_000_000;

/// The bit of a word by its place.
fn bit(place: usize) -> u64 {
    1u64.checked_shl(place.min(63) as u32).unwrap_or(0)
}

impl Line {
    /// The call's name, which is empty where it is no text.
    pub fn call(&self) -> &str {
        self.text_at(0).unwrap_or("")
    }

    /// The name of the thread that makes the call, which is empty where none is named.
    pub fn thread(&self) -> &[u8] {
        self.is_thread_read.store(true, Relaxed);
        self.thread.as_slice()
    }

    /// How many words stand behind the call's name.
    pub fn count(&self) -> usize {
        self.words.len().saturating_sub(1)
    }

    fn note(&self, place: usize) {
        let _ = self.read.fetch_or(bit(place), Relaxed);
    }

    /// A word by its place. The call's name is at 0.
    pub fn word(&self, place: usize) -> Option<&[u8]> {
        let word = self.words.get(place)?;
        self.note(place);
        Some(word.as_slice())
    }

    /// The words from this place on.
    pub fn rest(&self, place: usize) -> &[Vec<u8>] {
        for at in place..self.words.len() {
            self.note(at);
        }
        self.words.get(place..).unwrap_or(&[])
    }

    /// Whether the word of this place is this one. Another is not read by it.
    pub fn is(&self, place: usize, word: &str) -> bool {
        match self.words.get(place) {
            Some(it) if it.as_slice() == word.as_bytes() => {
                self.note(place);
                true
            }
            _ => false,
        }
    }

    /// Whether one of the words behind the call's name is this one.
    pub fn has(&self, word: &str) -> bool {
        for (place, it) in self.words.iter().enumerate() {
            if place != 0 && it.as_slice() == word.as_bytes() {
                self.note(place);
                return true;
            }
        }
        false
    }

    /// The first word that was not read, where there is one.
    pub fn unread(&self) -> Option<&[u8]> {
        let read = self.read.load(Relaxed) | 1;
        for (place, word) in self.words.iter().enumerate() {
            if read & bit(place) == 0 {
                return Some(word.as_slice());
            }
        }
        None
    }

    /// The name of its thread, where one is named that was not read.
    pub fn unread_thread(&self) -> Option<&[u8]> {
        if self.thread.is_empty() || self.is_thread_read.load(Relaxed) {
            return None;
        }
        Some(self.thread.as_slice())
    }

    /// A word by its place, where it is text.
    pub fn text_at(&self, place: usize) -> Option<&str> {
        str::from_utf8(self.word(place)?).ok()
    }

    /// A word by its place, where it is a number.
    pub fn number_at(&self, place: usize) -> Option<u64> {
        self.text_at(place)?.parse::<u64>().ok()
    }

    /// A word by its place, where it says how often something is done, which is at most `MOST_TIMES`.
    pub fn times_at(&self, place: usize) -> Option<u32> {
        match self.number_at(place) {
            Some(times) if times <= MOST_TIMES => Some(times as u32),
            _ => None,
        }
    }

    /// What stands behind `NAME=` in the first word that begins so.
    pub fn named(&self, name: &str) -> Option<&[u8]> {
        for (place, word) in self.words.iter().enumerate() {
            let rest = word.as_slice().strip_prefix(name.as_bytes());
            if let Some(rest) = rest {
                if let Some((b'=', value)) = rest.split_first() {
                    self.note(place);
                    return Some(value);
                }
            }
        }
        None
    }

    /// The number behind `NAME=`, or this one where there is no such word, or none where it is no number.
    pub fn number_named(&self, name: &str, otherwise: u64) -> Option<u64> {
        match self.named(name) {
            None => Some(otherwise),
            Some(value) => str::from_utf8(value).ok()?.parse::<u64>().ok(),
        }
    }
}
