//! Keys and values of cases: texts, or numbers.

use crate::stop::Stop;
use case_files::{Line, push_spelled};
use far_object::{FarObject, Text, TextFault};
use std::alloc::{AllocError, Global};
use std::fmt::Write;

/// What is written as a word of a case.
pub trait Datum: FarObject {
    /// The one that a word stands for.
    fn of_word(alloc: Global, word: &[u8]) -> Result<Self, Stop>;

    /// The one that stands for this number.
    fn of_number(alloc: Global, number: u64) -> Result<Self, Stop>;

    /// Writes it as a word.
    fn spell(&self, out: &mut String) -> Result<(), AllocError>;
}

impl Datum for Text {
    fn of_word(alloc: Global, word: &[u8]) -> Result<Text, Stop> {
        match Text::new(alloc, word) {
            Ok(text) => Ok(text),
            Err(TextFault::TooLong) => Err(Stop::Mistake("a text has at most 65,535 bytes")),
            Err(_) => Err(Stop::Memory),
        }
    }

    fn of_number(alloc: Global, number: u64) -> Result<Text, Stop> {
        let digits = format!(in alloc; "{number}")?;
        Text::of_word(alloc, digits.as_bytes())
    }

    fn spell(&self, out: &mut String) -> Result<(), AllocError> {
        push_spelled(out, self.as_bytes())
    }
}

impl Datum for u64 {
    fn of_word(_alloc: Global, word: &[u8]) -> Result<u64, Stop> {
        let number = match str::from_utf8(word) {
            Ok(text) => text.parse::<u64>().ok(),
            Err(_) => None,
        };
        number.ok_or(Stop::Mistake("a key and a value are numbers here"))
    }

    fn of_number(_alloc: Global, number: u64) -> Result<u64, Stop> {
        Ok(number)
    }

    fn spell(&self, out: &mut String) -> Result<(), AllocError> {
        let number = *self;
        match write!(out, "{number}") {
            Ok(()) => Ok(()),
            Err(_) => Err(AllocError),
        }
    }
}

/// The key or the value at a place of the line.
pub fn datum_at<T: Datum>(alloc: Global, line: &Line, place: usize) -> Result<T, Stop> {
    match line.word(place) {
        Some(word) => T::of_word(alloc, word),
        None => Err(Stop::Mistake("a word is missing")),
    }
}

/// The value at a place of the line that is expected, where `none` stands for none.
pub fn expected_at<T: Datum>(alloc: Global, line: &Line, place: usize) -> Result<Option<T>, Stop> {
    match line.word(place) {
        Some(b"none") => Ok(None),
        Some(word) => Ok(Some(T::of_word(alloc, word)?)),
        None => Err(Stop::Mistake("a word is missing")),
    }
}

/// The number at a place of the line.
pub fn number_at(line: &Line, place: usize) -> Result<u64, Stop> {
    line.number_at(place)
        .ok_or(Stop::Mistake("a number is missing"))
}

/// The frame at a place of the line.
pub fn frame_at(line: &Line, place: usize) -> Result<u32, Stop> {
    let number = number_at(line, place)?;
    match u32::try_from(number) {
        Ok(frame) => Ok(frame),
        Err(_) => Err(Stop::Mistake("a frame's number is below 2^32")),
    }
}
