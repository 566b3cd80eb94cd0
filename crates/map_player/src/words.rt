//! Keys and values, as words and as replies.

use crate::replies::{Said, Stop, own, plain};
use case_files::{Line, push_spelled};
use far_map::{Text, Value, text};
use std::alloc::Global;

/// The most bytes that `BYTE*COUNT` stands for.
const MOST: u64 = 20_000_000;

/// A value of more bytes than this one is spelled as `BYTE*COUNT`, where all its bytes are the same.
const LONG: usize = 64;

/// What `BYTE*COUNT` stands for: a byte, and how often it comes.
fn repeated(word: &[u8]) -> Option<(u8, u64)> {
    let (byte, rest) = word.split_first()?;
    let digits = rest.strip_prefix(b"*")?;
    let count = str::from_utf8(digits).ok()?.parse::<u64>().ok()?;
    Some((*byte, count))
}

/// The value that a word stands for.
pub fn value<V: Value>(alloc: Global, word: &[u8]) -> Result<V, Stop> {
    let Some((byte, count)) = repeated(word) else {
        return own(V::from_bytes(alloc, word));
    };
    if count > MOST {
        return Err(Stop::Mistake("a value has at most 20000000 bytes"));
    }
    let mut bytes = Vec::new(alloc);
    bytes.resize(count as usize, byte)?;
    own(V::from_bytes(alloc, bytes.as_slice()))
}

/// The value of this word of the line.
pub fn value_at<V: Value>(alloc: Global, line: &Line, place: usize) -> Result<V, Stop> {
    match line.word(place) {
        Some(word) => value(alloc, word),
        None => Err(Stop::Mistake("the call wants one more word, a value")),
    }
}

/// The key of this word of the line.
pub fn key_at(alloc: Global, line: &Line, place: usize) -> Result<Text, Stop> {
    match line.word(place) {
        Some(word) => own(text(alloc, word)),
        None => Err(Stop::Mistake("the call wants one more word, a key")),
    }
}

/// The number of this word of the line.
pub fn number_at(line: &Line, place: usize) -> Result<u32, Stop> {
    let number = line
        .number_at(place)
        .and_then(|number| u32::try_from(number).ok());
    number.ok_or(Stop::Mistake("the call wants one more word, a number below 2^32"))
}

/// How often this word of the line says that something is done.
pub fn times_at(line: &Line, place: usize) -> Result<u32, Stop> {
    line.times_at(place).ok_or(Stop::Mistake(
        "the call wants one more word, a number of at most 1,000,000",
    ))
}

/// The number behind `NAME=`, or this one.
pub fn number_named(line: &Line, name: &str, otherwise: u32) -> Result<u32, Stop> {
    let number = line.number_named(name, u64::from(otherwise));
    let number = number.and_then(|number| u32::try_from(number).ok());
    number.ok_or(Stop::Mistake("what stands behind = is a number below 2^32"))
}

/// Whether the word behind `NAME=` is `yes`.
pub fn is_named(line: &Line, name: &str) -> bool {
    line.named(name) == Some(b"yes".as_slice())
}

/// The number as a text.
pub fn number(alloc: Global, number: u32) -> Result<Text, Stop> {
    let digits = format!(in alloc; "{number}")?;
    own(text(alloc, digits.as_bytes()))
}

/// The number as a value.
pub fn number_value<V: Value>(alloc: Global, number: u32) -> Result<V, Stop> {
    let digits = format!(in alloc; "{number}")?;
    own(V::from_bytes(alloc, digits.as_bytes()))
}

/// The number that has these digits. What is no number gives some number.
pub fn read_number(digits: &[u8]) -> u32 {
    let mut number = 0u32;
    for byte in digits {
        let digit = u32::from(byte.wrapping_sub(b'0'));
        number = number.wrapping_mul(10).wrapping_add(digit);
    }
    number
}

/// Whether the bytes are many, and all the same.
fn is_long(bytes: &[u8]) -> bool {
    match bytes.first() {
        Some(first) => bytes.len() > LONG && bytes.iter().all(|byte| byte == first),
        None => false,
    }
}

/// Writes a value's bytes.
pub fn push_bytes(out: &mut String, bytes: &[u8]) -> Result<(), Stop> {
    if !is_long(bytes) {
        return Ok(push_spelled(out, bytes)?);
    }
    push_spelled(out, bytes.get(..1).unwrap_or(&[]))?;
    write!(out, "*{}", bytes.len())?;
    Ok(())
}

/// A value's bytes.
pub fn bytes_said(alloc: Global, bytes: &[u8]) -> Said {
    let mut out = String::new(alloc);
    push_bytes(&mut out, bytes)?;
    Ok(out)
}

/// A value, or `none`.
pub fn value_said<V: Value>(alloc: Global, value: &Option<V>) -> Said {
    match value {
        Some(value) => bytes_said(alloc, value.as_bytes()),
        None => plain(alloc, "none"),
    }
}
