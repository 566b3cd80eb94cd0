//! How values compare, in each way in which they can be compared.

use crate::encodings::encoding;
use crate::values::Value;
use crate::world::{named, shown, small, text, word};
use anyhow::{Result, bail};
use case_files::Line;
use far_object::{FarObject, Text, compare_bytes};
use std::alloc::Global;
use std::cmp::Ordering;

/// The most bytes of a list: two steps of eight, and one byte more.
const MOST: usize = 17;

/// Bytes in rising order, which are in another one as signed numbers.
const RISING: [u8; 4] = [0x00, 0x7f, 0x80, 0xff];

fn told(alloc: Global, outcome: Ordering) -> Result<String> {
    match outcome {
        Ordering::Less => text(alloc, "less"),
        Ordering::Equal => text(alloc, "equal"),
        Ordering::Greater => text(alloc, "greater"),
    }
}

fn encoded<V: FarObject>(alloc: Global, value: &V) -> Result<Vec<u8>> {
    match encoding(alloc, value)? {
        Some(bytes) => Ok(bytes),
        None => bail!("out of memory"),
    }
}

/// How the two compare: as values, as a value beside bytes, and as lists of bytes, and the other way round. The six have to agree.
fn outcome<V: FarObject>(alloc: Global, one: &V, two: &V) -> Result<Ordering> {
    let (own, other) = (encoded(alloc, one)?, encoded(alloc, two)?);
    let found = [
        one.compare_to_bytes(other.as_slice()),
        compare_bytes(own.as_slice(), other.as_slice()),
        two.compare(one).reverse(),
        two.compare_to_bytes(own.as_slice()).reverse(),
        compare_bytes(other.as_slice(), own.as_slice()).reverse(),
    ];
    let first = one.compare(two);
    for outcome in &found {
        if *outcome != first {
            bail!("the ways to compare do not agree");
        }
    }
    Ok(first)
}

/// How the two values of the line compare.
pub(crate) fn compare<V: Value>(alloc: Global, line: &Line) -> Result<String> {
    let (one, two) = (V::of(alloc, word(line, 1)?)?, V::of(alloc, word(line, 2)?)?);
    told(alloc, outcome(alloc, &one, &two)?)
}

/// The value beside each shorter beginning of its encoding, which it comes behind, and beside its encoding with a byte behind it.
pub(crate) fn cut_and_longer<V: FarObject>(alloc: Global, value: &V) -> Result<String> {
    let mut written = encoded(alloc, value)?;
    let mut count = 0u64;
    for end in 0..written.len() {
        let part = written.as_slice().get(..end).unwrap_or(&[]);
        if value.compare_to_bytes(part) != Ordering::Greater {
            bail!("not greater than its first {end} bytes");
        }
        count = count.saturating_add(1);
    }
    written.push(0)?;
    if value.compare_to_bytes(written.as_slice()) != Ordering::Less {
        bail!("not less than its bytes and one more");
    }
    Ok(format!(in alloc; "greater than {count}, less than 1")?)
}

/// Whether the one text is less than the other.
fn is_less(alloc: Global, one: &[u8], other: &[u8]) -> Result<bool> {
    let (one, other) = (
        <Text as Value>::of(alloc, one)?,
        <Text as Value>::of(alloc, other)?,
    );
    Ok(outcome(alloc, &one, &other)? == Ordering::Less)
}

/// A list that is alike before the place, has this byte there, and behind it others.
fn list(alloc: Global, place: usize, here: u8, behind: u8) -> Result<Vec<u8>> {
    let mut list = Vec::new(alloc);
    list.resize(place, 0x80)?;
    list.push(here)?;
    list.resize(MOST, behind)?;
    Ok(list)
}

/// Compares the fronts of two lists that are alike before their place and differ there, from that place on.
fn compare_at(alloc: Global, place: usize, lists: (&Vec<u8>, &Vec<u8>)) -> Result<u64> {
    let mut count = 0u64;
    for end in place.saturating_add(1)..MOST.saturating_add(1) {
        let one = lists.0.as_slice().get(..end).unwrap_or(&[]);
        let other = lists.1.as_slice().get(..end).unwrap_or(&[]);
        if !is_less(alloc, one, other)? {
            bail!("{end} bytes that differ at {place} are not less");
        }
        count = count.saturating_add(1);
    }
    Ok(count)
}

/// Lists that are alike before this place, and of which the first is lower there, by each pair of the bytes that rise. What is
/// behind the place is `low=` in the lower one and `high=` in the other. Replies how many were compared.
pub(crate) fn rising(alloc: Global, line: &Line) -> Result<String> {
    let place = small(line, 1)?;
    let (low, high) = (named(line, "low", 0x80)?, named(line, "high", 0x80)?);
    if place > 16 || low > 255 || high > 255 {
        bail!("a place is below 17, and a byte below 256");
    }
    let place = place as usize;
    let mut count = 0u64;
    for (i, lower) in RISING.iter().enumerate() {
        for higher in RISING.iter().skip(i.saturating_add(1)) {
            let one = list(alloc, place, *lower, low as u8)?;
            let other = list(alloc, place, *higher, high as u8)?;
            count = count.saturating_add(compare_at(alloc, place, (&one, &other))?);
        }
    }
    Ok(format!(in alloc; "less {count} times")?)
}

/// Lists of one byte: each is equal to itself, and less than each longer one. Replies how many were compared.
pub(crate) fn fronts(alloc: Global, line: &Line) -> Result<String> {
    let Some(byte) = word(line, 1)?.first() else {
        bail!("a byte is missing");
    };
    let mut bytes = Vec::new(alloc);
    bytes.resize(MOST, *byte)?;
    let mut count = 0u64;
    for long in 0..MOST.saturating_add(1) {
        let whole = <Text as Value>::of(alloc, bytes.as_slice().get(..long).unwrap_or(&[]))?;
        for short in 0..long.saturating_add(1) {
            let part = <Text as Value>::of(alloc, bytes.as_slice().get(..short).unwrap_or(&[]))?;
            let wanted = if short == long {
                Ordering::Equal
            } else {
                Ordering::Less
            };
            if outcome(alloc, &part, &whole)? != wanted {
                bail!("{short} bytes beside {long}");
            }
            count = count.saturating_add(1);
        }
    }
    shown(alloc, &count)
}
