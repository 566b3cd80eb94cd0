//! Keys and draws as the files have them, and what memory is resident.

use anyhow::{Result, bail};
use far_object::Text;
use std::alloc::Global;
use std::fs;
use std::rt::Files;

/// For how many threads' calls a file has draws, over all runs: no run repeats what an earlier one called.
const PARTS: u32 = 25;

/// Bytes of a draw.
const DRAW: usize = 4;

/// Bytes of a key.
const KEY: usize = 16;

/// How many keys there are.
pub fn key_count(keys: &[u8]) -> usize {
    keys.len() / KEY
}

/// The key of this number.
pub fn key_at(alloc: Global, keys: &[u8], number: usize) -> Result<Text> {
    let from = number.wrapping_mul(KEY);
    match keys.get(from..from.wrapping_add(KEY)) {
        Some(bytes) => Ok(Text::new(alloc, bytes)?),
        None => bail!("a draw is of no key"),
    }
}

/// The draw of this number.
pub fn draw_at(draws: &[u8], number: usize) -> Result<u32> {
    let from = number.wrapping_mul(DRAW);
    match draws
        .get(from..)
        .and_then(|rest| rest.first_chunk::<DRAW>())
    {
        Some(bytes) => Ok(u32::from_le_bytes(*bytes)),
        None => bail!("too few draws"),
    }
}

/// How many calls a thread makes in a run.
pub fn calls_each(draws: &[u8]) -> Result<u32> {
    Ok(u32::try_from(draws.len() / (DRAW * PARTS as usize))?)
}

/// The bytes of the program that are resident.
pub fn resident<R: Alloc<A = Global> + Files>(rt: &R) -> Result<u64> {
    let text = fs::read_to_string(rt, "/proc/self/statm")?;
    match text.as_str().split(' ').nth(1) {
        Some(pages) => Ok(pages.parse::<u64>()?.wrapping_mul(4_096)),
        None => bail!("no second word in /proc/self/statm"),
    }
}
