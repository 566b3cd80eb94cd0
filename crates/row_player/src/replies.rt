//! What calls are given, and how they reply.
ghost use Rattle.std.specs.Prelude.{◌≤◌, IfOk};

use anyhow::{Result, bail};
use case_files::{Line, Playing};
use std::alloc::Global;

/// Room for a reply, which is asked for before the call is made: so no reply is lost behind it.
const ROOM: usize = 400;

/// What a call replies where a growth was refused.
const MEMORY: &str = "memory";

/// The number at this place.
pub fn number(line: &Line, place: usize) -> Result<u64> {
    match line.number_at(place) {
        Some(number) => Ok(number),
        None => bail!("word {place} behind the call has to be a number"),
    }
}

/// The number below 2^32 at this place.
pub fn small(line: &Line, place: usize) -> Result<u32> {
    let number = number(line, place)?;
    if number > 4_294_967_295 {
        bail!("word {place} behind the call has to be below 2^32");
    }
    Ok(number as u32)
}

/// The number behind `NAME=`, at most this one, or the other where there is no such word.
pub fn named(line: &Line, name: &str, most: u64, otherwise: u64) -> Result<u64>
    ensures { IfOk result (λ number. number ≤ most) }
{
    match line.number_named(name, otherwise) {
        Some(number) if number <= most => Ok(number),
        _ => bail!("{name}= has to be a number that is at most {most}"),
    }
}

/// The word at this place.
pub fn word(line: &Line, place: usize) -> Result<&[u8]> {
    match line.word(place) {
        Some(word) => Ok(word),
        None => bail!("word {place} behind the call is missing"),
    }
}

/// The value at this place, which is one byte.
pub fn byte(line: &Line, place: usize) -> Result<u8> {
    match word(line, place)? {
        [byte] => Ok(*byte),
        _ => bail!("word {place} behind the call has to be of one byte"),
    }
}

/// Replies that a growth was refused.
pub fn refused(out: &mut String) -> Result<()> {
    out.push_str(MEMORY)?;
    Ok(())
}

/// The same, of a call that has not begun.
pub fn memory(alloc: Global) -> Result<String> {
    Ok(String::from_str(alloc, MEMORY)?)
}

/// Room for the reply of a call.
pub fn room(alloc: Global) -> Result<String> {
    Ok(String::with_capacity(alloc, ROOM)?)
}

/// Says that the line is no call of what is open.
pub fn mistaken(line: &Line, playing: &mut Playing<'_>) {
    playing.tell(line, no_call(line));
}

/// There is no such call.
pub fn no_call<T>(line: &Line) -> Result<T> {
    bail!(
        "tests/cases/row/README.md names no call `{}` here",
        line.call()
    )
}

/// No caller could be opened.
pub fn no_pass<T>() -> Result<T> {
    bail!("no pass is left")
}

/// What is said of an opening: nothing, want of memory, or that it can't be made. Answers whether it has to be made once more.
pub fn tell_opened(
    alloc: Global,
    opening: &Line,
    playing: &mut Playing<'_>,
    is_open: bool,
) -> bool {
    let reply = if is_open {
        Ok(String::new(alloc))
    } else {
        memory(alloc)
    };
    playing.tell(opening, reply)
}
