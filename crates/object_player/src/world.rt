//! What the players of the layer share: what a line gives, how replies are spelled, and the loop over the lines.

use anyhow::{Result, bail};
use case_files::{Line, MOST_TIMES, Playing, push_spelled};
use std::alloc::Global;
use std::fmt::Display;

/// How often a reply is begun: a growth of its own may be refused when the call is done, and can't be made again.
pub(crate) const TRIES: u32 = 2;

/// Longer bytes are told in runs of equal ones.
const LONG: usize = 100;

/// The most bytes that a line may ask for by `bytes=`.
const MOST_FILLED: u64 = 1 << 27;

/// What was opened, and answers calls.
pub(crate) trait World {
    fn call(&mut self, line: &Line) -> Result<String>;
}

/// Plays the rest of the case. A call that was refused a growth is made once more.
pub(crate) fn run<W: World>(alloc: Global, first: &Line, playing: &mut Playing<'_>, world: &mut W) {
    playing.tell(first, Ok(String::new(alloc)));
    for _ in 0..playing.case().lines.len() {
        let Some(line) = playing.next() else {
            return;
        };
        for _ in 0..2 {
            let reply = refused_or(alloc, world.call(line));
            if !playing.tell(line, reply) {
                break;
            }
        }
    }
}

/// The reply, but `memory` where a growth was refused to the player itself before it made the call.
pub(crate) fn refused_or(alloc: Global, reply: Result<String>) -> Result<String> {
    match reply {
        Ok(reply) => Ok(reply),
        Err(mistake) => {
            let told = format!(in alloc; "{mistake}")?;
            match told.as_str() {
                "memory allocation failed" | "out of memory" => memory(alloc),
                _ => Err(mistake),
            }
        }
    }
}

/// A mistake: what was opened has no such call.
pub(crate) fn unknown(line: &Line) -> Result<String> {
    bail!("no such call: {}", line.call())
}

pub(crate) fn word(line: &Line, at: usize) -> Result<&[u8]> {
    match line.word(at) {
        Some(word) => Ok(word),
        None => bail!("a word is missing at {at}"),
    }
}

/// The word of this place, or none where there is none or it is `none`.
pub(crate) fn optional(line: &Line, at: usize) -> Option<&[u8]> {
    match line.word(at) {
        Some(word) if word != b"none".as_slice() => Some(word),
        _ => None,
    }
}

pub(crate) fn number(line: &Line, at: usize) -> Result<u64> {
    match line.number_at(at) {
        Some(number) => Ok(number),
        None => bail!("a number below 2^64 is missing at {at}"),
    }
}

/// A number of 32 bits.
pub(crate) fn small(line: &Line, at: usize) -> Result<u32> {
    match u32::try_from(number(line, at)?) {
        Ok(number) => Ok(number),
        Err(_) => bail!("the number at {at} has more than 32 bits"),
    }
}

/// How often this word of the line says that something is done.
pub(crate) fn times(line: &Line, at: usize) -> Result<u32> {
    match line.times_at(at) {
        Some(times) => Ok(times),
        None => bail!("a number of at most {MOST_TIMES} is missing at {at}"),
    }
}

/// The number of 32 bits behind `NAME=`.
pub(crate) fn named(line: &Line, name: &str, otherwise: u32) -> Result<u32> {
    match line.number_named(name, u64::from(otherwise)) {
        Some(number) if number <= 0xffff_ffff => Ok(number as u32),
        _ => bail!("no number of 32 bits stands behind {name}="),
    }
}

/// The word of this place, if there is one, and behind it as many bytes as `bytes=` says, each of the value that `byte=` says.
pub(crate) fn bytes(alloc: Global, line: &Line, at: usize) -> Result<Vec<u8>> {
    let mut out = Vec::new(alloc);
    if let Some(word) = line.word(at) {
        if !word.starts_with(b"bytes=") && !word.starts_with(b"byte=") {
            out.extend_from_slice(word)?;
        }
    }
    let byte = match named(line, "byte", 7)? {
        byte if byte < 256 => byte as u8,
        _ => bail!("byte= is below 256"),
    };
    match line.number_named("bytes", 0) {
        Some(count) if count <= MOST_FILLED => {
            let len = out.len().saturating_add(count as usize);
            out.resize(len, byte)?;
            Ok(out)
        }
        _ => bail!("bytes= is at most {MOST_FILLED}"),
    }
}

pub(crate) fn nothing(alloc: Global) -> Result<String> {
    Ok(String::new(alloc))
}

pub(crate) fn text(alloc: Global, text: &str) -> Result<String> {
    for _ in 0..TRIES {
        if let Ok(out) = String::from_str(alloc, text) {
            return Ok(out);
        }
    }
    bail!("out of memory")
}

/// What a call replies to which a growth was refused.
pub(crate) fn memory(alloc: Global) -> Result<String> {
    text(alloc, "memory")
}

pub(crate) fn shown<T: Display>(alloc: Global, value: &T) -> Result<String> {
    for _ in 0..TRIES {
        if let Ok(out) = format!(in alloc; "{value}") {
            return Ok(out);
        }
    }
    memory(alloc)
}

/// A fault's own text, but `memory` where a growth was refused.
pub(crate) fn fault<T: Display>(alloc: Global, fault: &T) -> Result<String> {
    let told = format!(in alloc; "{fault}")?;
    if told.as_str() == "out of memory" {
        return memory(alloc);
    }
    Ok(told)
}

pub(crate) fn flag(alloc: Global, flag: bool) -> Result<String> {
    text(alloc, if flag { "true" } else { "false" })
}

/// Puts the bytes behind the reply: as a word, or where they are long as `BYTE*COUNT` for each run of equal ones.
pub(crate) fn push_bytes(out: &mut String, bytes: &[u8]) -> Result<()> {
    if bytes.len() <= LONG {
        push_spelled(out, bytes)?;
        return Ok(());
    }
    let mut run: Option<(u8, u64)> = None;
    for byte in bytes {
        match run {
            Some((last, count)) if last == *byte => run = Some((last, count.saturating_add(1))),
            Some((last, count)) => {
                push_run(out, last, count)?;
                out.push(' ')?;
                run = Some((*byte, 1));
            }
            None => run = Some((*byte, 1)),
        }
    }
    if let Some((last, count)) = run {
        push_run(out, last, count)?;
    }
    Ok(())
}

fn push_run(out: &mut String, byte: u8, count: u64) -> Result<()> {
    let alloc = *out.allocator();
    out.push_str(format!(in alloc; "{byte}*{count}")?.as_str())?;
    Ok(())
}

/// The bytes as a reply.
pub(crate) fn told(alloc: Global, bytes: &[u8]) -> Result<String> {
    let mut out = String::new(alloc);
    push_bytes(&mut out, bytes)?;
    Ok(out)
}

/// The bytes as a reply, or `none`.
pub(crate) fn told_if(alloc: Global, bytes: Option<&[u8]>) -> Result<String> {
    match bytes {
        Some(bytes) => told(alloc, bytes),
        None => text(alloc, "none"),
    }
}
