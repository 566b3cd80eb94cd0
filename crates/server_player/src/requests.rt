//! The words of a line as a request.

use anyhow::{Result, bail};
use std::alloc::{AllocError, Global};

/// The most bytes of a value that a word `{N}` stands for.
const LONGEST: usize = 1 << 20;

/// Whether a line that begins with this word is a request, and no call of the player.
pub fn is_request(word: &[u8]) -> bool {
    match word.first() {
        Some(byte) => byte.is_ascii_uppercase(),
        None => false,
    }
}

/// How many bytes a word `{N}` stands for.
fn long_in(word: &[u8]) -> Option<usize> {
    let digits = word.strip_prefix(b"{")?.strip_suffix(b"}")?;
    str::from_utf8(digits).ok()?.parse::<usize>().ok()
}

fn push_head(alloc: Global, out: &mut Vec<u8>, mark: char, count: usize) -> Result<(), AllocError> {
    let head = format!(in alloc; "{mark}{count}\r\n")?;
    out.extend_from_slice(head.as_bytes())
}

/// Adds an argument: a word, or N times the letter `x` where it is `{N}`.
fn push_argument(alloc: Global, out: &mut Vec<u8>, word: &[u8]) -> Result<()> {
    match long_in(word) {
        None => {
            push_head(alloc, out, '$', word.len())?;
            out.extend_from_slice(word)?;
        }
        Some(len) if len <= LONGEST => {
            push_head(alloc, out, '$', len)?;
            for _ in 0..len {
                out.push(b'x')?;
            }
        }
        Some(_) => bail!("a word stands for at most {LONGEST} bytes"),
    }
    out.extend_from_slice(b"\r\n")?;
    Ok(())
}

/// A request of these words.
pub fn request_of(alloc: Global, words: &[Vec<u8>]) -> Result<Vec<u8>> {
    let mut out = Vec::new(alloc);
    push_head(alloc, &mut out, '*', words.len())?;
    for word in words {
        push_argument(alloc, &mut out, word.as_slice())?;
    }
    Ok(out)
}
