//! Replies as they stand in case files.

use anyhow::{Result, bail};
use case_files::push_spelled;
use resp::{Limits, Received, Span, Token, parse_token};
use std::alloc::{AllocError, Global};

/// What a reply may have.
const LIMITS: Limits = Limits {
    arguments: 1 << 20,
    bytes: 1 << 28,
    line: 1 << 16,
};

/// A reply, and how many bytes it had.
#[derive(Drop)]
pub struct Told {
    pub text: String,
    pub len: usize,
}

/// A line of text, which is spelled where a case file could not have it as it is.
fn push_text(out: &mut String, bytes: &[u8]) -> Result<(), AllocError> {
    match str::from_utf8(bytes) {
        Ok(text) if !bytes.ends_with(b" ") => out.push_str(text),
        _ => push_spelled(out, bytes),
    }
}

/// Whether these are lines that can be read, as those of INFO.
fn are_lines(bytes: &[u8]) -> bool {
    bytes.ends_with(b"\r\n")
        && bytes
            .iter()
            .all(|byte| matches!(*byte, b'\r' | b'\n' | b' '..=b'~'))
}

/// A string, as a word; or as lines where it is such.
fn push_string(out: &mut String, bytes: &[u8]) -> Result<(), AllocError> {
    if !are_lines(bytes) {
        out.push(' ')?;
        return push_spelled(out, bytes);
    }
    let bytes = bytes.strip_suffix(b"\r\n").unwrap_or(bytes);
    for line in bytes.split(|byte| *byte == b'\n') {
        out.push('\n')?;
        push_text(out, line.strip_suffix(b"\r").unwrap_or(line))?;
    }
    Ok(())
}

/// What a span has of these bytes.
fn within(bytes: &[u8], span: Span) -> &[u8] {
    bytes
        .get(span.from..)
        .and_then(|rest| rest.get(..span.len))
        .unwrap_or(b"")
}

/// Adds a token of a reply. Says how many replies follow that are of the same one.
fn push_token(
    alloc: Global,
    out: &mut String,
    bytes: &[u8],
    token: Token,
) -> Result<u64, AllocError> {
    if !out.is_empty() {
        out.push(' ')?;
    }
    match token {
        Token::Simple(span) => {
            out.push('+')?;
            push_text(out, within(bytes, span))?;
        }
        Token::Failure(span) => {
            out.push('-')?;
            push_text(out, within(bytes, span))?;
        }
        Token::Number(number) => out.push_str(format!(in alloc; ":{number}")?.as_str())?,
        Token::String(span) => {
            let len = span.len;
            out.push_str(format!(in alloc; "${len}")?.as_str())?;
            push_string(out, within(bytes, span))?;
        }
        Token::Nothing => out.push_str("$-1")?,
        Token::NoArray => out.push_str("*-1")?,
        Token::Count(count) => {
            out.push_str(format!(in alloc; "*{count}")?.as_str())?;
            return Ok(u64::from(count));
        }
    }
    Ok(0)
}

/// The reply at the front of what a server sent, where it is whole.
pub fn first_reply(alloc: Global, bytes: &[u8]) -> Result<Option<Told>> {
    let (mut text, mut len, mut wanted) = (String::new(alloc), 0usize, 1u64);
    for _ in 0..bytes.len() {
        let rest = bytes.get(len..).unwrap_or(b"");
        match parse_token(rest, LIMITS) {
            Received::Reply { token, consumed } => {
                let more = push_token(alloc, &mut text, rest, token)?;
                wanted = wanted.saturating_sub(1).saturating_add(more);
                len = len.saturating_add(consumed);
            }
            Received::Incomplete { .. } => return Ok(None),
            Received::Malformed { at } => bail!("a reply is not of the protocol, at byte {at}"),
        }
        if wanted == 0 {
            return Ok(Some(Told { text, len }));
        }
    }
    Ok(None)
}
