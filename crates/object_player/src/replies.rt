//! Replies as servers spell them, written, and read token by token.

use crate::requests::{front, part};
use crate::world::{memory, nothing, number, push_bytes, unknown};
use anyhow::{Result, bail};
use case_files::Line;
use resp::{
    Limits, Received, Token, parse_token, push_count, push_failure, push_no_array, push_nothing,
    push_number, push_simple, push_string,
};
use std::alloc::Global;

/// The number that a word spells, which may be below zero.
fn signed(line: &Line) -> Result<i64> {
    match line.text_at(1).unwrap_or("").parse::<i64>() {
        Ok(number) => Ok(number),
        Err(_) => bail!("a number is missing"),
    }
}

/// Writes what the line says behind what was written.
pub(crate) fn write(alloc: Global, out: &mut Vec<u8>, line: &Line, text: &[u8]) -> Result<String> {
    let done = match line.call() {
        "push_simple" => push_simple(out, text),
        "push_failure" => push_failure(out, text),
        "push_string" => push_string(out, text),
        "push_nothing" => push_nothing(out),
        "push_no_array" => push_no_array(out),
        "push_number" => push_number(out, signed(line)?),
        "push_count" => push_count(out, number(line, 1)? as usize),
        "push_bytes" => out.extend_from_slice(text),
        _ => return unknown(line),
    };
    match done {
        Ok(()) => nothing(alloc),
        Err(_) => memory(alloc),
    }
}

/// The token, and of a text where it begins.
fn push_token(out: &mut String, bytes: &[u8], token: Token) -> Result<()> {
    let alloc = *out.allocator();
    let (kind, span) = match token {
        Token::Simple(span) => ("simple", span),
        Token::Failure(span) => ("failure", span),
        Token::String(span) => ("string", span),
        Token::Number(number) => {
            out.push_str(format!(in alloc; "number {number}")?.as_str())?;
            return Ok(());
        }
        Token::Nothing => return Ok(out.push_str("nothing")?),
        Token::Count(count) => {
            out.push_str(format!(in alloc; "count {count}")?.as_str())?;
            return Ok(());
        }
        Token::NoArray => return Ok(out.push_str("no array")?),
    };
    out.push_str(format!(in alloc; "{kind} at {} ", span.from)?.as_str())?;
    push_bytes(out, part(bytes, span)?)
}

/// What is read of the bytes.
pub(crate) fn parse(alloc: Global, limits: Limits, bytes: &[u8]) -> Result<String> {
    match parse_token(bytes, limits) {
        Received::Reply { token, consumed } => {
            let mut out = String::new(alloc);
            push_token(&mut out, bytes, token)?;
            out.push_str(format!(in alloc; ", {consumed} bytes")?.as_str())?;
            Ok(out)
        }
        Received::Incomplete { missing: 0 } => bail!("incomplete, and nothing is missing"),
        Received::Incomplete { .. } => Ok(String::from_str(alloc, "incomplete")?),
        Received::Malformed { at } => Ok(format!(in alloc; "malformed at {at}")?),
    }
}

/// At least one byte is missing, and no more than these.
fn lacks(limits: Limits, bytes: &[u8], most: usize) -> Result<()> {
    match parse_token(bytes, limits) {
        Received::Incomplete { missing } if 0 < missing && missing <= most => Ok(()),
        _ => bail!("{} bytes are not incomplete, by up to {most}", bytes.len()),
    }
}

/// Reads each shorter beginning, which lacks no more than the rest, and replies how many there are.
pub(crate) fn parse_prefixes(alloc: Global, limits: Limits, whole: &[u8]) -> Result<String> {
    for end in 0..whole.len() {
        lacks(limits, front(whole, end)?, whole.len().saturating_sub(end))?;
    }
    Ok(format!(in alloc; "{} incomplete", whole.len())?)
}

/// What is read of the bytes is what is read of as many of them as it speaks of.
pub(crate) fn is_read_alike(limits: Limits, bytes: &[u8]) -> Result<()> {
    let received = parse_token(bytes, limits);
    match received {
        Received::Reply { consumed, .. } => {
            let Some(before) = consumed.checked_sub(1) else {
                bail!("a token of no bytes");
            };
            if parse_token(front(bytes, consumed)?, limits) != received {
                bail!("the token alone is read in another way");
            }
            lacks(limits, front(bytes, before)?, 1)
        }
        Received::Incomplete { .. } => lacks(limits, bytes, 100),
        Received::Malformed { at } => {
            if at >= bytes.len() {
                bail!("the fault is behind the bytes");
            }
            lacks(limits, front(bytes, at)?, 100)
        }
    }
}
