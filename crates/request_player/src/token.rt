//! Replies of the server as text: `"a string"`, `:3`, `+OK`, `-ERR syntax error`, `nil`, `[..]` and `no-array`.

use crate::mistake::Mistake;
use case_files::{push_spelled, spelled};
use resp::{Limits, Received, Span, Token, parse_token};
use std::alloc::{AllocError, Global};

const LIMITS: Limits = Limits {
    arguments: 1_000_000,
    bytes: 16_777_216,
    line: 65_536,
};

/// What stood in the buffer before the call, and has to stand there behind it.
pub(crate) const BEFORE: &[u8] = b":7\r\n";

const NO_REPLY: Mistake = Mistake::Said("what was written is no reply of RESP");

/// What a call put behind `BEFORE`. After want of memory `BEFORE` has to be all.
pub(crate) fn behind_before<T: Drop>(
    done: Result<T, AllocError>,
    out: &[u8],
) -> Result<(T, &[u8]), Mistake> {
    match done {
        Ok(told) => match out.strip_prefix(BEFORE) {
            Some(reply) => Ok((told, reply)),
            None => Err(Mistake::Said("what stood in front of the reply is gone")),
        },
        Err(_) if out == BEFORE => Err(Mistake::Memory),
        Err(_) => Err(Mistake::Said("after want of memory there is more or less than before")),
    }
}

fn part(bytes: &[u8], span: Span) -> &[u8] {
    let behind = bytes.get(span.from..).unwrap_or(&[]);
    behind.get(..span.len).unwrap_or(behind)
}

/// Whether the text may stand without quotes: no blank at an end, and nothing to be escaped.
fn is_bare(text: &[u8]) -> bool {
    let is_seen = |byte: &u8| *byte >= b' ' && *byte <= b'~' && *byte != b'"' && *byte != b'\\';
    text.trim_ascii() == text && text.iter().all(is_seen)
}

/// Puts a text as it is where it may stand without quotes.
pub(crate) fn push_text(out: &mut String, text: &[u8]) -> Result<(), AllocError> {
    match str::from_utf8(text) {
        Ok(bare) if is_bare(text) => out.push_str(bare),
        _ => push_spelled(out, text),
    }
}

/// Puts a string in quotes, always.
fn push_string(out: &mut String, bytes: &[u8]) -> Result<(), AllocError> {
    let text = spelled(*out.allocator(), bytes)?;
    if text.as_str().starts_with('"') {
        return out.push_str(text.as_str());
    }
    out.push('"')?;
    out.push_str(text.as_str())?;
    out.push('"')
}

fn push_token(out: &mut String, bytes: &[u8], token: Token) -> Result<(), AllocError> {
    match token {
        Token::Simple(span) => {
            out.push('+')?;
            push_text(out, part(bytes, span))
        }
        Token::Failure(span) => {
            out.push('-')?;
            push_text(out, part(bytes, span))
        }
        Token::Number(number) => write!(out, ":{number}"),
        Token::String(span) => push_string(out, part(bytes, span)),
        Token::Nothing => out.push_str("nil"),
        Token::Count(_) => out.push('['),
        Token::NoArray => out.push_str("no-array"),
    }
}

/// Ends the arrays that the last element was the last of.
fn close(open: &mut Vec<u32>, out: &mut String) -> Result<(), AllocError> {
    for _ in 0..open.len() {
        let Some(left) = open.last_mut() else {
            break;
        };
        *left = left.saturating_sub(1);
        if *left > 0 {
            break;
        }
        let _ = open.pop();
        out.push(']')?;
    }
    Ok(())
}

fn push_between(out: &mut String, is_within: bool, between: char) -> Result<(), AllocError> {
    if out.is_empty() || out.as_str().ends_with('[') {
        return Ok(());
    }
    out.push(if is_within { ' ' } else { between })
}

/// Puts one token, and says what stands behind it.
fn step<'b>(
    out: &mut String,
    open: &mut Vec<u32>,
    bytes: &'b [u8],
    between: char,
) -> Result<&'b [u8], Mistake> {
    let Received::Reply { token, consumed } = parse_token(bytes, LIMITS) else {
        return Err(NO_REPLY);
    };
    push_between(out, !open.is_empty(), between)?;
    push_token(out, bytes, token)?;
    match token {
        Token::Count(0) => {
            out.push(']')?;
            close(open, out)?;
        }
        Token::Count(count) => open.push(count)?,
        _ => close(open, out)?,
    }
    bytes.get(consumed..).ok_or(NO_REPLY)
}

/// Puts replies one behind another.
pub(crate) fn push_replies(
    alloc: Global,
    out: &mut String,
    bytes: &[u8],
    between: char,
) -> Result<(), Mistake> {
    let mut open = Vec::new(alloc);
    let mut rest = bytes;
    for _ in 0..bytes.len() {
        if rest.is_empty() {
            break;
        }
        rest = step(out, &mut open, rest, between)?;
    }
    if open.is_empty() {
        Ok(())
    } else {
        Err(NO_REPLY)
    }
}

/// Replies as text, with blanks between them.
pub(crate) fn shown(alloc: Global, bytes: &[u8]) -> Result<String, Mistake> {
    let mut out = String::new(alloc);
    push_replies(alloc, &mut out, bytes, ' ')?;
    Ok(out)
}

/// The elements of the array that the bytes are, a line for each, and how many there are.
pub(crate) fn elements(alloc: Global, bytes: &[u8]) -> Result<(u32, String), Mistake> {
    let Received::Reply {
        token: Token::Count(count),
        consumed,
    } = parse_token(bytes, LIMITS)
    else {
        return Err(NO_REPLY);
    };
    let mut out = String::new(alloc);
    let rest = bytes.get(consumed..).ok_or(NO_REPLY)?;
    push_replies(alloc, &mut out, rest, '\n')?;
    Ok((count, out))
}

/// The text of the one string that the bytes are.
pub(crate) fn text_of(bytes: &[u8]) -> Result<&[u8], Mistake> {
    match parse_token(bytes, LIMITS) {
        Received::Reply {
            token: Token::String(span),
            consumed,
        } if consumed == bytes.len() => Ok(part(bytes, span)),
        _ => Err(NO_REPLY),
    }
}
