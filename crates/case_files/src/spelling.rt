//! How bytes are written in replies: as a word of a case file is.

use std::alloc::{AllocError, Global};

const DIGITS: &[u8; 16] = b"0123456789abcdef";

/// Whether a word that has the byte needs quotes.
fn is_quoted(byte: u8) -> bool {
    byte <= b' ' || byte > b'~' || byte == b'"' || byte == b'\\' || byte == b'|'
}

fn push_hex(out: &mut String, byte: u8) -> Result<(), AllocError> {
    out.push_str("\\x")?;
    out.push(char::from(DIGITS[(byte >> 4) as usize]))?;
    out.push(char::from(DIGITS[(byte & 15) as usize]))
}

/// Writes the byte as it stands in a quoted word.
fn push_byte(out: &mut String, byte: u8) -> Result<(), AllocError> {
    match byte {
        b'\n' => out.push_str("\\n"),
        b'\r' => out.push_str("\\r"),
        b'\t' => out.push_str("\\t"),
        b'"' => out.push_str("\\\""),
        b'\\' => out.push_str("\\\\"),
        b' '..=b'~' => out.push(char::from(byte)),
        _ => push_hex(out, byte),
    }
}

/// Writes the bytes as a word: as they are, or in quotes where they have blanks, quotes or bytes that can't be seen, or are none.
pub fn push_spelled(out: &mut String, bytes: &[u8]) -> Result<(), AllocError> {
    let has_quotes = bytes.is_empty() || bytes.iter().any(|byte| is_quoted(*byte));
    if has_quotes {
        out.push('"')?;
    }
    for byte in bytes {
        push_byte(out, *byte)?;
    }
    if has_quotes {
        out.push('"')?;
    }
    Ok(())
}

/// The same as a text of its own.
pub fn spelled(alloc: Global, bytes: &[u8]) -> Result<String, AllocError> {
    let mut out = String::new(alloc);
    push_spelled(&mut out, bytes)?;
    Ok(out)
}
