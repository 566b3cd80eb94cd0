//! Replies of several lines.

use crate::mistake::Mistake;
use case_files::push_spelled;
use std::alloc::{AllocError, Global};

/// Of more lines than these a reply shows the first two, how many more there are, and the last three.
const MOST_SHOWN: usize = 60;

const FIRST: usize = 2;

const LAST: usize = 3;

fn add_line(reply: &mut String, before: &str, line: &[u8]) -> Result<(), AllocError> {
    if !reply.is_empty() {
        reply.push('\n')?;
    }
    reply.push_str(before)?;
    match str::from_utf8(line) {
        Ok(text) => reply.push_str(text),
        Err(_) => push_spelled(reply, line),
    }
}

/// Puts the lines of the output behind the reply, each behind the text `before`. Behind a last line without an LF stands `(cut)`.
pub fn add_lines(
    alloc: Global,
    reply: &mut String,
    before: &str,
    out: &[u8],
) -> Result<(), Mistake> {
    if out.is_empty() {
        return Ok(());
    }
    let whole = out.strip_suffix(b"\n").unwrap_or(out);
    let count = whole.split(|byte| *byte == b'\n').count();
    let most_first = if count > MOST_SHOWN { FIRST } else { count };
    let least_last = count.saturating_sub(LAST);
    for (at, line) in whole.split(|byte| *byte == b'\n').enumerate() {
        if at < most_first || at >= least_last {
            add_line(reply, before, line)?;
        } else if at == most_first {
            let more = least_last.saturating_sub(most_first);
            let told = format!(in alloc; "({more} more lines)")?;
            add_line(reply, before, told.as_bytes())?;
        }
    }
    if whole.len() == out.len() {
        reply.push_str(" (cut)")?;
    }
    Ok(())
}

/// The status, and the lines of the output.
pub fn reply_of(alloc: Global, status: &str, out: &[u8]) -> Result<String, Mistake> {
    let mut reply = String::from_str(alloc, status)?;
    add_lines(alloc, &mut reply, "", out)?;
    Ok(reply)
}

/// A reply of this text.
pub fn text(alloc: Global, text: &str) -> Result<String, Mistake> {
    Ok(String::from_str(alloc, text)?)
}
