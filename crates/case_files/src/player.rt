//! A case while it is played: which line comes next, and where a reply was another than the one that is expected.

use crate::case::Case;
use crate::line::Line;
use anyhow::{Result, bail};

/// What a call replies where a growth was refused.
const MEMORY: &str = "memory";

/// A reply that was not expected, or a call that could not be made.
#[derive(Drop)]
pub struct Difference {
    /// Where the call stands in its file, counted from 1.
    pub line: u32,
    /// What it replied, or why it could not be made.
    pub found: Result<String>,
}

/// A case, as far as it was played.
#[derive(Drop)]
pub struct Playing<'c> {
    case: &'c Case,
    /// How many lines were given out.
    given: usize,
    /// Whether growths are refused while it is played.
    is_refused: bool,
    /// Whether the last call is made once more since a growth was refused to it.
    is_again: bool,
    /// The last call that was made once more.
    refused: Option<&'c Line>,
    difference: Option<Difference>,
}

/// Whether the reply is one of those that are expected, which `|` separates.
fn is_expected(expected: &[u8], reply: &[u8]) -> bool {
    if expected == reply {
        return true;
    }
    expected
        .split(|byte| *byte == b'|')
        .any(|one| one.trim_ascii() == reply)
}

/// The reply, or a mistake where the call took no notice of a word, or of the thread.
fn strict(line: &Line, reply: Result<String>) -> Result<String> {
    let Ok(text) = reply else {
        return reply;
    };
    if let Some(thread) = line.unread_thread() {
        let shown = str::from_utf8(thread).unwrap_or("");
        bail!("this call takes no thread `{shown}`");
    }
    let Some(word) = line.unread() else {
        return Ok(text);
    };
    let shown = str::from_utf8(word).unwrap_or("");
    bail!("this call takes no word `{shown}`")
}

impl<'c> Playing<'c> {
    /// Begins. Where growths are refused meanwhile, a call that replies `memory` in place of what is expected is made once more.
    pub fn new(case: &'c Case, is_refused: bool) -> Playing<'c> {
        Playing {
            case,
            given: 0,
            is_refused,
            is_again: false,
            refused: None,
            difference: None,
        }
    }

    pub fn case(&self) -> &'c Case {
        self.case
    }

    /// The next line. There is none at the end, nor after a difference.
    pub fn next(&mut self) -> Option<&'c Line> {
        if self.difference.is_some() {
            return None;
        }
        let line = self.case.lines.get(self.given)?;
        self.given = self.given.saturating_add(1);
        self.is_again = false;
        Some(line)
    }

    /// The line that `next` would give.
    pub fn peek(&self) -> Option<&'c Line> {
        if self.difference.is_some() {
            return None;
        }
        self.case.lines.get(self.given)
    }

    /// The next lines that are of one block, where the next is of one.
    pub fn block(&mut self) -> &'c [Line] {
        let rest = self.case.lines.get(self.given..).unwrap_or(&[]);
        let Some(first) = rest.first() else {
            return &[];
        };
        if first.block == 0 || self.difference.is_some() {
            return &[];
        }
        let count = rest.iter().position(|line| line.block != first.block);
        let lines = rest.get(..count.unwrap_or(rest.len())).unwrap_or(&[]);
        self.given = self.given.saturating_add(lines.len());
        lines
    }

    /// Says what the line's call replied. It answers whether the call has to be made once more, since a growth was refused to it.
    ///
    /// A line of which a word was not read is a mistake, whatever was replied, unless it is made once more: what is refused memory may end
    /// before it reads its words.
    pub fn tell(&mut self, line: &Line, reply: Result<String>) -> bool {
        let is_memory = match &reply {
            Ok(text) => text.as_str() == MEMORY,
            Err(_) => false,
        };
        let reply = strict(line, reply);
        let is_right = match &reply {
            Ok(text) => is_expected(line.reply.as_slice(), text.as_bytes()),
            Err(_) => false,
        };
        if is_right {
            return false;
        }
        if is_memory && self.is_refused && !self.is_again {
            self.is_again = true;
            self.refused = self.case.lines.iter().find(|it| it.number == line.number);
            return true;
        }
        if self.difference.is_none() {
            self.difference = Some(Difference {
                line: line.number,
                found: reply,
            });
        }
        false
    }

    /// The last call that was made once more, since a growth was refused to it.
    pub fn refused(&self) -> Option<&'c Line> {
        self.refused
    }

    /// Where the case went otherwise.
    pub fn into_difference(self) -> Option<Difference> {
        self.difference
    }
}
