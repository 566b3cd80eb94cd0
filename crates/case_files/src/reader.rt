//! Reads a case file line by line.

use crate::case::Case;
use crate::fault::BadLine;
use crate::line::Line;
use crate::words::words_of;
use std::alloc::Global;
use std::sync::atomic::{AtomicBool, AtomicU64};

/// What stands between a call and its reply.
const ARROW: &[u8] = b"->";

/// The cases so far.
#[derive(Drop)]
pub(crate) struct Reader {
    alloc: Global,
    cases: Vec<Case>,
    /// The block that the next line is of, or 0.
    block: u32,
    /// How many blocks the case has.
    blocks: u32,
}

/// Where the arrow begins that has a blank, or nothing, on each side. One within a quoted word counts too.
fn arrow_at(line: &[u8]) -> Option<usize> {
    let at = line.windows(2).position(|two| two == ARROW)?;
    let before = &line[..at];
    let is_apart = before.is_empty() || before.ends_with(b" ");
    let behind = line.get(at.saturating_add(2));
    if is_apart && behind.is_none_or(|byte| *byte == b' ') {
        Some(at)
    } else {
        None
    }
}

/// The line before its arrow, and the reply behind it.
fn parts(line: &[u8]) -> (&[u8], &[u8]) {
    match arrow_at(line) {
        Some(at) if at <= line.len() => {
            let (before, from) = line.split_at(at);
            (
                before,
                from.strip_prefix(ARROW).unwrap_or(from).trim_ascii(),
            )
        }
        _ => (line, b""),
    }
}

/// Takes the name of a thread out of the words, where the first ends with a colon.
fn take_thread(alloc: Global, words: &mut Vec<Vec<u8>>) -> Vec<u8> {
    let is_thread = match words.first() {
        Some(first) => first.len() > 1 && first.ends_with(b":"),
        None => false,
    };
    if !is_thread || words.is_empty() {
        return Vec::new(alloc);
    }
    let mut thread = words.remove(0);
    let _ = thread.pop();
    thread
}

/// What stands behind a mark and a blank.
fn behind_mark(line: &[u8], mark: u8) -> Option<&[u8]> {
    let rest = line.strip_prefix(&[mark])?;
    Some(rest.strip_prefix(b" ").unwrap_or(rest))
}

impl Reader {
    pub(crate) fn new(alloc: Global) -> Reader {
        Reader {
            alloc,
            cases: Vec::new(alloc),
            block: 0,
            blocks: 0,
        }
    }

    /// Reads the next line, whose number this is.
    pub(crate) fn read(&mut self, number: u32, line: &[u8]) -> Result<(), BadLine> {
        let trimmed = line.trim_ascii();
        if trimmed.is_empty() || trimmed.starts_with(b"#") {
            return Ok(());
        }
        if let Some(text) = behind_mark(line, b'|') {
            return self.add_text(text);
        }
        if let Some(reply) = behind_mark(line, b'>') {
            return self.add_reply(reply);
        }
        if trimmed == b"side by side".as_slice() {
            return self.begin_block();
        }
        if trimmed == b"end".as_slice() {
            return self.end_block();
        }
        match trimmed.strip_prefix(b"case") {
            Some(name) if name.is_empty() || name.starts_with(b" ") => self.begin(number, name),
            _ => self.add(number, trimmed),
        }
    }

    fn begin(&mut self, number: u32, name: &[u8]) -> Result<(), BadLine> {
        if self.block != 0 {
            return Err(BadLine::Block);
        }
        self.blocks = 0;
        let mut named = Vec::new(self.alloc);
        named.extend_from_slice(name.trim_ascii())?;
        if named.is_empty() {
            return Err(BadLine::NoName);
        }
        self.cases.push(Case {
            name: named,
            number,
            lines: Vec::new(self.alloc),
        })?;
        Ok(())
    }

    fn begin_block(&mut self) -> Result<(), BadLine> {
        if self.block != 0 {
            return Err(BadLine::Block);
        }
        self.blocks = self.blocks.saturating_add(1);
        self.block = self.blocks;
        Ok(())
    }

    fn end_block(&mut self) -> Result<(), BadLine> {
        if self.block == 0 {
            return Err(BadLine::Block);
        }
        self.block = 0;
        Ok(())
    }

    /// Adds a call.
    fn add(&mut self, number: u32, line: &[u8]) -> Result<(), BadLine> {
        let (before, behind) = parts(line);
        let mut words = words_of(self.alloc, before)?;
        let thread = take_thread(self.alloc, &mut words);
        if words.is_empty() {
            return Err(BadLine::NoWords);
        }
        let mut reply = Vec::new(self.alloc);
        reply.extend_from_slice(behind)?;
        let block = self.block;
        let text = Vec::new(self.alloc);
        let Some(case) = self.cases.last_mut() else {
            return Err(BadLine::NoCase);
        };
        case.lines.push(Line {
            number,
            thread,
            words,
            text,
            reply,
            block,
            read: AtomicU64::new(0),
            is_thread_read: AtomicBool::new(false),
        })?;
        Ok(())
    }

    fn last_line(&mut self) -> Result<&mut Line, BadLine> {
        match self.cases.last_mut() {
            Some(case) => case.lines.last_mut().ok_or(BadLine::NoCall),
            None => Err(BadLine::NoCall),
        }
    }

    fn add_text(&mut self, text: &[u8]) -> Result<(), BadLine> {
        let last = self.last_line()?;
        last.text.extend_from_slice(text)?;
        last.text.push(b'\n')?;
        Ok(())
    }

    fn add_reply(&mut self, reply: &[u8]) -> Result<(), BadLine> {
        let last = self.last_line()?;
        if !last.reply.is_empty() {
            last.reply.push(b'\n')?;
        }
        last.reply.extend_from_slice(reply)?;
        Ok(())
    }

    /// The cases of the whole file.
    pub(crate) fn end(self) -> Result<Vec<Case>, BadLine> {
        if self.block != 0 {
            return Err(BadLine::Block);
        }
        Ok(self.cases)
    }
}
