//! Calls of `run_lines`: the texts of replies, and what is written.

use crate::desk::Desk;
use crate::faults::refusal;
use crate::lists::{ends_of, lists_of, numbered, pair};
use crate::mistake::Mistake;
use crate::reply::{reply_of, text};
use crate::writers::{Limits, Output};
use case_files::{Line, spelled};
use far_object::Text;
use run_lines::{PairLines, push_line, reply_text, write_contents, write_files};
use std::alloc::Global;
use std::io;
use std::thread::Threads;

/// How a writing ended, as a text.
pub fn status_of(ended: &io::Result<()>) -> &'static str {
    match ended {
        Ok(()) => "ok",
        Err(_) => "failed",
    }
}

fn reply_of_writing(alloc: Global, ended: io::Result<()>, out: &Output) -> Result<String, Mistake> {
    if out.is_refused {
        return Err(Mistake::Memory);
    }
    reply_of(alloc, status_of(&ended), out.kept.as_slice())
}

/// The text of a reply, as bytes that are one.
fn text_of(alloc: Global, bytes: &[u8]) -> Result<String, Mistake> {
    match str::from_utf8(bytes) {
        Ok(whole) => text(alloc, whole),
        Err(_) => Ok(spelled(alloc, bytes)?),
    }
}

/// Writes the lines that were made at once.
pub fn write_lists<R: Threads + Sync>(
    rt: &R,
    alloc: Global,
    ends: &[u64],
    out: &mut Output,
) -> Result<io::Result<()>, Mistake> {
    let lists = lists_of(alloc, ends)?;
    let lines = PairLines::of(rt, alloc, lists.as_slice())?;
    Ok(lines.write_contents(out))
}

impl Desk {
    /// `reply_text none`, `reply_text value TEXT`, `reply_text REFUSAL`
    pub fn reply_text(&self, line: &Line) -> Result<String, Mistake> {
        let alloc = self.alloc;
        let word = line.word(1).unwrap_or(b"");
        if word == b"none".as_slice() {
            return text_of(alloc, reply_text(&Ok(None)));
        }
        if word == b"value".as_slice() {
            let value = Text::new(alloc, line.word(2).unwrap_or(b""))?;
            return text_of(alloc, reply_text(&Ok(Some(value))));
        }
        let Some(refusal) = refusal(word) else {
            return Err(Mistake::Call("a reply is none, value or a refusal"));
        };
        let shown = format!(in alloc; "{refusal}")?;
        let replied = text_of(alloc, reply_text(&Err(refusal)))?;
        if shown.as_str() == replied.as_str() {
            Ok(replied)
        } else {
            Ok(format!(in alloc; "{replied}, shown as {shown}")?)
        }
    }

    /// `push_line TEXT`
    pub fn push_line(&mut self, line: &Line) -> Result<(), Mistake> {
        let before = self.lines.len();
        match push_line(&mut self.lines, line.word(1).unwrap_or(b"")) {
            Ok(()) => Ok(()),
            Err(_) => {
                self.lines.truncate(before);
                Err(Mistake::Memory)
            }
        }
    }

    /// `lines`: those that were pushed.
    pub fn lines(&self) -> Result<String, Mistake> {
        Ok(spelled(self.alloc, self.lines.as_slice())?)
    }

    /// `pair KEY VALUE`
    pub fn pair(&mut self, line: &Line) -> Result<(), Mistake> {
        let key = line.word(1).unwrap_or(b"");
        let value = line.word(2).unwrap_or(b"");
        self.pairs.push(pair(self.alloc, key, value)?)?;
        Ok(())
    }

    /// The texts of the files.
    pub fn texts(&self) -> Result<Vec<Vec<u8>>, Mistake> {
        let mut texts = Vec::new(self.alloc);
        for file in &self.files {
            texts.push(Vec::from_slice(self.alloc, file.bytes.as_slice())?)?;
        }
        Ok(texts)
    }

    /// `write_files`
    pub fn write_files(&self) -> Result<String, Mistake> {
        let mut out = Output::new(self.alloc, self.limits);
        let ended = write_files(&mut out, self.texts()?.as_slice());
        reply_of_writing(self.alloc, ended, &out)
    }

    /// `write_contents`
    pub fn write_contents(&self) -> Result<String, Mistake> {
        let mut out = Output::new(self.alloc, self.limits);
        let ended = write_contents(&mut out, self.pairs.as_slice());
        reply_of_writing(self.alloc, ended, &out)
    }

    /// `write_lists END..`: as `write_contents` of pairs that are made at once. The lines are those that are written one by one.
    pub fn write_lists<R>(&self, rt: &R, line: &Line) -> Result<String, Mistake>
    where
        R: Threads + Sync,
    {
        let alloc = self.alloc;
        let ends = ends_of(alloc, line)?;
        let mut out = Output::new(alloc, self.limits);
        let ended = write_lists(rt, alloc, ends.as_slice(), &mut out)?;
        let pairs = numbered(alloc, 0, *ends.last().unwrap_or(&0))?;
        let mut one_by_one = Output::new(alloc, Limits::none());
        write_contents(&mut one_by_one, pairs.as_slice())?;
        let is_same = out.kept.as_slice() == one_by_one.kept.as_slice();
        if ended.is_ok() && !is_same {
            return text(alloc, "other lines than those that are written one by one");
        }
        reply_of_writing(alloc, ended, &out)
    }
}
