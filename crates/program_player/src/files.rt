//! The files of a case, and calls that make them.

use crate::content::add_numbered;
use crate::desk::Desk;
use crate::mistake::Mistake;
use crate::readers::{Given, Looks};
use crate::settings::{number, small};
use case_files::Line;
use std::io::ErrorKind;

/// The most bytes that a call makes.
const MOST_BYTES: usize = 16_777_216;

/// The most files of a case.
const MOST_FILES: usize = 100;

/// A file of a case. For the program it has a name.
#[derive(Drop)]
pub struct CaseFile {
    pub name: Vec<u8>,
    pub bytes: Vec<u8>,
    pub looks: Looks,
}

impl CaseFile {
    pub fn given(&self) -> Given<'_> {
        Given {
            bytes: self.bytes.as_slice(),
            looks: self.looks,
        }
    }
}

/// Whether the word is of the form `NAME=VALUE`.
fn is_named(word: &[u8]) -> bool {
    match word.iter().position(|byte| *byte == b'=') {
        Some(at) if 0 < at && at <= word.len() => {
            let (name, _) = word.split_at(at);
            name.iter()
                .all(|byte| byte.is_ascii_lowercase() || *byte == b'_')
        }
        _ => false,
    }
}

/// Why a look fails.
fn kind_of(line: &Line) -> Result<ErrorKind, Mistake> {
    match line.named("kind") {
        None => Ok(ErrorKind::Other),
        Some(kind) if kind == b"interrupted".as_slice() => Ok(ErrorKind::Interrupted),
        Some(kind) if kind == b"memory".as_slice() => Ok(ErrorKind::OutOfMemory),
        Some(_) => Err(Mistake::Call("a kind is interrupted or memory")),
    }
}

impl Desk {
    /// Puts a file behind the others. The first behind a call that read or ran those begins anew.
    fn add_file(&mut self, name: &[u8], text: &[u8]) -> Result<(), Mistake> {
        if self.is_used {
            self.files.clear();
            self.is_used = false;
        }
        if self.files.len() >= MOST_FILES {
            return Err(Mistake::Call("a case has at most 100 files"));
        }
        self.files.push(CaseFile {
            name: Vec::from_slice(self.alloc, name)?,
            bytes: Vec::from_slice(self.alloc, text)?,
            looks: Looks::whole(),
        })?;
        Ok(())
    }

    /// `file [NAME]`
    pub fn file(&mut self, line: &Line) -> Result<(), Mistake> {
        self.add_file(line.word(1).unwrap_or(b""), line.text.as_slice())
    }

    /// `files COUNT`: so many of the same text.
    pub fn files(&mut self, line: &Line) -> Result<(), Mistake> {
        let Some(count) = line.number_at(1) else {
            return Err(Mistake::Call("behind `files` stands a number"));
        };
        self.files.clear();
        self.is_used = false;
        for _ in 0..count {
            self.add_file(b"", line.text.as_slice())?;
        }
        Ok(())
    }

    fn last_file(&mut self) -> Result<&mut CaseFile, Mistake> {
        match self.files.last_mut() {
            Some(file) => Ok(file),
            None => Err(Mistake::Call("there is no file yet")),
        }
    }

    /// `append BYTES`
    pub fn append(&mut self, line: &Line) -> Result<(), Mistake> {
        let file = self.last_file()?;
        Ok(file.bytes.extend_from_slice(line.word(1).unwrap_or(b""))?)
    }

    /// `cut COUNT`: takes so many bytes from the file's end.
    pub fn cut(&mut self, line: &Line) -> Result<(), Mistake> {
        let Some(count) = line.number_at(1) else {
            return Err(Mistake::Call("behind `cut` stands a number"));
        };
        let file = self.last_file()?;
        let count = usize::try_from(count).unwrap_or(usize::MAX);
        file.bytes.truncate(file.bytes.len().saturating_sub(count));
        Ok(())
    }

    /// `repeat COUNT BYTES`
    pub fn repeat(&mut self, line: &Line) -> Result<(), Mistake> {
        let bytes = line.word(2).unwrap_or(b"");
        let Some(count) = line.number_at(1) else {
            return Err(Mistake::Call("behind `repeat` stand a number and the bytes"));
        };
        let count = usize::try_from(count).unwrap_or(usize::MAX);
        let whole = count.saturating_mul(bytes.len());
        if bytes.is_empty() || whole > MOST_BYTES {
            return Err(Mistake::Call("`repeat` makes 1 to 16,777,216 bytes"));
        }
        let file = self.last_file()?;
        file.bytes.reserve(whole)?;
        for _ in 0..count {
            file.bytes.extend_from_slice(bytes)?;
        }
        Ok(())
    }

    /// `numbered_file COUNT BAD..`
    pub fn numbered_file(&mut self, line: &Line) -> Result<(), Mistake> {
        let count = match line.number_at(1) {
            Some(count) if count <= 100_000 => count,
            _ => {
                return Err(Mistake::Call("a numbered file has a number of lines up to 100,000"));
            }
        };
        let mut bytes = Vec::new(self.alloc);
        for number in 1..=count {
            let is_bad = (2..=line.count()).any(|at| line.number_at(at) == Some(number));
            if is_bad {
                bytes.extend_from_slice(b"put a\n")?;
            } else {
                add_numbered(&mut bytes, number)?;
            }
        }
        self.add_file(b"", bytes.as_slice())
    }

    /// `reader shows=N fails=N kind=KIND`
    pub fn reader(&mut self, line: &Line) -> Result<(), Mistake> {
        let file = self.last_file()?;
        let size = number(line, "shows", u64::MAX)?;
        file.looks = Looks {
            size: usize::try_from(size).unwrap_or(usize::MAX),
            failing: small(line, "fails", u32::MAX)?,
            kind: kind_of(line)?,
        };
        Ok(())
    }

    /// The files that a call runs: those of the case, if no call had them yet, the call's words and its text. A call without any
    /// runs those of the call before it.
    pub fn given<'a>(&'a self, line: &'a Line) -> Result<Vec<Given<'a>>, Mistake> {
        let mut own = Vec::new(self.alloc);
        for place in 1..line.words.len() {
            match line.words.get(place) {
                Some(word) if !is_named(word.as_slice()) => {
                    let _ = line.word(place);
                    own.push(Given::of(word.as_slice()))?;
                }
                _ => {}
            }
        }
        if !line.text.is_empty() {
            own.push(Given::of(line.text.as_slice()))?;
        }
        if self.is_used && !own.is_empty() {
            return Ok(own);
        }
        let mut all = Vec::new(self.alloc);
        for file in &self.files {
            all.push(file.given())?;
        }
        all.extend_from_slice(own.as_slice())?;
        Ok(all)
    }

    /// The one file of a call that takes no more.
    pub fn given_one<'a>(&'a self, line: &'a Line) -> Result<Given<'a>, Mistake> {
        let all = self.given(line)?;
        match all.as_slice() {
            [one] => Ok(*one),
            _ => Err(Mistake::Call("the call takes one file")),
        }
    }
}
