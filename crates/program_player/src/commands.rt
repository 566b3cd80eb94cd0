//! Calls that read files of commands.

use crate::desk::Desk;
use crate::listing::{shown, shown_in_falling_order};
use crate::mistake::Mistake;
use crate::readers::{Faltering, Given};
use crate::reply::{reply_of, text};
use case_files::Line;
use command_file::{FileFault, FileText, Script, read_file};
use far_driver::{RunFault, read_files};
use std::alloc::Global;
use std::io::{BufRead, BufReader};
use std::thread::Threads;

/// A file's commands as lines, or its fault.
#[derive(Drop)]
struct ReadFile {
    status: String,
    lines: Vec<u8>,
}

impl ReadFile {
    fn is(&self, other: &ReadFile) -> bool {
        self.status.as_str() == other.status.as_str()
            && self.lines.as_slice() == other.lines.as_slice()
    }
}

fn read_as(alloc: Global, read: Result<Script, FileFault>) -> Result<ReadFile, Mistake> {
    match read {
        Ok(script) => Ok(ReadFile {
            status: String::from_str(alloc, "ok")?,
            lines: shown(alloc, &script)?,
        }),
        Err(FileFault::Memory) => Err(Mistake::Memory),
        Err(fault) => Ok(ReadFile {
            status: format!(in alloc; "{fault}")?,
            lines: Vec::new(alloc),
        }),
    }
}

/// Sizes from a word as `7,1024,all`.
fn sizes(alloc: Global, word: &[u8]) -> Result<Vec<usize>, Mistake> {
    let mut all = Vec::new(alloc);
    for one in word.split(|byte| *byte == b',') {
        if one == b"all".as_slice() {
            all.push(usize::MAX)?;
            continue;
        }
        let size = match str::from_utf8(one) {
            Ok(digits) => digits.parse::<usize>().ok(),
            Err(_) => None,
        };
        match size {
            Some(size) => all.push(size)?,
            None => return Err(Mistake::Call("sizes are numbers and `all`, with commas")),
        }
    }
    Ok(all)
}

/// The file, read with each of the sizes that the line names, or as it is.
fn in_sizes<'a>(alloc: Global, line: &Line, given: Given<'a>) -> Result<Vec<Given<'a>>, Mistake> {
    let mut all = Vec::new(alloc);
    let Some(word) = line.named("shows") else {
        all.push(given)?;
        return Ok(all);
    };
    for size in sizes(alloc, word)? {
        let mut sized = given;
        sized.looks.size = size;
        all.push(sized)?;
    }
    Ok(all)
}

/// The same by each of the calls that read a file of commands, or none where they differ.
fn by_all_calls<R>(rt: &R, alloc: Global, given: Given<'_>) -> Result<Option<ReadFile>, Mistake>
where
    R: Threads + Sync,
{
    let read = read_as(alloc, read_file(alloc, &mut given.reader()))?;
    let text = FileText::read(alloc, &mut given.reader());
    let parsed = read_as(alloc, text.parse(alloc))?;
    let text = FileText::read(alloc, &mut given.reader());
    let by_threads = read_as(alloc, text.parse_on_threads(rt, alloc))?;
    if read.is(&parsed) && read.is(&by_threads) {
        Ok(Some(read))
    } else {
        Ok(None)
    }
}

/// The commands that a reader of this buffer says.
fn by_buffer<B: BufRead>(alloc: Global, file: &mut B) -> Result<String, Mistake> {
    let told = read_as(alloc, read_file(alloc, file))?;
    reply_of(alloc, told.status.as_str(), told.lines.as_slice())
}

/// What is left, beside the file's last line.
fn left_of(file: &Faltering<'_>, bytes: &[u8]) -> &'static str {
    let whole = bytes.strip_suffix(b"\n").unwrap_or(bytes);
    let last = match whole.rsplit(|byte| *byte == b'\n').next() {
        Some(last) => last
            .len()
            .saturating_add(bytes.len().saturating_sub(whole.len())),
        None => 0,
    };
    let left = file.rest.len();
    if left == 0 {
        "nothing is left"
    } else if left == last {
        "the last line is left"
    } else if left > last {
        "more than the last line is left"
    } else {
        "a part of the last line is left"
    }
}

/// How the reading of a file ends, and what is left then.
fn reading(alloc: Global, given: Given<'_>) -> Result<String, Mistake> {
    let mut file = given.reader();
    let text = FileText::read(alloc, &mut file);
    let left = left_of(&file, given.bytes);
    match text.parse(alloc) {
        Ok(script) => Ok(format!(in alloc; "{} commands, {left}", script.len())?),
        Err(FileFault::Memory) => Err(Mistake::Memory),
        Err(fault) => Ok(format!(in alloc; "{fault}, {left}")?),
    }
}

impl Desk {
    /// `commands`: the commands of a file by each call that reads one.
    pub fn commands<R>(&self, rt: &R, line: &Line) -> Result<String, Mistake>
    where
        R: Threads + Sync,
    {
        let alloc = self.alloc;
        let mut first: Option<ReadFile> = None;
        for given in in_sizes(alloc, line, self.given_one(line)?)? {
            let Some(told) = by_all_calls(rt, alloc, given)? else {
                return text(alloc, "the calls that read a file differ");
            };
            match &first {
                None => first = Some(told),
                Some(before) if before.is(&told) => {}
                Some(_) => return text(alloc, "the sizes that a reader shows differ"),
            }
        }
        match first {
            Some(told) => reply_of(alloc, told.status.as_str(), told.lines.as_slice()),
            None => Err(Mistake::Call("there is no size")),
        }
    }

    /// `falling_commands`: the same, where the last command is asked for first.
    pub fn falling_commands(&self, line: &Line) -> Result<String, Mistake> {
        let alloc = self.alloc;
        let given = self.given_one(line)?;
        match read_file(alloc, &mut given.reader()) {
            Ok(script) => {
                let lines = shown_in_falling_order(alloc, &script)?;
                reply_of(alloc, "ok", lines.as_slice())
            }
            Err(FileFault::Memory) => Err(Mistake::Memory),
            Err(fault) => Ok(format!(in alloc; "{fault}")?),
        }
    }

    /// `buffered_commands SIZE`: the same of the case's file, behind a buffer of so many bytes.
    pub fn buffered_commands(&self, line: &Line) -> Result<String, Mistake> {
        let alloc = self.alloc;
        let (Some(size), Some(file)) = (line.number_at(1), self.files.last()) else {
            return Err(Mistake::Call("behind a file stand the call and a size"));
        };
        if size == 0 || size > 65_536 {
            return Err(Mistake::Call("a buffer has 1 to 65,536 bytes"));
        }
        match BufReader::with_capacity(alloc, size as usize, file.given().reader()) {
            Ok(mut buffer) => by_buffer(alloc, &mut buffer),
            Err(_) => Err(Mistake::Memory),
        }
    }

    /// `reading`: how many commands a file says, or its fault, and how far the reader was read.
    pub fn reading(&self, line: &Line) -> Result<String, Mistake> {
        let alloc = self.alloc;
        let mut first: Option<String> = None;
        for given in in_sizes(alloc, line, self.given_one(line)?)? {
            let told = reading(alloc, given)?;
            match &first {
                None => first = Some(told),
                Some(before) if before.as_str() == told.as_str() => {}
                Some(before) => {
                    return Ok(format!(in alloc; "{before}, or {told}")?);
                }
            }
        }
        first.ok_or(Mistake::Call("there is no size"))
    }

    /// `read_files`: how many commands each of the files has.
    pub fn read_files<R>(&self, rt: &R, line: &Line) -> Result<String, Mistake>
    where
        R: Threads + Sync,
    {
        let alloc = self.alloc;
        let mut readers = Vec::new(alloc);
        for given in self.given(line)? {
            readers.push(given.reader())?;
        }
        if readers.len() > 64 {
            return Err(Mistake::Call("there are at most 64 files"));
        }
        let scripts = match read_files(rt, alloc, readers) {
            Ok(scripts) => scripts,
            Err(RunFault::Memory) => return Err(Mistake::Memory),
            Err(fault) => return Ok(format!(in alloc; "{fault}")?),
        };
        let mut reply = String::new(alloc);
        for script in &scripts {
            let count = format!(in alloc; "{}", script.len())?;
            if !reply.is_empty() {
                reply.push(' ')?;
            }
            reply.push_str(count.as_str())?;
        }
        Ok(reply)
    }
}
