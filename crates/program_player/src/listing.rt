//! Commands as lines. Equal ones behind one another are one line, as `400 times get b`.

use crate::mistake::Mistake;
use command_file::{Command, MapCommand, Script, TableCommand};
use std::alloc::{AllocError, Global};
use std::io::Write;

/// A word of more equal bytes than these is written as `255*k`.
const MOST_EQUAL: usize = 16;

fn add_word(line: &mut Vec<u8>, word: &[u8]) -> Result<(), Mistake> {
    line.push(b' ')?;
    match word.first() {
        Some(first) if word.len() > MOST_EQUAL && word.iter().all(|byte| byte == first) => {
            write!(line, "{}*", word.len())?;
            line.push(*first)?;
        }
        _ => line.extend_from_slice(word)?,
    }
    Ok(())
}

fn line_of(alloc: Global, verb: &str, words: &[&[u8]]) -> Result<Vec<u8>, Mistake> {
    let mut line = Vec::from_slice(alloc, verb.as_bytes())?;
    for word in words {
        add_word(&mut line, word)?;
    }
    Ok(line)
}

fn map_line(alloc: Global, command: &MapCommand) -> Result<Vec<u8>, Mistake> {
    match command {
        MapCommand::Put { key, value } => line_of(
            alloc,
            "put",
            &[key.as_bytes(), value.as_bytes()],
        ),
        MapCommand::Get { key } => line_of(alloc, "get", &[key.as_bytes()]),
        MapCommand::Delete { key } => line_of(alloc, "del", &[key.as_bytes()]),
        MapCommand::PutIf {
            key,
            expected,
            value,
        } => line_of(
            alloc,
            "putif",
            &[key.as_bytes(), expected.as_bytes(), value.as_bytes()],
        ),
        MapCommand::PutNew { key, value } => {
            line_of(alloc, "putnew", &[key.as_bytes(), value.as_bytes()])
        }
        MapCommand::Hold { key } => line_of(alloc, "hold", &[key.as_bytes()]),
    }
}

fn table_line(alloc: Global, command: &TableCommand) -> Result<Vec<u8>, Mistake> {
    match command {
        TableCommand::Show => line_of(alloc, "show", &[]),
        TableCommand::Release => line_of(alloc, "release", &[]),
        TableCommand::Evict => line_of(alloc, "evict", &[]),
        TableCommand::Where { key } => line_of(alloc, "where", &[key.as_bytes()]),
    }
}

/// The lines so far, and the last one with how often it came.
#[derive(Drop)]
struct CommandLines {
    alloc: Global,
    whole: Vec<u8>,
    last: Vec<u8>,
    times: u32,
}

impl CommandLines {
    fn new(alloc: Global) -> CommandLines {
        CommandLines {
            alloc,
            whole: Vec::new(alloc),
            last: Vec::new(alloc),
            times: 0,
        }
    }

    fn end_last(&mut self) -> Result<(), Mistake> {
        if self.times > 1 {
            write!(self.whole, "{} times ", self.times)?;
        }
        if self.times > 0 {
            self.whole.extend_from_slice(self.last.as_slice())?;
            self.whole.push(b'\n')?;
        }
        Ok(())
    }

    fn add(&mut self, command: &Command) -> Result<(), Mistake> {
        let line = match command {
            Command::Map(command) => map_line(self.alloc, command)?,
            Command::Table(command) => table_line(self.alloc, command)?,
        };
        if self.times > 0 && line.as_slice() == self.last.as_slice() {
            self.times = self.times.saturating_add(1);
            return Ok(());
        }
        self.end_last()?;
        self.last = line;
        self.times = 1;
        Ok(())
    }

    fn end(mut self) -> Result<Vec<u8>, AllocError> {
        match self.end_last() {
            Ok(()) => Ok(self.whole),
            Err(_) => Err(AllocError),
        }
    }
}

/// The commands in order, each as a line.
pub fn shown(alloc: Global, script: &Script) -> Result<Vec<u8>, Mistake> {
    let mut shown = CommandLines::new(alloc);
    for at in 0..script.len() {
        let command = script.command(alloc, at)?;
        shown.add(&command)?;
    }
    Ok(shown.end()?)
}

/// The commands, where the last is asked for first.
pub fn shown_in_falling_order(alloc: Global, script: &Script) -> Result<Vec<u8>, Mistake> {
    let mut shown = CommandLines::new(alloc);
    for at in (0..script.len()).rev() {
        let command = script.command(alloc, at)?;
        shown.add(&command)?;
    }
    Ok(shown.end()?)
}
