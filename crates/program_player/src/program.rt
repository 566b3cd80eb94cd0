//! The program `fartable` and its words.

use crate::desk::Desk;
use crate::mistake::Mistake;
use crate::reply::{add_lines, text};
use crate::runtime::{Machine, WordsAlone};
use crate::settings::{number, small};
use crate::writers::{Limits, Output};
use case_files::{Line, push_spelled};
use far_driver::{ProgramFault, RunFault, read_words, run_program};
use std::alloc::Global;
use std::sync::Wait;
use std::thread::Threads;

/// The words behind the call's name, as texts.
fn texts_of(alloc: Global, line: &Line) -> Result<Vec<String>, Mistake> {
    let mut words = Vec::new(alloc);
    for at in 1..=line.count() {
        match line.text_at(at) {
            Some(word) => words.push(String::from_str(alloc, word)?)?,
            None => return Err(Mistake::Call("a word of the program is a text")),
        }
    }
    Ok(words)
}

/// How a writer takes what it is given.
fn limits_of(line: &Line) -> Result<Limits, Mistake> {
    let room = number(line, "room", u64::MAX)?;
    Ok(Limits {
        room: usize::try_from(room).unwrap_or(usize::MAX),
        failing: small(line, "fails", u32::MAX)?,
        is_unflushed: line.named("flush") == Some(b"fails".as_slice()),
    })
}

impl Desk {
    /// `words COUNT WORD`: words of the next program, behind its own.
    pub fn words(&mut self, line: &Line) -> Result<(), Mistake> {
        let (Some(count), Some(word)) = (line.number_at(1), line.text_at(2)) else {
            return Err(Mistake::Call("behind the call stand a number and a word"));
        };
        if count > 1_000 {
            return Err(Mistake::Call("a program gets at most 1,000 words"));
        }
        let mut words = Vec::new(self.alloc);
        for _ in 0..count {
            words.push(String::from_str(self.alloc, word)?)?;
        }
        self.words = words;
        Ok(())
    }

    /// `output room=N fails=N flush=fails`: how the following writers take what they are given.
    pub fn output(&mut self, line: &Line) -> Result<(), Mistake> {
        self.limits = limits_of(line)?;
        Ok(())
    }

    /// `errors room=N`: the same of standard error.
    pub fn errors(&mut self, line: &Line) -> Result<(), Mistake> {
        self.error_limits = limits_of(line)?;
        Ok(())
    }

    /// `program WORD..`: the status, the output, and what stands on standard error.
    pub fn program<R>(&self, rt: &R, line: &Line) -> Result<String, Mistake>
    where
        R: Threads + Wait + AllocGlobal + Sync,
    {
        let alloc = self.alloc;
        let mut words = texts_of(alloc, line)?;
        for word in &self.words {
            words.push(String::from_str(alloc, word.as_str())?)?;
        }
        let machine = Machine {
            threads: rt,
            alloc,
            files: self.files.as_slice(),
        };
        let mut out = Output::new(alloc, self.limits);
        let mut errors = Output::new(alloc, self.error_limits);
        let status = run_program(&machine, words.as_slice(), &mut out, &mut errors);
        if out.tells_memory() || errors.tells_memory() || errors.has_line(b"contents: memory") {
            return Err(Mistake::Memory);
        }
        let mut reply = format!(in alloc; "{status}")?;
        add_lines(alloc, &mut reply, "", out.kept.as_slice())?;
        add_lines(alloc, &mut reply, "error: ", errors.kept.as_slice())?;
        Ok(reply)
    }

    /// `read_words WORD..`: what the program takes of the words of its process, of which its name is the first.
    pub fn read_words(&self, line: &Line) -> Result<String, Mistake> {
        let alloc = self.alloc;
        let process = WordsAlone {
            alloc,
            words: line.rest(1),
        };
        let words = match read_words(&process) {
            Ok(words) => words,
            Err(ProgramFault::Run(RunFault::Memory)) => return Err(Mistake::Memory),
            Err(fault) => {
                return Ok(format!(in alloc; "status {}: {fault}", fault.status())?);
            }
        };
        let mut reply = text(alloc, "")?;
        for word in &words {
            if !reply.is_empty() {
                reply.push(' ')?;
            }
            push_spelled(&mut reply, word.as_bytes())?;
        }
        Ok(reply)
    }
}
