//! What a case has so far, and its calls by their names.

use crate::files::CaseFile;
use crate::mistake::Mistake;
use crate::writers::Limits;
use case_files::Line;
use far_object::Text;
use std::alloc::Global;
use std::sync::Wait;
use std::thread::Threads;

/// What a case has so far.
#[derive(Drop)]
pub struct Desk {
    pub alloc: Global,
    pub files: Vec<CaseFile>,
    /// Whether a call read or ran the files. The next file begins anew.
    pub is_used: bool,
    /// Further words of the program.
    pub words: Vec<String>,
    /// How writers take what they are given, and how standard error does.
    pub limits: Limits,
    pub error_limits: Limits,
    /// Lines and pairs that are written by themselves.
    pub lines: Vec<u8>,
    pub pairs: Vec<(Text, Text)>,
    /// How many writes had the bytes that a run counted.
    pub met: u64,
}

const NO_CALL: Mistake = Mistake::Call("there is no such call");

const NO_THREAD: Mistake = Mistake::Call("calls of this layer have no threads of their own");

impl Desk {
    pub fn new(alloc: Global) -> Desk {
        Desk {
            alloc,
            files: Vec::new(alloc),
            is_used: false,
            words: Vec::new(alloc),
            limits: Limits::none(),
            error_limits: Limits::none(),
            lines: Vec::new(alloc),
            pairs: Vec::new(alloc),
            met: 0,
        }
    }

    /// Plays a line, and gives its reply.
    pub fn play<R>(&mut self, rt: &R, line: &Line) -> Result<String, Mistake>
    where
        R: AllocGlobal + Threads + Wait + Sync,
    {
        if line.block != 0 || !line.thread().is_empty() {
            return Err(NO_THREAD);
        }
        if let Some(made) = self.make(line) {
            made?;
            return Ok(String::new(self.alloc));
        }
        let reply = match self.tell(line) {
            Some(told) => told?,
            None => self.call(rt, line)?,
        };
        self.is_used = true;
        Ok(reply)
    }

    /// Calls that make something for those behind them, and reply nothing.
    fn make(&mut self, line: &Line) -> Option<Result<(), Mistake>> {
        match line.call() {
            "file" => Some(self.file(line)),
            "files" => Some(self.files(line)),
            "append" => Some(self.append(line)),
            "cut" => Some(self.cut(line)),
            "repeat" => Some(self.repeat(line)),
            "numbered_file" => Some(self.numbered_file(line)),
            "reader" => Some(self.reader(line)),
            "output" => Some(self.output(line)),
            "errors" => Some(self.errors(line)),
            "words" => Some(self.words(line)),
            "pair" => Some(self.pair(line)),
            "push_line" => Some(self.push_line(line)),
            _ => None,
        }
    }

    /// Calls that no thread is needed for.
    fn tell(&self, line: &Line) -> Option<Result<String, Mistake>> {
        match line.call() {
            "plain" => Some(self.plain(line)),
            "falling_commands" => Some(self.falling_commands(line)),
            "buffered_commands" => Some(self.buffered_commands(line)),
            "reading" => Some(self.reading(line)),
            "fault_text" => Some(self.fault_text(line)),
            "reply_text" => Some(self.reply_text(line)),
            "lines" => Some(self.lines()),
            "write_files" => Some(self.write_files()),
            "write_contents" => Some(self.write_contents()),
            "read_words" => Some(self.read_words(line)),
            "met" => Some(self.met()),
            _ => None,
        }
    }

    /// Calls that may start threads.
    fn call<R>(&mut self, rt: &R, line: &Line) -> Result<String, Mistake>
    where
        R: AllocGlobal + Threads + Wait + Sync,
    {
        match line.call() {
            "commands" => self.commands(rt, line),
            "read_files" => self.read_files(rt, line),
            "write_lists" => self.write_lists(rt, line),
            "plain_in_each_room" => self.in_each_room(rt, line),
            "lines_in_each_room" => self.in_each_room(rt, line),
            "lists_in_each_room" => self.in_each_room(rt, line),
            "run" => self.run(rt, line),
            "every_run" => self.every_run(rt, line),
            "run_scripts" => self.run_scripts(rt, line),
            "random_files" => self.random_files(rt, line),
            "each_device_call_fails" => self.each_device_call_fails(rt, line),
            "each_write_fails" => self.each_write_fails(rt, line),
            "program" => self.program(rt, line),
            _ => Err(NO_CALL),
        }
    }
}
