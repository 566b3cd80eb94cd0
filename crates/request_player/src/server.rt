//! The opening `server_replies`: what the commands to the server itself reply.

use crate::facts::{NO_OPTIONS, no_facts, set_facts, set_options, statistics};
use crate::mistake::{Mistake, WORDS};
use crate::reply::truth;
use crate::request::Request;
use crate::token::{BEFORE, behind_before, elements, shown, text_of};
use case_files::{Line, spelled};
use commands::read;
use server_commands::{
    Facts, Options, SlowCommand, command_count, command_docs, command_list, config_get, fault,
    hello, info, kept_arguments, slow_log_get, slow_log_len,
};
use std::alloc::{AllocError, Global};

/// When requests are read, in milliseconds since 1970.
const NOW: u64 = 1_000_000;

/// A server.
#[derive(Drop)]
pub(crate) struct Server {
    alloc: Global,
    facts: Facts,
    options: Options,
    /// What SLOWLOG GET replies.
    slow: Vec<SlowCommand>,
}

/// The string's lines, each of which ends with CR LF, or the string in quotes where they do not.
fn lines_of(alloc: Global, text: &[u8]) -> Result<String, Mistake> {
    let Ok(seen) = str::from_utf8(text) else {
        return Ok(spelled(alloc, text)?);
    };
    let Some(whole) = seen.strip_suffix("\r\n") else {
        return Ok(spelled(alloc, text)?);
    };
    let mut out = String::new(alloc);
    for line in whole.split("\r\n") {
        if line.bytes().any(|byte| byte < b' ' || byte > b'~') {
            return Ok(spelled(alloc, text)?);
        }
        if !out.is_empty() {
            out.push('\n')?;
        }
        out.push_str(line)?;
    }
    Ok(out)
}

/// Those of the lines that tell of the command, as `["get" ..`, or `none`.
fn entries_of(alloc: Global, lines: &str, name: &str) -> Result<String, Mistake> {
    let front = format!(in alloc; "[\"{name}\" ")?;
    let mut out = String::new(alloc);
    for line in lines.split('\n') {
        if line.starts_with(front.as_str()) {
            if !out.is_empty() {
                out.push('\n')?;
            }
            out.push_str(line)?;
        }
    }
    if out.is_empty() {
        out.push_str("none")?;
    }
    Ok(out)
}

impl Server {
    pub(crate) fn new(alloc: Global) -> Server {
        Server {
            alloc,
            facts: no_facts(),
            options: NO_OPTIONS,
            slow: Vec::new(alloc),
        }
    }

    /// A buffer with what stands before the reply.
    fn buffer(&self) -> Result<Vec<u8>, AllocError> {
        Vec::from_slice(self.alloc, BEFORE)
    }

    fn shown_behind(&self, done: Result<(), AllocError>, out: &[u8]) -> Result<String, Mistake> {
        let (_, told) = behind_before(done, out)?;
        shown(self.alloc, told)
    }

    fn hello(&self, line: &Line) -> Result<String, Mistake> {
        let client = line.number_at(1).ok_or(WORDS)?;
        let mut out = self.buffer()?;
        let done = hello(client, &mut out);
        self.shown_behind(done, out.as_slice())
    }

    /// A call that is given nothing.
    fn bare(&self, line: &Line) -> Result<String, Mistake> {
        let mut out = self.buffer()?;
        let done = match line.call() {
            "slow_log_get" => slow_log_get(self.slow.as_slice(), &mut out),
            "slow_log_len" => slow_log_len(self.slow.len().min(u32::MAX as usize) as u32, &mut out),
            _ => command_count(&mut out),
        };
        self.shown_behind(done, out.as_slice())
    }

    /// One more slow command: its number, when it began, how long it took, the client's address and name, and its words.
    fn add_slow(&mut self, line: &Line, is_secret: bool) -> Result<String, Mistake> {
        let (alloc, request) = (self.alloc, Request::of(self.alloc, line, 6)?);
        let mut texts = [Vec::new(alloc), Vec::new(alloc)];
        for (place, text) in texts.iter_mut().enumerate() {
            let word = line.text_at(4 + place).ok_or(WORDS)?;
            text.extend_from_slice(word.as_bytes())?;
        }
        let [address, name] = texts;
        let command = SlowCommand {
            id: line.number_at(1).ok_or(WORDS)?,
            began: line.number_at(2).ok_or(WORDS)?,
            took: line.number_at(3).ok_or(WORDS)?,
            arguments: kept_arguments(alloc, request.arguments(), is_secret)?,
            address,
            name,
        };
        self.slow.push(command)?;
        Ok(String::new(alloc))
    }

    /// The entry of a command, or how many there are and the first of them.
    fn command_list(&self, line: &Line) -> Result<String, Mistake> {
        let mut out = self.buffer()?;
        let done = command_list(&mut out);
        let (_, told) = behind_before(done, out.as_slice())?;
        let (count, lines) = elements(self.alloc, told)?;
        if let Some(name) = line.text_at(1) {
            return entries_of(self.alloc, lines.as_str(), name);
        }
        let first = lines.as_str().split('\n').next().unwrap_or("");
        Ok(format!(in self.alloc; "{count} entries, the first {first}")?)
    }

    /// What is told of the commands that are named, or how much of all, and of the first.
    fn command_docs(&self, line: &Line) -> Result<String, Mistake> {
        let request = Request::of(self.alloc, line, 1)?;
        let mut out = self.buffer()?;
        let done = command_docs(request.arguments(), &mut out);
        let (_, told) = behind_before(done, out.as_slice())?;
        if line.count() > 0 {
            return shown(self.alloc, told);
        }
        let (count, lines) = elements(self.alloc, told)?;
        let lines = lines.as_str();
        let first = lines.split('\n').next().unwrap_or("");
        let docs = lines.split('\n');
        let docs = docs.filter(|doc| doc.starts_with("[\"summary\" ")).count();
        Ok(format!(in self.alloc; "{count} elements, {docs} with a summary, the first {first}")?)
    }

    fn config_get(&self, line: &Line) -> Result<String, Mistake> {
        let request = Request::of(self.alloc, line, 1)?;
        let mut out = self.buffer()?;
        let done = config_get(&self.options, request.arguments(), &mut out);
        self.shown_behind(done, out.as_slice())
    }

    /// The page of the sections that the words from this place on ask for.
    fn page(&self, line: &Line, from: usize) -> Result<String, Mistake> {
        let request = Request::of(self.alloc, line, from)?;
        let mut out = self.buffer()?;
        let done = info(&self.facts, request.arguments(), &mut out);
        let (_, told) = behind_before(done, out.as_slice())?;
        lines_of(self.alloc, text_of(told)?)
    }

    /// Whether the page is the one that comes where no section is asked for.
    fn is_whole_page(&self, line: &Line) -> Result<String, Mistake> {
        let page = self.page(line, 1)?;
        let whole = self.page(line, line.words.len())?;
        Ok(truth(self.alloc, page.as_str() == whole.as_str())?)
    }

    /// What stands behind `NAME:` on the whole page.
    fn info_line(&self, line: &Line) -> Result<String, Mistake> {
        let name = line.text_at(1).ok_or(WORDS)?;
        let page = self.page(line, line.words.len())?;
        for fact in page.as_str().split('\n') {
            if let Some((front, value)) = fact.split_once(':')
                && front == name
            {
                return Ok(String::from_str(self.alloc, value)?);
            }
        }
        Err(Mistake::Said("the page has no such line"))
    }

    /// The error that a request gets.
    fn fault(&self, line: &Line) -> Result<String, Mistake> {
        let request = Request::of(self.alloc, line, 1)?;
        let Err(found) = read(request.arguments(), NOW) else {
            return Err(Mistake::Said("the request is a command"));
        };
        let mut out = self.buffer()?;
        let done = fault(found, &mut out);
        self.shown_behind(done, out.as_slice())
    }

    fn set(&mut self, line: &Line) -> Result<String, Mistake> {
        let done = match line.call() {
            "facts" => set_facts(&mut self.facts, line),
            _ => set_options(&mut self.options, line),
        };
        done.ok_or(WORDS)?;
        Ok(String::new(self.alloc))
    }

    pub(crate) fn call(&mut self, line: &Line) -> Result<String, Mistake> {
        match line.call() {
            "facts" | "options" => self.set(line),
            "slow" => self.add_slow(line, false),
            "slow_secret" => self.add_slow(line, true),
            "hello" => self.hello(line),
            "slow_log_get" | "slow_log_len" | "command_count" => self.bare(line),
            "command_list" => self.command_list(line),
            "command_docs" => self.command_docs(line),
            "config_get" => self.config_get(line),
            "info" => self.page(line, 1),
            "statistics" => Ok(statistics(self.alloc, &self.facts)?),
            "is_whole_page" => self.is_whole_page(line),
            "info_line" => self.info_line(line),
            "fault" => self.fault(line),
            _ => Err(Mistake::Said("`server_replies` has no such call")),
        }
    }
}
