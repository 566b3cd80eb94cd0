//! The opening `one_key`: what a command on one key replies, and what it leaves there.

use crate::mistake::{Mistake, WORDS};
use crate::reply::{Reply, one_word, truth};
use crate::request::Request;
use crate::token::{BEFORE, behind_before, push_replies};
use case_files::{Line, push_spelled};
use commands::{push_stored, read, read_stored};
use key_commands::{Effect, KeyCommand, apply, is_blind, on_one_key};
use std::alloc::Global;

const NO_COMMAND: Mistake = Mistake::Said("the words are no command");

/// A key.
#[derive(Drop)]
pub(crate) struct Key {
    alloc: Global,
    /// In milliseconds since 1970.
    now: u64,
    /// The most bytes that a value may have.
    most: u32,
    /// The bytes that are stored, where it has any.
    found: Option<Vec<u8>>,
}

impl Key {
    pub(crate) fn new(alloc: Global, now: u64, most: u32) -> Key {
        Key {
            alloc,
            now,
            most,
            found: None,
        }
    }

    /// From now on the key has this value, or none.
    fn has(&mut self, line: &Line) -> Result<String, Mistake> {
        let mut stored = Vec::new(self.alloc);
        match (line.number_at(1), line.word(2)) {
            (Some(deadline), Some(value)) => push_stored(&mut stored, deadline, value)?,
            _ if line.count() == 0 => {
                self.found = None;
                return Ok(String::new(self.alloc));
            }
            _ => return Err(WORDS),
        }
        self.found = Some(stored);
        Ok(String::new(self.alloc))
    }

    /// From now on these bytes are stored, whether they are a value or not.
    fn has_bytes(&mut self, line: &Line) -> Result<String, Mistake> {
        let bytes = line.word(1).ok_or(WORDS)?;
        self.found = Some(Vec::from_slice(self.alloc, bytes)?);
        Ok(String::new(self.alloc))
    }

    fn push_effect(&self, effect: Effect, value: &[u8], out: &mut String) -> Result<(), Mistake> {
        match effect {
            Effect::Leaves => out.push_str(" leaves")?,
            Effect::Removes => out.push_str(" removes")?,
            Effect::Sets => {
                let Some((deadline, bytes)) = read_stored(value) else {
                    return Err(Mistake::Said("the key is set to what is no stored value"));
                };
                write!(out, " sets {deadline} ")?;
                push_spelled(out, bytes)?;
            }
        }
        Ok(())
    }

    /// Carries the command out. What the key has stays: a case says it anew.
    fn carry_out(&self, command: KeyCommand<'_>) -> Result<String, Mistake> {
        let alloc = self.alloc;
        let mut value = Vec::from_slice(alloc, b"bytes of before")?;
        let mut reply = Vec::from_slice(alloc, BEFORE)?;
        let found = self.found.as_ref().map(|bytes| bytes.as_slice());
        let done = apply(command, self.now, self.most, found, &mut value, &mut reply);
        let (effect, told) = behind_before(done, reply.as_slice())?;
        let mut out = String::new(alloc);
        push_replies(alloc, &mut out, told, ' ')?;
        self.push_effect(effect, value.as_slice(), &mut out)?;
        Ok(out)
    }

    fn apply(&self, line: &Line) -> Result<String, Mistake> {
        let request = Request::of(self.alloc, line, 1)?;
        let Ok(command) = read(request.arguments(), self.now) else {
            return Err(NO_COMMAND);
        };
        match on_one_key(command) {
            Some((_, asked)) => self.carry_out(asked),
            None => Ok(one_word(self.alloc, "none")?),
        }
    }

    /// The key of the command, or `none` where it is not on just one.
    fn on_one_key(&self, line: &Line) -> Result<String, Mistake> {
        let request = Request::of(self.alloc, line, 1)?;
        let Ok(command) = read(request.arguments(), self.now) else {
            return Err(NO_COMMAND);
        };
        let mut out = Reply::new(self.alloc);
        match on_one_key(command) {
            Some((key, _)) => out.put_bytes(key)?,
            None => out.put("none")?,
        }
        Ok(out.into_text())
    }

    fn is_blind(&self, line: &Line) -> Result<String, Mistake> {
        let request = Request::of(self.alloc, line, 1)?;
        let Ok(command) = read(request.arguments(), self.now) else {
            return Err(NO_COMMAND);
        };
        match on_one_key(command) {
            Some((_, asked)) => Ok(truth(self.alloc, is_blind(asked))?),
            None => Err(Mistake::Said("the command is not on one key")),
        }
    }

    pub(crate) fn call(&mut self, line: &Line) -> Result<String, Mistake> {
        match line.call() {
            "has" => self.has(line),
            "has_bytes" => self.has_bytes(line),
            "apply" => self.apply(line),
            "exists" => self.carry_out(KeyCommand::Exists),
            "delete" => self.carry_out(KeyCommand::Delete),
            "on_one_key" => self.on_one_key(line),
            "is_blind" => self.is_blind(line),
            _ => Err(Mistake::Said("`one_key` has no such call")),
        }
    }
}
