//! What INFO tells, and how a case waits for it.

use crate::calls::Player;
use anyhow::{Result, bail};
use case_files::Line;
use std::rt::Clock;
use std::sync::Wait;
use std::thread;
use std::time::Duration;

/// How often INFO is asked at most for what has to come, and how many milliseconds it is waited between: for 40 seconds in all.
const ASKS: u32 = 8_000;

const NAP: u64 = 5;

/// How often it is looked at most whether a field rests, and how many milliseconds it has to.
const RESTS: u32 = 400;

const REST: u64 = 100;

/// What stands behind `NAME:` in a line of INFO.
fn value_of<'t>(text: &'t str, name: &str) -> Option<&'t str> {
    for line in text.split('\n') {
        if let Some(rest) = line.strip_prefix(name) {
            if let Some(value) = rest.strip_prefix(':') {
                return Some(value);
            }
        }
    }
    None
}

/// What a field has to be: `FIELD:VALUE`, or `FIELD>NUMBER`.
fn is_met(text: &str, wanted: &str) -> Result<bool> {
    if let Some((name, least)) = wanted.split_once('>') {
        let value = value_of(text, name).and_then(|value| value.parse::<u64>().ok());
        let (Some(value), Ok(least)) = (value, least.parse::<u64>()) else {
            bail!("INFO has no such number");
        };
        return Ok(value > least);
    }
    match wanted.split_once(':') {
        Some((name, value)) => Ok(value_of(text, name) == Some(value)),
        None => bail!("what is wanted is FIELD:VALUE or FIELD>NUMBER"),
    }
}

/// The name of the field in `FIELD:VALUE` or `FIELD>NUMBER`.
fn name_in(wanted: &str) -> &str {
    let name = match wanted.split_once('>') {
        Some((name, _)) => name,
        None => wanted,
    };
    match name.split_once(':') {
        Some((name, _)) => name,
        None => name,
    }
}

impl<'a, R: Wait + Clock> Player<'a, R> {
    /// What INFO tells of the section that a line names.
    fn section(&mut self, line: &Line) -> Result<String> {
        let Some(section) = line.word(1) else {
            bail!("a section of INFO is named first");
        };
        self.ask_info(line, section)
    }

    /// `info SECTION FIELD..`: these fields.
    pub fn info(&mut self, line: &Line) -> Result<String> {
        let text = self.section(line)?;
        let mut told = String::new(self.alloc);
        for place in 2..line.words.len() {
            let name = line.text_at(place).unwrap_or("");
            let Some(value) = value_of(text.as_str(), name) else {
                bail!("INFO has no such field");
            };
            if place > 2 {
                told.push(' ')?;
            }
            told.push_str(name)?;
            told.push(':')?;
            told.push_str(value)?;
        }
        Ok(told)
    }

    /// `until SECTION FIELD:VALUE`: INFO is asked until it tells this.
    pub fn until(&mut self, line: &Line) -> Result<String> {
        let wanted = line.text_at(2).unwrap_or("");
        for _ in 0..ASKS {
            let text = self.section(line)?;
            if is_met(text.as_str(), wanted)? {
                return Ok(String::new(self.alloc));
            }
            thread::sleep(self.rt, Duration::from_millis(NAP));
        }
        let text = self.section(line)?;
        let name = name_in(wanted);
        let value = value_of(text.as_str(), name).unwrap_or("");
        Ok(format!(in self.alloc; "{name}:{value}")?)
    }

    /// `rests SECTION FIELD`: INFO is asked until the field has stayed the same for a tenth of a second.
    pub fn rests(&mut self, line: &Line) -> Result<String> {
        let name = line.text_at(2).unwrap_or("");
        for _ in 0..RESTS {
            let before = self.section(line)?;
            thread::sleep(self.rt, Duration::from_millis(REST));
            let after = self.section(line)?;
            if value_of(before.as_str(), name) == value_of(after.as_str(), name) {
                return Ok(String::new(self.alloc));
            }
        }
        Ok(format!(in self.alloc; "it changes")?)
    }

    /// `changes SECTION FIELD`: INFO is asked until the field changes.
    pub fn changes(&mut self, line: &Line) -> Result<String> {
        let name = line.text_at(2).unwrap_or("");
        let before = self.section(line)?;
        for _ in 0..ASKS {
            thread::sleep(self.rt, Duration::from_millis(NAP));
            let after = self.section(line)?;
            if value_of(before.as_str(), name) != value_of(after.as_str(), name) {
                return Ok(String::new(self.alloc));
            }
        }
        Ok(format!(in self.alloc; "it rests")?)
    }
}
