//! The opening `requests`: what a request is read as, and the parts of commands that are functions of what they are given.

use crate::key_request::put_command;
use crate::mistake::{Mistake, WORDS};
use crate::reply::{Reply, one_word, truth};
use crate::request::{Request, signed_at};
use crate::token::push_text;
use case_files::{Line, spelled};
use commands::{
    Clock, Time, add_to, database_in, is_expired, matches, push_stored, range_of, read,
    read_stored, whole_number,
};
use std::alloc::{AllocError, Global};

/// What the words behind `read` ask for, or the error's text.
fn read_words(alloc: Global, line: &Line, now: u64) -> Result<String, Mistake> {
    let request = Request::of(alloc, line, 1)?;
    match read(request.arguments(), now) {
        Ok(command) => {
            let mut out = Reply::new(alloc);
            put_command(&mut out, command)?;
            Ok(out.into_text())
        }
        Err(fault) => {
            let text = fault.to_string(alloc)?;
            let mut out = String::new(alloc);
            push_text(&mut out, text.as_bytes())?;
            Ok(out)
        }
    }
}

fn number_or_none(alloc: Global, number: Option<i64>) -> Result<String, AllocError> {
    match number {
        Some(number) => number.to_string(alloc),
        None => one_word(alloc, "none"),
    }
}

/// The number of the database that a word names, or the error's text.
fn database(alloc: Global, line: &Line) -> Result<String, Mistake> {
    let index = line.word(1).ok_or(WORDS)?;
    let last = u8::try_from(line.number_at(2).ok_or(WORDS)?)
        .ok()
        .ok_or(WORDS)?;
    match database_in(index, last) {
        Ok(database) => Ok(database.to_string(alloc)?),
        Err(fault) => Ok(fault.to_string(alloc)?),
    }
}

fn sum(alloc: Global, line: &Line) -> Result<String, Mistake> {
    let value = signed_at(line, 1).ok_or(WORDS)?;
    let by = signed_at(line, 2).ok_or(WORDS)?;
    Ok(number_or_none(alloc, add_to(value, by))?)
}

fn range(alloc: Global, line: &Line) -> Result<String, Mistake> {
    let first = signed_at(line, 1).ok_or(WORDS)?;
    let last = signed_at(line, 2).ok_or(WORDS)?;
    let len = line.number_at(3).ok_or(WORDS)?;
    let range = range_of(first, last, len as usize);
    Ok(format!(in alloc; "from {} to {}", range.from, range.to)?)
}

fn stored(alloc: Global, line: &Line) -> Result<String, Mistake> {
    let deadline = line.number_at(1).ok_or(WORDS)?;
    let value = line.word(2).ok_or(WORDS)?;
    let mut out = Vec::new(alloc);
    push_stored(&mut out, deadline, value)?;
    Ok(spelled(alloc, out.as_slice())?)
}

fn unstored(alloc: Global, line: &Line) -> Result<String, Mistake> {
    let bytes = line.word(1).ok_or(WORDS)?;
    match read_stored(bytes) {
        None => Ok(one_word(alloc, "none")?),
        Some((deadline, value)) => {
            let mut out = Reply::new(alloc);
            out.put_number(deadline)?;
            out.put_bytes(value)?;
            Ok(out.into_text())
        }
    }
}

fn clock_of(word: &str) -> Option<Clock> {
    match word {
        "seconds" => Some(Clock::Seconds),
        "milliseconds" => Some(Clock::Milliseconds),
        "unix-seconds" => Some(Clock::UnixSeconds),
        "unix-milliseconds" => Some(Clock::UnixMilliseconds),
        _ => None,
    }
}

fn deadline(alloc: Global, line: &Line, now: u64) -> Result<String, Mistake> {
    let amount = signed_at(line, 1).ok_or(WORDS)?;
    let clock = clock_of(line.text_at(2).ok_or(WORDS)?).ok_or(WORDS)?;
    match (Time { amount, clock }).deadline(now) {
        Some(deadline) => Ok(deadline.to_string(alloc)?),
        None => Ok(one_word(alloc, "none")?),
    }
}

/// The reply to the line at a time, in milliseconds since 1970.
pub(crate) fn call(alloc: Global, line: &Line, now: u64) -> Result<String, Mistake> {
    match line.call() {
        "read" => read_words(alloc, line, now),
        "whole_number" => {
            let number = whole_number(line.word(1).ok_or(WORDS)?);
            Ok(number_or_none(alloc, number)?)
        }
        "database_in" => database(alloc, line),
        "add_to" => sum(alloc, line),
        "range_of" => range(alloc, line),
        "push_stored" => stored(alloc, line),
        "read_stored" => unstored(alloc, line),
        "is_expired" => {
            let deadline = line.number_at(1).ok_or(WORDS)?;
            let at = line.number_at(2).ok_or(WORDS)?;
            Ok(truth(alloc, is_expired(deadline, at))?)
        }
        "deadline" => deadline(alloc, line, now),
        "matches" => {
            let pattern = line.word(1).ok_or(WORDS)?;
            let text = line.word(2).ok_or(WORDS)?;
            Ok(truth(alloc, matches(pattern, text))?)
        }
        _ => Err(Mistake::Said("`requests` has no such call")),
    }
}
