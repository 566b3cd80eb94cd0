//! The calls of a case of words. The thread that a line names is the pass that makes the call.
use super::installs::{Over, Request};
use super::threads::{send, share};
use super::user::User;
use crate::replies::{named, no_call, number, room, word};
use anyhow::{Result, bail};
use case_files::{Line, Playing};
use std::thread::Threads;
use table_core::word::{EMPTY_PLACE, FAR_PLACE};
use version_words::Naming;

/// The pass that makes the call: the first where none is named.
fn pass_of(line: &Line) -> Result<u64> {
    if line.thread().is_empty() {
        return Ok(1);
    }
    match str::from_utf8(line.thread()) {
        Ok(text) => match text.parse::<u64>() {
            Ok(number) => Ok(number),
            Err(_) => bail!("what makes a call is the number of a pass"),
        },
        Err(_) => bail!("what makes a call is the number of a pass"),
    }
}

/// A place: `empty`, `far`, or the number of a frame.
fn place_at(line: &Line, place: usize) -> Result<u32> {
    match line.text_at(place) {
        Some("empty") => return Ok(EMPTY_PLACE),
        Some("far") => return Ok(FAR_PLACE),
        _ => {}
    }
    let place = number(line, place)?;
    if place >= 16_777_216 {
        bail!("a place is below 2^24");
    }
    Ok(place as u32)
}

/// What stands behind the name of an install or a check.
fn asked(line: &Line) -> Result<Request<'_>> {
    let key = word(line, 2)?;
    match line.text_at(1) {
        Some("get") => Ok(Request::Get(key)),
        Some("put") => Ok(Request::Put(key, word(line, 3)?)),
        Some("remove") => Ok(Request::Remove(key)),
        Some("put_if") => Ok(Request::PutIf(key, line.named("expected"), word(line, 3)?)),
        Some("move") => Ok(Request::Move(key)),
        _ => bail!("get, put, remove, put_if or move"),
    }
}

/// The number behind `NAME=`, which has to be there.
fn needed(line: &Line, name: &str) -> Result<u64> {
    if line.named(name).is_none() {
        bail!("{name}= is missing");
    }
    named(line, name, u64::MAX, 0)
}

/// The place behind `place=`.
fn over(line: &Line) -> Result<Over> {
    let place = match line.named("place") {
        Some(b"empty") => u64::from(EMPTY_PLACE),
        Some(b"far") => u64::from(FAR_PLACE),
        _ => named(line, "place", 16_777_215, 0)?,
    };
    Ok(Over {
        old: needed(line, "old")?,
        name: needed(line, "name")?,
        place: place as u32,
    })
}

impl<J: Naming> User<J> {
    /// Plays the lines behind the opening.
    pub fn play<R: Threads + Sync>(&mut self, rt: &R, playing: &mut Playing<'_>)
    where
        J: Send + Sync,
    {
        for _ in 0..playing.case().lines.len() {
            let Some(line) = playing.next() else {
                return;
            };
            for _ in 0..2 {
                let reply = self.reply(rt, line);
                if !playing.tell(line, reply) {
                    break;
                }
            }
        }
    }

    fn reply<R: Threads + Sync>(&mut self, rt: &R, line: &Line) -> Result<String>
    where
        J: Send + Sync,
    {
        let mut out = room(self.alloc)?;
        self.make_room()?;
        match line.call() {
            "share" => {
                let rounds = named(line, "rounds", 1_000_000, 100)?;
                share(rt, self, rounds as u32, &mut out)?;
            }
            "send" => send(rt, self, word(line, 1)?, place_at(line, 2)?, &mut out)?,
            _ => self.call(line, &mut out)?,
        }
        Ok(out)
    }

    fn call(&mut self, line: &Line, out: &mut String) -> Result<()> {
        let pass = pass_of(line)?;
        match line.call() {
            "buckets" => write!(out, "{}", self.words.buckets())?,
            "names_left" => write!(out, "{}", self.words.names_left())?,
            "enter" => self.enter(named(line, "own", u64::MAX, 0)?, out)?,
            "own" => write!(out, "{}", self.caller(pass)?.own)?,
            "look" => self.look(pass, word(line, 1)?, out)?,
            "name" => self.name(pass, word(line, 1)?, line.word(2), out)?,
            "give_up" => self.give_up(number(line, 1)?, place_at(line, 2)?, out)?,
            "install" => self.install(pass, asked(line)?, over(line)?, out)?,
            "check" => self.check(pass, asked(line)?, needed(line, "old")?, out)?,
            "mark" => self.mark(pass, word(line, 1)?, out)?,
            "learn" => self.learn(pass, word(line, 1)?)?,
            "never" => self.never(pass, number(line, 1)?)?,
            "gather" => self.gather(line, out)?,
            "gather_passes" => self.gather_passes(line, out)?,
            "differ" => self.differ(number(line, 1)?, number(line, 2)?)?,
            _ => no_call(line)?,
        }
        Ok(())
    }
}
