//! The calls of a case of lanes.
use super::gates::write_beside;
use super::other_reader::read_by_another;
use super::threads::share;
use super::user::User;
use crate::replies::{byte, named, no_call, number, room, small};
use anyhow::{Result, bail};
use case_files::{Line, Playing};
use far_device::Device;
use far_object::Format;
use std::sync::Wait;
use std::sync::atomic::Ordering::SeqCst;
use std::thread::Threads;
use version_words::Naming;

/// The format at this place: 1 or 2, and 1 where none is named.
fn format_at(line: &Line, place: usize) -> Result<Format> {
    match line.text_at(place) {
        None | Some("1") => Ok(Format::One),
        Some("2") => Ok(Format::Two),
        Some(_) => bail!("the formats are 1 and 2"),
    }
}

impl<J: Naming, D: Device> User<J, D> {
    /// Plays the lines behind the opening.
    pub fn play<R: Threads + Wait + Sync>(&mut self, rt: &R, playing: &mut Playing<'_>)
    where
        J: Send + Sync,
        D: Send,
    {
        for _ in 0..playing.case().lines.len() {
            let Some(line) = playing.next() else {
                return;
            };
            for _ in 0..2 {
                let reply = self.reply(rt, line);
                if !playing.tell(line, reply) {
                    break;
                }
            }
        }
    }

    fn reply<R: Threads + Wait + Sync>(&mut self, rt: &R, line: &Line) -> Result<String>
    where
        J: Send + Sync,
        D: Send,
    {
        let mut out = room(self.alloc)?;
        self.make_room()?;
        match line.call() {
            "share" => {
                let rounds = named(line, "rounds", 1_000_000, 100)?;
                share(rt, self, rounds as u32, &mut out)?;
            }
            "write_beside" => write_beside(rt, self, number(line, 1)?, number(line, 2)?, &mut out)?,
            _ => self.call(rt, line, &mut out)?,
        }
        Ok(out)
    }

    fn call<R: Wait>(&mut self, rt: &R, line: &Line, out: &mut String) -> Result<()> {
        match line.call() {
            "count" => write!(out, "{}", self.lanes.count())?,
            "failures" => write!(out, "{}", self.signs.failures.load(SeqCst))?,
            "name" => self.name(small(line, 1)?, byte(line, 2)?, out)?,
            "write" => self.write(rt, number(line, 1)?, format_at(line, 2)?, out)?,
            "read" => self.read(rt, number(line, 1)?, out)?,
            "read_by_another" => read_by_another(rt, self, number(line, 1)?, out)?,
            "give_up" => self.give_up(number(line, 1)?)?,
            "remove" => self.remove(rt, number(line, 1)?, out)?,
            "forget" => self.lanes.forget(number(line, 1)?)?,
            _ => no_call(line)?,
        }
        Ok(())
    }
}
