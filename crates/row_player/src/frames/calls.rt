//! The calls of a case of frames.
use super::other_reader::read_by_another;
use super::readers::read_and_reclaim;
use super::threads::share;
use super::user::User;
use crate::replies::{byte, named, no_call, number, refused, room, small};
use crate::rows::object;
use anyhow::{Result, bail};
use case_files::{Line, Playing};
use far_object::{Object, Text};
use frame_cache::{Frames, NoFrame};
use std::alloc::Global;
use std::thread::Threads;
use version_words::Naming;

/// The most frames that one line reserves or fills.
const MOST_AT_ONCE: u64 = 1_000_000;

/// So many objects of the value 1. None where memory is refused.
fn objects(alloc: Global, count: u64) -> Option<Vec<Object<Text, Text>>> {
    let mut objects = Vec::new(alloc);
    for _ in 0..count {
        objects.push(object(alloc, b'1')?).ok()?;
    }
    Some(objects)
}

impl<'a, J: Naming> User<'a, J> {
    /// Plays the lines behind the opening.
    pub fn play<R: Threads + Sync>(&mut self, rt: &R, playing: &mut Playing<'_>)
    where
        J: Send + Sync,
    {
        for _ in 0..playing.case().lines.len() {
            let Some(line) = playing.next() else {
                return;
            };
            for _ in 0..2 {
                let reply = self.reply(rt, line);
                if !playing.tell(line, reply) {
                    break;
                }
            }
        }
    }

    fn reply<R: Threads + Sync>(&mut self, rt: &R, line: &Line) -> Result<String>
    where
        J: Send + Sync,
    {
        let mut out = room(self.alloc)?;
        self.make_room()?;
        match line.call() {
            "share" | "read_and_reclaim" | "read_by_another" => self.run(rt, line, &mut out)?,
            _ => self.call(line, &mut out)?,
        }
        Ok(out)
    }

    fn call(&mut self, line: &Line, out: &mut String) -> Result<()> {
        match line.call() {
            "count" | "free" | "has_free" | "frame_size" => self.tell_sizes(line, out),
            "seen" | "touch" | "touched" | "prefetch" => self.tell_frame(line, out),
            "reserve" | "reserve_from" | "reserve_many" => self.call_reserve(line, out),
            "reserve_owned" | "own" | "give_back" => self.call_owned(line, out),
            "cancel" => {
                drop(self.taken(number(line, 1)?)?);
                Ok(())
            }
            "cancel_all" => {
                self.cancel_all();
                Ok(())
            }
            "enter" => self.enter(small(line, 1)?, number(line, 2)?, out),
            "show" => self.show(number(line, 1)?, out),
            "close" => self.close(number(line, 1)?),
            _ => self.call_version(line, out),
        }
    }

    fn tell_sizes(&self, line: &Line, out: &mut String) -> Result<()> {
        match line.call() {
            "count" => write!(out, "{}", self.frames.count())?,
            "free" => write!(out, "{}", self.frames.free())?,
            "has_free" => write!(out, "{}", self.frames.has_free())?,
            _ => match line.text_at(1) {
                Some("text") => write!(out, "{}", Frames::<Text, Text, J>::frame_size())?,
                Some("number") => write!(out, "{}", Frames::<u64, Text, J>::frame_size())?,
                _ => bail!("the keys are `text` or `number`"),
            },
        }
        Ok(())
    }

    fn tell_frame(&self, line: &Line, out: &mut String) -> Result<()> {
        let frame = small(line, 1)?;
        match line.call() {
            "seen" => match self.frames.seen(frame) {
                Some((bucket, name)) => write!(out, "{bucket} {name}")?,
                None => out.push_str("none")?,
            },
            "touch" => self.frames.touch(frame),
            "touched" => write!(out, "{}", self.frames.touched(frame))?,
            _ => self.frames.prefetch(frame),
        }
        Ok(())
    }

    fn call_reserve(&mut self, line: &Line, out: &mut String) -> Result<()> {
        match line.call() {
            "reserve" => self.reserve(0, out),
            "reserve_from" => self.reserve(small(line, 1)?, out),
            _ => {
                let count = number(line, 1)?;
                let from = named(line, "from", 4_294_967_295, 0)?;
                if count > MOST_AT_ONCE || from > 4_294_967_295 {
                    bail!("no more than a million frames at once");
                }
                if self.taken.reserve(count as usize).is_err() {
                    return refused(out);
                }
                self.reserve_many(count as u32, from as u32, out)
            }
        }
    }

    fn call_owned(&mut self, line: &Line, out: &mut String) -> Result<()> {
        let frame = number(line, 1)?;
        match (line.call(), line.text_at(2)) {
            ("own", None) => self.own(frame, out),
            ("reserve_owned", None) => self.reserve_owned(frame, out),
            ("reserve_owned", Some("elsewhere")) => self.reserve_elsewhere(frame, out),
            ("give_back", None) => {
                let owned = self.owned(frame)?;
                self.frames.give_back(owned);
                Ok(())
            }
            _ => bail!("a frame, and behind `reserve_owned` perhaps `elsewhere`"),
        }
    }

    fn call_version(&mut self, line: &Line, out: &mut String) -> Result<()> {
        match line.call() {
            "name" => self.name(small(line, 1)?, byte(line, 2)?, out),
            "fill" => self.fill(number(line, 1)?, number(line, 2)?, out),
            "give_up" => self.give_up(number(line, 1)?, small(line, 2)?),
            "reclaim" => self.reclaim(number(line, 1)?, out),
            "reclaim_owned" => self.reclaim_owned(number(line, 1)?, out),
            "retire" => self.retire(number(line, 1)?, small(line, 2)?, number(line, 3)?, out),
            "retire_for" => {
                let others = (number(line, 3)?, number(line, 4)?);
                self.retire_for(number(line, 1)?, others, number(line, 2)?, out)
            }
            "put" => self.call_put(line, out),
            "put_many" => self.call_put_many(line, out),
            _ => no_call(line),
        }
    }

    fn call_put(&mut self, line: &Line, out: &mut String) -> Result<()> {
        let from = named(line, "from", 4_294_967_295, 0)?;
        if from > 4_294_967_295 {
            bail!("a frame is below 2^32");
        }
        let Some(object) = object(self.alloc, byte(line, 2)?) else {
            return refused(out);
        };
        match self.put(from as u32, small(line, 1)?, object)? {
            Some((frame, name)) => write!(out, "{frame} {name}")?,
            None => write!(out, "{NoFrame}")?,
        }
        Ok(())
    }

    /// So many puts into the bucket 0, and what the first and the last reply, where each comes into the frame behind the last
    /// one's and under the name behind the last one's.
    fn call_put_many(&mut self, line: &Line, out: &mut String) -> Result<()> {
        let count = number(line, 1)?;
        if count > MOST_AT_ONCE {
            bail!("no more than a million frames at once");
        }
        if self.spares.reserve(count as usize).is_err() {
            return refused(out);
        }
        let Some(objects) = objects(self.alloc, count) else {
            return refused(out);
        };
        let mut first = None;
        let mut at = 0u32;
        for object in objects {
            let Some((frame, name)) = self.put(0, 0, object)? else {
                bail!("no frame is free behind {at} puts");
            };
            let (one, other) = *first.get_or_insert((frame, name));
            if frame != one.wrapping_add(at) || name != other.wrapping_add(u64::from(at)) {
                bail!("put {at} goes to {frame} under the name {name}");
            }
            at = at.wrapping_add(1);
        }
        if let Some((frame, name)) = first {
            write!(out, "{frame} {name}")?;
        }
        Ok(())
    }

    fn run<R: Threads + Sync>(&mut self, rt: &R, line: &Line, out: &mut String) -> Result<()>
    where
        J: Send + Sync,
    {
        match line.call() {
            "share" => {
                let threads = named(line, "threads", 4, 2)?;
                let rounds = named(line, "rounds", 1_000_000, 100)?;
                share(rt, self, threads, rounds as u32, out)
            }
            "read_and_reclaim" => {
                let versions = named(line, "versions", 1_000_000, 1)?;
                let looks = named(line, "looks", 1_000_000, 1)?;
                read_and_reclaim(rt, self, versions as u32, looks as u32, out)
            }
            _ => read_by_another(self, small(line, 1)?, number(line, 2)?, out),
        }
    }
}
