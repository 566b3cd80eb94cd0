//! What is written where there is room for few bytes.

use crate::desk::Desk;
use crate::lists::ends_of;
use crate::mistake::Mistake;
use crate::output::{status_of, write_lists};
use crate::plain::{run_plain, table_of};
use crate::reply::text;
use crate::writers::{Limits, Output};
use case_files::Line;
use run_lines::{write_contents, write_files};
use std::thread::Threads;

/// What is written.
#[derive(Clone, Copy)]
enum Writing {
    /// The run of the file on the table of one thread.
    Plain,
    /// The lines of the files, and the pairs.
    Lines,
    /// The lines of lists of pairs.
    Lists,
}

fn writing_of(line: &Line) -> Result<Writing, Mistake> {
    let call = line.call();
    if call == "plain_in_each_room" {
        Ok(Writing::Plain)
    } else if call == "lines_in_each_room" {
        Ok(Writing::Lines)
    } else {
        Ok(Writing::Lists)
    }
}

impl Desk {
    /// The files' lines and the pairs, which are lent.
    fn write_lines(&self, out: &mut Output) -> Result<&'static str, Mistake> {
        let mut ended = write_files(out, self.texts()?.as_slice());
        let mut lent = Vec::new(self.alloc);
        for pair in &self.pairs {
            lent.push(pair)?;
        }
        if ended.is_ok() {
            ended = write_contents(out, lent.as_slice());
        }
        Ok(status_of(&ended))
    }

    /// Writes, and says how that ended.
    fn write_into<R: Threads + Sync>(
        &self,
        rt: &R,
        line: &Line,
        out: &mut Output,
    ) -> Result<String, Mistake> {
        let alloc = self.alloc;
        let status = match writing_of(line)? {
            Writing::Lines => text(alloc, self.write_lines(out)?)?,
            Writing::Lists => {
                let ends = ends_of(alloc, line)?;
                let ended = write_lists(rt, alloc, ends.as_slice(), out)?;
                text(alloc, status_of(&ended))?
            }
            Writing::Plain => {
                let file = self.given_one(line)?;
                match run_plain(alloc, table_of(line)?, file, out)? {
                    Ok(()) => text(alloc, "ok")?,
                    Err(fault) => format!(in alloc; "{fault}")?,
                }
            }
        };
        if out.is_refused {
            return Err(Mistake::Memory);
        }
        Ok(status)
    }

    /// `plain_in_each_room`, `lines_in_each_room`, `lists_in_each_room END..`: how the writing ends in each room that is too small,
    /// where what fits is written, and how often.
    pub fn in_each_room<R>(&self, rt: &R, line: &Line) -> Result<String, Mistake>
    where
        R: Threads + Sync,
    {
        let alloc = self.alloc;
        let mut whole = Output::new(alloc, Limits::none());
        let ended = self.write_into(rt, line, &mut whole)?;
        if ended.as_str() != "ok" {
            return Ok(ended);
        }
        let wanted = whole.kept.as_slice();
        let mut refused = String::new(alloc);
        for room in 0..=wanted.len() {
            let found = self.in_room(rt, line, room, wanted)?;
            let is_last = room == wanted.len();
            if is_last != (found.as_str() == "ok") {
                return Ok(format!(in alloc; "room for {room} bytes: {found}")?);
            }
            if !is_last {
                if room > 0 && found.as_str() != refused.as_str() {
                    return Ok(format!(in alloc; "room for {room} bytes: {found}")?);
                }
                refused = found;
            }
        }
        Ok(format!(in alloc; "{refused} {} times", wanted.len())?)
    }

    /// How the writing ends in this room.
    fn in_room<R: Threads + Sync>(
        &self,
        rt: &R,
        line: &Line,
        room: usize,
        wanted: &[u8],
    ) -> Result<String, Mistake> {
        let limits = Limits {
            room,
            ..Limits::none()
        };
        let mut out = Output::new(self.alloc, limits);
        let found = self.write_into(rt, line, &mut out)?;
        if wanted.get(..room) != Some(out.kept.as_slice()) {
            return text(self.alloc, "other bytes than those that fit");
        }
        Ok(found)
    }
}
