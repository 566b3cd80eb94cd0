//! One caller of a row of words and of frames, and what it does to frames.
ghost use Rattle.std.specs.Prelude.{◌≡◌, false};

use super::holdings::{Open, Taken};
use crate::holdings::{Drawn, Unused, place_in, take};
use crate::replies::refused;
use crate::rows::one_pair;
use anyhow::{Result, bail};
use far_object::Text;
use frame_cache::{Frames, Missed, NoFrame, Owned, Scope};
use std::alloc::{AllocError, Global};
use version_words::{Naming, Pass, Spare, Words};

/// A caller. What it holds is dropped before the frames are.
#[derive(Drop)]
pub struct User<'a, J: Naming> {
    pub alloc: Global,
    pub words: &'a Words<Text, Text, J>,
    pub frames: &'a Frames<Text, Text, J>,
    pub pass: Pass<Text, Text, J>,
    pub taken: Vec<Taken<'a, J>>,
    pub open: Vec<Open<'a, J>>,
    pub owned: Vec<Owned>,
    pub drawn: Vec<Drawn<J>>,
    pub names: Vec<Unused<J>>,
    pub spares: Vec<Spare<Text, Text, J>>,
    ghost unvouched: { J.limits.honest ≡ false },
}

/// The value of the pair that the bytes of an object of one pair have, where its key is a.
pub fn value_of(bytes: &[u8]) -> Option<u8> {
    let value = *bytes.last()?;
    if bytes == one_pair(value).as_slice() {
        Some(value)
    } else {
        None
    }
}

/// Replies the bucket, the name and the value that a scope shows.
fn show<J: Naming>(scope: &Scope<'_, Text, Text, J>, out: &mut String) -> Result<()> {
    write!(out, "{} {} ", scope.bucket(), scope.name())?;
    match value_of(scope.object().as_bytes()) {
        Some(value) => out.push(char::from(value))?,
        None => out.push_str("other bytes")?,
    }
    Ok(())
}

impl<'a, J: Naming> User<'a, J> {
    pub fn new(
        alloc: Global,
        words: &'a Words<Text, Text, J>,
        frames: &'a Frames<Text, Text, J>,
        pass: Pass<Text, Text, J>,
    ) -> User<'a, J>
        requires unvouched { J.limits.honest ≡ false }
    {
        User {
            alloc,
            words,
            frames,
            pass,
            taken: Vec::new(alloc),
            open: Vec::new(alloc),
            owned: Vec::new(alloc),
            drawn: Vec::new(alloc),
            names: Vec::new(alloc),
            spares: Vec::new(alloc),
        }
    }

    /// Makes room for one more of each that is held, so that no call is refused behind its end.
    pub fn make_room(&mut self) -> Result<(), AllocError> {
        self.taken.reserve(1)?;
        self.open.reserve(1)?;
        self.owned.reserve(1)?;
        self.drawn.reserve(1)?;
        self.names.reserve(1)?;
        self.spares.reserve(1)
    }

    /// Reserves the first free frame from this one on.
    pub fn reserve(&mut self, from: u32, out: &mut String) -> Result<()> {
        match self.frames.reserve_from(from) {
            Ok(reserved) => {
                let taken = Taken { reserved };
                write!(out, "{}", taken.reserved.frame())?;
                self.taken.push(taken)?;
            }
            Err(NoFrame) => write!(out, "{NoFrame}")?,
        }
        Ok(())
    }

    /// Reserves so many frames, each the first that is free from this one on, and replies the last.
    pub fn reserve_many(&mut self, count: u32, from: u32, out: &mut String) -> Result<()> {
        let mut last = 0u32;
        for _ in 0..count {
            let Ok(reserved) = self.frames.reserve_from(from) else {
                write!(out, "{NoFrame}")?;
                return Ok(());
            };
            last = reserved.frame();
            if self.taken.push(Taken { reserved }).is_err() {
                return refused(out);
            }
        }
        write!(out, "{last}")?;
        Ok(())
    }

    /// The frame that was reserved.
    pub fn taken(&mut self, frame: u64) -> Result<Taken<'a, J>> {
        match take(&mut self.taken, frame) {
            Some(taken) => Ok(taken),
            None => bail!("no frame {frame} is reserved"),
        }
    }

    /// Cancels all frames that were reserved, the last first.
    pub fn cancel_all(&mut self) {
        for _ in 0..self.taken.len() {
            drop(self.taken.pop());
        }
    }

    /// Owns the frame that was reserved.
    pub fn own(&mut self, frame: u64, out: &mut String) -> Result<()> {
        let reserved = self.taken(frame)?.into_reserved();
        let owned = reserved.own();
        write!(out, "{}", owned.frame())?;
        self.owned.push(owned)?;
        Ok(())
    }

    pub fn owned(&mut self, frame: u64) -> Result<Owned> {
        match take(&mut self.owned, frame) {
            Some(owned) => Ok(owned),
            None => bail!("no frame {frame} is owned"),
        }
    }

    /// Reserves the frame that it owns.
    pub fn reserve_owned(&mut self, frame: u64, out: &mut String) -> Result<()> {
        let owned = self.owned(frame)?;
        match self.frames.reserve_owned(owned) {
            Some(reserved) => {
                let taken = Taken { reserved };
                write!(out, "{}", taken.reserved.frame())?;
                self.taken.push(taken)?;
            }
            None => out.push_str("none")?,
        }
        Ok(())
    }

    /// Asks another row of one frame for the frame that it owns.
    pub fn reserve_elsewhere(&mut self, frame: u64, out: &mut String) -> Result<()> {
        let Ok(elsewhere) = Frames::<Text, Text, J>::open(self.alloc, 1) else {
            return refused(out);
        };
        let owned = self.owned(frame)?;
        match elsewhere.reserve_owned(owned) {
            Some(reserved) => {
                let frame = reserved.frame();
                reserved.cancel();
                write!(out, "{frame}")?;
            }
            None => out.push_str("none")?,
        }
        Ok(())
    }

    /// Enters the frame with the name, and holds the scope.
    pub fn enter(&mut self, frame: u32, name: u64, out: &mut String) -> Result<()> {
        match self.frames.enter(frame, name) {
            Ok(scope) => {
                let open = Open { scope, frame };
                show(&open.scope, out)?;
                self.open.push(open)?;
            }
            Err(Missed) => write!(out, "{Missed}")?,
        }
        Ok(())
    }

    /// Shows once more what the first scope on the frame shows.
    pub fn show(&self, frame: u64, out: &mut String) -> Result<()> {
        match place_in(&self.open, frame) {
            Some(at) if at < self.open.len() => show(&self.open[at].scope, out),
            _ => bail!("no scope on the frame {frame} is open"),
        }
    }

    pub fn close(&mut self, frame: u64) -> Result<()> {
        match take(&mut self.open, frame) {
            Some(open) => drop(open),
            None => bail!("no scope on the frame {frame} is open"),
        }
        Ok(())
    }
}
