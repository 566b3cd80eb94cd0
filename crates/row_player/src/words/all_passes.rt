//! Passes that are handed in together.

use super::holdings::Caller;
use super::user::{User, caller_at};
use crate::replies::refused;
use anyhow::{Result, bail};
use case_files::Line;
use far_object::Text;
use std::alloc::{AllocError, Global};
use version_words::{GatherFault, Naming, Pass, PassHolder, Words, same_history};

/// What is replied of passes that are handed in: whether all are there.
fn gather<J: Naming, H: PassHolder<Text, Text, J>>(
    alloc: Global,
    words: &Words<Text, Text, J>,
    holders: &mut [H],
    out: &mut String,
) -> Result<()> {
    same_history::<Text, Text>();
    match words.gather(alloc, holders) {
        Ok(_) => out.push_str("all")?,
        Err(GatherFault::Missing(_)) => out.push_str("a pass is missing")?,
        Err(GatherFault::Memory) => return refused(out),
    }
    for at in 0..holders.len() {
        write!(out, " {}", holders[at].pass().number())?;
    }
    Ok(())
}

/// Passes, and what the caller of each has of its own.
#[derive(Drop)]
struct Bare<J: Naming> {
    passes: Vec<Pass<Text, Text, J>>,
    own: Vec<u64>,
}

impl<J: Naming> Bare<J> {
    /// None, with room for so many.
    fn with_room(alloc: Global, count: usize) -> std::result::Result<Bare<J>, AllocError> {
        Ok(Bare {
            passes: Vec::with_capacity(alloc, count)?,
            own: Vec::with_capacity(alloc, count)?,
        })
    }
}

impl<J: Naming> User<J> {
    /// Takes out the callers of the passes that the line names, in its order.
    fn take_callers(&mut self, line: &Line, room: &mut Vec<Caller<J>>) -> Result<()> {
        for place in 1..line.words.len() {
            let at = match line.number_at(place) {
                Some(number) => caller_at(&self.callers, number),
                None => None,
            };
            match at {
                Some(at) if at < self.callers.len() => room.push(self.callers.remove(at))?,
                _ => bail!("no such pass is held: word {place}"),
            }
        }
        Ok(())
    }

    /// Hands in the callers of the passes that the line names.
    pub fn gather(&mut self, line: &Line, out: &mut String) -> Result<()> {
        let Ok(mut room) = Vec::with_capacity(self.alloc, line.words.len()) else {
            return refused(out);
        };
        if self.callers.reserve(line.words.len()).is_err() {
            return refused(out);
        }
        self.take_callers(line, &mut room)?;
        gather(self.alloc, &self.words, &mut room, out)?;
        for caller in room {
            self.callers.push(caller)?;
        }
        Ok(())
    }

    /// Hands in the passes alone.
    pub fn gather_passes(&mut self, line: &Line, out: &mut String) -> Result<()> {
        let Ok(mut room) = Vec::with_capacity(self.alloc, line.words.len()) else {
            return refused(out);
        };
        let Ok(mut bare) = Bare::with_room(self.alloc, line.words.len()) else {
            return refused(out);
        };
        if self.callers.reserve(line.words.len()).is_err() {
            return refused(out);
        }
        self.take_callers(line, &mut room)?;
        for caller in room {
            let Caller { pass, own } = caller;
            bare.passes.push(pass)?;
            bare.own.push(own)?;
        }
        gather(self.alloc, &self.words, &mut bare.passes, out)?;
        let Bare { passes, own } = bare;
        for (pass, own) in passes.into_iter().zip(own) {
            self.callers.push(Caller { pass, own })?;
        }
        Ok(())
    }

    /// A law of two passes: of their marks, one begins the other, and their numbers differ.
    pub fn differ(&mut self, one: u64, two: u64) -> Result<()> {
        let (one, two) = match (caller_at(&self.callers, one), caller_at(&self.callers, two)) {
            (Some(one), Some(two)) if one < two && two < self.callers.len() => (one, two),
            _ => bail!("two passes, of which the first was drawn before the second"),
        };
        let (before, from) = self.callers.split_at_mut(two);
        if let (Some(one), Some(two)) = (before.get_mut(one), from.first_mut()) {
            one.pass.mark().compare(&two.pass.mark());
            one.differs_from(two);
        }
        Ok(())
    }
}
