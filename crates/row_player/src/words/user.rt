//! The callers of a row of words, each with its pass.
ghost use Rattle.std.specs.Prelude.{◌≡◌, ◌<◌, false};

use super::holdings::{Caller, Label, Sight};
use crate::holdings::{Unused, give_up, take};
use crate::replies::refused;
use anyhow::{Result, bail};
use far_object::{Object, Text, bucket_of};
use std::alloc::{AllocError, Global};
use table_core::word::name_of;
use version_words::{EnterFault, NameFault, Naming, Spare, Words};

/// The callers, and what they hold in common.
#[derive(Drop)]
pub struct User<J: Naming> {
    pub alloc: Global,
    pub words: Words<Text, Text, J>,
    pub callers: Vec<Caller<J>>,
    pub names: Vec<Unused<J>>,
    pub sights: Vec<Sight<J>>,
    pub spares: Vec<Spare<Text, Text, J>>,
    pub labels: Vec<Label<J>>,
    ghost unvouched: { J.limits.honest ≡ false },
}

/// A key and a value. None where memory is refused.
pub fn pair(alloc: Global, key: &[u8], value: &[u8]) -> Result<Option<(Text, Text)>> {
    if key.len() > 65_535 || value.len() > 65_535 {
        bail!("keys and values have at most 65535 bytes");
    }
    match (Text::new(alloc, key), Text::new(alloc, value)) {
        (Ok(key), Ok(value)) => Ok(Some((key, value))),
        _ => Ok(None),
    }
}

/// The caller whose pass has this number.
pub fn caller_at<J: Naming>(callers: &[Caller<J>], number: u64) -> Option<usize> {
    for at in 0..callers.len() {
        if u64::from(callers[at].pass.number()) == number {
            return Some(at);
        }
    }
    None
}

/// The sight of this word in the bucket.
pub fn sight_of<J: Naming>(sights: &[Sight<J>], bucket: u32, word: u64) -> Option<&Sight<J>> {
    for sight in sights {
        if sight.bucket == bucket && sight.word == word {
            return Some(sight);
        }
    }
    None
}

impl<J: Naming> User<J> {
    pub fn new(alloc: Global, words: Words<Text, Text, J>) -> User<J>
        requires unvouched { J.limits.honest ≡ false }
    {
        User {
            alloc,
            words,
            callers: Vec::new(alloc),
            names: Vec::new(alloc),
            sights: Vec::new(alloc),
            spares: Vec::new(alloc),
            labels: Vec::new(alloc),
        }
    }

    /// Makes room for what a call adds, so that none is refused behind its end.
    pub fn make_room(&mut self) -> Result<(), AllocError> {
        self.callers.reserve(1)?;
        self.names.reserve(1)?;
        self.sights.reserve(1)?;
        self.spares.reserve(2)?;
        self.labels.reserve(1)
    }

    /// Draws a pass, for a caller that has this number of its own.
    pub fn enter(&mut self, own: u64, out: &mut String) -> Result<()> {
        match self.words.enter() {
            Ok(pass) => {
                write!(out, "{}", pass.number())?;
                self.callers.push(Caller { pass, own })?;
            }
            Err(fault) => write!(out, "{fault}")?,
        }
        Ok(())
    }

    /// The caller whose pass has this number.
    pub fn caller(&mut self, number: u64) -> Result<&mut Caller<J>> {
        match caller_at(&self.callers, number) {
            Some(at) if at < self.callers.len() => Ok(&mut self.callers[at]),
            _ => bail!("no pass {number} was drawn"),
        }
    }

    /// Looks at the word of the key's bucket.
    pub fn look(&mut self, pass: u64, key: &[u8], out: &mut String) -> Result<()> {
        let Some((key, _)) = pair(self.alloc, key, b"")? else {
            return refused(out);
        };
        let bucket = bucket_of(&key, self.words.buckets());
        let Some(at) = caller_at(&self.callers, pass) else {
            bail!("no pass {pass} was drawn");
        };
        if at >= self.callers.len() || bucket >= self.words.buckets() {
            bail!("no pass {pass} was drawn");
        }
        let sight = look_at(&self.words, &mut self.callers[at], bucket);
        write!(out, "{}", sight.word)?;
        self.sights.push(sight)?;
        Ok(())
    }

    /// Draws a name for the object of the pair, or for the empty one in the key's bucket, and replies it and its bucket.
    pub fn name(
        &mut self,
        pass: u64,
        key: &[u8],
        value: Option<&[u8]>,
        out: &mut String,
    ) -> Result<()> {
        let Some((key, text)) = pair(self.alloc, key, value.unwrap_or(b""))? else {
            return refused(out);
        };
        let made = match value {
            Some(_) => Object::of_pair(self.alloc, &key, &text),
            None => Object::empty(self.alloc),
        };
        let Ok(object) = made else {
            return refused(out);
        };
        let bucket = bucket_of(&key, self.words.buckets());
        let Some(at) = caller_at(&self.callers, pass) else {
            bail!("no pass {pass} was drawn");
        };
        if at >= self.callers.len() || bucket >= self.words.buckets() {
            bail!("no pass {pass} was drawn");
        }
        match self.words.name(&mut self.callers[at].pass, bucket, &object) {
            Ok(name) => {
                let unused = Unused { name };
                write!(out, "{} {}", unused.name.number(), unused.name.bucket())?;
                self.names.push(unused)?;
            }
            Err(fault) => write!(out, "{fault}")?,
        }
        Ok(())
    }

    /// Gives the name up at this place, and replies the spare's word and bucket.
    pub fn give_up(&mut self, name: u64, place: u32, out: &mut String) -> Result<()> {
        if place >= 16_777_216 {
            bail!("a place is below 2^24");
        }
        let spare = give_up(&mut self.names, name, place)?;
        write!(out, "{} {}", spare.word(), spare.bucket())?;
        self.spares.push(spare)?;
        Ok(())
    }

    /// Keeps a mark of what the pass has seen under this label.
    pub fn mark(&mut self, pass: u64, label: &[u8], out: &mut String) -> Result<()> {
        let Ok(label) = Vec::from_slice(self.alloc, label) else {
            return refused(out);
        };
        let mark = self.caller(pass)?.pass.mark();
        self.labels.push(Label { label, mark })?;
        Ok(())
    }

    /// The pass learns the mark.
    pub fn learn(&mut self, pass: u64, label: &[u8]) -> Result<()> {
        let Some(at) = caller_at(&self.callers, pass) else {
            bail!("no pass {pass} was drawn");
        };
        for known in &self.labels {
            if known.label.as_slice() == label && at < self.callers.len() {
                self.words.learn(&mut self.callers[at].pass, &known.mark);
                return Ok(());
            }
        }
        bail!("no such mark")
    }

    /// The pass knows, once it has learnt the spare's mark, that the spare's word is not that of its bucket.
    pub fn never(&mut self, pass: u64, name: u64) -> Result<()> {
        let Some(spare) = take(&mut self.spares, name) else {
            bail!("no spare of the name {name} is held");
        };
        let Some(at) = caller_at(&self.callers, pass) else {
            bail!("no pass {pass} was drawn");
        };
        if at < self.callers.len() {
            self.words.learn(&mut self.callers[at].pass, &spare.mark());
            spare.never(&self.callers[at].pass);
        }
        self.spares.push(spare)?;
        Ok(())
    }
}

/// What stands in the bucket, and the mark that tells others.
fn look_at<J: Naming>(words: &Words<Text, Text, J>, caller: &mut Caller<J>, bucket: u32) -> Sight<J>
    requires unvouched { J.limits.honest ≡ false }
    requires bucket { bucket < J.limits.buckets }
{
    let word = words.look(&mut caller.pass, bucket);
    let mark = caller.pass.mark();
    Sight { bucket, word, mark }
}
