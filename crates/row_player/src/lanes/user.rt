//! One caller of a row of words and of lanes.
ghost use Rattle.std.specs.Prelude.{◌≡◌, false};

use super::devices::Signs;
use super::store::Lanes;
use crate::holdings::{Drawn, Numbered, draw, place_in, take};
use crate::replies::refused;
use crate::rows::object;
use anyhow::{Result, bail};
use case_files::push_spelled;
use far_device::Device;
use far_object::{Format, Text};
use lane_store::LaneFault;
use std::alloc::{AllocError, Global};
use std::sync::Wait;
use table_core::word::{FAR_PLACE, place_of};
use version_words::{Naming, Pass, Spare, Words};

/// A caller.
#[derive(Drop)]
pub struct User<J: Naming, D: Device> {
    pub alloc: Global,
    pub words: Words<Text, Text, J>,
    pub pass: Pass<Text, Text, J>,
    pub lanes: Lanes<J, D>,
    pub signs: Signs,
    pub drawn: Vec<Drawn<J>>,
    pub spares: Vec<Spare<Text, Text, J>>,
    ghost unvouched: { J.limits.honest ≡ false },
}

/// A vector that holds 9 already, for a reading that appends. None where memory is refused.
pub fn nine(alloc: Global) -> Option<Vec<u8>> {
    Vec::from_slice(alloc, &[9]).ok()
}

/// What stands behind that 9.
fn behind_nine(out: &[u8]) -> Result<&[u8]> {
    match out.split_first() {
        Some((9, rest)) => Ok(rest),
        _ => bail!("what was in the vector before is gone"),
    }
}

impl<J: Naming, D: Device> User<J, D> {
    pub fn new(
        alloc: Global,
        words: Words<Text, Text, J>,
        pass: Pass<Text, Text, J>,
        lanes: Lanes<J, D>,
        signs: Signs,
    ) -> User<J, D>
        requires unvouched { J.limits.honest ≡ false }
    {
        User {
            alloc,
            words,
            pass,
            lanes,
            signs,
            drawn: Vec::new(alloc),
            spares: Vec::new(alloc),
        }
    }

    /// Makes room for one more of each that is held, so that no call is refused behind its end.
    pub fn make_room(&mut self) -> Result<(), AllocError> {
        self.drawn.reserve(1)?;
        self.spares.reserve(1)
    }

    /// Draws the bucket's next name for an object of this value, and holds it.
    pub fn name(&mut self, bucket: u32, value: u8, out: &mut String) -> Result<()> {
        if bucket >= self.words.buckets() {
            bail!("there is no bucket {bucket}");
        }
        let Some(object) = object(self.alloc, value) else {
            return refused(out);
        };
        match draw(&self.words, &mut self.pass, bucket, object) {
            Ok(drawn) => {
                write!(out, "{}", drawn.number())?;
                self.drawn.push(drawn)?;
            }
            Err(fault) => write!(out, "{fault}")?,
        }
        Ok(())
    }

    /// Writes the name's object.
    pub fn write<R: Wait>(
        &mut self,
        rt: &R,
        name: u64,
        format: Format,
        out: &mut String,
    ) -> Result<()> {
        let written = match place_in(&self.drawn, name) {
            Some(at) if at < self.drawn.len() => { self.lanes.write(rt, &self.drawn[at], format) }
            _ => bail!("no name {name} is held"),
        };
        if let Err(fault) = written {
            write!(out, "{fault}")?;
        }
        Ok(())
    }

    /// Reads the name's object, and replies its number, its bucket and its bytes.
    pub fn read<R: Wait>(&mut self, rt: &R, name: u64, out: &mut String) -> Result<()> {
        let Some(mut bytes) = nine(self.alloc) else {
            return refused(out);
        };
        let read = self.lanes.read(rt, name, &mut bytes);
        let bytes = behind_nine(&bytes)?;
        match read {
            Ok(Some(receipt)) => {
                write!(out, "{} {} ", receipt.number(), receipt.bucket())?;
                push_spelled(out, bytes)?;
                return Ok(());
            }
            Ok(None) => out.push_str("none")?,
            Err(fault) => write!(out, "{fault}")?,
        }
        if !bytes.is_empty() {
            out.push_str(", and bytes")?;
        }
        Ok(())
    }

    /// Gives the name up with the device as its place, and holds the spare.
    pub fn give_up(&mut self, name: u64) -> Result<()> {
        match take(&mut self.drawn, name) {
            Some(drawn) => self.spares.push(drawn.give_up(FAR_PLACE))?,
            None => bail!("no name {name} is held"),
        }
        Ok(())
    }

    /// Removes the object of the name's spare.
    pub fn remove<R: Wait>(&mut self, rt: &R, name: u64, out: &mut String) -> Result<()> {
        let removed = match place_in(&self.spares, name) {
            Some(at) if at < self.spares.len() => {
                removed(rt, &mut self.lanes, &self.spares[at])?
            }
            _ => bail!("no spare of the name {name} is held"),
        };
        match removed {
            Ok(is_there) => write!(out, "{is_there}")?,
            Err(fault) => write!(out, "{fault}")?,
        }
        Ok(())
    }
}

/// Removes the spare's object. The place of each spare of these cases is the device's.
fn removed<J: Naming, D: Device, R: Wait>(
    rt: &R,
    lanes: &mut Lanes<J, D>,
    spare: &Spare<Text, Text, J>,
) -> Result<std::result::Result<bool, LaneFault>> {
    if place_of(spare.word()) != FAR_PLACE {
        bail!("the spare's place is not the device");
    }
    Ok(lanes.remove(rt, spare))
}
