//! What a caller does to versions: under which name they come into frames, and how they end.
ghost use Rattle.std.specs.Prelude.{◌≡◌, ◌<◌, ◌^◌, false};

use super::user::User;
use crate::holdings::{Drawn, Numbered, draw, give_up, take};
use crate::replies::refused;
use crate::rows::object;
use anyhow::{Result, bail};
use far_object::{Object, Text};
use frame_cache::laws::retire;
use frame_cache::{Frames, Owned, Version};
use table_core::word::{EMPTY_PLACE, place_of};
use version_words::{Naming, Pass, Spare, Words};

/// A frame with a version in it, and the spare of that version.
pub struct Filled<J: Naming> {
    pub frame: u32,
    pub name: u64,
    pub spare: Spare<Text, Text, J>,
}

/// Puts a version of the object, under the bucket's next name, into the first free frame from this one on. None where no frame
/// or no name comes, or the frame is told as another one.
pub fn fill<J: Naming>(
    words: &Words<Text, Text, J>,
    pass: &mut Pass<Text, Text, J>,
    frames: &Frames<Text, Text, J>,
    from: u32,
    bucket: u32,
    object: Object<Text, Text>,
) -> Option<Filled<J>>
    requires { J.limits.honest ≡ false }
{
    if bucket >= words.buckets() {
        return None;
    }
    let reserved = frames.reserve_from(from).ok()?;
    let frame = reserved.frame();
    let Ok(drawn) = draw(words, pass, bucket, object) else {
        reserved.cancel();
        return None;
    };
    let (version, unused) = drawn.into_version();
    let number = unused.number();
    let is_told = reserved.fill(version) == frame;
    let spare = unused.into_name().give_up(frame);
    if !is_told {
        return None;
    }
    Some(Filled {
        frame,
        name: number,
        spare,
    })
}

/// The version, where the spare hands it back.
fn left<J: Naming>(
    version: Version<Text, Text, J>,
    spare: &Spare<Text, Text, J>,
) -> Option<Version<Text, Text, J>> {
    retire(version, spare).err()
}

/// The version, where each spare hands it back.
fn left_by_both<J: Naming>(
    version: Version<Text, Text, J>,
    one: &Spare<Text, Text, J>,
    two: &Spare<Text, Text, J>,
) -> Option<Version<Text, Text, J>> {
    left(left(version, one)?, two)
}

/// Reclaims the spare's version, so that its frame is free. A spare whose place is no frame's comes back as one that a reader is in.
pub fn reclaimed<J: Naming>(
    frames: &Frames<Text, Text, J>,
    spare: Spare<Text, Text, J>,
) -> Result<bool, Spare<Text, Text, J>> {
    if place_of(spare.word()) >= EMPTY_PLACE {
        return Err(spare);
    }
    frames.reclaim(spare)
}

/// The same, and the frame is owned.
fn reclaimed_owned<J: Naming>(
    frames: &Frames<Text, Text, J>,
    spare: Spare<Text, Text, J>,
) -> Result<Option<Owned>, Spare<Text, Text, J>> {
    if place_of(spare.word()) >= EMPTY_PLACE {
        return Err(spare);
    }
    match frames.reclaim_owned(spare)? {
        Some((owned, object)) => {
            drop(object);
            Ok(Some(owned))
        }
        None => Ok(None),
    }
}

impl<'a, J: Naming> User<'a, J> {
    /// Draws the bucket's next name for an object of this value, and holds both.
    pub fn name(&mut self, bucket: u32, value: u8, out: &mut String) -> Result<()> {
        if bucket >= self.words.buckets() {
            bail!("there is no bucket {bucket}");
        }
        let Some(object) = object(self.alloc, value) else {
            return refused(out);
        };
        match draw(self.words, &mut self.pass, bucket, object) {
            Ok(drawn) => {
                write!(out, "{}", drawn.number())?;
                self.drawn.push(drawn)?;
            }
            Err(fault) => write!(out, "{fault}")?,
        }
        Ok(())
    }

    fn drawn(&mut self, name: u64) -> Result<Drawn<J>> {
        match take(&mut self.drawn, name) {
            Some(drawn) => Ok(drawn),
            None => bail!("no version of the name {name} is held"),
        }
    }

    /// Puts the name's version into the frame that was reserved, and replies what frame it is told as.
    pub fn fill(&mut self, frame: u64, name: u64, out: &mut String) -> Result<()> {
        let taken = self.taken(frame)?;
        let (version, unused) = self.drawn(name)?.into_version();
        write!(out, "{}", taken.into_reserved().fill(version))?;
        self.names.push(unused)?;
        Ok(())
    }

    /// Gives the name up at this place, and holds the spare.
    pub fn give_up(&mut self, name: u64, place: u32) -> Result<()> {
        if place >= 16_777_216 {
            bail!("a place is below 2^24");
        }
        if let Some(drawn) = take(&mut self.drawn, name) {
            self.spares.push(drawn.give_up(place))?;
            return Ok(());
        }
        self.spares.push(give_up(&mut self.names, name, place)?)?;
        Ok(())
    }

    /// Fills the first free frame from this one on with a version of the object, under the bucket's next name, and holds its
    /// spare. Answers the frame and the name, or none where no frame is free.
    pub fn put(
        &mut self,
        from: u32,
        bucket: u32,
        object: Object<Text, Text>,
    ) -> Result<Option<(u32, u64)>> {
        if bucket >= self.words.buckets() {
            bail!("there is no bucket {bucket}");
        }
        let filled = fill(
            self.words,
            &mut self.pass,
            self.frames,
            from,
            bucket,
            object,
        );
        let Some(Filled { frame, name, spare }) = filled else {
            return Ok(None);
        };
        self.spares.push(spare)?;
        Ok(Some((frame, name)))
    }

    fn spare(&mut self, name: u64) -> Result<Spare<Text, Text, J>> {
        match take(&mut self.spares, name) {
            Some(spare) => Ok(spare),
            None => bail!("no spare of the name {name} is held"),
        }
    }

    /// The same, whose place has to be a frame.
    fn spare_of_frame(&mut self, name: u64) -> Result<Spare<Text, Text, J>> {
        let spare = self.spare(name)?;
        if place_of(spare.word()) >= EMPTY_PLACE {
            bail!("the place of the spare of the name {name} is no frame");
        }
        Ok(spare)
    }

    /// Reclaims the version of the name's spare, which is held again where it comes back.
    pub fn reclaim(&mut self, name: u64, out: &mut String) -> Result<()> {
        let spare = self.spare_of_frame(name)?;
        match reclaimed(self.frames, spare) {
            Ok(is_emptied) => write!(out, "{is_emptied}")?,
            Err(back) => {
                self.spares.push(back)?;
                out.push_str("back")?;
            }
        }
        Ok(())
    }

    /// The same, and holds the frame as its own.
    pub fn reclaim_owned(&mut self, name: u64, out: &mut String) -> Result<()> {
        let spare = self.spare_of_frame(name)?;
        match reclaimed_owned(self.frames, spare) {
            Ok(Some(owned)) => {
                write!(out, "{}", owned.frame())?;
                self.owned.push(owned)?;
            }
            Ok(None) => out.push_str("none")?,
            Err(back) => {
                self.spares.push(back)?;
                out.push_str("back")?;
            }
        }
        Ok(())
    }

    /// Gives the name up at this place, and ends its version for that spare. If it comes back it goes into the reserved frame.
    pub fn retire(&mut self, name: u64, place: u32, frame: u64, out: &mut String) -> Result<()> {
        if place >= 16_777_216 {
            bail!("a place is below 2^24");
        }
        let taken = self.taken(frame)?;
        let (version, unused) = self.drawn(name)?.into_version();
        let spare = unused.into_name().give_up(place);
        match retire(version, &spare) {
            Ok(object) => {
                drop(object);
                out.push_str("true")?;
                self.taken.push(taken)?;
            }
            Err(version) => {
                write!(out, "back into {}", taken.into_reserved().fill(version))?;
            }
        }
        Ok(())
    }

    /// Tries to end the name's version for the spares of the two other names. If it comes back from both it goes into the
    /// reserved frame.
    pub fn retire_for(
        &mut self,
        name: u64,
        others: (u64, u64),
        frame: u64,
        out: &mut String,
    ) -> Result<()> {
        let one = self.spare(others.0)?;
        let two = self.spare(others.1)?;
        let taken = self.taken(frame)?;
        let (version, unused) = self.drawn(name)?.into_version();
        drop(unused);
        match left_by_both(version, &one, &two) {
            Some(version) => {
                write!(out, "back into {}", taken.into_reserved().fill(version))?;
            }
            None => out.push_str("true")?,
        }
        Ok(())
    }
}
