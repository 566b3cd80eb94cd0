//! What callers hold from line to line, under the number of a name or of a frame.
ghost use Rattle.std.specs.Prelude.{◌≡◌, ◌<◌, ◌^◌, false};
ghost use Rattle.table_core.specs.Logs.{contents};

use crate::rows::TRIES;
use anyhow::{Result, bail};
use far_object::{Object, Text};
use frame_cache::Version;
use table_core::word::{FAR_PLACE, name_of};
use version_words::{Name, NameFault, Naming, Pass, Spare, Words};

/// What is held under the number of a name.
pub trait Numbered {
    fn number(&self) -> u64;
}

/// A name that was neither installed nor given up. Where it is dropped it is given up.
pub struct Unused<J: Naming> {
    pub name: Name<Text, Text, J>,
}

impl<J: Naming> Unused<J> {
    pub fn into_name(self) -> Name<Text, Text, J>
        ensures { result ≡ self.name }
    {
        let Unused { name } = self;
        name
    }
}

impl<J: Naming> Drop for Unused<J> {
    fn drop(self) {
        let Unused { name } = self;
        drop(name.give_up(0));
    }
}

impl<J: Naming> Numbered for Unused<J> {
    fn number(&self) -> u64 {
        self.name.number()
    }
}

impl<J: Naming> Numbered for Spare<Text, Text, J> {
    fn number(&self) -> u64 {
        name_of(self.word())
    }
}

/// Where what is held under the number lies.
pub fn place_in<T: Numbered>(held: &[T], number: u64) -> Option<usize> {
    for at in 0..held.len() {
        if held[at].number() == number {
            return Some(at);
        }
    }
    None
}

/// Takes out what is held under the number.
pub fn take<T: Numbered>(held: &mut Vec<T>, number: u64) -> Option<T> {
    for at in 0..held.len() {
        if held[at].number() == number {
            return Some(held.remove(at));
        }
    }
    None
}

/// Gives a name up at this place.
pub fn give_up<J: Naming>(
    names: &mut Vec<Unused<J>>,
    number: u64,
    place: u32,
) -> Result<Spare<Text, Text, J>>
    requires { place < 2 ^ 24 }
{
    let Some(unused) = take(names, number) else {
        bail!("no name {number} is held");
    };
    Ok(unused.into_name().give_up(place))
}

/// A name with the object that it was drawn for. Where it is dropped it is given up.
pub struct Drawn<J: Naming> {
    pub name: Name<Text, Text, J>,
    pub object: Object<Text, Text>,
    ghost same: { contents name.front name.number ≡ object },
}

impl<J: Naming> Drop for Drawn<J> {
    fn drop(self) {
        let Drawn { name, object: _ } = self;
        drop(name.give_up(FAR_PLACE));
    }
}

impl<J: Naming> Numbered for Drawn<J> {
    fn number(&self) -> u64 {
        self.name.number()
    }
}

impl<J: Naming> Drawn<J> {
    /// The version of the object, and the name.
    pub fn into_version(self) -> (Version<Text, Text, J>, Unused<J>) {
        let Drawn { name, object } = self;
        (Version::new(&name, object), Unused { name })
    }

    /// Gives the name up at this place.
    pub fn give_up(self, place: u32) -> Spare<Text, Text, J>
        requires { place < 2 ^ 24 }
    {
        let Drawn { name, object: _ } = self;
        name.give_up(place)
    }
}

/// Draws the next name of the bucket for the object, also while other threads draw.
pub fn draw<J: Naming>(
    words: &Words<Text, Text, J>,
    pass: &mut Pass<Text, Text, J>,
    bucket: u32,
    object: Object<Text, Text>,
) -> Result<Drawn<J>, NameFault>
    requires unvouched { J.limits.honest ≡ false }
    requires bucket { bucket < J.limits.buckets }
{
    for _ in 0..TRIES {
        match words.name(pass, bucket, &object) {
            Ok(name) => return Ok(Drawn { name, object }),
            Err(NameFault::NamesSpent) => return Err(NameFault::NamesSpent),
            Err(NameFault::Moved) => {}
        }
    }
    Err(NameFault::Moved)
}
