//! What the players share: rows of words whose contents nobody vouches for, and objects of one pair.

use crate::replies::named;
use anyhow::{Result, bail};
use case_files::Line;
use far_object::{Object, Text};
use std::alloc::Global;
use version_words::{Honesty, Naming, Opened, Pass, Sizes, Words};

/// How often a draw is tried while other threads draw.
pub const TRIES: u32 = 1_000_000;

/// The most buckets, names and passes of a row.
const MOST: Sizes = Sizes {
    buckets: 4_194_304,
    names: (1 << 40) - 1,
    passes: 65_535,
};

/// Nobody vouches for the contents of words, so that calls owe nothing of them.
pub struct Unvouched;

impl Honesty for Unvouched {
    ghost use Rattle.std.specs.Prelude.{false};

    ghost honest = { false };
}

/// A row of so many buckets, names and passes as the opening says: of 4 buckets and of the most names and passes where it
/// says nothing. None where memory is refused.
pub fn opened<H: Honesty>(alloc: Global, opening: &Line) -> Result<Option<Opened<Text, Text, H>>> {
    let buckets = named(opening, "buckets", u64::from(MOST.buckets), 4)?;
    let names = named(opening, "names", MOST.names, MOST.names)?;
    let passes = named(
        opening,
        "passes",
        u64::from(MOST.passes),
        u64::from(MOST.passes),
    )?;
    if buckets == 0 || buckets > 4_194_304 || names >= 1 << 40 || passes > 65_535 {
        bail!("a row has 1 to 4194304 buckets");
    }
    let sizes = Sizes {
        buckets: buckets as u32,
        names,
        passes: passes as u32,
    };
    Ok(Opened::open(alloc, sizes).ok())
}

/// Draws a pass, also while other threads draw.
pub fn entered<J: Naming>(words: &Words<Text, Text, J>) -> Option<Pass<Text, Text, J>> {
    for _ in 0..TRIES {
        let drawn = words.enter().ok();
        if drawn.is_some() {
            return drawn;
        }
    }
    None
}

/// The object of one pair: the key a, and a value of this one byte.
pub fn object(alloc: Global, value: u8) -> Option<Object<Text, Text>> {
    let key = Text::new(alloc, b"a").ok()?;
    let value = Text::new(alloc, &[value]).ok()?;
    Object::of_pair(alloc, &key, &value).ok()
}

/// That object's bytes in the first format.
pub fn one_pair(value: u8) -> [u8; 10] {
    [0, 0, 0, 1, 0, 1, 0x61, 0, 1, value]
}
