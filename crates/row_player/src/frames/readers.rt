//! One frame that two threads read, and then three while a fourth reclaims its version.
ghost use Rattle.std.specs.Prelude.{◌≡◌, false};

use super::threads::{Shown, look};
use super::user::User;
use super::versions::{Filled, fill, reclaimed};
use crate::replies::refused;
use crate::rows::object;
use anyhow::{Result, bail};
use far_object::{Object, Text};
use frame_cache::{Frames, Missed};
use std::thread::{Threads, join};
use version_words::{Naming, Spare};

/// How often the reclaimer tries at most. It is through once the readers have ended.
const RECLAIMS: u32 = 1_000_000_000;

/// How often a reader asks for which version.
#[derive(Clone, Copy)]
struct Look {
    name: u64,
    value: u8,
    looks: u32,
}

impl Look {
    fn shown(self) -> Shown {
        (0, self.name, Some(self.value))
    }
}

/// How often the frame showed no such version, or another one.
fn missed_looks<J: Naming>(frames: &Frames<Text, Text, J>, asked: Look) -> u32 {
    let mut missed = 0u32;
    for _ in 0..asked.looks {
        if look(frames, 0, asked.name) != Some(asked.shown()) {
            missed = missed.wrapping_add(1);
        }
    }
    missed
}

/// Whether another version was shown than this one.
fn is_other(shown: Option<Shown>, wanted: Shown) -> bool {
    match shown {
        Some(found) => found != wanted,
        None => false,
    }
}

/// How often the frame showed another version than the one that was asked for.
fn wrong_looks<J: Naming>(frames: &Frames<Text, Text, J>, asked: Look) -> u32 {
    let mut wrong = 0u32;
    for _ in 0..asked.looks {
        if is_other(look(frames, 0, asked.name), asked.shown()) {
            wrong = wrong.wrapping_add(1);
        }
    }
    wrong
}

/// Tries until the version is reclaimed, and says whether it was.
fn reclaims<J: Naming>(frames: &Frames<Text, Text, J>, spare: Spare<Text, Text, J>) -> bool {
    let mut spare = spare;
    for _ in 0..RECLAIMS {
        match reclaimed(frames, spare) {
            Ok(done) => return done,
            Err(back) => spare = back,
        }
    }
    false
}

/// Whether the name does not lie in the frame.
fn misses<J: Naming>(frames: &Frames<Text, Text, J>, name: u64) -> bool {
    match frames.enter(0, name) {
        Ok(scope) => {
            scope.close();
            false
        }
        Err(Missed) => true,
    }
}

/// What was seen of versions.
#[derive(Clone, Copy)]
struct Seen {
    /// How often two readers missed one before anybody reclaimed it: claims that meet one another are made again.
    missed: u32,
    /// How often another one was shown.
    wrong: u32,
    /// How many were reclaimed.
    reclaimed: u32,
    /// How many names were missed later.
    gone: u32,
}

impl Seen {
    fn with(self, other: Seen) -> Seen {
        Seen {
            missed: self.missed.wrapping_add(other.missed),
            wrong: self.wrong.wrapping_add(other.wrong),
            reclaimed: self.reclaimed.wrapping_add(other.reclaimed),
            gone: self.gone.wrapping_add(other.gone),
        }
    }
}

/// What is seen of one version by its readers and its reclaimer.
fn one_version<J: Naming + Send + Sync, R: Threads + Sync>(
    rt: &R,
    frames: &Frames<Text, Text, J>,
    spare: Spare<Text, Text, J>,
    asked: Look,
) -> Seen {
    let find = || missed_looks(frames, asked);
    let missed = join(rt, find, find);
    let look = || wrong_looks(frames, asked);
    let (one, (two, is_reclaimed)) = join(
        rt,
        || join(rt, look, look),
        || join(rt, look, || reclaims(frames, spare)),
    );
    Seen {
        missed: missed.0.wrapping_add(missed.1),
        wrong: one.0.wrapping_add(one.1).wrapping_add(two),
        reclaimed: u32::from(is_reclaimed),
        gone: u32::from(misses(frames, asked.name)),
    }
}

/// The same of a version that is put into the frame 0. None where it does not get there.
fn one_round<J: Naming + Send + Sync, R: Threads + Sync>(
    rt: &R,
    user: &mut User<'_, J>,
    object: Object<Text, Text>,
    value: u8,
    looks: u32,
) -> Option<Seen> {
    let filled = fill(user.words, &mut user.pass, user.frames, 0, 0, object)?;
    let Filled { frame, name, spare } = filled;
    if frame != 0 {
        return None;
    }
    Some(one_version(rt, user.frames, spare, Look { name, value, looks }))
}

/// So many versions come into the frame 0, one after another, and each is read and reclaimed. Replies what was seen of all.
pub fn read_and_reclaim<J: Naming + Send + Sync, R: Threads + Sync>(
    rt: &R,
    user: &mut User<'_, J>,
    versions: u32,
    looks: u32,
    out: &mut String,
) -> Result<()> {
    let mut all = Seen {
        missed: 0,
        wrong: 0,
        reclaimed: 0,
        gone: 0,
    };
    for round in 0..versions {
        let value = (round % 256) as u8;
        let Some(object) = object(user.alloc, value) else {
            return refused(out);
        };
        match one_round(rt, user, object, value, looks) {
            Some(seen) => all = all.with(seen),
            None => bail!("the version {round} does not come into the frame 0"),
        }
    }
    let Seen {
        missed,
        wrong,
        reclaimed,
        gone,
    } = all;
    write!(
        out,
        "missed {missed} wrong {wrong} reclaimed {reclaimed} gone {gone}"
    )?;
    Ok(())
}
