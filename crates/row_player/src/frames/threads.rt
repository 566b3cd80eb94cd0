//! Frames that threads share.
ghost use Rattle.std.specs.Prelude.{◌≡◌, false};

use super::user::{User, value_of};
use super::versions::{Filled, fill, reclaimed};
use crate::rows::{entered, object};
use anyhow::{Result, bail};
use far_object::Text;
use frame_cache::Frames;
use std::alloc::Global;
use std::thread::{Threads, join};
use version_words::{Naming, Pass, Words};

/// What threads share: a row of words whose contents nobody vouches for, and frames.
#[derive(Drop)]
struct Shared<'a, J: Naming> {
    alloc: Global,
    words: &'a Words<Text, Text, J>,
    frames: &'a Frames<Text, Text, J>,
    rounds: u32,
    ghost unvouched: { J.limits.honest ≡ false },
}

/// What became of rounds: how many versions were put in, read and reclaimed, how often no frame came, and how often
/// another answer came than should.
#[derive(Clone, Copy)]
struct Totals {
    done: u32,
    frameless: u32,
    wrong: u32,
}

impl Totals {
    fn with(self, other: Totals) -> Totals {
        Totals {
            done: self.done.wrapping_add(other.done),
            frameless: self.frameless.wrapping_add(other.frameless),
            wrong: self.wrong.wrapping_add(other.wrong),
        }
    }
}

/// What a scope shows: the bucket, the name, and the value where the bytes are those of one pair with the key a.
pub type Shown = (u32, u64, Option<u8>);

/// What the frame shows under the name.
pub fn look<J: Naming>(frames: &Frames<Text, Text, J>, frame: u32, name: u64) -> Option<Shown> {
    let scope = frames.enter(frame, name).ok()?;
    let value = value_of(scope.object().as_bytes());
    let shown = (scope.bucket(), scope.name(), value);
    scope.close();
    Some(shown)
}

/// Whether a version of this value, once in a frame, is found by its name and then reclaimed. None where no frame came.
fn one_round<J: Naming>(
    shared: &Shared<'_, J>,
    pass: &mut Pass<Text, Text, J>,
    bucket: u32,
    value: u8,
) -> Option<bool> {
    let object = object(shared.alloc, value)?;
    let filled = fill(shared.words, pass, shared.frames, 0, bucket, object)?;
    let Filled { frame, name, spare } = filled;
    let is_found = look(shared.frames, frame, name) == Some((bucket, name, Some(value)));
    let is_done = reclaimed(shared.frames, spare).ok() == Some(true);
    Some(is_found && is_done)
}

fn rounds<J: Naming>(shared: &Shared<'_, J>, bucket: u32) -> Totals {
    let mut totals = Totals {
        done: 0,
        frameless: 0,
        wrong: 0,
    };
    if let Some(mut pass) = entered(shared.words) {
        for round in 0..shared.rounds {
            match one_round(shared, &mut pass, bucket, (round % 256) as u8) {
                Some(true) => totals.done = totals.done.wrapping_add(1),
                Some(false) => totals.wrong = totals.wrong.wrapping_add(1),
                None => totals.frameless = totals.frameless.wrapping_add(1),
            }
        }
    }
    totals
}

fn by_two<J: Naming + Send + Sync, R: Threads + Sync>(
    rt: &R,
    shared: &Shared<'_, J>,
    buckets: (u32, u32),
) -> Totals {
    let (one, two) = join(
        rt,
        || rounds(shared, buckets.0),
        || rounds(shared, buckets.1),
    );
    one.with(two)
}

fn by_four<J: Naming + Send + Sync, R: Threads + Sync>(rt: &R, shared: &Shared<'_, J>) -> Totals {
    let (one, two) = join(
        rt,
        || by_two(rt, shared, (0, 1)),
        || by_two(rt, shared, (2, 1)),
    );
    one.with(two)
}

/// Threads put versions into frames, read them and reclaim them, each so often. Replies how many rounds there were in all, in how
/// many no frame came, where that is as many as one thread makes, and in how many another answer came than should.
pub fn share<J: Naming + Send + Sync, R: Threads + Sync>(
    rt: &R,
    user: &User<'_, J>,
    threads: u64,
    rounds: u32,
    out: &mut String,
) -> Result<()> {
    let shared = Shared {
        alloc: user.alloc,
        words: user.words,
        frames: user.frames,
        rounds,
    };
    let totals = match threads {
        2 => by_two(rt, &shared, (0, 1)),
        4 => by_four(rt, &shared),
        _ => bail!("there are 2 or 4 threads"),
    };
    let all = totals.done.wrapping_add(totals.frameless);
    write!(out, "rounds {all} wrong {}", totals.wrong)?;
    if totals.frameless >= rounds {
        write!(out, " frameless {}", totals.frameless)?;
    }
    Ok(())
}
