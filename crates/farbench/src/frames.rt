//! Calls on frames of which all but a few are filled, by threads each of which enters a frame of its own.
ghost use Rattle.std.specs.Prelude.{◌≡◌, ◌≤◌, false};
ghost use Rattle.version_words.specs.Rows.{limits_of};

use crate::stopwatch::{HEAD, MOST_THREADS, Runner, rows};
use crate::words::Unvouched;
use anyhow::{Result, bail};
use far_object::Object;
use frame_cache::{Frames, Version};
use std::alloc::Global;
use std::marker::Brand;
use std::rt::Clock;
use std::sync::Wait;
use std::thread::Threads;
use table_core::word::EMPTY_PLACE;
use version_words::{Naming, Opened, Pass, Sizes, Words};

/// How many frames are left free: one for each of the most threads.
const FREE: u32 = MOST_THREADS;

/// The least frames: as many filled as free.
const FEWEST: u32 = 2 * FREE;

/// The most frames that can be opened.
const MOST: u32 = 65_536;

/// All names are of one bucket.
const BUCKET: u32 = 0;

/// What is called.
#[derive(Clone, Copy)]
enum Call {
    /// Reserves a frame and leaves it free.
    Reserve,
    /// Enters the frame in which this name lies, and closes the scope.
    Enter(Filled),
}

/// A frame with the name that lies in it.
#[derive(Clone, Copy)]
struct Filled {
    frame: u32,
    name: u64,
}

impl<J: Naming> Runner<Frames<u64, u64, J>> for Call {
    fn call<R: Wait>(&mut self, _rt: &R, frames: &Frames<u64, u64, J>, _number: u32) -> bool {
        match self {
            Call::Reserve => match frames.reserve() {
                Ok(reserved) => {
                    reserved.cancel();
                    true
                }
                Err(_) => false,
            },
            Call::Enter(filled) => match frames.enter(filled.frame, filled.name) {
                Ok(scope) => {
                    scope.close();
                    true
                }
                Err(_) => false,
            },
        }
    }
}

/// Fills the first free frame with a version of one pair.
fn fill<J: Naming>(
    alloc: Global,
    words: &Words<u64, u64, J>,
    pass: &mut Pass<u64, u64, J>,
    frames: &Frames<u64, u64, J>,
) -> Result<Filled>
    requires { J.limits.honest ≡ false }
{
    if BUCKET >= words.buckets() {
        bail!("there is no bucket");
    }
    let object = Object::of_pair(alloc, &0, &0)?;
    let Ok(name) = words.name(pass, BUCKET, &object) else {
        bail!("no name is left");
    };
    let Ok(reserved) = frames.reserve() else {
        drop(name.give_up(EMPTY_PLACE));
        bail!("no frame is free");
    };
    let number = name.number();
    let version = Version::new(&name, object);
    drop(name.give_up(reserved.frame()));
    Ok(Filled {
        frame: reserved.fill(version),
        name: number,
    })
}

/// What this thread enters.
fn enter_of(filled: &[Filled], thread: u32) -> Result<Call> {
    match filled.get(thread as usize) {
        Some(filled) => Ok(Call::Enter(*filled)),
        None => bail!("too few frames are filled"),
    }
}

/// Fills all of so many frames but the last few.
fn fill_most<J: Naming>(
    alloc: Global,
    opened: Opened<u64, u64, Unvouched>,
    frames: &Frames<u64, u64, J>,
    count: u32,
) -> Result<Vec<Filled>>
    requires named { (opened.book ≡ J.book) × (opened.names ≡ J.names) × (limits_of opened.sizes false ≡ J.limits) }
{
    let words = opened.named::<J>();
    let Ok(mut pass) = words.enter() else {
        bail!("no pass is left");
    };
    let mut filled = Vec::with_capacity(alloc, count as usize)?;
    for _ in FREE..count {
        filled.push(fill(alloc, &words, &mut pass, frames)?)?;
    }
    Ok(filled)
}

/// Fills all frames but the last few, and measures each kind of call.
fn on_opened<R: Alloc<A = Global> + Clock + Print + Threads + Wait + Sync, J: Naming + Send + Sync>(
    rt: &R,
    opened: Opened<u64, u64, Unvouched>,
    count: u32,
    rounds: u32,
) -> Result<()>
    requires named { (opened.book ≡ J.book) × (opened.names ≡ J.names) × (limits_of opened.sizes false ≡ J.limits) }
    requires few { count ≤ 65536 }
{
    let frames: Frames<u64, u64, J> = Frames::open(rt.alloc(), count)?;
    let filled = fill_most(rt.alloc(), opened, &frames, count)?;
    println!(rt; "{HEAD}")?;
    rows(rt, &frames, "reserve", rounds, |_| Ok(Call::Reserve))?;
    rows(
        rt,
        &frames,
        "enter",
        rounds,
        |thread| enter_of(&filled, thread),
    )
}

/// Prints the nanoseconds of a reserve with its cancel and of an enter with its close, where all of so many frames but four are
/// filled.
pub fn measure<R: Alloc<A = Global> + Clock + Print + Threads + Wait + Sync>(
    rt: &R,
    count: u32,
    rounds: u32,
) -> Result<()> {
    if count < FEWEST || count > MOST {
        bail!("frames: from 8 to 65536");
    }
    let sizes = Sizes {
        buckets: 1,
        names: u64::from(count),
        passes: 1,
    };
    let opened = Opened::<u64, u64, Unvouched>::open(rt.alloc(), sizes)?;
    on_opened::<R, Brand>(rt, opened, count, rounds)
}
