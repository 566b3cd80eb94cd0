//! Calls on a row of words, by threads each of which has a word of its own.
ghost use Rattle.std.specs.Prelude.{◌≡◌, false};
ghost use Rattle.version_words.specs.Rows.{limits_of};

mod caller;

use crate::stopwatch::{HEAD, rows};
use anyhow::Result;
use caller::{Call, Caller, Row};
use far_object::Object;
use std::alloc::Global;
use std::marker::Brand;
use std::rt::Clock;
use std::sync::Wait;
use std::thread::Threads;
use version_words::{Honesty, Naming, Opened, Sizes};

/// Names for as many rounds as can be asked for.
const SIZES: Sizes = Sizes {
    buckets: 64,
    names: (1 << 40) - 1,
    passes: 65_535,
};

/// Nothing is claimed of what a device gives back, so that a name may be installed whatever its contents are.
pub struct Unvouched;

impl Honesty for Unvouched {
    ghost use Rattle.std.specs.Prelude.{false};

    ghost honest = { false };
}

const CALLS: [(&str, Call); 3] = [
    ("look", Call::Look),
    ("check", Call::Check),
    ("put", Call::Put),
];

/// Measures each kind of call.
fn on_row<R: Alloc<A = Global> + Clock + Print + Threads + Wait + Sync, J: Naming + Send + Sync>(
    rt: &R,
    row: &Row<J>,
    rounds: u32,
) -> Result<()> {
    println!(rt; "{HEAD}")?;
    for (name, call) in CALLS {
        rows(
            rt,
            row,
            name,
            rounds,
            |thread| Caller::enter(row, thread, call),
        )?;
    }
    Ok(())
}

/// Measures each kind of call on the row that was opened, with one object for all of its names.
fn on_opened<R: Alloc<A = Global> + Clock + Print + Threads + Wait + Sync, J: Naming + Send + Sync>(
    rt: &R,
    opened: Opened<u64, u64, Unvouched>,
    rounds: u32,
) -> Result<()>
    requires { (opened.book ≡ J.book) × (opened.names ≡ J.names) × (limits_of opened.sizes false ≡ J.limits) }
{
    let object = Object::of_pair(rt.alloc(), &0, &0)?;
    on_row(rt, &Row::<J>::new(opened, object), rounds)
}

/// Prints the nanoseconds of a look, of a check, and of a name with its install.
pub fn measure<R: Alloc<A = Global> + Clock + Print + Threads + Wait + Sync>(
    rt: &R,
    rounds: u32,
) -> Result<()> {
    let opened = Opened::<u64, u64, Unvouched>::open(rt.alloc(), SIZES)?;
    on_opened::<R, Brand>(rt, opened, rounds)
}
