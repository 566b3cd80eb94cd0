//! Calls on a table of as many frames as buckets, in each of which but a few lies one pair.
ghost use Rattle.std.specs.Prelude.{◌≡◌, ◌<◌, ◌≤◌, true};
ghost use Rattle.version_words.specs.Rows.{limits_of};
ghost use Rattle.hash_table.specs.Configs.{sizes_of};

mod own;

use crate::stopwatch::{HEAD, MOST_THREADS, alone, print, rows, vec_from_fn};
use anyhow::{Result, bail};
use far_device::FakeDevice;
use far_object::Text;
use hash_table::{Config, FarTable, Opening};
use own::{Call, Own, put_all};
use std::alloc::Global;
use std::marker::Brand;
use std::mem::replace;
use std::rt::Clock;
use std::sync::Wait;
use std::thread::Threads;
use version_words::Naming;

/// How many keys each thread has for itself: what it works on fits into a processor's first cache.
const OWN_KEYS: usize = 120;

/// How many frames are left free, so that puts find one.
const FREE: u32 = 2 * MOST_THREADS;

/// The fewest buckets: one for each key of the most threads, and for each free frame.
const FEWEST: u32 = 1_024;

/// The most buckets and frames.
const MOST: u32 = 65_536;

/// How many devices there are, each in a lane.
const LANES: u32 = 16;

type Table<J> = FarTable<u64, Text, J, FakeDevice>;

/// What several threads call with keys of their own. All reads come first: threads that put fill one another's frames.
const CALLS: [(&str, Call); 4] = [
    ("get", Call::Get),
    ("scope", Call::Scope),
    ("put", Call::Put),
    ("recycled put", Call::Recycle),
];

/// What one thread calls once with each key, before the others: the frames are filled in their order then.
const MOVES: [(&str, Call); 3] = [
    ("swap_out", Call::SwapOut),
    ("read_through", Call::ReadThrough),
    ("fetch", Call::Fetch),
];

/// Keys, each of a bucket of its own, but of none of the last few that are met.
fn keys_of<J: Naming>(alloc: Global, table: &Table<J>, count: u32) -> Result<Vec<u64>> {
    let mut has_key = Vec::from_elem(alloc, false, count as usize)?;
    let mut keys = Vec::with_capacity(alloc, count as usize)?;
    let most = (count - count.min(FREE)) as usize;
    for key in 0..64 * u64::from(MOST) {
        if keys.len() < most && is_first(&mut has_key, table.bucket(&key)) {
            keys.push(key)?;
        }
    }
    Ok(keys)
}

/// Whether this bucket is met for the first time.
fn is_first(met: &mut Vec<bool>, bucket: u32) -> bool {
    match met.get_mut(bucket as usize) {
        Some(is_met) => !replace(is_met, true),
        None => false,
    }
}

/// The keys of a thread.
fn own_keys(alloc: Global, keys: &[u64], thread: u32) -> Result<Vec<u64>> {
    match keys.chunks(OWN_KEYS).nth(thread as usize) {
        Some(own) => Ok(Vec::from_slice(alloc, own)?),
        None => bail!("too few keys"),
    }
}

/// A caller that makes the call with all keys, or with the frames' numbers.
fn of_all<J: Naming>(alloc: Global, table: &Table<J>, keys: &[u64], call: Call) -> Result<Own<J>> {
    let keys = match call {
        Call::SwapOut => vec_from_fn(
            alloc,
            u32::try_from(keys.len())?,
            |frame| Ok(u64::from(frame)),
        )?,
        _ => Vec::from_slice(alloc, keys)?,
    };
    Own::new(alloc, table, keys, call)
}

/// Fills the table, and measures each kind of call.
fn on_table<R: Alloc<A = Global> + Clock + Print + Threads + Wait + Sync, J: Naming + Send + Sync>(
    rt: &R,
    table: &Table<J>,
    buckets: u32,
    rounds: u32,
) -> Result<()> {
    let alloc = rt.alloc();
    let keys = keys_of(alloc, table, buckets)?;
    put_all(rt, alloc, table, &keys)?;
    println!(rt; "{HEAD}")?;
    move_all(rt, table, &keys)?;
    for (name, call) in CALLS {
        rows(
            rt,
            table,
            name,
            rounds,
            |thread| Own::new(alloc, table, own_keys(alloc, &keys, thread)?, call),
        )?;
    }
    Ok(())
}

/// Measures what one thread calls once with each key.
fn move_all<R: Alloc<A = Global> + Clock + Print + Wait, J: Naming>(
    rt: &R,
    table: &Table<J>,
    keys: &[u64],
) -> Result<()> {
    let count = u32::try_from(keys.len())?;
    for (name, call) in MOVES {
        let own = of_all(rt.alloc(), table, keys, call)?;
        print(rt, name, 1, count, alone(rt, rt, table, own, count)?)?;
    }
    Ok(())
}

fn on_opening<
    R: Alloc<A = Global> + Clock + Print + Threads + Wait + Sync,
    J: Naming + Send + Sync,
>(rt: &R, opening: Opening<u64, Text, FakeDevice>, buckets: u32, rounds: u32) -> Result<()>
    requires { (opening.row.book ≡ J.book) × (opening.row.names ≡ J.names) × (limits_of (sizes_of opening.config) true ≡ J.limits) }
{
    let table = opening.named::<J>(rt.alloc())?;
    on_table(rt, &table, buckets, rounds)
}

/// Prints the nanoseconds of each kind of call on a table of so many buckets and frames: by 1, 2 and 4 threads of so many rounds,
/// each on keys of its own, and of moves and reads by one thread, each once for each of the keys.
///
/// An error comes where memory, a thread, the clock or the output fails, or the count is outside its limits.
pub fn measure<R: Alloc<A = Global> + Clock + Print + Threads + Wait + Sync>(
    rt: &R,
    buckets: u32,
    rounds: u32,
) -> Result<()> {
    if buckets < FEWEST || buckets > MOST {
        bail!("there are {FEWEST} to {MOST} buckets");
    }
    let config = Config {
        buckets,
        frames: buckets,
        limit: 4_096,
        names: (1 << 40) - 1,
        passes: 65_535,
        lanes: LANES,
        spares: 256,
        format: 2,
    };
    let alloc = rt.alloc();
    let devices = vec_from_fn(alloc, LANES, |_| Ok(FakeDevice::new(alloc)))?;
    let opening = Opening::open(alloc, config, devices)?;
    on_opening::<R, Brand>(rt, opening, buckets, rounds)
}
