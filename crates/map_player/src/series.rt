//! Calls of several keys that are numbers.

use crate::device::Gate;
use crate::numbers::Numbers;
use crate::replies::{Said, Stop, count, plain};
use crate::tries::{evict, get_number, put_number};
use crate::words::{is_named, number, read_number};
use case_files::Line;
use far_map::{Calls, Text, Value};
use std::alloc::Global;
use std::sync::Wait;

/// A call of several keys.
#[derive(Clone, Copy)]
pub enum Series {
    Puts,
    Gets,
    GetsMany,
    Prefetches,
}

/// Puts a number, and with `evicts` has a frame emptied then.
fn put_one<V: Value, S: Calls<V>, R: Wait>(
    rt: &R,
    alloc: Global,
    me: &mut S,
    key: u32,
    to: u32,
    evicts: bool,
) -> Result<(), Stop> {
    put_number(rt, alloc, me, &number(alloc, key)?, to)?;
    if evicts {
        evict(rt, me)?;
    }
    Ok(())
}

/// Puts the numbers until one is refused. How many there were, or the refusal.
fn puts<V: Value, S: Calls<V>, R: Wait>(
    rt: &R,
    alloc: Global,
    gate: &Gate,
    me: &mut S,
    line: &Line,
) -> Said {
    let numbers = Numbers::of(line)?;
    let evicts = is_named(line, "evict");
    let mut puts = 0u64;
    for place in 0..numbers.count {
        if let Some(value) = numbers.value(place) {
            gate.begin();
            put_one(rt, alloc, me, numbers.key(place), value, evicts)?;
            puts = puts.saturating_add(1);
        }
    }
    count(alloc, puts)
}

/// Gets the numbers. How many have their value, or none where they have none.
fn gets<V: Value, S: Calls<V>, R: Wait>(rt: &R, alloc: Global, me: &mut S, line: &Line) -> Said {
    let numbers = Numbers::of(line)?;
    let mut right = 0u64;
    for place in 0..numbers.count {
        let found = get_number(rt, me, &number(alloc, numbers.key(place))?)?;
        if found == numbers.value(place) {
            right = right.saturating_add(1);
        }
    }
    count(alloc, right)
}

/// The keys of the numbers.
fn keys_of(alloc: Global, numbers: &Numbers) -> Result<Vec<Text>, Stop> {
    let mut keys = Vec::new(alloc);
    for place in 0..numbers.count {
        keys.push(number(alloc, numbers.key(place))?)?;
    }
    Ok(keys)
}

/// The same by one call.
fn gets_many<V: Value, S: Calls<V>, R: Wait>(
    rt: &R,
    alloc: Global,
    me: &mut S,
    line: &Line,
) -> Said {
    let numbers = Numbers::of(line)?;
    let keys = keys_of(alloc, &numbers)?;
    let found = me.get_many(rt, keys.as_slice())?;
    let (mut place, mut right) = (0u32, 0u64);
    for value in &found {
        let number = match value {
            Some(value) => Some(read_number(value.as_bytes())),
            None => None,
        };
        if number == numbers.value(place) {
            right = right.saturating_add(1);
        }
        place = place.saturating_add(1);
    }
    count(alloc, right)
}

/// Makes a call of several keys.
pub fn make_series<V: Value, S: Calls<V>, R: Wait>(
    rt: &R,
    alloc: Global,
    gate: &Gate,
    me: &mut S,
    call: Series,
    line: &Line,
) -> Said {
    match call {
        Series::Puts => puts(rt, alloc, gate, me, line),
        Series::Gets => gets(rt, alloc, me, line),
        Series::GetsMany => gets_many(rt, alloc, me, line),
        Series::Prefetches => {
            let keys = keys_of(alloc, &Numbers::of(line)?)?;
            me.prefetch(keys.as_slice());
            plain(alloc, "")
        }
    }
}
