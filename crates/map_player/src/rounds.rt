//! What workers do in many rounds, side by side with others. Each is one call, whose reply says what was lost or wrong.

use crate::changes::one_more;
use crate::replies::{OUT_OF_MEMORY, Said, Stop, count, plain, truth};
use crate::stage::Stage;
use crate::tries::{get, get_number, length, put, put_if, put_number, remove, remove_if};
use crate::walk::Walk;
use crate::words::{key_at, number, number_at, number_named, times_at, value_at};
use case_files::Line;
use far_map::{Calls, MapRefusal, Text, Updated, Value};
use std::alloc::Global;
use std::sync::Wait;
use std::sync::atomic::Ordering;

/// A call of many rounds.
#[derive(Clone, Copy)]
pub enum Round {
    Updates,
    Counts,
    SetsAndRemoves,
    Disturbs,
    Fills,
    Turns,
    Tally,
    IsTally,
}

/// The most puts of one `turns`.
const MOST_TURNS: u32 = 10_000;

/// Adds one to a key's number, and answers whether that was set. A growth that is refused leaves the number: it is tried once more.
fn update_one<V: Value, S: Calls<V>, R: Wait>(
    rt: &R,
    alloc: Global,
    me: &mut S,
    key: &Text,
) -> Result<bool, Stop> {
    match me.update(rt, key, |found| one_more(alloc, found)) {
        Ok(Updated::Set(_)) => return Ok(true),
        Ok(Updated::Overtaken) => return Ok(false),
        Ok(Updated::Left(_)) | Err(MapRefusal::Memory) => {}
        Err(refusal) => return Err(Stop::Refused(refusal)),
    }
    let again = me.update(rt, key, |found| one_more(alloc, found))?;
    Ok(matches!(again, Updated::Set(_)))
}

/// Adds one to a key's number so many times, by updates. How many of them set it.
fn updates<V: Value, S: Calls<V>, R: Wait>(rt: &R, alloc: Global, me: &mut S, line: &Line) -> Said {
    let key = key_at(alloc, line, 1)?;
    let mut set = 0u64;
    for _ in 0..times_at(line, 2)? {
        if update_one(rt, alloc, me, &key)? {
            set = set.saturating_add(1);
        }
    }
    count(alloc, set)
}

/// Whether both are none, or the same bytes.
fn are_same<V: Value>(one: &Option<V>, other: &Option<V>) -> bool {
    match (one, other) {
        (None, None) => true,
        (Some(one), Some(other)) => one.as_bytes() == other.as_bytes(),
        _ => false,
    }
}

/// Adds one to a key's number by `put_if`, and answers whether nobody was faster.
fn count_one<V: Value, S: Calls<V>, R: Wait>(
    rt: &R,
    alloc: Global,
    me: &mut S,
    key: &Text,
) -> Result<bool, Stop> {
    let now: Option<V> = get(rt, me, key)?;
    let Some(next) = one_more(alloc, now.as_ref()) else {
        return Err(OUT_OF_MEMORY);
    };
    let was = put_if(rt, me, key, now.as_ref(), &next)?;
    Ok(are_same(&was, &now))
}

/// In each round adds one to a shared number, and puts one of ten keys of its own, which it reads where it lies. What it has added
/// is put to the tally.
fn counts<V: Value, S: Calls<V>, R: Wait>(
    rt: &R,
    alloc: Global,
    stage: &Stage<'_>,
    me: &mut S,
    worker: u32,
    line: &Line,
) -> Said {
    let key = key_at(alloc, line, 1)?;
    for round in 0..times_at(line, 2)? {
        if count_one(rt, alloc, me, &key)? {
            stage.tally.fetch_add(1, Ordering::SeqCst);
        }
        let own = number(alloc, worker.wrapping_mul(10).wrapping_add(round % 10))?;
        put_number(rt, alloc, me, &own, round)?;
        length(rt, me, &own)?;
    }
    plain(alloc, "")
}

/// In each round sets the key to the value where it has none, and takes that value out. Whether each that was set stood until then;
/// and what was set, less what was taken out, is put to the tally.
fn sets_and_removes<V: Value, S: Calls<V>, R: Wait>(
    rt: &R,
    alloc: Global,
    stage: &Stage<'_>,
    me: &mut S,
    line: &Line,
) -> Said {
    let key = key_at(alloc, line, 1)?;
    let value: V = value_at(alloc, line, 2)?;
    let nothing: Option<V> = None;
    let mut stood = true;
    for _ in 0..times_at(line, 3)? {
        let is_set = put_if(rt, me, &key, nothing.as_ref(), &value)?.is_none();
        let removed = remove_if(rt, me, &key, &value)?.removed;
        if is_set {
            stage.tally.fetch_add(1, Ordering::SeqCst);
        }
        if removed {
            stage.tally.fetch_sub(1, Ordering::SeqCst);
        }
        stood = stood && removed == is_set;
    }
    truth(alloc, stood)
}

/// In each round puts one of `keys=` numbers from `from=` on, looks for one below `from=`, and removes what it put.
fn disturbs<V: Value, S: Calls<V>, R: Wait>(
    rt: &R,
    alloc: Global,
    me: &mut S,
    line: &Line,
) -> Said {
    let (from, keys) = (
        number_named(line, "from", 1)?,
        number_named(line, "keys", 1)?,
    );
    if from == 0 || keys == 0 {
        return Err(Stop::Mistake("from= and keys= are 1 or more"));
    }
    for round in 0..times_at(line, 1)? {
        let own = from.wrapping_add(round % keys);
        let key = number(alloc, own)?;
        put_number(rt, alloc, me, &key, own)?;
        length(rt, me, &number(alloc, round % from)?)?;
        remove(rt, me, &key)?;
    }
    plain(alloc, "")
}

/// The key of this number of a worker's own.
fn own_key(alloc: Global, worker: u32, place: u32) -> Result<Text, Stop> {
    number(alloc, worker.wrapping_mul(65_536).wrapping_add(place))
}

/// Puts so many keys of its own to a value, and reads them again. Whether no more than `most=` bytes lay in frames behind any call.
fn fills<V: Value, S: Calls<V>, R: Wait>(
    rt: &R,
    alloc: Global,
    me: &mut S,
    worker: u32,
    line: &Line,
) -> Said {
    let keys = times_at(line, 1)?;
    let value: V = value_at(alloc, line, 2)?;
    let wanted = line.number_named("most", u64::MAX);
    let wanted = wanted.ok_or(Stop::Mistake("most= is a number"))?;
    let mut most = 0u64;
    for place in 0..keys {
        put(rt, me, &own_key(alloc, worker, place)?, &value)?;
        most = most.max(me.bytes_in_frames());
    }
    for place in 0..keys {
        length(rt, me, &own_key(alloc, worker, place)?)?;
        most = most.max(me.bytes_in_frames());
    }
    truth(alloc, most <= wanted)
}

/// The value of a worker's key behind so many puts: the number of the last put to it, counted from 0.
fn last_put(puts: u32, place: u32, keys: u32) -> Option<u32> {
    if place >= puts || keys == 0 {
        return None;
    }
    let last = puts.wrapping_sub(1);
    Some(last.wrapping_sub(last.wrapping_sub(place) % keys))
}

/// How many of the worker's keys have another value than the last that was put.
fn wrong<V: Value, S: Calls<V>, R: Wait>(
    rt: &R,
    alloc: Global,
    me: &mut S,
    walk: &Walk,
    keys: u32,
) -> Result<u64, Stop> {
    let mut wrong = 0u64;
    for place in 0..keys {
        let found = get_number(rt, me, &own_key(alloc, walk.worker, place)?)?;
        if found != last_put(walk.puts, place, keys) {
            wrong = wrong.saturating_add(1);
        }
    }
    Ok(wrong)
}

/// Puts to keys of its own in turn while so many names are left, behind what it has put before a renewal. How many keys had another
/// value than the last that was put to them, before and behind.
fn turns<V: Value, S: Calls<V>, R: Wait>(
    rt: &R,
    alloc: Global,
    me: &mut S,
    walk: &mut Walk,
    line: &Line,
) -> Said {
    let (keys, names) = (times_at(line, 1)?, u64::from(number_at(line, 2)?));
    if keys == 0 {
        return Err(Stop::Mistake("there is 1 key or more"));
    }
    let before = wrong(rt, alloc, me, walk, keys)?;
    for _ in 0..MOST_TURNS {
        if me.names_left() < names {
            break;
        }
        let key = own_key(alloc, walk.worker, walk.puts % keys)?;
        put_number(rt, alloc, me, &key, walk.puts)?;
        walk.puts = walk.puts.wrapping_add(1);
    }
    let behind = wrong(rt, alloc, me, walk, keys)?;
    count(alloc, before.saturating_add(behind))
}

/// Whether the key's number is the tally.
fn is_tally<V: Value, S: Calls<V>, R: Wait>(
    rt: &R,
    alloc: Global,
    stage: &Stage<'_>,
    me: &mut S,
    line: &Line,
) -> Said {
    let found = get_number(rt, me, &key_at(alloc, line, 1)?)?;
    let number = u64::from(found.unwrap_or(0));
    truth(alloc, number == stage.tally.load(Ordering::SeqCst))
}

/// Makes a call of many rounds.
pub fn make_round<V: Value, S: Calls<V>, R: Wait>(
    rt: &R,
    alloc: Global,
    stage: &Stage<'_>,
    me: &mut S,
    walk: &mut Walk,
    call: Round,
    line: &Line,
) -> Said {
    match call {
        Round::Updates => updates(rt, alloc, me, line),
        Round::Counts => counts(rt, alloc, stage, me, walk.worker, line),
        Round::SetsAndRemoves => sets_and_removes(rt, alloc, stage, me, line),
        Round::Disturbs => disturbs(rt, alloc, me, line),
        Round::Fills => fills(rt, alloc, me, walk.worker, line),
        Round::Turns => turns(rt, alloc, me, walk, line),
        Round::Tally => count(alloc, stage.tally.load(Ordering::SeqCst)),
        Round::IsTally => is_tally(rt, alloc, stage, me, line),
    }
}
