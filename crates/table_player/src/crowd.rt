//! What a thread of many calls does beside others.

use crate::block::Meeting;
use crate::datum::{Datum, number_at};
use crate::many::{MOST_TRIES, is_number};
use crate::site::Site;
use crate::stop::{Reply, Stop};
use crate::user::User;
use crate::{eviction, replies};
use case_files::Line;
use far_device::Device;
use hash_table::Refusal;
use std::sync::Wait;
use std::thread::yield_now;
use swapper::QueueNaming;
use version_words::Naming;

/// How often a thread swaps a frame out, or makes room, at most.
const MOST_TURNS: u64 = 1_000_000_000;

/// How many keys a thread has: texts, and numbers.
const KEYS: u8 = 8;

const NUMBERS: u64 = 4;

/// What a thread does to a key.
#[derive(Clone, Copy)]
enum Deed {
    Put(u64),
    Get,
    Remove,
}

impl Deed {
    // The deed of a round at a key: of four in turn, two put.
    fn of(round: u64, thread: u64, at: u8) -> Deed {
        let turn = round
            .wrapping_mul(5)
            .wrapping_add(thread)
            .wrapping_add(u64::from(at).wrapping_mul(3));
        match turn % 4 {
            0 => Deed::Get,
            1 => Deed::Remove,
            _ => Deed::Put(round),
        }
    }

    // The deed of a round of a thread whose keys are numbers: of five in turn a get, a removal and three puts.
    fn of_number(round: u64) -> Deed {
        match round % 5 {
            0 => Deed::Get,
            1 => Deed::Remove,
            _ => Deed::Put(round),
        }
    }

    // What the key's value is afterwards.
    fn leaves(self, before: Option<u64>) -> Option<u64> {
        match self {
            Deed::Put(value) => Some(value),
            Deed::Get => before,
            Deed::Remove => None,
        }
    }

    fn call<T: Datum, J: Naming, B: QueueNaming, D: Device, R: Wait>(
        self,
        rt: &R,
        site: &Site<'_, T, J, B, D>,
        user: &mut User<T, J, B>,
        key: &T,
    ) -> Result<Option<T>, Refusal> {
        let (alloc, table) = (site.alloc, site.table);
        match self {
            Deed::Put(value) => match T::of_number(alloc, value) {
                Ok(value) => table.put(rt, alloc, &mut user.caller, key, &value),
                Err(_) => Err(Refusal::Memory),
            },
            Deed::Get => table.get(rt, alloc, &mut user.caller, key),
            Deed::Remove => table.remove(rt, alloc, &mut user.caller, key),
        }
    }
}

// Tries again while no frame is free or no room for a spare. Every other refusal is the answer.
fn until_done<T: Datum, J: Naming, B: QueueNaming, D: Device, R: Wait>(
    rt: &R,
    site: &Site<'_, T, J, B, D>,
    user: &mut User<T, J, B>,
    key: &T,
    deed: Deed,
) -> Result<Option<T>, Refusal> {
    for _ in 0..MOST_TRIES {
        let answer = deed.call(rt, site, user, key);
        user.reclaim_all(rt, site.table);
        match answer {
            Err(Refusal::NoFrame) => {}
            Err(Refusal::LimboFull) => {}
            answer => return answer,
        }
    }
    Err(Refusal::NoFrame)
}

// The keys of a thread. Some buckets have keys of several threads.
fn key_of(thread: u64, at: u8) -> [u8; 2] {
    let first = b'a'.wrapping_add((thread % 26) as u8);
    [first, b'0'.wrapping_add(at.wrapping_mul(3))]
}

// How many calls answered what this thread alone has left in its keys.
fn own_keys<T: Datum, J: Naming, B: QueueNaming, D: Device, R: Wait>(
    rt: &R,
    site: &Site<'_, T, J, B, D>,
    user: &mut User<T, J, B>,
    thread: u64,
    rounds: u64,
) -> Result<u64, Stop> {
    let mut right = 0u64;
    let mut known = [None; 8];
    for round in 0..rounds {
        for at in 0..KEYS {
            let key = T::of_word(site.alloc, &key_of(thread, at))?;
            let deed = Deed::of(round, thread, at);
            let before = known.get(at as usize).copied().flatten();
            if let Ok(found) = until_done(rt, site, user, &key, deed) {
                if is_number(site.alloc, &found, before)? {
                    right = right.wrapping_add(1);
                }
            }
            if let Some(one) = known.get_mut(at as usize) {
                *one = deed.leaves(before);
            }
        }
    }
    Ok(right)
}

// Swaps out frame after frame until the others have ended. How many it has swapped out.
fn swap_outs<T: Datum, J: Naming, B: QueueNaming, D: Device, R: Wait>(
    rt: &R,
    site: &Site<'_, T, J, B, D>,
    meeting: &Meeting,
    user: &mut User<T, J, B>,
) -> u64 {
    let mut swapped = 0u64;
    for turn in 0..MOST_TURNS {
        if meeting.is_over() || site.frames == 0 {
            return swapped;
        }
        let frame = (turn % u64::from(site.frames)) as u32;
        if site.table.swap_out(rt, &mut user.caller, frame) == Ok(true) {
            swapped = swapped.wrapping_add(1);
        }
        user.reclaim_all(rt, site.table);
    }
    swapped
}

// The evictor's turn, or a collecting where no frame is wanted.
fn make_room<T: Datum, J: Naming, B: QueueNaming, D: Device, R: Wait>(
    rt: &R,
    site: &Site<'_, T, J, B, D>,
    is_wanted: bool,
) {
    if let Some(evictor) = site.evictor {
        if is_wanted {
            let _ = eviction::turn(rt, site, evictor);
        } else {
            let _ = eviction::collect(rt, site, evictor);
        }
    }
}

// Makes room until the others have ended.
fn evicts<T: Datum, J: Naming, B: QueueNaming, D: Device, R: Wait>(
    rt: &R,
    site: &Site<'_, T, J, B, D>,
    meeting: &Meeting,
    may_evict: bool,
) {
    for _ in 0..MOST_TURNS {
        if meeting.is_over() {
            return;
        }
        make_room(rt, site, may_evict && site.table.free() < site.frames / 4);
        yield_now();
    }
}

// A call, again while there is no room.
fn until_room<T: Datum, J: Naming, B: QueueNaming, D: Device, R: Wait>(
    rt: &R,
    site: &Site<'_, T, J, B, D>,
    user: &mut User<T, J, B>,
    key: &T,
    deed: Deed,
    may_evict: bool,
) -> Result<Result<Option<T>, Refusal>, Stop> {
    for _ in 0..MOST_TURNS {
        let answer = deed.call(rt, site, user, key);
        let _ = eviction::settle(rt, site, user)?;
        match answer {
            Err(Refusal::NoFrame) => make_room(rt, site, may_evict),
            Err(Refusal::LimboFull) => make_room(rt, site, false),
            answer => return Ok(answer),
        }
        yield_now();
    }
    Ok(Err(Refusal::NoFrame))
}

// Hands its spares over until none waits here.
fn hand_in<T: Datum, J: Naming, B: QueueNaming, D: Device, R: Wait>(
    rt: &R,
    site: &Site<'_, T, J, B, D>,
    user: &mut User<T, J, B>,
) -> Result<(), Stop> {
    for _ in 0..MOST_TURNS {
        if user.caller.limbo_len() == 0 {
            return Ok(());
        }
        let _ = eviction::settle(rt, site, user)?;
        yield_now();
    }
    Ok(())
}

// How many calls answered what this thread alone has left in its four keys. At the end no spare waits here.
fn work<T: Datum, J: Naming, B: QueueNaming, D: Device, R: Wait>(
    rt: &R,
    site: &Site<'_, T, J, B, D>,
    user: &mut User<T, J, B>,
    line: &Line,
    may_evict: bool,
) -> Result<u64, Stop> {
    let (number, rounds) = (number_at(line, 1)?, number_at(line, 2)?);
    let mut right = 0u64;
    let mut known = [None; 4];
    for round in 0..rounds {
        let turn = round % NUMBERS;
        let before = known.get(turn as usize).copied().flatten();
        let key = T::of_number(site.alloc, number.wrapping_add(turn.wrapping_mul(3)))?;
        let deed = Deed::of_number(round);
        if let Ok(found) = until_room(rt, site, user, &key, deed, may_evict)? {
            if is_number(site.alloc, &found, before)? {
                right = right.wrapping_add(1);
            }
        }
        if let Some(one) = known.get_mut(turn as usize) {
            *one = deed.leaves(before);
        }
    }
    hand_in(rt, site, user)?;
    Ok(right)
}

/// A call of many, beside other threads.
pub fn call<T: Datum, J: Naming, B: QueueNaming, D: Device, R: Wait>(
    rt: &R,
    site: &Site<'_, T, J, B, D>,
    meeting: &Meeting,
    user: &mut User<T, J, B>,
    line: &Line,
) -> Reply {
    let alloc = site.alloc;
    let may_evict = line.number_named("evicts", 0) == Some(1);
    match line.call() {
        "own_keys" => {
            let (thread, rounds) = (number_at(line, 1)?, number_at(line, 2)?);
            replies::shown(alloc, &own_keys(rt, site, user, thread, rounds)?)
        }
        "work" => replies::shown(alloc, &work(rt, site, user, line, may_evict)?),
        "swap_outs_meanwhile" => {
            let swapped = swap_outs(rt, site, meeting, user);
            replies::text(alloc, if swapped > 0 { "some" } else { "none" })
        }
        _ => {
            evicts(rt, site, meeting, may_evict);
            replies::text(alloc, "")
        }
    }
}
