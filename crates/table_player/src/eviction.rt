//! The queue of spares, the evictor, and callers that make room themselves.

use crate::datum::Datum;
use crate::replies;
use crate::site::{Evicting, Site};
use crate::stop::{Reply, Stop};
use crate::user::User;
use case_files::Line;
use far_device::Device;
use hash_table::{BucketState, Refusal};
use std::alloc::Global;
use std::sync::Wait;
use std::sync::atomic::Ordering::SeqCst;
use swapper::{Collected, QueueNaming, RoomMaker, Turn, reclaim_oldest};
use table_core::word::name_of;
use version_words::Naming;

const NO_SEAT: Stop = Stop::Mistake("no seat of the queue is left");

const NO_EVICTOR: Stop = Stop::Mistake("the opening asks for no evictor");

// The counts between two words. The text is begun once more where a growth was refused, since the call is done.
fn counts(alloc: Global, before: &str, reclaimed: u64, kept: u64, behind: &str) -> Reply {
    for _ in 0..2 {
        if let Ok(out) = format!(in alloc; "{before}reclaimed {reclaimed} kept {kept}{behind}") {
            return Ok(out);
        }
    }
    Err(Stop::Memory)
}

// The counts of a collecting, and `failed` where it ended since the device failed.
fn collected(alloc: Global, told: Collected) -> Reply {
    let failed = if told.failed { " failed" } else { "" };
    counts(alloc, "", told.reclaimed, told.kept, failed)
}

// The counts of a turn, behind `evicted` where a frame was swapped out.
fn turned(alloc: Global, told: Result<Turn, Refusal>) -> Reply {
    match told {
        Err(refusal) => replies::shown(alloc, &refusal),
        Ok(turn) => {
            let evicted = if turn.evicted { "evicted " } else { "" };
            counts(alloc, evicted, turn.reclaimed, turn.kept, "")
        }
    }
}

/// So many spares go to the queue.
pub fn settle<T: Datum, J: Naming, B: QueueNaming, D: Device, R: Wait>(
    rt: &R,
    site: &Site<'_, T, J, B, D>,
    user: &mut User<T, J, B>,
) -> Result<u32, Stop> {
    let Some(seat) = user.hands.seat.as_mut() else {
        return Err(NO_SEAT);
    };
    let went = site.queue.settle(rt, seat, &mut user.caller);
    site.spares.handed_over.fetch_add(u64::from(went), SeqCst);
    Ok(went)
}

// Hands over the oldest spare; where it comes back, its name is told.
fn hand_over<T: Datum, J: Naming, B: QueueNaming, D: Device, R: Wait>(
    rt: &R,
    site: &Site<'_, T, J, B, D>,
    user: &mut User<T, J, B>,
) -> Reply {
    let Some(seat) = user.hands.seat.as_mut() else {
        return Err(NO_SEAT);
    };
    let Some(spare) = user.caller.take_spare() else {
        return replies::text(site.alloc, "none");
    };
    match site.queue.hand_over(rt, seat, spare) {
        Ok(()) => replies::text(site.alloc, ""),
        Err(back) => { replies::word_and(site.alloc, "back", name_of(back.word())) }
    }
}

/// The evictor collects.
pub fn collect<T: Datum, J: Naming, B: QueueNaming, D: Device, R: Wait>(
    rt: &R,
    site: &Site<'_, T, J, B, D>,
    evictor: &Evicting<T, J, B>,
) -> Collected {
    let told = evictor.lock(rt).collect(rt, site.table, site.queue);
    site.spares.reclaimed.fetch_add(told.reclaimed, SeqCst);
    told
}

/// The evictor's turn.
pub fn turn<T: Datum, J: Naming, B: QueueNaming, D: Device, R: Wait>(
    rt: &R,
    site: &Site<'_, T, J, B, D>,
    evictor: &Evicting<T, J, B>,
) -> Result<Turn, Refusal> {
    let told = evictor.lock(rt).turn(rt, site.table, site.queue);
    if let Ok(turn) = told {
        site.spares.reclaimed.fetch_add(turn.reclaimed, SeqCst);
    }
    told
}

// How many frames are free or have what a bucket's word names.
fn frames_in_use<T: Datum, J: Naming, B: QueueNaming, D: Device>(
    site: &Site<'_, T, J, B, D>,
    user: &mut User<T, J, B>,
) -> Result<u32, Stop> {
    let mut used = site.table.free();
    for number in 0..u64::from(site.buckets) {
        let key = T::of_number(site.alloc, number)?;
        let bucket = site.table.bucket(&key);
        if let BucketState::Local(_) = site.table.state_of(&mut user.caller, bucket) {
            used = used.wrapping_add(1);
        }
    }
    Ok(used)
}

/// A call of the queue or of the evictor.
pub fn queue_call<T: Datum, J: Naming, B: QueueNaming, D: Device, R: Wait>(
    rt: &R,
    site: &Site<'_, T, J, B, D>,
    user: &mut User<T, J, B>,
    line: &Line,
) -> Reply {
    let alloc = site.alloc;
    match line.call() {
        "settle" => replies::shown(alloc, &settle(rt, site, user)?),
        "hand_over" => hand_over(rt, site, user),
        "frames_in_use" => replies::shown(alloc, &frames_in_use(site, user)?),
        "reclaimed" => {
            let all = site.spares.reclaimed.load(SeqCst) == site.spares.handed_over.load(SeqCst);
            replies::text(
                alloc,
                if all {
                    "all"
                } else {
                    "not as many as were handed over"
                },
            )
        }
        "collect" => {
            let evictor = site.evictor.ok_or(NO_EVICTOR)?;
            let told = collect(rt, site, evictor);
            if line.text_at(1) == Some("quietly") {
                return replies::text(alloc, "");
            }
            collected(alloc, told)
        }
        _ => {
            let evictor = site.evictor.ok_or(NO_EVICTOR)?;
            turned(alloc, turn(rt, site, evictor))
        }
    }
}

// Opens what the caller makes room by, where it has none.
fn open_room<T: Datum, J: Naming, B: QueueNaming, D: Device>(
    site: &Site<'_, T, J, B, D>,
    user: &mut User<T, J, B>,
) -> Result<(), Stop> {
    if user.hands.room.is_some() {
        return Ok(());
    }
    if site.frames == 0 {
        return Err(Stop::Mistake("a table has frames"));
    }
    match RoomMaker::open(site.alloc, site.frames, 0) {
        Ok(room) => {
            user.hands.room = Some(room);
            Ok(())
        }
        Err(_) => Err(Stop::Memory),
    }
}

/// A caller gives up a frame itself.
pub fn room_call<T: Datum, J: Naming, B: QueueNaming, D: Device, R: Wait>(
    rt: &R,
    site: &Site<'_, T, J, B, D>,
    user: &mut User<T, J, B>,
    line: &Line,
) -> Reply {
    let (alloc, table) = (site.alloc, site.table);
    user.open_clock(site)?;
    open_room(site, user)?;
    let (Some(clock), Some(room)) = (user.hands.clock.as_mut(), user.hands.room.as_mut()) else {
        return Err(Stop::Memory);
    };
    match line.call() {
        "give_up" => replies::done(alloc, clock.give_up(rt, table, &mut user.caller)),
        "make_room" => replies::done(alloc, room.make_room(rt, table, &mut user.caller)),
        "make_ready" => {
            room.make_ready(rt, table, &mut user.caller);
            replies::text(alloc, "")
        }
        _ => {
            reclaim_oldest(rt, table, &mut user.caller);
            replies::text(alloc, "")
        }
    }
}
