//! The calls of one caller, each of which is one public call of the layer.

use crate::datum::{Datum, datum_at, expected_at, frame_at, number_at};
use crate::site::Site;
use crate::stop::{Reply, Stop};
use crate::user::User;
use crate::{eviction, many, replies};
use case_files::Line;
use far_device::Device;
use std::sync::Wait;
use swapper::QueueNaming;
use table_core::Operation;
use version_words::Naming;

/// Why there is no reply.
const NO_CALL: Stop = Stop::Mistake("no call has this name");

// Reads of one key.
fn read<T: Datum, J: Naming, B: QueueNaming, D: Device, R: Wait>(
    rt: &R,
    site: &Site<'_, T, J, B, D>,
    user: &mut User<T, J, B>,
    line: &Line,
) -> Reply {
    let (alloc, table) = (site.alloc, site.table);
    let key = datum_at::<T>(alloc, line, 1)?;
    let caller = &mut user.caller;
    match line.call() {
        "try_get" => replies::value(alloc, table.try_get(alloc, caller, &key)),
        "get" => replies::value(alloc, table.get(rt, alloc, caller, &key)),
        "read_through" => replies::value(alloc, table.read_through(rt, alloc, caller, &key)),
        "get_round" => replies::round(alloc, table.get_round(rt, alloc, caller, &key)),
        _ => Err(NO_CALL),
    }
}

// Puts.
fn put<T: Datum, J: Naming, B: QueueNaming, D: Device, R: Wait>(
    rt: &R,
    site: &Site<'_, T, J, B, D>,
    user: &mut User<T, J, B>,
    line: &Line,
) -> Reply {
    let (alloc, table) = (site.alloc, site.table);
    let key = datum_at::<T>(alloc, line, 1)?;
    let value = datum_at::<T>(alloc, line, 2)?;
    let caller = &mut user.caller;
    match line.call() {
        "try_put" => replies::value(alloc, table.try_put(alloc, caller, &key, &value)),
        "put" => replies::value(alloc, table.put(rt, alloc, caller, &key, &value)),
        "put_round" => {
            let put = Operation::Put(&key, &value);
            replies::round(alloc, table.change_round(rt, alloc, caller, &put))
        }
        _ => Err(NO_CALL),
    }
}

// Puts where the key's value is the expected one.
fn put_if<T: Datum, J: Naming, B: QueueNaming, D: Device, R: Wait>(
    rt: &R,
    site: &Site<'_, T, J, B, D>,
    user: &mut User<T, J, B>,
    line: &Line,
) -> Reply {
    let (alloc, table) = (site.alloc, site.table);
    let key = datum_at::<T>(alloc, line, 1)?;
    let expected = expected_at::<T>(alloc, line, 2)?;
    let value = datum_at::<T>(alloc, line, 3)?;
    let caller = &mut user.caller;
    let answer = if line.call() == "try_put_if" {
        table.try_put_if(alloc, caller, &key, expected.as_ref(), &value)
    } else {
        table.put_if(rt, alloc, caller, &key, expected.as_ref(), &value)
    };
    replies::value(alloc, answer)
}

// Removals.
fn remove<T: Datum, J: Naming, B: QueueNaming, D: Device, R: Wait>(
    rt: &R,
    site: &Site<'_, T, J, B, D>,
    user: &mut User<T, J, B>,
    line: &Line,
) -> Reply {
    let (alloc, table) = (site.alloc, site.table);
    let key = datum_at::<T>(alloc, line, 1)?;
    let caller = &mut user.caller;
    match line.call() {
        "try_remove" => replies::value(alloc, table.try_remove(alloc, caller, &key)),
        "remove" => replies::value(alloc, table.remove(rt, alloc, caller, &key)),
        "remove_if" => {
            let expected = datum_at::<T>(alloc, line, 2)?;
            replies::removal(alloc, table.remove_if(rt, alloc, caller, &key, &expected))
        }
        _ => Err(NO_CALL),
    }
}

// Where a bucket's pairs lie, and which they are.
fn bucket<T: Datum, J: Naming, B: QueueNaming, D: Device, R: Wait>(
    rt: &R,
    site: &Site<'_, T, J, B, D>,
    user: &mut User<T, J, B>,
    line: &Line,
) -> Reply {
    let (alloc, table) = (site.alloc, site.table);
    let key = datum_at::<T>(alloc, line, 1)?;
    let bucket = table.bucket(&key);
    match line.call() {
        "state_of" => replies::state(alloc, table.state_of(&mut user.caller, bucket)),
        "pairs_in" => match table.pairs_in(rt, alloc, &mut user.caller, bucket) {
            Ok(pairs) => replies::pairs(alloc, &pairs),
            Err(refusal) => replies::shown(alloc, &refusal),
        },
        "fetch" => replies::done(alloc, table.fetch(rt, alloc, &mut user.caller, &key)),
        "prefetch" => {
            let mut keys = Vec::new(alloc);
            keys.push(key)?;
            table.prefetch(&mut user.caller, keys.as_slice());
            replies::text(alloc, "")
        }
        _ => Err(NO_CALL),
    }
}

// What frames are asked, and a swap-out of one.
fn frame<T: Datum, J: Naming, B: QueueNaming, D: Device, R: Wait>(
    rt: &R,
    site: &Site<'_, T, J, B, D>,
    user: &mut User<T, J, B>,
    line: &Line,
) -> Reply {
    let (alloc, table) = (site.alloc, site.table);
    let frame = frame_at(line, 1)?;
    match line.call() {
        "swap_out" => replies::done(alloc, table.swap_out(rt, &mut user.caller, frame)),
        "frame_seen" => replies::frame(alloc, table.frame_seen(frame)),
        "touched" => replies::flag(alloc, table.touched(frame)),
        _ => Err(NO_CALL),
    }
}

// Spares that wait in the caller.
fn spares<T: Datum, J: Naming, B: QueueNaming, D: Device, R: Wait>(
    rt: &R,
    site: &Site<'_, T, J, B, D>,
    user: &mut User<T, J, B>,
    line: &Line,
) -> Reply {
    let alloc = site.alloc;
    match line.call() {
        "reclaim" => match user.reclaim(rt, site.table) {
            None => replies::text(alloc, "none"),
            Some(Ok(there)) => replies::flag(alloc, there),
            Some(Err(fault)) => replies::shown(alloc, &fault),
        },
        "take_spare" => replies::flag(alloc, user.take_spare()),
        "return_spare" => replies::flag(alloc, user.return_spare()),
        "held_spare" => replies::name(alloc, user.held_spare()),
        "oldest_spare" => replies::name(alloc, user.oldest_spare()),
        "limbo_len" => replies::shown(alloc, &user.caller.limbo_len()),
        _ => Err(NO_CALL),
    }
}

// What a caller or the table tells, and frames that a caller owns.
fn told<T: Datum, J: Naming, B: QueueNaming, D: Device>(
    site: &Site<'_, T, J, B, D>,
    user: &mut User<T, J, B>,
    line: &Line,
) -> Reply {
    let (alloc, table) = (site.alloc, site.table);
    match line.call() {
        "free" => replies::shown(alloc, &table.free()),
        "has_free" => replies::flag(alloc, table.has_free()),
        "names_left" => replies::shown(alloc, &table.names_left()),
        "traffic" => replies::counted(alloc, user.caller.traffic()),
        "owns_frame" => replies::flag(alloc, user.caller.owns_frame()),
        "recycle" => {
            user.caller.recycle();
            replies::text(alloc, "")
        }
        "stop_recycling" => {
            table.stop_recycling(&mut user.caller);
            replies::text(alloc, "")
        }
        _ => Err(NO_CALL),
    }
}

// Puts of many values, one after another.
fn puts<T: Datum, J: Naming, B: QueueNaming, D: Device, R: Wait>(
    rt: &R,
    site: &Site<'_, T, J, B, D>,
    user: &mut User<T, J, B>,
    line: &Line,
) -> Reply {
    let alloc = site.alloc;
    let key = datum_at::<T>(alloc, line, 1)?;
    let most = number_at(line, 2)?;
    let right = match line.call() {
        "try_puts" => many::try_puts(site, user, &key, most)?,
        "puts_and_reclaims" => many::puts_and_reclaims(rt, site, user, &key, most)?,
        "rounds" => many::rounds(rt, site, user, &key, most)?,
        _ => return Err(NO_CALL),
    };
    replies::shown(alloc, &right)
}

/// A call of one caller.
pub fn call<T: Datum, J: Naming, B: QueueNaming, D: Device, R: Wait>(
    rt: &R,
    site: &Site<'_, T, J, B, D>,
    user: &mut User<T, J, B>,
    line: &Line,
) -> Reply {
    match line.call() {
        "try_get" | "get" | "read_through" | "get_round" => read(rt, site, user, line),
        "try_put" | "put" | "put_round" => put(rt, site, user, line),
        "try_put_if" | "put_if" => put_if(rt, site, user, line),
        "try_remove" | "remove" | "remove_if" => remove(rt, site, user, line),
        "state_of" | "pairs_in" | "fetch" | "prefetch" => bucket(rt, site, user, line),
        "swap_out" | "frame_seen" | "touched" => frame(rt, site, user, line),
        "reclaim" | "take_spare" | "return_spare" | "held_spare" | "oldest_spare" | "limbo_len" => {
            spares(rt, site, user, line)
        }
        "try_puts" | "puts_and_reclaims" | "rounds" => puts(rt, site, user, line),
        "settle" | "hand_over" | "collect" | "turn" | "reclaimed" | "frames_in_use" => {
            eviction::queue_call(rt, site, user, line)
        }
        "give_up" | "make_room" | "make_ready" | "reclaim_oldest" => {
            eviction::room_call(rt, site, user, line)
        }
        _ => told(site, user, line),
    }
}
