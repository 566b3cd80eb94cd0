//! A scope, under which further lines are played.

use crate::datum::{Datum, datum_at};
use crate::site::Site;
use crate::stop::{Reply, Stop, told};
use crate::world::{Callers, ENDED, World, site_of};
use crate::{close, is_opening, replies};
use case_files::{Line, Playing};
use far_device::Device;
use hash_table::TableScope;
use std::sync::Wait;
use swapper::QueueNaming;
use version_words::Naming;

/// Whether the line can't be played under a scope.
fn ends_before(line: &Line) -> bool {
    line.block != 0 || is_opening(line.call()) || close::CALLS.contains(&line.call())
}

// A line under the scope.
fn call<T: Datum, J: Naming, B: QueueNaming, D: Device, R: Wait>(
    rt: &R,
    site: &Site<'_, T, J, B, D>,
    callers: &mut Callers<T, J, B>,
    scope: &TableScope<'_, T, T, J>,
    line: &Line,
) -> Reply {
    match line.call() {
        "close_scope" => replies::text(site.alloc, ""),
        "scope" => replies::scope(site.alloc, scope),
        "open_scope" => Err(Stop::Mistake("one scope is open at a time")),
        _ => callers.call(rt, site, line),
    }
}

// Plays what follows, up to the line that closes the scope.
fn under<T: Datum, J: Naming, B: QueueNaming, D: Device, R: Wait>(
    rt: &R,
    site: &Site<'_, T, J, B, D>,
    callers: &mut Callers<T, J, B>,
    playing: &mut Playing<'_>,
    scope: TableScope<'_, T, T, J>,
) {
    for _ in 0..playing.case().lines.len() {
        match playing.peek() {
            Some(line) if !ends_before(line) => {}
            _ => break,
        }
        let Some(line) = playing.next() else {
            break;
        };
        for _ in 0..2 {
            let reply = call(rt, site, callers, &scope, line);
            if !playing.tell(line, told(site.alloc, reply)) {
                break;
            }
        }
        if line.call() == "close_scope" {
            break;
        }
    }
    scope.close();
}

// Opens a scope, and plays what follows under it. Whether the call has to be made once more.
fn open<T: Datum, J: Naming, B: QueueNaming, D: Device, R: Wait>(
    rt: &R,
    site: &Site<'_, T, J, B, D>,
    callers: &mut Callers<T, J, B>,
    playing: &mut Playing<'_>,
    line: &Line,
) -> Result<bool, Stop> {
    let alloc = site.alloc;
    let key = datum_at::<T>(alloc, line, 1)?;
    let Some(user) = callers.user(alloc, site.table, line.thread())? else {
        return Err(Stop::Mistake("no pass is left for this caller"));
    };
    match site.table.open_scope(&mut user.caller, &key) {
        Err(refusal) => Ok(playing.tell(line, told(alloc, replies::shown(alloc, &refusal)))),
        Ok(None) => Ok(playing.tell(line, told(alloc, replies::text(alloc, "none")))),
        Ok(Some(scope)) => {
            let reply = told(alloc, replies::scope(alloc, &scope));
            if playing.tell(line, reply) {
                scope.close();
                return Ok(true);
            }
            under(rt, site, callers, playing, scope);
            Ok(false)
        }
    }
}

/// Opens the line's scope, and plays what follows under it.
pub fn play<T: Datum, J: Naming, B: QueueNaming, D: Device, R: Wait>(
    rt: &R,
    world: &mut World<T, J, B, D>,
    playing: &mut Playing<'_>,
    line: &Line,
) {
    let alloc = world.alloc;
    let Some(table) = world.table.as_ref() else {
        let _ = playing.tell(line, told(alloc, Err(ENDED)));
        return;
    };
    let sizes = (world.frames, world.buckets);
    let site = site_of(
        alloc,
        table,
        &world.queue,
        &world.evictor,
        &world.spares,
        sizes,
    );
    for _ in 0..2 {
        match open(rt, &site, &mut world.callers, playing, line) {
            Ok(false) => return,
            Ok(true) => {}
            Err(stop) => {
                if !playing.tell(line, told(alloc, Err(stop))) {
                    return;
                }
            }
        }
    }
}
