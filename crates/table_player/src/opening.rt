//! How a table is opened.
ghost use Rattle.std.specs.Prelude.{◌≡◌};
ghost use Rattle.version_words.specs.Rows.{limits_of};
ghost use Rattle.hash_table.specs.Configs.{sizes_of};

use crate::datum::Datum;
use crate::devices::{Made, Unsure, devices, spool};
use crate::replies;
use crate::seats::Taker;
use crate::settings::{Failing, config, device_count, has_evictor, is_wide};
use crate::site::{Spares, Table};
use crate::stop::{Reply, Stop, told};
use crate::world::{Callers, World};
use case_files::{Line, Playing};
use far_device::Device;
use hash_table::{OpenFault, Opening};
use std::alloc::Global;
use std::marker::Brand;
use std::sync::{Mutex, Wait};
use std::thread::Threads;
use swapper::{QueueNaming, QueueOpening};
use version_words::Naming;

/// How many callers of a case may have a seat of the queue.
const SEATS: u32 = 8;

/// What an opening makes beside the table.
#[derive(Drop)]
struct Beside<D: Device> {
    frames: u32,
    buckets: u32,
    spares: u32,
    has_evictor: bool,
    spool: D,
}

// Why nothing is played: what the opening replies.
fn refused(alloc: Global, fault: OpenFault) -> Reply {
    replies::shown(alloc, &fault)
}

// Opens a table and its queue by the line's words, and plays what follows. What the opening replies where it is refused.
fn try_open<T, I, R>(rt: &R, alloc: Global, playing: &mut Playing<'_>, line: &Line) -> Option<Reply>
where
    T: Datum + Send + Sync,
    I: Made + Send,
    R: Threads + Wait + Sync,
{
    match made::<T, I>(alloc, line) {
        Err(stop) => Some(Err(stop)),
        Ok(Err(fault)) => Some(refused(alloc, fault)),
        Ok(Ok((opening, beside))) => {
            over::<T, Unsure<I>, R>(rt, alloc, opening, beside, playing, line)
        }
    }
}

type Opened<T, I> = (Opening<T, T, Unsure<I>>, Beside<Unsure<I>>);

fn made<T: Datum, I: Made>(
    alloc: Global,
    line: &Line,
) -> Result<Result<Opened<T, I>, OpenFault>, Stop> {
    let config = config(line)?;
    let failing = Failing::read(line)?;
    let beside = Beside {
        frames: config.frames,
        buckets: config.buckets,
        spares: config.spares,
        has_evictor: has_evictor(line)?,
        spool: spool::<I>(alloc, line, failing)?,
    };
    let devices = devices::<I>(alloc, line, failing, device_count(line, config.lanes)?)?;
    let opened = if is_wide(line)? {
        Opening::open_wide(alloc, config, devices)
    } else {
        Opening::open(alloc, config, devices)
    };
    match opened {
        Ok(opening) => Ok(Ok((opening, beside))),
        Err(fault) => Ok(Err(fault)),
    }
}

fn over<T, D, R>(
    rt: &R,
    alloc: Global,
    opening: Opening<T, T, D>,
    beside: Beside<D>,
    playing: &mut Playing<'_>,
    line: &Line,
) -> Option<Reply>
where
    T: Datum + Send + Sync,
    D: Device + Send,
    R: Threads + Wait + Sync,
{
    on_opened::<T, Brand, D, R>(rt, alloc, opening, beside, playing, line)
}

fn on_opened<T, J, D, R>(
    rt: &R,
    alloc: Global,
    opening: Opening<T, T, D>,
    beside: Beside<D>,
    playing: &mut Playing<'_>,
    line: &Line,
) -> Option<Reply>
where
    T: Datum + Send + Sync,
    J: Naming + Send + Sync,
    D: Device + Send,
    R: Threads + Wait + Sync,
    requires book { opening.row.book ≡ J.book }
    requires boards { opening.row.names ≡ J.names }
    requires limits { limits_of (sizes_of opening.config) D.HONEST ≡ J.limits }
{
    match opening.named::<J>(alloc) {
        Err(fault) => Some(refused(alloc, fault)),
        Ok(table) => with_queue::<T, J, D, R>(rt, alloc, table, beside, playing, line),
    }
}

fn with_queue<T, J, D, R>(
    rt: &R,
    alloc: Global,
    table: Table<T, J, D>,
    beside: Beside<D>,
    playing: &mut Playing<'_>,
    line: &Line,
) -> Option<Reply>
where
    T: Datum + Send + Sync,
    J: Naming + Send + Sync,
    D: Device + Send,
    R: Threads + Wait + Sync,
{
    if beside.spares == 0 {
        return Some(Err(Stop::Mistake("a queue has room")));
    }
    match QueueOpening::open(alloc, beside.spares) {
        Err(_) => Some(Err(Stop::Memory)),
        Ok(queue) => {
            over_queue::<T, J, Brand, D, R>(rt, alloc, table, queue, beside, playing, line)
        },
    }
}

// The table with its queue, and an evictor where one is asked for.
fn over_queue<T, J, B, D, R>(
    rt: &R,
    alloc: Global,
    table: Table<T, J, D>,
    queue: QueueOpening<T, T, J>,
    beside: Beside<D>,
    playing: &mut Playing<'_>,
    line: &Line,
) -> Option<Reply>
where
    T: Datum + Send + Sync,
    J: Naming + Send + Sync,
    B: QueueNaming + Send + Sync,
    D: Device + Send,
    R: Threads + Wait + Sync,
    requires { queue.table ≡ B.table }
{
    let Ok((queue, seat, seats)) = queue.named::<B>(alloc, SEATS) else {
        return Some(Err(Stop::Memory));
    };
    let Beside {
        frames,
        buckets,
        spares,
        has_evictor,
        spool: device,
    } = beside;
    let mut spool = Vec::new(alloc);
    if spool.push(device).is_err() {
        return Some(Err(Stop::Memory));
    }
    let taker = Taker::new(seat);
    let (taker, evictor) = if has_evictor {
        let Ok(own) = table.enter() else {
            return Some(Err(Stop::Mistake("no pass is left for the evictor")));
        };
        match taker.into_evictor(alloc, own, frames, spares) {
            Ok(evictor) => (None, Some(Mutex::new(evictor))),
            Err(stop) => return Some(Err(stop)),
        }
    } else {
        (Some(taker), None)
    };
    let mut world = World {
        alloc,
        table: Some(table),
        queue,
        evictor,
        taker,
        spares: Spares::new(),
        frames,
        buckets,
        callers: Callers {
            users: Vec::new(alloc),
            seats,
        },
        marks: Vec::new(alloc),
        handed: Vec::new(alloc),
        spool,
    };
    if playing.tell(line, Ok(String::new(alloc))) {
        return Some(Err(Stop::Memory));
    }
    world.play(rt, playing);
    None
}

/// Opens a table by the line's words, and plays what follows.
pub fn open<T, I, R>(rt: &R, alloc: Global, playing: &mut Playing<'_>, line: &Line)
where
    T: Datum + Send + Sync,
    I: Made + Send,
    R: Threads + Wait + Sync,
{
    for _ in 0..2 {
        match try_open::<T, I, R>(rt, alloc, playing, line) {
            None => return,
            Some(reply) => {
                if !playing.tell(line, told(alloc, reply)) {
                    return;
                }
            }
        }
    }
}
