//! Turns of an evictor, and the collecting of spares from its queue.
ghost use Rattle.std.specs.Prelude.{◌≡◌, true, [], IfOk};
ghost use Rattle.version_words.specs.Rows.{limits_of};
ghost use Rattle.version_words.specs.Views.{calls};
ghost use Rattle.hash_table.specs.Configs.{sizes_of};

use crate::stopwatch::{HEAD, Runner, Span, alone, print};
use anyhow::{Result, bail};
use far_device::FakeDevice;
use hash_table::{BucketState, Caller, Config, FarTable, Opening};
use std::alloc::Global;
use std::marker::Brand;
use std::rt::Clock;
use std::sync::Wait;
use swapper::{Evictor, QueueNaming, QueueOpening, QueueSeat, SpareQueue};
use version_words::Naming;

/// The most spares that a queue has room for, which are collected at once.
const ROOM: u32 = 4_096;

/// How many turns are timed, at most one for each frame.
const TURNS: u32 = 512;

type Table<J> = FarTable<u64, u64, J, FakeDevice>;

type Queue<J, B> = SpareQueue<u64, u64, J, B>;

type Seat<J, B> = QueueSeat<u64, u64, J, B>;

/// What is timed.
#[derive(Clone, Copy)]
enum Work {
    /// Turns where all frames are filled and none is touched, each with its swap-out.
    Turn,
    /// One collecting of as many spares as the queue has room for.
    Collect,
}

/// An evictor of a table.
#[derive(Drop)]
struct Worker<'t, J: Naming, B: QueueNaming> {
    table: &'t Table<J>,
    evictor: Evictor<u64, u64, J, B>,
    work: Work,
}

impl<J: Naming, B: QueueNaming> Runner<Queue<J, B>> for Worker<'_, J, B> {
    fn call<R: Wait>(&mut self, rt: &R, queue: &Queue<J, B>, _number: u32) -> bool {
        match self.work {
            Work::Turn => match self.evictor.turn(rt, self.table, queue) {
                Ok(turn) => turn.evicted,
                Err(_) => false,
            },
            Work::Collect => {
                let told = self.evictor.collect(rt, self.table, queue);
                told.reclaimed == u64::from(ROOM)
            }
        }
    }
}

/// A caller, who has made no call.
fn entered<J: Naming>(table: &Table<J>) -> Result<Caller<u64, u64, J>>
    ensures { IfOk result (λ caller. calls caller.pass ≡ []) }
{
    match table.enter() {
        Ok(caller) => Ok(caller),
        Err(_) => bail!("no pass is left"),
    }
}

fn put<J: Naming>(
    alloc: Global,
    table: &Table<J>,
    caller: &mut Caller<u64, u64, J>,
    key: u64,
) -> Result<()> {
    match table.try_put(alloc, caller, &key, &1) {
        Ok(_) => Ok(()),
        Err(refusal) => bail!("a put was refused: {refusal}"),
    }
}

/// Whether the key's bucket has no pair.
fn is_empty<J: Naming>(table: &Table<J>, caller: &mut Caller<u64, u64, J>, key: u64) -> bool {
    let bucket = table.bucket(&key);
    matches!(table.state_of(caller, bucket), BucketState::Empty(_))
}

/// Fills all frames: each of as many buckets gets one pair.
fn fill<J: Naming>(alloc: Global, table: &Table<J>, frames: u32) -> Result<()> {
    let mut caller = entered(table)?;
    let mut filled = 0u32;
    for number in 0..u32::MAX {
        if filled == frames {
            return Ok(());
        }
        // Such keys come into all buckets.
        let key = u64::from(number).wrapping_mul(0x9E37_79B9_7F4A_7C15);
        if is_empty(table, &mut caller, key) {
            put(alloc, table, &mut caller, key)?;
            filled = filled.wrapping_add(1);
        }
    }
    bail!("not all buckets have a key")
}

/// Leaves as many spares in the queue as it has room for.
fn leave<R: Wait, J: Naming, B: QueueNaming>(
    rt: &R,
    alloc: Global,
    table: &Table<J>,
    queue: &Queue<J, B>,
    seat: Option<Seat<J, B>>,
) -> Result<()> {
    let Some(mut seat) = seat else {
        bail!("there is no seat");
    };
    let mut caller = entered(table)?;
    put(alloc, table, &mut caller, 0)?;
    for _ in 0..ROOM {
        put(alloc, table, &mut caller, 0)?;
        queue.settle(rt, &mut seat, &mut caller);
    }
    Ok(())
}

/// An evictor for so many frames.
fn evictor<J: Naming, B: QueueNaming>(
    alloc: Global,
    table: &Table<J>,
    taker: Seat<J, B>,
    frames: u32,
) -> Result<Evictor<u64, u64, J, B>>
    requires { taker.takes ≡ true }
{
    if frames == 0 {
        bail!("there are no frames");
    }
    match Evictor::open(alloc, entered(table)?, taker, frames, ROOM) {
        Ok(evictor) => Ok(evictor),
        Err(_) => bail!("there is no memory for an evictor"),
    }
}

fn over_queue<R: Clock + Wait, J: Naming, B: QueueNaming>(
    rt: &R,
    alloc: Global,
    table: &Table<J>,
    queue: QueueOpening<u64, u64, J>,
    frames: u32,
    work: Work,
) -> Result<Span>
    requires { queue.table ≡ B.table }
{
    let Ok((queue, taker, mut seats)) = queue.named::<B>(alloc, 1) else {
        bail!("there is no memory for seats");
    };
    let rounds = match work {
        Work::Turn => {
            fill(alloc, table, frames)?;
            TURNS
        }
        Work::Collect => {
            leave(rt, alloc, table, &queue, seats.pop())?;
            1
        }
    };
    let worker = Worker {
        table,
        evictor: evictor(alloc, table, taker, frames)?,
        work,
    };
    alone(rt, rt, &queue, worker, rounds)
}

fn on_table<R: Clock + Wait, J: Naming>(
    rt: &R,
    alloc: Global,
    table: &Table<J>,
    frames: u32,
    work: Work,
) -> Result<Span> {
    let Ok(queue) = QueueOpening::open(alloc, ROOM) else {
        bail!("there is no memory for a queue");
    };
    over_queue::<R, J, Brand>(rt, alloc, table, queue, frames, work)
}

fn over_table<R: Clock + Wait, J: Naming>(
    rt: &R,
    alloc: Global,
    opening: Opening<u64, u64, FakeDevice>,
    frames: u32,
    work: Work,
) -> Result<Span>
    requires { (opening.row.book ≡ J.book) × (opening.row.names ≡ J.names) × (limits_of (sizes_of opening.config) true ≡ J.limits) }
{
    let table = opening.named::<J>(alloc)?;
    on_table(rt, alloc, &table, frames, work)
}

/// What the work took over a table of its own with so many frames.
fn time<R: Clock + Wait>(rt: &R, alloc: Global, frames: u32, work: Work) -> Result<Span> {
    let config = Config {
        buckets: frames,
        frames,
        limit: 4_096,
        names: (1 << 40) - 1,
        passes: 2,
        lanes: 1,
        spares: ROOM,
        format: 2,
    };
    let devices = Vec::from_array(alloc, [FakeDevice::new(alloc)])?;
    let opening = Opening::open(alloc, config, devices)?;
    over_table::<R, Brand>(rt, alloc, opening, frames, work)
}

/// Prints the nanoseconds of turns at so many frames, and of collecting, for each spare.
///
/// An error comes where memory, the clock or the output fails, or there are too few frames.
pub fn measure<R: Alloc<A = Global> + Clock + Print + Wait>(rt: &R, frames: u32) -> Result<()> {
    let alloc = rt.alloc();
    println!(rt; "{HEAD}")?;
    print(rt, "turn", 1, TURNS, time(rt, alloc, frames, Work::Turn)?)?;
    let collected = time(rt, alloc, frames.max(2 * ROOM), Work::Collect)?;
    print(rt, "collect", 1, ROOM, collected)?;
    Ok(())
}
