//! The end of a table: by one thread and by several, bucket by bucket, and drained.

use crate::datum::Datum;
use crate::replies;
use crate::site::Table;
use crate::stop::{Reply, Stop};
use crate::user::{Hands, User};
use crate::world::{ENDED, World};
use case_files::Line;
use far_device::Device;
use far_pairs::in_key_order;
use hash_table::{Caller, Stopped, TakesPairs};
use migration::Migration;
use std::alloc::Global;
use std::sync::Wait;
use std::thread::Threads;
use swapper::QueueNaming;
use version_words::Naming;

/// The calls that end the table.
pub const CALLS: &[&str] = &["close", "close_on_threads", "close_through", "drain"];

/// More parts than a case hands over.
const MOST_PARTS: u32 = 1_000;

/// Takes the pairs of so many buckets, and no more.
#[derive(Drop)]
struct PairTaker<T: Datum> {
    pairs: Vec<(T, T)>,
    left: u32,
}

impl<T: Datum> TakesPairs<T, T> for PairTaker<T> {
    ghost use Rattle.std.specs.Prelude.{◌≡◌, ◌++◌, ⊤, MatchResult};
    ghost use Rattle.std.proofs.Common.{ap, sym, ◌∙◌};
    ghost use Rattle.std.proofs.lemmas.List.{append-nil, append_assoc};

    ghost takes = { λ old pairs new. new.pairs.items ≡ old.pairs.items ++ pairs };

    ghost takes_none = { λ x. sym (append-nil x.pairs.items) };

    ghost takes_both = { λ x y z first last one other. other ∙ (ap (λ items. items ++ last) one ∙ append_assoc x.pairs.items first last) };

    fn take(&mut self, mut pairs: Vec<(T, T)>) -> Result<(), Stopped>
        ensures { MatchResult result (λ _. self.new.pairs.items ≡ self.old.pairs.items ++ pairs.items) (λ _. ⊤) }
    {
        if self.left == 0 {
            return Err(Stopped);
        }
        self.left -= 1;
        match self.pairs.append(&mut pairs) {
            Ok(()) => Ok(()),
            Err(_) => Err(Stopped),
        }
    }
}

fn sort<T: Datum>(pairs: &mut Vec<(T, T)>) {
    pairs.sort_unstable_by(|one: &(T, T), other: &(T, T)| one.0.compare(&other.0));
}

/// What stays of a caller who is handed in.
#[derive(Drop)]
struct Rest<T: Datum, J: Naming, B: QueueNaming> {
    name: Vec<u8>,
    hands: Hands<T, J, B>,
}

/// The callers who are handed in, what stays of each, and the one who is held back.
#[derive(Drop)]
struct HandedIn<T: Datum, J: Naming, B: QueueNaming> {
    callers: Vec<Caller<T, T, J>>,
    rests: Vec<Rest<T, J, B>>,
    held: Option<User<T, J, B>>,
}

// Takes the callers of the case, without the one that the line holds back.
fn hand_in<T: Datum, J: Naming, B: QueueNaming, D: Device>(
    world: &mut World<T, J, B, D>,
    line: &Line,
) -> Result<HandedIn<T, J, B>, Stop> {
    let count = world.callers.users.len();
    let mut callers = Vec::with_capacity(world.alloc, count)?;
    let mut rests = Vec::with_capacity(world.alloc, count)?;
    let held = match line.named("but") {
        None => None,
        Some(name) => {
            let place = world.callers.place(name);
            let place = place.ok_or(Stop::Mistake("no caller has this name"))?;
            if place >= world.callers.users.len() {
                return Err(Stop::Mistake("no caller has this name"));
            }
            Some(world.callers.users.remove(place))
        }
    };
    for _ in 0..count {
        if world.callers.users.is_empty() {
            break;
        }
        let User {
            name,
            caller,
            hands,
        } = world.callers.users.remove(0);
        callers.push(caller)?;
        rests.push(Rest { name, hands })?;
    }
    Ok(HandedIn {
        callers,
        rests,
        held,
    })
}

// The callers come back in their order, and the one who was held back is the last of them.
fn come_back<T: Datum, J: Naming, B: QueueNaming, D: Device>(
    world: &mut World<T, J, B, D>,
    callers: Vec<Caller<T, T, J>>,
    rests: Vec<Rest<T, J, B>>,
    held: Option<User<T, J, B>>,
) -> Result<(), Stop> {
    for (caller, rest) in callers.into_iter().zip(rests) {
        let Rest { name, hands } = rest;
        world.callers.users.push(User {
            name,
            caller,
            hands,
        })?;
    }
    if let Some(user) = held {
        world.callers.users.push(user)?;
    }
    Ok(())
}

/// How a close ended: with the pairs, or with a fault and what comes back.
#[derive(Drop)]
enum Closed<T: Datum, J: Naming, D: Device> {
    Pairs(String),
    Not(String, Table<T, J, D>, Vec<Caller<T, T, J>>),
}

fn by_one<T: Datum, J: Naming, D: Device, R: Wait>(
    rt: &R,
    alloc: Global,
    table: Table<T, J, D>,
    callers: Vec<Caller<T, T, J>>,
) -> Result<Closed<T, J, D>, Stop> {
    match table.close(rt, alloc, callers) {
        Ok(pairs) => Ok(Closed::Pairs(replies::pairs(alloc, &pairs)?)),
        Err((fault, table, callers)) => {
            let text = replies::shown(alloc, &fault)?;
            Ok(Closed::Not(text, table, callers))
        }
    }
}

fn on_threads<T, J, D, R>(
    rt: &R,
    alloc: Global,
    table: Table<T, J, D>,
    callers: Vec<Caller<T, T, J>>,
) -> Result<Closed<T, J, D>, Stop>
where
    T: Datum + Send + Sync,
    J: Naming + Send + Sync,
    D: Device + Send,
    R: Threads + Wait + Sync,
{
    match table.close_on_threads(rt, alloc, callers) {
        Ok(bundles) => match in_key_order(rt, alloc, bundles.as_slice()) {
            Ok(lists) => Ok(Closed::Pairs(replies::lent::<T>(alloc, &lists)?)),
            Err(_) => Err(Stop::Memory),
        },
        Err((fault, table, callers)) => {
            let text = replies::shown(alloc, &fault)?;
            Ok(Closed::Not(text, table, callers))
        }
    }
}

// The pairs in key order; and in the order in which they were handed over where they are not all.
fn through<T: Datum, J: Naming, D: Device, R: Wait>(
    rt: &R,
    alloc: Global,
    table: Table<T, J, D>,
    callers: Vec<Caller<T, T, J>>,
    taker: &mut PairTaker<T>,
) -> Result<Closed<T, J, D>, Stop> {
    match table.close_through(rt, alloc, callers, taker) {
        Ok(()) => {
            sort(&mut taker.pairs);
            Ok(Closed::Pairs(replies::pairs(alloc, &taker.pairs)?))
        }
        Err((fault, table, callers)) => {
            let text = replies::shown(alloc, &fault)?;
            Ok(Closed::Not(text, table, callers))
        }
    }
}

// All pairs of a migration, in key order.
fn taken<T: Datum, D: Device>(
    alloc: Global,
    rest: &mut Migration<T, T, D>,
) -> Result<Vec<(T, T)>, Stop> {
    let mut pairs = Vec::new(alloc);
    for _ in 0..MOST_PARTS {
        match rest.take(alloc) {
            None => break,
            Some(Ok(mut part)) => pairs.append(&mut part)?,
            Some(Err(_)) => return Err(Stop::Mistake("what was handed over can't be taken")),
        }
    }
    sort(&mut pairs);
    Ok(pairs)
}

// Drains the table, which is gone then.
fn drain<T: Datum, J: Naming, B: QueueNaming, D: Device, R: Wait>(
    rt: &R,
    world: &mut World<T, J, B, D>,
    table: Table<T, J, D>,
    callers: Vec<Caller<T, T, J>>,
) -> Reply {
    let alloc = world.alloc;
    let Some(spool) = world.spool.pop() else {
        return Err(Stop::Mistake("a case drains one table"));
    };
    let Ok(mut rest) = Migration::over(alloc, spool) else {
        return Err(Stop::Mistake("the spool can't be made empty"));
    };
    let drained = table.drain(rt, alloc, callers, &mut rest);
    world.handed = taken(alloc, &mut rest)?;
    match drained {
        Err(fault) => replies::shown(alloc, &fault),
        Ok(drained) => {
            let (lost, far, count) = (drained.lost, drained.far, drained.devices.len());
            Ok(format!(in alloc; "lost {lost} far {far} devices {count}")?)
        }
    }
}

// Ends the table by the line's call.
fn ended<T, J, B, D, R>(
    rt: &R,
    world: &mut World<T, J, B, D>,
    line: &Line,
    table: Table<T, J, D>,
    callers: Vec<Caller<T, T, J>>,
) -> Result<Closed<T, J, D>, Stop>
where
    T: Datum + Send + Sync,
    J: Naming + Send + Sync,
    B: QueueNaming,
    D: Device + Send,
    R: Threads + Wait + Sync,
{
    let alloc = world.alloc;
    match line.call() {
        "close" => by_one(rt, alloc, table, callers),
        "close_on_threads" => on_threads(rt, alloc, table, callers),
        "close_through" => {
            let most = line.number_named("most", u64::from(u32::MAX));
            let mut taker = PairTaker {
                pairs: Vec::new(alloc),
                left: u32::try_from(most.unwrap_or(0)).unwrap_or(u32::MAX),
            };
            let closed = through(rt, alloc, table, callers, &mut taker);
            let PairTaker { pairs, left: _ } = taker;
            world.handed = pairs;
            closed
        }
        _ => Ok(Closed::Pairs(drain(rt, world, table, callers)?)),
    }
}

/// A call that ends the table.
pub fn call<T, J, B, D, R>(rt: &R, world: &mut World<T, J, B, D>, line: &Line) -> Reply
where
    T: Datum + Send + Sync,
    J: Naming + Send + Sync,
    B: QueueNaming,
    D: Device + Send,
    R: Threads + Wait + Sync,
{
    if world.table.is_none() {
        return Err(ENDED);
    }
    let HandedIn {
        callers,
        rests,
        held,
    } = hand_in(world, line)?;
    let Some(table) = world.table.take() else {
        return Err(ENDED);
    };
    match ended(rt, world, line, table, callers)? {
        Closed::Pairs(text) => Ok(text),
        Closed::Not(text, table, callers) => {
            world.table = Some(table);
            come_back(world, callers, rests, held)?;
            Ok(text)
        }
    }
}
