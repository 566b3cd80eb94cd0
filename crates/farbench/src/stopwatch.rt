//! Threads at the same kind of call, from about the same moment on, and how the time that they took is printed.

use anyhow::{Result, bail};
use std::alloc::Global;
use std::fmt::Display;
use std::hint::spin_loop;
use std::rt::Clock;
use std::sync::Wait;
use std::sync::atomic::{AtomicBool, AtomicU64, Ordering};
use std::thread::{Threads, map_vec, yield_now};
use std::{fmt, io};

/// How often a thread looks whether the others have been started before it begins without them.
const LONGEST_WAIT: u32 = 1_000_000_000;

/// How often a thread looks whether the others are there before it lets others go first.
const LOOKS: u32 = 1_000;

/// By how many threads a call is measured.
const THREADS: [u32; 3] = [1, 2, 4];

/// The most of them.
pub const MOST_THREADS: u32 = 4;

/// The head of a table: a call, the threads that make it at once, its nanoseconds as each of them sees it, and how many in a
/// hundred were not done.
pub const HEAD: &str = "          call threads          ns       lost%";

/// What a thread does with what all threads share.
pub trait Runner<S> {
    /// Makes the call of this number, and says whether it was done.
    fn call<R: Wait>(&mut self, rt: &R, shared: &S, number: u32) -> bool;

    /// What is due after the last call, within the time.
    fn end<R: Wait>(&mut self, _rt: &R, _shared: &S) {}
}

/// Where threads wait for one another, as often as they come here.
#[derive(Drop)]
pub struct Gate {
    threads: u64,
    arrived: AtomicU64,
    /// Whether nobody is waited for any more.
    is_open: AtomicBool,
}

impl Gate {
    pub fn new(threads: u32) -> Gate {
        Gate {
            threads: u64::from(threads.max(1)),
            arrived: AtomicU64::new(0),
            is_open: AtomicBool::new(false),
        }
    }

    /// Counts one more, and answers how many there are once all have come as often as this one.
    fn arrive(&self) -> u64 {
        let before = self.arrived.fetch_add(1, Ordering::SeqCst);
        let round = before.checked_div(self.threads).unwrap_or(0);
        round.wrapping_add(1).wrapping_mul(self.threads)
    }

    fn lets_through(&self, wanted: u64) -> bool {
        self.is_open.load(Ordering::SeqCst) || self.arrived.load(Ordering::SeqCst) >= wanted
    }

    /// Where threads come first, so that none has all for itself while others are being started. Whether all came: where one can't
    /// be started, its work may be done by one that waits here. They don't yield meanwhile: one that is put to sleep here would
    /// begin too late.
    pub fn meet(&self) -> bool {
        let wanted = self.arrive();
        for _ in 0..LONGEST_WAIT {
            if self.lets_through(wanted) {
                break;
            }
            spin_loop();
        }
        self.arrived.load(Ordering::SeqCst) >= wanted
    }

    /// Waits as long as it takes until all are here, who have met before. What a slow device keeps from its thread's work is waited
    /// for too, so who is still at work goes first.
    pub fn pass<R: Wait>(&self, rt: &R) {
        let wanted = self.arrive();
        for _ in rt.forever() {
            for _ in 0..LOOKS {
                if self.lets_through(wanted) {
                    return;
                }
                spin_loop();
            }
            yield_now();
        }
    }

    /// Lets all through from now on, since one will not come again.
    pub fn open(&self) {
        self.is_open.store(true, Ordering::SeqCst);
    }
}

/// When calls began and ended, in nanoseconds of one clock, and how many were not done.
#[derive(Clone, Copy)]
pub struct Span {
    began: u64,
    ended: u64,
    pub lost: u64,
}

impl Span {
    /// From the earlier beginning to the later end.
    pub fn and(self, other: Span) -> Span {
        Span {
            began: self.began.min(other.began),
            ended: self.ended.max(other.ended),
            lost: self.lost.wrapping_add(other.lost),
        }
    }

    pub fn nanoseconds(self) -> u64 {
        self.ended.saturating_sub(self.began)
    }
}

fn nanoseconds_now<R: Clock>(rt: &R) -> Option<u64> {
    u64::try_from(rt.monotonic().ok()?.as_nanos()).ok()
}

fn run<R: Wait, S, T: Runner<S>>(rt: &R, shared: &S, runner: &mut T, rounds: u32) -> u64 {
    let mut lost = 0u64;
    for number in 0..rounds {
        if !runner.call(rt, shared, number) {
            lost = lost.wrapping_add(1);
        }
    }
    runner.end(rt, shared);
    lost
}

/// The calls of one thread, with the clock read right before and right after them.
fn timed<C: Clock, R: Wait, S, T: Runner<S> + Drop>(
    clock: &C,
    rt: &R,
    shared: &S,
    mut runner: T,
    rounds: u32,
) -> Option<Span> {
    let began = nanoseconds_now(clock)?;
    let lost = run(rt, shared, &mut runner, rounds);
    let ended = nanoseconds_now(clock)?;
    Some(Span { began, ended, lost })
}

fn from_first(spans: &[Option<Span>]) -> Option<Span> {
    let mut all = Span {
        began: u64::MAX,
        ended: 0,
        lost: 0,
    };
    for span in spans {
        all = all.and((*span)?);
    }
    Some(all)
}

fn told(span: Option<Span>) -> Result<Span> {
    match span {
        Some(span) => Ok(span),
        None => bail!("the clock can't be read"),
    }
}

/// Has this thread make so many calls.
pub fn alone<C: Clock, R: Wait, S, T: Runner<S> + Drop>(
    clock: &C,
    rt: &R,
    shared: &S,
    runner: T,
    rounds: u32,
) -> Result<Span> {
    told(timed(clock, rt, shared, runner, rounds))
}

/// Has each make so many calls in a thread of its own. What they took goes from the first beginning to the last end: what each
/// took for itself says little where they wait for one another.
pub fn race<R: Clock + Threads + Wait + Sync, S: Sync, T: Runner<S> + Send + Drop>(
    rt: &R,
    shared: &S,
    runners: Vec<T>,
    rounds: u32,
) -> Result<Span> {
    let gate = &Gate::new(u32::try_from(runners.len())?);
    let spans = map_vec(
        rt,
        runners,
        &|runner| {
            gate.meet();
            timed(rt, rt, shared, runner, rounds)
        },
    )?;
    told(from_first(&spans))
}

/// As many as are asked for, each made from its number.
pub fn vec_from_fn<T: Drop, F: Fn(u32) -> Result<T>>(
    alloc: Global,
    count: u32,
    make: F,
) -> Result<Vec<T>>
    requires { F.IsAlwaysCallable make }
{
    let mut all = Vec::with_capacity(alloc, count as usize)?;
    for number in 0..count {
        all.push(make(number)?)?;
    }
    Ok(all)
}

/// A number of tenths, printed as its whole number and one digit behind the point.
#[derive(Clone, Copy)]
struct Tenths(u64);

impl Tenths {
    /// The quotient, or 0 where nothing was counted.
    fn quotient(sum: u64, count: u64) -> Tenths {
        Tenths(sum.saturating_mul(10).checked_div(count).unwrap_or(0))
    }
}

impl Display for Tenths {
    fn fmt<W: fmt::Write>(&self, f: &mut fmt::Formatter<W>) -> fmt::Result {
        let whole = self.0 / 10;
        let digit = self.0 % 10;
        write!(f, "{whole:>10}.{digit}")
    }
}

/// Prints what so many calls of each of the threads took.
pub fn print<R: Print>(
    rt: &R,
    name: &str,
    threads: u32,
    rounds: u32,
    span: Span,
) -> io::Result<()> {
    let each = Tenths::quotient(span.nanoseconds(), u64::from(rounds));
    let calls = u64::from(rounds).wrapping_mul(u64::from(threads));
    let lost = Tenths::quotient(span.lost.saturating_mul(100), calls);
    println!(rt; "{name:>14} {threads:>7}{each}{lost}")
}

/// Measures so many calls of each of so many threads, and prints a row.
fn row<R, S, T, F>(rt: &R, shared: &S, name: &str, threads: u32, rounds: u32, make: F) -> Result<()>
where
    R: Alloc<A = Global> + Clock + Print + Threads + Wait + Sync,
    S: Sync,
    T: Runner<S> + Send + Drop,
    F: Fn(u32) -> Result<T>,
    requires { F.IsAlwaysCallable make }
{
    let runners = vec_from_fn(rt.alloc(), threads, make)?;
    print(
        rt,
        name,
        threads,
        rounds,
        race(rt, shared, runners, rounds)?,
    )?;
    Ok(())
}

/// Measures so many calls of each of 1, 2 and 4 threads, and prints their rows. Each thread's runner is made from its number.
pub fn rows<R, S, T, F>(rt: &R, shared: &S, name: &str, rounds: u32, make: F) -> Result<()>
where
    R: Alloc<A = Global> + Clock + Print + Threads + Wait + Sync,
    S: Sync,
    T: Runner<S> + Send + Drop,
    F: Fn(u32) -> Result<T>,
    requires { F.IsAlwaysCallable make }
{
    for threads in THREADS {
        row(rt, shared, name, threads, rounds, &make)?;
    }
    Ok(())
}
