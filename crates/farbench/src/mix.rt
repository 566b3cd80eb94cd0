//! Calls as a user's: keys of 16 bytes, drawn evenly or skewed, gets and puts mixed, with a frame for each bucket or fewer, over
//! devices in the process or in a folder. `bench/compare.sh` and `bench/far.sh` run it beside other maps, on the same files of keys
//! and draws.

mod files;
mod user;

use crate::stopwatch::{Gate, Span, alone, vec_from_fn};
use anyhow::{Result, bail};
use far_device::{Device, FakeDevice};
use far_map::{Calls, Settings, Work, run_apart};
use far_object::Text;
use file_device::open_lanes;
use files::{calls_each, key_at, key_count, resident};
use std::alloc::Global;
use std::fs;
use std::rt::Files;
use std::sync::Wait;
use std::thread::Threads;
use user::User;

/// The most bytes of a bucket's pairs.
const LIMIT: u32 = 65_536;

/// How many devices there are, each in a lane.
const LANES: u32 = 16;

/// How many threads there are in each run, which has a map of its own.
const THREADS: [u32; 3] = [1, 2, 4];

/// How many gets there are in a hundred calls, in each mix of a run.
const MIXES: [u32; 3] = [95, 50, 0];

/// The files of draws.
const SKEWS: [&str; 2] = ["uniform", "zipf"];

/// What a map is measured with: keys of 16 bytes, the value of each, draws of each skew, its buckets and frames, the folder of its
/// devices, where they don't lie in the process, and the bytes that were resident before.
#[derive(Drop)]
struct Setting<'a> {
    keys: Vec<u8>,
    value: Text,
    draws: Vec<Vec<u8>>,
    buckets: u32,
    frames: u32,
    folder: Option<&'a str>,
    before: u64,
}

/// How long calls took, how many of them found their object in a frame, and how many objects they read from devices.
#[derive(Clone, Copy)]
struct Took {
    span: Span,
    near: u64,
    far_reads: u64,
}

/// What a worker saw: how many bytes more were resident when the map was open, and when it was filled; and what its calls took, of
/// each mix on each skew's draws.
#[derive(Drop)]
struct Seen {
    opened: u64,
    filled: u64,
    took: Vec<Took>,
}

/// The work of each of so many threads, who read the clock and what is resident by the program's own handle: one that is known
/// by its bounds alone may not be sent to them.
#[derive(Drop)]
struct Mixed<'a> {
    host: &'a HostRuntime,
    setting: &'a Setting<'a>,
    threads: u32,
    gate: Gate,
}

impl Mixed<'_> {
    /// Gives each key of this worker the value.
    fn fill<S: Calls<Text>, R: Wait>(
        &self,
        rt: &R,
        alloc: Global,
        worker: u32,
        me: &mut S,
    ) -> Result<()> {
        let keys = self.setting.keys.as_slice();
        for number in 0..key_count(keys) {
            if number as u64 % u64::from(self.threads.max(1)) == u64::from(worker) {
                me.put(rt, &key_at(alloc, keys, number)?, &self.setting.value)?;
            }
        }
        Ok(())
    }

    /// How many bytes are resident beyond those before the map was opened.
    fn grown(&self) -> Result<u64> {
        Ok(resident(self.host)?.saturating_sub(self.setting.before))
    }

    /// What the calls of this part of the draws take.
    fn run<S: Calls<Text>, R: Wait>(
        &self,
        rt: &R,
        alloc: Global,
        me: &mut S,
        draws: &[u8],
        part: u32,
        gets: u32,
    ) -> Result<Took> {
        let (keys, value) = (self.setting.keys.as_slice(), &self.setting.value);
        let before = me.traffic();
        let user = User::new(alloc, me, keys, value, draws, part, gets)?;
        self.gate.pass(rt);
        let span = alone(self.host, rt, &(), user, calls_each(draws)?)?;
        let after = me.traffic();
        // A get that brings its object into a frame reads it there too.
        let found = after.local_reads.wrapping_sub(before.local_reads);
        let brought = after.swap_ins.wrapping_sub(before.swap_ins);
        Ok(Took {
            span,
            near: found.saturating_sub(brought),
            far_reads: after.far_reads.wrapping_sub(before.far_reads),
        })
    }

    /// What all mixes on these draws take. No mix repeats what an earlier one called.
    fn on_draws<S: Calls<Text>, R: Wait>(
        &self,
        rt: &R,
        alloc: Global,
        worker: u32,
        me: &mut S,
        draws: &[u8],
        took: &mut Vec<Took>,
    ) -> Result<()> {
        // What is hot lies in frames then.
        self.run(rt, alloc, me, draws, worker, MIXES[0])?;
        let mut part = worker;
        for gets in MIXES {
            part = part.wrapping_add(self.threads);
            took.push(self.run(rt, alloc, me, draws, part, gets)?)?;
        }
        Ok(())
    }

    /// What this worker sees, who waits for the others before each part.
    fn see<S: Calls<Text>, R: Wait>(
        &self,
        rt: &R,
        alloc: Global,
        worker: u32,
        me: &mut S,
    ) -> Result<Seen> {
        if !self.gate.meet() {
            bail!("not all threads were started");
        }
        let opened = self.grown()?;
        self.fill(rt, alloc, worker, me)?;
        self.gate.pass(rt);
        let filled = self.grown()?;
        let mut took = Vec::new(alloc);
        for draws in &self.setting.draws {
            self.on_draws(rt, alloc, worker, me, draws.as_slice(), &mut took)?;
        }
        Ok(Seen {
            opened,
            filled,
            took,
        })
    }
}

impl Work<Text> for Mixed<'_> {
    type Out = Result<Seen>;

    fn work<S: Calls<Text>, R: Wait>(
        &self,
        rt: &R,
        alloc: Global,
        worker: u32,
        me: &mut S,
    ) -> Result<Seen> {
        let seen = self.see(rt, alloc, worker, me);
        if seen.is_err() {
            self.gate.open();
        }
        seen
    }
}

/// What each of so many workers saw on a map of its own over these devices.
fn work_over<D: Device + Send, R: Threads + Wait + Sync>(
    rt: &R,
    host: &HostRuntime,
    setting: &Setting<'_>,
    threads: u32,
    devices: Vec<D>,
) -> Result<Vec<Seen>> {
    let alloc = host.alloc();
    let settings = Settings::new(setting.buckets, setting.frames, LIMIT);
    let work = Mixed {
        host,
        setting,
        threads,
        gate: Gate::new(threads),
    };
    let mut all = Vec::new(alloc);
    match run_apart(rt, alloc, settings, devices, threads, &work) {
        Ok(outs) => {
            for out in outs {
                all.push(out?)?;
            }
        }
        Err(fault) => bail!("no map: {fault}"),
    }
    Ok(all)
}

/// The same over new devices.
fn work_on_map<R: Threads + Wait + Sync>(
    rt: &R,
    host: &HostRuntime,
    setting: &Setting<'_>,
    threads: u32,
) -> Result<Vec<Seen>> {
    let alloc = host.alloc();
    let Some(folder) = setting.folder else {
        let devices = vec_from_fn(alloc, LANES, |_| Ok(FakeDevice::new(alloc)))?;
        return work_over(rt, host, setting, threads, devices);
    };
    match open_lanes(*host, &[folder], LANES) {
        Ok(devices) => work_over(rt, host, setting, threads, devices),
        Err(fault) => bail!("{fault}"),
    }
}

/// What all workers' calls of this number took.
fn took_at(all: &[Seen], at: usize) -> Option<Took> {
    let (first, others) = all.split_first()?;
    let mut sum = *first.took.get(at)?;
    for other in others {
        let took = *other.took.get(at)?;
        sum.span = sum.span.and(took.span);
        sum.near = sum.near.wrapping_add(took.near);
        sum.far_reads = sum.far_reads.wrapping_add(took.far_reads);
    }
    Some(sum)
}

/// Prints a line for each mix on each skew's draws.
fn print_all<R: Print>(rt: &R, setting: &Setting<'_>, threads: u32, all: &[Seen]) -> Result<()> {
    let mut at = 0usize;
    for (skew, draws) in SKEWS.iter().zip(setting.draws.iter()) {
        let count = u64::from(calls_each(draws.as_slice())?).wrapping_mul(u64::from(threads));
        for gets in MIXES {
            let Some(
                Took {
                    span,
                    near,
                    far_reads,
                },
            ) = took_at(all, at)
            else {
                bail!("no times");
            };
            let (nanoseconds, lost) = (span.nanoseconds(), span.lost);
            println!(rt;
                "{skew} {gets} {threads} {count} {nanoseconds} {lost} {near} {far_reads}"
            )?;
            at = at.wrapping_add(1);
        }
    }
    Ok(())
}

/// Runs gets and puts on a map of so many buckets and frames, with values of so many bytes, over devices in scratch files of the
/// folder, or in the process where none is named. It reads the files of the folder in which the program was started: `keys`, 16
/// bytes each, and the draws `uniform` and `zipf`, of four bytes each: a key's number, and above 24 bits a number below 100, which
/// is compared with how many gets there are in a hundred calls. A line for each run tells the skew, the gets, the threads, the
/// calls, their nanoseconds, how many were not done, how many found their object in a frame, and how many objects they read from
/// devices; the first line tells how many
/// bytes more are resident than before, when the map of one thread is open, and when it is filled.
///
/// An error comes where memory, a file, a thread, the clock or the output fails, or a number is outside its limits.
pub fn measure<R>(
    rt: &R,
    host: &HostRuntime,
    value: u32,
    buckets: u32,
    frames: u32,
    folder: Option<&str>,
) -> Result<()>
where
    R: Alloc<A = Global> + Files + Print + Threads + Wait + Sync,
{
    let alloc = rt.alloc();
    let bytes = Vec::from_elem(alloc, 7u8, value as usize)?;
    let mut draws = Vec::new(alloc);
    for skew in SKEWS {
        draws.push(fs::read(rt, skew)?)?;
    }
    let setting = Setting {
        keys: fs::read(rt, "keys")?,
        value: Text::new(alloc, bytes.as_slice())?,
        draws,
        buckets,
        frames,
        folder,
        before: resident(rt)?,
    };
    for threads in THREADS {
        let all = work_on_map(rt, host, &setting, threads)?;
        if let ([alone], 1) = (all.as_slice(), threads) {
            let (opened, filled) = (alone.opened, alone.filled);
            println!(rt; "memory {opened} {filled}")?;
        }
        print_all(rt, &setting, threads, all.as_slice())?;
    }
    Ok(())
}
