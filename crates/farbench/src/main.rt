//! Benchmarks, one subcommand for each layer. Without arguments it prints its usage alone.
#![tactic(auto)]

mod eviction;
mod frames;
mod lanes;
mod many;
mod mix;
mod plain;
mod stopwatch;
mod table;
mod words;

use anyhow::{Result, bail};
use std::alloc::Global;
use std::env;
use std::rt::{Clock, Env, Files};
use std::sync::Wait;
use std::thread::Threads;

const USAGE: &str = "usage: farbench words ROUNDS
       farbench frames FRAMES ROUNDS
       farbench lanes ROUNDS
       farbench table BUCKETS ROUNDS
       farbench evicting FRAMES
       farbench many KEYS ROUNDS
       farbench plain BUCKETS <FILE
       farbench mixed VALUE BUCKETS FRAMES [DIR]";

/// The number that a word is, where there is one.
fn number(word: Option<String>) -> Result<Option<u32>> {
    match word {
        Some(word) => Ok(Some(word.as_str().parse::<u32>()?)),
        None => Ok(None),
    }
}

/// Runs the benchmark that the program's words ask for. A map's workers read the clock by the program's own handle.
fn run<R>(rt: &R, host: &HostRuntime) -> Result<()>
where
    R: Alloc<A = Global> + Clock + Env + Files + Input + Print + Threads + Wait + Sync,
{
    let mut words = env::args(rt)?.skip(1);
    let (Some(layer), Some(count)) = (words.next(), words.next()) else {
        println!(rt; "{USAGE}")?;
        return Ok(());
    };
    let count = count.as_str().parse::<u32>()?;
    let second = number(words.next())?;
    let third = number(words.next())?;
    let folder = words.next();
    match (layer.as_str(), second, third) {
        ("words", None, None) => words::measure(rt, count),
        ("frames", Some(rounds), None) => frames::measure(rt, count, rounds),
        ("lanes", None, None) => lanes::measure(rt, count),
        ("table", Some(rounds), None) => table::measure(rt, count, rounds),
        ("evicting", None, None) => eviction::measure(rt, count),
        ("many", Some(rounds), None) => many::measure(rt, host, count, rounds),
        ("plain", None, None) => plain::run(rt, count),
        ("mixed", Some(buckets), Some(frames)) => {
            let folder = folder.as_ref().map(|name| name.as_str());
            mix::measure(rt, host, count, buckets, frames, folder)
        }
        _ => bail!("no such benchmark: without arguments their usage is printed"),
    }
}

fn main(rt: HostRuntime) -> Result<()> {
    run(&rt, &rt)
}
