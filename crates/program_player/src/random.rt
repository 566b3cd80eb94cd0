//! Random files of one thread: on the table that files share they are replied, and leave behind, what the plain run says.
ghost use Rattle.std.specs.Prelude.{◌<◌};

use crate::desk::Desk;
use crate::mistake::Mistake;
use crate::plain::{PlainTable, reply_at};
use crate::readers::Given;
use crate::reply::text;
use crate::runs::reply_of_run;
use crate::settings::config_of;
use crate::writers::Limits;
use case_files::Line;
use hash_table::Config;
use std::alloc::Global;
use std::io::Write;
use std::sync::Wait;
use std::thread::Threads;

/// The next of a row of numbers that look random, below the bound.
fn next(seed: &mut u32, below: u32) -> u32
    requires { 0 < below }
    ensures { result < below }
{
    *seed = seed.wrapping_mul(1_664_525).wrapping_add(1_013_904_223);
    (*seed >> 16) % below
}

/// One command on one of seven keys, which lie in four buckets.
fn write_command(file: &mut Vec<u8>, seed: &mut u32) -> Result<(), Mistake> {
    let key = ["a", "b", "c", "d", "e", "i", "long-key"][next(seed, 7) as usize];
    let value = next(seed, 4);
    match next(seed, 6) {
        0 => writeln!(file, "get {key}")?,
        1 => writeln!(file, "del {key}")?,
        2 => writeln!(file, "putnew {key} {value}")?,
        3 => writeln!(file, "putif {key} {} {value}", next(seed, 4))?,
        _ => writeln!(file, "put {key} {value}")?,
    }
    Ok(())
}

/// A file that begins with this seed.
fn random_file(alloc: Global, seed: u32, commands: u32) -> Result<Vec<u8>, Mistake> {
    let mut file = Vec::new(alloc);
    let mut seed = seed;
    for _ in 0..commands {
        write_command(&mut file, &mut seed)?;
    }
    Ok(file)
}

impl Desk {
    /// `random_files COUNT COMMANDS`: `alike`, or which file is run otherwise.
    pub fn random_files<R>(&self, rt: &R, line: &Line) -> Result<String, Mistake>
    where
        R: Threads + Wait + AllocGlobal + Sync,
    {
        let alloc = self.alloc;
        let (Some(files), Some(commands)) = (line.number_at(1), line.number_at(2)) else {
            return Err(Mistake::Call("behind the call stand two numbers"));
        };
        if files > 10_000 || commands > 10_000 {
            return Err(Mistake::Call("at most 10,000 files are made, of as many commands"));
        }
        let mut seed = 7;
        for number in 0..files.min(10_000) as u32 {
            let file = random_file(alloc, number, commands.min(10_000) as u32)?;
            let given = Given::of(file.as_slice());
            let limit = 10 + next(&mut seed, 30);
            let config = Config {
                format: 1 + next(&mut seed, 2),
                frames: 1 + next(&mut seed, 4),
                limit,
                ..config_of(line)?
            };
            let table = PlainTable { buckets: 4, limit };
            let plain = reply_at(alloc, table, given, Limits::none())?;
            let shared = reply_of_run(rt, config, &[given], Limits::none())?;
            if plain.as_str() != shared.as_str() {
                return Ok(format!(in alloc; "file {number}: {plain}\nshared: {shared}")?);
            }
        }
        text(alloc, "alike")
    }
}
