//! Plays the cases of tests/cases/programs: command files, their runs on the table of one thread and on the one that files share,
//! and the program `fartable` with its words. tests/cases/programs/README.md lists the calls.
#![tactic(auto)]

mod alike;
mod commands;
mod content;
mod desk;
mod devices;
mod failures;
mod faults;
mod files;
mod gates;
mod listing;
mod lists;
mod mistake;
mod output;
mod plain;
mod program;
mod random;
mod readers;
mod reply;
mod rooms;
mod runs;
mod runtime;
mod settings;
mod writers;

use anyhow::{Result, bail};
use case_files::Playing;
use desk::Desk;
use mistake::Mistake;
use std::alloc::Global;
use std::sync::Wait;
use std::thread::Threads;

/// The calls that a case of this layer may begin with.
pub const OPENINGS: &[&str] = &[
    "commands",
    "each_device_call_fails",
    "every_run",
    "falling_commands",
    "fault_text",
    "file",
    "files",
    "lists_in_each_room",
    "numbered_file",
    "output",
    "pair",
    "plain",
    "plain_in_each_room",
    "program",
    "push_line",
    "random_files",
    "read_files",
    "read_words",
    "reply_text",
    "run",
    "run_scripts",
    "write_lists",
];

/// What a call replied, as `Playing::tell` takes it.
fn told(alloc: Global, reply: Result<String, Mistake>) -> Result<String> {
    match reply {
        Ok(text) => Ok(text),
        Err(Mistake::Memory) => Ok(String::from_str(alloc, "memory")?),
        Err(Mistake::Call(why)) => bail!("{why}"),
    }
}

/// Plays the case from its first line to its end.
pub fn play<R>(rt: &R, alloc: Global, playing: &mut Playing<'_>)
where
    R: AllocGlobal + Threads + Wait + Sync,
{
    let mut desk = Desk::new(alloc);
    let count = playing.case().lines.len();
    for _ in 0..count {
        let Some(line) = playing.next() else {
            return;
        };
        for _ in 0..2 {
            let reply = desk.play(rt, line);
            if !playing.tell(line, told(alloc, reply)) {
                break;
            }
        }
    }
}
