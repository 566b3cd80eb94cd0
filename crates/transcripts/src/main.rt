//! `transcripts [--refused] FILE...`: plays case files, and prints each case that went otherwise.
#![tactic(auto)]

mod files;

use anyhow::Result;
use std::env;
use std::fs::File;
use std::process::ExitCode;
use std::random::RandomSource;
use std::rt::{Clock, Env, Files};
use std::sync::Wait;
use std::thread::Threads;

const USAGE: &str = "usage: transcripts [--refused] FILE...";

/// Plays the files that the program's words name, and gives its status.
fn run<R>(rt: &R, host: HostRuntime) -> Result<u8>
where
    R: AllocGlobal
        + Clock
        + Env
        + Eprint
        + Files<File = File>
        + Print
        + RandomSource
        + Threads
        + Wait
        + Copy
        + Drop
        + Send
        + Sync,
{
    let mut words = env::args(rt)?.skip(1).peekable();
    let is_refused = words.next_if(|word| word.as_str() == "--refused").is_some();
    let mut played = files::Played::new(host, is_refused);
    for word in words {
        if word.as_str().starts_with("-") {
            eprintln!(rt; "{USAGE}")?;
            return Ok(2);
        }
        played.play(rt, word.as_str())?;
    }
    played.end(rt)
}

fn main(rt: HostRuntime) -> ExitCode {
    let status = match run(&rt, rt) {
        Ok(status) => status,
        Err(error) => {
            let _ = eprintln!(rt; "{error}");
            3
        }
    };
    ExitCode::from(status)
}
