//! `farrun [--far DIR | --far-resp-in PIPE --far-resp-out PIPE]... [--lanes N] BUCKETS FRAMES LIMIT FILE...`: runs command files on a
//! table that threads share, over devices of one's choice, and prints the replies and the contents.
#![tactic(auto)]

mod advice;
mod command_line;
mod far_run;
mod fault;
mod stores;

use advice::tell_fault;
use clap::error::ErrorKind;
use clap::{ArgMatches, Error};
use command_line::{CommandLine, command};
use far_driver::{ProgramFault, read_words};
use far_run::run_asked;
use fault::{FarrunFault, MEMORY, WRITE};
use std::env::Env;
use std::io;
use std::process::ExitCode;
use std::rt::Files;
use std::sync::Wait;
use std::thread::Threads;
use streams::StreamWriter;

/// Bytes of output that are written at once.
const OUT_BYTES: usize = 8_192;

/// Runs what these say, and gives the status. Why a run ended early is printed.
fn run_matches<R>(rt: &R, host: HostRuntime, matches: &ArgMatches<'_>) -> Result<u8, FarrunFault>
where
    R: Files + Input + AllocGlobal + Print + Eprint + Threads + Wait + Sync,
{
    let Ok(asked) = CommandLine::of(rt.alloc(), matches) else {
        return Err(MEMORY);
    };
    let Ok(mut out) = StreamWriter::buffered(rt.alloc(), OUT_BYTES, io::writer(rt), 0) else {
        return Err(MEMORY);
    };
    match run_asked(rt, host, &asked, &mut out) {
        Ok(()) => Ok(0),
        Err(fault) => Ok(tell_fault(rt, host, &asked, fault)),
    }
}

/// Prints why these are no words of the program, or its help, and gives the status.
fn tell<R: Print + Eprint>(rt: &R, error: &Error) -> Result<u8, FarrunFault> {
    if error.kind() == ErrorKind::OutOfMemory {
        return Err(MEMORY);
    }
    match error.print(rt) {
        Ok(()) if error.exit_code() == 0 => Ok(0),
        Err(_) if error.exit_code() == 0 => Err(WRITE),
        _ => Ok(2),
    }
}

/// Runs what the program's words say, and gives the status.
fn run<R>(rt: &R, host: HostRuntime) -> Result<u8, FarrunFault>
where
    R: Env + Files + Input + AllocGlobal + Print + Eprint + Threads + Wait + Sync,
{
    let words = match read_words(rt) {
        Ok(words) => words,
        Err(ProgramFault::Usage) => return Err(FarrunFault::Usage),
        Err(fault) => return Err(FarrunFault::Program(fault)),
    };
    let Ok(command) = command(rt.alloc()) else {
        return Err(MEMORY);
    };
    match command.try_get_matches_from(words.as_slice()) {
        Ok(matches) => run_matches(rt, host, &matches),
        Err(error) => tell(rt, &error),
    }
}

fn main(rt: HostRuntime) -> ExitCode {
    let status = match run(&rt, rt) {
        Ok(status) => status,
        Err(fault) => {
            let _ = eprintln!(rt; "{fault}");
            fault.status()
        }
    };
    ExitCode::from(status)
}
