//! `fartable BUCKETS FRAMES LIMIT FILE...`: runs command files on a table that threads share, and prints the replies and the
//! contents.
#![tactic(auto)]

use far_driver::{ProgramFault, RunFault, read_words, run_program};
use std::env::Env;
use std::io::{Stderr, Stdout};
use std::process::ExitCode;
use std::rt::Files;
use std::sync::Wait;
use std::thread::Threads;
use streams::StreamWriter;

/// Bytes of output that are written at once.
const OUT_BYTES: usize = 8_192;

fn run<R>(rt: &R, out: Stdout, err: &mut Stderr) -> Result<u8, ProgramFault>
where
    R: Files + Input + Env + AllocGlobal + Threads + Wait + Sync,
{
    let words = read_words(rt)?;
    match StreamWriter::buffered(rt.alloc(), OUT_BYTES, out, 0) {
        Ok(mut out) => Ok(run_program(rt, words.as_slice(), &mut out, err)),
        Err(_) => Err(ProgramFault::Run(RunFault::Memory)),
    }
}

fn main(rt: HostRuntime) -> ExitCode {
    let status = match run(&rt, rt.stdout(), &mut rt.stderr()) {
        Ok(status) => status,
        Err(fault) => {
            let _ = eprintln!(rt; "{fault}");
            fault.status()
        }
    };
    ExitCode::from(status)
}
