//! The program `farcalls`: a map whose calls come as requests over pipes. So a program in another language can
//! make them.
//!
//! `farcalls --memory SIZE [--pairs N] [--sessions N] [--far DIR].. --pipes DIR` opens the map, and a pair of
//! pipes for each session. Then it answers requests until the pipes of all sessions have ended.
//!
//! `library/` has the other half. It hands requests over in memory, and pipes are only how this program sees
//! them.
#![tactic(auto)]

ghost use Rattle.std.specs.Prelude.{◌≡◌, ◌-◌, true, All, OnOk, vec_len};
ghost use Rattle.farcalls.specs.Runs.{is_served, IsServed, HasServed};

mod answer;
mod command_line;
mod context;
mod devices;
mod fault;
mod memory_plan;
mod name;
mod numbers;
mod one_key;
mod pair_count;
mod pairs;
mod pipes;
mod reason;
mod refusal;
mod renewal;
mod replies;
mod request;
mod room;
mod service;
mod session_end;
mod session_run;
mod several_keys;
mod states;
mod sums;
mod worker;

use anyhow::{Result, bail};
use command_line::{CommandLine, command};
use devices::{open_far, open_none};
use far_device::Device;
use far_map::Settings;
use fault::FarcallsFault;
use memory_plan::{divide, least_memory};
use pipes::{Input, NamedPipes, Output};
use reason::LastReason;
use session_end::SessionEnd;
use session_run::{SessionSettings, run_sessions};
use std::env;
use std::env::Env;
use std::fs::File;
use std::io::ErrorKind;
use std::process::ExitCode;
use std::rt::Files;
use std::sync::Wait;
use std::thread::Threads;

/// How a session has ended.
type End = SessionEnd<Input, Output>;

/// The settings of the map. `FarcallsFault::Little` is returned if too little memory is asked for.
fn map_of<'a>(asked: &CommandLine<'a>) -> Result<Settings, FarcallsFault<'a>> {
    let (memory, least) = (asked.memory, least_memory(asked.sessions));
    if memory < least {
        return Err(FarcallsFault::Little(memory, least));
    }
    Ok(divide(memory, asked.pairs, asked.sessions))
}

/// `FarcallsFault::Session` with the fault that ended the session, if one did.
fn check_end<'a>(end: &End) -> Result<(), FarcallsFault<'a>>
    ensures { OnOk result (is_served end.now ≡ true) }
{
    match end {
        SessionEnd::Served(_, _) => Ok(()),
        SessionEnd::Failed(fault) => Err(FarcallsFault::Session(*fault)),
    }
}

/// The same for all sessions. The fault is that of the first that has one.
fn check_ends<'a>(ends: &[End]) -> Result<(), FarcallsFault<'a>>
    ensures served { OnOk result (All (λ end. is_served end ≡ true) ends.now) }
{
    for end in ends {
        check_end(end)?;
    }
    Ok(())
}

/// Answers requests over these devices until all pipes have ended. The last device is for renewals.
fn serve_over<'a, D, R>(
    rt: &R,
    host: HostRuntime,
    asked: &CommandLine<'a>,
    settings: SessionSettings,
    mut devices: Vec<D>,
    reason: &LastReason,
) -> Result<(), FarcallsFault<'a>>
where
    D: Device + Send,
    R: AllocGlobal + Threads + Wait + Sync,
    // What was served is by these settings, over all devices but the last.
    ensures served { OnOk result (IsServed settings (vec_len devices - 1) D.HONEST) }
{
    let Some(spool) = devices.pop() else {
        return Err(FarcallsFault::Memory);
    };
    let pipes = NamedPipes {
        rt: host,
        folder: asked.pipes,
    };
    let ends = match run_sessions(rt, rt.alloc(), settings, devices, spool, reason, &pipes) {
        Ok(ends) => ends,
        Err(fault) => return Err(FarcallsFault::Run(fault)),
    };
    check_ends(ends.as_slice())
}

/// Does what the options ask for, until all pipes have ended.
fn serve<'a, R>(rt: &R, host: HostRuntime, asked: &CommandLine<'a>) -> Result<(), FarcallsFault<'a>>
where
    R: Files<File = File> + AllocGlobal + Threads + Wait + Sync,
    // The answers are those of one history for each map, unless a digest collided.
    ensures served { OnOk result (HasServed asked.now) }
{
    let settings = asked.settings(map_of(asked)?)?;
    let reason = LastReason::new();
    if asked.is_far() {
        let devices = open_far(host, asked.folders.as_slice(), &reason)?;
        serve_over(rt, host, asked, settings, devices, &reason)
    } else {
        let devices = open_none(&host, &reason)?;
        serve_over(rt, host, asked, settings, devices, &reason)
    }
}

/// Does what these arguments ask for, and returns the exit status: 0, 1 if the system refused something or a
/// part failed, 2 for wrong arguments.
fn run_words<R>(rt: &R, host: HostRuntime, words: &[String]) -> Result<u8>
where
    R: Files<File = File> + AllocGlobal + Print + Eprint + Threads + Wait + Sync,
{
    let command = command(rt.alloc())?;
    let matches = match command.try_get_matches_from(words) {
        Ok(matches) => matches,
        Err(error) => {
            error.print(rt)?;
            return Ok(if error.exit_code() == 0 { 0 } else { 2 });
        }
    };
    let served = match CommandLine::of(rt.alloc(), &matches) {
        Ok(asked) => serve(rt, host, &asked),
        Err(fault) => Err(fault),
    };
    match served {
        Ok(()) => Ok(0),
        Err(fault) => {
            eprintln!(rt; "{fault}")?;
            Ok(fault.status())
        }
    }
}

/// Does what the program's arguments ask for. Arguments that are not UTF-8 are wrong ones.
fn run<R>(rt: &R, host: HostRuntime) -> Result<u8>
where
    R: Env + Files<File = File> + AllocGlobal + Print + Eprint + Threads + Wait + Sync,
{
    let words = match env::args(rt) {
        Ok(words) => words,
        Err(fault) if fault.kind() == ErrorKind::InvalidData => {
            eprintln!(rt; "an argument is no UTF-8 text")?;
            return Ok(2);
        }
        Err(fault) => bail!("{fault}"),
    };
    let words: Vec<String> = words.skip(1).collect(rt.alloc())?;
    run_words(rt, host, words.as_slice())
}

fn main(rt: HostRuntime) -> ExitCode {
    let status = match run(&rt, rt) {
        Ok(status) => status,
        Err(fault) => {
            let _ = eprintln!(rt; "{fault}");
            1
        }
    };
    ExitCode::from(status)
}
