//! Plays a case: one server behind the other, each on a thread beside that of its clients.

use crate::calls::Player;
use crate::clock::SetClock;
use crate::device::SwitchedDevice;
use crate::draws::Draws;
use crate::opening::Opening;
use crate::pipes::MemoryPipes;
use crate::stage::Stage;
use anyhow::{Result, bail};
use case_files::{Line, Playing};
use far_device::FakeDevice;
use far_server::{Pipes, ServeFault, WorkerEnd, run_server};
use std::alloc::Global;
use std::rt::Clock;
use std::sync::Wait;
use std::thread::{Threads, join};

/// What a case begins with.
pub const OPENINGS: &[&str] = &["server"];

/// How the workers ended, each behind a semicolon.
fn push_end<I: Drop, O: Drop>(alloc: Global, out: &mut String, end: WorkerEnd<I, O>) -> Result<()> {
    let fault: Option<ServeFault> = match end {
        WorkerEnd::Served(Ok(_)) => None,
        WorkerEnd::Served(Err(fault)) => Some(fault),
        WorkerEnd::Sweep => return Ok(()),
    };
    if !out.is_empty() {
        out.push_str("; ")?;
    }
    match fault {
        None => out.push_str("served")?,
        Some(fault) => out.push_str(format!(in alloc; "{fault}")?.as_str())?,
    }
    Ok(())
}

/// Serves until all clients have left, and says how each worker ended.
fn serve<R>(rt: &R, alloc: Global, opening: &Opening, stage: &Stage) -> Result<String>
where
    R: Clock + Threads + Wait + Sync,
{
    let pipes = MemoryPipes {
        rt,
        wires: &stage.wires,
        count: opening.pipes,
    };
    let clock = SetClock {
        rt,
        now: &stage.clock,
    };
    let device = SwitchedDevice::new(FakeDevice::new(alloc), &stage.device);
    let spool = SwitchedDevice::new(FakeDevice::new(alloc), &stage.spool);
    let devices = Vec::from_array(alloc, [device])?;
    let settings = opening.settings;
    let ended = run_server(
        rt,
        alloc,
        settings,
        devices,
        spool,
        &stage.usage,
        &pipes,
        &clock,
    );
    let ends = match ended {
        Ok(ends) => ends,
        Err(fault) => return Ok(format!(in alloc; "{fault}")?),
    };
    let mut told = String::new(alloc);
    for end in ends {
        push_end(alloc, &mut told, end)?;
    }
    Ok(told)
}

/// The same, told to who waits for it.
fn serve_and_tell<R>(rt: &R, alloc: Global, opening: &Opening, stage: &Stage)
where
    R: Clock + Threads + Wait + Sync,
{
    let ends = match serve(rt, alloc, opening, stage) {
        Ok(ends) => ends,
        Err(_) => String::new(alloc),
    };
    stage.wires.end(rt, ends);
}

/// Plays the lines of the clients.
fn play_clients<R: Clock + Wait>(
    rt: &R,
    alloc: Global,
    opening: &Opening,
    stage: &Stage,
    draws: &mut Draws,
    playing: &mut Playing<'_>,
) -> Result<()> {
    let mut player = Player::new(rt, alloc, opening, stage)?;
    player.play(draws, playing)
}

/// The same; then nothing comes any more, whatever has failed.
fn play_and_close<R: Clock + Wait>(
    rt: &R,
    alloc: Global,
    opening: &Opening,
    stage: &Stage,
    draws: &mut Draws,
    playing: &mut Playing<'_>,
) -> Result<()> {
    let played = play_clients(rt, alloc, opening, stage, draws, playing);
    for worker in 0..opening.settings.workers {
        stage.wires.close(rt, worker as usize);
    }
    played
}

/// Plays the case from the line that opens a server to its end, or to the line that opens another one.
fn play_server<R>(
    rt: &R,
    alloc: Global,
    line: &Line,
    draws: &mut Draws,
    playing: &mut Playing<'_>,
) -> Result<()>
where
    R: Clock + Threads + Wait + Sync,
{
    if line.call() != "server" {
        bail!("a server is opened first");
    }
    let opening = Opening::of(line)?;
    let stage = Stage::new(alloc, &opening)?;
    let _ = playing.tell(line, Ok(String::new(alloc)));
    let (_, played) = join(
        rt,
        || serve_and_tell(rt, alloc, &opening, &stage),
        || play_and_close(rt, alloc, &opening, &stage, draws, playing),
    );
    played
}

/// Plays a case. Each reply is told to `playing`.
pub fn play<R>(rt: &R, alloc: Global, playing: &mut Playing<'_>)
where
    R: Clock + Threads + Wait + Sync,
{
    let mut draws = Draws::new(alloc);
    for _ in 0..playing.case().lines.len() {
        let Some(line) = playing.next() else {
            return;
        };
        if let Err(mistake) = play_server(rt, alloc, line, &mut draws, playing) {
            let _ = playing.tell(line, Err(mistake));
        }
    }
}
