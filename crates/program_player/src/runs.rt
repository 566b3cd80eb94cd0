//! Runs of files on a table that they share.

use crate::desk::Desk;
use crate::devices::{Looking, alone};
use crate::gates::NamedGate;
use crate::mistake::Mistake;
use crate::readers::Given;
use crate::reply::{reply_of, text};
use crate::settings::{config_of, devices_of, number};
use crate::writers::{Limits, Output};
use case_files::Line;
use command_file::{FileFault, read_file};
use far_device::{CannedDevice, Device, FakeDevice, FaultyDevice, LyingDevice, WatchedDevice};
use far_driver::{Gate, LineRefusal, OpenGate, RunFault, open_lanes, run_files};
use hash_table::Config;
use std::alloc::Global;
use std::sync::atomic::{AtomicU64, Ordering};
use std::sync::{Arc, Wait};
use std::thread::Threads;
use threaded_run::ThreadedFault;

/// How often a run that met `full` is made again. That reply may come, and then others differ: where the system takes the
/// processor from a worker that has the only frame which is not held, another may try a thousand times meanwhile.
const MOST_RUNS: u32 = 100;

/// Numbers that devices share with gates and with the case.
#[derive(Drop)]
struct Counts {
    writes: Arc<AtomicU64>,
    failures: Arc<AtomicU64>,
    met: Arc<AtomicU64>,
}

impl Counts {
    fn new(alloc: Global) -> Result<Counts, Mistake> {
        Ok(Counts {
            writes: Arc::new(alloc, AtomicU64::new(0))?,
            failures: Arc::new(alloc, AtomicU64::new(0))?,
            met: Arc::new(alloc, AtomicU64::new(0))?,
        })
    }
}

/// Runs the files over these devices.
pub fn run_over<D, G, R>(
    rt: &R,
    config: Config,
    devices: Vec<D>,
    files: &[Given<'_>],
    gate: &G,
    out: &mut Output,
) -> Result<Result<(), RunFault>, Mistake>
where
    D: Device + Send,
    G: Gate,
    R: Threads + Wait + AllocGlobal + Sync,
{
    let mut readers = Vec::new(rt.alloc());
    for file in files {
        readers.push(file.reader())?;
    }
    if readers.is_empty() || readers.len() > 64 {
        return Err(Mistake::Call("a run has 1 to 64 files"));
    }
    let ended = run_files(rt, config, devices, readers, gate, out);
    let is_refused = ended == Err(RunFault::Memory)
        || ended == Err(RunFault::Contents(LineRefusal::Memory));
    if is_refused || out.tells_memory() {
        return Err(Mistake::Memory);
    }
    Ok(ended)
}

/// How the run ended, as a text.
pub fn status_of(alloc: Global, ended: Result<(), RunFault>) -> Result<String, Mistake> {
    match ended {
        Ok(()) => text(alloc, "ok"),
        Err(fault) => Ok(format!(in alloc; "{fault}")?),
    }
}

/// Runs the files over one device that counts the writes of these bytes.
fn run_looking<R>(
    rt: &R,
    config: Config,
    wanted: &[u8],
    met: &Arc<AtomicU64>,
    files: &[Given<'_>],
    out: &mut Output,
) -> Result<Result<(), RunFault>, Mistake>
where
    R: Threads + Wait + AllocGlobal + Sync,
{
    let alloc = rt.alloc();
    let device = Looking {
        inner: FakeDevice::new(alloc),
        wanted: Vec::from_slice(alloc, wanted)?,
        met: met.clone()?,
    };
    run_over(rt, config, alone(alloc, device)?, files, &OpenGate, out)
}

/// As many devices as lanes, which tell of their writes.
fn watched(
    alloc: Global,
    count: u32,
    counts: &Counts,
) -> Result<Vec<WatchedDevice<FakeDevice>>, Mistake> {
    let mut devices = Vec::new(alloc);
    for _ in 0..count {
        let (writes, failures) = (counts.writes.clone()?, counts.failures.clone()?);
        devices.push(WatchedDevice::new(FakeDevice::new(alloc), writes, failures))?;
    }
    Ok(devices)
}

/// Runs the files over the devices that the line names.
fn run_named<R>(
    rt: &R,
    line: &Line,
    config: Config,
    files: &[Given<'_>],
    out: &mut Output,
    counts: &Counts,
) -> Result<Result<(), RunFault>, Mistake>
where
    R: Threads + Wait + AllocGlobal + Sync,
{
    let alloc = rt.alloc();
    let gate = NamedGate::of(line, counts.writes.clone()?)?;
    let fake = FakeDevice::new(alloc);
    if line.named("fails").is_some() {
        let device = FaultyDevice::new(fake, number(line, "fails", 0)?);
        return run_over(rt, config, alone(alloc, device)?, files, &gate, out);
    }
    if let Some(bytes) = line.named("gives") {
        let device = CannedDevice::new(fake, Vec::from_slice(alloc, bytes)?);
        return run_over(rt, config, alone(alloc, device)?, files, &gate, out);
    }
    if let Some(wanted) = line.named("counts") {
        return run_looking(rt, config, wanted, &counts.met, files, out);
    }
    if line.named("device") == Some(b"lying".as_slice()) {
        let devices = alone(alloc, LyingDevice::new(fake))?;
        return run_over(rt, config, devices, files, &gate, out);
    }
    let count = devices_of(line, &config)?;
    if line.named("gate") == Some(b"written".as_slice()) {
        let devices = watched(alloc, count, counts)?;
        return run_over(rt, config, devices, files, &gate, out);
    }
    run_over(rt, config, open_lanes(alloc, count)?, files, &gate, out)
}

/// The reply of a run of the files over lanes in the process.
pub fn reply_of_run<R>(
    rt: &R,
    config: Config,
    files: &[Given<'_>],
    limits: Limits,
) -> Result<String, Mistake>
where
    R: Threads + Wait + AllocGlobal + Sync,
{
    let alloc = rt.alloc();
    let mut out = Output::new(alloc, limits);
    let devices = open_lanes(alloc, config.lanes.min(65))?;
    let ended = run_over(rt, config, devices, files, &OpenGate, &mut out)?;
    let status = status_of(alloc, ended)?;
    reply_of(alloc, status.as_str(), out.kept.as_slice())
}

/// What a run replied.
#[derive(Drop)]
struct Once {
    reply: String,
    /// Whether a command was replied `full`.
    is_full: bool,
    met: u64,
}

impl Desk {
    fn run_once<R>(&self, rt: &R, line: &Line) -> Result<Once, Mistake>
    where
        R: Threads + Wait + AllocGlobal + Sync,
    {
        let alloc = self.alloc;
        let counts = Counts::new(alloc)?;
        let mut out = Output::new(alloc, self.limits);
        let files = self.given(line)?;
        let config = config_of(line)?;
        let ended = run_named(rt, line, config, files.as_slice(), &mut out, &counts)?;
        let status = status_of(alloc, ended)?;
        let reply = reply_of(alloc, status.as_str(), out.kept.as_slice())?;
        Ok(Once {
            reply,
            is_full: out.has_line(b"full"),
            met: counts.met.load(Ordering::SeqCst),
        })
    }

    /// `run ..`
    pub fn run<R>(&mut self, rt: &R, line: &Line) -> Result<String, Mistake>
    where
        R: Threads + Wait + AllocGlobal + Sync,
    {
        let is_retried = line.named("retried") == Some(b"full".as_slice());
        let mut once = self.run_once(rt, line)?;
        for _ in 1..MOST_RUNS {
            if !is_retried || !once.is_full {
                break;
            }
            once = self.run_once(rt, line)?;
        }
        self.met = once.met;
        Ok(once.reply)
    }

    /// `met`: how many writes had the bytes that the last run counted.
    pub fn met(&self) -> Result<String, Mistake> {
        Ok(format!(in self.alloc; "{}", self.met)?)
    }

    /// `run_scripts fails=N`: the run of files that were read before.
    pub fn run_scripts<R>(&self, rt: &R, line: &Line) -> Result<String, Mistake>
    where
        R: Threads + Wait + AllocGlobal + Sync,
    {
        let alloc = self.alloc;
        let mut scripts = Vec::new(alloc);
        for given in self.given(line)? {
            match read_file(alloc, &mut given.reader()) {
                Ok(script) => scripts.push(script)?,
                Err(FileFault::Memory) => return Err(Mistake::Memory),
                Err(fault) => return Ok(format!(in alloc; "{fault}")?),
            }
        }
        let config = config_of(line)?;
        let device = FaultyDevice::new(FakeDevice::new(alloc), number(line, "fails", 0)?);
        let devices = alone(alloc, device)?;
        if config.first_bad_with(devices.len()).is_some() {
            return Err(Mistake::Call("a setting is outside its limits"));
        }
        if scripts.is_empty() || scripts.len() > 64 {
            return Err(Mistake::Call("a run has 1 to 64 files"));
        }
        let mut out = Output::new(alloc, self.limits);
        let ended = threaded_run::run_files(
            rt, alloc, config, devices, scripts, &OpenGate, &mut out,
        );
        let status = match ended {
            Ok(()) => text(alloc, "ok")?,
            Err(ThreadedFault::Memory) => return Err(Mistake::Memory),
            Err(fault) => format!(in alloc; "{fault}")?,
        };
        reply_of(alloc, status.as_str(), out.kept.as_slice())
    }
}
