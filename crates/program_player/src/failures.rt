//! Runs in which each call of the device, or of the writer, fails in turn.

use crate::desk::Desk;
use crate::devices::alone;
use crate::gates::Failures;
use crate::mistake::Mistake;
use crate::plain::{PlainTable, plainly};
use crate::readers::Given;
use crate::reply::text;
use crate::runs::run_over;
use crate::settings::config_of;
use crate::writers::{Limits, Output};
use case_files::Line;
use far_device::{FakeDevice, FaultyDevice, WatchedDevice};
use far_driver::{LineRefusal, OpenGate, RunFault, open_lanes};
use hash_table::Config;
use std::alloc::Global;
use std::sync::atomic::{AtomicU64, Ordering};
use std::sync::{Arc, Wait};
use std::thread::Threads;

/// More calls than a run makes.
const MOST_CALLS: u64 = 100;

/// What a run over a device that fails once came to.
#[derive(Drop)]
struct Failed {
    out: Vec<u8>,
    ended: Result<(), RunFault>,
    /// The bit of each command in which the device failed.
    rose: u64,
    has_failed: bool,
}

/// Whether the command asks the map.
fn asks_map(command: &[u8]) -> bool {
    command.starts_with(b"put") || command.starts_with(b"get") || command.starts_with(b"del")
}

/// Runs the file over a device whose call of this number fails.
fn run_failing<R>(rt: &R, config: Config, file: Given<'_>, fails: u64) -> Result<Failed, Mistake>
where
    R: Threads + Wait + AllocGlobal + Sync,
{
    let alloc = rt.alloc();
    let gate = Failures::new(alloc)?;
    let device = WatchedDevice::new(
        FaultyDevice::new(FakeDevice::new(alloc), fails),
        Arc::new(alloc, AtomicU64::new(0))?,
        gate.count.clone()?,
    );
    let mut out = Output::new(alloc, Limits::none());
    let ended = run_over(rt, config, alone(alloc, device)?, &[file], &gate, &mut out)?;
    Ok(Failed {
        out: out.kept,
        ended,
        rose: gate.rose.load(Ordering::SeqCst),
        has_failed: gate.count.load(Ordering::SeqCst) != 0,
    })
}

/// The commands that were replied by something else than `device`, and their replies with what was written behind them. None
/// where `device` is replied where no device failed.
fn answered(
    alloc: Global,
    file: &[u8],
    failed: &Failed,
) -> Result<Option<(Vec<u8>, Vec<u8>)>, Mistake> {
    let mut kept = Vec::new(alloc);
    let mut replies = Vec::from_slice(alloc, b"file 1\n")?;
    let out = failed.out.as_slice();
    let mut lines = out
        .strip_suffix(b"\n")
        .unwrap_or(out)
        .split(|byte| *byte == b'\n');
    if lines.next() != Some(b"file 1".as_slice()) {
        return Ok(None);
    }
    let mut bit = 1u64;
    for command in file
        .strip_suffix(b"\n")
        .unwrap_or(file)
        .split(|byte| *byte == b'\n')
    {
        let reply = lines.next().unwrap_or(b"");
        bit = bit.wrapping_shl(1);
        if reply == b"device".as_slice() {
            if failed.rose & bit == 0 {
                return Ok(None);
            }
        } else if asks_map(command) {
            kept.extend_from_slice(command)?;
            kept.push(b'\n')?;
            replies.extend_from_slice(reply)?;
            replies.push(b'\n')?;
        }
    }
    for line in lines {
        replies.extend_from_slice(line)?;
        replies.push(b'\n')?;
    }
    Ok(Some((kept, replies)))
}

/// What is wrong with the run, if something is: `device` is replied where the device failed alone, and the plain run replies the
/// other commands and leaves the contents so.
fn wrong(
    alloc: Global,
    config: &Config,
    file: &[u8],
    failed: &Failed,
) -> Result<Option<&'static str>, Mistake> {
    let is_whole = failed.ended == Ok(());
    if !is_whole && failed.ended != Err(RunFault::Contents(LineRefusal::Device)) {
        return Ok(Some("the run ends otherwise"));
    }
    let Some((kept, replies)) = answered(alloc, file, failed)? else {
        return Ok(Some("`device` is replied where no device failed"));
    };
    let table = PlainTable {
        buckets: config.buckets,
        limit: config.limit,
    };
    let wanted = plainly(alloc, table, kept.as_slice())?;
    let is_same = if is_whole {
        wanted.as_slice() == replies.as_slice()
    } else {
        wanted.as_slice().starts_with(replies.as_slice())
    };
    if is_same {
        Ok(None)
    } else {
        Ok(Some("the plain run replies the other commands otherwise"))
    }
}

impl Desk {
    /// `each_device_call_fails`: how many calls the device has that failed in turn.
    pub fn each_device_call_fails<R>(&self, rt: &R, line: &Line) -> Result<String, Mistake>
    where
        R: Threads + Wait + AllocGlobal + Sync,
    {
        let alloc = self.alloc;
        let file = self.given_one(line)?;
        let config = config_of(line)?;
        let mut calls = 0;
        for fails in 1..MOST_CALLS {
            let failed = run_failing(rt, config, file, fails)?;
            if let Some(why) = wrong(alloc, &config, file.bytes, &failed)? {
                return Ok(format!(in alloc; "call {fails} fails: {why}")?);
            }
            if !failed.has_failed {
                break;
            }
            calls = fails;
        }
        Ok(format!(in alloc; "{calls}")?)
    }

    /// `each_write_fails`: whether the run says so, whichever of its more than five writes fails, and a beginning of the output
    /// was written.
    pub fn each_write_fails<R>(&self, rt: &R, line: &Line) -> Result<String, Mistake>
    where
        R: Threads + Wait + AllocGlobal + Sync,
    {
        let alloc = self.alloc;
        let files = self.given(line)?;
        let config = config_of(line)?;
        let mut whole = Output::new(alloc, Limits::none());
        let devices = open_lanes(alloc, config.lanes.min(65))?;
        let ended = run_over(rt, config, devices, files.as_slice(), &OpenGate, &mut whole)?;
        if ended != Ok(()) {
            return text(alloc, "the run fails where no write does");
        }
        for failing in 0..100 {
            let limits = Limits {
                failing,
                ..Limits::none()
            };
            let mut out = Output::new(alloc, limits);
            let devices = open_lanes(alloc, config.lanes.min(65))?;
            let ended = run_over(rt, config, devices, files.as_slice(), &OpenGate, &mut out)?;
            if ended == Ok(()) && out.kept.as_slice() == whole.kept.as_slice() && 5 < failing {
                return text(alloc, "write failed each time");
            }
            let is_beginning = whole.kept.as_slice().starts_with(out.kept.as_slice());
            if ended != Err(RunFault::Write) || !is_beginning {
                return Ok(format!(in alloc; "the run ends otherwise where write {failing} fails")?);
            }
        }
        text(alloc, "there are more than 100 writes")
    }
}
