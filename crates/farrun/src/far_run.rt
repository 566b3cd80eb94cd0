//! The run, over devices in the process, in folders or in a store.
ghost use Rattle.std.specs.Prelude.{◌≡◌, ◌<◌, ◌≤◌, false, IsTrue, length, map, string_bytes, Err, IfErr, OnOk};
ghost use Rattle.digests.specs.Collisions.{nothing_collided};
ghost use Rattle.far_driver.specs.Arguments.{are_arguments, AskFor};
ghost use Rattle.far_driver.specs.Runs.{AnswersFiles, RanWords};
ghost use Rattle.farrun.specs.Runs.{LeavesOutput, WasOpenedFor};

use crate::command_line::CommandLine;
use crate::fault::{FarrunFault, MEMORY};
use crate::stores::open_stores;
use far_device::Device;
use far_driver::{
    Arguments, OpenGate, ProgramFault, open_lanes, open_sources, read_arguments, run_files,
};
use hash_table::Config;
use std::io::Write;
use std::rt::Files;
use std::sync::Wait;
use std::thread::Threads;

/// The most folders, and pairs of pipes: as many as there may be lanes.
const MOST: usize = 64;

/// Runs the files of arguments that were read, over these devices, one for each lane. The words stand in the contract alone.
fn run_over<D, R, W>(
    rt: &R,
    _words: &[String],
    arguments: Arguments<'_>,
    devices: Vec<D>,
    out: &mut W,
) -> Result<(), FarrunFault>
where
    D: Device + Send,
    R: Files + Input + AllocGlobal + Threads + Wait + Sync,
    W: Write,
    requires asked { AskFor (map string_bytes _words.now) arguments.config (length arguments.files.now) }
    requires some { 0 < length arguments.files.now }
    requires few { length arguments.files.now ≤ 64 }
    ensures ran { OnOk result (IsTrue D.HONEST → RanWords (map string_bytes _words.now) (W.contents out.old) (W.contents out.new)) }
    ensures files { OnOk result (IsTrue D.HONEST → AnswersFiles (map string_bytes _words.now) (W.contents out.old) (W.contents out.new)) }
    ensures opened { OnOk result (WasOpenedFor (map string_bytes _words.now)) }
    ensures before { IfErr result (LeavesOutput (map string_bytes _words.now) (W.contents out.old) (W.contents out.new)) }
{
    let config = Config {
        lanes: devices.len().min(65) as u32,
        ..arguments.config
    };
    let sources = match open_sources(rt, arguments.files) {
        Ok(sources) => sources,
        Err(fault) => return Err(FarrunFault::Program(fault)),
    };
    match run_files(rt, config, devices, sources, &OpenGate, out) {
        Ok(()) => Ok(()),
        Err(fault) => Err(FarrunFault::Program(ProgramFault::Run(fault))),
    }
}

/// Runs what is asked for, over devices in folders where some are named, in stores where pipes are, and else in the process.
///
/// The faults come in the order of the work: the words, the folders or pipes, the files, and then those of `far_driver::run_files`. Devices in
/// folders are opened by the program's own handle: one that is known by its bounds alone may not be sent to threads.
pub fn run_asked<R, W>(
    rt: &R,
    host: HostRuntime,
    asked: &CommandLine<'_>,
    out: &mut W,
) -> Result<(), FarrunFault>
where
    R: Files + Input + AllocGlobal + Threads + Wait + Sync,
    W: Write,
    ensures usage { are_arguments (map string_bytes asked.now.words.items) ≡ false → (result ≡ Err FarrunFault.Usage) × (out.new ≡ out.old) }
    ensures ran { length asked.now.folders.items ≡ 0 → length asked.now.replies.items ≡ 0 → length asked.now.requests.items ≡ 0 → OnOk result (RanWords (map string_bytes asked.now.words.items) (W.contents out.old) (W.contents out.new)) }
    // Also over folders and stores, unless a digest collided: of the bytes that were read of the files.
    ensures far { IsTrue nothing_collided → OnOk result (AnswersFiles (map string_bytes asked.now.words.items) (W.contents out.old) (W.contents out.new)) }
    ensures opened { OnOk result (WasOpenedFor (map string_bytes asked.now.words.items)) }
    ensures before { IfErr result (LeavesOutput (map string_bytes asked.now.words.items) (W.contents out.old) (W.contents out.new)) }
{
    let (words, folders) = (asked.words.as_slice(), asked.folders.as_slice());
    let Some(arguments) = read_arguments(words) else {
        return Err(FarrunFault::Usage);
    };
    let (replies, requests) = (asked.replies.as_slice(), asked.requests.as_slice());
    if !replies.is_empty() || !requests.is_empty() {
        let lanes = asked.lanes as usize;
        let is_each = replies.len() == lanes && requests.len() == lanes && lanes <= MOST;
        if !is_each || !folders.is_empty() {
            return Err(FarrunFault::Usage);
        }
        return match open_stores(host, replies, requests) {
            Ok(devices) => run_over(rt, words, arguments, devices, out),
            Err(Some((number, kind))) => Err(FarrunFault::Store(number, kind)),
            Err(None) => Err(MEMORY),
        };
    }
    if folders.is_empty() {
        let Ok(devices) = open_lanes(rt.alloc(), asked.lanes) else {
            return Err(MEMORY);
        };
        return run_over(rt, words, arguments, devices, out);
    }
    if folders.len() > MOST {
        return Err(FarrunFault::Usage);
    }
    match file_device::open_lanes(host, folders, asked.lanes) {
        Ok(devices) => run_over(rt, words, arguments, devices, out),
        Err(fault) => Err(FarrunFault::Folder(fault)),
    }
}
