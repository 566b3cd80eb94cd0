//! From settings, devices and commands to a run: a map's workers run the files, and then all is written.
ghost use Rattle.std.specs.Prelude.{◌≡◌, ◌<◌, ◌≤◌, ◌⊎◌, IsTrue, None, ℕ, List, vec_len, map, IfOk, OnOk, IfErr, IfSome, IfNone};
ghost use Rattle.std.specs.Io.KnownBytes.{Appends};
ghost use Rattle.hash_table.specs.Configs.{first_bad_with};
ghost use Rattle.hash_table.specs.Openings.{WasOpened};
ghost use Rattle.run_lines.specs.Runs.{Ran};
ghost use Rattle.threaded_run.specs.declared.work_fault.WorkFault.TheVariants.{Memory};
ghost use Rattle.threaded_run.specs.Replies.{MayReply};
ghost use Rattle.threaded_run.specs.Settings.{settings_of};
ghost use Rattle.threaded_run.specs.Runs.{AreGiven, HaveLines, IsFirstFault, WritesBefore};

use crate::fault::{ThreadedFault, of_run};
use crate::finish::finish;
use crate::gate::Gate;
use crate::work_fault::WorkFault;
use crate::worker::Files;
use command_file::Script;
use far_device::Device;
use far_map::{Settings, run_bundled};
use hash_table::Config;
use std::alloc::{AllocError, Global};
use std::io::Write;
use std::sync::Wait;
use std::thread::Threads;

/// The settings of the map. It has a lane for each device.
fn settings_of(config: &Config) -> Settings
    ensures { result ≡ settings_of config.now }
{
    Settings {
        buckets: config.buckets,
        frames: config.frames,
        limit: config.limit,
        names: config.names,
        passes: config.passes,
        spares: config.spares,
        bytes: u64::MAX,
        format: config.format,
    }
}

/// The fault of the first worker that has one.
fn first_fault(outs: &[Result<Vec<u8>, WorkFault>]) -> Option<WorkFault>
    ensures fault { IfSome result (IsFirstFault outs.now) }
    ensures none { IfNone result (HaveLines outs.now) }
{
    let (first, rest) = outs.split_first()?;
    match first {
        Ok(_) => first_fault(rest),
        Err(fault) => Some(*fault),
    }
}

/// The lines of all workers, where none has a fault.
fn all_lines(
    alloc: Global,
    mut outs: Vec<Result<Vec<u8>, WorkFault>>,
) -> Result<Vec<Vec<u8>>, AllocError>
    requires { HaveLines outs.items }
    ensures { IfOk result (λ texts. AreGiven outs.items (map (λ t. t.items) texts.items)) }
{
    let Some(last) = outs.pop() else {
        return Ok(Vec::new(alloc));
    };
    let lines = match last {
        Ok(lines) => lines,
        Err(_fault) => unreachable!(),
    };
    let mut texts = all_lines(alloc, outs)?;
    texts.push(lines)?;
    Ok(texts)
}

/// The lines of all workers. The fault is that of the first worker that has one, and `Memory` where none has one and a growth is
/// refused.
fn lines_of(alloc: Global, outs: Vec<Result<Vec<u8>, WorkFault>>) -> Result<Vec<Vec<u8>>, WorkFault>
    ensures given { IfOk result (λ texts. AreGiven outs.items (map (λ t. t.items) texts.items)) }
    ensures fault { IfErr result (λ fault. IsFirstFault outs.items fault ⊎ ((fault ≡ Memory) × HaveLines outs.items)) }
{
    match first_fault(&outs) {
        Some(fault) => Err(fault),
        None => match all_lines(alloc, outs) {
            Ok(texts) => Ok(texts),
            Err(_) => Err(WorkFault::Memory),
        },
    }
}

/// Runs each file's commands by a worker of its own, on a table that they share over these devices, one for each lane; then
/// writes for each file the line `file N` and a line for each command, and behind them the line `contents` and each pair
/// that the table holds, in key order. There are 1 to 64 files, and the settings are within their limits.
///
/// The first file's worker has this thread. Each other has one of its own, as far as threads can be started, and so has the
/// evictor where there is more than one file. Round each command the gate is asked and told, in the worker's thread.
///
/// The faults come in the order of the work: `Device` where a device fails as it is made empty; `Passes` where there are not
/// as many passes as files and one more; `Gate` where the gate gave up; `Write` where a write or the last flush fails;
/// `Contents` where the pairs can't be read, and then all lines before `contents` are written. `Memory` is a growth that was
/// refused for the table, the queue, the evictor or a line. Before the first write nothing is written. Of several workers'
/// faults that of the first file is answered.
pub fn run_files<D, G, R, W>(
    rt: &R,
    alloc: Global,
    config: Config,
    devices: Vec<D>,
    files: Vec<Script>,
    gate: &G,
    out: &mut W,
) -> Result<(), ThreadedFault>
where
    D: Device + Send,
    G: Gate,
    R: Threads + Wait + Sync,
    W: Write,
    requires within { first_bad_with (vec_len devices) config ≡ None }
    requires some { 0 < vec_len files }
    requires few { vec_len files ≤ 64 }
    ensures ran { OnOk result (IsTrue D.HONEST → (text : List ℕ) × Ran (MayReply config.buckets config.limit) files.items text × Appends (W.contents out.old) (W.contents out.new) text) }
    ensures opened { OnOk result (WasOpened config) }
    ensures before { IfErr result (WritesBefore files.items (W.contents out.old) (W.contents out.new)) }
{
    let settings = settings_of(&config);
    let count = files.len() as u32;
    let work = Files::new(files.as_slice(), gate);
    let (outs, end) = match run_bundled(rt, alloc, settings, devices, count, &work) {
        Ok(ran) => ran,
        Err(fault) => return Err(of_run(fault)),
    };
    let texts = lines_of(alloc, outs)?;
    finish(rt, alloc, end, texts.as_slice(), out)
}
