//! The run of the files that readers give.
ghost use Rattle.std.specs.Prelude.{◌≡◌, ◌<◌, ◌≤◌, IsTrue, vec_len, map, IfErr, IfOk, OnOk};
ghost use Rattle.std.specs.Thread.{IsSync};
ghost use Rattle.far_driver.specs.Reading.{AreFiles, IsFaultOfOne};
ghost use Rattle.hash_table.specs.Configs.{first_bad_with};
ghost use Rattle.hash_table.specs.Openings.{WasOpened};
ghost use Rattle.far_driver.specs.Runs.{told_field, RanOn, FitsFiles, WritesBefore};

use crate::fault::RunFault;
use crate::input_files::read_files;
use far_device::Device;
use hash_table::Config;
use std::io::{BufRead, Write};
use std::sync::Wait;
use std::thread::Threads;
use threaded_run::Gate;

/// Runs the files that the readers give, each by a worker of its own, on a table that they share over these devices, and
/// writes the replies and the contents: `threaded_run::run_files` says how. There are 1 to 64 files. All are read, in order,
/// before anything runs. Round each command the gate is asked and told.
///
/// The faults come in the order of the work: `BadConfig`, whatever the readers, where a setting is outside its limits or
/// there are not as many devices as lanes; `BadLine`, `TooManyLines` and `Read` of the first file that has one; `Device`,
/// `Passes`, `Gate`, `Write` and `Contents` as `threaded_run::run_files` says. `Memory` is a growth that was refused. Before
/// the first write nothing is written, and after `Contents` all lines before `contents` are.
pub fn run_files<D, G, R, B, W>(
    rt: &R,
    config: Config,
    devices: Vec<D>,
    files: Vec<B>,
    gate: &G,
    out: &mut W,
) -> Result<(), RunFault>
where
    D: Device + Send,
    G: Gate,
    R: Threads + Wait + AllocGlobal + Sync,
    B: BufRead + Drop,
    W: Write,
    requires some { 0 < vec_len files }
    requires few { vec_len files ≤ 64 }
    ensures ran { OnOk result (IsTrue D.HONEST → RanOn config.buckets config.limit (map (λ f. B.remaining f) files.items) (W.contents out.old) (W.contents out.new)) }
    ensures opened { OnOk result (WasOpened config) }
    ensures settings { told_field result ≡ first_bad_with (vec_len devices) config }
    ensures fault { IfErr result (FitsFiles (map (λ f. B.remaining f) files.items)) }
    ensures before { IfErr result (WritesBefore (map (λ f. B.remaining f) files.items) (W.contents out.old) (W.contents out.new)) }
{
    if let Some(field) = config.first_bad_with(devices.len()) {
        return Err(RunFault::BadConfig(field));
    }
    let alloc = rt.alloc();
    let scripts = read_files(rt, alloc, files)?;
    match threaded_run::run_files(rt, alloc, config, devices, scripts, gate, out) {
        Ok(()) => Ok(()),
        Err(fault) => Err(RunFault::from(fault)),
    }
}
