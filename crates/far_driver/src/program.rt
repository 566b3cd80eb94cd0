//! The program `fartable BUCKETS FRAMES LIMIT FILE...`.
ghost use Rattle.std.specs.Prelude.{◌≡◌, ◌≢◌, ◌≤◌, false, map, string_bytes, Err, IfErr, OnOk};
ghost use Rattle.far_driver.specs.Arguments.{are_arguments};
ghost use Rattle.far_driver.specs.Runs.{AnswersFiles, RanWords, LeavesOutput};
ghost use Rattle.far_driver.specs.Statuses.{status_of, EndedWith};
ghost use Rattle.far_driver.specs.declared.status.ProgramFault.{ProgramFault as program_fault};

use crate::arguments::read_arguments;
use crate::lanes::open_lanes;
use crate::run::run_files;
use crate::sources::open_sources;
use crate::status::ProgramFault;
use std::io::Write;
use std::rt::Files;
use std::sync::Wait;
use std::thread::Threads;
use threaded_run::OpenGate;

/// Runs what the arguments ask for.
fn run_words<R, W>(rt: &R, words: &[String], out: &mut W) -> Result<(), ProgramFault>
where
    R: Files + Input + AllocGlobal + Threads + Wait + Sync,
    W: Write,
    ensures usage { are_arguments (map string_bytes words.now) ≡ false → (result ≡ Err ProgramFault.Usage) × (out.new ≡ out.old) }
    ensures ran { OnOk result (RanWords (map string_bytes words.now) (W.contents out.old) (W.contents out.new)) }
    // Of the bytes that were read of the files.
    ensures files { OnOk result (AnswersFiles (map string_bytes words.now) (W.contents out.old) (W.contents out.new)) }
    ensures told { IfErr result EndedWith }
    ensures before { IfErr result (LeavesOutput (map string_bytes words.now) (W.contents out.old) (W.contents out.new)) }
{
    let Some(arguments) = read_arguments(words) else {
        return Err(ProgramFault::Usage);
    };
    let sources = open_sources(rt, arguments.files)?;
    let devices = open_lanes(rt.alloc(), arguments.config.lanes)?;
    run_files(rt, arguments.config, devices, sources, &OpenGate, out)?;
    Ok(())
}

/// Runs the program on the words behind its name, `BUCKETS FRAMES LIMIT FILE...`, and gives the status that it ends with.
///
/// Numbers have one to seven decimal digits; there are 1 to 64 files, and `-`, which may be one of them, is standard input.
/// The table lies over four devices in the process. What the run writes goes to `out`; the text of a fault is one line on
/// `err`, where a fault of writing it is ignored, and nothing else is written there. The faults come in the order of the work:
/// the arguments, the opening of the files, and then those of `run_files`. Behind one `out` has what it had, but for a failed
/// write, or all lines before `contents` where these can't be read.
pub fn run_program<R, W, E>(rt: &R, words: &[String], out: &mut W, err: &mut E) -> u8
where
    R: Files + Input + AllocGlobal + Threads + Wait + Sync,
    W: Write,
    E: Write,
    ensures status { result ≤ 2 }
    ensures usage { are_arguments (map string_bytes words.now) ≡ false → (result ≡ 2) × (out.new ≡ out.old) }
    ensures ran { result ≡ 0 → RanWords (map string_bytes words.now) (W.contents out.old) (W.contents out.new) × (err.new ≡ err.old) }
    ensures files { result ≡ 0 → AnswersFiles (map string_bytes words.now) (W.contents out.old) (W.contents out.new) }
    ensures before { result ≢ 0 → (fault : program_fault) × EndedWith fault × (result ≡ status_of fault) × LeavesOutput (map string_bytes words.now) (W.contents out.old) (W.contents out.new) fault }
{
    match run_words(rt, words, out) {
        Ok(()) => 0,
        Err(fault) => {
            let _ = writeln!(err, "{fault}");
            fault.status()
        }
    }
}
