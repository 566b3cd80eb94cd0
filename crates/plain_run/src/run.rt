//! A file's commands, run on a plain table, and what the run writes.
ghost use Rattle.std.specs.Prelude.{◌≡◌, ◌<◌, ◌≤◌, ◌++◌, List, ℕ, [], ◌∷◌, map, codes, IfOk, IfErr, IfSome, OnOk};
ghost use Rattle.std.specs.Io.KnownBytes.{Appends};
ghost use Rattle.far_object.specs.Encodings.{enc_text};
ghost use Rattle.table_core.specs.Maps.{map_of};
ghost use Rattle.table_core.specs.Logs.{history, names_of};
ghost use Rattle.run_lines.specs.Output.{written, pair_line, file_texts};
ghost use Rattle.plain_run.specs.Tables.{Log, IsAt};
ghost use Rattle.plain_run.specs.Runs.{PlainRan, RunsTo, IsFaultOf, IsOfRunning, IsOfWriting, KeepsBefore};

use crate::fault::PlainFault;
use crate::table::PlainTable;
use command_file::{Command, Script, read_file};
use run_lines::{push_line, reply_text, write_contents, write_files};
use std::alloc::Global;
use std::io::{BufRead, Write};

/// Runs the commands in order. The result has the lines of their replies.
fn run(alloc: Global, table: &mut PlainTable, script: &Script) -> Result<Vec<u8>, PlainFault>
    requires fresh { (log : Log) × IsAt table.old log × (history log ≡ []) × (names_of log ≡ 0) }
    ensures ran { IfOk result (λ text. RunsTo table.old table.new script.now text.items) }
    ensures fault { IfErr result (IsOfRunning script.now) }
{
    let mut lines = Vec::new(alloc);
    for at in 0..script.len() {
        let command = match script.command(alloc, at) {
            Ok(Command::Map(command)) => command,
            Ok(Command::Table(_)) => return Err(PlainFault::AsksTable(at as u32 + 1)),
            Err(_) => return Err(PlainFault::Memory),
        };
        let reply = table.answer(alloc, &command);
        match push_line(&mut lines, reply_text(&reply)) {
            Ok(()) => {}
            Err(_) => return Err(PlainFault::Memory),
        }
    }
    Ok(lines)
}

/// Writes the file's lines and, behind them, what the table holds.
fn write_run<W: Write>(
    alloc: Global,
    table: &PlainTable,
    lines: Vec<u8>,
    out: &mut W,
) -> Result<(), PlainFault>
    ensures written { OnOk result ((log : Log) → IsAt table.now log
        → Appends (W.contents out.old) (W.contents out.new)
        (file_texts 1 (lines.items ∷ []) ++ written (codes "contents" ∷ map pair_line (map_of enc_text enc_text (history log))))) }
    ensures fault { IfErr result IsOfWriting }
{
    match write_files(out, &[lines]) {
        Ok(()) => {}
        Err(_) => return Err(PlainFault::Write),
    }
    let pairs = match table.pairs(alloc) {
        Ok(pairs) => pairs,
        Err(_) => {
            return match out.flush() {
                Ok(()) => Err(PlainFault::Contents),
                Err(_) => Err(PlainFault::Write),
            };
        }
    };
    match write_contents(out, pairs.as_slice()) {
        Ok(()) => Ok(()),
        Err(_) => Err(PlainFault::Write),
    }
}

/// Runs the commands of one file on a table of one thread, with so many buckets and objects of at most `limit` bytes, and
/// writes the line `file 1`, a line for each reply, the line `contents`, and each pair as a line, in key order. The whole
/// file is read before anything runs. A `hold` is a get.
///
/// A put whose object would be longer than the limit is replied `too long`, and a command that is refused a growth
/// `memory`; either leaves the table as it was.
///
/// The faults come in the order of the work: `File`; `AsksTable` where a command asks the table itself; `Write` where a
/// write or the last flush fails; `Contents` where there is no memory to put the pairs in order. `Memory` is any other
/// growth that was refused: for the table, a command's texts, or a reply's line. No clause says when a failed read,
/// `Memory`, `Write` and `Contents` come. Before the first write nothing is written.
pub fn run_file<R: BufRead, W: Write>(
    alloc: Global,
    buckets: u32,
    limit: u32,
    file: &mut R,
    out: &mut W,
) -> Result<(), PlainFault>
    requires some { 0 < buckets }
    requires few { buckets ≤ 65536 }
    requires limited { limit ≤ 1048576 }
    ensures ran { OnOk result (IfSome (R.remaining file.old) (λ bytes. (text : List ℕ) × PlainRan buckets limit bytes text × Appends (W.contents out.old) (W.contents out.new) text)) }
    ensures fault { IfErr result (IsFaultOf (R.remaining file.old)) }
    ensures before { IfErr result (λ fault. KeepsBefore (W.contents out.old) (W.contents out.new) fault) }
{
    let script = match read_file(alloc, file) {
        Ok(script) => script,
        Err(fault) => return Err(PlainFault::File(fault)),
    };
    let mut table = match PlainTable::open(alloc, buckets, limit) {
        Ok(table) => table,
        Err(_) => return Err(PlainFault::Memory),
    };
    let lines = match run(alloc, &mut table, &script) {
        Ok(lines) => lines,
        Err(fault) => return Err(fault),
    };
    write_run(alloc, &table, lines, out)
}
