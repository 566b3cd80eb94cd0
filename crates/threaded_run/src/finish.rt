//! The end of a run: the lines and the contents are written.
ghost use Rattle.std.specs.Prelude.{◌≡◌, ◌++◌, ◌∷◌, ℕ, List, Option, map, codes, IfOk, OnOk, IfErr};
ghost use Rattle.std.specs.Io.KnownBytes.{Appends};
ghost use Rattle.far_pairs.specs.Bundles.{all_of};
ghost use Rattle.run_lines.specs.Output.{file_texts};
ghost use Rattle.std.specs.Thread.{IsSync};
ghost use Rattle.threaded_run.specs.Runs.{EndsAt};
ghost use Rattle.threaded_run.specs.Ends.{AreLinesOf, Collected, Holds, Writes};

use crate::fault::ThreadedFault;
use far_map::MapFault;
use far_object::{Memory, Text};
use far_pairs::{Bundle, in_key_order};
use run_lines::{LineRefusal, PairLines, write_files};
use std::alloc::Global;
use std::io;
use std::io::Write;
use std::thread::{Threads, join_mut};

/// The reply's text for the fault of the end.
fn refusal_of(fault: MapFault) -> LineRefusal {
    match fault {
        MapFault::Memory => LineRefusal::Memory,
        MapFault::Device => LineRefusal::Device,
        _ => LineRefusal::Damaged,
    }
}

/// The lines of the pairs, in key order.
fn spell<R: Threads + Sync>(
    rt: &R,
    alloc: Global,
    bundles: &[Bundle<Text, Text>],
) -> Result<PairLines, LineRefusal>
    ensures { IfOk result (AreLinesOf (all_of bundles.now)) }
{
    let lists = match in_key_order(rt, alloc, bundles) {
        Ok(lists) => lists,
        Err(Memory) => return Err(LineRefusal::Memory),
    };
    match PairLines::of(rt, alloc, lists.as_slice()) {
        Ok(lines) => Ok(lines),
        Err(Memory) => Err(LineRefusal::Memory),
    }
}

/// The fault of contents that can't be read for this reason, once what was written is flushed.
fn flushed<W: Write>(refusal: LineRefusal, out: &mut W) -> ThreadedFault
    ensures { (front : Option (List ℕ)) (lines : List ℕ) → Appends front (W.contents out.old) lines → EndsAt front (W.contents out.new) lines result }
{
    match out.flush() {
        Ok(()) => ThreadedFault::Contents(refusal),
        Err(_) => ThreadedFault::Write,
    }
}

/// Writes the contents behind what was written, or flushes where they can't be read.
fn write_contents<W: Write>(
    contents: Result<PairLines, LineRefusal>,
    out: &mut W,
) -> Result<(), ThreadedFault>
    ensures written { OnOk result (Holds contents (λ lines. Appends (W.contents out.old) (W.contents out.new) (codes "contents" ++ 10 ∷ lines))) }
    ensures fault { IfErr result (λ fault. (front : Option (List ℕ)) (lines : List ℕ) → Appends front (W.contents out.old) lines → EndsAt front (W.contents out.new) lines fault) }
{
    match contents {
        Ok(lines) => match lines.write_contents(out) {
            Ok(()) => Ok(()),
            Err(_) => Err(ThreadedFault::Write),
        },
        Err(refusal) => Err(flushed(refusal, out)),
    }
}

/// Writes the lines of the files, while those of the contents are made on threads; and behind them the contents.
fn write_all<R, W>(
    rt: &R,
    alloc: Global,
    bundles: &[Bundle<Text, Text>],
    texts: &[Vec<u8>],
    out: &mut W,
) -> Result<(), ThreadedFault>
where
    R: Threads + Sync,
    W: Write,
    ensures written { OnOk result (Writes (all_of bundles.now) (W.contents out.old) (W.contents out.new) (file_texts 1 (map (λ t. t.items) texts.now))) }
    ensures fault { IfErr result (EndsAt (W.contents out.old) (W.contents out.new) (file_texts 1 (map (λ t. t.items) texts.now))) }
{
    let mut spelling = || -> Result<PairLines, LineRefusal>
        requires { IsSync R.row }
        ensures { IfOk result (AreLinesOf (all_of bundles.entry.now)) }
    { spell(rt, alloc, bundles) };
    let mut writing = || -> io::Result<()>
        ensures { OnOk result (Appends (W.contents out.entry.now) (W.contents out.exit.now) (file_texts 1 (map (λ t. t.items) texts.entry.now))) }
    { write_files(out, texts) };
    let (contents, wrote) = join_mut(rt, &mut spelling, &mut writing);
    match wrote {
        Ok(()) => {}
        Err(_) => return Err(ThreadedFault::Write),
    }
    write_contents(contents, out)
}

/// Writes the lines of the files alone, where the contents can't be read for this reason, and gives the fault.
fn write_lines<W: Write>(refusal: LineRefusal, texts: &[Vec<u8>], out: &mut W) -> ThreadedFault
    ensures { EndsAt (W.contents out.old) (W.contents out.new) (file_texts 1 (map (λ t. t.items) texts.now)) result }
{
    match write_files(out, texts) {
        Ok(()) => flushed(refusal, out),
        Err(_) => ThreadedFault::Write,
    }
}

/// Writes the lines of the files and what the map held. Where that can't be read the lines are written all the same, and where a
/// pass is missing nothing is.
pub(crate) fn finish<R, W>(
    rt: &R,
    alloc: Global,
    end: Result<Vec<Bundle<Text, Text>>, MapFault>,
    texts: &[Vec<u8>],
    out: &mut W,
) -> Result<(), ThreadedFault>
where
    R: Threads + Sync,
    W: Write,
    ensures written { OnOk result (Collected end (λ bundles. Writes (all_of bundles.items) (W.contents out.old) (W.contents out.new) (file_texts 1 (map (λ t. t.items) texts.now)))) }
    ensures fault { IfErr result (EndsAt (W.contents out.old) (W.contents out.new) (file_texts 1 (map (λ t. t.items) texts.now))) }
{
    match end {
        Ok(bundles) => match write_all(rt, alloc, bundles.as_slice(), texts, out) {
            Ok(()) => Ok(()),
            Err(fault) => Err(fault),
        },
        Err(MapFault::PassesSpent) => Err(ThreadedFault::Passes),
        Err(fault) => Err(write_lines(refusal_of(fault), texts, out)),
    }
}
