//! The commands of a long text: it is cut into parts, which are parsed side by side.
//!
//! # What a part knows of the others
//!
//! Only where it stands in the text. Its places are those in the whole text, its lines are counted from 1, and its result tells
//! how many they are. So what the second of two parts says is put behind what the first says, with the lines of the first added
//! to the number of a bad one. The fault of the first comes first, as it does where one thread goes through both.
ghost use Rattle.std.specs.Prelude.{◌≡◌, ◌+◌, ◌<◌, ◌≤◌, ◌^◌, ◌++◌, ℕ, List, length, IfOk};
ghost use Rattle.std.specs.List.{AllByRecursion};
ghost use Rattle.std.specs.Thread.{IsSync};
ghost use Rattle.command_file.specs.Grammar.{IsGood};
ghost use Rattle.command_file.specs.Files.{most_lines, IsFileFault, IsNumbered};
ghost use Rattle.command_file.specs.Parts.{IsPlaced, AreCut};

use crate::fault::FileFault;
use crate::part::{MOST_LINES, Part, place_lines};
use crate::search::first_place;
use std::alloc::Global;
use std::thread::{Threads, join};

/// The most parts of a text: about as many as there are threads that have nothing else to do then.
const MOST_PARTS: usize = 4;

/// How many bytes there are to each part at least, so that a thread is worth its start to parse it.
const LEAST_PART: usize = 32_768;

/// The bytes in two. The first are cut off behind the first LF at or behind this place, so that no line stands in both; where
/// there is none, they are all.
fn cut_behind(bytes: &[u8], place: usize) -> (&[u8], &[u8])
    requires { place ≤ length bytes.now }
    ensures cut { AreCut bytes.now result.0.now result.1.now }
    ensures all { length bytes.now ≡ length result.0.now + length result.1.now }
{
    match first_place(b'\n', &bytes[place..]) {
        Some(at) => bytes.split_at(place + at + 1),
        None => (bytes, &bytes[bytes.len()..]),
    }
}

/// What a fault of lines is where so many lines stand before them, which are all good.
fn raised(fault: FileFault, lines: u32) -> FileFault
    requires { lines ≤ most_lines }
    ensures fault { (before behind : List (List ℕ)) → length before ≡ lines → AllByRecursion IsGood before → IsFileFault behind fault → IsFileFault (before ++ behind) result }
    ensures number { IsNumbered fault → IsNumbered result }
{
    match fault {
        FileFault::BadLine(number) if number <= MOST_LINES - lines => {
            FileFault::BadLine(lines + number)
        }
        FileFault::BadLine(_) => FileFault::TooManyLines,
        other => other,
    }
}

/// What a text says whose two parts say so: the commands of both, or the fault of the first that has one.
fn together(
    first: Result<Part, FileFault>,
    second: Result<Part, FileFault>,
) -> Result<Part, FileFault>
    requires { IfOk first (λ part. part.lines ≤ most_lines) }
    ensures { (bytes a b : List ℕ) (from : ℕ) → AreCut bytes a b → IsPlaced a from first → IsPlaced b (from + length a) second → IsPlaced bytes from result }
{
    let Part { mut places, lines } = match first {
        Ok(part) => part,
        Err(fault) => return Err(fault),
    };
    let mut behind = match second {
        Ok(part) => part,
        Err(fault) => return Err(raised(fault, lines)),
    };
    if behind.lines > MOST_LINES - lines {
        return Err(FileFault::TooManyLines);
    }
    match places.append(&mut behind.places) {
        Ok(()) => Ok(Part {
            places,
            lines: lines + behind.lines,
        }),
        Err(_) => Err(FileFault::Memory),
    }
}

/// As `place_lines`, in so many parts. Each but the first has a thread of its own, as far as one can be started. This thread
/// starts them all: one that a new thread starts may have to wait for that thread's processor, where another has nothing to do.
#[cycle(parts)]
fn place_parts<R: Threads + Sync>(
    rt: &R,
    alloc: Global,
    bytes: &[u8],
    from: usize,
    parts: usize,
) -> Result<Part, FileFault>
    requires { from + length bytes.now < 2 ^ 63 }
    ensures { IsPlaced bytes.now from result }
{
    if parts < 2 {
        return place_lines(alloc, bytes, from);
    }
    let (first, last) = cut_behind(bytes, bytes.len() - bytes.len() / parts);
    let behind = from + first.len();
    let left = parts - 1;
    let theirs = move || -> Result<Part, FileFault>
        requires { behind + length last.now < 2 ^ 63 }
        ensures { IsPlaced last.entry.now behind result }
    { place_lines(alloc, last, behind) };
    let own = move || -> Result<Part, FileFault>
        requires { IsSync R.row × (from + length first.now < 2 ^ 63) }
        ensures { IsPlaced first.entry.now from result }
    { place_parts(rt, alloc, first, from, left) };
    let (last, first) = join(rt, theirs, own);
    together(first, last)
}

/// The commands that the lines of a whole text say, as `place_lines` tells them, by several threads where it is long.
pub(crate) fn place_on_threads<R: Threads + Sync>(
    rt: &R,
    alloc: Global,
    text: &[u8],
) -> Result<Part, FileFault>
    ensures { IsPlaced text.now 0 result }
{
    let parts = (text.len() / LEAST_PART).min(MOST_PARTS);
    place_parts(rt, alloc, text, 0, parts)
}
