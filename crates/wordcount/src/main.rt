//! `wordcount [--threads N] [--buckets N] [--frames N] [--top N] [--far DIR]... FILE...`: counts the words of files in a map that may
//! be larger than its frames, and prints the most frequent.
#![tactic(auto)]

ghost use Rattle.std.specs.Prelude.{◌≡◌, ◌<◌, ◌≤◌, ℕ, List, length, map, IfOk, OnOk};
ghost use Rattle.std.specs.Io.KnownBytes.{Appends};
ghost use Rattle.wordcount.specs.Counted.{line_of, lines_of, word_in, AreCounted, ArePrinted};
ghost use Rattle.wordcount.specs.Frames.{least_frames};
ghost use Rattle.wordcount.specs.Tops.{words_in};

mod command_line;
mod counter;
mod counts;
mod pieces;
mod top;
mod words;

use anyhow::{Result, bail};
use command_line::{CommandLine, TooFew, command};
use counter::Counting;
use far_device::{Device, FakeDevice};
use far_map::{MapFault, Settings, run_through};
use file_device::FolderFault;
use itoa::Buffer;
use pieces::Pieces;
use std::cmp::Reverse;
use std::env::Env;
use std::fs::File;
use std::io::{ErrorKind, Write};
use std::process::ExitCode;
use std::rt::Files;
use std::sync::Wait;
use std::thread::Threads;
use std::{env, io};
use streams::StreamWriter;
use top::{Counted, Top};

/// The most bytes of the pairs of one bucket: the most that there can be.
const LIMIT: u32 = 1_048_576;

/// How many devices there are, where there are no more folders.
const DEVICES: u32 = 4;

/// The most folders: as many as a map may have devices.
const MOST_FOLDERS: usize = 64;

/// Bytes of output that are written at once.
const OUT_BYTES: usize = 8_192;

/// The first fault of these, if there is one.
fn check_all(told: Vec<Result<()>>) -> Result<()> {
    for counted in told {
        counted?;
    }
    Ok(())
}

/// Counts the words of the files, and returns the first ones with their counts.
fn count<D, R>(rt: &R, asked: &CommandLine, files: &[&str], devices: Vec<D>) -> Result<Top>
where
    D: Device + Send,
    R: Files<File = File> + AllocGlobal + Threads + Wait + Sync,
    requires enough { least_frames asked.now.threads ≤ asked.now.frames }
    ensures counted { IfOk result (λ top. AreCounted D.HONEST asked.now.top (words_in top.kept)) }
{
    let alloc = rt.alloc();
    let settings = Settings::new(asked.buckets, asked.frames, LIMIT);
    let work = Counting::new(Pieces::open(rt, files)?);
    let mut top = Top::new(alloc, asked.top as usize);
    let ran = run_through(rt, alloc, settings, devices, asked.threads, &work, &mut top);
    let (told, ended) = match ran {
        Ok(both) => both,
        Err(fault) => bail!("the map could not be run: {fault}"),
    };
    check_all(told)?;
    match ended {
        Ok(()) => Ok(top),
        Err(MapFault::Stopped) => bail!("memory"),
        Err(fault) => bail!("the counts could not be read: {fault}"),
    }
}

/// Writes a word as a line.
fn write_word<W: Write>(out: &mut W, word: &Counted) -> io::Result<()>
    ensures { OnOk result (Appends (W.contents out.old) (W.contents out.new)
        (line_of (word_in word.now))) }
{
    let (Reverse(count), text) = word;
    let mut digits = Buffer::new();
    out.write_all(digits.format(*count).as_bytes())?;
    out.write_all(b" ")?;
    out.write_all(text)?;
    out.write_all(b"\n")
}

/// Writes a line for each word.
fn write_words<W: Write>(out: &mut W, words: &[Counted]) -> io::Result<()>
    ensures { OnOk result (Appends (W.contents out.old) (W.contents out.new)
        (lines_of (map word_in words.now))) }
{
    for word in words {
        write_word(out, word)?;
    }
    Ok(())
}

/// Counts over these devices, and prints the most frequent words, and on standard error how many there are.
fn print_top<D, R, W>(
    rt: &R,
    asked: &CommandLine,
    files: &[&str],
    devices: Vec<D>,
    out: &mut W,
) -> Result<()>
where
    D: Device + Send,
    R: Files<File = File> + AllocGlobal + Eprint + Threads + Wait + Sync,
    W: Write,
    requires enough { least_frames asked.now.threads ≤ asked.now.frames }
    ensures printed { OnOk result ((words : List (ℕ × List ℕ))
        × ArePrinted D.HONEST asked.now.top words
        × Appends (W.contents out.old) (W.contents out.new) (lines_of words)) }
{
    let top = count(rt, asked, files, devices)?;
    let (distinct, buckets, frames) = (top.distinct(), asked.buckets, asked.frames);
    write_words(out, top.into_first().as_slice())?;
    out.flush()?;
    eprintln!(rt; "{distinct} distinct words, {buckets} buckets, {frames} frames")?;
    Ok(())
}

/// The same over devices in the process.
fn print_in_process<R>(rt: &R, asked: &CommandLine, files: &[&str]) -> Result<()>
where
    R: Files<File = File> + AllocGlobal + Print + Eprint + Threads + Wait + Sync,
    requires enough { least_frames asked.now.threads ≤ asked.now.frames }
{
    let mut devices = Vec::new(rt.alloc());
    for _ in 0..DEVICES {
        devices.push(FakeDevice::new(rt.alloc()))?;
    }
    let mut out = StreamWriter::buffered(rt.alloc(), OUT_BYTES, io::writer(rt), 0)?;
    print_top(rt, asked, files, devices, &mut out)
}

/// The same over devices in these folders, and the status: 2 where one can't be used, which is found before a file is opened. They
/// are opened by the program's own handle: one that is known by its bounds alone may not be sent to threads.
fn print_far<R>(
    rt: &R,
    host: HostRuntime,
    asked: &CommandLine,
    files: &[&str],
    folders: &[&str],
) -> Result<u8>
where
    R: Files<File = File> + AllocGlobal + Print + Eprint + Threads + Wait + Sync,
    requires some { 0 < length folders.now }
    requires enough { least_frames asked.now.threads ≤ asked.now.frames }
{
    if folders.len() > MOST_FOLDERS {
        eprintln!(rt; "wordcount: more than {MOST_FOLDERS} folders")?;
        return Ok(2);
    }
    match file_device::open_lanes(host, folders, DEVICES.max(folders.len() as u32)) {
        Ok(devices) => {
            let mut out = StreamWriter::buffered(rt.alloc(), OUT_BYTES, io::writer(rt), 0)?;
            print_top(rt, asked, files, devices, &mut out)?;
            Ok(0)
        }
        Err(FolderFault::Memory) => bail!("memory"),
        Err(fault) => {
            eprintln!(rt; "wordcount: {fault}")?;
            Ok(2)
        }
    }
}

/// Says how many frames the threads need.
fn tell_too_few(rt: &impl Eprint, fault: TooFew) -> io::Result<()> {
    let TooFew { threads, least } = fault;
    eprintln!(rt;
        "wordcount: {threads} threads need {least} frames or more, two for each: give --frames {least}, or fewer --threads"
    )
}

/// Does what these words ask for, and gives the status: 0, or 2 where they are no such words or a folder can't be used.
fn run_words<R>(rt: &R, host: HostRuntime, words: &[String]) -> Result<u8>
where
    R: Files<File = File> + AllocGlobal + Print + Eprint + Threads + Wait + Sync,
{
    let command = command(rt.alloc())?;
    match command.try_get_matches_from(words) {
        Ok(matches) => {
            let asked = match CommandLine::of(&matches) {
                Ok(asked) => asked,
                Err(fault) => {
                    tell_too_few(rt, fault)?;
                    return Ok(2);
                }
            };
            let files = matches.get_strs("files").unwrap_or(&[]);
            let folders = matches.get_strs("far").unwrap_or(&[]);
            if !folders.is_empty() {
                return print_far(rt, host, &asked, files, folders);
            }
            print_in_process(rt, &asked, files)?;
            Ok(0)
        }
        Err(error) => {
            error.print(rt)?;
            Ok(if error.exit_code() == 0 { 0 } else { 2 })
        }
    }
}

/// The same of the program's words. Words that are no texts are no such words.
fn run<R>(rt: &R, host: HostRuntime) -> Result<u8>
where
    R: Env + Files<File = File> + AllocGlobal + Print + Eprint + Threads + Wait + Sync,
{
    let words = match env::args(rt) {
        Ok(words) => words,
        Err(fault) if fault.kind() == ErrorKind::InvalidData => {
            eprintln!(rt; "wordcount: an argument is no UTF-8 text")?;
            return Ok(2);
        }
        Err(fault) => bail!("{fault}"),
    };
    let words: Vec<String> = words.collect(rt.alloc())?;
    run_words(rt, host, words.as_slice())
}

fn main(rt: HostRuntime) -> ExitCode {
    let status = match run(&rt, rt) {
        Ok(status) => status,
        Err(fault) => {
            let _ = eprintln!(rt; "wordcount: {fault}");
            1
        }
    };
    ExitCode::from(status)
}
