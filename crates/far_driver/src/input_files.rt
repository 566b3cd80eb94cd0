//! The files of a run, read in order before anything runs, and parsed side by side.
ghost use Rattle.std.specs.Prelude.{◌≡◌, ◌≤◌, ◌+◌, ℕ, List, ◌∷◌, [], vec_len, map, IfErr, IfOk, IfSome};
ghost use Rattle.std.specs.Thread.{IsSync};
ghost use Rattle.command_file.specs.Files.{IsFile, IsFileFault};
ghost use Rattle.command_file.specs.Lines.{lines_of};
ghost use Rattle.command_file.specs.Texts.{EndsSo};
ghost use Rattle.far_driver.specs.Reading.{AreFiles, IsFaultFrom, IsFaultOfOne};

use crate::fault::{RunFault, of_file};
use command_file::{FileFault, FileText, Script};
use std::alloc::{AllocError, Global};
use std::io::BufRead;
use std::thread::{Threads, join};

/// The lines of a file.
fn read_text<B: BufRead + Drop>(alloc: Global, mut file: B) -> FileText
    ensures { IfSome (B.remaining file) (λ bytes. EndsSo (lines_of bytes) result.lines result.end) }
{
    FileText::read(alloc, &mut file)
}

/// The list of these alone.
fn alone(alloc: Global, script: Script) -> Result<Vec<Script>, AllocError>
    ensures { IfOk result (λ all. all.items ≡ script ∷ []) }
{
    let mut all = Vec::new(alloc);
    all.push(script)?;
    Ok(all)
}

/// What a text says, by this thread alone or by several.
fn parse<R: Threads + Sync>(
    rt: &R,
    alloc: Global,
    alone: bool,
    text: FileText,
) -> Result<Script, FileFault>
    ensures said { IfOk result (λ script. (all : List (List ℕ)) → EndsSo all text.lines text.end → IsFile all script) }
    ensures fault { IfErr result (λ fault. (all : List (List ℕ)) → EndsSo all text.lines text.end → IsFileFault all fault) }
{
    if alone {
        text.parse(alloc)
    } else {
        text.parse_on_threads(rt, alloc)
    }
}

/// The commands of the last file. No other file is read meanwhile, so where it is not alone several threads parse it.
fn read_last<B, R>(rt: &R, alloc: Global, alone: bool, file: B) -> Result<Script, FileFault>
where
    B: BufRead + Drop,
    R: Threads + Sync,
    ensures said { IfOk result (λ script. IfSome (B.remaining file) (λ bytes. IsFile (lines_of bytes) script)) }
    ensures fault { IfErr result (λ fault. IfSome (B.remaining file) (λ bytes. IsFileFault (lines_of bytes) fault)) }
{
    let text = read_text(alloc, file);
    match parse(rt, alloc, alone, text) {
        Ok(script) => Ok(script),
        Err(fault) => Err(fault),
    }
}

/// The commands of each file, of which the first has this number.
fn read_from<B, R>(
    rt: &R,
    alloc: Global,
    number: u32,
    mut files: Vec<B>,
) -> Result<Vec<Script>, RunFault>
where
    B: BufRead + Drop,
    R: Threads + Sync,
    requires { number + vec_len files ≤ 65 }
    ensures said { IfOk result (λ all. AreFiles (map (λ f. B.remaining f) files.items) all.items) }
    ensures fault { IfErr result (IsFaultFrom number (map (λ f. B.remaining f) files.items)) }
{
    if files.is_empty() {
        return Ok(Vec::new(alloc));
    }
    let first = files.remove(0);
    if files.is_empty() {
        let script = match read_last(rt, alloc, number == 1, first) {
            Ok(script) => script,
            Err(fault) => return Err(of_file(number, fault)),
        };
        return Ok(alone(alloc, script)?);
    }
    let text = read_text(alloc, first);
    let (own, others) = join(
        rt,
        || -> Result<Script, FileFault>
            ensures said { IfOk result (λ script. (all : List (List ℕ)) → EndsSo all text.lines text.end → IsFile all script) }
            ensures fault { IfErr result (λ fault. (all : List (List ℕ)) → EndsSo all text.lines text.end → IsFileFault all fault) }
        { text.parse(alloc) },
        || -> Result<Vec<Script>, RunFault>
            requires { IsSync R.row × (number + 1 + vec_len files ≤ 65) }
            ensures said { IfOk result (λ all. AreFiles (map (λ f. B.remaining f) files.items) all.items) }
            ensures fault { IfErr result (IsFaultFrom (number + 1) (map (λ f. B.remaining f) files.items)) }
        { read_from(rt, alloc, number + 1, files) },
    );
    let script = match own {
        Ok(script) => script,
        Err(fault) => return Err(of_file(number, fault)),
    };
    let mut all = match others {
        Ok(all) => all,
        Err(fault) => return Err(fault),
    };
    match all.insert(0, script) {
        Ok(()) => Ok(all),
        Err(_) => Err(RunFault::Memory),
    }
}

/// The commands of each file. Each is read before the next, and parsed while those behind it are read and parsed, as far as
/// threads can be started; the last is parsed in parts, side by side, and one that is alone on this thread. All are read,
/// whatever they say. The fault is that of the first that has one; they are counted from 1.
pub fn read_files<B, R>(rt: &R, alloc: Global, files: Vec<B>) -> Result<Vec<Script>, RunFault>
where
    B: BufRead + Drop,
    R: Threads + Sync,
    requires { vec_len files ≤ 64 }
    ensures said { IfOk result (λ all. AreFiles (map (λ f. B.remaining f) files.items) all.items) }
    ensures fault { IfErr result (IsFaultOfOne (map (λ f. B.remaining f) files.items)) }
{
    match read_from(rt, alloc, 1, files) {
        Ok(all) => Ok(all),
        Err(fault) => Err(fault),
    }
}
