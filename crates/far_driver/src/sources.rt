//! Where commands come from: files, and standard input. The first file is the stream with the number 1, and so on.
ghost use Rattle.std.specs.Prelude.{◌≡◌, ◌≤◌, length, vec_len, map, string_bytes, IfErr, IfOk};
ghost use Rattle.std.specs.Io.Buffered.{reader_remaining};
ghost use Rattle.streams.specs.Ends.{still_to_read, IsUnread};
ghost use Rattle.far_driver.specs.Sources.{IsUnopened, IsSourceFault, unread};

use crate::fault::RunFault;
use crate::status::ProgramFault;
use std::alloc::Global;
use std::fs::File;
use std::io;
use std::io::{BufReader, Read};
use std::rt::Files;
use streams::StreamReader;

/// How many bytes of a file are read at once: few enough to stay in a processor's first or second cache until its lines are
/// taken.
const READ_BYTES: usize = 32_768;

/// An open file, or standard input.
#[derive(Drop)]
pub enum Source<F, I> {
    File(F),
    Input(I),
}

impl<F: Read, I: Read> Read for Source<F, I> {
    fn read(&mut self, buf: &mut [u8]) -> io::Result<usize> {
        match self {
            Source::File(file) => file.read(buf),
            Source::Input(input) => input.read(buf),
        }
    }
}

/// The source of this name, where `-` is standard input, which is always open. A file's fault is the system's.
fn open_source<R: Files + Input>(rt: &R, name: &str) -> io::Result<Source<R::File, R::Reader>>
    ensures { IfErr result (λ _. IsUnopened name.now) }
{
    if name == "-" {
        return Ok(Source::Input(rt.reader()));
    }
    match File::open(rt, name) {
        Ok(file) => Ok(Source::File(file)),
        Err(fault) => Err(fault),
    }
}

/// The sources of the files of these names, in order, each with a buffer of its own; `-` is standard input.
///
/// `CannotOpen` names the first that can't be opened, counted from 1. Want of memory is `RunFault::Memory`.
pub fn open_sources<R: Files + Input + AllocGlobal>(
    rt: &R,
    names: &[String],
) -> Result<Vec<BufReader<StreamReader<Source<R::File, R::Reader>>>>, ProgramFault>
    requires few { length names.now ≤ 64 }
    ensures count { IfOk result (λ sources. vec_len sources ≡ length names.now) }
    // Of each file all bytes are still to be read.
    ensures unread { IfOk result (λ sources. map (reader_remaining still_to_read) sources.items ≡ unread (length names.now)) }
    ensures fault { IfErr result (IsSourceFault (map string_bytes names.now)) }
{
    let mut sources = Vec::new(rt.alloc());
    for (at, name) in names.iter().enumerate() {
        let number = at as u32 + 1;
        let Ok(source) = open_source(rt, name.as_str()) else {
            return Err(ProgramFault::CannotOpen(number));
        };
        let Ok(source) = StreamReader::buffered(rt.alloc(), READ_BYTES, source, number) else {
            return Err(ProgramFault::Run(RunFault::Memory));
        };
        let Ok(()) = sources.push(source) else {
            return Err(ProgramFault::Run(RunFault::Memory));
        };
    }
    Ok(sources)
}
