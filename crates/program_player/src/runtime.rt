//! A machine for the program: its files and its standard input are those of the case, and its threads are those of another
//! runtime. And one that has the words of a process alone.

use crate::files::CaseFile;
use crate::readers::{Faltering, Given};
use std::alloc::{Alloc, Allocator, Global};
use std::env::{Env, FillError};
use std::fs::{Metadata, OpenFile, OpenOptions};
use std::io;
use std::io::{BufRead, ErrorKind, Lines, Read, Seek, SeekFrom, Write};
use std::rt::Files;
use std::sync::Wait;
use std::thread::Threads;

fn unsupported() -> io::Error {
    io::Error::from(ErrorKind::Unsupported)
}

/// A file of the case that was opened to be read.
#[derive(Drop)]
pub struct OpenedFile<'a> {
    reader: Faltering<'a>,
}

impl Read for OpenedFile<'_> {
    fn read(&mut self, buf: &mut [u8]) -> io::Result<usize> {
        self.reader.read(buf)
    }
}

impl Write for OpenedFile<'_> {
    fn write(&mut self, _buf: &[u8]) -> io::Result<usize> {
        Err(unsupported())
    }

    fn flush(&mut self) -> io::Result<()> {
        Err(unsupported())
    }
}

impl Seek for OpenedFile<'_> {
    fn seek(&mut self, _to: SeekFrom) -> io::Result<u64> {
        Err(unsupported())
    }
}

impl OpenFile for OpenedFile<'_> {
    fn metadata(&self) -> io::Result<Metadata> {
        Err(unsupported())
    }

    fn set_len(&self, _size: u64) -> io::Result<()> {
        Err(unsupported())
    }

    fn sync_all(&self) -> io::Result<()> {
        Err(unsupported())
    }

    fn sync_data(&self) -> io::Result<()> {
        Err(unsupported())
    }
}

/// The machine that the program runs on. The file named `-` is its standard input.
#[derive(Clone, Copy)]
pub struct Machine<'a, R> {
    pub threads: R,
    pub alloc: Global,
    pub files: &'a [CaseFile],
}

impl<'a, R> Machine<'a, R> {
    /// The file of this name.
    fn find(&self, name: &[u8]) -> Option<Given<'a>> {
        for file in self.files {
            if file.name.as_slice() == name && !name.is_empty() {
                return Some(file.given());
            }
        }
        None
    }
}

impl<R: Threads> Threads for Machine<'_, R> {}

impl<R: Wait> Wait for Machine<'_, R> {}

impl<R> Alloc for Machine<'_, R> {
    type A = Global;

    fn alloc(&self) -> Global {
        self.alloc
    }
}

impl<'a, R> Input for Machine<'a, R> {
    type Reader = Faltering<'a>;

    fn read_line<A: Allocator + Clone>(&self, buf: &mut String<A>) -> io::Result<usize> {
        self.reader().read_line(buf)
    }

    fn lines<A: Allocator>(&self, alloc: A) -> Lines<Faltering<'a>, A> {
        self.reader().lines(alloc)
    }

    fn reader(&self) -> Faltering<'a> {
        match self.find(b"-") {
            Some(file) => file.reader(),
            None => Given::of(b"").reader(),
        }
    }
}

impl<'a, R> Files for Machine<'a, R> {
    type File = OpenedFile<'a>;

    type Dir = OpenedFile<'a>;

    fn open_file(&self, how: &OpenOptions, path: &str) -> io::Result<OpenedFile<'a>> {
        how.check()?;
        if !how.asks_read() || how.asks_write() || how.asks_append() || how.asks_truncate() {
            return Err(unsupported());
        }
        match self.find(path.as_bytes()) {
            Some(file) => Ok(OpenedFile {
                reader: file.reader(),
            }),
            None => Err(io::Error::from(ErrorKind::NotFound)),
        }
    }

    fn open_dir(&self, _path: &str) -> io::Result<OpenedFile<'a>> {
        Err(unsupported())
    }

    fn metadata(&self, _path: &str) -> io::Result<Metadata> {
        Err(unsupported())
    }

    fn symlink_metadata(&self, _path: &str) -> io::Result<Metadata> {
        Err(unsupported())
    }

    fn copy(&self, _from: &str, _to: &str) -> io::Result<u64> {
        Err(unsupported())
    }

    fn rename(&self, _from: &str, _to: &str) -> io::Result<()> {
        Err(unsupported())
    }

    fn remove_file(&self, _path: &str) -> io::Result<()> {
        Err(unsupported())
    }

    fn create_dir(&self, _path: &str) -> io::Result<()> {
        Err(unsupported())
    }

    fn remove_dir(&self, _path: &str) -> io::Result<()> {
        Err(unsupported())
    }

    fn remove_dir_all<B: Allocator>(&self, _alloc: B, _path: &str) -> io::Result<()> {
        Err(unsupported())
    }
}

/// The words of a process, the program's name first, and no variables.
#[derive(Clone, Copy)]
pub struct WordsAlone<'a> {
    pub alloc: Global,
    pub words: &'a [Vec<u8>],
}

impl Alloc for WordsAlone<'_> {
    type A = Global;

    fn alloc(&self) -> Global {
        self.alloc
    }
}

impl Env for WordsAlone<'_> {
    fn arg(&self, i: usize, buf: &mut [u8]) -> Result<usize, FillError> {
        let word = self.words.get(i).ok_or(FillError::NotPresent)?;
        let room = buf.get_mut(..word.len()).ok_or(FillError::TooLong)?;
        room.copy_from_slice(word.as_slice());
        Ok(word.len())
    }

    fn var(&self, _name: &str, _buf: &mut [u8]) -> Result<usize, FillError> {
        Err(FillError::NotPresent)
    }

    fn var_at(&self, _i: usize, _buf: &mut [u8]) -> Result<usize, FillError> {
        Err(FillError::NotPresent)
    }
}
