//! A reader that gives few bytes at a time and may fail.

use std::io;
use std::io::{BufRead, ErrorKind, Read};

/// More looks than a file needs.
pub const NEVER: u32 = u32::MAX;

/// How a file is read: how many bytes a look shows, and which look fails, counted from 0, and why.
#[derive(Clone, Copy)]
pub struct Looks {
    pub size: usize,
    pub failing: u32,
    pub kind: ErrorKind,
}

impl Looks {
    /// All at once, and no look fails.
    pub fn whole() -> Looks {
        Looks {
            size: usize::MAX,
            failing: NEVER,
            kind: ErrorKind::Other,
        }
    }
}

/// A file's bytes, and how they are read.
#[derive(Clone, Copy)]
pub struct Given<'a> {
    pub bytes: &'a [u8],
    pub looks: Looks,
}

impl<'a> Given<'a> {
    pub fn of(bytes: &'a [u8]) -> Given<'a> {
        Given {
            bytes,
            looks: Looks::whole(),
        }
    }

    pub fn reader(self) -> Faltering<'a> {
        Faltering {
            rest: self.bytes,
            looks: self.looks,
            count: 0,
        }
    }
}

/// Gives a few bytes at a time, and fails at one look.
#[derive(Drop)]
pub struct Faltering<'a> {
    pub rest: &'a [u8],
    looks: Looks,
    /// How many looks there were.
    count: u32,
}

impl Faltering<'_> {
    fn look(&mut self) -> io::Result<()> {
        let look = self.count;
        self.count = look.saturating_add(1);
        if look == self.looks.failing {
            return Err(io::Error::from(self.looks.kind));
        }
        Ok(())
    }
}

impl Read for Faltering<'_> {
    fn read(&mut self, buf: &mut [u8]) -> io::Result<usize> {
        self.look()?;
        let mut near = &self.rest[..self.rest.len().min(self.looks.size)];
        let count = near.read(buf)?;
        self.consume(count);
        Ok(count)
    }
}

impl BufRead for Faltering<'_> {
    fn fill_buf(&mut self) -> io::Result<&[u8]> {
        self.look()?;
        Ok(&self.rest[..self.rest.len().min(self.looks.size)])
    }

    fn consume(&mut self, amount: usize) {
        self.rest = &self.rest[amount.min(self.rest.len())..];
    }
}
