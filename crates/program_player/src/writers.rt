//! A writer that keeps what is written, and may fail.

use crate::readers::NEVER;
use std::alloc::Global;
use std::io;
use std::io::{ErrorKind, Write};

/// How a writer takes what it is given.
#[derive(Clone, Copy)]
pub struct Limits {
    /// How many bytes it has room for. What fits is taken.
    pub room: usize,
    /// Which of its calls fails, counted from 0. Flushes are counted too.
    pub failing: u32,
    /// Whether each flush fails.
    pub is_unflushed: bool,
}

impl Limits {
    pub fn none() -> Limits {
        Limits {
            room: usize::MAX,
            failing: NEVER,
            is_unflushed: false,
        }
    }
}

/// Keeps what is written.
#[derive(Drop)]
pub struct Output {
    pub kept: Vec<u8>,
    /// Whether it was refused a growth itself.
    pub is_refused: bool,
    limits: Limits,
    calls: u32,
}

impl Output {
    pub fn new(alloc: Global, limits: Limits) -> Output {
        Output {
            kept: Vec::new(alloc),
            is_refused: false,
            limits,
            calls: 0,
        }
    }

    fn step(&mut self) -> io::Result<()> {
        let call = self.calls;
        self.calls = call.saturating_add(1);
        if call == self.limits.failing {
            return Err(io::Error::from(ErrorKind::Other));
        }
        Ok(())
    }

    /// Whether a growth was refused to it, or a line of it says so of a command.
    pub fn tells_memory(&self) -> bool {
        self.is_refused || self.has_line(b"memory")
    }

    pub fn has_line(&self, wanted: &[u8]) -> bool {
        self.kept
            .split(|byte| *byte == b'\n')
            .any(|line| line == wanted)
    }
}

impl Write for Output {
    fn write(&mut self, buf: &[u8]) -> io::Result<usize> {
        self.step()?;
        let left = self.limits.room.saturating_sub(self.kept.len());
        let count = left.min(buf.len());
        match self.kept.extend_from_slice(&buf[..count]) {
            Ok(()) => Ok(count),
            Err(_) => {
                self.is_refused = true;
                Err(io::Error::from(ErrorKind::OutOfMemory))
            }
        }
    }

    fn flush(&mut self) -> io::Result<()> {
        self.step()?;
        if self.limits.is_unflushed {
            return Err(io::Error::from(ErrorKind::Other));
        }
        Ok(())
    }
}
