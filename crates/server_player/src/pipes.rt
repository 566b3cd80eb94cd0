//! The pipes of a server in memory.

use crate::wires::Wires;
use far_server::{PacketOutput, Pipes, PipesFault};
use std::alloc::Global;
use std::io;
use std::io::{BufReader, Read, Write};
use std::sync::Wait;

/// Where a worker's packets come from.
#[derive(Drop)]
pub struct WorkerInput<'a, R: Wait> {
    rt: &'a R,
    wires: &'a Wires,
    worker: usize,
}

impl<R: Wait> Read for WorkerInput<'_, R> {
    fn read(&mut self, buf: &mut [u8]) -> io::Result<usize> {
        self.wires.read(self.rt, self.worker, buf)
    }
}

/// Where a worker's packets go to.
#[derive(Drop)]
pub struct WorkerOutput<'a, R: Wait> {
    rt: &'a R,
    wires: &'a Wires,
    worker: usize,
}

impl<R: Wait> Write for WorkerOutput<'_, R> {
    fn write(&mut self, buf: &[u8]) -> io::Result<usize> {
        self.wires.write(self.rt, self.worker, buf)
    }

    fn flush(&mut self) -> io::Result<()> {
        Ok(())
    }
}

impl<R: Wait> PacketOutput for WorkerOutput<'_, R> {
    ghost handed_on = { λ _. Unit {0} };

    fn hand_on(&mut self) -> io::Result<()> {
        Ok(())
    }
}

/// The pipes of so many workers. One behind them has none.
#[derive(Drop)]
pub struct MemoryPipes<'a, R: Wait> {
    pub rt: &'a R,
    pub wires: &'a Wires,
    pub count: u32,
}

impl<'a, R: Wait> Pipes for MemoryPipes<'a, R> {
    type Input = BufReader<WorkerInput<'a, R>>;

    type Output = WorkerOutput<'a, R>;

    ghost opens = { λ _ _ _ _. Unit {0} };

    fn open(&self, alloc: Global, worker: u32) -> Result<(Self::Input, Self::Output), PipesFault> {
        if worker >= self.count {
            return Err(PipesFault::Io);
        }
        let (rt, wires, worker) = (self.rt, self.wires, worker as usize);
        match BufReader::new(alloc, WorkerInput { rt, wires, worker }) {
            Ok(input) => Ok((input, WorkerOutput { rt, wires, worker })),
            Err(_) => Err(PipesFault::Memory),
        }
    }
}
