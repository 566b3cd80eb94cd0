//! What goes between the gateway and the workers, in memory.
ghost use Rattle.std.specs.Io.{ReadsAtMost, WritesAtMost};

use anyhow::Result;
use std::alloc::Global;
use std::collections::VecDeque;
use std::io;
use std::io::{Read, Write};
use std::rt::Clock;
use std::sync::{Condvar, CondvarTimeouts, Mutex, Wait};
use std::time::Duration;

/// What goes between the gateway and a worker.
#[derive(Drop)]
struct Wire {
    /// What the gateway sent and the worker has not read.
    requests: VecDeque<u8>,
    /// Whether nothing comes behind that.
    is_over: bool,
    /// What the worker wrote and the gateway has not read.
    replies: VecDeque<u8>,
}

/// What goes between the gateway and all workers.
#[derive(Drop)]
struct Whole {
    wires: Vec<Wire>,
    /// How the workers have ended, once the server has.
    ends: Option<String>,
}

impl Whole {
    /// Whether the worker has nothing to read, and may have later.
    fn is_silent(&self, worker: usize) -> bool {
        match self.wires.get(worker) {
            Some(wire) => wire.requests.is_empty() && !wire.is_over,
            None => false,
        }
    }

    /// Moves what a worker wrote behind these bytes.
    fn hand_over(&mut self, worker: usize, unread: &mut Vec<u8>) -> Result<()> {
        let Some(wire) = self.wires.get_mut(worker) else {
            return Ok(());
        };
        let (front, back) = wire.replies.as_slices();
        unread.extend_from_slice(front)?;
        unread.extend_from_slice(back)?;
        wire.replies.clear();
        Ok(())
    }

    /// Whether no worker wrote anything, and the server goes on.
    fn is_quiet(&self) -> bool {
        self.ends.is_none() && self.wires.iter().all(|wire| wire.replies.is_empty())
    }
}

/// What goes between the gateway and all workers, which they share.
#[derive(Drop)]
pub struct Wires {
    whole: Mutex<Whole>,
    /// Something was written, or has ended.
    news: Condvar,
}

impl Wires {
    /// Of so many workers.
    pub fn new(alloc: Global, workers: u32) -> Result<Wires> {
        let mut wires = Vec::new(alloc);
        for _ in 0..workers {
            wires.push(Wire {
                requests: VecDeque::new(alloc),
                is_over: false,
                replies: VecDeque::new(alloc),
            })?;
        }
        Ok(Wires {
            whole: Mutex::new(Whole { wires, ends: None }),
            news: Condvar::new(),
        })
    }

    /// The gateway writes to a worker, unless it has closed that pipe.
    pub fn send<R: Wait>(&self, rt: &R, worker: usize, bytes: &[u8]) -> Result<()> {
        let mut whole = self.whole.lock(rt);
        if let Some(wire) = whole.wires.get_mut(worker) {
            if !wire.is_over {
                wire.requests.write_all(bytes)?;
            }
        }
        drop(whole);
        self.news.notify_all();
        Ok(())
    }

    /// The gateway writes no more to a worker.
    pub fn close<R: Wait>(&self, rt: &R, worker: usize) {
        let mut whole = self.whole.lock(rt);
        if let Some(wire) = whole.wires.get_mut(worker) {
            wire.is_over = true;
        }
        drop(whole);
        self.news.notify_all();
    }

    /// The gateway reads what the workers wrote, behind what it has of each. It waits so long where they wrote nothing: whether something
    /// came, or the server has ended.
    pub fn receive<R: Wait + Clock>(
        &self,
        rt: &R,
        patience: Duration,
        unread: &mut [Vec<u8>],
    ) -> Result<bool> {
        let whole = self.whole.lock(rt);
        let (mut whole, waited) = self
            .news
            .wait_timeout_while(rt, whole, patience, |whole| whole.is_quiet());
        for (worker, unread) in unread.iter_mut().enumerate() {
            whole.hand_over(worker, unread)?;
        }
        Ok(!waited.timed_out())
    }

    /// Whether the server has ended.
    pub fn is_ended<R: Wait>(&self, rt: &R) -> bool {
        self.whole.lock(rt).ends.is_some()
    }

    /// How the workers have ended: none where the server goes on for so long.
    pub fn ends<R: Wait + Clock>(&self, rt: &R, patience: Duration) -> Option<String> {
        let whole = self.whole.lock(rt);
        let (mut whole, _) = self
            .news
            .wait_timeout_while(rt, whole, patience, |whole| whole.ends.is_none());
        whole.ends.take()
    }

    /// The server has ended so.
    pub fn end<R: Wait>(&self, rt: &R, ends: String) {
        let mut whole = self.whole.lock(rt);
        whole.ends = Some(ends);
        drop(whole);
        self.news.notify_all();
    }

    /// A worker reads. It waits until there is something, or nothing comes any more.
    pub fn read<R: Wait>(&self, rt: &R, worker: usize, out: &mut [u8]) -> io::Result<usize>
        ensures { ReadsAtMost result out.new }
    {
        let whole = self.whole.lock(rt);
        let mut whole = self
            .news
            .wait_while(rt, whole, |whole| whole.is_silent(worker));
        match whole.wires.get_mut(worker) {
            Some(wire) => wire.requests.read(out),
            None => Ok(0),
        }
    }

    /// A worker writes.
    pub fn write<R: Wait>(&self, rt: &R, worker: usize, bytes: &[u8]) -> io::Result<usize>
        ensures { WritesAtMost result bytes.now }
    {
        let mut whole = self.whole.lock(rt);
        let written = match whole.wires.get_mut(worker) {
            Some(wire) => wire.replies.write(bytes),
            None => Ok(0),
        };
        drop(whole);
        self.news.notify_all();
        written
    }
}
