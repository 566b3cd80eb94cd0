//! A case: its openings, and the calls behind each.

use crate::key::Key;
use crate::mistake::{Mistake, WORDS};
use crate::parser;
use crate::server::Server;
use crate::worker::Worker;
use anyhow::anyhow;
use case_files::{Line, Playing};
use std::alloc::Global;

/// The calls that open something. A case begins with one of them, and may have others further on.
pub const OPENINGS: &[&str] = &["requests", "one_key", "packets", "server_replies"];

/// What is open.
#[derive(Drop)]
enum World {
    Nothing,
    /// Requests are read at this time, in milliseconds since 1970.
    Requests(u64),
    Key(Key),
    Worker(Worker),
    Server(Server),
}

fn opened(alloc: Global, line: &Line) -> Result<World, Mistake> {
    let now = line.number_named("now", 1_000_000).ok_or(WORDS)?;
    match line.call() {
        "requests" => Ok(World::Requests(now)),
        "one_key" => {
            let most = line.number_named("most", 20).ok_or(WORDS)?;
            let most = u32::try_from(most).ok().ok_or(WORDS)?;
            Ok(World::Key(Key::new(alloc, now, most)))
        }
        "packets" => Ok(World::Worker(Worker::new(alloc, line)?)),
        "server_replies" => Ok(World::Server(Server::new(alloc))),
        _ => Err(Mistake::Said("no call opens this")),
    }
}

impl World {
    fn call(&mut self, alloc: Global, line: &Line) -> Result<String, Mistake> {
        if OPENINGS.contains(&line.call()) {
            *self = opened(alloc, line)?;
            return Ok(String::new(alloc));
        }
        match self {
            World::Nothing => Err(Mistake::Said("nothing is open")),
            World::Requests(now) => parser::call(alloc, line, *now),
            World::Key(key) => key.call(line),
            World::Worker(worker) => worker.call(line),
            World::Server(server) => server.call(line),
        }
    }
}

/// What the case is told: want of memory is a reply.
fn told(alloc: Global, reply: Result<String, Mistake>) -> anyhow::Result<String> {
    match reply {
        Ok(text) => Ok(text),
        Err(Mistake::Memory) => Ok(String::from_str(alloc, "memory")?),
        Err(mistake) => Err(anyhow!("{mistake}")),
    }
}

/// Plays the case to its end. A call that a growth was refused to is made once more where `playing` wants it.
pub fn play<R: AllocGlobal>(rt: &R, alloc: Global, playing: &mut Playing<'_>) {
    let _ = rt;
    let mut world = World::Nothing;
    for _ in 0..playing.case().lines.len() {
        let Some(line) = playing.next() else {
            return;
        };
        for _ in 0..2 {
            let reply = told(alloc, world.call(alloc, line));
            if !playing.tell(line, reply) {
                break;
            }
        }
    }
}
