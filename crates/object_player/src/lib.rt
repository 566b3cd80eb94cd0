//! Plays the cases of objects and of devices: `tests/cases/objects` and `tests/cases/devices`.
#![tactic(auto)]

mod bundles;
mod calls;
mod damage;
mod devices;
mod disks;
mod encodings;
mod folders;
mod kept_files;
mod keyed_digests;
mod logs;
mod many;
mod migrations;
mod numbers;
mod objects;
mod orders;
mod peers;
mod pipes;
mod recorded_files;
mod replies;
mod requests;
mod runs;
mod stores;
mod values;
mod words;
mod world;

use anyhow::{Result, bail};
use case_files::{Line, Playing};
use std::alloc::Global;
use std::fs::File;
use std::random::RandomSource;
use std::rt::{Env, Files};
use std::thread::Threads;

/// The calls that a case of this layer may begin with.
pub const OPENINGS: &[&str] = &[
    "object",
    "encoding",
    "pairs",
    "many",
    "log",
    "words",
    "migration",
    "device",
    "folders",
    "digests",
    "pipes",
    "resp",
];

/// Plays the case from its first line, which opens what the others call. Files are opened by `host`.
pub fn play<R>(rt: &R, host: HostRuntime, alloc: Global, playing: &mut Playing<'_>)
where
    R: AllocGlobal + Env + Files<File = File> + RandomSource + Threads + Copy + Drop + Send + Sync,
{
    let Some(first) = playing.next() else {
        return;
    };
    for _ in 0..2 {
        let Err(mistake) = open(rt, host, alloc, first, playing) else {
            return;
        };
        let reply = world::refused_or(alloc, Err(mistake));
        if !playing.tell(first, reply) {
            return;
        }
    }
}

/// Opens what the line says, and plays the rest of the case.
fn open<R>(
    rt: &R,
    host: HostRuntime,
    alloc: Global,
    first: &Line,
    playing: &mut Playing<'_>,
) -> Result<()>
where
    R: AllocGlobal + Env + Files<File = File> + RandomSource + Threads + Copy + Drop + Send + Sync,
{
    match first.call() {
        "object" => objects::play(alloc, first, playing),
        "encoding" => encodings::play(alloc, first, playing),
        "pairs" => bundles::play(rt, alloc, first, playing),
        "many" => many::play(rt, alloc, first, playing),
        "log" => logs::play(alloc, first, playing),
        "words" => words::play(alloc, first, playing),
        "migration" => migrations::play(alloc, first, playing),
        "device" => devices::play(rt, host, alloc, first, playing),
        "folders" => folders::play(host, alloc, first, playing),
        "digests" => keyed_digests::play(rt, alloc, first, playing),
        "pipes" => pipes::play(rt, alloc, first, playing),
        "resp" => requests::play(alloc, first, playing),
        _ => bail!("nothing is opened by this call"),
    }
}
