//! The line that opens a map: its settings, its workers and its devices.

use crate::device::{Gate, MapDevice, device};
use crate::replies::Stop;
use crate::words::{is_named, number_named};
use case_files::Line;
use far_map::Settings;
use std::alloc::{AllocError, Global};
use std::sync::Arc;

/// The most workers, which have the letters as names.
const MOST_THREADS: u32 = 26;

/// The most devices that a case opens. A map takes one less.
const MOST_DEVICES: u32 = 65;

/// How a map's run ends, and what it gives.
#[derive(Clone, Copy, Debug, PartialEq, Eq)]
pub enum Kind {
    /// All pairs in key order.
    Pairs,
    /// Nothing.
    Apart,
    /// The same, in bundles that are lent in key order.
    Bundled,
    /// The pairs of one bucket behind those of another, to a taker.
    Through,
    /// How much was lost between its generations.
    Renewed,
}

/// What an opening line says.
#[derive(Drop)]
pub struct Opening<'l> {
    pub kind: Kind,
    pub settings: Settings,
    pub threads: u32,
    /// Whether values are blobs, and not texts.
    pub is_of_blobs: bool,
    /// How many buckets the taker takes.
    pub takes: u32,
    is_broken: bool,
    devices: u32,
    /// Which write, read or removal of each device fails, and of the device of the migration.
    fails: u32,
    spool_fails: u32,
    /// How many reads of the device of the migration are refused for want of memory.
    spool_short: u32,
    /// What each read gives in place of what was written.
    gives: Option<&'l [u8]>,
}

fn kind_of(line: &Line) -> Kind {
    if line.call() == "map_apart" {
        return Kind::Apart;
    }
    if line.call() == "map_bundled" {
        return Kind::Bundled;
    }
    if line.call() == "map_through" {
        return Kind::Through;
    }
    if line.call() == "map_renewed" {
        Kind::Renewed
    } else {
        Kind::Pairs
    }
}

/// The settings of a line: those for its memory where it has one, and else 16 buckets, 4 frames and objects
/// of 4,096 bytes where it says nothing else.
fn settings_of(line: &Line) -> Result<Settings, Stop> {
    let buckets = number_named(line, "buckets", 16)?;
    let frames = number_named(line, "frames", 4)?;
    let limit = number_named(line, "limit", 4_096)?;
    let mut settings = match line.number_named("memory", 0) {
        Some(memory) if line.named("memory").is_some() => {
            let pairs = line.number_named("pairs", 0).unwrap_or(0);
            Settings::for_memory(memory, pairs, number_named(line, "pair", 0)?)
        }
        _ => Settings::new(buckets, frames, limit),
    };
    settings.passes = number_named(line, "passes", settings.passes)?;
    settings.spares = number_named(line, "spares", settings.spares)?;
    settings.format = number_named(line, "format", settings.format)?;
    let names = line.number_named("names", settings.names);
    let bytes = line.number_named("bytes", settings.bytes);
    settings.names = names.ok_or(Stop::Mistake("names= is a number"))?;
    settings.bytes = bytes.ok_or(Stop::Mistake("bytes= is a number"))?;
    Ok(settings)
}

impl<'l> Opening<'l> {
    /// Reads an opening line.
    pub fn read(line: &'l Line) -> Result<Opening<'l>, Stop> {
        let opening = Opening {
            kind: kind_of(line),
            settings: settings_of(line)?,
            threads: number_named(line, "threads", 1)?,
            is_of_blobs: line.named("values") == Some(b"blobs".as_slice()),
            takes: number_named(line, "takes", u32::MAX)?,
            is_broken: is_named(line, "broken"),
            devices: number_named(line, "devices", 1)?,
            fails: number_named(line, "fails", 0)?,
            spool_fails: number_named(line, "spool_fails", 0)?,
            spool_short: number_named(line, "spool_short", 0)?,
            gives: line.named("gives"),
        };
        if opening.threads > MOST_THREADS {
            return Err(Stop::Mistake("threads= is 26 at most"));
        }
        if opening.devices > MOST_DEVICES {
            return Err(Stop::Mistake("devices= is 65 at most"));
        }
        let is_plain = opening.kind == Kind::Pairs || opening.kind == Kind::Apart;
        if opening.is_of_blobs && !is_plain {
            return Err(Stop::Mistake("values=blobs is for map and map_apart"));
        }
        Ok(opening)
    }

    /// What the case sees and sets of the devices.
    pub fn gate(&self, alloc: Global) -> Result<Arc<Gate>, AllocError> {
        Ok(Arc::new(alloc, Gate::new(self.is_broken, 0))?)
    }

    /// The devices, behind this gate.
    pub fn devices(&self, alloc: Global, gate: &Arc<Gate>) -> Result<Vec<MapDevice>, AllocError> {
        let mut devices = Vec::new(alloc);
        for _ in 0..self.devices {
            let canned = match self.gives {
                Some(bytes) => Some(Vec::from_slice(alloc, bytes)?),
                None => None,
            };
            let one = device(alloc, u64::from(self.fails), canned, gate.clone()?);
            devices.push(one)?;
        }
        Ok(devices)
    }

    /// The device of the migration, behind a gate of its own.
    pub fn spool(&self, alloc: Global) -> Result<MapDevice, AllocError> {
        let gate = Arc::new(alloc, Gate::new(false, u64::from(self.spool_short)))?;
        Ok(device(alloc, u64::from(self.spool_fails), None, gate))
    }
}
