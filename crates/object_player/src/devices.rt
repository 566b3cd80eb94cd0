//! Devices in the process, in files and in a store, and those that wrap them.

use crate::calls::{BrokenDevice, call};
use crate::disks::{Disks, FlawedDisk, flaw_of};
use crate::recorded_files::{Notes, Recorded, RecordedFolder};
use crate::world::{World, run, shown};
use crate::{kept_files, stores};
use anyhow::{Result, bail};
use case_files::{Line, Playing};
use far_device::{CannedDevice, Device, FakeDevice, FaultyDevice, LyingDevice, WatchedDevice};
use file_device::{FileDevice, FileDisk, MemoryDisk};
use std::alloc::Global;
use std::env;
use std::fs::File;
use std::hash::RandomState;
use std::random::RandomSource;
use std::rt::{Env, Files};
use std::sync::atomic::{AtomicU64, Ordering};
use std::sync::{Arc, Mutex};

/// A device alone.
#[derive(Drop)]
struct Alone<D: Device> {
    alloc: Global,
    device: D,
}

impl<D: Device> World for Alone<D> {
    fn call(&mut self, line: &Line) -> Result<String> {
        call(self.alloc, &mut self.device, line)
    }
}

/// A device that tells others of its writes and failures.
#[derive(Drop)]
struct Watched<D: Device> {
    alloc: Global,
    device: WatchedDevice<D>,
    writes: Arc<AtomicU64>,
    failures: Arc<AtomicU64>,
}

impl<D: Device> World for Watched<D> {
    fn call(&mut self, line: &Line) -> Result<String> {
        match line.call() {
            "told_writes" => shown(self.alloc, &self.writes.load(Ordering::SeqCst)),
            "told_failures" => shown(self.alloc, &self.failures.load(Ordering::SeqCst)),
            _ => call(self.alloc, &mut self.device, line),
        }
    }
}

/// A device behind a lock that threads can share.
#[derive(Drop)]
pub(crate) struct Locked<D: Device> {
    alloc: Global,
    device: Mutex<D>,
}

impl<D: Device> World for Locked<D> {
    fn call(&mut self, line: &Line) -> Result<String> {
        call(self.alloc, self.device.get_mut(), line)
    }
}

/// The device behind a lock that threads can share.
pub(crate) fn behind_lock<D: Device + Send>(alloc: Global, device: D) -> Locked<D> {
    Locked {
        alloc,
        device: Mutex::new(device),
    }
}

/// The numbers of the calls that fail, each counted by a device of its own, the innermost first.
pub(crate) fn faults(alloc: Global, first: &Line) -> Result<Vec<u64>> {
    let mut faults = Vec::new(alloc);
    let Some(words) = first.named("fails") else {
        return Ok(faults);
    };
    for word in words.split(|byte| *byte == b',') {
        let text = str::from_utf8(word).unwrap_or("");
        match text.parse::<u64>() {
            Ok(number) => faults.push(number)?,
            Err(_) => bail!("fails= has numbers with a comma between two"),
        }
    }
    Ok(faults)
}

pub(crate) fn has(first: &Line, name: &str) -> bool {
    first.has(name)
}

pub(crate) fn play<R>(
    rt: &R,
    host: HostRuntime,
    alloc: Global,
    first: &Line,
    playing: &mut Playing<'_>,
) -> Result<()>
where
    R: AllocGlobal + Env + Files<File = File> + RandomSource + Copy + Drop + Send + Sync,
{
    match first.word(1) {
        Some(b"fake") => wrapped(alloc, FakeDevice::new(alloc), first, playing),
        Some(b"broken") => {
            let Some(failures) = first.number_named("failures", 0) else {
                bail!("failures= is a number");
            };
            wrapped(alloc, BrokenDevice::new(failures), first, playing)
        }
        Some(b"nested") => nested(alloc, first, playing),
        Some(b"memory") => in_memory(rt, alloc, first, playing),
        Some(b"file") => in_files(host, alloc, first, playing),
        Some(b"flawed") => flawed(rt, alloc, first, playing),
        Some(b"recorded") => recorded(rt, alloc, first, playing),
        Some(b"store") => stores::play_store(rt, alloc, first, playing),
        Some(b"peer") => stores::play_peer(rt, alloc, first, playing),
        _ => bail!(
            "a device is fake, broken, nested, memory, file, flawed, recorded, store or peer"
        ),
    }
}

/// Each kind of device that wraps others, one in another, behind a lock.
fn nested(alloc: Global, first: &Line, playing: &mut Playing<'_>) -> Result<()> {
    let bytes = Vec::from_slice(alloc, first.named("canned").unwrap_or(&[]))?;
    let canned = CannedDevice::new(FakeDevice::new(alloc), bytes);
    let faulty = FaultyDevice::new(LyingDevice::new(canned), 0);
    let (writes, failures) = (
        Arc::new(alloc, AtomicU64::new(0))?,
        Arc::new(alloc, AtomicU64::new(0))?,
    );
    let watched = WatchedDevice::new(faulty, writes, failures);
    run(alloc, first, playing, &mut behind_lock(alloc, watched));
    Ok(())
}

fn in_memory<R: RandomSource>(
    rt: &R,
    alloc: Global,
    first: &Line,
    playing: &mut Playing<'_>,
) -> Result<()> {
    let device = FileDevice::new(alloc, MemoryDisk::new(alloc), RandomState::new(rt)?);
    if is_wrapped(first) {
        return wrapped(alloc, device, first, playing);
    }
    run(alloc, first, playing, &mut Disks { alloc, device });
    Ok(())
}

/// In scratch files, in the system's folder for such.
fn in_files(rt: HostRuntime, alloc: Global, first: &Line, playing: &mut Playing<'_>) -> Result<()> {
    if has(first, "kept") {
        return kept_files::play(rt, alloc, first, playing);
    }
    let folder = env::temp_dir(&rt)?;
    let device = FileDevice::open(rt, folder.as_str(), 3)?;
    if is_wrapped(first) {
        return wrapped(alloc, device, first, playing);
    }
    run(alloc, first, playing, &mut Disks { alloc, device });
    Ok(())
}

fn flawed<R: RandomSource>(
    rt: &R,
    alloc: Global,
    first: &Line,
    playing: &mut Playing<'_>,
) -> Result<()> {
    let Some(every) = first.number_named("every", 1) else {
        bail!("every= is a number");
    };
    let disk = FlawedDisk::new(alloc, flaw_of(first)?, every);
    let device = FileDevice::new(alloc, disk, RandomState::new(rt)?);
    run(alloc, first, playing, &mut Disks { alloc, device });
    Ok(())
}

/// In files that note their calls. If the first file can't be made, the opening fails.
fn recorded<R: RandomSource>(
    rt: &R,
    alloc: Global,
    first: &Line,
    playing: &mut Playing<'_>,
) -> Result<()> {
    let Some(fails) = first.number_named("fails", 0) else {
        bail!("fails= is a number");
    };
    let notes = Arc::new(alloc, Notes::new(fails))?;
    let folder = RecordedFolder {
        alloc,
        notes: notes.clone()?,
    };
    let device = FileDevice::new(alloc, FileDisk::new(alloc, folder)?, RandomState::new(rt)?);
    let mut world = Recorded {
        alloc,
        device,
        notes,
    };
    run(alloc, first, playing, &mut world);
    Ok(())
}

fn is_wrapped(first: &Line) -> bool {
    has(first, "lying")
        || has(first, "watched")
        || first.named("canned").is_some()
        || first.named("fails").is_some()
}

/// The device, in those that wrap it as the line says.
fn wrapped<D: Device>(
    alloc: Global,
    device: D,
    first: &Line,
    playing: &mut Playing<'_>,
) -> Result<()> {
    if let Some(bytes) = first.named("canned") {
        let bytes = Vec::from_slice(alloc, bytes)?;
        return with_watcher(alloc, CannedDevice::new(device, bytes), first, playing);
    }
    if has(first, "lying") {
        return with_watcher(alloc, LyingDevice::new(device), first, playing);
    }
    match faults(alloc, first)?.as_slice() {
        [] => with_watcher(alloc, device, first, playing),
        [one] => with_watcher(alloc, FaultyDevice::new(device, *one), first, playing),
        [one, two] => {
            let inner = FaultyDevice::new(device, *one);
            with_watcher(alloc, FaultyDevice::new(inner, *two), first, playing)
        }
        _ => bail!("a device fails up to two calls"),
    }
}

fn with_watcher<D: Device>(
    alloc: Global,
    device: D,
    first: &Line,
    playing: &mut Playing<'_>,
) -> Result<()> {
    if !has(first, "watched") {
        run(alloc, first, playing, &mut Alone { alloc, device });
        return Ok(());
    }
    let writes = Arc::new(alloc, AtomicU64::new(0))?;
    let failures = Arc::new(alloc, AtomicU64::new(0))?;
    let device = WatchedDevice::new(device, writes.clone()?, failures.clone()?);
    let mut world = Watched {
        alloc,
        device,
        writes,
        failures,
    };
    run(alloc, first, playing, &mut world);
    Ok(())
}
