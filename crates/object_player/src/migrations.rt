//! Pairs on their way from one table to the next, over devices that may fail or lie.

use crate::bundles::object_of;
use crate::devices::{faults, has};
use crate::values::Value;
use crate::world::{TRIES, World, memory, nothing, run, shown, text, unknown};
use anyhow::{Result, bail};
use case_files::{Line, Playing};
use far_device::{CannedDevice, Device, FakeDevice, FaultyDevice, LyingDevice};
use far_object::Memory;
use migration::{Migration, Untaken};
use std::alloc::Global;

/// Parts of pairs of numbers.
#[derive(Drop)]
struct Parts<D: Device> {
    alloc: Global,
    parts: Migration<u64, u64, D>,
}

pub(crate) fn play(alloc: Global, first: &Line, playing: &mut Playing<'_>) -> Result<()> {
    let fake = FakeDevice::new(alloc);
    if let Some(bytes) = first.named("canned") {
        let bytes = Vec::from_slice(alloc, bytes)?;
        return play_over(alloc, CannedDevice::new(fake, bytes), first, playing);
    }
    if has(first, "lying") {
        return play_over(alloc, LyingDevice::new(fake), first, playing);
    }
    match faults(alloc, first)?.as_slice() {
        [] => play_over(alloc, fake, first, playing),
        [one] => play_over(alloc, FaultyDevice::new(fake, *one), first, playing),
        [one, two] => {
            let inner = FaultyDevice::new(fake, *one);
            play_over(alloc, FaultyDevice::new(inner, *two), first, playing)
        }
        [one, two, three] => {
            let inner = FaultyDevice::new(FaultyDevice::new(fake, *one), *two);
            play_over(alloc, FaultyDevice::new(inner, *three), first, playing)
        }
        _ => bail!("a device fails up to three calls"),
    }
}

fn play_over<D: Device>(
    alloc: Global,
    device: D,
    first: &Line,
    playing: &mut Playing<'_>,
) -> Result<()> {
    let parts = Migration::over(alloc, device)?;
    run(alloc, first, playing, &mut Parts { alloc, parts });
    Ok(())
}

/// Puts keys and values, with blanks between.
fn push_pairs(out: &mut String, pairs: &[(u64, u64)]) -> Result<()> {
    for (key, value) in pairs {
        if !out.is_empty() {
            out.push(' ')?;
        }
        key.tell(out)?;
        out.push(' ')?;
        value.tell(out)?;
    }
    Ok(())
}

impl<D: Device> Parts<D> {
    fn added(&self, added: std::result::Result<(), Memory>) -> Result<String> {
        match added {
            Ok(()) => nothing(self.alloc),
            Err(Memory) => memory(self.alloc),
        }
    }

    /// The pairs of the part that is taken, or why they are lost.
    fn take(&mut self) -> Result<String> {
        let pairs = match self.parts.take(self.alloc) {
            None => return text(self.alloc, "none"),
            Some(Err(Untaken::Memory)) => return memory(self.alloc),
            Some(Err(Untaken::Lost)) => return text(self.alloc, "object lost"),
            Some(Ok(pairs)) => pairs,
        };
        // The part is gone by now: what tells it is begun once more where a growth is refused.
        for _ in 0..TRIES {
            let mut out = String::new(self.alloc);
            if push_pairs(&mut out, &pairs).is_ok() {
                return Ok(out);
            }
        }
        memory(self.alloc)
    }
}

impl<D: Device> World for Parts<D> {
    fn call(&mut self, line: &Line) -> Result<String> {
        match line.call() {
            "add_near" => {
                let object = object_of(self.alloc, line)?;
                let added = self.parts.add_near(&object);
                self.added(added)
            }
            "add_far" => {
                let object = object_of(self.alloc, line)?;
                let added = self.parts.add_far(&object);
                self.added(added)
            }
            "take" => self.take(),
            "pass_over" => {
                self.parts.pass_over();
                nothing(self.alloc)
            }
            "near_count" => shown(self.alloc, &self.parts.near_count()),
            "far_count" => shown(self.alloc, &self.parts.far_count()),
            _ => unknown(line),
        }
    }
}
