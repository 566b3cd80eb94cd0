//! `first_map [FOLDER]`: two threads put, get and count in one map, and print what they saw.
//! The scratch files of the map are in the folder, or in the temporary folder of the system.
#![tactic(auto)]

use anyhow::{Result, bail};
use far_map::{Calls, Settings, Text, Updated, Work, run, text};
use file_device::FileDevice;
use std::alloc::Global;
use std::env;
use std::sync::Wait;

struct Counting;

/// The number in a value of eight bytes, or 0 if there is no value.
fn number_in(value: Option<&Text>) -> u64 {
    match value.and_then(|value| value.as_bytes().first_chunk::<8>()) {
        Some(bytes) => u64::from_be_bytes(*bytes),
        None => 0,
    }
}

impl Work<Text> for Counting {
    /// How many pairs the worker saw.
    type Out = Result<u64>;

    fn work<S: Calls<Text>, R: Wait>(
        &self,
        rt: &R,
        alloc: Global,
        _worker: u32,
        me: &mut S,
    ) -> Result<u64> {
        let (count, saturn) = (text(alloc, b"count")?, text(alloc, b"Saturn")?);
        for number in 0..100 {
            let planet = format!(in alloc; "planet {number}")?;
            me.put(rt, &text(alloc, planet.as_bytes())?, &saturn)?;
        }
        if me.get(rt, &text(alloc, b"planet 7")?)?.is_none() {
            bail!("planet 7 is missing");
        }
        for _ in 0..1_000 {
            // The next number, or none if an allocation fails.
            let next = |value: Option<&Text>| {
                text(alloc, &number_in(value).saturating_add(1).to_be_bytes()).ok()
            };
            match me.update(rt, &count, next)? {
                Updated::Set(_) => {}
                Updated::Left(_) => bail!("an allocation failed"),
                Updated::Overtaken => bail!("the count was changed by others all the time"),
            }
        }
        let mut seen: u64 = 0;
        me.for_each(rt, &mut |_key, _value| seen = seen.saturating_add(1))?;
        Ok(seen)
    }
}

fn main(rt: HostRuntime) -> Result<()> {
    let alloc = rt.alloc();
    let device = match env::args(&rt)?.nth(1) {
        Some(folder) => FileDevice::open(rt, &folder, 0)?,
        None => FileDevice::open(rt, env::temp_dir(&rt)?.as_str(), 0)?,
    };
    // 64 buckets, frames for 8 of them, and at most 4,096 bytes of pairs in a bucket.
    let settings = Settings::new(64, 8, 4_096);
    let (outs, pairs) = run(&rt, alloc, settings, vec![in alloc; device]?, 2, &Counting)?;
    for seen in outs {
        println!(rt; "a worker saw {} pairs", seen?)?;
    }
    for (key, value) in &pairs {
        if key.as_bytes() == b"count".as_slice() {
            println!(rt; "count {}", number_in(Some(value)))?;
        }
    }
    Ok(())
}
