//! Gets of several keys at once, beside as many single ones, with a frame and a key for each bucket.

use crate::stopwatch::{HEAD, Runner, alone, print, vec_from_fn};
use anyhow::{Result, bail};
use far_device::FakeDevice;
use far_map::{Calls, Settings, Work, run_apart};
use far_object::Text;
use std::alloc::Global;
use std::rt::Clock;
use std::sync::Wait;
use std::thread::Threads;

/// The most bytes of a bucket's pairs.
const LIMIT: u32 = 4_096;

/// Bytes of a value.
const VALUE: usize = 64;

/// How many devices there are.
const LANES: u32 = 16;

/// The keys of one call.
const TOGETHER: usize = 16;

/// How often both are measured, in turn.
const TURNS: u32 = 5;

/// The key of this number.
fn key_of(alloc: Global, number: u32) -> Result<Text> {
    let mut bytes = [b'k'; 16];
    bytes[..4].copy_from_slice(&number.to_le_bytes());
    Ok(Text::new(alloc, &bytes)?)
}

/// The keys of so many gets, drawn evenly, in the order of the calls.
fn draw(alloc: Global, keys: u32, count: u32, seed: u32) -> Result<Vec<Text>> {
    let state = u64::from(seed)
        .wrapping_mul(0x9e37_79b9_7f4a_7c15)
        .wrapping_add(1);
    vec_from_fn(alloc, count, |number| {
        let mut x = state.wrapping_add(u64::from(number).wrapping_mul(0x9e37_79b9_7f4a_7c15));
        x = (x ^ (x >> 30)).wrapping_mul(0xbf58_476d_1ce4_e5b9);
        x = (x ^ (x >> 27)).wrapping_mul(0x94d0_49bb_1331_11eb);
        key_of(
            alloc,
            ((x >> 32).wrapping_mul(u64::from(keys)) >> 32) as u32,
        )
    })
}

/// How a worker gets its keys.
#[derive(Clone, Copy)]
enum Way {
    Single,
    Together,
}

/// A session that gets keys, so many in a call.
#[derive(Drop)]
struct Getter<'a, S: Calls<Text>> {
    me: &'a mut S,
    keys: &'a [Text],
    way: Way,
}

impl<S: Calls<Text>> Runner<()> for Getter<'_, S> {
    fn call<R: Wait>(&mut self, rt: &R, _shared: &(), number: u32) -> bool {
        let from = (number as usize).wrapping_mul(TOGETHER);
        let Some(keys) = self.keys.get(from..from.wrapping_add(TOGETHER)) else {
            return false;
        };
        match self.way {
            Way::Together => self.me.get_many(rt, keys).is_ok(),
            Way::Single => {
                let mut done = true;
                for key in keys {
                    if !matches!(self.me.get(rt, key), Ok(Some(_))) {
                        done = false;
                    }
                }
                done
            }
        }
    }
}

/// The work of the one thread, which tells by the program's own handle.
#[derive(Drop)]
struct Many<'a> {
    host: &'a HostRuntime,
    keys: u32,
    rounds: u32,
}

impl Work<Text> for Many<'_> {
    type Out = Result<()>;

    fn work<S: Calls<Text>, R: Wait>(
        &self,
        rt: &R,
        alloc: Global,
        _worker: u32,
        me: &mut S,
    ) -> Result<()> {
        let value = Text::new(alloc, &[7; VALUE])?;
        for number in 0..self.keys {
            me.put(rt, &key_of(alloc, number)?, &value)?;
        }
        println!(self.host; "{HEAD}")?;
        let calls = self.rounds / TOGETHER as u32;
        for turn in 0..TURNS {
            let keys = draw(alloc, self.keys, self.rounds, turn)?;
            for (name, way) in [("16 gets", Way::Single), ("get_many", Way::Together)] {
                let keys = keys.as_slice();
                let getter = Getter { me, keys, way };
                let span = alone(self.host, rt, &(), getter, calls)?;
                print(self.host, name, 1, calls, span)?;
            }
        }
        Ok(())
    }
}

/// Prints the nanoseconds of 16 gets, and of a get of 16 keys, on a map of so many keys and buckets.
///
/// An error comes where memory, the clock or the output fails, or the count is outside its limits.
pub fn measure<R: Threads + Wait + Sync>(
    rt: &R,
    host: &HostRuntime,
    keys: u32,
    rounds: u32,
) -> Result<()> {
    let alloc = host.alloc();
    let settings = Settings::new(keys, keys, LIMIT);
    let devices = vec_from_fn(alloc, LANES, |_| Ok(FakeDevice::new(alloc)))?;
    let work = Many { host, keys, rounds };
    match run_apart(rt, alloc, settings, devices, 1, &work) {
        Ok(outs) => {
            for out in outs {
                out?;
            }
            Ok(())
        }
        Err(fault) => bail!("no map: {fault}"),
    }
}
