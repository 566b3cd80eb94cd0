//! How a case of lanes is opened: over which devices.
ghost use Rattle.std.specs.Prelude.{◌≡◌, false};
ghost use Rattle.version_words.specs.Rows.{limits_of};

use super::broken_device::broken_devices;
use super::devices::{
    DeviceSettings, Signs, canned_devices, gated_devices, lying_devices, memory_devices,
};
use super::disk::disk_devices;
use super::store::Lanes;
use super::user::User;
use crate::replies::{named, no_pass, room, tell_opened};
use crate::rows::{Unvouched, entered, opened};
use anyhow::{Result, bail};
use case_files::{Line, Playing};
use far_device::Device;
use far_object::Text;
use lane_store::LaneFault;
use std::alloc::Global;
use std::marker::Brand;
use std::random::RandomSource;
use std::sync::Wait;
use std::thread::Threads;
use version_words::{Naming, Opened};

/// Plays the case of an opening `lanes`.
pub fn play<R>(rt: &R, alloc: Global, opening: &Line, playing: &mut Playing<'_>)
where
    R: RandomSource + Threads + Wait + Sync,
{
    for _ in 0..2 {
        let is_again = match asked(opening) {
            Err(mistake) => playing.tell(opening, Err(mistake)),
            Ok(asked) => match Signs::new(alloc) {
                None => tell_opened(alloc, opening, playing, false),
                Some(signs) => play_over(rt, alloc, asked, signs, opening, playing),
            },
        };
        if !is_again {
            return;
        }
    }
}

/// The kind of the devices.
fn kind(opening: &Line) -> &str {
    str::from_utf8(opening.named("device").unwrap_or(b"memory")).unwrap_or("")
}

/// What the opening asks for. What the devices of its kind don't take is left unread.
fn asked(opening: &Line) -> Result<DeviceSettings<'_>> {
    let mut asked = DeviceSettings {
        count: named(opening, "devices", 64, 1)?,
        fails_at: 0,
        fails_at_once: 0,
        bytes: &[],
    };
    match kind(opening) {
        "memory" | "disk" => asked.fails_at = named(opening, "fails_at", u64::MAX, 0)?,
        "broken" => asked.fails_at_once = named(opening, "fails_at_once", 64, 0)?,
        "canned" => asked.bytes = opening.named("bytes").unwrap_or(&[]),
        _ => {}
    }
    if let Some(lock) = opening.named("lock") {
        if lock != b"no".as_slice() || asked.count != 1 {
            bail!("`lock=no` opens one lane without a lock");
        }
    }
    Ok(asked)
}

/// Plays the case over the devices that are asked for. Answers whether the opening has to be made once more.
fn play_over<R>(
    rt: &R,
    alloc: Global,
    asked: DeviceSettings<'_>,
    signs: Signs,
    opening: &Line,
    playing: &mut Playing<'_>,
) -> bool
where
    R: RandomSource + Threads + Wait + Sync,
{
    match kind(opening) {
        "memory" => {
            let devices = memory_devices(alloc, asked, &signs);
            over(rt, alloc, devices, signs, opening, playing)
        }
        "lying" => {
            let devices = lying_devices(alloc, asked);
            over(rt, alloc, devices, signs, opening, playing)
        }
        "canned" => {
            let devices = canned_devices(alloc, asked);
            over(rt, alloc, devices, signs, opening, playing)
        }
        "gated" => {
            let devices = gated_devices(alloc, asked, &signs);
            over(rt, alloc, devices, signs, opening, playing)
        }
        "broken" => {
            let devices = broken_devices(alloc, asked);
            over(rt, alloc, devices, signs, opening, playing)
        }
        "disk" => match disk_devices(rt, alloc, asked, &signs) {
            Ok(devices) => over(rt, alloc, devices, signs, opening, playing),
            Err(mistake) => playing.tell(opening, Err(mistake)),
        },
        _ => playing.tell(opening, no_device()),
    }
}

fn no_device<T>() -> Result<T> {
    bail!("the devices are memory, lying, canned, gated, broken and disk")
}

/// The same over these devices. There are none where memory was refused.
fn over<D: Device + Send, R: Threads + Wait + Sync>(
    rt: &R,
    alloc: Global,
    devices: Option<Vec<D>>,
    signs: Signs,
    opening: &Line,
    playing: &mut Playing<'_>,
) -> bool {
    let Some(devices) = devices else {
        return tell_opened(alloc, opening, playing, false);
    };
    match opened::<Unvouched>(alloc, opening) {
        Err(mistake) => playing.tell(opening, Err(mistake)),
        Ok(None) => tell_opened(alloc, opening, playing, false),
        Ok(Some(row)) => {
            play_in::<Brand, D, R>(rt, alloc, row, devices, signs, opening, playing)
        }
    }
}

/// What is replied where no lane can be opened.
fn fault_text(out: String, fault: LaneFault) -> Result<String> {
    let mut out = out;
    write!(out, "{fault}")?;
    Ok(out)
}

fn play_in<J: Naming + Send + Sync, D: Device + Send, R: Threads + Wait + Sync>(
    rt: &R,
    alloc: Global,
    opened: Opened<Text, Text, Unvouched>,
    devices: Vec<D>,
    signs: Signs,
    opening: &Line,
    playing: &mut Playing<'_>,
) -> bool
    requires book { opened.book ≡ J.book }
    requires boards { opened.names ≡ J.names }
    requires limits { limits_of opened.sizes false ≡ J.limits }
{
    let words = opened.named::<J>();
    let Ok(out) = room(alloc) else {
        return tell_opened(alloc, opening, playing, false);
    };
    let is_locked = opening.named("lock").is_none();
    let lanes: Lanes<J, D> = match Lanes::open(alloc, devices, is_locked) {
        Ok(Ok(lanes)) => lanes,
        Ok(Err(fault)) => return playing.tell(opening, fault_text(out, fault)),
        Err(mistake) => return playing.tell(opening, Err(mistake)),
    };
    let Some(pass) = entered(&words) else {
        return playing.tell(opening, no_pass());
    };
    tell_opened(alloc, opening, playing, true);
    let mut user = User::new(alloc, words, pass, lanes, signs);
    user.play(rt, playing);
    false
}
