//! Who waits for a thread that stays in a device.
use super::user::User;
use crate::holdings::{Drawn, Numbered, place_in};
use anyhow::{Result, bail};
use far_device::{Device, DeviceFault};
use far_object::{Format, Text};
use lane_store::LaneStore;
use std::alloc::Global;
use std::marker::Model;
use std::sync::atomic::AtomicU64;
use std::sync::atomic::Ordering::SeqCst;
use std::sync::{Arc, Wait};
use std::thread::{Threads, join, yield_now};
use version_words::Naming;

/// How often a thread looks for another's sign before it gives up.
const TURNS: u32 = 10_000_000;

/// Signs between threads, each raised once.
#[derive(Drop)]
pub struct Gate {
    inside: AtomicU64,
    asking: AtomicU64,
    open: AtomicU64,
}

impl Gate {
    pub fn shut() -> Gate {
        Gate {
            inside: AtomicU64::new(0),
            asking: AtomicU64::new(0),
            open: AtomicU64::new(0),
        }
    }
}

// Whether the sign was raised within the turns.
fn comes(sign: &AtomicU64) -> bool {
    for _ in 0..TURNS {
        if sign.load(SeqCst) == 1 {
            return true;
        }
        yield_now();
    }
    false
}

/// A device that stays in a write until the gate is open, if it has a gate.
#[derive(Drop)]
pub struct GatedDevice<D> {
    inner: D,
    gate: Option<Arc<Gate>>,
}

impl<D: Device> GatedDevice<D> {
    pub fn new(inner: D, gate: Option<Arc<Gate>>) -> GatedDevice<D> {
        GatedDevice { inner, gate }
    }
}

impl<D> Model for GatedDevice<D> {
    ghost Value = { D };

    ghost coded = { D.code };

    ghost view = { λ d. d.inner };
}

impl<D: Device> Device for GatedDevice<D> {
    ghost state = { D.state };

    ghost HONEST = { D.HONEST };

    fn construct(&mut self) -> Result<(), DeviceFault> {
        self.inner.construct()
    }

    fn write(&mut self, id: u64, bytes: &[u8]) -> Result<(), DeviceFault> {
        if let Some(gate) = &self.gate {
            gate.inside.store(1, SeqCst);
            comes(&gate.open);
        }
        self.inner.write(id, bytes)
    }

    fn read(&mut self, id: u64, out: &mut Vec<u8>) -> Result<bool, DeviceFault> {
        self.inner.read(id, out)
    }

    fn remove(&mut self, id: u64) -> Result<bool, DeviceFault> {
        self.inner.remove(id)
    }

    fn failures(&self) -> u64 {
        self.inner.failures()
    }
}

/// What three threads have: the lanes, the names of two lanes, and the gate of the first name's lane.
#[derive(Clone, Copy)]
struct Beside<'a, J: Naming, D: Device> {
    alloc: Global,
    lanes: &'a LaneStore<Text, Text, J, D>,
    one: &'a Drawn<J>,
    two: &'a Drawn<J>,
    gate: &'a Gate,
}

fn is_written<J: Naming, D: Device, R: Wait>(
    rt: &R,
    beside: &Beside<'_, J, D>,
    drawn: &Drawn<J>,
) -> bool {
    beside
        .lanes
        .write(rt, &drawn.name, &drawn.object, Format::One)
        .is_ok()
}

/// Whether a write to the other lane comes back while the first device still holds its own. Then the gate is opened.
fn is_free_beside<J: Naming, D: Device, R: Wait>(rt: &R, beside: &Beside<'_, J, D>) -> bool {
    let is_inside = comes(&beside.gate.inside);
    let is_written = is_written(rt, beside, beside.two);
    let is_asking = comes(&beside.gate.asking);
    beside.gate.open.store(1, SeqCst);
    is_inside && is_written && is_asking
}

/// Whether a read of the first lane, asked for while its device holds it, comes back with what was written then, and only
/// after the gate was opened.
fn is_read_after<J: Naming, D: Device, R: Wait>(rt: &R, beside: &Beside<'_, J, D>) -> bool {
    let is_inside = comes(&beside.gate.inside);
    beside.gate.asking.store(1, SeqCst);
    let mut bytes = Vec::new(beside.alloc);
    let is_found = match beside.lanes.read(rt, beside.one.number(), &mut bytes) {
        Ok(Some(receipt)) => receipt.number() == beside.one.number() && receipt.bucket() == 0,
        _ => false,
    };
    is_inside && is_found && beside.gate.open.load(SeqCst) == 1
}

/// A thread writes to the first lane, whose device stays until the gate is open, while one writes to the other and one reads
/// of the first. Whether the first write came back, and what is said of the other two.
fn by_three<J: Naming + Send + Sync, D: Device + Send, R: Threads + Wait + Sync>(
    rt: &R,
    beside: &Beside<'_, J, D>,
) -> (bool, (bool, bool)) {
    join(
        rt,
        || is_written(rt, beside, beside.one),
        || join(
            rt,
            || is_free_beside(rt, beside),
            || is_read_after(rt, beside),
        ),
    )
}

/// Writes the first name's object, whose device stays in the write until its gate is open. Meanwhile one thread writes the second
/// name's object and then opens the gate, and another reads the first name's. Replies whether the first write came back, whether
/// the second did before the gate was open, and whether the read came back behind that.
pub fn write_beside<J: Naming + Send + Sync, D: Device + Send, R: Threads + Wait + Sync>(
    rt: &R,
    user: &User<J, D>,
    one: u64,
    two: u64,
    out: &mut String,
) -> Result<()> {
    let (one, two) = match (place_in(&user.drawn, one), place_in(&user.drawn, two)) {
        (Some(one), Some(two)) => (one, two),
        _ => bail!("both names have to be held"),
    };
    if one >= user.drawn.len() || two >= user.drawn.len() {
        bail!("both names have to be held");
    }
    let beside = Beside {
        alloc: user.alloc,
        lanes: user.lanes.locked()?,
        one: &user.drawn[one],
        two: &user.drawn[two],
        gate: &user.signs.gate,
    };
    let (is_first, (is_beside, is_read)) = by_three(rt, &beside);
    write!(out, "written {is_first} beside {is_beside} read {is_read}")?;
    Ok(())
}
