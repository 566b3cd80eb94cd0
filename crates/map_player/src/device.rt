//! The devices of a case: in memory, and refusing what the case says.
ghost use Rattle.std.specs.Prelude.{◌≡◌, ◌+◌, ◌-◌, ◌^◌, min, false};

use crate::replies::{Said, Stop, count, plain};
use crate::words::is_named;
use case_files::Line;
use far_device::{Device, DeviceFault, FakeDevice, FaultyDevice};
use std::alloc::Global;
use std::sync::Arc;
use std::sync::atomic::{AtomicBool, AtomicU64, Ordering};

/// What a case sees and sets of its devices from outside.
#[derive(Drop)]
pub struct Gate {
    /// How many reads and removals there were in the last call.
    reads: AtomicU64,
    removes: AtomicU64,
    /// How many of the next writes fail, and how many of the next reads are refused for want of memory.
    refused_writes: AtomicU64,
    short_reads: AtomicU64,
    refuses_removes: AtomicBool,
    /// Whether a device fails as it is made empty.
    is_broken: bool,
}

/// One less, where it is not 0. It answers whether it was not.
fn takes_one(left: &AtomicU64) -> bool {
    let before = left.load(Ordering::SeqCst);
    if before == 0 {
        return false;
    }
    left.store(before.saturating_sub(1), Ordering::SeqCst);
    true
}

impl Gate {
    /// One over devices that fail as they are made empty, or that refuse nothing.
    pub fn new(is_broken: bool, short_reads: u64) -> Gate {
        Gate {
            reads: AtomicU64::new(0),
            removes: AtomicU64::new(0),
            refused_writes: AtomicU64::new(0),
            short_reads: AtomicU64::new(short_reads),
            refuses_removes: AtomicBool::new(false),
            is_broken,
        }
    }

    /// A call begins.
    pub fn begin(&self) {
        self.reads.store(0, Ordering::SeqCst);
        self.removes.store(0, Ordering::SeqCst);
    }

    /// Sets what is refused from now on.
    fn set(&self, line: &Line) -> Result<(), Stop> {
        if line.named("writes").is_some() {
            let all = line.named("writes") == Some(b"all".as_slice());
            let writes = if all {
                Some(u64::MAX)
            } else {
                line.number_named("writes", 0)
            };
            let writes = writes.ok_or(Stop::Mistake("writes= is a number or all"))?;
            self.refused_writes.store(writes, Ordering::SeqCst);
        }
        if line.named("removes").is_some() {
            let is_refused = is_named(line, "removes");
            self.refuses_removes.store(is_refused, Ordering::SeqCst);
        }
        Ok(())
    }
}

/// A call of the devices, if the line is one.
pub fn device_call(alloc: Global, gate: &Gate, line: &Line) -> Option<Said> {
    if line.call() == "device_refuses" {
        return Some(match gate.set(line) {
            Ok(()) => plain(alloc, ""),
            Err(stop) => Err(stop),
        });
    }
    if line.call() != "device_asked" {
        return None;
    }
    let reads = line.is(1, "reads");
    let asked = if reads { &gate.reads } else { &gate.removes };
    Some(count(alloc, asked.load(Ordering::SeqCst)))
}

/// A device behind a gate: what the gate refuses fails, and all else is passed on. Where it has bytes of its own, each read gives those.
#[derive(Drop)]
pub struct GatedDevice<D> {
    inner: D,
    failed: u64,
    canned: Option<Vec<u8>>,
    gate: Arc<Gate>,
}

/// The device of a map in a case.
pub type MapDevice = GatedDevice<FaultyDevice<FakeDevice>>;

/// A device in memory whose k-th write, read or removal fails, behind this gate.
pub fn device(alloc: Global, k: u64, canned: Option<Vec<u8>>, gate: Arc<Gate>) -> MapDevice {
    GatedDevice {
        inner: FaultyDevice::new(FakeDevice::new(alloc), k),
        failed: 0,
        canned,
        gate,
    }
}

impl<D> GatedDevice<D> {
    fn refuse(&mut self) -> DeviceFault
        ensures fault { result ≡ DeviceFault.Failed }
        ensures inner { self.new.inner ≡ self.old.inner }
        ensures counted { self.new.failed ≡ min (self.old.failed + 1) (2 ^ 64 - 1) }
    {
        self.failed = self.failed.saturating_add(1);
        DeviceFault::Failed
    }
}

impl<D: Device> Device for GatedDevice<D> {
    ghost use Rattle.far_device.specs.Faulty.{faulty_state};

    ghost state = { λ device. faulty_state D.state (record { inner = device.inner; due = 0; failed = device.failed }) };

    ghost HONEST = { false };

    fn construct(&mut self) -> Result<(), DeviceFault> {
        if self.gate.is_broken {
            return Err(self.refuse());
        }
        self.inner.construct()
    }

    fn write(&mut self, id: u64, bytes: &[u8]) -> Result<(), DeviceFault> {
        if takes_one(&self.gate.refused_writes) {
            return Err(self.refuse());
        }
        self.inner.write(id, bytes)
    }

    fn read(&mut self, id: u64, out: &mut Vec<u8>) -> Result<bool, DeviceFault> {
        self.gate.reads.fetch_add(1, Ordering::SeqCst);
        if takes_one(&self.gate.short_reads) {
            return Err(DeviceFault::Memory);
        }
        let before = out.len();
        let there = self.inner.read(id, out)?;
        if there && let Some(bytes) = &self.canned {
            out.truncate(before);
            out.extend_from_slice(bytes.as_slice())?;
        }
        Ok(there)
    }

    fn remove(&mut self, id: u64) -> Result<bool, DeviceFault> {
        self.gate.removes.fetch_add(1, Ordering::SeqCst);
        if self.gate.refuses_removes.load(Ordering::SeqCst) {
            return Err(self.refuse());
        }
        self.inner.remove(id)
    }

    fn failures(&self) -> u64 {
        self.inner.failures().saturating_add(self.failed)
    }
}
