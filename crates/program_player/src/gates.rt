//! Gates that order the commands of files, or note what devices did meanwhile.

use crate::mistake::Mistake;
use crate::settings::{number, small};
use case_files::Line;
use far_driver::Gate;
use std::alloc::Global;
use std::sync::Arc;
use std::sync::atomic::{AtomicU64, Ordering};
use std::thread;

/// How often a held command looks whether it may go on.
const MOST_LOOKS: u64 = 10_000_000;

/// Waits until the number is as great. Whether it was in time.
fn comes_to(number: &AtomicU64, least: u64) -> bool {
    for _ in 0..MOST_LOOKS {
        if number.load(Ordering::SeqCst) >= least {
            return true;
        }
        thread::yield_now();
    }
    false
}

/// What a gate does.
#[derive(Clone, Copy)]
enum Order {
    /// Lets every command pass.
    Open,
    /// Lets nobody pass.
    Shut,
    /// Worker 1's command of this number waits until worker 2 has run so many.
    Turns { held: u32, awaited: u64 },
    /// A worker's command of this number waits until a device was written to.
    Written { held: u32 },
}

/// A gate that a line names.
#[derive(Drop)]
pub struct NamedGate {
    order: Order,
    /// How many commands worker 2 has run.
    second: AtomicU64,
    /// How often a device was written to.
    writes: Arc<AtomicU64>,
}

impl NamedGate {
    pub fn of(line: &Line, writes: Arc<AtomicU64>) -> Result<NamedGate, Mistake> {
        let held = small(line, "held", 1)?;
        let awaited = number(line, "awaited", 1)?;
        let order = match line.named("gate") {
            None => Order::Open,
            Some(name) if name == b"shut".as_slice() => Order::Shut,
            Some(name) if name == b"turns".as_slice() => Order::Turns { held, awaited },
            Some(name) if name == b"written".as_slice() => Order::Written { held },
            Some(_) => return Err(Mistake::Call("a gate is shut, turns or written")),
        };
        Ok(NamedGate {
            order,
            second: AtomicU64::new(0),
            writes,
        })
    }
}

impl Gate for NamedGate {
    fn before(&self, worker: u32, call: u32) -> bool {
        match self.order {
            Order::Open => true,
            Order::Shut => false,
            Order::Turns { held, awaited } => {
                worker != 1 || call != held || comes_to(&self.second, awaited)
            }
            Order::Written { held } => call != held || comes_to(&self.writes, 1),
        }
    }

    fn after(&self, worker: u32, _call: u32) {
        if worker == 2 {
            self.second.fetch_add(1, Ordering::SeqCst);
        }
    }
}

/// Notes in which commands the shared count of failures rose.
#[derive(Drop)]
pub struct Failures {
    pub count: Arc<AtomicU64>,
    before: AtomicU64,
    /// The bit of each command's number.
    pub rose: AtomicU64,
}

impl Failures {
    pub fn new(alloc: Global) -> Result<Failures, Mistake> {
        Ok(Failures {
            count: Arc::new(alloc, AtomicU64::new(0))?,
            before: AtomicU64::new(0),
            rose: AtomicU64::new(0),
        })
    }
}

impl Gate for Failures {
    fn before(&self, _worker: u32, _command: u32) -> bool {
        let count = self.count.load(Ordering::SeqCst);
        self.before.store(count, Ordering::SeqCst);
        true
    }

    fn after(&self, _worker: u32, command: u32) {
        if self.count.load(Ordering::SeqCst) != self.before.load(Ordering::SeqCst) {
            let bit = 1u64.wrapping_shl(command);
            self.rose.fetch_or(bit, Ordering::SeqCst);
        }
    }
}
