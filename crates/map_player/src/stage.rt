//! What the workers of a case share: its lines, which of them have been played, and what they replied.

use crate::device::Gate;
use crate::renewals::Renewal;
use crate::replies::{Said, Stop, is_memory};
use case_files::Line;
use std::alloc::{AllocError, Global};
use std::sync::atomic::{AtomicBool, AtomicU64, Ordering};
use std::sync::{Arc, Mutex, Wait};
use std::thread::yield_now;

/// How often a worker looks whether its turn has come.
const MOST_LOOKS: u32 = 20_000_000;

/// How often it looks whether the others of its block have come.
const MOST_GATHERING: u32 = 1_000_000;

/// What the call of a line said, and what it said where it was made once more.
#[derive(Drop)]
pub struct Told {
    /// Where the line stands among those of its case.
    pub at: usize,
    pub first: Said,
    pub again: Option<Said>,
}

/// A case while its map is open.
#[derive(Drop)]
pub struct Stage<'c> {
    pub lines: &'c [Line],
    pub threads: u32,
    pub gate: Arc<Gate>,
    /// Whether a worker has begun.
    pub has_begun: AtomicBool,
    /// How many lines have been played. Those of a block count in any order.
    done: AtomicU64,
    /// How many times a worker has come to a block.
    arrived: AtomicU64,
    /// What workers have set, less what they have taken out.
    pub tally: AtomicU64,
    /// How many generations of the map have begun.
    pub generations: AtomicU64,
    pub renewals: Vec<Renewal>,
    told: Mutex<Vec<Told>>,
}

/// Whether workers leave their map before this line.
pub fn is_border(line: &Line) -> bool {
    line.call() == "renew" || line.call() == "close"
}

impl<'c> Stage<'c> {
    /// A case of which the opening alone has been played.
    pub fn new(
        alloc: Global,
        lines: &'c [Line],
        threads: u32,
        gate: Arc<Gate>,
        renewals: Vec<Renewal>,
    ) -> Result<Stage<'c>, AllocError> {
        let told = Vec::with_capacity(alloc, lines.len())?;
        Ok(Stage {
            lines,
            threads,
            gate,
            has_begun: AtomicBool::new(false),
            done: AtomicU64::new(1),
            arrived: AtomicU64::new(0),
            tally: AtomicU64::new(0),
            generations: AtomicU64::new(0),
            renewals,
            told: Mutex::new(told),
        })
    }

    /// The worker that a line names: `a:` is the first one, and so is the worker of a line without a name.
    pub fn named(&self, line: &Line) -> Option<u32> {
        let number = match line.thread() {
            [] => 0,
            [letter] if letter.is_ascii_lowercase() => u32::from(letter.wrapping_sub(b'a')),
            _ => return None,
        };
        if number < self.threads {
            Some(number)
        } else {
            None
        }
    }

    /// Whether the worker plays the line. The first one plays those that name nobody.
    fn is_of(&self, line: &Line, worker: u32) -> bool {
        self.named(line).unwrap_or(0) == worker
    }

    /// How many lines have to be played before this one.
    fn before(&self, line: &Line, at: usize) -> u64 {
        if line.block == 0 {
            return at as u64;
        }
        let first = self
            .lines
            .iter()
            .position(|other| other.block == line.block);
        first.unwrap_or(at) as u64
    }

    /// Waits until the lines before this one have been played, and answers whether they have.
    pub fn waits(&self, line: &Line, at: usize) -> bool {
        let before = self.before(line, at);
        for _ in 0..MOST_LOOKS {
            if self.done.load(Ordering::SeqCst) >= before {
                return true;
            }
            yield_now();
        }
        false
    }

    /// Whether the line at this place is its worker's first of a block.
    fn is_first(&self, line: &Line, at: usize) -> bool {
        let worker = self.named(line).unwrap_or(0);
        let before = self.lines.get(..at).unwrap_or(&[]);
        let is_later = before.iter().any(|other| other.block == line.block
            && self.is_of(other, worker));
        line.block != 0 && !is_later
    }

    /// How many times workers come to blocks up to the end of this line's.
    fn arrivals(&self, line: &Line) -> u64 {
        let mut arrivals = 0u64;
        let mut at = 0usize;
        for other in self.lines {
            if other.block <= line.block && self.is_first(other, at) {
                arrivals = arrivals.saturating_add(1);
            }
            at = at.saturating_add(1);
        }
        arrivals
    }

    /// Before its first line of a block a worker waits a while for the others of the block, so that they play it side by side.
    pub fn gathers(&self, line: &Line, at: usize) {
        if !self.is_first(line, at) {
            return;
        }
        self.arrived.fetch_add(1, Ordering::SeqCst);
        let wanted = self.arrivals(line);
        for _ in 0..MOST_GATHERING {
            if self.arrived.load(Ordering::SeqCst) >= wanted {
                return;
            }
            yield_now();
        }
    }

    /// The next line from here on that the worker plays, and its place: none before a border.
    pub fn next_of(&self, worker: u32, from: usize) -> Option<(usize, &'c Line)> {
        let mut at = from;
        for line in self.lines.get(from..).unwrap_or(&[]) {
            if is_border(line) {
                return None;
            }
            if self.is_of(line, worker) {
                return Some((at, line));
            }
            at = at.saturating_add(1);
        }
        None
    }

    /// The place of the next border from here on, or the end.
    pub fn border(&self, from: usize) -> usize {
        let rest = self.lines.get(from..).unwrap_or(&[]);
        let count = rest.iter().position(is_border).unwrap_or(rest.len());
        from.saturating_add(count)
    }

    /// One line more has been played.
    pub fn pass(&self) {
        self.done.fetch_add(1, Ordering::SeqCst);
    }

    /// Keeps what a line said.
    pub fn keep<R: Wait>(&self, rt: &R, at: usize, first: Said, again: Option<Said>) {
        let told = Told { at, first, again };
        let _ = self.told.lock(rt).push(told);
        self.pass();
    }

    /// What the lines said, in no order.
    pub fn into_told(self) -> Vec<Told> {
        self.told.into_inner()
    }

    /// Whether a call that said this is made once more: a growth was refused to it, and the case expects another reply.
    pub fn is_again(&self, line: &Line, said: &Said) -> bool {
        is_memory(said) && line.reply.as_slice() != b"memory".as_slice()
    }
}

/// What a line says whose worker is not there.
pub fn nobody() -> Said {
    Err(Stop::Mistake(
        "the map has no worker of this name: a: is the first, and threads= says how many there are",
    ))
}
