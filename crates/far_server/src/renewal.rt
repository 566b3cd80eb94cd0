//! When all workers leave for a fresh map, whose version numbers (names) begin at 1 again, and what INFO
//! reports of it. No contract claims anything about it.
//!
//! # How all leave together
//!
//! Workers and the sweep check now and then how many version numbers are left. When these are few, the next
//! worker that has answered a request has all workers woken, and each leaves the map at its wake. So each has
//! answered what came before its wake, and the rest waits in the pipes. The sweep leaves after the last
//! worker, because it makes the room that requests wait for.
//!
//! # Each worker is woken once
//!
//! Only one worker has the others woken, and the next map begins after all have left. So no worker reads a
//! wake of an earlier map.

use crate::settings::ServerSettings;
use far_map::LoadReport;
use std::rt::Clock;
use std::sync::atomic::{AtomicU32, AtomicU64, Ordering};

/// How many version numbers may be drawn by the requests that wait in a worker's pipes before its wake.
const BEHIND: u64 = 16_384;

/// How many requests a worker answers at most between two checks.
const LOOKS: u64 = 256;

/// How many version numbers a request may draw, as the checks are spaced. If one draws more, the numbers may
/// run out, but only in a small server.
const DRAWN: u64 = 4;

/// There are enough version numbers.
const ENOUGH: u32 = 0;

/// A renewal was asked for, and no worker was told to leave.
const ASKED: u32 = 1;

/// All workers were told to leave.
const LEAVING: u32 = 2;

/// What the workers of a server share for renewals.
#[derive(Drop)]
pub(crate) struct Renewal {
    /// Version numbers are few if fewer than this are left.
    least: u64,
    /// How many requests a worker answers from one check to the next.
    every: u32,
    /// `ENOUGH`, `ASKED` or `LEAVING`.
    stage: AtomicU32,
    /// When all were told to leave, in milliseconds of the clock that never goes back; 0 once a worker serves
    /// again.
    told: AtomicU64,
    /// How many maps there were before this one.
    count: AtomicU64,
    /// Pairs of these that were not put into the next one, and in `lost_buckets` buckets that were not read.
    lost_pairs: AtomicU64,
    lost_buckets: AtomicU64,
    /// How many milliseconds no worker served at the last renewal.
    pause: AtomicU64,
}

/// Milliseconds of a clock that never goes back, at least 1; 0 if it can't be read.
fn milliseconds<C: Clock>(clock: &C) -> u64 {
    match clock.monotonic() {
        Ok(since) => since.as_millis().clamp(1, u128::from(u64::MAX)) as u64,
        Err(_) => 0,
    }
}

impl Renewal {
    /// For a server that has served nothing.
    pub(crate) fn new(settings: &ServerSettings) -> Renewal {
        let names = settings.map.names;
        let workers = u64::from(settings.workers);
        let most_drawn = u64::from(settings.map.buckets)
            .saturating_mul(4)
            .saturating_add(workers.saturating_mul(BEHIND));
        let least = (names / 100).max(most_drawn).min(names / 4);
        let drawn = workers.saturating_add(1).saturating_mul(DRAWN);
        Renewal {
            least,
            every: (least / drawn.max(1)).clamp(1, LOOKS) as u32,
            stage: AtomicU32::new(ENOUGH),
            told: AtomicU64::new(0),
            count: AtomicU64::new(0),
            lost_pairs: AtomicU64::new(0),
            lost_buckets: AtomicU64::new(0),
            pause: AtomicU64::new(0),
        }
    }

    /// How many requests a worker answers from one check to the next.
    pub(crate) fn every(&self) -> u32 {
        self.every
    }

    /// Asks for a renewal, however many version numbers are left.
    pub(crate) fn ask(&self) {
        let _ = self
            .stage
            .compare_exchange(ENOUGH, ASKED, Ordering::SeqCst, Ordering::SeqCst);
    }

    /// Asks for a renewal if `left` version numbers are few.
    pub(crate) fn look(&self, left: u64) {
        if left < self.least {
            self.ask();
        }
    }

    /// Whether the sweep should draw no version number, so that workers have some until they leave.
    pub(crate) fn spares(&self, left: u64) -> bool {
        left < self.least / 2
    }

    /// Whether the calling worker should have all workers woken: a renewal was asked for, and no other worker
    /// has done so. It is true for one worker of each renewal.
    pub(crate) fn is_due<C: Clock>(&self, clock: &C) -> bool {
        if self.stage.load(Ordering::SeqCst) != ASKED {
            return false;
        }
        let told = self
            .stage
            .compare_exchange(ASKED, LEAVING, Ordering::SeqCst, Ordering::SeqCst)
            .is_ok();
        if told {
            self.told.store(milliseconds(clock), Ordering::SeqCst);
        }
        told
    }

    /// Whether a worker that is woken should leave.
    pub(crate) fn leaves(&self) -> bool {
        self.stage.load(Ordering::SeqCst) == LEAVING
    }

    /// The next map has what the last one left, and no worker has begun.
    pub(crate) fn begin(&self, load_report: LoadReport) {
        if self.stage.swap(ENOUGH, Ordering::SeqCst) == LEAVING {
            self.count.fetch_add(1, Ordering::SeqCst);
        }
        self.lost_pairs
            .fetch_add(load_report.lost_pairs, Ordering::SeqCst);
        self.lost_buckets
            .fetch_add(load_report.lost_buckets, Ordering::SeqCst);
    }

    /// A worker begins to serve. After a renewal this sets how long the pause was.
    pub(crate) fn serve<C: Clock>(&self, clock: &C) {
        let told = self.told.load(Ordering::SeqCst);
        if told > 0 {
            let pause = milliseconds(clock).saturating_sub(told);
            // This comes first. So a worker that finds `told` at 0 reports the pause of the renewal that it
            // counts.
            self.pause.store(pause, Ordering::SeqCst);
            let _ = self
                .told
                .compare_exchange(told, 0, Ordering::SeqCst, Ordering::SeqCst);
        }
    }

    /// How many maps there were before this one.
    pub(crate) fn count(&self) -> u64 {
        self.count.load(Ordering::SeqCst)
    }

    /// Pairs that the next map did not get.
    pub(crate) fn lost_pairs(&self) -> u64 {
        self.lost_pairs.load(Ordering::SeqCst)
    }

    /// Buckets whose pairs the next map did not get, because they could not be read.
    pub(crate) fn lost_buckets(&self) -> u64 {
        self.lost_buckets.load(Ordering::SeqCst)
    }

    /// How many milliseconds no worker served at the last renewal.
    pub(crate) fn pause(&self) -> u64 {
        self.pause.load(Ordering::SeqCst)
    }
}
