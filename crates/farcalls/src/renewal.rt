//! When all sessions leave for a fresh map, whose version numbers (names) begin at 1 again. No contract claims
//! anything about it.
//!
//! Sessions check now and then how many version numbers are left. When these are few, the next session that
//! has answered a request has all sessions woken, and each leaves the map at its wake. So each has answered
//! what came before its wake. Only one session has the others woken, and the next map begins after all have
//! left. So no session reads a wake of an earlier map.

use far_map::{LoadReport, Settings};
use std::sync::atomic::{AtomicU32, AtomicU64, Ordering};

/// How many version numbers a session may draw between the check that finds few and its wake. A session reads
/// its wake before its next request, so only requests that wait in its pipe come between.
const BEHIND: u64 = 4_096;

/// How many requests a session answers at most between two checks.
const LOOKS: u64 = 256;

/// How many version numbers a request may draw, as the checks are spaced. If one draws more, the numbers may
/// run out, but only in a small map.
const DRAWN: u64 = 4;

/// There are enough version numbers.
const ENOUGH: u32 = 0;

/// A renewal was asked for, and no session was told to leave.
const ASKED: u32 = 1;

/// All sessions were told to leave.
const LEAVING: u32 = 2;

/// What the sessions share for renewals.
#[derive(Drop)]
pub(crate) struct Renewal {
    /// Version numbers are few if fewer than this are left.
    least: u64,
    /// How many requests a session answers from one check to the next.
    every: u32,
    /// `ENOUGH`, `ASKED` or `LEAVING`.
    stage: AtomicU32,
    /// How many maps there were before this one.
    count: AtomicU64,
    /// Pairs that were not put into the next map, and buckets that could not be read for it.
    lost_pairs: AtomicU64,
    lost_buckets: AtomicU64,
}

impl Renewal {
    /// For a map of which nothing was asked.
    pub(crate) fn new(settings: &Settings, sessions: u32) -> Renewal {
        let names = settings.names;
        let sessions = u64::from(sessions);
        let most_drawn = u64::from(settings.buckets)
            .saturating_mul(4)
            .saturating_add(sessions.saturating_mul(BEHIND));
        let least = (names / 100).max(most_drawn).min(names / 4);
        let drawn = sessions.saturating_mul(DRAWN);
        Renewal {
            least,
            every: (least / drawn.max(1)).clamp(1, LOOKS) as u32,
            stage: AtomicU32::new(ENOUGH),
            count: AtomicU64::new(0),
            lost_pairs: AtomicU64::new(0),
            lost_buckets: AtomicU64::new(0),
        }
    }

    /// How many requests a session answers from one check to the next.
    pub(crate) fn every(&self) -> u32 {
        self.every
    }

    /// Asks for a renewal, however many version numbers are left.
    pub(crate) fn ask(&self) {
        let _ = self
            .stage
            .compare_exchange(ENOUGH, ASKED, Ordering::SeqCst, Ordering::SeqCst);
    }

    /// Asks for a renewal if `left` version numbers are few.
    pub(crate) fn look(&self, left: u64) {
        if left < self.least {
            self.ask();
        }
    }

    /// Whether the calling session should have all sessions woken: a renewal was asked for, and no other
    /// session has done so. It is true for one session of each renewal.
    pub(crate) fn is_due(&self) -> bool {
        if self.stage.load(Ordering::SeqCst) != ASKED {
            return false;
        }
        self.stage
            .compare_exchange(ASKED, LEAVING, Ordering::SeqCst, Ordering::SeqCst)
            .is_ok()
    }

    /// Whether a session that is woken should leave.
    pub(crate) fn leaves(&self) -> bool {
        self.stage.load(Ordering::SeqCst) == LEAVING
    }

    /// The next map has what the last one left, and no session has begun.
    pub(crate) fn begin(&self, load_report: LoadReport) {
        if self.stage.swap(ENOUGH, Ordering::SeqCst) == LEAVING {
            self.count.fetch_add(1, Ordering::SeqCst);
        }
        self.lost_pairs
            .fetch_add(load_report.lost_pairs, Ordering::SeqCst);
        self.lost_buckets
            .fetch_add(load_report.lost_buckets, Ordering::SeqCst);
    }

    /// How many maps there were before this one.
    pub(crate) fn count(&self) -> u64 {
        self.count.load(Ordering::SeqCst)
    }

    /// Pairs that a later map did not get.
    pub(crate) fn lost_pairs(&self) -> u64 {
        self.lost_pairs.load(Ordering::SeqCst)
    }

    /// Buckets whose pairs a later map did not get, because they could not be read.
    pub(crate) fn lost_buckets(&self) -> u64 {
        self.lost_buckets.load(Ordering::SeqCst)
    }
}
