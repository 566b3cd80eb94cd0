//! How many pairs the map has. No contract claims anything about it.
//!
//! Each session counts the pairs that its calls have added, less those that they have removed, in a number that
//! no other session writes. The sum is exact while no call is made.

use crossbeam_utils::CachePadded;
use std::alloc::{AllocError, Global};
use std::sync::atomic::{AtomicI64, Ordering};

/// The counts of all sessions, and how many pairs the map had at its beginning.
#[derive(Drop)]
pub(crate) struct PairCount {
    begun: AtomicI64,
    counts: Vec<CachePadded<AtomicI64>>,
}

impl PairCount {
    /// For a map without pairs.
    pub(crate) fn new(alloc: Global, sessions: u32) -> Result<PairCount, AllocError> {
        let mut counts = Vec::new(alloc);
        for _ in 0..sessions {
            counts.push(CachePadded::new(AtomicI64::new(0)))?;
        }
        Ok(PairCount {
            begun: AtomicI64::new(0),
            counts,
        })
    }

    /// A map begins with this many pairs, and no session has begun.
    pub(crate) fn begin(&self, pairs: u64) {
        self.begun
            .store(pairs.min(i64::MAX as u64) as i64, Ordering::SeqCst);
        for count in &self.counts {
            count.store(0, Ordering::SeqCst);
        }
    }

    /// A call of this session has added `more` pairs: 1, 0, or -1 if it removed one.
    pub(crate) fn add(&self, session: u32, more: i64) {
        if let Some(count) = self.counts.get(session as usize) {
            let now = count.load(Ordering::Relaxed);
            count.store(now.wrapping_add(more), Ordering::Release);
        }
    }

    /// How many pairs the map has.
    pub(crate) fn sum(&self) -> u64 {
        let mut sum = self.begun.load(Ordering::SeqCst);
        for count in &self.counts {
            sum = sum.wrapping_add(count.load(Ordering::SeqCst));
        }
        sum.max(0).unsigned_abs()
    }
}
