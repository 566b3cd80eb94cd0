//! How many bytes of objects are in frames.
//!
//! # Reported now and then
//!
//! Each session counts by itself what its calls bring into frames and take out (`hash_table::Traffic`). It
//! reports the count in a number of its own, which no other thread writes, and only after the count has
//! changed by some kilobytes. So most calls of small values report nothing, and the sum of these numbers is
//! off by some kilobytes for each session.

use crossbeam_utils::CachePadded;
use far_object::Memory;
use std::alloc::Global;
use std::sync::atomic::{AtomicI64, Ordering};

/// By how many bytes a count changes before it is reported again.
const STEP: u64 = 4_096;

/// The counts that were reported last, of each session and then of the evictor: the bytes that it brought
/// into frames, less those that it took out. `most` is how many bytes there may be in frames.
#[derive(Drop)]
pub struct FrameBytes {
    most: u64,
    told: Vec<CachePadded<AtomicI64>>,
}

impl FrameBytes {
    /// Counts for this number of sessions and an evictor. Returns `Memory` if an allocation failed.
    pub(crate) fn open(alloc: Global, most: u64, sessions: u32) -> Result<FrameBytes, Memory> {
        let mut told = Vec::new(alloc);
        for _ in 0..=sessions {
            told.push(CachePadded::new(AtomicI64::new(0)))?;
        }
        Ok(FrameBytes { most, told })
    }

    /// Whether a count has to be reported again, given what was reported last and what it is now.
    pub(crate) fn is_due(told: i64, now: i64) -> bool {
        told.abs_diff(now) >= STEP
    }

    /// Reports the count of the session of this number.
    pub(crate) fn tell(&self, session: u32, now: i64) {
        if let Some(told) = self.told.get(session as usize) {
            told.store(now, Ordering::SeqCst);
        }
    }

    /// Reports the evictor's count.
    pub(crate) fn tell_of_evictor(&self, now: i64) {
        if let Some(told) = self.told.last() {
            told.store(now, Ordering::SeqCst);
        }
    }

    /// How many bytes are in frames, by the counts that were reported.
    pub(crate) fn sum(&self) -> u64 {
        let mut sum: i64 = 0;
        for told in &self.told {
            sum = sum.wrapping_add(told.load(Ordering::SeqCst));
        }
        sum.max(0).unsigned_abs()
    }

    /// Whether more bytes are in frames than may be.
    pub(crate) fn is_above(&self) -> bool {
        self.most < u64::MAX && self.sum() > self.most
    }
}
