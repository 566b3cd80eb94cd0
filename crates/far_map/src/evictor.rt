//! The evictor's thread.

use crate::map::FarMap;
use crate::values::Value;
use far_device::Device;
use std::sync::Wait;
use std::sync::atomic::Ordering;
use std::thread;
use std::time::Duration;
use swapper::QueueNaming;
use version_words::Naming;

/// How many microseconds the evictor sleeps if a round found nothing to do and the round before did. It is
/// short, so that few retired words wait.
const SHORTEST_NAP: u64 = 100;

/// How many microseconds it sleeps at most. Each nap is twice as long as the one before, because each time
/// that it wakes for nothing it takes a processor from a worker.
const LONGEST_NAP: u64 = 3_200;

impl<V: Value, J: Naming, B: QueueNaming, D: Device> FarMap<V, J, B, D> {
    /// Reclaims retired words, and empties frames while too few are free, until all workers have ended.
    /// `stop_evicting` wakes it.
    pub(crate) fn evict<R: Wait>(&self, rt: &R) {
        self.started.store(true, Ordering::SeqCst);
        let mut nap = SHORTEST_NAP;
        for _ in rt.forever() {
            if self.ended.load(Ordering::SeqCst) {
                break;
            }
            let worked = if self.is_short() {
                self.turns_by_thread(rt)
            } else {
                self.collect(rt).reclaimed > 0
            };
            if worked {
                nap = SHORTEST_NAP;
                thread::yield_now();
            } else {
                self.bed.park_timeout(rt, Duration::from_micros(nap));
                nap = nap.saturating_mul(2).min(LONGEST_NAP);
            }
        }
    }

    pub(crate) fn stop_evicting(&self) {
        self.ended.store(true, Ordering::SeqCst);
        self.bed.unpark();
    }
}
