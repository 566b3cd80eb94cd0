//! What a session has counted over all maps. No contract claims anything about it.

use far_map::{Stats, Traffic};

/// How many numbers there are.
pub(crate) const SUMS: usize = 15;

/// What a session has counted before its current map, in the order in which STATS replies it.
#[derive(Clone, Copy)]
pub(crate) struct Sums {
    earlier: [u64; SUMS],
}

/// The numbers of a session on one map.
fn numbers_of(stats: &Stats, traffic: &Traffic) -> [u64; SUMS] {
    [
        stats.gets,
        stats.puts,
        stats.removes,
        stats.put_ifs,
        stats.too_long,
        stats.full,
        stats.names_spent,
        stats.device,
        stats.damaged,
        stats.memory,
        traffic.local_reads,
        traffic.far_reads,
        traffic.swap_ins,
        traffic.swap_outs,
        traffic.device_failures,
    ]
}

impl Sums {
    pub(crate) fn new() -> Sums {
        Sums { earlier: [0; SUMS] }
    }

    /// The sums with what the session has counted on its current map.
    pub(crate) fn with(&self, stats: &Stats, traffic: &Traffic) -> [u64; SUMS] {
        let mut sums = numbers_of(stats, traffic);
        for at in 0..SUMS {
            sums[at] = sums[at].saturating_add(self.earlier[at]);
        }
        sums
    }

    /// The session leaves its map, on which it has counted this.
    pub(crate) fn leave(&mut self, stats: &Stats, traffic: &Traffic) {
        self.earlier = self.with(stats, traffic);
    }
}
