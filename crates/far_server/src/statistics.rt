//! The server's statistics, for INFO. No contract claims anything about them.

use crate::key_counts::KeyCounts;
use far_map::{MapRefusal, Traffic};
use server_commands::{STATISTICS, Statistic, Statistics};
use std::alloc::{AllocError, Global};
use std::sync::atomic::{AtomicU32, AtomicU64, Ordering};

/// Takes over what a session has counted of reads and moves. `begun` is what was counted before the session
/// began.
pub(crate) fn see_traffic(statistics: &mut Statistics, begun: &Statistics, traffic: &Traffic) {
    for (statistic, counted) in [
        (Statistic::LocalHits, traffic.local_reads),
        (Statistic::FarReads, traffic.far_reads),
        (Statistic::SwapIns, traffic.swap_ins),
        (Statistic::SwapOuts, traffic.swap_outs),
        (Statistic::DeviceFailures, traffic.device_failures),
    ] {
        statistics.set(statistic, begun.get(statistic).wrapping_add(counted));
    }
}

/// Counts the keys that were removed to make room. `removed` is how many had been removed before that.
pub(crate) fn count_evictions(statistics: &mut Statistics, removed: u64) {
    let evicted = statistics.get(Statistic::KeysRemoved).wrapping_sub(removed);
    statistics.add(Statistic::EvictedKeys, evicted);
}

/// Counts a command that the map refused, by the reason. `NamesSpent` is not counted.
pub(crate) fn count_refusal(statistics: &mut Statistics, why: MapRefusal) {
    match why {
        MapRefusal::Memory => statistics.count(Statistic::RefusedMemory),
        MapRefusal::Full(_) => statistics.count(Statistic::RefusedFull),
        MapRefusal::TooLong => statistics.count(Statistic::RefusedFull),
        MapRefusal::Device => statistics.count(Statistic::RefusedDevice),
        MapRefusal::Damaged => statistics.count(Statistic::RefusedDevice),
        MapRefusal::NamesSpent => {}
    }
}

/// What the gateway last reported about its clients, and about the memory of both programs.
#[derive(Drop)]
pub(crate) struct GatewayTold {
    /// Connections that it refused since its start.
    pub(crate) rejected: AtomicU64,
    /// Connections that it closed since its start, to keep the clients within their part of the memory.
    pub(crate) evicted: AtomicU64,
    /// Bytes of memory that the gateway and the workers keep for clients.
    pub(crate) memory: AtomicU64,
    /// Bytes of memory that the gateway and the server have; 0 until the gateway has reported it.
    pub(crate) resident: AtomicU64,
}

impl GatewayTold {
    fn new() -> GatewayTold {
        GatewayTold {
            rejected: AtomicU64::new(0),
            evicted: AtomicU64::new(0),
            memory: AtomicU64::new(0),
            resident: AtomicU64::new(0),
        }
    }
}

/// The statistics that each worker, and the sweep after them, last published. Each writes only its own
/// numbers, so none waits for another.
#[derive(Drop)]
pub(crate) struct SharedStatistics {
    told: Vec<AtomicU64>,
    /// How many connections have got a number.
    ids: AtomicU64,
    pub(crate) gateway: GatewayTold,
    /// How many workers have not left the map.
    serving: AtomicU32,
    /// How many keys were counted that the map does not have, because it was renewed without them.
    missing: AtomicU64,
    /// How many databases there are.
    databases: usize,
    /// Of each worker, and of the sweep after them: how many keys it has added to each database, without those that
    /// it has removed.
    keys: Vec<AtomicU64>,
    /// How many of the missing keys are taken to be of each database.
    missing_in: Vec<AtomicU64>,
}

/// How far the numbers of a worker are from those of the next one: whole cache lines, each of 8 numbers.
const STRIDE: usize = (STATISTICS + 7) / 8 * 8;

/// How many numbers there are from one worker's to the next one's, if each has one for each database: whole cache
/// lines.
fn stride_of(databases: usize) -> usize {
    databases.saturating_add(7) / 8 * 8
}

/// Numbers that are all 0.
fn zeros(alloc: Global, count: usize) -> Result<Vec<AtomicU64>, AllocError> {
    let mut zeros = Vec::new(alloc);
    for _ in 0..count {
        zeros.push(AtomicU64::new(0))?;
    }
    Ok(zeros)
}

impl SharedStatistics {
    /// The statistics of `workers` workers and the sweep, all 0, and of that many databases.
    pub(crate) fn new(
        alloc: Global,
        workers: u32,
        databases: usize,
    ) -> Result<SharedStatistics, AllocError> {
        let all_workers = (workers as usize).saturating_add(1);
        let keys = zeros(alloc, all_workers.saturating_mul(stride_of(databases)))?;
        let missing_in = zeros(alloc, databases)?;
        let mut told = Vec::new(alloc);
        for _ in 0..=workers {
            for _ in 0..STRIDE {
                told.push(AtomicU64::new(0))?;
            }
        }
        Ok(SharedStatistics {
            told,
            ids: AtomicU64::new(0),
            gateway: GatewayTold::new(),
            serving: AtomicU32::new(workers),
            missing: AtomicU64::new(0),
            databases,
            keys,
            missing_in,
        })
    }

    /// As many workers as `workers` says go on in another map.
    pub(crate) fn begin(&self, workers: u32) {
        self.serving.store(workers, Ordering::SeqCst);
    }

    /// A worker has left the map: for the next one, or for good.
    pub(crate) fn leave(&self) {
        self.serving.fetch_sub(1, Ordering::SeqCst);
    }

    /// Whether some worker has not left the map.
    pub(crate) fn is_serving(&self) -> bool {
        self.serving.load(Ordering::SeqCst) > 0
    }

    /// A number that no connection has got, from 1 on.
    pub(crate) fn next_id(&self) -> u64 {
        self.ids.fetch_add(1, Ordering::SeqCst).wrapping_add(1)
    }

    /// Publishes what a worker has counted. `last` is what it published before, and only numbers that differ
    /// from it are written.
    pub(crate) fn tell(&self, worker: u32, last: &Statistics, now: &Statistics) {
        for at in 0..STATISTICS {
            let number = now.numbers[at];
            if last.numbers[at] != number {
                let place = (worker as usize).wrapping_mul(STRIDE).wrapping_add(at);
                if let Some(told) = self.told.get(place) {
                    told.store(number, Ordering::SeqCst);
                }
            }
        }
    }

    /// How many keys the workers have counted, by what they last published.
    fn counted_keys(&self) -> u64 {
        let sum = self.sum();
        let added = sum.get(Statistic::KeysAdded);
        added.saturating_sub(sum.get(Statistic::KeysRemoved))
    }

    /// How many keys have a value, by what the workers last published.
    pub(crate) fn keys(&self) -> u64 {
        self.counted_keys()
            .saturating_sub(self.missing.load(Ordering::SeqCst))
    }

    /// The map begins with `keys` keys, and no worker has begun. Keys that were counted and are not among
    /// them are missing. Nothing says which databases had them, so each is taken to have lost its part by how
    /// many keys it had.
    pub(crate) fn carry(&self, keys: u64) {
        let counted = self.counted_keys();
        let missing = counted.saturating_sub(keys);
        self.missing.store(missing, Ordering::SeqCst);
        for (database, part) in self.missing_in.iter().enumerate() {
            let here = u128::from(self.counted_in(database));
            let lost = u128::from(missing)
                .saturating_mul(here)
                .checked_div(u128::from(counted))
                .unwrap_or(0);
            part.store(lost.min(u128::from(u64::MAX)) as u64, Ordering::SeqCst);
        }
    }

    /// Publishes the counts of a worker's keys that have changed.
    pub(crate) fn tell_keys(&self, worker: u32, counts: &mut KeyCounts) {
        let (first, end) = counts.take_changed();
        let place = (worker as usize).wrapping_mul(stride_of(self.databases));
        for (database, number) in counts.numbers().iter().enumerate().take(end).skip(first) {
            if let Some(told) = self.keys.get(place.wrapping_add(database)) {
                told.store(*number, Ordering::SeqCst);
            }
        }
    }

    /// The counts that a worker, or the sweep, last published.
    pub(crate) fn keys_told_by(&self, worker: u32) -> KeyCounts {
        let mut counts = KeyCounts::new();
        let place = (worker as usize).wrapping_mul(stride_of(self.databases));
        for database in 0..self.databases {
            if let Some(told) = self.keys.get(place.wrapping_add(database)) {
                counts.set(database, told.load(Ordering::SeqCst));
            }
        }
        counts
    }

    /// How many keys of a database the workers have counted. While one adds a key and another one removes it, the
    /// sum may be below zero: it is 0 then.
    fn counted_in(&self, database: usize) -> u64 {
        let mut sum: u64 = 0;
        for told in self
            .keys
            .iter()
            .skip(database)
            .step_by(stride_of(self.databases).max(1))
        {
            sum = sum.wrapping_add(told.load(Ordering::SeqCst));
        }
        if sum > i64::MAX as u64 { 0 } else { sum }
    }

    /// Whether a database has no key, by what the workers last published. It looks twice: keys that are added and
    /// removed during the first look may make its sum wrong.
    pub(crate) fn is_empty(&self, database: u8) -> bool {
        let database = usize::from(database);
        self.counted_in(database) == 0 && self.counted_in(database) == 0
    }

    /// How many keys of a database have a value, by what the workers last published.
    pub(crate) fn keys_in(&self, database: usize) -> u64 {
        let missing = match self.missing_in.get(database) {
            Some(missing) => missing.load(Ordering::SeqCst),
            None => return 0,
        };
        self.counted_in(database).saturating_sub(missing)
    }

    /// What a worker, or the sweep, last published.
    pub(crate) fn told_by(&self, worker: u32) -> Statistics {
        let mut statistics = Statistics::new();
        for at in 0..STATISTICS {
            let place = (worker as usize).wrapping_mul(STRIDE).wrapping_add(at);
            if let Some(told) = self.told.get(place) {
                statistics.numbers[at] = told.load(Ordering::SeqCst);
            }
        }
        statistics
    }

    /// The sum over all workers and the sweep.
    pub(crate) fn sum(&self) -> Statistics {
        let mut sum = Statistics::new();
        for (place, told) in self.told.iter().enumerate() {
            let at = place % STRIDE;
            if at < STATISTICS {
                sum.numbers[at] = sum.numbers[at].wrapping_add(told.load(Ordering::SeqCst));
            }
        }
        sum
    }
}
