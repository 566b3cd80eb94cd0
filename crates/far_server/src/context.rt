//! What the requests of a worker share: what all workers have in common, and the worker's buffers and
//! statistics.
ghost use Rattle.far_server.specs.Looks.{WasLookedAt};

use crate::deadlines::has_deadline;
use crate::key_counts::KeyCounts;
use crate::renewal::Renewal;
use crate::settings::ServerSettings;
use crate::slow_log::SlowLog;
use crate::statistics::{SharedStatistics, see_traffic};
use crate::turns::{LARGE, Turns};
use crate::usage::FarUsage;
use far_map::Traffic;
use far_object::Text;
use rand::rngs::SmallRng;
use server_commands::{Statistic, Statistics};
use std::alloc::Global;
use std::io;
use std::rt::Clock;
use std::thread::Parker;
use std::time::{Duration, SystemTime, UNIX_EPOCH};

/// What all workers share, and which worker this is.
#[derive(Drop)]
pub(crate) struct ServerContext<'a, C, R> {
    pub(crate) rt: &'a R,
    pub(crate) clock: &'a C,
    pub(crate) alloc: Global,
    pub(crate) settings: &'a ServerSettings,
    pub(crate) shared_statistics: &'a SharedStatistics,
    pub(crate) usage: &'a FarUsage,
    pub(crate) renewal: &'a Renewal,
    pub(crate) turns: &'a Turns,
    pub(crate) slow_log: &'a SlowLog,
    /// The worker's number, from 0. The sweep has the number after the last worker's.
    pub(crate) worker: u32,
    /// When the server was started, in milliseconds since 1970.
    pub(crate) started: u64,
}

impl<C, R> ServerContext<'_, C, R> {
    /// A number that no connection of any worker has got.
    pub(crate) fn next_id(&self) -> u64 {
        self.shared_statistics.next_id()
    }
}

/// What a worker, or the sweep, uses again and again: buffers, statistics and flags.
#[derive(Drop)]
pub(crate) struct Workspace {
    /// Where a new value is made, before it the stored key, and an error of many words.
    pub(crate) stored: Vec<u8>,
    pub(crate) statistics: Statistics,
    /// How many keys it has added to each database, without those that it has removed.
    pub(crate) key_counts: KeyCounts,
    /// The statistics that were last published.
    pub(crate) told: Statistics,
    /// The statistics when the session began.
    pub(crate) begun: Statistics,
    /// Whether a command could not read a bucket that only a renewal gets rid of. The worker asks for one
    /// then.
    pub(crate) wants_renewal: bool,
    /// The bound of the bytes of objects in frames.
    pub(crate) most_in_frames: u64,
    /// Whether a device may take objects.
    pub(crate) is_far: bool,
    /// Whether the sweep evicts keys, so that it is worth waiting for room.
    pub(crate) is_swept: bool,
    /// Where it sleeps while it waits. Nobody wakes it, so it sleeps until the time is over.
    pub(crate) bed: Parker,
    /// The random numbers of RANDOMKEY. None until its first call.
    pub(crate) draws: Option<SmallRng>,
    /// How many bytes of room a reply leaves free after it. EXEC may need them for errors of the requests
    /// after the one that it runs.
    pub(crate) beside: usize,
}

impl Workspace {
    pub(crate) fn new(alloc: Global, settings: &ServerSettings) -> Workspace {
        let statistics = Statistics::new();
        Workspace {
            stored: Vec::new(alloc),
            statistics,
            key_counts: KeyCounts::new(),
            told: statistics,
            begun: statistics,
            wants_renewal: false,
            most_in_frames: settings.map.bytes,
            is_far: settings.is_far,
            is_swept: settings.options.evicts,
            bed: Parker::new(),
            draws: None,
            beside: 0,
        }
    }

    /// Goes on from the statistics of earlier sessions.
    pub(crate) fn begin(&mut self, counted: Statistics) {
        self.statistics = counted;
        self.told = counted;
        self.begun = counted;
    }

    /// Counts a key that was set to the value in `stored`. `was_none` is whether it had no value before.
    pub(crate) fn count_set(&mut self, key: &Text, was_none: bool) {
        self.statistics.count_if(Statistic::KeysAdded, was_none);
        if was_none {
            self.key_counts.count_added(key);
        }
        let is_dated = has_deadline(self.stored.as_slice());
        self.statistics.count_if(Statistic::DeadlinesSet, is_dated);
    }

    /// Counts a key that was removed, if it was.
    pub(crate) fn count_removed(&mut self, key: &Text, was_removed: bool) {
        self.statistics
            .count_if(Statistic::KeysRemoved, was_removed);
        if was_removed {
            self.key_counts.count_removed(key);
        }
    }

    /// Gives back the memory of a large value.
    pub(crate) fn give_back(&mut self, alloc: Global) {
        if self.stored.capacity() > LARGE {
            self.stored = Vec::new(alloc);
        }
    }

    /// Publishes the statistics, with what the session has read and moved.
    pub(crate) fn tell<C, R>(&mut self, context: &ServerContext<'_, C, R>, traffic: &Traffic) {
        see_traffic(&mut self.statistics, &self.begun, traffic);
        context
            .shared_statistics
            .tell(context.worker, &self.told, &self.statistics);
        context
            .shared_statistics
            .tell_keys(context.worker, &mut self.key_counts);
        self.told = self.statistics;
    }
}

/// A time in milliseconds since 1970: 0 if the clock gives none, or one before 1970.
fn milliseconds_of(now: io::Result<SystemTime>) -> u64 {
    let Ok(now) = now else {
        return 0;
    };
    let Ok(since) = now.duration_since(UNIX_EPOCH) else {
        return 0;
    };
    since.as_millis().min(u128::from(u64::MAX)) as u64
}

/// The clock's time, in milliseconds since 1970: 0 if it gives none, or one before 1970.
pub(crate) fn milliseconds<C: Clock>(clock: &C) -> u64
    ensures { WasLookedAt result }
{
    milliseconds_of(SystemTime::now(clock))
}
