//! The statistics: which there are, the table of their names, kinds and help, and an array with a number for each.
//!
//! A new one is a case of `Statistic`, a row of `ROWS`, one more in `STATISTICS`, and the place that counts it. INFO's line of it
//! is made from the row, and so can any other report be.
ghost use Rattle.std.specs.Prelude.{◌≡◌, ◌<◌, length};

use crate::page::Section;

/// A number that a server reports of itself. The table has a row for each, in this order.
#[derive(Clone, Copy, PartialEq, Eq, Debug)]
pub enum Statistic {
    ConnectedClients,
    ResidentBytes,
    ClientsMemory,
    ConnectionsOpened,
    Commands,
    RejectedConnections,
    EvictedClients,
    ExpiredKeys,
    EvictedKeys,
    Hits,
    Misses,
    Refused,
    BytesInFrames,
    FarObjects,
    LostBuckets,
    FarBytes,
    LocalHits,
    SwapOuts,
    SwapIns,
    ReadThroughs,
    DeviceFailures,
    RefusedMemory,
    RefusedFull,
    RefusedDevice,
    NamesLeft,
    Renewals,
    RenewalLostPairs,
    RenewalLostBuckets,
    RenewalLastMs,
    ConnectionsClosed,
    Keys,
    KeysAdded,
    KeysRemoved,
    DeadlinesSet,
    FarReads,
    RestingDevices,
}

/// How many statistics there are.
pub const STATISTICS: usize = 36;

/// How a number changes.
#[derive(Clone, Copy, PartialEq, Eq, Debug)]
pub enum StatisticKind {
    /// It counts from the server's start on.
    Counter,
    /// It rises and falls.
    Gauge,
}

/// What a report says of a statistic besides its number.
#[derive(Clone, Copy)]
pub struct StatisticRow {
    pub statistic: Statistic,
    /// Its name in lower case, which no other row has. INFO's line begins with it.
    pub name: &'static str,
    pub kind: StatisticKind,
    /// The section of INFO that has its line. None if INFO has no line of it, but of what follows from it.
    pub section: Option<Section>,
    /// What the number is, in one sentence.
    pub help: &'static str,
}

macro_rules! rows {
    ($($statistic:ident $name:literal $kind:ident, $section:expr, $help:literal;)*) => {
        [$(StatisticRow {
            statistic: Statistic::$statistic,
            name: $name,
            kind: StatisticKind::$kind,
            section: $section,
            help: $help,
        }),*]
    };
}

/// Each row is at its statistic's `index`, and each section of INFO has its lines in this order.
static ROWS: [StatisticRow; STATISTICS] = rows! {
    ConnectedClients "connected_clients" Gauge, Some(Section::Clients), "Connections that are open.";
    ResidentBytes "used_memory_rss" Gauge, Some(Section::Memory), "Bytes of memory that the programs of the server have; 0 until that is known.";
    ClientsMemory "clients_memory" Gauge, Some(Section::Memory), "Bytes of memory that are kept for clients.";
    ConnectionsOpened "total_connections_received" Counter, Some(Section::Stats), "Connections that were accepted.";
    Commands "total_commands_processed" Counter, Some(Section::Stats), "Requests that were answered, with or without an error.";
    RejectedConnections "rejected_connections" Counter, Some(Section::Stats), "Connections that were refused because there were too many, or for lack of memory.";
    EvictedClients "evicted_clients" Counter, Some(Section::Stats), "Connections that were closed to keep the clients within their part of the memory.";
    ExpiredKeys "expired_keys" Counter, Some(Section::Stats), "Expired values that were removed or replaced.";
    EvictedKeys "evicted_keys" Counter, Some(Section::Stats), "Keys that were removed to make room.";
    Hits "keyspace_hits" Counter, Some(Section::Stats), "Reads of a key that had a value.";
    Misses "keyspace_misses" Counter, Some(Section::Stats), "Reads of a key that had no value.";
    Refused "rejected" Counter, Some(Section::Stats), "Commands on a key that were refused.";
    BytesInFrames "bytes_in_frames" Gauge, Some(Section::Far), "Bytes of objects in frames, that is in memory.";
    FarObjects "far_objects" Gauge, Some(Section::Far), "Objects on devices.";
    LostBuckets "lost_buckets" Gauge, Some(Section::Far), "Objects that a device was asked for and that its store no longer has.";
    FarBytes "far_bytes" Gauge, Some(Section::Far), "Bytes that the slots on devices take.";
    LocalHits "local_hits" Counter, Some(Section::Far), "Reads that found their bucket in a frame, or empty.";
    SwapOuts "swap_outs" Counter, Some(Section::Far), "Objects that workers and the sweep moved to devices.";
    SwapIns "swap_ins" Counter, Some(Section::Far), "Objects that workers and the sweep brought into frames.";
    ReadThroughs "read_throughs" Gauge, Some(Section::Far), "Reads from a device that left the object there.";
    DeviceFailures "device_failures" Counter, Some(Section::Far), "Calls of workers and the sweep that a device failed.";
    RefusedMemory "refused_memory" Counter, Some(Section::Far), "Commands on a key that were refused for lack of memory.";
    RefusedFull "refused_full" Counter, Some(Section::Far), "Commands on a key that were refused because there was no place for their object.";
    RefusedDevice "refused_device" Counter, Some(Section::Far), "Commands on a key that were refused because a device failed.";
    NamesLeft "names_left" Gauge, Some(Section::Far), "Version numbers that are left until the map is renewed.";
    Renewals "renewals" Counter, Some(Section::Far), "How often the map was renewed.";
    RenewalLostPairs "renewal_lost_pairs" Counter, Some(Section::Far), "Keys whose put into a renewed map was refused.";
    RenewalLostBuckets "renewal_lost_buckets" Counter, Some(Section::Far), "Buckets that could not be read when the map was renewed.";
    RenewalLastMs "renewal_last_ms" Gauge, Some(Section::Far), "Milliseconds in which nothing was answered at the last renewal.";
    ConnectionsClosed "connections_closed" Counter, None, "Accepted connections that are over.";
    Keys "keys" Gauge, None, "Keys that have a value.";
    KeysAdded "keys_added" Counter, None, "Keys that got a value and had none before.";
    KeysRemoved "keys_removed" Counter, None, "Keys that lost their value.";
    DeadlinesSet "deadlines_set" Counter, None, "Values with a deadline that were set.";
    FarReads "far_reads" Counter, None, "Reads from devices.";
    RestingDevices "resting_devices" Gauge, None, "Devices that are left alone for a while because their stores fail.";
};

/// The row of each statistic, at its `index`.
pub fn statistic_rows() -> &'static [StatisticRow]
    ensures { length result.now ≡ STATISTICS }
{
    &ROWS
}

impl Statistic {
    /// Its place in `Statistics` and in the table.
    pub fn index(self) -> usize
        ensures { result < STATISTICS }
    {
        self as usize
    }
}

/// A number for each statistic. No contract says what is counted.
#[derive(Clone, Copy, Debug)]
pub struct Statistics {
    /// Each number is at its statistic's `index`.
    pub numbers: [u64; STATISTICS],
}

impl Statistics {
    /// All are 0.
    pub fn new() -> Statistics {
        Statistics {
            numbers: [0; STATISTICS],
        }
    }

    pub fn get(&self, statistic: Statistic) -> u64 {
        self.numbers[statistic.index()]
    }

    pub fn set(&mut self, statistic: Statistic, number: u64) {
        self.numbers[statistic.index()] = number;
    }

    /// Adds this many. The sum wraps at 2^64.
    pub fn add(&mut self, statistic: Statistic, more: u64) {
        self.set(statistic, self.get(statistic).wrapping_add(more));
    }

    /// Adds one.
    pub fn count(&mut self, statistic: Statistic) {
        self.add(statistic, 1);
    }

    /// Adds one if what is counted has happened.
    pub fn count_if(&mut self, statistic: Statistic, has_happened: bool) {
        self.add(statistic, u64::from(has_happened));
    }

    /// The same with the statistics that follow from others: connected clients, refused commands, and reads that left a bucket on
    /// its device. The last is a gauge: it is the difference of two counts that are reported one after the other, so it may fall.
    pub fn with_derived(self) -> Statistics {
        let mut all = self;
        let opened = self.get(Statistic::ConnectionsOpened);
        let closed = self.get(Statistic::ConnectionsClosed);
        all.set(Statistic::ConnectedClients, opened.saturating_sub(closed));
        let refused = self
            .get(Statistic::RefusedMemory)
            .saturating_add(self.get(Statistic::RefusedFull))
            .saturating_add(self.get(Statistic::RefusedDevice));
        all.set(Statistic::Refused, refused);
        let (read, moved) = (self.get(Statistic::FarReads), self.get(Statistic::SwapIns));
        all.set(Statistic::ReadThroughs, read.saturating_sub(moved));
        all
    }
}
