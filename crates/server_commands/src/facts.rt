//! What a server knows of itself.

use crate::device_reason::DeviceReason;
use crate::statistics::Statistics;

/// What INFO tells. Times are in milliseconds since 1970.
#[derive(Clone, Copy)]
pub struct Facts {
    pub now: u64,
    pub started: u64,
    /// Threads that answer.
    pub workers: u32,
    /// 0 for none.
    pub port: u32,
    pub most_clients: u64,
    /// Bytes that the server may have.
    pub most_memory: u64,
    /// Whether values go where there is no room; else a command that needs some is refused.
    pub evicts: bool,
    pub buckets: u32,
    pub frames: u32,
    /// Bytes that objects in frames may have.
    pub most_in_frames: u64,
    /// Bytes that objects on devices may have. None for any number.
    pub far_limit: Option<u64>,
    /// The numbers of the table. Those that follow from others (`Statistics::with_derived`) may be left out.
    pub statistics: Statistics,
    /// How many keys each database has.
    pub keys: [u64; 256],
    /// Why a device failed last. None if none has.
    pub last_device_error: Option<DeviceReason>,
    /// When it did; 0 if none has.
    pub last_device_error_time: u64,
    /// How many calls of devices have failed, for each reason, in the order of `DEVICE_REASONS`.
    pub device_errors: [u64; 10],
}

/// What CONFIG GET answers of.
#[derive(Clone, Copy)]
pub struct Options {
    /// `maxmemory`, in bytes.
    pub most_memory: u64,
    /// `maxmemory-policy`: `allkeys-lru`, or else `noeviction`.
    pub evicts: bool,
    /// `maxclients`.
    pub most_clients: u64,
    /// `timeout`, in seconds; 0 for none.
    pub timeout: u64,
    /// `proto-max-bulk-len`: the most bytes of an argument.
    pub longest_value: u64,
    /// 0 for none.
    pub port: u32,
    /// `io-threads`.
    pub workers: u32,
    /// `databases`: how many there are.
    pub databases: u32,
    /// `slowlog-log-slower-than`: from how many microseconds on a command is a slow one; none is if it is
    /// below zero.
    pub slow: i64,
}

/// The name that Redis has for what happens where there is no room.
pub(crate) fn policy(evicts: bool) -> &'static str {
    if evicts { "allkeys-lru" } else { "noeviction" }
}

/// The version of Redis whose commands these are.
pub(crate) const REDIS_VERSION: &str = "7.0.15";
