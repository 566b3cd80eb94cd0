//! How the memory is divided: the program and the sessions get their part first, and the map the rest, which
//! `Settings::for_memory` divides.

use far_map::Settings;

/// Bytes of the program without a map.
const PROGRAM: u64 = 1 << 20;

/// Bytes of a session: its buffers, its frames, and what malloc keeps for its thread.
const SESSION: u64 = 512 << 10;

/// The least bytes of a map.
const LEAST: u64 = 4 << 20;

/// The least bytes of memory for each bucket. About a third of them is for the bucket and its frames.
const BUCKET: u64 = 512;

/// Frames that a session may take in addition to those of the buckets. Of these 64 are of old versions,
/// one is its own, and one is for the object that it is about to install.
const FRAMES: u32 = 66;

/// The most frames of a map.
const MOST_FRAMES: u32 = 1 << 22;

/// Bytes of the program and of this many sessions. The map's evictor counts as one more.
fn taken_by(sessions: u32) -> u64 {
    SESSION
        .saturating_mul(u64::from(sessions).saturating_add(1))
        .saturating_add(PROGRAM)
}

/// The least bytes of memory for this many sessions.
pub fn least_memory(sessions: u32) -> u64 {
    taken_by(sessions).saturating_add(LEAST)
}

/// The settings of a map that takes this many bytes together with the program and its sessions. There are as
/// many buckets as the pairs that are expected, but at most one for each 512 bytes: a bucket may have several
/// pairs.
///
/// There is a frame for each bucket, so only the bound on bytes decides which objects stay in memory.
pub fn divide(memory: u64, pairs: Option<u64>, sessions: u32) -> Settings {
    let left = memory.saturating_sub(taken_by(sessions));
    let expected = pairs.unwrap_or(u64::MAX).min(left / BUCKET);
    let map = Settings::for_memory(left, expected, 0);
    let frames = map
        .frames
        .saturating_add(FRAMES.saturating_mul(sessions))
        .min(MOST_FRAMES);
    Settings { frames, ..map }
}
