//! The settings of a table.
//!
//! # Two widths
//!
//! A wide table may have more buckets, more frames and longer objects. All other limits are the same for
//! every table. So are the fields, their numbers, and the order in which they are checked.
ghost use Rattle.std.specs.Prelude.{◌≡◌, position};
ghost use Rattle.hash_table.specs.Configs.{is_outside};

use frame_cache::MOST_FRAMES;
use table_core::{LAST_NAME, LAST_PASS, MOST_BUCKETS};

/// The number of the field `lanes`.
const LANES: u32 = 6;

/// The settings of a table.
///
/// Each field has a number, from 1, by which `OpenFault::BadConfig` reports it. `first_bad` returns the first
/// field that is outside its limits, and `first_bad_wide` does so for a wide table.
#[derive(Clone, Copy, Debug, PartialEq, Eq)]
pub struct Config {
    /// 1: the number of buckets, 1 to 65,536, or to 2^22 in a wide table. It can't be changed later.
    pub buckets: u32,
    /// 2: the number of frames, local slots for one object each, 1 to 65,536, or to 2^22 in a wide table.
    pub frames: u32,
    /// 3: the most bytes of an object, 4 to 1,048,576, or to 2^24 in a wide table. They are 4 bytes for the
    /// count of a bucket's pairs, and the pairs. The header of format 2 is not counted.
    pub limit: u32,
    /// 4: how many names (version numbers) may be drawn, 1 to 2^40 - 1. Each change, swap-out and swap-in
    /// draws one, and none is used again.
    pub names: u64,
    /// 5: how many passes (callers' identities) may be drawn, 1 to 65,535. Each caller takes one for good.
    pub passes: u32,
    /// 6: the number of lanes, 1 to 64. Each is one device with its lock.
    pub lanes: u32,
    /// 7: how many spares (retired words) the queue to the evictor holds, 1 to 4,096. The table only checks
    /// it; `far_map` opens the queue.
    pub spares: u32,
    /// 8: the format of an object that is written to a device, 1 or 2. Format 2 adds a header of 16 bytes
    /// with the bucket and the name, which a read checks.
    pub format: u32,
}

/// The upper limits that differ between a usual and a wide table.
#[derive(Clone, Copy)]
struct Width {
    buckets: u32,
    frames: u32,
    limit: u32,
}

const USUAL: Width = Width {
    buckets: 65_536,
    frames: 65_536,
    limit: 1_048_576,
};

const WIDE: Width = Width {
    buckets: MOST_BUCKETS,
    frames: MOST_FRAMES,
    limit: 16_777_216,
};

/// A field's value, with the least and the greatest value that it may have.
#[derive(Clone, Copy)]
struct Field {
    least: u64,
    greatest: u64,
    value: u64,
}

impl Field {
    ghost use Rattle.hash_table.specs.Configs.{is_within};

    fn is_within(&self) -> bool
        ensures { result ≡ is_within self.now }
    {
        self.least <= self.value && self.value <= self.greatest
    }
}

fn bounded(least: u64, greatest: u64, value: u64) -> Field
    ensures { result ≡ record { least = least; greatest = greatest; value = value } }
{
    Field {
        least,
        greatest,
        value,
    }
}

/// The index of the first field that is outside its limits.
fn first_outside(fields: &[Field]) -> Option<usize>
    ensures { result ≡ position is_outside fields.now }
{
    fields.iter().position(|field| !field.is_within())
}

impl Config {
    ghost use Rattle.std.specs.Prelude.{◌==◌, None};
    ghost use Rattle.hash_table.specs.Configs.{usual, wide, fields, first_bad, first_bad_of, first_bad_wide, first_bad_with, first_bad_wide_with, or_lanes};

    /// The fields, in the order of their numbers.
    fn fields(&self, width: Width) -> [Field; 8]
        ensures { result ≡ fields width self.now }
    {
        [
            bounded(1, u64::from(width.buckets), u64::from(self.buckets)),
            bounded(1, u64::from(width.frames), u64::from(self.frames)),
            bounded(4, u64::from(width.limit), u64::from(self.limit)),
            bounded(1, LAST_NAME, self.names),
            bounded(1, u64::from(LAST_PASS), u64::from(self.passes)),
            bounded(1, 64, u64::from(self.lanes)),
            bounded(1, 4_096, u64::from(self.spares)),
            bounded(1, 2, u64::from(self.format)),
        ]
    }

    fn first_bad_of(&self, width: Width) -> Option<u32>
        ensures { result ≡ first_bad_of width self.now }
    {
        match first_outside(&self.fields(width)) {
            None => None,
            Some(at) => Some(at as u32 + 1),
        }
    }

    /// The first bad field if this many devices are handed in. The lanes are bad if there are not as many.
    fn or_lanes(&self, first: Option<u32>, devices: usize) -> Option<u32>
        ensures { result ≡ or_lanes first (self.now.lanes == devices) }
    {
        if self.lanes as usize == devices {
            return first;
        }
        match first {
            None => Some(LANES),
            Some(field) => Some(field.min(LANES)),
        }
    }

    /// The number of the first field that is outside its limits, counted from 1. None if all are within.
    pub fn first_bad(&self) -> Option<u32>
        ensures { result ≡ first_bad self.now }
    {
        self.first_bad_of(USUAL)
    }

    /// As `first_bad`, and the field `lanes` is bad too if it is not the number of devices.
    pub fn first_bad_with(&self, devices: usize) -> Option<u32>
        ensures { result ≡ first_bad_with devices self.now }
    {
        self.or_lanes(self.first_bad(), devices)
    }

    /// As `first_bad`, by the limits of a wide table.
    pub fn first_bad_wide(&self) -> Option<u32>
        ensures { result ≡ first_bad_wide self.now }
    {
        self.first_bad_of(WIDE)
    }

    /// As `first_bad_wide`, and the field `lanes` is bad too if it is not the number of devices. Settings
    /// that a usual table may have, a wide one may have too.
    pub fn first_bad_wide_with(&self, devices: usize) -> Option<u32>
        ensures is { result ≡ first_bad_wide_with devices self.now }
        ensures usual { first_bad_with devices self.now ≡ None → result ≡ None }
    {
        self.or_lanes(self.first_bad_wide(), devices)
    }
}
