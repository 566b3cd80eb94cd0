//! The settings of a map, and their names in faults.
ghost use Rattle.std.specs.Prelude.{◌≡◌, ◌<◌, ◌≤◌, ℕ, None};
ghost use Rattle.far_map.specs.Settings.{config_of, first_bad, new_settings, setting_of};

use hash_table::Config;
use std::fmt;
use std::fmt::{Display, Formatter};

/// Bytes of a bucket and of its place in a scratch file.
const BUCKET: u64 = 74;

/// Bytes of a frame without its object.
const FRAME: u64 = 66;

/// Frames for old versions that wait for reclamation, and for what the sessions hold.
const WAITING: u64 = 5_000;

/// The most buckets, and the most frames.
const MOST: u64 = 1 << 22;

/// The settings of a map. It has a lane for each device that it is opened over, 1 to 64.
///
/// A run looks at them first. It returns `MapFault::BadSetting` with the first one that is outside its
/// limits.
#[derive(Clone, Copy, Debug, PartialEq, Eq)]
pub struct Settings {
    /// The number of buckets, 1 to 2^22. It never changes, and each bucket takes 8 bytes. A bucket's pairs
    /// are one object, which each change copies, so take about as many buckets as there will be pairs.
    pub buckets: u32,
    /// The number of frames in memory, 1 to 2^22. Each holds the object of one bucket, and takes 64 bytes
    /// even when empty.
    pub frames: u32,
    /// The most bytes of an object, 4 to 2^24. An object has 4 bytes and the pairs of its bucket. A pair has
    /// its key and 2 bytes, and its value and 2 bytes, or 4 if that is a `Blob`.
    pub limit: u32,
    /// How many version numbers can be drawn, 1 to 2^40 - 1. Each change of a bucket draws one, and so does
    /// each move of an object. Once all are drawn, changes return `MapRefusal::NamesSpent`.
    pub names: u64,
    /// How many passes can be drawn, 1 to 65,535. A run needs one for each worker and one more, and
    /// `run_renewed` two more.
    pub passes: u32,
    /// How many retired words the queue to the evictor holds, 1 to 4,096.
    pub spares: u32,
    /// The most bytes of objects in frames, or `u64::MAX` for no such bound. The map moves objects to its
    /// devices while more bytes than that are in frames, so it may be above for a while. It bounds the memory
    /// if objects differ in size, which the number of frames doesn't.
    pub bytes: u64,
    /// The format of an object that is written to a device, 1 or 2. In the second format a header has its
    /// bucket and version number, and a reader checks them.
    pub format: u32,
}

/// One of the settings, as `MapFault::BadSetting` names it. Each value of `Settings::bytes` is allowed, so it
/// is not among these.
#[derive(Clone, Copy, Debug, PartialEq, Eq)]
pub enum Setting {
    /// `Settings::buckets`.
    Buckets,
    /// `Settings::frames`.
    Frames,
    /// `Settings::limit`.
    Limit,
    /// `Settings::names`.
    Names,
    /// `Settings::passes`.
    Passes,
    /// The number of devices, which has to be 1 to 64.
    Lanes,
    /// `Settings::spares`.
    Spares,
    /// `Settings::format`.
    Format,
}

impl Settings {
    /// Returns settings with these numbers of buckets and frames, and with objects of at most `limit` bytes.
    ///
    /// The others have these values: as many version numbers and passes as possible, 256 spares, no bound of
    /// the bytes in frames, and the second format. Set their fields to change them. Nothing is checked yet.
    pub fn new(buckets: u32, frames: u32, limit: u32) -> Settings
        ensures { result ≡ new_settings buckets frames limit }
    {
        Settings {
            buckets,
            frames,
            limit,
            names: (1 << 40) - 1,
            passes: 65_535,
            spares: 256,
            bytes: u64::MAX,
            format: 2,
        }
    }

    /// Returns settings of a map that takes about `bytes` of memory and holds about `pairs` pairs. A key and
    /// its value have `pair` bytes on average.
    ///
    /// There is a bucket for each pair, as far as a third of the memory is enough for all buckets and for
    /// their places in scratch files. There are frames for as many objects as the memory has room for, and a
    /// third more, since the evictor starts when fewer than a quarter of all frames are free. `bytes` of the
    /// settings is four fifths of what is left, because malloc loses the last fifth. The others are as `new`
    /// sets them, with objects of at most 2^24 bytes.
    ///
    /// The settings are always within their limits. If a few megabytes or less are asked for, the map takes
    /// more than that.
    pub fn for_memory(bytes: u64, pairs: u64, pair: u32) -> Settings
        ensures { (devices : ℕ) → 0 < devices → devices ≤ 64 → first_bad result devices ≡ None }
    {
        let buckets = pairs.min(bytes / 3 / BUCKET).clamp(1, MOST);
        let object = (pairs / buckets).max(1).saturating_mul(u64::from(pair));
        let rest = bytes.saturating_sub(BUCKET * buckets);
        let fit = rest / object.saturating_add(object / 4).saturating_add(FRAME);
        let used = fit.min(buckets);
        let frames = (used + used / 3 + WAITING.min(bytes / 1_024)).clamp(1, MOST);
        Settings {
            bytes: rest.saturating_sub(FRAME * frames) / 5 * 4,
            ..Settings::new(buckets as u32, frames as u32, 1 << 24)
        }
    }

    // The table's settings over this number of devices. More than 64 become 65 lanes, which are too many.
    pub(crate) fn config(&self, devices: usize) -> Config
        ensures { result ≡ config_of self.now devices }
    {
        Config {
            buckets: self.buckets,
            frames: self.frames,
            limit: self.limit,
            names: self.names,
            passes: self.passes,
            lanes: devices.min(65) as u32,
            spares: self.spares,
            format: self.format,
        }
    }
}

impl Setting {
    fn text(&self) -> &'static str {
        match self {
            Setting::Buckets => "buckets",
            Setting::Frames => "frames",
            Setting::Limit => "limit",
            Setting::Names => "names",
            Setting::Passes => "passes",
            Setting::Lanes => "lanes",
            Setting::Spares => "spares",
            Setting::Format => "format",
        }
    }
}

impl Display for Setting {
    fn fmt<W: fmt::Write>(&self, f: &mut Formatter<W>) -> fmt::Result {
        f.write_str(self.text())
    }
}

/// The setting that has this number in a fault of the table.
pub(crate) fn setting_of(number: u32) -> Setting
    ensures { result ≡ setting_of number }
{
    match number {
        1 => Setting::Buckets,
        2 => Setting::Frames,
        3 => Setting::Limit,
        4 => Setting::Names,
        5 => Setting::Passes,
        6 => Setting::Lanes,
        7 => Setting::Spares,
        _ => Setting::Format,
    }
}
