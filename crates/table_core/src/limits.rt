//! How far a table may grow.

/// The most buckets of a table: 2^22.
pub const MOST_BUCKETS: u32 = 4_194_304;

/// The last name that a table may draw.
pub const LAST_NAME: u64 = 1_099_511_627_775;

/// The last pass that a table may draw.
pub const LAST_PASS: u32 = 65_535;

/// What a row of words was opened with.
#[derive(Clone, Copy, Debug, PartialEq, Eq)]
pub struct Limits {
    /// How many buckets there are, at most `MOST_BUCKETS`.
    pub buckets: u32,
    /// The last name that may be drawn, at most `LAST_NAME`.
    pub names: u64,
    /// The last pass that may be drawn, at most `LAST_PASS`.
    pub passes: u32,
    /// Whether the contents of words are vouched for: whether the device gives back what was written.
    pub honest: bool,
}
