//! What a row is opened with.

/// Whether what a device gives back is what was written to it, so that the contents of words are vouched for. Contracts
/// alone read it.
pub trait Honesty {
    ghost use Rattle.std.specs.Prelude.{Bool};

    ghost honest: { Bool };
}

/// How many buckets, names and passes there may be.
#[derive(Clone, Copy, Debug, PartialEq, Eq)]
pub struct Sizes {
    /// The number of buckets, 1 to 2^22.
    pub buckets: u32,
    /// The last name that may be drawn, below 2^40.
    pub names: u64,
    /// The last pass that may be drawn, at most 65,535.
    pub passes: u32,
}
