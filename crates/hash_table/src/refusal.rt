//! The errors of the table's calls.
ghost use Rattle.std.specs.Prelude.{◌≡◌};
ghost use Rattle.hash_table.specs.Refusals.{passes_by};

use thiserror::Error;

/// Why a call was not finished. A refused call is no call of the history, and changes no pair. Each call
/// lists which of these it returns, and when.
#[derive(Clone, Copy, Debug, PartialEq, Eq, Error)]
pub enum Refusal {
    /// An allocation failed.
    ///
    /// In a wide table it is also returned by a put into a bucket that has 1,048,576 pairs, the most that an
    /// object can count.
    #[error("memory")]
    Memory,
    /// The bucket's object is on the device. `FarTable::fetch` brings it into a frame.
    #[error("far")]
    Far,
    /// Another thread was faster. The bucket's word is another one by now, or another name (version number)
    /// was drawn meanwhile. Another try may succeed.
    #[error("moved")]
    Moved,
    /// The frame or the lane did not return the version that the word names, for example because it was
    /// replaced meanwhile. Another try may succeed.
    #[error("missed")]
    Missed,
    /// The call found no free frame. Each holds a version, is being filled or emptied, or is owned by a
    /// caller that recycles. `FarTable::swap_out`, and `FarTable::reclaim` of the spare that it leaves, free a frame.
    #[error("no frame")]
    NoFrame,
    /// The bucket's new object would be longer than `Config::limit`.
    #[error("too long")]
    TooLong,
    /// All names (version numbers) are drawn. No call that needs one can succeed any more. Gets go on.
    #[error("names spent")]
    NamesSpent,
    /// 64 spares (retired words) wait with the caller. Reclaim some before the next try.
    #[error("limbo full")]
    LimboFull,
    /// The device failed in this call.
    #[error("device")]
    Device,
    /// The bytes that were read are no object of this bucket and name. It is never returned over an honest
    /// device, that is, one whose type states that a read returns what was written.
    #[error("damaged")]
    Damaged,
}

impl Refusal {
    // Whether another try may succeed, although nothing else is done meanwhile.
    pub(crate) fn passes_by(self) -> bool
        ensures { result ≡ passes_by self }
    {
        match self {
            Refusal::Moved => true,
            Refusal::Missed => true,
            _ => false,
        }
    }
}

/// Why a table was not opened. What was handed in is dropped.
#[derive(Clone, Copy, Debug, PartialEq, Eq, Error)]
pub enum OpenFault {
    /// A setting is outside its limits. The number is that of the first such field of `Config`, from 1.
    #[error("bad config {0}")]
    BadConfig(u32),
    /// An allocation failed.
    #[error("memory")]
    Memory,
    /// A device failed while it was made empty.
    #[error("device")]
    Device,
}

/// Why a spare (a retired word) was not reclaimed. It is returned, and can be tried again later.
#[derive(Clone, Copy, Debug, PartialEq, Eq, Error)]
pub enum ReclaimFault {
    /// A reader is in its frame.
    #[error("held")]
    Held,
    /// The device failed in this call.
    #[error("device")]
    Device,
    /// An allocation failed.
    #[error("memory")]
    Memory,
}
