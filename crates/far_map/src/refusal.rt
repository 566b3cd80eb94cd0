//! Why a session's call is refused.
ghost use Rattle.std.specs.Prelude.{◌≡◌};
ghost use Rattle.far_map.specs.Refusals.{said};

use hash_table::Refusal as TableRefusal;
use thiserror::Error;

/// Why a call of a session was not made. No pair of the map has changed then.
///
/// It is final: if another try or more room may help, the call has tried that itself. `Calls` lists which
/// call returns which of these.
#[derive(Clone, Copy, Debug, PartialEq, Eq, Error)]
pub enum MapRefusal {
    /// The pairs of the key's bucket would take more bytes than `Settings::limit`. `text` and
    /// `Value::from_bytes` return it for more bytes than a value of the type may have.
    #[error("too long")]
    TooLong,
    /// The call found no room within 1,000 further tries. `Lack` states which kind of room.
    #[error("full")]
    Full(Lack),
    /// The last version number was drawn, and the call needs one: for a new object, or to move another one
    /// out of its frame. Gets go on. A fresh map has all numbers again (`run_renewed`).
    #[error("names spent")]
    NamesSpent,
    /// A device failed in this call: it did not read or write an object, or did not remove an old one. A
    /// later call may succeed.
    #[error("device")]
    Device,
    /// The bytes that a device returned are no object of the bucket and version that they were asked for.
    /// Over an honest device it is proved that no call of the history and no visit returns this.
    #[error("damaged")]
    Damaged,
    /// An allocation failed, or the bucket has 1,048,576 pairs and can't count one more.
    #[error("memory")]
    Memory,
}

/// What a call that was refused with `MapRefusal::Full` found no room for.
#[derive(Clone, Copy, Debug, PartialEq, Eq)]
pub enum Lack {
    /// A frame for its object. None was free, and none could be emptied, for example because all are held.
    Frame,
    /// The version that it would replace. As many old ones wait as may, and none could be removed, for
    /// example because they are still read.
    Spare,
}

/// What a call returns for a refusal of the table that is final. `Full` is returned for those that another
/// try might not meet.
pub(crate) fn said(refusal: TableRefusal) -> MapRefusal
    ensures { result ≡ said refusal }
{
    match refusal {
        TableRefusal::Memory => MapRefusal::Memory,
        TableRefusal::TooLong => MapRefusal::TooLong,
        TableRefusal::NamesSpent => MapRefusal::NamesSpent,
        TableRefusal::Device => MapRefusal::Device,
        TableRefusal::Damaged => MapRefusal::Damaged,
        TableRefusal::LimboFull => MapRefusal::Full(Lack::Spare),
        _ => MapRefusal::Full(Lack::Frame),
    }
}
