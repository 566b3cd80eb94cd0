//! What a call replies, as text, or why it could not be made.

use far_map::{Lack, MapRefusal};
use std::alloc::{AllocError, AllocFailed, Global};

/// The player's own growths are no call's: where one is refused the case can't be played.
pub const OUT_OF_MEMORY: Stop = Stop::Mistake("out of memory");

/// Why a call has no text of its own to reply.
#[derive(Clone, Copy)]
pub enum Stop {
    /// The map refused it.
    Refused(MapRefusal),
    /// The line is wrong.
    Mistake(&'static str),
}

impl From<MapRefusal> for Stop {
    fn from(refusal: MapRefusal) -> Stop {
        Stop::Refused(refusal)
    }
}

impl From<AllocError> for Stop {
    fn from(_refused: AllocError) -> Stop {
        OUT_OF_MEMORY
    }
}

impl<T: Drop> From<AllocFailed<T>> for Stop {
    fn from(_refused: AllocFailed<T>) -> Stop {
        OUT_OF_MEMORY
    }
}

/// What the player made for itself of a word. A word that is too long is refused as the map refuses it.
pub fn own<T>(made: Result<T, MapRefusal>) -> Result<T, Stop> {
    match made {
        Ok(made) => Ok(made),
        Err(MapRefusal::Memory) => Err(OUT_OF_MEMORY),
        Err(refusal) => Err(Stop::Refused(refusal)),
    }
}

/// What a call said: a text, or why there is none.
pub type Said = Result<String, Stop>;

/// The text of a refusal.
pub fn refusal_text(refusal: MapRefusal) -> &'static str {
    match refusal {
        MapRefusal::TooLong => "too long",
        MapRefusal::Full(Lack::Frame) => "full frame",
        MapRefusal::Full(Lack::Spare) => "full spare",
        MapRefusal::NamesSpent => "names spent",
        MapRefusal::Device => "device",
        MapRefusal::Damaged => "damaged",
        MapRefusal::Memory => "memory",
    }
}

/// A word that is known beforehand.
pub fn plain(alloc: Global, word: &str) -> Said {
    Ok(String::from_str(alloc, word)?)
}

/// `true` or `false`.
pub fn truth(alloc: Global, is_so: bool) -> Said {
    plain(alloc, if is_so { "true" } else { "false" })
}

/// A number.
pub fn count(alloc: Global, number: u64) -> Said {
    Ok(format!(in alloc; "{number}")?)
}

/// The reply that is told: a refusal is a text too.
pub fn told(alloc: Global, said: Said) -> anyhow::Result<String> {
    match said {
        Ok(text) => Ok(text),
        Err(Stop::Refused(refusal)) => match String::from_str(alloc, refusal_text(refusal)) {
            Ok(text) => Ok(text),
            Err(_) => anyhow::bail!("out of memory"),
        },
        Err(Stop::Mistake(mistake)) => anyhow::bail!("{mistake}"),
    }
}

/// Whether a growth was refused.
pub fn is_memory(said: &Said) -> bool {
    matches!(said, Err(Stop::Refused(MapRefusal::Memory)))
}
