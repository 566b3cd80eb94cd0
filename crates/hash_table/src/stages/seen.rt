//! Where the object of a word is.
ghost use Rattle.std.specs.Prelude.{◌≡◌, IsTrue};
ghost use Rattle.table_core.specs.BucketWords.{name_of, place_of};
ghost use Rattle.hash_table.specs.Stages.{IsPlace, IsLocal};

use table_core::word::{EMPTY_PLACE, FAR_PLACE, name_of, place_of};

/// Where the object of a word is.
#[derive(Clone, Copy, Debug, PartialEq, Eq)]
pub enum Place {
    /// There is none.
    Nothing,
    /// In this frame.
    Frame(u32),
    /// On the device, under the word's name (its version number).
    Device,
}

/// Where the object of the word is.
pub(crate) fn split(word: u64) -> Place
    ensures { IsPlace word result }
{
    if word == 0 {
        return Place::Nothing;
    }
    match place_of(word) {
        EMPTY_PLACE => Place::Nothing,
        FAR_PLACE => Place::Device,
        frame => Place::Frame(frame),
    }
}

/// Whether the word names this frame and this version.
pub(crate) fn lies_in(word: u64, name: u64, frame: u32) -> bool
    ensures { IsTrue result → IsLocal word × (place_of word ≡ frame) × (name_of word ≡ name) }
{
    match split(word) {
        // An object of no pairs lies nowhere.
        Place::Nothing => false,
        Place::Device => false,
        Place::Frame(place) => place == frame && name_of(word) == name,
    }
}
