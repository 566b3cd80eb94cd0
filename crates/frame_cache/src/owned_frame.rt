//! A frame that stays with the caller who emptied it.
//!
//! # Why
//!
//! Each free frame is named to all threads, and each that takes or frees one writes the same few words of hints. A caller who
//! fills the frame that it emptied last writes none of them, and searches for none.
//!
//! # Nobody else gets it
//!
//! The word of an owned frame is neither that of a free one nor that of any name, so no search and no other claim meets it. It
//! goes by the one `Owned` that was made for it, which is not copied: `Frames::reserve_owned` takes it for the next version, and
//! `Frames::give_back` names it as free again. Where an `Owned` is dropped its frame stays empty for good.
ghost use Rattle.std.specs.Prelude.{◌≡◌};

use std::marker::Model;

/// An empty frame that whoever has this owns. Contracts see its number.
#[derive(Drop)]
pub struct Owned {
    pub(crate) frame: u32,
}

impl Model for Owned {
    ghost use Rattle.std.specs.Prelude.{ℕ};

    ghost Value = { ℕ };

    ghost view = { λ o. o.frame };
}

impl Owned {
    /// The frame's number.
    pub fn frame(&self) -> u32
        ensures { result ≡ self.now }
    {
        self.frame
    }
}
