//! A frame that is about to be filled.
ghost use Rattle.std.specs.Prelude.{◌≡◌, ◌<◌};
ghost use Rattle.frame_cache.specs.Fills.{WasFilled};
ghost use Rattle.frame_cache.specs.Slots.{most_frames};

use crate::frames::Frames;
use crate::owned_frame::Owned;
use crate::slot::{OWNED, SlotClaim, word_of};
use crate::version::{Lodged, Version};
use counted_slot::FREE;
use far_object::FarObject;
use std::marker::Model;
use std::mem::forget;
use version_words::Naming;

/// A free frame that no other call gets. It has to be spent, in its own thread, by `fill` or by `cancel`. Contracts see its
/// number, which is that of the slot it claims.
pub struct Reserved<'a, K: FarObject, V: FarObject, J: Naming> {
    pub(crate) frames: &'a Frames<K, V, J>,
    pub(crate) claim: SlotClaim<'a, K, V, J>,
    pub(crate) frame: u32,
    ghost writes: { claim.right ≡ 2 },
    ghost number: { claim.tag ≡ frame },
    ghost below: { frame < most_frames },
}

impl<'a, K: FarObject, V: FarObject, J: Naming> Model for Reserved<'a, K, V, J> {
    ghost use Rattle.std.specs.Prelude.{ℕ};

    ghost Value = { ℕ };

    ghost view = { λ r. r.frame };
}

impl<'a, K: FarObject, V: FarObject, J: Naming> Reserved<'a, K, V, J> {
    /// The frame's number.
    pub fn frame(&self) -> u32
        ensures is { result ≡ self.now }
        ensures below { result < most_frames }
    {
        self.frame
    }

    /// Puts the version into the frame, and answers the frame's number.
    pub fn fill(self, version: Version<K, V, J>) -> u32
        ensures frame { result ≡ self.entry }
        ensures filled { WasFilled self.entry version.bucket version.name }
    {
        let Self {
            frames: _,
            claim,
            frame,
        } = self;
        let word = word_of(version.name());
        forget(claim.put(Some(Lodged { version }), word));
        frame
    }

    /// Leaves the frame free.
    pub fn cancel(self) {
        let Self {
            frames,
            claim,
            frame,
        } = self;
        frames.announce(frame);
        forget(claim.put(None, FREE));
    }

    /// Leaves the frame empty and owned, by whoever has what is handed out.
    pub fn own(self) -> Owned
        ensures { result ≡ self.entry }
    {
        let Self {
            frames: _,
            claim,
            frame,
        } = self;
        forget(claim.put(None, OWNED));
        Owned { frame }
    }
}
