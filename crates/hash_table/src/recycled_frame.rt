//! A frame that a caller emptied itself, and owns until it puts its next object there.
//!
//! A caller that reclaims its own spares (retired words) empties a frame for each frame that it fills. If
//! each were listed as free for all threads, and the next one taken from that list, all callers would write
//! the same few words at every change. They would wait for one another. A caller that recycles fills the
//! frame that it emptied, and writes none of these words. Nobody else gets that frame meanwhile
//! (`frame_cache::Owned`).
//!
//! The same holds for the memory of the version that was there. Nobody reads it any more, so the caller
//! builds its next object in it (`far_object::Buffers`). A caller whose objects keep their sizes, of at most
//! 65,536 bytes, then allocates nothing for them.
ghost use Rattle.std.specs.Prelude.{◌≡◌, ◌<◌, IfOk, IfErr};
ghost use Rattle.table_core.specs.BucketWords.{place_of, empty_place};

use crate::caller::Caller;
use crate::limbo::Limbo;
use crate::table::FarTable;
use far_device::Device;
use far_object::{Buffers, FarObject};
use frame_cache::{NoFrame, Owned, Reserved};
use version_words::{Naming, Spare};

/// Which frame a caller owns between its calls.
#[derive(Drop)]
pub enum Recycling {
    /// It owns none.
    Off,
    /// It has had none yet, and keeps the next one that it empties. If it needs one before, it searches from
    /// this part of all frames on, in 2^32nds.
    Begun(u32),
    /// It has none, and keeps the next one that it empties. If it needs one before, it searches from this one
    /// on.
    Wanting(u32),
    /// It owns this frame.
    Owning(Owned),
}

// The part of all frames, in 2^32nds, from which the caller of this pass searches for its first one. It is
// the number less 1, with its bits in reverse order. So two, four or eight callers that were drawn one after
// another begin as far apart as they can.
fn part_of(pass: u32) -> u32 {
    pass.wrapping_sub(1).reverse_bits()
}

// The frame at this part of all frames.
fn frame_behind(part: u32, frames: u32) -> u32 {
    (u64::from(part).wrapping_mul(u64::from(frames)) >> 32) as u32
}

impl<K: FarObject, V: FarObject, J: Naming> Caller<K, V, J> {
    /// Lets the caller own a frame: it keeps one of the frames that it empties by `FarTable::reclaim`. Its
    /// next call that needs a frame fills it. The memory of what was there is used for its next objects.
    ///
    /// It is for callers that reclaim their own spares: they then don't contend for the same free frames. No
    /// contract says anything about it, because none says which frame is filled.
    ///
    /// While a caller owns a frame nobody else gets it, and `FarTable::free` does not count it. So have
    /// several times as many frames as callers that recycle. `FarTable::stop_recycling` gives the frame back.
    /// If the caller is dropped with it, the frame stays empty until the table ends.
    pub fn recycle(&mut self)
        ensures pass { self.new.pass ≡ self.old.pass }
        ensures limbo { self.new.limbo ≡ self.old.limbo }
    {
        if self.limbo.recycles() {
            return;
        }
        let part = part_of(self.pass.number());
        self.limbo.set_recycling(Recycling::Begun(part));
    }

    /// Whether the caller owns a frame, which its next call that needs one fills. It is a hint: no contract
    /// says anything about it.
    pub fn owns_frame(&self) -> bool {
        self.limbo.owns_frame()
    }
}

impl<K: FarObject, V: FarObject, J: Naming, D: Device> FarTable<K, V, J, D> {
    /// Ends what `Caller::recycle` began. The caller's frame is free for all, and it keeps no frame and no
    /// memory of what it empties from now on.
    pub fn stop_recycling(&self, caller: &mut Caller<K, V, J>)
        ensures pass { caller.new.pass ≡ caller.old.pass }
        ensures limbo { caller.new.limbo ≡ caller.old.limbo }
    {
        if let Recycling::Owning(owned) = caller.limbo.set_recycling(Recycling::Off) {
            self.frames.give_back(owned);
        }
        caller.buffers = Buffers::new();
    }

    /// Whether there is probably a frame to reserve, by few loads. It is a hint: no contract says anything
    /// about it.
    pub(crate) fn may_reserve(&self, limbo: &Limbo<K, V, J>) -> bool {
        limbo.owns_frame() || self.frames.has_free()
    }

    /// Reserves a free frame: the one that the caller owns. If the caller recycles and owns none, the search
    /// begins at the last one that it had, and otherwise at frame 0. `NoFrame` is returned as
    /// `Refusal::NoFrame` states.
    pub(crate) fn reserve(
        &self,
        limbo: &mut Limbo<K, V, J>,
    ) -> Result<Reserved<'_, K, V, J>, NoFrame>
        ensures here { IfOk result (λ reserved. reserved < self.now.frames) }
        ensures limbo { limbo.new ≡ limbo.old }
    {
        let from = match limbo.set_recycling(Recycling::Off) {
            Recycling::Off => return self.frames.reserve(),
            Recycling::Begun(part) => frame_behind(part, self.frames.count()),
            Recycling::Wanting(last) => last,
            Recycling::Owning(owned) => {
                let frame = owned.frame();
                limbo.set_recycling(Recycling::Wanting(frame));
                return self.frames.reserve_owned(owned).ok_or(NoFrame);
            }
        };
        limbo.set_recycling(Recycling::Wanting(from));
        let reserved = self.frames.reserve_from(from)?;
        limbo.set_recycling(Recycling::Wanting(reserved.frame()));
        Ok(reserved)
    }

    /// Leaves the frame empty. The caller owns it if it recycles and has none; otherwise it is free for all.
    pub(crate) fn cancel(&self, limbo: &mut Limbo<K, V, J>, reserved: Reserved<'_, K, V, J>)
        ensures limbo { limbo.new ≡ limbo.old }
    {
        if limbo.wants_frame() {
            limbo.set_recycling(Recycling::Owning(reserved.own()));
        } else {
            reserved.cancel();
        }
    }

    /// Empties the frame of the spare's word. If the caller recycles and has no frame, it owns this one
    /// afterwards, and keeps the memory of the object that was there.
    pub(crate) fn reclaim_frame(
        &self,
        limbo: &mut Limbo<K, V, J>,
        buffers: &mut Buffers,
        spare: Spare<K, V, J>,
    ) -> Result<bool, Spare<K, V, J>>
        requires frame { place_of spare.word < empty_place }
        ensures back { IfErr result (λ s. s ≡ spare) }
        ensures limbo { limbo.new ≡ limbo.old }
    {
        if !limbo.wants_frame() {
            return self.frames.reclaim(spare);
        }
        match self.frames.reclaim_owned(spare) {
            Ok(Some((owned, object))) => {
                limbo.set_recycling(Recycling::Owning(owned));
                buffers.keep(object);
                Ok(true)
            }
            Ok(None) => Ok(false),
            Err(spare) => Err(spare),
        }
    }
}
