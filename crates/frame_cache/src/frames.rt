//! Frames: a bounded row of places for versions.
//!
//! # A version ends for its own spare
//!
//! Of the calls `reclaim` and `reclaim_owned` alone take a version out of a frame, and they take a `Spare`: a word that its
//! bucket never holds again. They claim the right to write where nobody reads and the frame's word shows the last 32 bits of the
//! spare's name, and leave the frame owned: then nobody else gets it while they compare the whole name. `laws::retire` ends what
//! was taken out exactly where it is the spare's, and another version is put back, into the frame where it lay. No clause says
//! so of a shared frame.
//!
//! # A claim is of the frame that it names
//!
//! Each slot is made with the frame's number as its tag, which takes no room. A claim has its slot's tag, so that nobody
//! can give out a frame under the number of another.
//!
//! # Hints
//!
//! Which frames are free is found by three layers of bits (`vacant.rt`), so that neither a search nor what it takes on the
//! stack grows with the frames. Nothing is claimed of them. A frame is named before it becomes free, and whoever takes it
//! clears its bit afterwards, so that the lowest layer names each free frame, and at rest no other. A bit of an upper layer may
//! be missing for a moment. So a search that finds no frame by the upper layers looks at the whole lowest one before it
//! answers `NoFrame`: one load for 64 frames.
ghost use Rattle.std.specs.Prelude.{◌≡◌, ◌<◌, ◌≤◌, IfOk, IfErr, IfSome, IsTrue};
ghost use Rattle.table_core.specs.BucketWords.{name_of, place_of, empty_place};
ghost use Rattle.frame_cache.specs.Slots.{most_frames, IsOfVersion, IsObjectOf};

use crate::bits::Bits;
use crate::fault::Missed;
use crate::laws::retire;
use crate::owned_frame::Owned;
use crate::reserved_frame::Reserved;
use crate::scope::Scope;
use crate::slot::{OWNED, Slot, SlotClaim, read, take, unread, word_of};
use crate::vacant::Vacant;
use crate::version::{Lodged, Version};
use counted_slot::{Counted, FREE};
use far_object::{FarObject, Memory, Object};
use std::alloc::Global;
use std::marker::Model;
use std::mem::{forget, replace, size_of};
use table_core::word::{name_of, place_of};
use version_words::{Naming, Spare};

mod reservation;

/// The most frames that there may be: 2^22.
pub const MOST_FRAMES: u32 = 4_194_304;

// The bucket and the name of the version that the claim shows.
fn told<K: FarObject, V: FarObject, J: Naming>(claim: &SlotClaim<'_, K, V, J>) -> Option<(u32, u64)>
    requires { claim.now.right ≡ 1 }
    ensures bucket { IfSome result (λ found. found.0 < J.limits.buckets) }
    ensures own { IfSome result (λ found. IsOfVersion K.enc V.enc J.limits found.0 found.1) }
{
    match claim.get() {
        Some(lodged) => Some(lodged.version.naming()),
        None => None,
    }
}

/// A row of frames, whose numbers are those below their count. Every call takes `&self`, and threads share it. A frame
/// takes 64 bytes and four bits. Contracts see the count, which is the most versions that lie in frames at once.
///
/// A number that is not below the count is that of an empty frame to every call.
#[derive(Drop)]
pub struct Frames<K: FarObject, V: FarObject, J: Naming> {
    slots: Vec<Slot<K, V, J>>,
    vacant: Vacant,
    touched: Bits,
}

impl<K: FarObject, V: FarObject, J: Naming> Model for Frames<K, V, J> {
    ghost use Rattle.std.specs.Prelude.{ℕ, ◌≤◌, vec_len};
    ghost use Rattle.frame_cache.specs.Slots.{most_frames, AreNumbered};

    ghost Value = { ℕ };

    ghost view = { λ f. vec_len f.slots };

    ghost invariant = { λ f. (vec_len f.slots ≤ most_frames) × AreNumbered f.slots.items };
}

impl<K: FarObject, V: FarObject, J: Naming> Frames<K, V, J> {
    /// So many empty frames, at most `MOST_FRAMES`. `Memory` comes where a growth is refused; nothing grows later.
    pub fn open(alloc: Global, count: u32) -> Result<Frames<K, V, J>, Memory>
        requires few { count ≤ most_frames }
        ensures count { IfOk result (λ frames. frames ≡ count) }
    {
        let mut slots = Vec::with_capacity(alloc, count as usize)?;
        for frame in 0..count {
            slots.push(Counted::new(None, &frame))?;
        }
        Ok(Frames {
            slots,
            vacant: Vacant::all(alloc, count)?,
            touched: Bits::new(alloc, count)?,
        })
    }

    /// How many frames there are.
    pub fn count(&self) -> u32
        ensures { result ≡ self.now }
    {
        self.slots.len() as u32
    }

    /// How many bytes of memory a frame takes, without those that its object takes elsewhere. It tells a caller how many
    /// frames there is room for. No clause says the number.
    pub fn frame_size() -> usize {
        size_of::<Slot<K, V, J>>()
    }

    fn slot(&self, frame: u32) -> Option<&Slot<K, V, J>>
        ensures number { IfSome result (λ slot. slot.now ≡ frame) }
        ensures here { IfSome result (λ _. frame < self.now) }
        ensures few { self.now ≤ most_frames }
    {
        self.slots.get(frame as usize)
    }

    // This frame where it is free.
    fn reserve_free(&self, frame: u32) -> Option<Reserved<'_, K, V, J>>
        ensures here { IfSome result (λ reserved. reserved < self.now) }
        ensures number { IfSome result (λ reserved. reserved ≡ frame) }
    {
        let slot = self.slot(frame)?;
        if slot.load() != FREE {
            return None;
        }
        let claim = take(slot, FREE).ok()?;
        self.vacant.clear(frame);
        Some(Reserved {
            frames: self,
            claim,
            frame,
        })
    }

    /// The owned frame, for its owner's next version. None comes only for a frame of other frames than these.
    pub fn reserve_owned(&self, owned: Owned) -> Option<Reserved<'_, K, V, J>>
        ensures here { IfSome result (λ reserved. reserved < self.now) }
        ensures number { IfSome result (λ reserved. reserved ≡ owned) }
    {
        let Owned { frame } = owned;
        let claim = take(self.slot(frame)?, OWNED).ok()?;
        Some(Reserved {
            frames: self,
            claim,
            frame,
        })
    }

    /// The owned frame is free for all.
    pub fn give_back(&self, owned: Owned) {
        if let Some(reserved) = self.reserve_owned(owned) {
            reserved.cancel();
        }
    }

    // Names the frame as free, which it is to become right after this.
    pub(crate) fn announce(&self, frame: u32) {
        self.vacant.set(frame);
    }

    /// A scope on the version of this name. `Missed` comes where the frame has no version, one of another name, or is
    /// being filled or emptied, or has as many readers as can be counted; and where 1,000 claims in a row each met a change of
    /// the frame's word by another thread. No clause says when it comes.
    pub fn enter(&self, frame: u32, name: u64) -> Result<Scope<'_, K, V, J>, Missed>
        ensures name { IfOk result (λ s. s.name ≡ name) }
        ensures here { IfOk result (λ _. frame < self.now) }
    {
        let slot = self.slot(frame).ok_or(Missed)?;
        match read(slot, Some(name)) {
            Some(claim) => Scope::compared(claim, name),
            None => Err(Missed),
        }
    }

    /// The bucket and the name of what lay there at a moment of the call. None where nothing did, and where `enter` would
    /// miss it for its readers or since it was being filled or emptied. No clause says when none comes.
    pub fn seen(&self, frame: u32) -> Option<(u32, u64)>
        ensures bucket { IfSome result (λ found. found.0 < J.limits.buckets) }
        ensures own { IfSome result (λ found. IsOfVersion K.enc V.enc J.limits found.0 found.1) }
        ensures here { IfSome result (λ _. frame < self.now) }
    {
        let claim = read(self.slot(frame)?, None)?;
        let found = told(&claim);
        claim.leave();
        found
    }

    /// Empties the frame of the spare's word where the spare's version lies there. False where another version or none
    /// does, or where the frame is being filled or emptied. The spare comes back while a reader is in.
    pub fn reclaim(&self, spare: Spare<K, V, J>) -> Result<bool, Spare<K, V, J>>
        requires frame { place_of spare.word < empty_place }
        ensures back { IfErr result (λ s. s ≡ spare) }
        ensures here { IfOk result (λ emptied. IsTrue emptied → place_of spare.word < self.now) }
    {
        match self.reclaim_owned(spare) {
            Ok(Some((owned, object))) => {
                drop(object);
                self.give_back(owned);
                Ok(true)
            }
            Ok(None) => Ok(false),
            Err(spare) => Err(spare),
        }
    }

    /// As `reclaim`, but the emptied frame stays with the caller, and no other call gets it.
    ///
    /// Beside it comes the object that lay there, which nobody reads any more: another one can be built in its memory. None comes
    /// where `reclaim` answers false.
    pub fn reclaim_owned(
        &self,
        spare: Spare<K, V, J>,
    ) -> Result<Option<(Owned, Object<K, V>)>, Spare<K, V, J>>
        requires frame { place_of spare.word < empty_place }
        ensures back { IfErr result (λ s. s ≡ spare) }
        ensures here { IfOk result (λ emptied. IfSome emptied (λ _. place_of spare.word < self.now)) }
        ensures number { IfOk result (λ emptied. IfSome emptied (λ e. e.0 ≡ place_of spare.word)) }
        ensures object { IfOk result (λ emptied. IfSome emptied (λ e. IsObjectOf K.enc V.enc J.limits spare.bucket (name_of spare.word) e.1)) }
    {
        let frame = place_of(spare.word());
        let word = word_of(name_of(spare.word()));
        let Some(slot) = self.slot(frame) else {
            return Ok(None);
        };
        match take(slot, word) {
            Ok(claim) => Ok(self.take_out(claim, spare, frame)),
            Err(found) if unread(found) == word => Err(spare),
            Err(_) => Ok(None),
        }
    }

    // Takes out what lies there, and ends it where it is the spare's. Else it is put back.
    fn take_out(
        &self,
        claim: SlotClaim<'_, K, V, J>,
        spare: Spare<K, V, J>,
        frame: u32,
    ) -> Option<(Owned, Object<K, V>)>
        requires writes { claim.right ≡ 2 }
        requires number { claim.tag ≡ frame }
        ensures number { IfSome result (λ e. e.0 ≡ frame) }
        ensures object { IfSome result (λ e. IsObjectOf K.enc V.enc J.limits spare.bucket (name_of spare.word) e.1) }
    {
        let owned = Owned { frame };
        let Some(lodged) = claim.put(None, OWNED) else {
            self.give_back(owned);
            return None;
        };
        let version = lodged.into_version();
        let _own = version.object();
        match retire(version, &spare) {
            Ok(object) => Some((owned, object)),
            Err(other) => {
                self.put_back(other, owned);
                None
            }
        }
    }

    // Puts a version that was taken out and isn't the spare's into its frame again, which nobody else got meanwhile.
    fn put_back(&self, version: Version<K, V, J>, owned: Owned) {
        match self.reserve_owned(owned) {
            Some(reserved) => {
                reserved.fill(version);
            }
            // It is never dropped, since its bucket may still name it.
            None => forget(Lodged { version }),
        }
    }

    /// Drops the version that lies there, if one does, and the frame is empty then. Only an exclusive owner of the frames can do so:
    /// a reader's scope and a claim each borrow them, so there is none while this call is made, and the version needs no spare to end.
    /// The frame is named as free.
    pub fn clear(&mut self, frame: u32)
        ensures count { self.new ≡ self.old }
    {
        if let Some(slot) = self.slots.get_mut(frame as usize) {
            let _ = replace(slot, Counted::new(None, &frame)).into_inner();
            self.vacant.set(frame);
        }
    }

    /// Whether a frame is named as free, by few loads: a hint, of which no clause says anything.
    pub fn has_free(&self) -> bool {
        self.vacant.next_word(0).is_some()
    }

    /// How many frames are free: a hint, of which no clause says anything. At rest the tests find it exact up to 65,536 frames. It
    /// looks at a word for each 64 frames; where there are more, at one of so many words,
    /// some 1,024 in all, and answers as if the others were like it.
    pub fn free(&self) -> u32 {
        self.vacant.count().min(self.count())
    }

    /// Begins to load the frame, for a call that is about to read it. Nothing is claimed of it.
    pub fn prefetch(&self, frame: u32) {
        if let Some(slot) = self.slots.get(frame as usize) {
            let _ = slot.load();
        }
    }

    /// Says that the frame was read. Nothing is claimed of it.
    pub fn touch(&self, frame: u32) {
        if (frame as usize) < self.slots.len() {
            self.touched.ensure(frame);
        }
    }

    /// Whether the frame was touched since the last such question. Nothing is claimed of it.
    pub fn touched(&self, frame: u32) -> bool {
        self.touched.take(frame)
    }
}
