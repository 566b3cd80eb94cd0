//! One frame: a counted slot with a version in it, or none.
//!
//! The slot's tag is the frame's number. The word of a free frame is 0. That of a filled one has the last 32 bits of the
//! name in its high half and the number of readers in its low half, so that a claim to write meets a version of the name
//! that is looked for, up to these bits, and unread. The word of an owned frame is 2: nobody reads there, and neither a
//! search for a free frame nor one for a name claims it.
ghost use Rattle.std.specs.Prelude.{◌≡◌, ◌/◌, ◌%◌, ◌^◌, ◌<◌, IfOk, IfSome};
ghost use Rattle.counted_slot.specs.Counting.{readers};

use crate::version::Lodged;
use counted_slot::{Claim, Counted, Fits, MARKED, MOST_READERS, ONE_READER, PRESENT, TAKEN};
use far_object::FarObject;
use version_words::Naming;

impl<K: FarObject, V: FarObject, J: Naming> Fits for Lodged<K, V, J> {
    // The frame's number.
    type Tag = u32;

    ghost fits = { λ _ _. Unit {0} };
}

/// A frame.
pub type Slot<K, V, J> = Counted<Option<Lodged<K, V, J>>>;

/// A claim on a frame.
pub type SlotClaim<'a, K, V, J> = Claim<'a, Option<Lodged<K, V, J>>>;

/// The word of a frame that is empty and owned.
pub const OWNED: u64 = MARKED;

/// The word of a frame in which a version of this name lies, with no reader.
pub fn word_of(name: u64) -> u64
    ensures state { result % 4 ≡ 1 }
    ensures unread { readers result ≡ 0 }
    ensures name { result / 2 ^ 32 ≡ name % 2 ^ 32 }
{
    name % 0x1_0000_0000 * 0x1_0000_0000 + PRESENT
}

/// The word without its readers.
pub fn unread(word: u64) -> u64 {
    word - word % 0x1_0000_0000 + word % 4
}

/// How many readers the word counts.
pub fn reader_count(word: u64) -> u64
    ensures { result ≡ readers word }
{
    word % 0x1_0000_0000 / 4
}

/// The right to write, where the word still is `seen`, at which nobody reads. Else the word that was found.
pub fn take<K: FarObject, V: FarObject, J: Naming>(
    slot: &Slot<K, V, J>,
    seen: u64,
) -> Result<SlotClaim<'_, K, V, J>, u64>
    requires { (seen % 4 < 3) × (readers seen ≡ 0) }
    ensures right { IfOk result (λ c. c.right ≡ 2) }
    ensures tag { IfOk result (λ c. c.tag ≡ slot.now) }
{
    let (found, claim) = slot.turn(seen, seen - seen % 4 + TAKEN);
    if found == seen {
        return Ok(claim);
    }
    claim.done();
    Err(found)
}

/// How many claims to read a call makes at most.
const MOST_CLAIMS: u32 = 1_000;

/// The right to read a version, whose name may be the one given, if one is: the word says so by its last 32 bits. Where
/// another thread changed the word since it was loaded, it is claimed again, 1,000 times in all.
pub fn read<K: FarObject, V: FarObject, J: Naming>(
    slot: &Slot<K, V, J>,
    name: Option<u64>,
) -> Option<SlotClaim<'_, K, V, J>>
    ensures { IfSome result (λ c. c.right ≡ 1) }
{
    for _ in 0..MOST_CLAIMS {
        let seen = slot.load();
        if seen % 4 != PRESENT || reader_count(seen) == MOST_READERS {
            return None;
        }
        if let Some(name) = name {
            if unread(seen) != word_of(name) {
                return None;
            }
        }
        let (found, claim) = slot.turn(seen, seen + ONE_READER);
        if found == seen {
            return Some(claim);
        }
        claim.done();
    }
    None
}
