//! Room for what a call sets: the bytes in frames stay bounded if a device takes no more.
//!
//! A call that may leave more bytes than it found first checks whether the objects in frames have too many
//! bytes. If they have, it has objects swapped out. If there is no device, or none takes any more, the call is
//! refused.
ghost use Rattle.farcalls.specs.Sessions.{Stays};

use crate::context::SessionContext;
use far_blob::Blob;
use far_map::Calls;
use std::sync::Wait;

/// How many objects a call has swapped out at most: as many small ones as have the bytes of one large value.
const MOST_TURNS: u32 = 100_000;

/// Swaps objects out while the frames have more than `most` bytes. Returns whether they have no more than
/// that at the end. The evictor comes back below its bound by itself, unless its device fails.
fn swaps_out<S: Calls<Blob>, R: Wait>(rt: &R, me: &mut S, most: u64) -> bool
    ensures { Stays (S.shown me.old) (S.shown me.new) }
{
    for _ in 0..MOST_TURNS {
        if me.bytes_in_frames() <= most {
            return true;
        }
        if !matches!(me.evict(rt), Ok(true)) {
            return false;
        }
    }
    me.bytes_in_frames() <= most
}

/// Whether the bytes in frames are within their bound and an eighth, after all was tried that can make room.
pub(crate) fn has_room<S: Calls<Blob>, R: Wait>(context: &SessionContext<'_, R>, me: &mut S) -> bool
    ensures { Stays (S.shown me.old) (S.shown me.new) }
{
    let most = context.settings.most_in_frames;
    let most = most.saturating_add(most / 8);
    if me.bytes_in_frames() <= most {
        return true;
    }
    context.settings.is_far && swaps_out(context.rt, me, most)
}
