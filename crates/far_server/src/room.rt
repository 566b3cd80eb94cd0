//! Room for what a command sets: the bytes in frames stay bounded when a device takes no more.
//!
//! # Before the command
//!
//! A command that may leave more bytes than it found first checks whether the objects in frames have too many
//! bytes. If they have:
//! - It has objects swapped out, if there is a device.
//! - If there is none, or none takes any more, it waits for the sweep, if that may evict other keys.
//! - Otherwise it is refused.
//!
//! A worker evicts no keys itself: its calls are those of its commands.
ghost use Rattle.version_words.specs.Views.{Goes};

use crate::context::Workspace;
use far_blob::Blob;
use far_map::Calls;
use std::sync::Wait;
use std::time::Duration;

/// How many objects a command has swapped out at most: as many small ones as have the bytes of one large
/// value.
const MOST_TURNS: u32 = 100_000;

/// How many microseconds a command sleeps before it checks again whether the sweep has made room.
const NAP: u64 = 200;

/// How many times it sleeps at most while the bytes in frames do not change: for two seconds.
const IDLE_NAPS: u32 = 10_000;

/// How many times it sleeps at most in all: for thirty seconds. Others may take the room that was made.
const MOST_NAPS: u32 = 150_000;

/// Swaps objects out while the frames have more than `most` bytes. Returns whether they have no more than
/// that at the end. The evictor comes back below its bound by itself, unless its device fails.
fn swaps_out<S: Calls<Blob>, R: Wait>(rt: &R, me: &mut S, most: u64) -> bool
    ensures { Goes (S.shown me.old).pass (S.shown me.new).pass }
{
    for _ in 0..MOST_TURNS {
        if me.bytes_in_frames() <= most {
            return true;
        }
        if !matches!(me.evict(rt), Ok(true)) {
            return false;
        }
    }
    me.bytes_in_frames() <= most
}

/// Waits for the sweep while the frames have more than `most` bytes. Returns whether they have no more than
/// that at the end. The wait goes on as long as the sweep removes keys.
fn waits<S: Calls<Blob>, R: Wait>(rt: &R, me: &S, most: u64, workspace: &Workspace) -> bool {
    let mut last = me.bytes_in_frames();
    let mut idle = 0u32;
    for _ in 0..MOST_NAPS {
        if last <= most || idle >= IDLE_NAPS {
            break;
        }
        workspace.bed.park_timeout(rt, Duration::from_micros(NAP));
        let now = me.bytes_in_frames();
        idle = if now == last {
            idle.saturating_add(1)
        } else {
            0
        };
        last = now;
    }
    last <= most
}

/// Whether the bytes in frames are within their bound and an eighth, after all was tried that can make room.
pub(crate) fn has_room<S: Calls<Blob>, R: Wait>(rt: &R, me: &mut S, workspace: &Workspace) -> bool
    ensures { Goes (S.shown me.old).pass (S.shown me.new).pass }
{
    let most = workspace.most_in_frames;
    let most = most.saturating_add(most / 8);
    if me.bytes_in_frames() <= most {
        return true;
    }
    if workspace.is_far && swaps_out(rt, me, most) {
        return true;
    }
    workspace.is_swept && waits(rt, me, most, workspace)
}
