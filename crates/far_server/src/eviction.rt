//! The eviction of keys when memory is full: which bucket goes next, with all its keys.
//!
//! # Keys in use stay
//!
//! The keys of the bucket that was neither read nor written for longest should go. Nobody keeps an order of
//! last use, because each read would change it. Instead a hand goes round the frames. It takes a bucket whose
//! frame was not read since the hand came last. It passes a frame that was read, and clears the mark of that
//! read.
//!
//! A change puts the bucket into another frame. That may be one right before the hand, and nobody has read it
//! yet. So the hand also notes what it meets unread in each frame, and takes a bucket only when it meets it
//! again. So a bucket that is written, or is new, stays for a whole round. If two rounds have met none to
//! take, because all are used all the time, the next bucket goes.
//!
//! # In memory and on a device by turns
//!
//! If memory is full and no device takes an object, a bucket in memory has to go. Only that makes room at
//! once, because the slots of small objects on a device are no place for a large one. But if only these were
//! taken, old keys would stay on the device for ever. So the next victim is on a device. Nobody knows when it
//! was last used, and a second hand takes such buckets in turn.
ghost use Rattle.std.specs.Prelude.{◌<◌, true, IfSome};
ghost use Rattle.version_words.specs.Views.{Goes};
ghost use Rattle.far_server.specs.Sweeps.{Sweeps};

use crate::all_keys::{all_keys_in, empty_bucket};
use crate::context::{ServerContext, Workspace};
use crate::statistics::count_evictions;
use far_blob::Blob;
use far_map::{Calls, MapRefusal};
use hash_table::BucketState;
use server_commands::Statistic;
use std::alloc::Global;
use std::rt::Clock;
use std::sync::Wait;

/// How many frames, or buckets, are looked at in a turn for a victim.
const LOOKS: u32 = 64;

/// Where the hands are that look for keys to evict.
#[derive(Drop)]
pub(crate) struct Victims {
    /// What was met in each frame when the hand came last: the bucket's short number, or `NOTHING`.
    met: Vec<u8>,
    /// The next frame.
    next_frame: u32,
    /// How many frames were looked at in a row without a victim.
    fruitless: u32,
    /// The next bucket that is asked whether it is on a device.
    next_bucket: u32,
    /// Whether the next victim should be on a device.
    wants_far: bool,
}

/// The note of a frame in which the hand has met no bucket.
const NOTHING: u8 = 255;

/// A bucket's number in one byte. Two buckets that are in a frame one after the other are taken for the same
/// once in 255 times.
fn short(bucket: u32) -> u8 {
    (bucket % 255) as u8
}

/// Notes for `frames` frames. If memory is refused for them, the hand takes what nobody has read, new or not.
fn notes(alloc: Global, frames: u32) -> Vec<u8> {
    let Ok(mut met) = Vec::with_capacity(alloc, frames as usize) else {
        return Vec::new(alloc);
    };
    for _ in 0..frames {
        let Ok(()) = met.push(NOTHING) else {
            break;
        };
    }
    met
}

/// The number at `next`, or 0 if that is not below `count`. `next` becomes the number after it.
fn step(next: &mut u32, count: u32) -> u32 {
    let at = if *next < count { *next } else { 0 };
    *next = at.saturating_add(1);
    at
}

impl Victims {
    /// Hands at the beginning of a map of `frames` frames.
    pub(crate) fn new(alloc: Global, frames: u32) -> Victims {
        Victims {
            met: notes(alloc, frames),
            next_frame: 0,
            fruitless: 0,
            next_bucket: 0,
            wants_far: false,
        }
    }

    /// Notes the bucket that was met unread in a frame. Returns whether it was there when the hand came last,
    /// and forgets it then.
    pub(crate) fn meet(&mut self, frame: u32, bucket: u32) -> bool {
        match self.met.get_mut(frame as usize) {
            Some(met) => {
                let was_met = *met == short(bucket);
                *met = if was_met { NOTHING } else { short(bucket) };
                was_met
            }
            None => true,
        }
    }

    /// The next victim should be on the other side, memory or device, if there is a device.
    fn turn_over(&mut self, is_far: bool) {
        self.wants_far = is_far && !self.wants_far;
        self.fruitless = 0;
    }

    /// None of those that were looked at was a victim. Returns whether there are more to look at. Few buckets
    /// may be on a device, so the next victim may be in memory after that. If three whole rounds met none in
    /// memory, the next one should be on a device.
    fn look_elsewhere(&mut self, frames: u32, is_far: bool) -> bool {
        let goes_on = self.wants_far || self.fruitless / 3 < frames;
        if self.wants_far || !goes_on {
            self.turn_over(is_far);
        }
        goes_on
    }
}

/// The bucket in a frame, if it may go: nobody has used it since the hand came last, or the hand met no
/// victim in two rounds (`is_late`).
fn unused_in<S: Calls<Blob>>(
    me: &S,
    victims: &mut Victims,
    frame: u32,
    is_late: bool,
) -> Option<u32>
    ensures { IfSome result (λ bucket. bucket < S.limits.buckets) }
{
    let unread = match me.unread_in(frame) {
        // The first call cleared the mark of a read, so this one returns the bucket.
        None if is_late => me.unread_in(frame),
        unread => unread,
    };
    match unread {
        Some(bucket) if victims.meet(frame, bucket) || is_late => Some(bucket),
        _ => None,
    }
}

/// The next bucket in memory that may go, among a few frames.
fn find_near<S: Calls<Blob>>(me: &mut S, victims: &mut Victims, frames: u32) -> Option<u32>
    ensures goes { Goes (S.shown me.old).pass (S.shown me.new).pass }
    ensures bucket { IfSome result (λ bucket. bucket < S.limits.buckets) }
{
    for _ in 0..LOOKS {
        let frame = step(&mut victims.next_frame, frames);
        let is_late = victims.fruitless / 2 >= frames;
        victims.fruitless = victims.fruitless.saturating_add(1);
        if let Some(bucket) = unused_in(me, victims, frame, is_late) {
            if !me.is_empty_at(bucket) {
                return Some(bucket);
            }
        }
    }
    None
}

/// Whether a bucket is on a device. It is read to learn that, unless it is empty.
fn is_on_device<S: Calls<Blob>, R: Wait>(
    rt: &R,
    alloc: Global,
    me: &mut S,
    bucket: u32,
) -> Result<bool, MapRefusal>
    requires { bucket < S.limits.buckets }
    ensures { Goes (S.shown me.old).pass (S.shown me.new).pass }
{
    if me.is_empty_at(bucket) {
        return Ok(false);
    }
    match all_keys_in(rt, alloc, me, bucket) {
        Ok(keys) => match keys.first() {
            Some(key) => Ok(matches!(me.where_is(key), BucketState::Far(_))),
            None => Ok(false),
        },
        Err(why) => Err(why),
    }
}

/// The next bucket on a device, among a few buckets. None also if one of them can't be read.
fn find_far<S: Calls<Blob>, R: Wait>(
    rt: &R,
    alloc: Global,
    me: &mut S,
    victims: &mut Victims,
) -> Option<u32>
    ensures goes { Goes (S.shown me.old).pass (S.shown me.new).pass }
    ensures bucket { IfSome result (λ bucket. bucket < S.limits.buckets) }
{
    let buckets = me.buckets();
    for _ in 0..LOOKS {
        let bucket = step(&mut victims.next_bucket, buckets);
        if bucket >= buckets {
            return None;
        }
        match is_on_device(rt, alloc, me, bucket) {
            Ok(false) => {}
            Ok(true) => return Some(bucket),
            Err(_) => return None,
        }
    }
    None
}

/// Removes all keys of a bucket. Returns whether nothing was refused.
fn evict_keys<S: Calls<Blob>, R: Wait>(
    rt: &R,
    alloc: Global,
    me: &mut S,
    bucket: u32,
    workspace: &mut Workspace,
) -> bool
    requires { bucket < S.limits.buckets }
    ensures { Sweeps S.limits true (S.shown me.old) (S.shown me.new) }
{
    let before = workspace.statistics.get(Statistic::KeysRemoved);
    let is_empty = empty_bucket(rt, alloc, me, bucket, None, workspace).is_ok();
    count_evictions(&mut workspace.statistics, before);
    is_empty
}

/// The next bucket that may go, in memory or on a device, whichever is due.
fn find_victim<S: Calls<Blob>, C: Clock, R: Wait>(
    context: &ServerContext<'_, C, R>,
    me: &mut S,
    victims: &mut Victims,
) -> Option<u32>
    ensures goes { Goes (S.shown me.old).pass (S.shown me.new).pass }
    ensures bucket { IfSome result (λ bucket. bucket < S.limits.buckets) }
{
    if victims.wants_far {
        find_far(context.rt, context.alloc, me, victims)
    } else {
        find_near(me, victims, context.settings.map.frames)
    }
}

/// Removes all keys of the next victim, in memory and on a device by turns. Returns whether that was done, or
/// there are more buckets to look at.
fn evict_bucket<S: Calls<Blob>, C: Clock, R: Wait>(
    context: &ServerContext<'_, C, R>,
    me: &mut S,
    victims: &mut Victims,
    workspace: &mut Workspace,
) -> bool
    ensures { Sweeps S.limits true (S.shown me.old) (S.shown me.new) }
{
    match find_victim(context, me, victims) {
        Some(bucket) => {
            victims.turn_over(workspace.is_far);
            evict_keys(context.rt, context.alloc, me, bucket, workspace)
        }
        None => victims.look_elsewhere(context.settings.map.frames, workspace.is_far),
    }
}

/// Whether there is room in frames.
#[derive(Clone, Copy)]
enum Room {
    /// No more bytes are in frames than may be, or nothing there can be swapped out now.
    Enough,
    /// An object was swapped out, and more room may be needed.
    Made,
    /// No device takes what exceeds the bound.
    Wanting,
}

/// Checks whether more bytes are in frames than may be, and has an object swapped out if there is a device.
fn look_for_room<S: Calls<Blob>, C: Clock, R: Wait>(
    context: &ServerContext<'_, C, R>,
    me: &mut S,
    most: u64,
) -> Room
    ensures { Goes (S.shown me.old).pass (S.shown me.new).pass }
{
    if me.bytes_in_frames() <= most {
        return Room::Enough;
    }
    if !context.settings.is_far {
        return Room::Wanting;
    }
    match me.evict(context.rt) {
        Ok(true) => Room::Made,
        Ok(false) => Room::Enough,
        Err(_) => Room::Wanting,
    }
}

/// Makes room if more bytes are in frames than may be. Returns whether there is more to do. Keys go only if
/// no device takes an object.
pub(crate) fn make_room<S: Calls<Blob>, C: Clock, R: Wait>(
    context: &ServerContext<'_, C, R>,
    me: &mut S,
    victims: &mut Victims,
    workspace: &mut Workspace,
) -> bool
    ensures { Sweeps S.limits true (S.shown me.old) (S.shown me.new) }
{
    match look_for_room(context, me, workspace.most_in_frames) {
        Room::Enough => false,
        Room::Made => true,
        Room::Wanting => evict_bucket(context, me, victims, workspace),
    }
}
