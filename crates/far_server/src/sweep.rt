//! The sweep of a server: it removes expired values that no client meets. It also evicts other keys, if
//! memory is full and the policy allows it, and it cuts scratch files that no object needs any more.
//!
//! # A session for the sweep
//!
//! The sweep reads buckets that nobody asked for, also from disk, so no worker does it. The evictor does not
//! do it either, because it moves objects and never changes a value. So the sweep has a session like those of
//! the workers. Its calls are removals and gets.
//!
//! # Only what pays
//!
//! Nothing records where the expired values are, so a round looks at each bucket, a few at a time. Suppose
//! that a round has met no value that may still expire and could read every bucket, and that no value with a
//! deadline was set since it began. Then there is nothing to wait for, and no further round begins until one
//! is set.
//!
//! # Files in pieces
//!
//! To free the blocks of a long file takes the system a while. So a turn cuts off 1 MiB at most, and a file is
//! cut only after it was without objects for some seconds. The sweep has no device's lock then, and there is
//! no sweep while a map is renewed.
ghost use Rattle.std.specs.Prelude.{◌<◌, Bool, true};
ghost use Rattle.version_words.specs.Views.{Goes};
ghost use Rattle.far_server.specs.Looks.{WasLookedAt};
ghost use Rattle.far_server.specs.Sweeps.{IsSweeping, Sweeps};

use crate::context::{ServerContext, Workspace, milliseconds};
use crate::deadlines::{has_deadline, is_over};
use crate::eviction::{Victims, make_room};
use far_blob::Blob;
use far_map::{Calls, MapRefusal};
use far_object::Text;
use server_commands::Statistic;
use std::alloc::Global;
use std::rt::Clock;
use std::sync::Wait;
use std::time::Duration;

/// How many buckets are looked at for expired values between two naps.
const BUCKETS: u32 = 256;

/// After this many reads from a device there is a nap, even if fewer buckets were looked at.
const DEVICE_READS: u64 = 8;

/// How many milliseconds a nap has. So the sweep goes round 4,000,000 buckets in memory in some 80 seconds,
/// by some hundredths of a processor.
const NAP: u64 = 5;

/// Where the sweep has got to.
#[derive(Drop)]
pub(crate) struct Hand {
    /// The next bucket that is looked at for expired values.
    pub(crate) next: u32,
    /// How many values with a deadline had been set when the round began.
    dated: u64,
    /// Whether the round has met one that may still expire, or a bucket that can't be read.
    pub(crate) has_met: bool,
    /// Where keys are evicted next.
    pub(crate) victims: Victims,
}

impl Hand {
    /// A hand that waits for the first value with a deadline, in a map of that many buckets and frames.
    pub(crate) fn new(alloc: Global, buckets: u32, frames: u32) -> Hand {
        Hand {
            next: buckets,
            dated: 0,
            has_met: false,
            victims: Victims::new(alloc, frames),
        }
    }
}

/// The pairs of a bucket whose values have a deadline.
fn dated_in<S: Calls<Blob>, R: Wait>(
    rt: &R,
    alloc: Global,
    me: &mut S,
    bucket: u32,
) -> Result<Vec<(Text, Blob)>, MapRefusal>
    requires { bucket < S.limits.buckets }
    ensures { Goes (S.shown me.old).pass (S.shown me.new).pass }
{
    let mut dated = Vec::new(alloc);
    let mut is_short = false;
    let mut visit = |key: Text, value: Blob| {
        if has_deadline(value.as_bytes()) && dated.push((key, value)).is_err() {
            is_short = true;
        }
    };
    match me.for_each_in(rt, bucket, &mut visit) {
        Ok(()) => {}
        Err(why) => return Err(why),
    }
    if is_short {
        return Err(MapRefusal::Memory);
    }
    Ok(dated)
}

/// Removes a value if it is expired at the time `now` and still there. Returns whether it was removed.
pub(crate) fn expire<S: Calls<Blob>, R: Wait>(
    rt: &R,
    me: &mut S,
    key: &Text,
    value: &Blob,
    now: u64,
    workspace: &mut Workspace,
) -> Result<bool, MapRefusal>
    requires { WasLookedAt now }
    ensures { (evicts : Bool) → Sweeps S.limits evicts (S.shown me.old) (S.shown me.new) }
{
    if !is_over(value, now) {
        return Ok(false);
    }
    match me.remove_if(rt, key, value) {
        Ok(removal) => {
            workspace.count_removed(key, removal.removed);
            workspace
                .statistics
                .count_if(Statistic::ExpiredKeys, removal.removed);
            Ok(removal.removed)
        }
        Err(why) => Err(why),
    }
}

/// Removes the expired values of a bucket. Returns whether it has others with a deadline.
pub(crate) fn expire_in<S: Calls<Blob>, R: Wait>(
    rt: &R,
    alloc: Global,
    me: &mut S,
    bucket: u32,
    now: u64,
    workspace: &mut Workspace,
) -> Result<bool, MapRefusal>
    requires within { bucket < S.limits.buckets }
    requires looked { WasLookedAt now }
    ensures { (evicts : Bool) → Sweeps S.limits evicts (S.shown me.old) (S.shown me.new) }
{
    let dated = match dated_in(rt, alloc, me, bucket) {
        Ok(dated) => dated,
        Err(why) => return Err(why),
    };
    let mut has_others = false;
    for (key, value) in &dated {
        match expire(rt, me, key, value, now, workspace) {
            Ok(is_gone) => has_others |= !is_gone,
            Err(why) => return Err(why),
        }
    }
    Ok(has_others)
}

/// Looks for expired values in the next buckets. A bucket that can't be read is looked at again in the next
/// round.
fn expire_some<S: Calls<Blob>, C: Clock, R: Wait>(
    context: &ServerContext<'_, C, R>,
    me: &mut S,
    hand: &mut Hand,
    workspace: &mut Workspace,
)
    ensures { (evicts : Bool) → Sweeps S.limits evicts (S.shown me.old) (S.shown me.new) }
{
    let (rt, alloc, now) = (context.rt, context.alloc, milliseconds(context.clock));
    let read = me.traffic().far_reads;
    for _ in 0..BUCKETS {
        if hand.next >= me.buckets() || me.traffic().far_reads.wrapping_sub(read) >= DEVICE_READS {
            return;
        }
        let looked = expire_in(rt, alloc, me, hand.next, now, workspace);
        hand.has_met |= looked.unwrap_or(true);
        hand.next = hand.next.saturating_add(1);
    }
}

/// Whether there are buckets to look at for expired values: a round is not over, or another one begins now.
pub(crate) fn is_due(hand: &mut Hand, buckets: u32, dated: u64) -> bool {
    if hand.next < buckets {
        return true;
    }
    if !hand.has_met && hand.dated == dated {
        return false;
    }
    hand.next = 0;
    hand.dated = dated;
    hand.has_met = false;
    true
}

/// Looks for expired values, if there may be some.
fn expire_next<S: Calls<Blob>, C: Clock, R: Wait>(
    context: &ServerContext<'_, C, R>,
    me: &mut S,
    hand: &mut Hand,
    workspace: &mut Workspace,
)
    ensures { (evicts : Bool) → Sweeps S.limits evicts (S.shown me.old) (S.shown me.new) }
{
    let dated = context.shared_statistics.sum().get(Statistic::DeadlinesSet);
    if is_due(hand, me.buckets(), dated) {
        expire_some(context, me, hand, workspace);
    }
}

/// One turn if keys may be evicted. Returns whether another one should follow at once. It looks for expired
/// values only if there is no room to make.
fn turn_with_room<S: Calls<Blob>, C: Clock, R: Wait>(
    context: &ServerContext<'_, C, R>,
    me: &mut S,
    hand: &mut Hand,
    workspace: &mut Workspace,
) -> bool
    ensures { Sweeps S.limits true (S.shown me.old) (S.shown me.new) }
{
    if make_room(context, me, &mut hand.victims, workspace) {
        return true;
    }
    expire_next(context, me, hand, workspace);
    false
}

/// One turn. Returns whether another one should follow at once.
fn turn<S: Calls<Blob>, C: Clock, R: Wait>(
    context: &ServerContext<'_, C, R>,
    me: &mut S,
    hand: &mut Hand,
    workspace: &mut Workspace,
) -> bool
    ensures { Sweeps S.limits context.now.settings.now.options.evicts (S.shown me.old) (S.shown me.new) }
{
    if context.settings.options.evicts {
        return turn_with_room(context, me, hand, workspace);
    }
    expire_next(context, me, hand, workspace);
    false
}

/// The same, unless version numbers are few: those are left to the workers. It also asks for a renewal if
/// they are.
fn sparing_turn<S: Calls<Blob>, C: Clock, R: Wait>(
    context: &ServerContext<'_, C, R>,
    me: &mut S,
    hand: &mut Hand,
    workspace: &mut Workspace,
) -> bool
    ensures { Sweeps S.limits context.now.settings.now.options.evicts (S.shown me.old) (S.shown me.new) }
{
    let left = me.names_left();
    context.renewal.look(left);
    if context.renewal.spares(left) {
        return false;
    }
    turn(context, me, hand, workspace)
}

/// Seconds of a clock that never goes back; 0 if it can't be read.
fn seconds<C: Clock>(clock: &C) -> u64 {
    match clock.monotonic() {
        Ok(since) => since.as_secs(),
        Err(_) => 0,
    }
}

/// Cuts a piece off a scratch file that no object needs. Such files get older if the second of the clock is
/// not `last`. Returns the second.
fn cut_files<C: Clock, R>(context: &ServerContext<'_, C, R>, last: u64) -> u64 {
    let Some(files) = context.usage.files() else {
        return last;
    };
    files.cut();
    let now = seconds(context.clock);
    if now != last {
        files.age();
    }
    now
}

/// Sweeps until all workers have left the map.
pub(crate) fn sweep<S: Calls<Blob>, C: Clock, R: Wait>(
    context: &ServerContext<'_, C, R>,
    me: &mut S,
)
    ensures { Sweeps S.limits context.now.settings.now.options.evicts (S.shown me.old) (S.shown me.new) }
{
    let mut workspace = Workspace::new(context.alloc, context.settings);
    workspace.begin(context.shared_statistics.told_by(context.worker));
    workspace.key_counts = context.shared_statistics.keys_told_by(context.worker);
    let mut hand = Hand::new(context.alloc, me.buckets(), context.settings.map.frames);
    let mut second = 0;
    for _ in context.rt.forever() {
        if !context.shared_statistics.is_serving() {
            break;
        }
        let goes_on = sparing_turn(context, me, &mut hand, &mut workspace);
        workspace.tell(context, &me.traffic());
        if !goes_on {
            second = cut_files(context, second);
            workspace
                .bed
                .park_timeout(context.rt, Duration::from_millis(NAP));
        }
    }
}
