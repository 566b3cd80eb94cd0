//! What the last generation of a map left is put into the next one, before any worker works.
//!
//! # What is lost
//!
//! A part of the migration that can't be taken is left out and counted. So is a pair whose put is refused for
//! good. A far store may have lost an object, and a map of many pairs should not end because of one.
//!
//! A put may also be refused only for now, because frames wait for old versions that are not reclaimed yet.
//! Only the loader works, so it has to free them itself. Then it puts again.
ghost use Rattle.std.specs.Prelude.{◌≡◌, [], ◌∷◌, ◌++◌, IfSome, IfNone};
ghost use Rattle.std.specs.Bool.{OnFalse};
ghost use Rattle.version_words.specs.Views.{Goes};
ghost use Rattle.migration.specs.Parts.{Takes, Loses};
ghost use Rattle.far_map.specs.Loads.{PutsEach, IsLoading, Loads, lost_of};
ghost use Rattle.far_map.specs.Views.{View, Pairs};

use crate::calls::Calls;
use crate::map::FarMap;
use crate::pending_session::PendingSession;
use crate::refusal::MapRefusal;
use crate::renewable_work::LoadReport;
use crate::values::Value;
use far_device::Device;
use far_object::Text;
use hash_table::Caller;
use migration::{Migration, Untaken};
use std::alloc::Global;
use std::sync::Wait;
use std::thread::yield_now;
use swapper::QueueNaming;
use version_words::Naming;

/// How many times a part is asked for if there is no memory for it, and how many further tries a put has.
const MOST_TRIES: u32 = 1_000;

/// Another part of the pairs, or `Some(None)` if it is lost. If there is no memory for it, an object is moved
/// to a device and the part is asked for again, 1,000 times in all. `None` if no part is left.
fn next_part<V: Value, S: Calls<V>, D: Device, R: Wait>(
    rt: &R,
    alloc: Global,
    me: &mut S,
    rest: &mut Migration<Text, V, D>,
) -> Option<Option<Vec<(Text, V)>>>
    ensures goes { Goes (S.shown me.old).pass (S.shown me.new).pass }
    ensures all { IfNone result (rest.old ≡ []) }
    ensures none { IfNone result (rest.new ≡ []) }
    ensures taken { IfSome result (λ part. IfSome part (λ pairs. Takes D.HONEST rest.old rest.new pairs.items)) }
    ensures lost { IfSome result (λ part. IfNone part (Loses rest.old rest.new)) }
{
    for _ in 0..MOST_TRIES {
        match rest.take(alloc) {
            None => return None,
            Some(Ok(pairs)) => return Some(Some(pairs)),
            Some(Err(Untaken::Lost)) => return Some(None),
            Some(Err(Untaken::Memory)) => {
                let _ = me.evict(rt);
            }
        }
    }
    rest.pass_over();
    Some(None)
}

/// Whether each further try would be refused for the same reason.
fn stays(refusal: MapRefusal) -> bool {
    matches!(
        refusal,
        MapRefusal::TooLong | MapRefusal::NamesSpent | MapRefusal::Damaged
    )
}

/// Does what may help a put that was refused for now: it handles old versions, and moves an object to a
/// device.
fn make_way<V: Value, S: Calls<V>, R: Wait>(rt: &R, me: &mut S)
    ensures { Goes (S.shown me.old).pass (S.shown me.new).pass }
{
    me.settle(rt);
    let _ = me.evict(rt);
    yield_now();
}

/// Puts a pair after others, of which `refused` were refused, and returns how many are refused now.
///
/// `tries` is how often puts that are refused one after another may still be tried again. It is 1,000 again
/// after each pair that was put. So the loading ends in time for a map whose pairs find no room any more.
fn put_one<V: Value, S: Calls<V>, R: Wait>(
    rt: &R,
    me: &mut S,
    key: &Text,
    value: &V,
    refused: u64,
    tries: &mut u32,
) -> u64
    ensures { (pairs : Pairs V) (first : View V) → PutsEach pairs first (S.shown me.old).pass refused → PutsEach (pairs ++ (key.now, value.now) ∷ []) first (S.shown me.new).pass result }
{
    for _ in 0..*tries {
        match me.put(rt, key, value) {
            Ok(_before) => {
                *tries = MOST_TRIES;
                return refused;
            }
            Err(refusal) => {
                if stays(refusal) {
                    return refused.saturating_add(1);
                }
            }
        }
        *tries = tries.saturating_sub(1);
        make_way(rt, me);
    }
    match me.put(rt, key, value) {
        Ok(_before) => {
            *tries = MOST_TRIES;
            refused
        }
        Err(_refusal) => refused.saturating_add(1),
    }
}

/// Puts these pairs, and returns how many were refused.
fn put_each<V: Value, S: Calls<V>, R: Wait>(
    rt: &R,
    me: &mut S,
    pairs: Vec<(Text, V)>,
    tries: &mut u32,
) -> u64
    ensures { PutsEach pairs.items (S.shown me.old).pass (S.shown me.new).pass result }
{
    let mut refused = 0u64;
    for (key, value) in pairs {
        refused = put_one(rt, me, &key, &value, refused, tries);
    }
    refused
}

/// Puts another part of the pairs, and returns whether there was one.
fn put_part<V: Value, S: Calls<V>, D: Device, R: Wait>(
    rt: &R,
    alloc: Global,
    me: &mut S,
    rest: &mut Migration<Text, V, D>,
    load_report: &mut LoadReport,
    tries: &mut u32,
) -> bool
    ensures loads { (waited : Pairs V) (first : View V) → IsLoading D.HONEST waited rest.old first (S.shown me.old).pass (lost_of load_report.old) → IsLoading D.HONEST waited rest.new first (S.shown me.new).pass (lost_of load_report.new) }
    ensures counted { lost_of load_report.new ≡ 0 → lost_of load_report.old ≡ 0 }
    ensures empty { OnFalse result (rest.new ≡ []) }
{
    let Some(part) = next_part(rt, alloc, me, rest) else {
        return false;
    };
    let Some(pairs) = part else {
        load_report.lost_buckets = load_report.lost_buckets.saturating_add(1);
        return true;
    };
    let count = pairs.len() as u64;
    let refused = put_each(rt, me, pairs, tries);
    load_report.pairs = load_report
        .pairs
        .saturating_add(count.saturating_sub(refused));
    load_report.lost_pairs = load_report.lost_pairs.saturating_add(refused);
    true
}

/// Puts all pairs of the migration. `before` counts what was lost before.
fn put_all<V: Value, S: Calls<V>, D: Device, R: Wait>(
    rt: &R,
    alloc: Global,
    me: &mut S,
    rest: &mut Migration<Text, V, D>,
    before: LoadReport,
) -> LoadReport
    ensures loads { IsLoading D.HONEST rest.old rest.new (S.shown me.old).pass (S.shown me.new).pass (lost_of result) }
    ensures empty { rest.new ≡ [] }
    ensures counted { lost_of result ≡ 0 → lost_of before ≡ 0 }
{
    let mut load_report = before;
    let mut tries = MOST_TRIES;
    for _ in rt.forever() {
        if !put_part(rt, alloc, me, rest, &mut load_report, &mut tries) {
            return load_report;
        }
    }
    unreachable!()
}

/// A session that puts all pairs of the migration, from its beginning to its end.
pub(crate) fn load<V: Value, J: Naming, B: QueueNaming, D: Device, R: Wait>(
    rt: &R,
    alloc: Global,
    far: &FarMap<V, J, B, D>,
    pending: PendingSession<V, J, B>,
    rest: &mut Migration<Text, V, D>,
    before: LoadReport,
) -> (Caller<Text, V, J>, LoadReport)
    ensures loads { Loads D.HONEST rest.old result.0.pass (lost_of result.1) }
    ensures empty { rest.new ≡ [] }
    ensures counted { lost_of result.1 ≡ 0 → lost_of before ≡ 0 }
{
    let mut me = far.begin(alloc, pending);
    let load_report = put_all(rt, alloc, &mut me, rest, before);
    (me.leave(), load_report)
}
