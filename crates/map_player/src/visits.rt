//! Visits of pairs, and what is read of all words and marks.

use crate::pairs::{Pairs, Sum};
use crate::replies::{Said, Stop, refusal_text};
use crate::words::{number_at, number_named, read_number, times_at};
use case_files::Line;
use far_map::{Calls, MapRefusal, Text, Value};
use far_object::bucket_of;
use std::alloc::Global;
use std::sync::Wait;

/// A call that visits pairs.
#[derive(Clone, Copy)]
pub enum Visit {
    All,
    One,
    Often,
    ByBucket,
    Filled,
    Unread,
}

/// How the pairs that were visited are told, and the refusal behind them.
fn visited(alloc: Global, said: Said, ended: Result<(), MapRefusal>) -> Said {
    match ended {
        Ok(()) => said,
        Err(refusal) => {
            let said = said?;
            let text = refusal_text(refusal);
            Ok(format!(in alloc; "{said}, {text}")?)
        }
    }
}

/// Visits all pairs: with the word `count` it tells how many there are.
fn visit_all<V: Value, S: Calls<V>, R: Wait>(
    rt: &R,
    alloc: Global,
    me: &mut S,
    line: &Line,
) -> Said {
    if line.is(1, "count") {
        let mut sum = Sum::new();
        let ended = me.for_each(rt, &mut |_, value| sum.add(value.as_bytes()));
        return visited(alloc, sum.counted(alloc), ended);
    }
    let mut pairs: Pairs<V> = Pairs::new(alloc);
    let ended = me.for_each(rt, &mut |key, value| pairs.add(key, value));
    visited(alloc, pairs.said(alloc), ended)
}

/// Visits the pairs of all buckets, of each by itself.
fn visit_each<V: Value, S: Calls<V>, R: Wait>(rt: &R, alloc: Global, me: &mut S) -> Said {
    let mut pairs: Pairs<V> = Pairs::new(alloc);
    for bucket in 0..me.buckets() {
        me.for_each_in(rt, bucket, &mut |key, value| pairs.add(key, value))?;
    }
    pairs.said(alloc)
}

/// Visits the pairs of one bucket.
fn visit_one<V: Value, S: Calls<V>, R: Wait>(
    rt: &R,
    alloc: Global,
    me: &mut S,
    line: &Line,
) -> Said {
    if line.is(1, "all") {
        return visit_each(rt, alloc, me);
    }
    let bucket = number_at(line, 1)?;
    if bucket >= me.buckets() {
        return Err(Stop::Mistake("the map has no such bucket"));
    }
    if line.is(2, "count") {
        let mut sum = Sum::new();
        let ended = me.for_each_in(rt, bucket, &mut |_, value| sum.add(value.as_bytes()));
        return visited(alloc, sum.counted(alloc), ended);
    }
    let mut pairs: Pairs<V> = Pairs::new(alloc);
    let ended = me.for_each_in(rt, bucket, &mut |key, value| pairs.add(key, value));
    visited(alloc, pairs.said(alloc), ended)
}

/// Adds the value where the key is a number below this one.
fn add_below<V: Value>(sum: &mut Sum, below: u32, key: Text, value: V) {
    if read_number(key.as_bytes()) < below {
        sum.add(value.as_bytes());
    }
}

/// Visits all pairs so many times: how many had numbers below `below=` as keys, and the sum of their values.
fn visit_often<V: Value, S: Calls<V>, R: Wait>(
    rt: &R,
    alloc: Global,
    me: &mut S,
    line: &Line,
) -> Said {
    let times = times_at(line, 1)?;
    let below = number_named(line, "below", u32::MAX)?;
    let mut sum = Sum::new();
    for _ in 0..times {
        me.for_each(rt, &mut |key, value| add_below(&mut sum, below, key, value))?;
    }
    sum.said(alloc)
}

/// Visits each bucket by itself: how many pairs there are, the sum of their values, and how many of them are of another bucket.
fn visit_by_bucket<V: Value, S: Calls<V>, R: Wait>(rt: &R, alloc: Global, me: &mut S) -> Said {
    let buckets = me.buckets();
    let mut sum = Sum::new();
    let mut elsewhere = 0u32;
    for bucket in 0..buckets {
        me.for_each_in(
            rt,
            bucket,
            &mut |key: Text, value: V| {
                sum.add(value.as_bytes());
                if buckets == 0 || bucket_of(&key, buckets) != bucket {
                    elsewhere = elsewhere.saturating_add(1);
                }
            },
        )?;
    }
    let said = sum.said(alloc)?;
    Ok(format!(in alloc; "{said}, {elsewhere} elsewhere")?)
}

/// How many buckets have a pair.
fn filled<V: Value, S: Calls<V>>(alloc: Global, me: &mut S) -> Said {
    let mut filled = 0u32;
    let buckets = me.buckets();
    for bucket in 0..buckets {
        if !me.is_empty_at(bucket) {
            filled = filled.saturating_add(1);
        }
    }
    Ok(format!(in alloc; "{filled}")?)
}

/// How many of so many frames have an object of a bucket with pairs that was not read since they were last asked.
fn unread<V: Value, S: Calls<V>>(alloc: Global, me: &mut S, line: &Line) -> Said {
    let mut unread = 0u32;
    let frames = times_at(line, 1)?;
    for frame in 0..frames {
        if let Some(bucket) = me.unread_in(frame)
            && !me.is_empty_at(bucket)
        {
            unread = unread.saturating_add(1);
        }
    }
    Ok(format!(in alloc; "{unread}")?)
}

/// Makes a call that visits.
pub fn make_visit<V: Value, S: Calls<V>, R: Wait>(
    rt: &R,
    alloc: Global,
    me: &mut S,
    call: Visit,
    line: &Line,
) -> Said {
    match call {
        Visit::All => visit_all(rt, alloc, me, line),
        Visit::One => visit_one(rt, alloc, me, line),
        Visit::Often => visit_often(rt, alloc, me, line),
        Visit::ByBucket => visit_by_bucket(rt, alloc, me),
        Visit::Filled => filled(alloc, me),
        Visit::Unread => unread(alloc, me, line),
    }
}
