//! The calls of a session, by their names.

use crate::changes::{Change, make_change};
use crate::device::device_call;
use crate::looks::{Look, make_look};
use crate::reads::{Read, make_read};
use crate::replies::{Said, Stop};
use crate::rounds::{Round, make_round};
use crate::series::{Series, make_series};
use crate::stage::Stage;
use crate::visits::{Visit, make_visit};
use crate::walk::Walk;
use case_files::Line;
use far_map::{Calls, Value};
use std::alloc::Global;
use std::sync::Wait;

/// The kind of a call.
#[derive(Clone, Copy)]
enum Call {
    Read(Read),
    Change(Change),
    Look(Look),
    Visit(Visit),
    Series(Series),
    Round(Round),
}

const CALLS: &[(&str, Call)] = &[
    ("get", Call::Read(Read::Get)),
    ("get_many", Call::Read(Read::GetMany)),
    ("with", Call::Read(Read::With)),
    ("contains", Call::Read(Read::Contains)),
    ("where_is", Call::Read(Read::WhereIs)),
    ("prefetch", Call::Read(Read::Prefetch)),
    ("put", Call::Change(Change::Put)),
    ("put_if", Call::Change(Change::PutIf)),
    ("remove", Call::Change(Change::Remove)),
    ("remove_if", Call::Change(Change::RemoveIf)),
    ("update", Call::Change(Change::Update)),
    ("names_left", Call::Look(Look::NamesLeft)),
    ("buckets", Call::Look(Look::Buckets)),
    ("bucket_of", Call::Look(Look::BucketOf)),
    ("is_empty_at", Call::Look(Look::IsEmptyAt)),
    ("unread_in", Call::Look(Look::UnreadIn)),
    ("evict", Call::Look(Look::Evict)),
    ("settle", Call::Look(Look::Settle)),
    ("traffic", Call::Look(Look::Traffic)),
    ("bytes_in_frames", Call::Look(Look::BytesInFrames)),
    ("stats", Call::Look(Look::Stats)),
    ("for_each", Call::Visit(Visit::All)),
    ("for_each_in", Call::Visit(Visit::One)),
    ("visits", Call::Visit(Visit::Often)),
    ("visits_by_bucket", Call::Visit(Visit::ByBucket)),
    ("filled", Call::Visit(Visit::Filled)),
    ("unread", Call::Visit(Visit::Unread)),
    ("puts", Call::Series(Series::Puts)),
    ("gets", Call::Series(Series::Gets)),
    ("gets_many", Call::Series(Series::GetsMany)),
    ("prefetches", Call::Series(Series::Prefetches)),
    ("updates", Call::Round(Round::Updates)),
    ("counts", Call::Round(Round::Counts)),
    ("sets_and_removes", Call::Round(Round::SetsAndRemoves)),
    ("disturbs", Call::Round(Round::Disturbs)),
    ("fills", Call::Round(Round::Fills)),
    ("turns", Call::Round(Round::Turns)),
    ("tally", Call::Round(Round::Tally)),
    ("is_tally", Call::Round(Round::IsTally)),
];

fn named(name: &str) -> Option<Call> {
    for (known, call) in CALLS {
        if *known == name {
            return Some(*call);
        }
    }
    None
}

/// Makes the call of a line.
pub fn make<V: Value, S: Calls<V>, R: Wait>(
    rt: &R,
    alloc: Global,
    stage: &Stage<'_>,
    me: &mut S,
    walk: &mut Walk,
    line: &Line,
) -> Said {
    if let Some(said) = device_call(alloc, &stage.gate, line) {
        return said;
    }
    let Some(call) = named(line.call()) else {
        return Err(Stop::Mistake("no such call: tests/cases/maps/README.md has them"));
    };
    stage.gate.begin();
    match call {
        Call::Read(it) => make_read(rt, alloc, me, it, line),
        Call::Change(it) => make_change(rt, alloc, me, it, line),
        Call::Look(it) => make_look(rt, alloc, me, it, line),
        Call::Visit(it) => make_visit(rt, alloc, me, it, line),
        Call::Series(it) => make_series(rt, alloc, &stage.gate, me, it, line),
        Call::Round(it) => make_round(rt, alloc, stage, me, walk, it, line),
    }
}
