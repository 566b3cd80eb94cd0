//! Calls that only look, and those that move objects without a key.

use crate::replies::{Said, Stop, count, plain, truth};
use crate::words::{key_at, number_at};
use case_files::Line;
use far_map::{Calls, Stats, Traffic, Value};
use std::alloc::Global;
use std::sync::Wait;

/// A call that looks.
#[derive(Clone, Copy)]
pub enum Look {
    NamesLeft,
    Buckets,
    BucketOf,
    IsEmptyAt,
    UnreadIn,
    Evict,
    Settle,
    Traffic,
    BytesInFrames,
    Stats,
}

/// What was counted, by the name of its field.
fn counted(stats: &Stats) -> [(&'static str, u64); 10] {
    [
        ("gets", stats.gets),
        ("puts", stats.puts),
        ("removes", stats.removes),
        ("put_ifs", stats.put_ifs),
        ("too_long", stats.too_long),
        ("full", stats.full),
        ("names_spent", stats.names_spent),
        ("device", stats.device),
        ("damaged", stats.damaged),
        ("memory", stats.memory),
    ]
}

/// The same of the traffic. The bytes are left out, since they can be less than 0.
fn moved(traffic: &Traffic) -> [(&'static str, u64); 5] {
    [
        ("local_reads", traffic.local_reads),
        ("far_reads", traffic.far_reads),
        ("swap_ins", traffic.swap_ins),
        ("swap_outs", traffic.swap_outs),
        ("device_failures", traffic.device_failures),
    ]
}

/// The numbers of the fields that the line names. Where it names none, all fields that are not 0.
pub fn fields_said(alloc: Global, line: &Line, fields: &[(&'static str, u64)]) -> Said {
    let mut out = String::new(alloc);
    for place in 1..line.words.len() {
        let name = line.text_at(place).unwrap_or("");
        let field = fields.iter().find(|field| field.0 == name);
        let Some(field) = field else {
            return Err(Stop::Mistake("no such field: tests/cases/maps/README.md has them"));
        };
        if place > 1 {
            out.push(' ')?;
        }
        write!(out, "{}", field.1)?;
    }
    if line.count() == 0 {
        push_all(&mut out, fields)?;
    }
    Ok(out)
}

/// Writes all fields that are not 0. Refused growths are left out, since a case may be played with such.
fn push_all(out: &mut String, fields: &[(&'static str, u64)]) -> Result<(), Stop> {
    for (name, number) in fields {
        if *number != 0 && *name != "memory" {
            if !out.is_empty() {
                out.push(' ')?;
            }
            write!(out, "{name}={number}")?;
        }
    }
    Ok(())
}

/// The bucket of the line's first word, where the map has it.
pub fn bucket_at<V: Value, S: Calls<V>>(me: &S, line: &Line) -> Result<u32, Stop> {
    let bucket = number_at(line, 1)?;
    if bucket < me.buckets() {
        Ok(bucket)
    } else {
        Err(Stop::Mistake("the map has no such bucket"))
    }
}

fn is_empty_at<V: Value, S: Calls<V>>(alloc: Global, me: &mut S, line: &Line) -> Said {
    let bucket = number_at(line, 1)?;
    if bucket >= me.buckets() {
        return Err(Stop::Mistake("the map has no such bucket"));
    }
    truth(alloc, me.is_empty_at(bucket))
}

/// How many bytes lie in frames; with `most=` whether they are so many at most.
fn bytes_in_frames(alloc: Global, bytes: u64, line: &Line) -> Said {
    let most = line.number_named("most", u64::MAX).unwrap_or(0);
    if line.named("most").is_some() {
        truth(alloc, bytes <= most)
    } else {
        count(alloc, bytes)
    }
}

fn unread_in<V: Value, S: Calls<V>>(alloc: Global, me: &S, line: &Line) -> Said {
    match me.unread_in(number_at(line, 1)?) {
        Some(bucket) => count(alloc, u64::from(bucket)),
        None => plain(alloc, "none"),
    }
}

/// Makes a call that looks.
pub fn make_look<V: Value, S: Calls<V>, R: Wait>(
    rt: &R,
    alloc: Global,
    me: &mut S,
    call: Look,
    line: &Line,
) -> Said {
    match call {
        Look::NamesLeft => count(alloc, me.names_left()),
        Look::Buckets => count(alloc, u64::from(me.buckets())),
        Look::BucketOf => count(alloc, u64::from(me.bucket_of(&key_at(alloc, line, 1)?))),
        Look::IsEmptyAt => is_empty_at(alloc, me, line),
        Look::UnreadIn => unread_in(alloc, me, line),
        Look::Evict => truth(alloc, me.evict(rt)?),
        Look::Settle => {
            me.settle(rt);
            plain(alloc, "")
        }
        Look::Traffic => fields_said(alloc, line, &moved(&me.traffic())),
        Look::BytesInFrames => bytes_in_frames(alloc, me.bytes_in_frames(), line),
        Look::Stats => fields_said(alloc, line, &counted(&me.stats())),
    }
}
