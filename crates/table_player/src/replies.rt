//! The texts of replies.
//!
//! A text is begun once more where a growth of its own was refused: the call is done by then, and can't be made again.

use crate::datum::Datum;
use crate::stop::{Reply, Stop};
use case_files::push_spelled;
use far_pairs::LentPair;
use hash_table::{BucketState, Refusal, Removal, Round, TableScope, Traffic};
use std::alloc::Global;
use std::fmt::Display;
use version_words::Naming;

/// How often a text is begun.
const TRIES: u32 = 2;

/// A plain text.
pub fn text(alloc: Global, text: &str) -> Reply {
    for _ in 0..TRIES {
        if let Ok(out) = String::from_str(alloc, text) {
            return Ok(out);
        }
    }
    Err(Stop::Memory)
}

/// What is printed of it.
pub fn shown<F: Display>(alloc: Global, it: &F) -> Reply {
    for _ in 0..TRIES {
        if let Ok(out) = format!(in alloc; "{it}") {
            return Ok(out);
        }
    }
    Err(Stop::Memory)
}

pub fn flag(alloc: Global, is: bool) -> Reply {
    text(alloc, if is { "true" } else { "false" })
}

/// A value behind a word, or `none`.
fn found_behind<T: Datum>(alloc: Global, word: &str, found: &Option<T>) -> Reply {
    let Some(value) = found else {
        return text(alloc, "none");
    };
    for _ in 0..TRIES {
        let mut out = String::new(alloc);
        if out.push_str(word).is_ok() && value.spell(&mut out).is_ok() {
            return Ok(out);
        }
    }
    Err(Stop::Memory)
}

/// A value, or `none`.
pub fn found<T: Datum>(alloc: Global, found: &Option<T>) -> Reply {
    found_behind(alloc, "", found)
}

/// A value, `none`, or the refusal.
pub fn value<T: Datum>(alloc: Global, answer: Result<Option<T>, Refusal>) -> Reply {
    match answer {
        Ok(it) => found(alloc, &it),
        Err(refusal) => shown(alloc, &refusal),
    }
}

/// The same of a round, where `again` says that another one may finish the call.
pub fn round<T: Datum>(alloc: Global, answer: Result<Round<T>, Refusal>) -> Reply {
    match answer {
        Ok(Round::Finished(it)) => found(alloc, &it),
        Ok(Round::Again) => text(alloc, "again"),
        Err(refusal) => shown(alloc, &refusal),
    }
}

/// What a removal on a condition found, behind `removed` where it was the expected value.
pub fn removal<T: Datum>(alloc: Global, answer: Result<Removal<T>, Refusal>) -> Reply {
    match answer {
        Err(refusal) => shown(alloc, &refusal),
        Ok(removal) => {
            let word = if removal.removed { "removed " } else { "" };
            found_behind(alloc, word, &removal.found)
        }
    }
}

/// Whether something was done, or the refusal.
pub fn done(alloc: Global, answer: Result<bool, Refusal>) -> Reply {
    match answer {
        Ok(is) => flag(alloc, is),
        Err(refusal) => shown(alloc, &refusal),
    }
}

/// The name of a version, or `none`.
pub fn name(alloc: Global, name: Option<u64>) -> Reply {
    match name {
        Some(name) => shown(alloc, &name),
        None => text(alloc, "none"),
    }
}

/// A word and a number behind it.
pub fn word_and(alloc: Global, word: &str, number: u64) -> Reply {
    for _ in 0..TRIES {
        if let Ok(out) = format!(in alloc; "{word} {number}") {
            return Ok(out);
        }
    }
    Err(Stop::Memory)
}

pub fn state(alloc: Global, state: BucketState) -> Reply {
    match state {
        BucketState::Empty(name) => word_and(alloc, "empty", name),
        BucketState::Local(name) => word_and(alloc, "local", name),
        BucketState::Far(name) => word_and(alloc, "far", name),
    }
}

pub fn frame(alloc: Global, seen: Option<(u32, u64)>) -> Reply {
    let Some((bucket, name)) = seen else {
        return text(alloc, "none");
    };
    for _ in 0..TRIES {
        if let Ok(out) = format!(in alloc; "bucket {bucket} name {name}") {
            return Ok(out);
        }
    }
    Err(Stop::Memory)
}

// Writes a count that is not 0.
fn push_count<F: Display + Drop>(
    out: &mut String,
    name: &str,
    is_none: bool,
    count: F,
) -> Result<(), Stop> {
    if is_none {
        return Ok(());
    }
    if !out.is_empty() {
        out.push(' ')?;
    }
    out.push_str(name)?;
    match write!(out, "={count}") {
        Ok(()) => Ok(()),
        Err(_) => Err(Stop::Memory),
    }
}

fn push_counts(out: &mut String, traffic: Traffic) -> Result<(), Stop> {
    let counts = [
        ("local_reads", traffic.local_reads),
        ("far_reads", traffic.far_reads),
        ("swap_ins", traffic.swap_ins),
        ("swap_outs", traffic.swap_outs),
        ("device_failures", traffic.device_failures),
    ];
    for (name, count) in counts {
        push_count(out, name, count == 0, count)?;
    }
    push_count(out, "bytes", traffic.bytes == 0, traffic.bytes)
}

/// The counts that are not 0, or `none`.
pub fn counted(alloc: Global, traffic: Traffic) -> Reply {
    for _ in 0..TRIES {
        let mut out = String::new(alloc);
        if push_counts(&mut out, traffic).is_ok() {
            return or_none(alloc, out);
        }
    }
    Err(Stop::Memory)
}

// `none` in place of an empty text.
fn or_none(alloc: Global, out: String) -> Reply {
    if out.is_empty() {
        return text(alloc, "none");
    }
    Ok(out)
}

/// What a scope shows: the value, the bytes that it is written as, and the name of its version.
pub fn scope<T: Datum, J: Naming>(alloc: Global, scope: &TableScope<'_, T, T, J>) -> Reply {
    let Ok(value) = scope.value(alloc) else {
        return Err(Stop::Memory);
    };
    let mut out = String::new(alloc);
    value.spell(&mut out)?;
    out.push_str(" as ")?;
    push_spelled(&mut out, scope.bytes())?;
    let name = scope.name();
    match write!(out, " name {name}") {
        Ok(()) => Ok(out),
        Err(_) => Err(Stop::Memory),
    }
}

// Writes a pair behind those before it.
fn push_pair<T: Datum>(out: &mut String, key: &T, value: &T) -> Result<(), Stop> {
    if !out.is_empty() {
        out.push(' ')?;
    }
    key.spell(out)?;
    out.push('=')?;
    value.spell(out)?;
    Ok(())
}

fn push_pairs<T: Datum>(out: &mut String, pairs: &[(T, T)]) -> Result<(), Stop> {
    for (key, value) in pairs {
        push_pair(out, key, value)?;
    }
    Ok(())
}

/// The pairs in the order that they have, or `none`.
pub fn pairs<T: Datum>(alloc: Global, pairs: &[(T, T)]) -> Reply {
    for _ in 0..TRIES {
        let mut out = String::new(alloc);
        if push_pairs(&mut out, pairs).is_ok() {
            return or_none(alloc, out);
        }
    }
    Err(Stop::Memory)
}

// Writes a pair that is lent as it is written. Its bytes have to be a key and a value, and nothing more.
fn push_lent<T: Datum>(alloc: Global, out: &mut String, pair: &LentPair<'_>) -> Result<(), Stop> {
    let (key, value) = (pair.key(), pair.value());
    match (T::decode(alloc, key), T::decode(alloc, value)) {
        (Ok((one, length)), Ok((other, more))) if length == key.len() && more == value.len() => {
            push_pair(out, &one, &other)
        }
        _ => Err(Stop::Mistake("what is lent is no pair")),
    }
}

/// The same of lists of pairs that are lent as they are written.
pub fn lent<T: Datum>(alloc: Global, lists: &[Vec<LentPair<'_>>]) -> Reply {
    let mut out = String::new(alloc);
    for list in lists {
        for pair in list {
            push_lent::<T>(alloc, &mut out, pair)?;
        }
    }
    or_none(alloc, out)
}
