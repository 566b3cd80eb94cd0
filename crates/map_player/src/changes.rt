//! Calls that change the value of a key.

use crate::replies::{OUT_OF_MEMORY, Said, Stop, plain};
use crate::words::{key_at, number_value, push_bytes, read_number, value_at, value_said};
use case_files::Line;
use far_map::{Calls, Updated, Value};
use std::alloc::Global;
use std::sync::Wait;

/// A call that changes.
#[derive(Clone, Copy)]
pub enum Change {
    Put,
    PutIf,
    Remove,
    RemoveIf,
    Update,
}

/// The value that is expected: `none` is for no value.
fn expected_at<V: Value>(alloc: Global, line: &Line, place: usize) -> Result<Option<V>, Stop> {
    if line.word(place) == Some(b"none".as_slice()) {
        return Ok(None);
    }
    Ok(Some(value_at(alloc, line, place)?))
}

fn put_if<V: Value, S: Calls<V>, R: Wait>(rt: &R, alloc: Global, me: &mut S, line: &Line) -> Said {
    let key = key_at(alloc, line, 1)?;
    let expected: Option<V> = expected_at(alloc, line, 2)?;
    let value: V = value_at(alloc, line, 3)?;
    let before = me.put_if(rt, &key, expected.as_ref(), &value)?;
    value_said(alloc, &before)
}

fn remove_if<V: Value, S: Calls<V>, R: Wait>(
    rt: &R,
    alloc: Global,
    me: &mut S,
    line: &Line,
) -> Said {
    let key = key_at(alloc, line, 1)?;
    let expected: V = value_at(alloc, line, 2)?;
    let removal = me.remove_if(rt, &key, &expected)?;
    said_with(
        alloc,
        if removal.removed { "removed" } else { "kept" },
        &removal.found,
    )
}

/// A word, and the value that was found.
fn said_with<V: Value>(alloc: Global, word: &str, found: &Option<V>) -> Said {
    let mut out = String::from_str(alloc, word)?;
    out.push(' ')?;
    match found {
        Some(value) => push_bytes(&mut out, value.as_bytes())?,
        None => out.push_str("none")?,
    }
    Ok(out)
}

/// One more than the number that was found. None where there is no memory.
pub fn one_more<V: Value>(alloc: Global, found: Option<&V>) -> Option<V> {
    let before = match found {
        Some(value) => read_number(value.as_bytes()),
        None => 0,
    };
    number_value(alloc, before.wrapping_add(1)).ok()
}

/// An update that adds one, or with `leaves` one that makes nothing.
fn update<V: Value, S: Calls<V>, R: Wait>(rt: &R, alloc: Global, me: &mut S, line: &Line) -> Said {
    let key = key_at(alloc, line, 1)?;
    let leaves = line.is(2, "leave");
    let updated = if leaves {
        me.update(rt, &key, |_| None)?
    } else {
        me.update(rt, &key, |found| one_more(alloc, found))?
    };
    match updated {
        Updated::Set(found) => said_with(alloc, "set", &found),
        Updated::Left(found) if leaves => said_with(alloc, "left", &found),
        Updated::Left(_) => Err(OUT_OF_MEMORY),
        Updated::Overtaken => plain(alloc, "overtaken"),
    }
}

/// Makes a call that changes.
pub fn make_change<V: Value, S: Calls<V>, R: Wait>(
    rt: &R,
    alloc: Global,
    me: &mut S,
    call: Change,
    line: &Line,
) -> Said {
    match call {
        Change::Put => {
            let key = key_at(alloc, line, 1)?;
            let value: V = value_at(alloc, line, 2)?;
            value_said(alloc, &me.put(rt, &key, &value)?)
        }
        Change::Remove => {
            let key = key_at(alloc, line, 1)?;
            value_said(alloc, &me.remove(rt, &key)?)
        }
        Change::PutIf => put_if(rt, alloc, me, line),
        Change::RemoveIf => remove_if(rt, alloc, me, line),
        Change::Update => update(rt, alloc, me, line),
    }
}
