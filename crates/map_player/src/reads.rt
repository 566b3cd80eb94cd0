//! Calls that read the value of a key.

use crate::replies::{Said, Stop, own, plain, truth};
use crate::words::{bytes_said, key_at, push_bytes, value_said};
use case_files::Line;
use far_map::{BucketState, Calls, Text, Value, text};
use std::alloc::Global;
use std::sync::Wait;

/// A call that reads.
#[derive(Clone, Copy)]
pub enum Read {
    Get,
    GetMany,
    With,
    Contains,
    WhereIs,
    Prefetch,
}

/// The keys behind the call's name.
fn keys_of(alloc: Global, line: &Line) -> Result<Vec<Text>, Stop> {
    let mut keys = Vec::new(alloc);
    for word in line.rest(1) {
        keys.push(own(text(alloc, word.as_slice()))?)?;
    }
    Ok(keys)
}

fn get_many<V: Value, S: Calls<V>, R: Wait>(
    rt: &R,
    alloc: Global,
    me: &mut S,
    line: &Line,
) -> Said {
    let keys = keys_of(alloc, line)?;
    let values = me.get_many(rt, keys.as_slice())?;
    let mut out = String::new(alloc);
    for value in &values {
        if !out.is_empty() {
            out.push(' ')?;
        }
        match value {
            Some(value) => push_bytes(&mut out, value.as_bytes())?,
            None => out.push_str("none")?,
        }
    }
    Ok(out)
}

/// What is read of a value where it lies.
fn with<V: Value, S: Calls<V>, R: Wait>(rt: &R, alloc: Global, me: &mut S, line: &Line) -> Said {
    let key = key_at(alloc, line, 1)?;
    match me.with(rt, &key, |bytes| bytes_said(alloc, bytes))? {
        Some(said) => said,
        None => plain(alloc, "none"),
    }
}

fn where_is<V: Value, S: Calls<V>>(alloc: Global, me: &mut S, line: &Line) -> Said {
    let key = key_at(alloc, line, 1)?;
    let said = match me.where_is(&key) {
        BucketState::Empty(name) => format!(in alloc; "empty {name}"),
        BucketState::Local(name) => format!(in alloc; "local {name}"),
        BucketState::Far(name) => format!(in alloc; "far {name}"),
    };
    Ok(said?)
}

fn prefetch<V: Value, S: Calls<V>>(alloc: Global, me: &mut S, line: &Line) -> Said {
    let keys = keys_of(alloc, line)?;
    me.prefetch(keys.as_slice());
    plain(alloc, "")
}

/// Makes a call that reads.
pub fn make_read<V: Value, S: Calls<V>, R: Wait>(
    rt: &R,
    alloc: Global,
    me: &mut S,
    call: Read,
    line: &Line,
) -> Said {
    match call {
        Read::Get => {
            let key = key_at(alloc, line, 1)?;
            value_said(alloc, &me.get(rt, &key)?)
        }
        Read::Contains => {
            let key = key_at(alloc, line, 1)?;
            truth(alloc, me.contains(rt, &key)?)
        }
        Read::GetMany => get_many(rt, alloc, me, line),
        Read::With => with(rt, alloc, me, line),
        Read::WhereIs => where_is(alloc, me, line),
        Read::Prefetch => prefetch(alloc, me, line),
    }
}
