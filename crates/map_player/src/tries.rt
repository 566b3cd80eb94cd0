//! Calls of a series or of rounds, each made once more where a growth was refused to it: so a refused growth changes no reply of
//! the whole.

use crate::replies::Stop;
use crate::words::{number_value, read_number};
use far_map::{Calls, MapRefusal, Removal, Text, Value};
use std::alloc::Global;
use std::sync::Wait;

pub fn put<V: Value, S: Calls<V>, R: Wait>(
    rt: &R,
    me: &mut S,
    key: &Text,
    value: &V,
) -> Result<Option<V>, Stop> {
    match me.put(rt, key, value) {
        Err(MapRefusal::Memory) => Ok(me.put(rt, key, value)?),
        other => Ok(other?),
    }
}

pub fn get<V: Value, S: Calls<V>, R: Wait>(
    rt: &R,
    me: &mut S,
    key: &Text,
) -> Result<Option<V>, Stop> {
    match me.get(rt, key) {
        Err(MapRefusal::Memory) => Ok(me.get(rt, key)?),
        other => Ok(other?),
    }
}

pub fn put_if<V: Value, S: Calls<V>, R: Wait>(
    rt: &R,
    me: &mut S,
    key: &Text,
    expected: Option<&V>,
    value: &V,
) -> Result<Option<V>, Stop> {
    match me.put_if(rt, key, expected, value) {
        Err(MapRefusal::Memory) => Ok(me.put_if(rt, key, expected, value)?),
        other => Ok(other?),
    }
}

pub fn remove<V: Value, S: Calls<V>, R: Wait>(
    rt: &R,
    me: &mut S,
    key: &Text,
) -> Result<Option<V>, Stop> {
    match me.remove(rt, key) {
        Err(MapRefusal::Memory) => Ok(me.remove(rt, key)?),
        other => Ok(other?),
    }
}

pub fn remove_if<V: Value, S: Calls<V>, R: Wait>(
    rt: &R,
    me: &mut S,
    key: &Text,
    expected: &V,
) -> Result<Removal<V>, Stop> {
    match me.remove_if(rt, key, expected) {
        Err(MapRefusal::Memory) => Ok(me.remove_if(rt, key, expected)?),
        other => Ok(other?),
    }
}

pub fn evict<V: Value, S: Calls<V>, R: Wait>(rt: &R, me: &mut S) -> Result<bool, Stop> {
    match me.evict(rt) {
        Err(MapRefusal::Memory) => Ok(me.evict(rt)?),
        other => Ok(other?),
    }
}

/// The length of a value, read where it lies.
pub fn length<V: Value, S: Calls<V>, R: Wait>(
    rt: &R,
    me: &mut S,
    key: &Text,
) -> Result<Option<usize>, Stop> {
    match me.with(rt, key, |bytes| bytes.len()) {
        Err(MapRefusal::Memory) => Ok(me.with(rt, key, |bytes| bytes.len())?),
        other => Ok(other?),
    }
}

/// Puts a number to a key that is a number.
pub fn put_number<V: Value, S: Calls<V>, R: Wait>(
    rt: &R,
    alloc: Global,
    me: &mut S,
    key: &Text,
    to: u32,
) -> Result<(), Stop> {
    let value: V = number_value(alloc, to)?;
    put(rt, me, key, &value)?;
    Ok(())
}

/// The number that a key has.
pub fn get_number<V: Value, S: Calls<V>, R: Wait>(
    rt: &R,
    me: &mut S,
    key: &Text,
) -> Result<Option<u32>, Stop> {
    match get(rt, me, key)? {
        Some(value) => Ok(Some(read_number(value.as_bytes()))),
        None => Ok(None),
    }
}
