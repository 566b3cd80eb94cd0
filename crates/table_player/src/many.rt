//! Calls that stand for many: the same caller, call after call.

use crate::datum::Datum;
use crate::site::Site;
use crate::stop::Stop;
use crate::user::User;
use far_device::Device;
use hash_table::Refusal;
use std::alloc::Global;
use std::sync::Wait;
use swapper::QueueNaming;
use version_words::Naming;

/// How often one put is tried while another thread draws names, and one call while no frame is free.
pub const MOST_TRIES: u32 = 100_000_000;

// The value of this number, made once more where a growth was refused: the calls before it are done.
fn value_of<T: Datum>(alloc: Global, number: u64) -> Result<T, Stop> {
    for _ in 0..2 {
        if let Ok(value) = T::of_number(alloc, number) {
            return Ok(value);
        }
    }
    Err(Stop::Memory)
}

fn is_spelled<T: Datum>(alloc: Global, value: &T, number: u64) -> Result<bool, Stop> {
    let mut one = String::new(alloc);
    value.spell(&mut one)?;
    let other = format!(in alloc; "{number}")?;
    Ok(one == other)
}

/// Whether the value is this number, or both are none.
pub fn is_number<T: Datum>(
    alloc: Global,
    found: &Option<T>,
    number: Option<u64>,
) -> Result<bool, Stop> {
    match (found, number) {
        (None, None) => Ok(true),
        (Some(value), Some(number)) => {
            for _ in 0..2 {
                if let Ok(is) = is_spelled(alloc, value, number) {
                    return Ok(is);
                }
            }
            Err(Stop::Memory)
        }
        _ => Ok(false),
    }
}

// One try of a put, and another one where a growth was refused to it.
fn put<T: Datum, J: Naming, B: QueueNaming, D: Device>(
    site: &Site<'_, T, J, B, D>,
    user: &mut User<T, J, B>,
    key: &T,
    value: &T,
) -> Result<Option<T>, Refusal> {
    let first = site.table.try_put(site.alloc, &mut user.caller, key, value);
    match first {
        Err(Refusal::Memory) => site.table.try_put(site.alloc, &mut user.caller, key, value),
        answer => answer,
    }
}

/// Puts the values from 1 to this one, and counts the puts that answered the value before. It ends before that at a refusal.
pub fn try_puts<T: Datum, J: Naming, B: QueueNaming, D: Device>(
    site: &Site<'_, T, J, B, D>,
    user: &mut User<T, J, B>,
    key: &T,
    most: u64,
) -> Result<u64, Stop> {
    let mut right = 0u64;
    let mut before = None;
    for number in 1..=most {
        let value = value_of(site.alloc, number)?;
        let Ok(found) = put(site, user, key, &value) else {
            return Ok(right);
        };
        if is_number(site.alloc, &found, before)? {
            right = right.wrapping_add(1);
        }
        before = Some(number);
    }
    Ok(right)
}

/// The same, and the spare of each put is reclaimed. How often the put answered the value before, and the version before was
/// there.
pub fn puts_and_reclaims<T: Datum, J: Naming, B: QueueNaming, D: Device, R: Wait>(
    rt: &R,
    site: &Site<'_, T, J, B, D>,
    user: &mut User<T, J, B>,
    key: &T,
    most: u64,
) -> Result<u64, Stop> {
    let mut right = 0u64;
    let mut before = None;
    for number in 1..=most {
        let value = value_of(site.alloc, number)?;
        let Ok(found) = put(site, user, key, &value) else {
            return Ok(right);
        };
        let put = is_number(site.alloc, &found, before)?;
        if put && (before.is_none() || user.reclaim(rt, site.table) == Some(Ok(true))) {
            right = right.wrapping_add(1);
        }
        before = Some(number);
    }
    Ok(right)
}

// Puts, again while another name was drawn at that moment. This takes no handle to wait.
fn put_again<T: Datum, J: Naming, B: QueueNaming, D: Device>(
    site: &Site<'_, T, J, B, D>,
    user: &mut User<T, J, B>,
    key: &T,
    value: &T,
) -> Result<Option<T>, Refusal> {
    for _ in 0..MOST_TRIES {
        match site.table.try_put(site.alloc, &mut user.caller, key, value) {
            Ok(answer) => return Ok(answer),
            Err(Refusal::Moved) => {}
            Err(refusal) => return Err(refusal),
        }
    }
    Err(Refusal::Moved)
}

/// Rounds, in each of which a put answers the value before, a get then this one, and the old version ends. How many went so.
pub fn rounds<T: Datum, J: Naming, B: QueueNaming, D: Device, R: Wait>(
    rt: &R,
    site: &Site<'_, T, J, B, D>,
    user: &mut User<T, J, B>,
    key: &T,
    most: u64,
) -> Result<u64, Stop> {
    let (alloc, mut right, mut before) = (site.alloc, 0u64, None);
    for number in 1..=most {
        let value = value_of(alloc, number)?;
        let put = match put_again(site, user, key, &value) {
            Ok(found) => is_number(alloc, &found, before)?,
            Err(_) => false,
        };
        let got = match site.table.try_get(alloc, &mut user.caller, key) {
            Ok(found) => is_number(alloc, &found, Some(number))?,
            Err(_) => false,
        };
        let ended = before.is_none() || user.reclaim(rt, site.table) == Some(Ok(true));
        if put && got && ended {
            right = right.wrapping_add(1);
        }
        before = Some(number);
    }
    Ok(right)
}
