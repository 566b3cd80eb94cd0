//! Numbers as INFO shows them.
ghost use Rattle.std.specs.Prelude.{ℕ, ◌^◌, ◌<◌, ◌≤◌, IfSome};

use itoa::Buffer;
use std::alloc::AllocError;

/// So many bytes, and the letter behind a number of them.
#[derive(Clone, Copy)]
struct Unit {
    bytes: u64,
    letter: u8,
}

const KIBI: u64 = 1024;

const MEBI: u64 = 1024 * KIBI;

const GIBI: u64 = 1024 * MEBI;

const TEBI: u64 = 1024 * GIBI;

const PEBI: u64 = 1024 * TEBI;

pub(crate) fn push_number(text: &mut Vec<u8>, number: u64) -> Result<(), AllocError> {
    let mut digits = Buffer::new();
    text.extend_from_slice(digits.format(number).as_bytes())
}

/// A point, and so many digits, with noughts in front.
pub(crate) fn push_places(
    text: &mut Vec<u8>,
    number: u64,
    places: usize,
) -> Result<(), AllocError> {
    let mut digits = Buffer::new();
    let shown = digits.format(number).as_bytes();
    text.push(b'.')?;
    for _ in shown.len()..places {
        text.push(b'0')?;
    }
    text.extend_from_slice(shown)
}

/// The largest unit that is no more than these bytes.
fn unit_of(bytes: u64) -> Option<Unit>
    ensures { IfSome result (λ unit. (0 < unit.bytes) × (unit.bytes ≤ 2 ^ 50)) }
{
    let (bytes, letter) = match bytes {
        0..KIBI => return None,
        KIBI..MEBI => (KIBI, b'K'),
        MEBI..GIBI => (MEBI, b'M'),
        GIBI..TEBI => (GIBI, b'G'),
        TEBI..PEBI => (TEBI, b'T'),
        _ => (PEBI, b'P'),
    };
    Some(Unit { bytes, letter })
}

/// Hundredths of the unit, to the nearest, and where two are as near to the even one.
fn hundredths(rest: u64, unit: u64) -> u64
    requires less { rest < unit }
    requires fits { unit ≤ 2 ^ 50 }
    ensures { result ≤ 100 }
{
    let below = rest * 100 / unit;
    let left = rest * 100 % unit;
    let up = left > unit - left || left == unit - left && below % 2 == 1;
    if up { below + 1 } else { below }
}

/// Bytes as Redis shows them to people: in the largest unit of which there is one, with two places.
pub(crate) fn push_size(text: &mut Vec<u8>, bytes: u64) -> Result<(), AllocError> {
    let Some(unit) = unit_of(bytes) else {
        push_number(text, bytes)?;
        text.push(b'B')?;
        return Ok(());
    };
    let places = hundredths(bytes % unit.bytes, unit.bytes);
    let whole = bytes / unit.bytes;
    if places == 100 {
        push_number(text, whole.saturating_add(1))?;
        push_places(text, 0, 2)?;
    } else {
        push_number(text, whole)?;
        push_places(text, places, 2)?;
    }
    text.push(unit.letter)?;
    Ok(())
}
