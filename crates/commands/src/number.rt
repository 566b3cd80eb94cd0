//! Whole numbers as Redis reads them.
ghost use Rattle.std.specs.Prelude.{◌≡◌, ◌≢◌, ℤ, ◌+ℤ◌, FitsSigned, MatchOption};
ghost use Rattle.std.specs.Int.{w64};
ghost use Rattle.std.specs.Fmt.{signed_decimal};
ghost use Rattle.std.specs.Option.{SomeIff};

use itoa::Buffer;
use std::str;

/// The most bytes of a whole number: 19 digits and a sign.
const LONGEST: usize = 20;

/// The number that the bytes spell, from -2^63 to 2^63 - 1. A number has one spelling: digits without a zero in front, and
/// a `-` where it is below zero. So `+1`, `01`, `-0`, ` 1` and no bytes at all are no numbers.
pub fn whole_number(bytes: &[u8]) -> Option<i64>
    ensures { MatchOption result
        ((z : ℤ) → FitsSigned w64 z → bytes.now ≢ signed_decimal z)
        (λ z. bytes.now ≡ signed_decimal z) }
{
    if bytes.len() > LONGEST {
        return None;
    }
    let Ok(text) = str::from_utf8(bytes) else {
        return None;
    };
    let Ok(number) = text.parse::<i64>() else {
        return None;
    };
    let mut digits = Buffer::new();
    let spelling = digits.format(number).as_bytes();
    if spelling == bytes {
        Some(number)
    } else {
        None
    }
}

/// The sum, where it is one of 64 bits. Where it is not, Redis answers "increment or decrement would overflow".
pub fn add_to(value: i64, by: i64) -> Option<i64>
    ensures { SomeIff result (FitsSigned w64 (value +ℤ by)) (value +ℤ by) }
{
    value.checked_add(by)
}
