//! A request that is an array: of bulk strings, or of a negative length.
ghost use Rattle.std.specs.Prelude.{◌≡◌, ◌≢◌, ◌*◌, ◌<◌, ◌≤◌, [], IfOk, OnErr, vec_len, vec_capacity, slice_index, length};
ghost use Rattle.resp.specs.Parsing.{ParsesArray, ParsesNegative};

use crate::bulk::{Bulk, bulk_at};
use crate::limits::Limits;
use crate::line::{Line, line_at, positive_at};
use crate::outcome::{ParseFault, Parsed};
use crate::place::Span;
use std::alloc::AllocError;

/// The greatest number that stands behind a minus, as the least `i64` has it.
const MOST_NEGATIVE: u64 = 1 << 63;

/// How many bytes so many empty arguments take.
fn least(arguments: u32) -> usize
    ensures { result ≡ 6 * arguments }
{
    6 * arguments as usize
}

/// An array of strings, whose places are put into `spans`.
pub(crate) fn array_at(
    bytes: &[u8],
    limits: Limits,
    spans: &mut Vec<Span>,
) -> Result<Parsed, AllocError>
    requires empty { spans.old.items ≡ [] }
    requires marked { slice_index bytes.now 0 ≡ 42 }
    ensures parses { IfOk result (λ p. ParsesArray limits bytes.now spans.new.items p) }
    ensures few { vec_len spans.new ≤ limits.arguments }
    ensures full { OnErr result (vec_capacity spans.old < limits.arguments) }
{
    let (count, mut at) = match line_at(bytes, b'*', limits.arguments as u64) {
        Line::Whole { value, len } => (value as u32, len),
        Line::Short { value, missing } => {
            return Ok(Parsed::Incomplete {
                missing: missing + least(value as u32),
            });
        }
        Line::Bad(at) => {
            return Ok(Parsed::Malformed {
                at,
                fault: ParseFault::ArrayLength,
            });
        }
    };
    let mut room = limits.bytes;
    for done in 0..count {
        match bulk_at(&bytes[at..], room) {
            Bulk::Whole { from, len } => {
                spans.push(Span {
                    from: at + from,
                    len: len as usize,
                })?;
                room -= len;
                at += from + len as usize + 2;
            }
            Bulk::Short(missing) => {
                return Ok(Parsed::Incomplete {
                    missing: missing + least(count - done - 1),
                });
            }
            Bulk::Bad(place, fault) => {
                return Ok(Parsed::Malformed {
                    at: at + place,
                    fault,
                });
            }
        }
    }
    Ok(Parsed::Request { consumed: at })
}

/// An array of a negative length, of which two bytes are there.
pub(crate) fn negative_at(bytes: &[u8]) -> Parsed
    requires some { 1 < length bytes.now }
    requires marked { slice_index bytes.now 0 ≡ 42 }
    requires minus { slice_index bytes.now 1 ≡ 45 }
    ensures { ParsesNegative bytes.now result }
{
    match positive_at(&bytes[2..], MOST_NEGATIVE) {
        Line::Whole { len, .. } => Parsed::Request { consumed: len + 2 },
        Line::Short { missing, .. } => Parsed::Incomplete { missing },
        Line::Bad(at) => Parsed::Malformed {
            at: at + 2,
            fault: ParseFault::ArrayLength,
        },
    }
}
