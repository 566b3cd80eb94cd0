//! A reply at the front of bytes, token by token: what a client reads.
ghost use Rattle.std.specs.Prelude.{◌≡◌, ◌≢◌, ◌+◌, ◌-◌, ◌^◌, ◌<◌, ◌≤◌, ◌++◌, negsuc, List, ℕ, length, slice_index};
ghost use Rattle.resp.specs.Replies.{Token as ReplyToken, token, IsTaken, Receives, ReadsAgain};

use crate::bulk::{Bulk, bulk_at};
use crate::limits::Limits;
use crate::line::{Line, number_at, positive_at};
use crate::place::Span;
use crate::text::{Text, text_at};

/// A reply that is no array, or the front of one.
#[derive(Clone, Copy, Debug, PartialEq, Eq)]
pub enum Token {
    /// A line of text, as `+OK`.
    Simple(Span),
    /// A line of text that names an error, as `-ERR syntax error`.
    Failure(Span),
    Number(i64),
    String(Span),
    /// In place of a string.
    Nothing,
    /// So many replies follow, which are one array.
    Count(u32),
    /// In place of an array.
    NoArray,
}

/// What stands at the front of the bytes of a server.
#[derive(Clone, Copy, Debug, PartialEq, Eq)]
pub enum Received {
    /// A token, which takes so many bytes.
    Reply { token: Token, consumed: usize },
    /// The beginning of one. So many bytes are enough, and no fewer are.
    Incomplete { missing: usize },
    /// No token goes on as these bytes do up to this place and with it.
    Malformed { at: usize },
}

const MOST_POSITIVE: u64 = (1 << 63) - 1;

const MOST_NEGATIVE: u64 = 1 << 63;

/// The number behind a minus.
fn negated(value: u64) -> i64
    requires some { 0 < value }
    requires fits { value ≤ 2 ^ 63 }
    ensures { result ≡ negsuc (value - 1) }
{
    -((value - 1) as i64) - 1
}

/// `+` and a text.
fn simple_at(bytes: &[u8], limits: Limits) -> Received
    requires some { 0 < length bytes.now }
    requires marked { slice_index bytes.now 0 ≡ 43 }
    ensures { Receives limits bytes.now result }
{
    match text_at(&bytes[1..], limits.line as usize) {
        Text::Whole(len) => Received::Reply {
            token: Token::Simple(Span { from: 1, len }),
            consumed: len + 3,
        },
        Text::Short(missing) => Received::Incomplete { missing },
        Text::Bad(at) => Received::Malformed { at: at + 1 },
    }
}

/// `-` and a text.
fn failure_at(bytes: &[u8], limits: Limits) -> Received
    requires some { 0 < length bytes.now }
    requires marked { slice_index bytes.now 0 ≡ 45 }
    ensures { Receives limits bytes.now result }
{
    match text_at(&bytes[1..], limits.line as usize) {
        Text::Whole(len) => Received::Reply {
            token: Token::Failure(Span { from: 1, len }),
            consumed: len + 3,
        },
        Text::Short(missing) => Received::Incomplete { missing },
        Text::Bad(at) => Received::Malformed { at: at + 1 },
    }
}

/// `:`, a minus and a number.
fn negative_at(bytes: &[u8], limits: Limits) -> Received
    requires some { 1 < length bytes.now }
    requires marked { slice_index bytes.now 0 ≡ 58 }
    requires minus { slice_index bytes.now 1 ≡ 45 }
    ensures { Receives limits bytes.now result }
{
    match positive_at(&bytes[2..], MOST_NEGATIVE) {
        Line::Whole { value, len } => Received::Reply {
            token: Token::Number(negated(value)),
            consumed: len + 2,
        },
        Line::Short { missing, .. } => Received::Incomplete { missing },
        Line::Bad(at) => Received::Malformed { at: at + 2 },
    }
}

/// `:` and a number without a minus.
fn natural_at(bytes: &[u8], limits: Limits) -> Received
    requires some { 1 < length bytes.now }
    requires marked { slice_index bytes.now 0 ≡ 58 }
    requires plain { slice_index bytes.now 1 ≢ 45 }
    ensures { Receives limits bytes.now result }
{
    match number_at(&bytes[1..], MOST_POSITIVE) {
        Line::Whole { value, len } => Received::Reply {
            token: Token::Number(value as i64),
            consumed: len + 1,
        },
        Line::Short { missing, .. } => Received::Incomplete { missing },
        Line::Bad(at) => Received::Malformed { at: at + 1 },
    }
}

/// `$-1`.
fn nothing_at(bytes: &[u8], limits: Limits) -> Received
    requires some { 1 < length bytes.now }
    requires marked { slice_index bytes.now 0 ≡ 36 }
    requires minus { slice_index bytes.now 1 ≡ 45 }
    ensures { Receives limits bytes.now result }
{
    match positive_at(&bytes[2..], 1) {
        Line::Whole { len, .. } => Received::Reply {
            token: Token::Nothing,
            consumed: len + 2,
        },
        Line::Short { missing, .. } => Received::Incomplete { missing },
        Line::Bad(at) => Received::Malformed { at: at + 2 },
    }
}

/// `$`, a length and a string.
fn string_at(bytes: &[u8], limits: Limits) -> Received
    requires some { 1 < length bytes.now }
    requires marked { slice_index bytes.now 0 ≡ 36 }
    requires plain { slice_index bytes.now 1 ≢ 45 }
    ensures { Receives limits bytes.now result }
{
    match bulk_at(bytes, limits.bytes) {
        Bulk::Whole { from, len } => Received::Reply {
            token: Token::String(Span {
                from,
                len: len as usize,
            }),
            consumed: from + len as usize + 2,
        },
        Bulk::Short(missing) => Received::Incomplete { missing },
        Bulk::Bad(at, _) => Received::Malformed { at },
    }
}

/// `*-1`.
fn no_array_at(bytes: &[u8], limits: Limits) -> Received
    requires some { 1 < length bytes.now }
    requires marked { slice_index bytes.now 0 ≡ 42 }
    requires minus { slice_index bytes.now 1 ≡ 45 }
    ensures { Receives limits bytes.now result }
{
    match positive_at(&bytes[2..], 1) {
        Line::Whole { len, .. } => Received::Reply {
            token: Token::NoArray,
            consumed: len + 2,
        },
        Line::Short { missing, .. } => Received::Incomplete { missing },
        Line::Bad(at) => Received::Malformed { at: at + 2 },
    }
}

/// `*` and a count.
fn count_at(bytes: &[u8], limits: Limits) -> Received
    requires some { 1 < length bytes.now }
    requires marked { slice_index bytes.now 0 ≡ 42 }
    requires plain { slice_index bytes.now 1 ≢ 45 }
    ensures { Receives limits bytes.now result }
{
    match number_at(&bytes[1..], limits.arguments as u64) {
        Line::Whole { value, len } => Received::Reply {
            token: Token::Count(value as u32),
            consumed: len + 1,
        },
        Line::Short { missing, .. } => Received::Incomplete { missing },
        Line::Bad(at) => Received::Malformed { at: at + 1 },
    }
}

/// A token of which two bytes are there.
fn behind_mark(bytes: &[u8], limits: Limits) -> Received
    requires { 1 < length bytes.now }
    ensures { Receives limits bytes.now result }
{
    if bytes[0] == b'$' {
        if bytes[1] == b'-' {
            return nothing_at(bytes, limits);
        }
        return string_at(bytes, limits);
    }
    if bytes[0] == b':' {
        if bytes[1] == b'-' {
            return negative_at(bytes, limits);
        }
        return natural_at(bytes, limits);
    }
    if bytes[0] == b'*' {
        if bytes[1] == b'-' {
            return no_array_at(bytes, limits);
        }
        return count_at(bytes, limits);
    }
    if bytes[0] == b'+' {
        return simple_at(bytes, limits);
    }
    if bytes[0] == b'-' {
        return failure_at(bytes, limits);
    }
    Received::Malformed { at: 0 }
}

/// A token of which one byte is there.
fn first_at(bytes: &[u8], limits: Limits) -> Received
    requires { length bytes.now ≡ 1 }
    ensures { Receives limits bytes.now result }
{
    if bytes[0] == b'+' {
        return Received::Incomplete { missing: 2 };
    }
    if bytes[0] == b'-' {
        return Received::Incomplete { missing: 2 };
    }
    if bytes[0] == b'$' {
        return Received::Incomplete { missing: 4 };
    }
    if bytes[0] == b':' {
        return Received::Incomplete { missing: 3 };
    }
    if bytes[0] == b'*' {
        return Received::Incomplete { missing: 3 };
    }
    Received::Malformed { at: 0 }
}

fn receive(bytes: &[u8], limits: Limits) -> Received
    ensures { Receives limits bytes.now result }
{
    if bytes.is_empty() {
        return Received::Incomplete { missing: 3 };
    }
    if bytes.len() == 1 {
        return first_at(bytes, limits);
    }
    behind_mark(bytes, limits)
}

/// Reads the token of a reply at the front. Of `limits`, `arguments` is the most that an array may have, `bytes` the most
/// of a string, `line` the most of a text.
pub fn parse_token(bytes: &[u8], limits: Limits) -> Received
    ensures receives { Receives limits bytes.now result }
    // What is written is read again, whatever follows.
    ensures again { (value : ReplyToken) (rest : List ℕ) → IsTaken limits value → bytes.now ≡ token value ++ rest → ReadsAgain bytes.now value result }
{
    receive(bytes, limits)
}
