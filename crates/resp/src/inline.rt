//! A request that is a line of words, as somebody types it.
ghost use Rattle.std.specs.Prelude.{◌≡◌, ◌≢◌, ◌<◌, ◌≤◌, ◌↔◌, [], IsTrue, IfOk, OnOk, OnErr, ◌+◌, vec_len, vec_capacity, length, take, slice_index};
ghost use Rattle.std.specs.List.{AllByRecursion};
ghost use Rattle.resp.specs.Requests.{IsPlain, is_blank, words};
ghost use Rattle.resp.specs.Parsing.{ParsesInline, arguments_in, AreWithin, WordIsPut, IsByteCause};

use crate::limits::Limits;
use crate::outcome::{ParseFault, Parsed};
use crate::place::Span;
use std::alloc::AllocError;

fn is_plain(byte: u8) -> bool
    ensures { IsTrue result ↔ IsPlain byte }
{
    byte != 0 && byte != b'\n' && byte != 11 && byte != 12 && byte != b'"' && byte != b'\''
}

/// A blank ends a word: a tab, a CR or a space.
fn is_blank(byte: u8) -> bool
    ensures { result ≡ is_blank byte }
{
    byte == b'\t' || byte == b'\r' || byte == b' '
}

/// How many plain bytes stand at the front, where so many at most are looked at.
fn plain_len(bytes: &[u8], most: usize) -> usize
    ensures within { result ≤ length bytes.now }
    ensures few { result ≤ most }
    ensures plain { AllByRecursion IsPlain (take result bytes.now) }
    ensures end { result < length bytes.now → result < most → ¬ (IsPlain (slice_index bytes.now result)) }
{
    for at in 0..bytes.len() {
        if at == most {
            return at;
        }
        if !is_plain(bytes[at]) {
            return at;
        }
    }
    bytes.len()
}

/// One word more, unless it has no byte.
fn push_word(spans: &mut Vec<Span>, from: usize, to: usize) -> Result<(), AllocError>
    requires { from ≤ to }
    ensures put { OnOk result (WordIsPut spans.old.items spans.new.items from to) }
    ensures count { vec_len spans.new + from ≤ vec_len spans.old + to }
    ensures capacity { vec_capacity spans.old ≤ vec_capacity spans.new }
    ensures full { OnErr result ((from < to) × (vec_capacity spans.old ≤ vec_len spans.old)) }
{
    if from < to {
        spans.push(Span {
            from,
            len: to - from,
        })?;
    }
    Ok(())
}

/// The places of the words among so many bytes at the front.
fn push_words(bytes: &[u8], end: usize, spans: &mut Vec<Span>) -> Result<(), AllocError>
    requires empty { spans.old.items ≡ [] }
    requires within { end ≤ length bytes.now }
    ensures words { OnOk result (arguments_in bytes.now spans.new.items ≡ words (take end bytes.now)) }
    ensures spans_within { OnOk result (AreWithin end spans.new.items) }
    ensures few { vec_len spans.new ≤ end }
    ensures full { OnErr result (vec_capacity spans.old < end) }
{
    let mut from = 0;
    for at in 0..end {
        if is_blank(bytes[at]) {
            push_word(spans, from, at)?;
            from = at + 1;
        }
    }
    push_word(spans, from, end)
}

/// What is wrong with a byte that is neither plain nor an LF.
fn fault_of(byte: u8) -> ParseFault
    requires other { byte ≢ 10 }
    requires spoilt { ¬ (IsPlain byte) }
    ensures { IsByteCause byte result }
{
    if byte == b'"' {
        return ParseFault::Quote;
    }
    if byte == b'\'' {
        return ParseFault::Quote;
    }
    ParseFault::Control
}

/// A line that begins with another byte than an array does, whose words are put into `spans`.
pub(crate) fn inline_at(
    bytes: &[u8],
    limits: Limits,
    spans: &mut Vec<Span>,
) -> Result<Parsed, AllocError>
    requires empty { spans.old.items ≡ [] }
    requires unmarked { slice_index bytes.now 0 ≢ 42 }
    ensures parses { IfOk result (λ p. ParsesInline limits bytes.now spans.new.items p) }
    ensures few { vec_len spans.new ≤ limits.line }
    ensures full { OnErr result (vec_capacity spans.old < limits.line) }
{
    let most = limits.line as usize;
    let at = plain_len(bytes, most);
    if at == bytes.len() {
        return Ok(Parsed::Incomplete { missing: 1 });
    }
    if bytes[at] == b'\n' {
        push_words(bytes, at, spans)?;
        return Ok(Parsed::Request { consumed: at + 1 });
    }
    if at == most {
        return Ok(Parsed::Malformed {
            at,
            fault: ParseFault::LongLine,
        });
    }
    Ok(Parsed::Malformed {
        at,
        fault: fault_of(bytes[at]),
    })
}
