//! INCRBYFLOAT. The deadline stays.
ghost use Rattle.std.specs.Prelude.{◌≡◌, ◌⊎◌, IfOk, IfErr, OnErr};
ghost use Rattle.key_commands.specs.Answers.{seen, Performs};
ghost use Rattle.key_commands.specs.Outcomes.{Outcome};
ghost use Rattle.key_commands.specs.Adding.{AddsFloat};

use crate::answer::{Answer, Bytes, CommandRefusal, Reply};
use crate::increment::counted;
use crate::key_command::Effect;
use crate::output::perform;
use crate::value::{Live, deadline_of};
use std::alloc::{AllocError, Global};
use std::str;

/// The most places behind the point.
const PLACES: usize = 17;

fn float_of(bytes: &[u8]) -> Result<f64, CommandRefusal>
    ensures { IfErr result (λ e. e ≡ CommandRefusal.NotFloat) }
{
    let Ok(text) = str::from_utf8(bytes) else {
        return Err(CommandRefusal::NotFloat);
    };
    let Ok(number) = text.parse::<f64>() else {
        return Err(CommandRefusal::NotFloat);
    };
    if number.is_nan() {
        return Err(CommandRefusal::NotFloat);
    }
    Ok(number)
}

/// The sum of two numbers as they are spelled, which is to be finite.
fn sum_of(number: &[u8], by: &[u8]) -> Result<f64, CommandRefusal>
    ensures { IfErr result (λ e. (e ≡ CommandRefusal.NotFloat) ⊎ (e ≡ CommandRefusal.NotFinite)) }
{
    let sum = float_of(number)? + float_of(by)?;
    if !sum.is_finite() {
        return Err(CommandRefusal::NotFinite);
    }
    Ok(sum)
}

/// How many places are behind the point.
fn places(text: &[u8]) -> usize {
    match text.iter().position(|byte| *byte == b'.') {
        Some(point) => text.len() - point - 1,
        None => 0,
    }
}

/// How long a text with a point is without the zeros at its end, and without the point where nothing is behind it.
fn trimmed_len(text: &[u8]) -> usize {
    match text.iter().rposition(|byte| *byte != b'0') {
        Some(last) => { if text[last] == b'.' { last } else { last + 1 } }
        None => text.len(),
    }
}

/// A finite number without an exponent: the shortest text that is read as it, or where that has more than 17 places
/// behind the point, the nearest one with so many, without the zeros at its end.
fn text_of(alloc: Global, number: f64) -> Result<Vec<u8>, AllocError> {
    let shortest = format!(in alloc; "{number}")?.into_bytes();
    if places(shortest.as_slice()) <= PLACES {
        return Ok(shortest);
    }
    let mut text = format!(in alloc; "{number:.17}")?.into_bytes();
    let len = trimmed_len(text.as_slice());
    text.truncate(len);
    Ok(text)
}

/// As `text_of`, with one zero.
fn spelled(alloc: Global, number: f64) -> Result<Vec<u8>, AllocError> {
    let text = text_of(alloc, number)?;
    if text.as_slice() == b"-0".as_slice() {
        return Vec::from_slice(alloc, b"0");
    }
    Ok(text)
}

pub(crate) fn add_float(
    by: &[u8],
    value: Option<Live<'_>>,
    out: &mut Vec<u8>,
    reply: &mut Vec<u8>,
) -> Result<Effect, AllocError>
    ensures done { IfOk result (λ effect. (o : Outcome) × AddsFloat (seen value.entry) o × Performs o effect out.new.items reply.old.items reply.new.items) }
    ensures kept { OnErr result (reply.new.items ≡ reply.old.items) }
{
    let sum = match sum_of(counted(value), by) {
        Ok(sum) => sum,
        Err(refusal) => return perform(Answer::fails(refusal), out, reply),
    };
    let text = spelled(*out.allocator(), sum)?;
    let bytes = text.as_slice();
    perform(
        Answer::sets(
            Reply::String(bytes),
            deadline_of(value),
            Bytes::Given(bytes),
        ),
        out,
        reply,
    )
}
