//! Commands that only read, and those that take out.
ghost use Rattle.std.specs.Prelude.{◌≡◌};
ghost use Rattle.key_commands.specs.Answers.{said, seen, outcome_of};
ghost use Rattle.key_commands.specs.Doing.{bit_at};
ghost use Rattle.key_commands.specs.Outcomes.{number, replies};
ghost use Rattle.key_commands.specs.Values.{bytes_of as bytes_in};
ghost use Rattle.key_commands.specs.Reading.{got as got_lem, presence, kind, deleted, got_and_deleted, size_of};

use crate::answer::{Answer, Line, Reply};
use crate::value::{Live, bytes_of};

/// The bytes, or nothing.
pub(crate) fn got(value: Option<Live<'_>>) -> Reply<'_>
    ensures { said result ≡ got_lem (seen value.entry) }
{
    match value {
        Some(value) => Reply::String(value.bytes),
        None => Reply::Nothing,
    }
}

pub(crate) fn get(value: Option<Live<'_>>) -> Answer<'_>
    ensures { outcome_of result ≡ replies (got_lem (seen value.entry)) }
{
    Answer::replies(got(value))
}

pub(crate) fn exists<'a>(value: Option<Live<'_>>) -> Answer<'a>
    ensures { outcome_of result ≡ replies (presence (seen value.entry)) }
{
    match value {
        Some(_) => Answer::replies(Reply::Number(1)),
        None => Answer::replies(Reply::Number(0)),
    }
}

pub(crate) fn str_len<'a>(value: Option<Live<'_>>) -> Answer<'a>
    ensures { outcome_of result ≡ replies (size_of (bytes_in (seen value.entry))) }
{
    Answer::replies(Reply::Number(bytes_of(value).len() as i64))
}

pub(crate) fn type_of<'a>(value: Option<Live<'_>>) -> Answer<'a>
    ensures { outcome_of result ≡ replies (kind (seen value.entry)) }
{
    match value {
        Some(_) => Answer::replies(Reply::Line(Line::String)),
        None => Answer::replies(Reply::Line(Line::None)),
    }
}

pub(crate) fn delete<'a>(value: Option<Live<'_>>) -> Answer<'a>
    ensures { outcome_of result ≡ deleted (seen value.entry) }
{
    match value {
        Some(_) => Answer::removes(Reply::Number(1)),
        None => Answer::replies(Reply::Number(0)),
    }
}

pub(crate) fn get_and_delete(value: Option<Live<'_>>) -> Answer<'_>
    ensures { outcome_of result ≡ got_and_deleted (seen value.entry) }
{
    match value {
        Some(value) => Answer::removes(Reply::String(value.bytes)),
        None => Answer::replies(Reply::Nothing),
    }
}

/// The bit at an offset, of which 0 is the first byte's highest bit; 0 after the last byte.
pub(crate) fn get_bit<'a>(offset: u64, value: Option<Live<'_>>) -> Answer<'a>
    ensures { outcome_of result ≡ replies (number (bit_at offset (bytes_in (seen value.entry)))) }
{
    let byte = match bytes_of(value).get((offset / 8) as usize) {
        Some(byte) => *byte,
        None => 0,
    };
    let behind = 7 - (offset % 8) as u32;
    Answer::replies(Reply::Number(i64::from((byte >> behind) % 2)))
}
