//! APPEND and SETRANGE. The deadline stays.
ghost use Rattle.std.specs.Prelude.{◌≡◌, ◌+◌, ◌≤◌};
ghost use Rattle.std.specs.Option.{SomeIff};
ghost use Rattle.key_commands.specs.Answers.{seen, outcome_of};
ghost use Rattle.key_commands.specs.Editing.{appended, overwritten};

use crate::answer::{Answer, Bytes, CommandRefusal, Reply};
use crate::value::{Live, bytes_of, deadline_of};

pub(crate) fn append<'a>(new: &'a [u8], most: u32, value: Option<Live<'a>>) -> Answer<'a>
    ensures { outcome_of result ≡ appended new.now most (seen value.entry) }
{
    let old = bytes_of(value);
    let len = old.len() + new.len();
    if len > most as usize {
        return Answer::fails(CommandRefusal::TooLong);
    }
    Answer::sets(
        Reply::Number(len as i64),
        deadline_of(value),
        Bytes::Joined(old, new),
    )
}

/// A place, where so many bytes from it on end within the longest value.
fn place_within(offset: u64, len: usize, most: u32) -> Option<u32>
    ensures { SomeIff result (offset + len ≤ most) offset }
{
    let most = most as u64;
    let len = len as u64;
    if len > most || offset > most - len {
        return None;
    }
    Some(offset as u32)
}

pub(crate) fn set_range<'a>(
    offset: u64,
    new: &'a [u8],
    most: u32,
    value: Option<Live<'a>>,
) -> Answer<'a>
    ensures { outcome_of result ≡ overwritten offset new.now most (seen value.entry) }
{
    let old = bytes_of(value);
    if new.is_empty() {
        return Answer::replies(Reply::Number(old.len() as i64));
    }
    let Some(offset) = place_within(offset, new.len(), most) else {
        return Answer::fails(CommandRefusal::TooLong);
    };
    let len = old.len().max(offset as usize + new.len());
    Answer::sets(
        Reply::Number(len as i64),
        deadline_of(value),
        Bytes::Over { old, offset, new },
    )
}
