//! INCR and its like. The deadline stays.
ghost use Rattle.std.specs.Prelude.{◌≡◌};
ghost use Rattle.key_commands.specs.Answers.{seen, outcome_of};
ghost use Rattle.key_commands.specs.Adding.{counted as counted_lem, Adds};

use crate::answer::{Answer, Bytes, CommandRefusal, Reply};
use crate::value::{Live, deadline_of};
use commands::{add_to, whole_number};

/// The number's spelling, which is 0 where there is no value.
pub(crate) fn counted(value: Option<Live<'_>>) -> &[u8]
    ensures { result.now ≡ counted_lem (seen value.entry) }
{
    match value {
        Some(value) => value.bytes,
        None => b"0",
    }
}

pub(crate) fn add(by: i64, value: Option<Live<'_>>) -> Answer<'_>
    ensures { Adds by (seen value.entry) (outcome_of result) }
{
    let Some(number) = whole_number(counted(value)) else {
        return Answer::fails(CommandRefusal::NotWhole);
    };
    let Some(sum) = add_to(number, by) else {
        return Answer::fails(CommandRefusal::Overflow);
    };
    Answer::sets(Reply::Number(sum), deadline_of(value), Bytes::Spelled(sum))
}
