//! GETRANGE.
ghost use Rattle.std.specs.Prelude.{◌≡◌};
ghost use Rattle.key_commands.specs.Answers.{seen, outcome_of};
ghost use Rattle.key_commands.specs.Outcomes.{replies};
ghost use Rattle.key_commands.specs.Values.{bytes_of as bytes_in};
ghost use Rattle.key_commands.specs.Reading.{part as part_lem, string_of};

use crate::answer::{Answer, Reply};
use crate::value::{Live, bytes_of};
use commands::range_of;

/// The bytes from the first place to the last.
fn part(bytes: &[u8], first: i64, last: i64) -> &[u8]
    ensures { result.now ≡ part_lem first last bytes.now }
{
    let range = range_of(first, last, bytes.len());
    &bytes[range.from..range.to]
}

pub(crate) fn get_range(value: Option<Live<'_>>, first: i64, last: i64) -> Answer<'_>
    ensures { outcome_of result ≡ replies (string_of (part_lem first last (bytes_in (seen value.entry)))) }
{
    Answer::replies(Reply::String(part(bytes_of(value), first, last)))
}
