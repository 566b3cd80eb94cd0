//! Commands that set a value: SET with its options, SETNX and GETSET.
ghost use Rattle.std.specs.Prelude.{◌≡◌};
ghost use Rattle.key_commands.specs.Answers.{said, seen, outcome_of};
ghost use Rattle.key_commands.specs.Setting.{may_set as may_set_lem, deadline_after as deadline_after_lem, set_reply as set_reply_lem, kept_reply as kept_reply_lem, set_to, set_if_absent as set_if_absent_lem, got_and_set};

use crate::answer::{Answer, Bytes, CommandRefusal, Line, Reply};
use crate::reads::got;
use crate::value::{Live, deadline_of};
use commands::{Change, Lifetime, Where};

fn may_set(to: Where, value: Option<Live<'_>>) -> bool
    ensures { result ≡ may_set_lem to (seen value.entry) }
{
    match (to, value) {
        (Where::Always, _) | (Where::Absent, None) | (Where::Present, Some(_)) => true,
        (Where::Absent, Some(_)) | (Where::Present, None) => false,
    }
}

fn deadline_after(lifetime: Lifetime, value: Option<Live<'_>>) -> u64
    ensures { result ≡ deadline_after_lem lifetime (seen value.entry) }
{
    match lifetime {
        Lifetime::Keep => deadline_of(value),
        Lifetime::Forever => 0,
        Lifetime::Until(deadline) => deadline,
    }
}

/// The reply of a SET that is done.
fn set_reply(get: bool, value: Option<Live<'_>>) -> Reply<'_>
    ensures { said result ≡ set_reply_lem get (seen value.entry) }
{
    if get {
        got(value)
    } else {
        Reply::Line(Line::Ok)
    }
}

/// The reply of a SET that is not done.
fn kept_reply(get: bool, value: Option<Live<'_>>) -> Reply<'_>
    ensures { said result ≡ kept_reply_lem get (seen value.entry) }
{
    if get { got(value) } else { Reply::Nothing }
}

pub(crate) fn set<'a>(
    new: &'a [u8],
    change: Change,
    most: u32,
    value: Option<Live<'a>>,
) -> Answer<'a>
    ensures { outcome_of result ≡ set_to new.now change most (seen value.entry) }
{
    if new.len() > most as usize {
        return Answer::fails(CommandRefusal::TooLong);
    }
    if !may_set(change.to, value) {
        return Answer::replies(kept_reply(change.get, value));
    }
    let deadline = deadline_after(change.lifetime, value);
    Answer::sets(set_reply(change.get, value), deadline, Bytes::Given(new))
}

pub(crate) fn set_if_absent<'a>(new: &'a [u8], most: u32, value: Option<Live<'_>>) -> Answer<'a>
    ensures { outcome_of result ≡ set_if_absent_lem new.now most (seen value.entry) }
{
    if new.len() > most as usize {
        return Answer::fails(CommandRefusal::TooLong);
    }
    match value {
        Some(_) => Answer::replies(Reply::Number(0)),
        None => Answer::sets(Reply::Number(1), 0, Bytes::Given(new)),
    }
}

pub(crate) fn get_and_set<'a>(new: &'a [u8], most: u32, value: Option<Live<'a>>) -> Answer<'a>
    ensures { outcome_of result ≡ got_and_set new.now most (seen value.entry) }
{
    if new.len() > most as usize {
        return Answer::fails(CommandRefusal::TooLong);
    }
    Answer::sets(got(value), 0, Bytes::Given(new))
}
