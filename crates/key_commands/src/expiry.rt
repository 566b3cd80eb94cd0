//! How long values last: TTL and its like, PERSIST, GETEX and EXPIRE.
ghost use Rattle.std.specs.Prelude.{◌≡◌};
ghost use Rattle.key_commands.specs.Answers.{said, written, seen, outcome_of};
ghost use Rattle.key_commands.specs.Outcomes.{replies, number};
ghost use Rattle.key_commands.specs.Lasting.{capped as capped_lem, milliseconds_after as milliseconds, seconds_after as seconds, persisted, expires as expires_lem, got_for, may_change as may_change_lem, expired};

use crate::answer::{Answer, Bytes, Reply};
use crate::value::Live;
use commands::{Lifetime, Only};

/// The greatest number of a reply.
const GREATEST: u64 = 9_223_372_036_854_775_807;

/// A number of milliseconds as a reply can say it.
fn capped(milliseconds: u64) -> u64
    ensures { result ≡ capped_lem milliseconds }
{
    milliseconds.min(GREATEST)
}

/// PTTL, counted from a time on, and PEXPIRETIME, counted from 0 on: -2 where there is no value, -1 where it has no deadline.
pub(crate) fn milliseconds_after<'a>(from: u64, value: Option<Live<'_>>) -> Answer<'a>
    ensures { outcome_of result ≡ replies (number (milliseconds from (seen value.entry))) }
{
    let Some(value) = value else {
        return Answer::replies(Reply::Number(-2));
    };
    if value.deadline == 0 {
        return Answer::replies(Reply::Number(-1));
    }
    let left = capped(value.deadline.saturating_sub(from));
    Answer::replies(Reply::Number(left as i64))
}

/// TTL and EXPIRETIME: the same, in seconds, to the nearest.
pub(crate) fn seconds_after<'a>(from: u64, value: Option<Live<'_>>) -> Answer<'a>
    ensures { outcome_of result ≡ replies (number (seconds from (seen value.entry))) }
{
    let Some(value) = value else {
        return Answer::replies(Reply::Number(-2));
    };
    if value.deadline == 0 {
        return Answer::replies(Reply::Number(-1));
    }
    let left = (capped(value.deadline.saturating_sub(from)) + 500) / 1000;
    Answer::replies(Reply::Number(left as i64))
}

pub(crate) fn persist(value: Option<Live<'_>>) -> Answer<'_>
    ensures { outcome_of result ≡ persisted (seen value.entry) }
{
    let Some(value) = value else {
        return Answer::replies(Reply::Number(0));
    };
    if value.deadline == 0 {
        return Answer::replies(Reply::Number(0));
    }
    Answer::sets(Reply::Number(1), 0, Bytes::Given(value.bytes))
}

/// The bytes get a deadline, or go where it is over.
fn expires<'a>(reply: Reply<'a>, now: u64, deadline: u64, bytes: &'a [u8]) -> Answer<'a>
    ensures { outcome_of result ≡ expires_lem (said reply.entry) now deadline bytes.now }
{
    if deadline <= now {
        return Answer::removes(reply);
    }
    Answer::sets(reply, deadline, Bytes::Given(bytes))
}

/// GETEX.
pub(crate) fn get_for(lifetime: Lifetime, now: u64, value: Option<Live<'_>>) -> Answer<'_>
    ensures { outcome_of result ≡ got_for lifetime now (seen value.entry) }
{
    let Some(value) = value else {
        return Answer::replies(Reply::Nothing);
    };
    let reply = Reply::String(value.bytes);
    match lifetime {
        Lifetime::Keep => Answer::replies(reply),
        Lifetime::Forever => {
            if value.deadline == 0 {
                Answer::replies(reply)
            } else {
                Answer::sets(reply, 0, Bytes::Given(value.bytes))
            }
        }
        Lifetime::Until(deadline) => expires(reply, now, deadline, value.bytes),
    }
}

/// Whether EXPIRE may put a new deadline in the place of the present one, which is 0 for none.
fn may_change(only: Only, present: u64, new: u64) -> bool
    ensures { result ≡ may_change_lem only present new }
{
    let none = present == 0;
    !(only.absent && !none)
        && !(only.present && none)
        && !(only.later && (none || new <= present))
        && !(only.earlier && !none && present <= new)
}

pub(crate) fn expire(deadline: u64, only: Only, now: u64, value: Option<Live<'_>>) -> Answer<'_>
    ensures { outcome_of result ≡ expired deadline only now (seen value.entry) }
{
    let Some(value) = value else {
        return Answer::replies(Reply::Number(0));
    };
    if !may_change(only, value.deadline, deadline) {
        return Answer::replies(Reply::Number(0));
    }
    expires(Reply::Number(1), now, deadline, value.bytes)
}
