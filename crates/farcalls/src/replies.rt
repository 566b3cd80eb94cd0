//! Replies of one token, and what is replied if there is no memory for one.
//!
//! The request loop makes room for a short reply before it hands a request over, so an error or a number can
//! always be written. A value is longer. If memory is refused for it, nothing is pushed, and an error is
//! replied in its place.
ghost use Rattle.std.specs.Prelude.{◌≡◌, ◌≢◌, ◌++◌, ◌∷◌, [], MatchBool, OnOk, OnErr};
ghost use Rattle.std.specs.List.{flat_map};
ghost use Rattle.resp.specs.Replies.{token};
ghost use Rattle.table_core.specs.Lent.{lent_value};
ghost use Rattle.farcalls.specs.Tokens.{value_token, flag_token, number_token};
ghost use Rattle.farcalls.specs.Replying.{IsPushed, IsPushedIf, IsPushedRemoval};

use crate::refusal::Unanswered;
use far_blob::Blob;
use far_map::{MapRefusal, Removal};
use resp::{push_nothing, push_number, push_string};
use std::alloc::AllocError;

/// Pushes a value, or the null reply.
pub(crate) fn push_value(out: &mut Vec<u8>, value: Option<&Blob>) -> Result<(), AllocError>
    ensures pushed { OnOk result (out.new.items ≡ out.old.items ++ flat_map token (value_token (lent_value value.entry) ∷ [])) }
    ensures kept { OnErr result (out.new.items ≡ out.old.items) }
{
    match value {
        Some(value) => push_string(out, value.as_bytes()),
        None => push_nothing(out),
    }
}

/// Pushes 1, or 0.
pub(crate) fn push_flag(out: &mut Vec<u8>, flag: bool) -> Result<(), AllocError>
    ensures pushed { OnOk result (out.new.items ≡ out.old.items ++ flat_map token (flag_token flag ∷ [])) }
    ensures kept { OnErr result (out.new.items ≡ out.old.items) }
{
    if flag {
        push_number(out, 1)
    } else {
        push_number(out, 0)
    }
}

/// Pushes a number. More than 2^63 - 1 is replied as that.
pub(crate) fn push_count_of(out: &mut Vec<u8>, n: u64) -> Result<(), AllocError>
    ensures pushed { OnOk result (out.new.items ≡ out.old.items ++ flat_map token (number_token n ∷ [])) }
    ensures kept { OnErr result (out.new.items ≡ out.old.items) }
{
    push_number(out, n.min(i64::MAX as u64) as i64)
}

/// Replies the value that a call returned. If there is no memory for it, that is replied as `unwritten`.
pub(crate) fn reply_value(
    called: Result<Option<Blob>, Unanswered>,
    unwritten: Unanswered,
    out: &mut Vec<u8>,
) -> Result<(), Unanswered>
    ensures { IsPushed value_token unwritten called out.old.items out.new.items result }
{
    match called {
        Ok(found) => match push_value(out, found.as_ref()) {
            Ok(()) => Ok(()),
            Err(_) => Err(unwritten),
        },
        Err(why) => Err(why),
    }
}

/// Replies the flag that a call returned, in the same way.
pub(crate) fn reply_flag(
    called: Result<bool, Unanswered>,
    unwritten: Unanswered,
    out: &mut Vec<u8>,
) -> Result<(), Unanswered>
    ensures { IsPushed flag_token unwritten called out.old.items out.new.items result }
{
    match called {
        Ok(flag) => match push_flag(out, flag) {
            Ok(()) => Ok(()),
            Err(_) => Err(unwritten),
        },
        Err(why) => Err(why),
    }
}

/// Whether both are none, or both have the same bytes.
fn are_same(found: Option<&Blob>, expected: Option<&[u8]>) -> bool
    ensures { MatchBool result (lent_value found.entry ≡ lent_value expected.entry) (lent_value found.entry ≢ lent_value expected.entry) }
{
    match (found, expected) {
        (None, None) => true,
        (Some(found), Some(expected)) => found.as_bytes() == expected,
        _ => false,
    }
}

/// Replies what a conditional change of a key returned: 1 if it had the expected value, so that it was set, and
/// otherwise the value that it has. If there is no memory for that, a change that was made is `Lost`.
pub(crate) fn reply_if(
    called: Result<Option<Blob>, Unanswered>,
    expected: Option<&[u8]>,
    out: &mut Vec<u8>,
) -> Result<(), Unanswered>
    ensures { IsPushedIf called (lent_value expected.entry) out.old.items out.new.items result }
{
    match called {
        Ok(found) => {
            if are_same(found.as_ref(), expected) {
                match push_flag(out, true) {
                    Ok(()) => Ok(()),
                    Err(_) => Err(Unanswered::Lost),
                }
            } else {
                match push_value(out, found.as_ref()) {
                    Ok(()) => Ok(()),
                    Err(_) => Err(Unanswered::Refused(MapRefusal::Memory)),
                }
            }
        }
        Err(why) => Err(why),
    }
}

/// Replies what a conditional removal returned, in the same way.
pub(crate) fn reply_removal(
    called: Result<Removal<Blob>, Unanswered>,
    out: &mut Vec<u8>,
) -> Result<(), Unanswered>
    ensures { IsPushedRemoval called out.old.items out.new.items result }
{
    match called {
        Ok(removal) => {
            if removal.removed {
                match push_flag(out, true) {
                    Ok(()) => Ok(()),
                    Err(_) => Err(Unanswered::Lost),
                }
            } else {
                match push_value(out, removal.found.as_ref()) {
                    Ok(()) => Ok(()),
                    Err(_) => Err(Unanswered::Refused(MapRefusal::Memory)),
                }
            }
        }
        Err(why) => Err(why),
    }
}
