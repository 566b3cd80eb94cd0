//! The options of SET, GETEX and EXPIRE.
ghost use Rattle.std.specs.Prelude.{◌≡◌, List, length, map, IfOk, IfSome, IsOk, Some, None};
ghost use Rattle.std.specs.Char.{to_ascii_lowercase};
ghost use Rattle.commands.specs.Arguments.{listed};
ghost use Rattle.commands.specs.Options.{IsFuture, clock_text, IsLasting, IsWord, AreOptions, nothing_said, IsLifetime, IsOnly, AreOnly, everywhere};

use crate::arguments::Arguments;
use crate::command::{Lifetime, Only, Where};
use crate::fault::CommandFault;
use crate::name::{Name, Special};
use crate::number::whole_number;
use crate::request_text::Shown;
use crate::time::{Clock, Time};

/// The command that has options.
#[derive(Clone, Copy)]
pub(crate) enum Optioned {
    Set,
    GetEx,
}

/// What an option says of the deadline.
#[derive(Clone, Copy)]
pub(crate) enum Given<'a> {
    /// KEEPTTL.
    Keep,
    /// PERSIST.
    Forever,
    /// EX, PX, EXAT or PXAT, and what stands behind it.
    Until(Clock, &'a [u8]),
}

/// What options say.
#[derive(Clone, Copy)]
pub(crate) struct Options<'a> {
    pub(crate) to: Where,
    pub(crate) get: bool,
    pub(crate) lifetime: Option<Given<'a>>,
}

fn clock_of(word: &[u8]) -> Option<Clock>
    ensures { IfSome result (λ clock. map to_ascii_lowercase word.now ≡ clock_text clock) }
{
    if word.eq_ignore_ascii_case(b"ex") {
        Some(Clock::Seconds)
    } else if word.eq_ignore_ascii_case(b"px") {
        Some(Clock::Milliseconds)
    } else if word.eq_ignore_ascii_case(b"exat") {
        Some(Clock::UnixSeconds)
    } else if word.eq_ignore_ascii_case(b"pxat") {
        Some(Clock::UnixMilliseconds)
    } else {
        None
    }
}

/// A lifetime beside what was said of it. The same option may stand again, and then the last one counts.
fn with_lifetime<'a>(said: Options<'a>, given: Given<'a>) -> Option<Options<'a>>
    ensures { IfSome result (λ t. IsLasting said.entry given.entry t) }
{
    let fits = match (said.lifetime, given) {
        (None, _) => true,
        (Some(Given::Keep), Given::Keep) | (Some(Given::Forever), Given::Forever) => true,
        (Some(Given::Until(before, _)), Given::Until(clock, _)) => before == clock,
        _ => false,
    };
    if fits {
        Some(Options {
            lifetime: Some(given),
            ..said
        })
    } else {
        None
    }
}

/// An option of one word beside what was said.
fn with_word<'a>(said: Options<'a>, of: Optioned, word: &[u8]) -> Option<Options<'a>>
    ensures { IfSome result (λ t. IsWord of (map to_ascii_lowercase word.now) said.entry t) }
{
    match of {
        Optioned::Set => {
            if word.eq_ignore_ascii_case(b"nx") && !matches!(said.to, Where::Present) {
                Some(Options {
                    to: Where::Absent,
                    ..said
                })
            } else if word.eq_ignore_ascii_case(b"xx") && !matches!(said.to, Where::Absent) {
                Some(Options {
                    to: Where::Present,
                    ..said
                })
            } else if word.eq_ignore_ascii_case(b"get") {
                Some(Options { get: true, ..said })
            } else if word.eq_ignore_ascii_case(b"keepttl") {
                with_lifetime(said, Given::Keep)
            } else {
                None
            }
        }
        Optioned::GetEx => {
            if word.eq_ignore_ascii_case(b"persist") {
                with_lifetime(said, Given::Forever)
            } else {
                None
            }
        }
    }
}

/// What the options say together. None if one is unknown, has nothing after it, or excludes another.
pub(crate) fn options_of<'a>(of: Optioned, words: Arguments<'a>) -> Option<Options<'a>>
    ensures said { IfSome result (λ t. AreOptions of (listed words.entry) nothing_said t) }
    ensures none { length (listed words.entry) ≡ 0 → result ≡ Some nothing_said }
{
    let mut said = Options {
        to: Where::Always,
        get: false,
        lifetime: None,
    };
    let mut rest = words;
    while let Some((word, behind)) = rest.split_first() {
        match clock_of(word) {
            Some(clock) => {
                let Some((amount, behind)) = behind.split_first() else {
                    return None;
                };
                let Some(now_said) = with_lifetime(said, Given::Until(clock, amount)) else {
                    return None;
                };
                said = now_said;
                rest = behind;
            }
            None => {
                let Some(now_said) = with_word(said, of, word) else {
                    return None;
                };
                said = now_said;
                rest = behind;
            }
        }
    }
    Some(said)
}

/// The deadline of a lifetime above zero, from now on or since 1970.
pub(crate) fn deadline_of<'a>(
    of: Special,
    clock: Clock,
    amount: &[u8],
    now: u64,
) -> Result<u64, CommandFault<'a>>
    ensures { IfOk result (λ deadline. IsFuture now clock amount.now deadline) }
{
    let Some(amount) = whole_number(amount) else {
        return Err(CommandFault::Number);
    };
    if amount <= 0 {
        return Err(CommandFault::Lifetime(Name::Special(of)));
    }
    match (Time { amount, clock }).deadline(now) {
        Some(deadline) => Ok(deadline),
        None => Err(CommandFault::Lifetime(Name::Special(of))),
    }
}

/// The lifetime that an option gave, or the one where none did.
pub(crate) fn lifetime_of<'a>(
    of: Special,
    given: Option<Given<'a>>,
    other: Lifetime,
    now: u64,
) -> Result<Lifetime, CommandFault<'a>>
    ensures said { IfOk result (λ lifetime. IsLifetime now given.entry other lifetime) }
    ensures none { given.entry ≡ None → IsOk result }
{
    match given {
        None => Ok(other),
        Some(Given::Keep) => Ok(Lifetime::Keep),
        Some(Given::Forever) => Ok(Lifetime::Forever),
        Some(Given::Until(clock, amount)) => match deadline_of(of, clock, amount, now) {
            Ok(deadline) => Ok(Lifetime::Until(deadline)),
            Err(fault) => Err(fault),
        },
    }
}

/// An option of EXPIRE beside what was said. None if there is no such option.
fn with_only(said: Only, word: &[u8]) -> Option<Only>
    ensures { IfSome result (λ t. IsOnly (map to_ascii_lowercase word.now) said t) }
{
    if word.eq_ignore_ascii_case(b"nx") {
        Some(Only {
            absent: true,
            ..said
        })
    } else if word.eq_ignore_ascii_case(b"xx") {
        Some(Only {
            present: true,
            ..said
        })
    } else if word.eq_ignore_ascii_case(b"gt") {
        Some(Only {
            later: true,
            ..said
        })
    } else if word.eq_ignore_ascii_case(b"lt") {
        Some(Only {
            earlier: true,
            ..said
        })
    } else {
        None
    }
}

/// What the options of EXPIRE say together.
pub(crate) fn only_of<'a>(words: Arguments<'a>) -> Result<Only, CommandFault<'a>>
    ensures { IfOk result (λ only. AreOnly (listed words.entry) everywhere only) }
{
    let mut only = Only {
        absent: false,
        present: false,
        later: false,
        earlier: false,
    };
    let mut rest = words;
    while let Some((word, behind)) = rest.split_first() {
        let Some(now_said) = with_only(only, word) else {
            return Err(CommandFault::Option(Shown(word).trimmed()));
        };
        only = now_said;
        rest = behind;
    }
    if only.absent && (only.present || only.later || only.earlier) {
        return Err(CommandFault::AbsentAndOther);
    }
    if only.later && only.earlier {
        return Err(CommandFault::LaterAndEarlier);
    }
    Ok(only)
}
