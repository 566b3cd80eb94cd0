//! Commands whose arguments are their own.
ghost use Rattle.std.specs.Prelude.{◌≡◌, ◌<◌, ℕ, List, [], ◌∷◌, length, MatchOption, IfOk, IsOk};
ghost use Rattle.std.specs.Fmt.{signed_decimal};
ghost use Rattle.commands.specs.Arguments.{listed};
ghost use Rattle.commands.specs.Options.{IsChange, IsTimedChange, IsLifetimeBy};
ghost use Rattle.commands.specs.Commands.{IsSet, IsAdd, IsExpireBy, IsCountedSpecial, IsSpecial};

use crate::arguments::Arguments;
use crate::command::{Change, Command, Lifetime, Where};
use crate::fault::CommandFault;
use crate::name::{Name, Special};
use crate::number::whole_number;
use crate::options::{Optioned, deadline_of, lifetime_of, only_of, options_of};
use crate::time::{Clock, Time};

fn number<'a>(bytes: &[u8]) -> Result<i64, CommandFault<'a>>
    ensures { IfOk result (λ z. bytes.now ≡ signed_decimal z) }
{
    whole_number(bytes).ok_or(CommandFault::Number)
}

/// The first two arguments, and those after them. None if there are fewer than two.
fn first_two(rest: Arguments<'_>) -> Option<(&[u8], &[u8], Arguments<'_>)>
    ensures { MatchOption result (length (listed rest.entry) < 2) (λ p. listed rest.entry ≡ p.0.now ∷ p.1.now ∷ listed p.2) }
{
    let (key, behind) = rest.split_first()?;
    let (value, words) = behind.split_first()?;
    Some((key, value, words))
}

/// What SET does besides writing the value.
fn change_of<'a>(words: Arguments<'a>, now: u64) -> Result<Change, CommandFault<'a>>
    ensures said { IfOk result (λ change. IsChange now (listed words.entry) change) }
    ensures plain { length (listed words.entry) ≡ 0 → IsOk result }
{
    match options_of(Optioned::Set, words) {
        Some(said) => match lifetime_of(Special::Set, said.lifetime, Lifetime::Forever, now) {
            Ok(lifetime) => Ok(Change {
                to: said.to,
                get: said.get,
                lifetime,
            }),
            Err(fault) => Err(fault),
        },
        None => Err(CommandFault::Syntax),
    }
}

fn set<'a>(rest: Arguments<'a>, now: u64) -> Result<Command<'a>, CommandFault<'a>>
    ensures spelt { IfOk result (λ c. IsSpecial now Special.Set (listed rest.entry) c) }
    ensures counted { IsCountedSpecial Special.Set (listed rest.entry) → IsOk result }
{
    match first_two(rest) {
        Some((key, value, words)) => match change_of(words, now) {
            Ok(change) => Ok(Command::Set { key, value, change }),
            Err(fault) => Err(fault),
        },
        None => Err(CommandFault::Count(Name::Special(Special::Set))),
    }
}

/// What GETEX does with the deadline.
fn lifetime_by<'a>(words: Arguments<'a>, now: u64) -> Result<Lifetime, CommandFault<'a>>
    ensures said { IfOk result (λ lifetime. IsLifetimeBy now (listed words.entry) lifetime) }
    ensures plain { length (listed words.entry) ≡ 0 → IsOk result }
{
    match options_of(Optioned::GetEx, words) {
        Some(said) => lifetime_of(Special::GetEx, said.lifetime, Lifetime::Keep, now),
        None => Err(CommandFault::Syntax),
    }
}

fn get_ex<'a>(rest: Arguments<'a>, now: u64) -> Result<Command<'a>, CommandFault<'a>>
    ensures spelt { IfOk result (λ c. IsSpecial now Special.GetEx (listed rest.entry) c) }
    ensures counted { IsCountedSpecial Special.GetEx (listed rest.entry) → IsOk result }
{
    match rest.split_first() {
        Some((key, words)) => match lifetime_by(words, now) {
            Ok(lifetime) => Ok(Command::GetEx { key, lifetime }),
            Err(fault) => Err(fault),
        },
        None => Err(CommandFault::Count(Name::Special(Special::GetEx))),
    }
}

/// SETEX and PSETEX.
fn set_for<'a>(
    of: Special,
    clock: Clock,
    rest: Arguments<'a>,
    now: u64,
) -> Result<Command<'a>, CommandFault<'a>>
    ensures { IfOk result (λ c. IsSet (λ key value change. (time : List ℕ) × (listed rest.entry ≡ key.now ∷ time ∷ value.now ∷ []) × IsTimedChange now clock time change) c) }
{
    match rest.three() {
        Some((key, amount, value)) => match deadline_of(of, clock, amount, now) {
            Ok(deadline) => Ok(Command::Set {
                key,
                value,
                change: Change {
                    to: Where::Always,
                    get: false,
                    lifetime: Lifetime::Until(deadline),
                },
            }),
            Err(fault) => Err(fault),
        },
        None => Err(CommandFault::Count(Name::Special(of))),
    }
}

fn get_range<'a>(rest: Arguments<'a>) -> Result<Command<'a>, CommandFault<'a>>
    ensures { IfOk result (λ c. IsSpecial 0 Special.GetRange (listed rest.entry) c) }
{
    let name = Name::Special(Special::GetRange);
    let (key, first, last) = rest.three().ok_or(CommandFault::Count(name))?;
    Ok(Command::GetRange {
        key,
        first: number(first)?,
        last: number(last)?,
    })
}

fn set_range<'a>(rest: Arguments<'a>) -> Result<Command<'a>, CommandFault<'a>>
    ensures { IfOk result (λ c. IsSpecial 0 Special.SetRange (listed rest.entry) c) }
{
    let name = Name::Special(Special::SetRange);
    let (key, offset, value) = rest.three().ok_or(CommandFault::Count(name))?;
    let offset = number(offset)?;
    if offset < 0 {
        return Err(CommandFault::Offset);
    }
    Ok(Command::SetRange {
        key,
        offset: offset.unsigned_abs(),
        value,
    })
}

/// INCR and DECR.
fn step<'a>(of: Special, by: i64, rest: Arguments<'a>) -> Result<Command<'a>, CommandFault<'a>>
    ensures spelt { IfOk result (λ c. IsAdd (λ key n. (listed rest.entry ≡ key.now ∷ []) × (n ≡ by)) c) }
    ensures counted { IsCountedSpecial Special.Incr (listed rest.entry) → IsOk result }
{
    let key = rest.one().ok_or(CommandFault::Count(Name::Special(of)))?;
    Ok(Command::Add { key, by })
}

fn decrease<'a>(rest: Arguments<'a>) -> Result<Command<'a>, CommandFault<'a>>
    ensures { IfOk result (λ c. IsSpecial 0 Special.DecrBy (listed rest.entry) c) }
{
    let (key, by) = rest
        .two()
        .ok_or(CommandFault::Count(Name::Special(Special::DecrBy)))?;
    let by = number(by)?.checked_neg().ok_or(CommandFault::Decrement)?;
    Ok(Command::Add { key, by })
}

fn increase_by_float<'a>(rest: Arguments<'a>) -> Result<Command<'a>, CommandFault<'a>>
    ensures spelt { IfOk result (λ c. IsSpecial 0 Special.IncrByFloat (listed rest.entry) c) }
    ensures counted { IsCountedSpecial Special.IncrByFloat (listed rest.entry) → IsOk result }
{
    let (key, by) = rest
        .two()
        .ok_or(CommandFault::Count(Name::Special(Special::IncrByFloat)))?;
    Ok(Command::AddFloat { key, by })
}

fn set_many<'a>(rest: Arguments<'a>) -> Result<Command<'a>, CommandFault<'a>>
    ensures spelt { IfOk result (λ c. IsSpecial 0 Special.MSet (listed rest.entry) c) }
    ensures counted { IsCountedSpecial Special.MSet (listed rest.entry) → IsOk result }
{
    if rest.is_empty() || rest.len() % 2 != 0 {
        return Err(CommandFault::Count(Name::Special(Special::MSet)));
    }
    Ok(Command::SetMany(rest))
}

/// EXPIRE and its like. A deadline may lie in the past.
fn expire<'a>(
    of: Special,
    clock: Clock,
    rest: Arguments<'a>,
    now: u64,
) -> Result<Command<'a>, CommandFault<'a>>
    ensures { IfOk result (λ c. IsExpireBy now clock (listed rest.entry) c) }
{
    let Some((key, amount, words)) = first_two(rest) else {
        return Err(CommandFault::Count(Name::Special(of)));
    };
    let only = match only_of(words) {
        Ok(only) => only,
        Err(fault) => return Err(fault),
    };
    let amount = match number(amount) {
        Ok(amount) => amount,
        Err(fault) => return Err(fault),
    };
    match (Time { amount, clock }).deadline(now) {
        Some(deadline) => Ok(Command::Expire {
            key,
            deadline,
            only,
        }),
        None => Err(CommandFault::Lifetime(Name::Special(of))),
    }
}

fn ping<'a>(rest: Arguments<'a>) -> Result<Command<'a>, CommandFault<'a>>
    ensures spelt { IfOk result (λ c. IsSpecial 0 Special.Ping (listed rest.entry) c) }
    ensures counted { IsCountedSpecial Special.Ping (listed rest.entry) → IsOk result }
{
    if rest.is_empty() {
        return Ok(Command::Ping(None));
    }
    let text = rest
        .one()
        .ok_or(CommandFault::Count(Name::Special(Special::Ping)))?;
    Ok(Command::Ping(Some(text)))
}

fn echo<'a>(rest: Arguments<'a>) -> Result<Command<'a>, CommandFault<'a>>
    ensures spelt { IfOk result (λ c. IsSpecial 0 Special.Echo (listed rest.entry) c) }
    ensures counted { IsCountedSpecial Special.Echo (listed rest.entry) → IsOk result }
{
    let text = rest
        .one()
        .ok_or(CommandFault::Count(Name::Special(Special::Echo)))?;
    Ok(Command::Echo(text))
}

/// The command of this name and these arguments.
pub(crate) fn read_special<'a>(
    of: Special,
    rest: Arguments<'a>,
    now: u64,
) -> Result<Command<'a>, CommandFault<'a>>
    ensures spelt { IfOk result (λ c. IsSpecial now of (listed rest.entry) c) }
    ensures counted { IsCountedSpecial of (listed rest.entry) → IsOk result }
{
    match of {
        Special::Set => set(rest, now),
        Special::GetEx => get_ex(rest, now),
        Special::SetEx => set_for(of, Clock::Seconds, rest, now),
        Special::PSetEx => set_for(of, Clock::Milliseconds, rest, now),
        Special::GetRange => get_range(rest),
        Special::SetRange => set_range(rest),
        Special::Incr => step(of, 1, rest),
        Special::Decr => step(of, -1, rest),
        Special::DecrBy => decrease(rest),
        Special::IncrByFloat => increase_by_float(rest),
        Special::MSet => set_many(rest),
        Special::Expire => expire(of, Clock::Seconds, rest, now),
        Special::PExpire => expire(of, Clock::Milliseconds, rest, now),
        Special::ExpireAt => expire(of, Clock::UnixSeconds, rest, now),
        Special::PExpireAt => expire(of, Clock::UnixMilliseconds, rest, now),
        Special::Ping => ping(rest),
        Special::Echo => echo(rest),
        Special::Quit => Ok(Command::Quit),
    }
}
