//! What is asked of a key.
ghost use Rattle.std.specs.Prelude.{◌≡◌, ◌≢◌, List, ℕ};
ghost use denote.Ref.{Bor};
ghost use Rattle.key_commands.specs.Answers.{seen, outcome_of};
ghost use Rattle.key_commands.specs.Doing.{IsOutcome, of_one_key, key_command as of_key, number_command as of_number, pair_command as of_pair};

use crate::answer::Answer;
use crate::edits::{append, set_range};
use crate::expiry::{expire, get_for, milliseconds_after, persist, seconds_after};
use crate::increment::add;
use crate::range::get_range;
use crate::reads::{delete, exists, get, get_and_delete, get_bit, str_len, type_of};
use crate::setting::{get_and_set, set, set_if_absent};
use crate::value::Live;
use commands::{
    Change, Command, Lifetime, Name, OfKey, OfKeys, OfNumber, OfPair, Only, Row, Special,
};

/// What a command on a key does with the key's value.
#[derive(Clone, Copy, Debug, PartialEq, Eq)]
pub enum Effect {
    /// The value stays.
    Leaves,
    /// The key is set.
    Sets,
    /// The key is taken out.
    Removes,
}

/// A command on one key, beside the key. DEL, UNLINK, EXISTS, TOUCH, MGET and MSET are one for each of their keys.
#[derive(Clone, Copy)]
pub enum KeyCommand<'a> {
    Get,
    Exists,
    Delete,
    StrLen,
    TypeOf,
    Ttl,
    PTtl,
    ExpireTime,
    PExpireTime,
    Persist,
    GetDel,
    /// GETBIT: the bit at an offset, of which 0 is the first byte's highest bit.
    GetBit(u64),
    /// SETNX.
    SetIfAbsent(&'a [u8]),
    GetSet(&'a [u8]),
    Append(&'a [u8]),
    /// SET, SETEX and PSETEX.
    Set { value: &'a [u8], change: Change },
    GetEx(Lifetime),
    /// The part of a value from the first place to the last, as `commands::range_of` counts.
    GetRange { first: i64, last: i64 },
    /// Bytes that are written over a value from a place on.
    SetRange { offset: u64, value: &'a [u8] },
    /// INCR, DECR, INCRBY and DECRBY.
    Add(i64),
    /// INCRBYFLOAT, by a number as it was spelled.
    AddFloat(&'a [u8]),
    /// EXPIRE, PEXPIRE, EXPIREAT and PEXPIREAT, with the deadline in milliseconds since 1970.
    Expire { deadline: u64, only: Only },
}

fn key_command<'a>(of: OfKey) -> KeyCommand<'a>
    ensures { result ≡ of_key of }
{
    match of {
        OfKey::Get => KeyCommand::Get,
        OfKey::GetDel => KeyCommand::GetDel,
        OfKey::StrLen => KeyCommand::StrLen,
        OfKey::Ttl => KeyCommand::Ttl,
        OfKey::PTtl => KeyCommand::PTtl,
        OfKey::ExpireTime => KeyCommand::ExpireTime,
        OfKey::PExpireTime => KeyCommand::PExpireTime,
        OfKey::Persist => KeyCommand::Persist,
        OfKey::TypeOf => KeyCommand::TypeOf,
    }
}

fn pair_command(of: OfPair, value: &[u8]) -> KeyCommand<'_>
    ensures { result ≡ of_pair of value.entry }
{
    match of {
        OfPair::SetNx => KeyCommand::SetIfAbsent(value),
        OfPair::GetSet => KeyCommand::GetSet(value),
        OfPair::Append => KeyCommand::Append(value),
    }
}

fn number_command<'a>(of: OfNumber, number: i64) -> KeyCommand<'a>
    ensures { result ≡ of_number of number }
{
    match of {
        OfNumber::IncrBy => KeyCommand::Add(number),
        OfNumber::GetBit => KeyCommand::GetBit(number.unsigned_abs()),
    }
}

/// The key of a command on just one key, and what is asked of it. `None` for a command on several keys or on none.
pub fn on_one_key<'a>(command: Command<'a>) -> Option<(&'a [u8], KeyCommand<'a>)>
    ensures { result ≡ of_one_key command.entry }
{
    match command {
        Command::Key(of, key) => Some((key, key_command(of))),
        Command::Pair(of, key, value) => Some((key, pair_command(of, value))),
        Command::Number(of, key, number) => Some((key, number_command(of, number))),
        Command::Set { key, value, change } => Some((key, KeyCommand::Set { value, change })),
        Command::GetEx { key, lifetime } => Some((key, KeyCommand::GetEx(lifetime))),
        Command::GetRange { key, first, last } => Some((key, KeyCommand::GetRange { first, last })),
        Command::SetRange { key, offset, value } => {
            Some((key, KeyCommand::SetRange { offset, value }))
        }
        Command::Add { key, by } => Some((key, KeyCommand::Add(by))),
        Command::AddFloat { key, by } => Some((key, KeyCommand::AddFloat(by))),
        Command::Expire {
            key,
            deadline,
            only,
        } => Some((key, KeyCommand::Expire { deadline, only })),
        Command::Nothing(_)
        | Command::Keys(_, _)
        | Command::SetMany(_)
        | Command::Ping(_)
        | Command::Echo(_)
        | Command::Quit
        | Command::Server(_) => None,
    }
}

impl KeyCommand<'_> {
    /// The name of a command that asks this. Others may ask the same, and have the same flags.
    fn name(self) -> Name {
        match self {
            KeyCommand::Get => Name::Key(OfKey::Get),
            KeyCommand::Exists => Name::Keys(OfKeys::Exists),
            KeyCommand::Delete => Name::Keys(OfKeys::Del),
            KeyCommand::StrLen => Name::Key(OfKey::StrLen),
            KeyCommand::TypeOf => Name::Key(OfKey::TypeOf),
            KeyCommand::Ttl => Name::Key(OfKey::Ttl),
            KeyCommand::PTtl => Name::Key(OfKey::PTtl),
            KeyCommand::ExpireTime => Name::Key(OfKey::ExpireTime),
            KeyCommand::PExpireTime => Name::Key(OfKey::PExpireTime),
            KeyCommand::Persist => Name::Key(OfKey::Persist),
            KeyCommand::GetDel => Name::Key(OfKey::GetDel),
            KeyCommand::GetBit(_) => Name::Number(OfNumber::GetBit),
            KeyCommand::SetIfAbsent(_) => Name::Pair(OfPair::SetNx),
            KeyCommand::GetSet(_) => Name::Pair(OfPair::GetSet),
            KeyCommand::Append(_) => Name::Pair(OfPair::Append),
            KeyCommand::Set {
                value: _,
                change: _,
            } => Name::Special(Special::Set),
            KeyCommand::GetEx(_) => Name::Special(Special::GetEx),
            KeyCommand::GetRange { first: _, last: _ } => Name::Special(Special::GetRange),
            KeyCommand::SetRange {
                offset: _,
                value: _,
            } => Name::Special(Special::SetRange),
            KeyCommand::Add(_) => Name::Number(OfNumber::IncrBy),
            KeyCommand::AddFloat(_) => Name::Special(Special::IncrByFloat),
            KeyCommand::Expire {
                deadline: _,
                only: _,
            } => Name::Special(Special::Expire),
        }
    }

    /// What the table of commands has of it, for example whether it may grow a value.
    pub fn row(self) -> Row {
        self.name().row()
    }

    /// Whether its look at the key is counted as a hit or a miss. That of SET is counted with GET alone.
    pub fn is_look_counted(self) -> bool {
        match self {
            KeyCommand::Set { value: _, change } => change.get,
            other => other.row().looks.are_counted(),
        }
    }
}

/// What a command answers. INCRBYFLOAT is none of these, since its number has to be spelled first.
pub(crate) fn answer_of<'a>(
    command: KeyCommand<'a>,
    now: u64,
    most: u32,
    value: Option<Live<'a>>,
) -> Answer<'a>
    requires { (by : Bor (List ℕ)) → command ≢ KeyCommand.AddFloat by }
    ensures { IsOutcome command.entry now most (seen value.entry) (outcome_of result) }
{
    match command {
        KeyCommand::Get => get(value),
        KeyCommand::Exists => exists(value),
        KeyCommand::Delete => delete(value),
        KeyCommand::StrLen => str_len(value),
        KeyCommand::TypeOf => type_of(value),
        KeyCommand::Ttl => seconds_after(now, value),
        KeyCommand::PTtl => milliseconds_after(now, value),
        KeyCommand::ExpireTime => seconds_after(0, value),
        KeyCommand::PExpireTime => milliseconds_after(0, value),
        KeyCommand::Persist => persist(value),
        KeyCommand::GetDel => get_and_delete(value),
        KeyCommand::GetBit(offset) => get_bit(offset, value),
        KeyCommand::SetIfAbsent(new) => set_if_absent(new, most, value),
        KeyCommand::GetSet(new) => get_and_set(new, most, value),
        KeyCommand::Append(new) => append(new, most, value),
        KeyCommand::Set { value: new, change } => set(new, change, most, value),
        KeyCommand::GetEx(lifetime) => get_for(lifetime, now, value),
        KeyCommand::GetRange { first, last } => get_range(value, first, last),
        KeyCommand::SetRange { offset, value: new } => set_range(offset, new, most, value),
        KeyCommand::Add(by) => add(by, value),
        KeyCommand::AddFloat(_) => unreachable!(),
        KeyCommand::Expire { deadline, only } => expire(deadline, only, now, value),
    }
}
