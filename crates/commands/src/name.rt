//! The names of commands, by what they take.
ghost use Rattle.std.specs.Prelude.{◌≡◌, ◌<◌};
ghost use Rattle.commands.specs.Names.{index_of, text_of};

use crate::server_name::OfServer;
use crate::table::{COMMANDS, Row, row_of_entry, text_of_entry};
use std::fmt;

/// Nothing.
#[derive(Clone, Copy)]
pub enum OfNothing {
    Multi,
    Exec,
    Discard,
    Reset,
    DbSize,
    RandomKey,
}

/// A key.
#[derive(Clone, Copy)]
pub enum OfKey {
    Get,
    GetDel,
    StrLen,
    Ttl,
    PTtl,
    ExpireTime,
    PExpireTime,
    Persist,
    TypeOf,
}

/// One key or more.
#[derive(Clone, Copy)]
pub enum OfKeys {
    Del,
    Unlink,
    Exists,
    Touch,
    MGet,
}

/// A key and a value.
#[derive(Clone, Copy)]
pub enum OfPair {
    SetNx,
    GetSet,
    Append,
}

/// A key and a whole number.
#[derive(Clone, Copy)]
pub enum OfNumber {
    IncrBy,
    GetBit,
}

/// Arguments of its own.
#[derive(Clone, Copy)]
pub enum Special {
    Set,
    GetEx,
    SetEx,
    PSetEx,
    GetRange,
    SetRange,
    Incr,
    Decr,
    DecrBy,
    IncrByFloat,
    MSet,
    Expire,
    PExpire,
    ExpireAt,
    PExpireAt,
    Ping,
    Echo,
    Quit,
}

/// The name of a command, by what it takes.
#[derive(Clone, Copy)]
pub enum Name {
    Nothing(OfNothing),
    Key(OfKey),
    Keys(OfKeys),
    Pair(OfPair),
    Number(OfNumber),
    Special(Special),
    Server(OfServer),
}

impl Name {
    /// The index of the command's entry in the table.
    fn index(self) -> usize
        ensures is { result ≡ index_of self }
        ensures within { result < COMMANDS }
    {
        match self {
            Name::Nothing(of) => match of {
                OfNothing::Multi => 35,
                OfNothing::Exec => 36,
                OfNothing::Discard => 37,
                OfNothing::RandomKey => 39,
                OfNothing::DbSize => 40,
                OfNothing::Reset => 52,
            },
            Name::Key(of) => match of {
                OfKey::Get => 0,
                OfKey::Ttl => 7,
                OfKey::StrLen => 16,
                OfKey::GetDel => 18,
                OfKey::TypeOf => 27,
                OfKey::PTtl => 28,
                OfKey::ExpireTime => 32,
                OfKey::PExpireTime => 33,
                OfKey::Persist => 34,
            },
            Name::Keys(of) => match of {
                OfKeys::Del => 2,
                OfKeys::Exists => 3,
                OfKeys::MGet => 4,
                OfKeys::Unlink => 25,
                OfKeys::Touch => 26,
            },
            Name::Pair(of) => match of {
                OfPair::SetNx => 9,
                OfPair::Append => 15,
                OfPair::GetSet => 17,
            },
            Name::Number(of) => match of {
                OfNumber::IncrBy => 12,
                OfNumber::GetBit => 21,
            },
            Name::Special(of) => match of {
                Special::Set => 1,
                Special::Incr => 5,
                Special::Expire => 6,
                Special::SetEx => 8,
                Special::Ping => 10,
                Special::MSet => 11,
                Special::Decr => 13,
                Special::DecrBy => 14,
                Special::GetEx => 19,
                Special::GetRange => 20,
                Special::SetRange => 22,
                Special::IncrByFloat => 23,
                Special::PSetEx => 24,
                Special::PExpire => 29,
                Special::ExpireAt => 30,
                Special::PExpireAt => 31,
                Special::Echo => 41,
                Special::Quit => 53,
            },
            Name::Server(of) => match of {
                OfServer::Scan => 38,
                OfServer::Auth => 42,
                OfServer::Hello => 43,
                OfServer::Select => 44,
                OfServer::Client => 45,
                OfServer::Command => 46,
                OfServer::Config => 47,
                OfServer::Info => 48,
                OfServer::SlowLog => 49,
                OfServer::FlushAll => 50,
                OfServer::FlushDb => 51,
            },
        }
    }

    /// The name in lower case.
    pub fn text(self) -> &'static str
        ensures { result.now ≡ text_of self }
    {
        text_of_entry(self.index())
    }

    /// What the command is: its arity, its flags and its keys.
    pub fn row(self) -> Row
        ensures { result.name ≡ self }
    {
        row_of_entry(self.index())
    }
}

impl fmt::Display for Name {
    fn fmt<W: fmt::Write>(&self, f: &mut fmt::Formatter<W>) -> fmt::Result {
        f.write_str(self.text())
    }
}
