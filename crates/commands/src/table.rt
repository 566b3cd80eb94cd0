//! The commands that are answered, as Redis 7.0 tells of them: the one list of their names, flags and arguments.
//!
//! A request's first word is looked up here, COMMAND prints the entries, and the server reads from the flags
//! what a command may do.
ghost use Rattle.std.specs.Prelude.{◌≡◌, ◌≢◌, ◌<◌, [], get_or, length, map, MatchOption};
ghost use Rattle.std.specs.Char.{to_ascii_lowercase};
ghost use Rattle.commands.specs.declared.name.Name.{Name as any_name};
ghost use Rattle.commands.specs.Names.{text_of};
ghost use Rattle.commands.specs.Rows.{text_at, name_at, nameless};

use crate::name::{Name, OfKey, OfKeys, OfNothing, OfNumber, OfPair, Special};
use crate::server_name::OfServer;

/// Which of a command's words are keys.
#[derive(Clone, Copy)]
pub enum Keys {
    None,
    /// The first.
    One,
    /// All.
    Many,
    /// The first, and each second one after it.
    Pairs,
}

/// The flags of a command.
#[derive(Clone, Copy)]
pub enum Flags {
    None,
    Read,
    ReadFast,
    Write,
    WriteFast,
    /// It may leave a key with more bytes than it found.
    Grow,
    GrowFast,
    Fast,
    /// It may come at any time.
    Always,
    AlwaysFast,
    /// It is about a connection or its queue.
    Session,
    SessionFast,
}

/// By what Redis sorts commands.
#[derive(Clone, Copy)]
pub enum Group {
    Str,
    Bitmap,
    Generic,
    Connection,
    Transactions,
    Server,
}

/// Whether the keys that a command looks up are counted as hits and misses.
#[derive(Clone, Copy)]
pub enum Looks {
    Not,
    Counted,
}

/// What is known of one command.
#[derive(Clone, Copy)]
pub struct Row {
    pub name: Name,
    /// How many words it has, with its name; below zero: so many or more.
    pub arity: i64,
    pub flags: Flags,
    pub keys: Keys,
    pub group: Group,
    pub looks: Looks,
}

/// One command: its name in lower case, its row, the version of Redis that had it first, and what it does.
pub type Entry = (&'static str, Row, &'static str, &'static str);

macro_rules! entries {
    ($($text:literal $name:expr, $arity:literal $flags:ident $keys:ident $group:ident $looks:ident $since:literal $summary:literal;)*) => {
        [$((
            $text,
            Row {
                name: $name,
                arity: $arity,
                flags: Flags::$flags,
                keys: Keys::$keys,
                group: Group::$group,
                looks: Looks::$looks,
            },
            $since,
            $summary,
        )),*]
    };
}

/// How many commands there are.
pub const COMMANDS: usize = 54;

/// An entry for each command, the most used ones first.
static TABLE: [Entry; COMMANDS] = entries! {
    "get" Name::Key(OfKey::Get), 2 ReadFast One Str Counted "1.0.0" "Get the value of a key";
    "set" Name::Special(Special::Set), -3 Grow One Str Not "1.0.0" "Set the string value of a key";
    "del" Name::Keys(OfKeys::Del), -2 Write Many Generic Not "1.0.0" "Delete a key";
    "exists" Name::Keys(OfKeys::Exists), -2 ReadFast Many Generic Counted "1.0.0" "Determine if a key exists";
    "mget" Name::Keys(OfKeys::MGet), -2 ReadFast Many Str Counted "1.0.0" "Get the values of all the given keys";
    "incr" Name::Special(Special::Incr), 2 GrowFast One Str Not "1.0.0" "Increment the integer value of a key by one";
    "expire" Name::Special(Special::Expire), -3 WriteFast One Generic Not "1.0.0" "Set a key's time to live in seconds";
    "ttl" Name::Key(OfKey::Ttl), 2 ReadFast One Generic Counted "1.0.0" "Get the time to live for a key in seconds";
    "setex" Name::Special(Special::SetEx), 4 Grow One Str Not "2.0.0" "Set the value and expiration of a key";
    "setnx" Name::Pair(OfPair::SetNx), 3 GrowFast One Str Not "1.0.0" "Set the value of a key, only if the key does not exist";
    "ping" Name::Special(Special::Ping), -1 Fast None Connection Not "1.0.0" "Ping the server";
    "mset" Name::Special(Special::MSet), -3 Grow Pairs Str Not "1.0.1" "Set many keys, each to a value";
    "incrby" Name::Number(OfNumber::IncrBy), 3 GrowFast One Str Not "1.0.0" "Increment the integer value of a key by the given amount";
    "decr" Name::Special(Special::Decr), 2 GrowFast One Str Not "1.0.0" "Decrement the integer value of a key by one";
    "decrby" Name::Special(Special::DecrBy), 3 GrowFast One Str Not "1.0.0" "Decrement the integer value of a key by the given number";
    "append" Name::Pair(OfPair::Append), 3 GrowFast One Str Not "2.0.0" "Append a value to a key";
    "strlen" Name::Key(OfKey::StrLen), 2 ReadFast One Str Counted "2.2.0" "Get the length of the value stored in a key";
    "getset" Name::Pair(OfPair::GetSet), 3 GrowFast One Str Counted "1.0.0" "Set the string value of a key and return its old value";
    "getdel" Name::Key(OfKey::GetDel), 2 WriteFast One Str Counted "6.2.0" "Get the value of a key and delete the key";
    "getex" Name::Special(Special::GetEx), -2 WriteFast One Str Counted "6.2.0" "Get the value of a key and optionally set its expiration";
    "getrange" Name::Special(Special::GetRange), 4 Read One Str Counted "2.4.0" "Get a substring of the string stored at a key";
    "getbit" Name::Number(OfNumber::GetBit), 3 ReadFast One Bitmap Counted "2.2.0" "Returns the bit value at offset in the string value stored at key";
    "setrange" Name::Special(Special::SetRange), 4 Grow One Str Not "2.2.0" "Overwrite part of a string at key starting at the specified offset";
    "incrbyfloat" Name::Special(Special::IncrByFloat), 3 GrowFast One Str Not "2.6.0" "Increment the float value of a key by the given amount";
    "psetex" Name::Special(Special::PSetEx), 4 Grow One Str Not "2.6.0" "Set the value and expiration in milliseconds of a key";
    "unlink" Name::Keys(OfKeys::Unlink), -2 WriteFast Many Generic Not "4.0.0" "Delete a key";
    "touch" Name::Keys(OfKeys::Touch), -2 ReadFast Many Generic Counted "3.2.1" "Count the keys that have a value";
    "type" Name::Key(OfKey::TypeOf), 2 ReadFast One Generic Counted "1.0.0" "Determine the type stored at key";
    "pttl" Name::Key(OfKey::PTtl), 2 ReadFast One Generic Counted "2.6.0" "Get the time to live for a key in milliseconds";
    "pexpire" Name::Special(Special::PExpire), -3 WriteFast One Generic Not "2.6.0" "Set a key's time to live in milliseconds";
    "expireat" Name::Special(Special::ExpireAt), -3 WriteFast One Generic Not "1.2.0" "Set the expiration for a key as a UNIX timestamp";
    "pexpireat" Name::Special(Special::PExpireAt), -3 WriteFast One Generic Not "2.6.0" "Set the expiration for a key as a UNIX timestamp specified in milliseconds";
    "expiretime" Name::Key(OfKey::ExpireTime), 2 ReadFast One Generic Counted "7.0.0" "Get the expiration Unix timestamp for a key";
    "pexpiretime" Name::Key(OfKey::PExpireTime), 2 ReadFast One Generic Counted "7.0.0" "Get the expiration Unix timestamp for a key in milliseconds";
    "persist" Name::Key(OfKey::Persist), 2 WriteFast One Generic Not "2.2.0" "Remove the expiration from a key";
    "multi" Name::Nothing(OfNothing::Multi), 1 SessionFast None Transactions Not "1.2.0" "Mark the start of a transaction block";
    "exec" Name::Nothing(OfNothing::Exec), 1 Session None Transactions Not "1.2.0" "Execute all commands that came behind MULTI";
    "discard" Name::Nothing(OfNothing::Discard), 1 SessionFast None Transactions Not "2.0.0" "Discard all commands that came behind MULTI";
    "scan" Name::Server(OfServer::Scan), -2 Read None Generic Not "2.8.0" "Iterate over the keys step by step";
    "randomkey" Name::Nothing(OfNothing::RandomKey), 1 Read None Generic Not "1.0.0" "Return a random key";
    "dbsize" Name::Nothing(OfNothing::DbSize), 1 ReadFast None Server Not "1.0.0" "Return the number of keys in the selected database";
    "echo" Name::Special(Special::Echo), 2 AlwaysFast None Connection Not "1.0.0" "Echo the given string";
    "auth" Name::Server(OfServer::Auth), -2 SessionFast None Connection Not "1.0.0" "Authenticate to the server";
    "hello" Name::Server(OfServer::Hello), -1 SessionFast None Connection Not "6.0.0" "Handshake with Redis";
    "select" Name::Server(OfServer::Select), 2 AlwaysFast None Connection Not "1.0.0" "Change the selected database for the current connection";
    "client" Name::Server(OfServer::Client), -2 None None Connection Not "2.4.0" "A container for client connection commands";
    "command" Name::Server(OfServer::Command), -1 Always None Server Not "2.8.13" "Get details of the commands";
    "config" Name::Server(OfServer::Config), -2 None None Server Not "2.0.0" "A container for server configuration commands";
    "info" Name::Server(OfServer::Info), -1 Always None Server Not "1.0.0" "Get information and statistics about the server";
    "slowlog" Name::Server(OfServer::SlowLog), -2 None None Server Not "2.2.12" "A container for slow log commands";
    "flushall" Name::Server(OfServer::FlushAll), -1 Write None Server Not "1.0.0" "Remove all keys from all databases";
    "flushdb" Name::Server(OfServer::FlushDb), -1 Write None Server Not "1.0.0" "Remove all keys from the current database";
    "reset" Name::Nothing(OfNothing::Reset), 1 SessionFast None Connection Not "6.2.0" "Reset the connection";
    "quit" Name::Special(Special::Quit), -1 SessionFast None Connection Not "1.0.0" "Close the connection";
};

/// All entries, in the order in which COMMAND lists them.
pub fn commands() -> &'static [Entry]
    ensures { length result.now ≡ COMMANDS }
{
    &TABLE
}

/// The name of the entry at an index, in lower case. The table is a parameter, so that the prover need not unfold it.
fn text_in(table: &'static [Entry], index: usize) -> &'static str
    requires { index < length table.now }
    ensures { result.now ≡ get_or (map (λ entry. entry.0.now) table.now) index [] }
{
    table[index].0
}

/// The row of the entry at an index.
fn row_in(table: &'static [Entry], index: usize) -> Row
    requires { index < length table.now }
    ensures { result.name ≡ get_or (map (λ entry. entry.1.name) table.now) index nameless }
{
    table[index].1
}

/// The text of the entry at an index.
pub(crate) fn text_of_entry(index: usize) -> &'static str
    requires { index < COMMANDS }
    ensures { result.now ≡ text_at index }
{
    text_in(&TABLE, index)
}

/// The row of the entry at an index.
pub(crate) fn row_of_entry(index: usize) -> Row
    requires { index < COMMANDS }
    ensures { result.name ≡ name_at index }
{
    row_in(&TABLE, index)
}

/// The name that the word is, in upper or lower case or both.
pub(crate) fn name_of(word: &[u8]) -> Option<Name>
    ensures { MatchOption result ((x : any_name) → map to_ascii_lowercase word.now ≢ text_of x) (λ x. map to_ascii_lowercase word.now ≡ text_of x) }
{
    for index in 0..COMMANDS {
        if word.eq_ignore_ascii_case(text_of_entry(index).as_bytes()) {
            return Some(row_of_entry(index).name);
        }
    }
    None
}

impl Flags {
    /// The words that COMMAND has for them.
    pub fn words(self) -> &'static [&'static str] {
        match self {
            Flags::None => &[],
            Flags::Read => &["readonly"],
            Flags::ReadFast => &["readonly", "fast"],
            Flags::Write => &["write"],
            Flags::WriteFast => &["write", "fast"],
            Flags::Grow => &["write", "denyoom"],
            Flags::GrowFast => &["write", "denyoom", "fast"],
            Flags::Fast => &["fast"],
            Flags::Always => &["loading", "stale"],
            Flags::AlwaysFast => &["loading", "stale", "fast"],
            Flags::Session => &["noscript", "loading", "stale"],
            Flags::SessionFast => &["noscript", "loading", "stale", "fast"],
        }
    }

    /// Whether the command may leave a key with more bytes than it found, so that it needs room (`denyoom`).
    pub fn may_grow(self) -> bool {
        matches!(self, Flags::Grow | Flags::GrowFast)
    }
}

impl Looks {
    /// Whether each key that the command looks up is counted as a hit or a miss.
    pub fn are_counted(self) -> bool {
        matches!(self, Looks::Counted)
    }
}

impl Keys {
    /// The first and the last of the words that are keys, and the step from one to the next. The name is word 0, -1 is the
    /// last word, and (0, 0, 0) is for none.
    pub fn places(self) -> (i64, i64, i64) {
        match self {
            Keys::None => (0, 0, 0),
            Keys::One => (1, 1, 1),
            Keys::Many => (1, -1, 1),
            Keys::Pairs => (1, -1, 2),
        }
    }
}

impl Group {
    pub fn word(self) -> &'static str {
        match self {
            Group::Str => "string",
            Group::Bitmap => "bitmap",
            Group::Generic => "generic",
            Group::Connection => "connection",
            Group::Transactions => "transactions",
            Group::Server => "server",
        }
    }
}
