//! What a request may ask for.

use crate::arguments::Arguments;
use crate::name::{OfKey, OfKeys, OfNothing, OfNumber, OfPair};
use crate::server::ServerCommand;

/// A command, whose keys and values are lent from the request.
#[derive(Clone, Copy)]
pub enum Command<'a> {
    /// A command that takes nothing.
    Nothing(OfNothing),
    /// A command on one key.
    Key(OfKey, &'a [u8]),
    /// A command on these keys, one or more.
    Keys(OfKeys, Arguments<'a>),
    /// A command on a key and a value.
    Pair(OfPair, &'a [u8], &'a [u8]),
    /// A command on a key and a number. That of GETBIT is from 0 to 2^32 - 1.
    Number(OfNumber, &'a [u8], i64),
    /// SET, SETEX and PSETEX.
    Set {
        key: &'a [u8],
        value: &'a [u8],
        change: Change,
    },
    /// GETEX.
    GetEx {
        key: &'a [u8],
        lifetime: Lifetime,
    },
    /// GETRANGE: the part of a value from the first place to the last, as `range_of` counts.
    GetRange {
        key: &'a [u8],
        first: i64,
        last: i64,
    },
    /// SETRANGE: bytes that are written over a value from a place on, which is 0 or more.
    SetRange {
        key: &'a [u8],
        offset: u64,
        value: &'a [u8],
    },
    /// INCR, DECR and DECRBY: a number that is added to a value.
    Add {
        key: &'a [u8],
        by: i64,
    },
    /// INCRBYFLOAT: a number that is added to a value, as it was spelled.
    AddFloat {
        key: &'a [u8],
        by: &'a [u8],
    },
    /// MSET: keys and values in turn, one pair or more.
    SetMany(Arguments<'a>),
    /// EXPIRE, PEXPIRE, EXPIREAT and PEXPIREAT, with the deadline in milliseconds since 1970.
    Expire {
        key: &'a [u8],
        deadline: u64,
        only: Only,
    },
    /// PING, with what it is to be answered by.
    Ping(Option<&'a [u8]>),
    /// ECHO.
    Echo(&'a [u8]),
    /// QUIT.
    Quit,
    /// A command to the server itself.
    Server(ServerCommand<'a>),
}

/// Where SET writes.
#[derive(Clone, Copy)]
pub enum Where {
    Always,
    /// NX: where the key has no value.
    Absent,
    /// XX: where it has one.
    Present,
}

/// What becomes of a key's deadline.
#[derive(Clone, Copy)]
pub enum Lifetime {
    /// It stays.
    Keep,
    /// It has none.
    Forever,
    /// It is this, in milliseconds since 1970.
    Until(u64),
}

/// What a SET does beside writing the value.
#[derive(Clone, Copy)]
pub struct Change {
    pub to: Where,
    /// GET: it answers the value that was there.
    pub get: bool,
    pub lifetime: Lifetime,
}

/// Where EXPIRE sets a deadline: everywhere, but for these.
#[derive(Clone, Copy)]
pub struct Only {
    /// NX: only where there is none.
    pub absent: bool,
    /// XX: only where there is one.
    pub present: bool,
    /// GT: only where it is later than the one that is there; none is later than any.
    pub later: bool,
    /// LT: only where it is earlier, or there is none.
    pub earlier: bool,
}
