//! What a request may ask of the server itself.

use crate::arguments::Arguments;

/// A command on a connection, on what the server knows of itself, or on all keys at once.
#[derive(Clone, Copy)]
pub enum ServerCommand<'a> {
    /// AUTH.
    Auth(Login<'a>),
    /// HELLO, with protocol 2 or with none named.
    Hello(Greeting<'a>),
    /// SELECT of a database by this word, which may be no number of one: `database_in` reads it.
    Select(&'a [u8]),
    /// CLIENT ID.
    ClientId,
    /// CLIENT GETNAME.
    ClientGetName,
    /// CLIENT SETNAME: bytes from `!` to `~`, or none, which takes the name away.
    ClientSetName(&'a [u8]),
    /// CLIENT SETINFO: bytes from `!` to `~`, or none.
    ClientSetInfo(ClientInfo, &'a [u8]),
    /// CLIENT NO-EVICT OFF.
    ClientNoEvictOff,
    /// COMMAND alone.
    CommandList,
    /// COMMAND COUNT.
    CommandCount,
    /// COMMAND DOCS: of commands of these names, and of all where there is no name.
    CommandDocs(Arguments<'a>),
    /// CONFIG GET: of settings whose names match one of these patterns, one or more.
    ConfigGet(Arguments<'a>),
    /// SLOWLOG LEN.
    SlowLogLen,
    /// SLOWLOG GET: of as many entries as this at most, and of all where there is no number.
    SlowLogGet(Option<u64>),
    /// SLOWLOG RESET.
    SlowLogReset,
    /// INFO: these sections, and the usual ones where there is none.
    Info(Arguments<'a>),
    /// SCAN.
    Scan(Scan<'a>),
    /// FLUSHALL: of all databases.
    FlushAll,
    /// FLUSHDB: of the selected database.
    FlushDb,
}

/// Who a client says that it is.
#[derive(Clone, Copy)]
pub struct Login<'a> {
    pub user: Option<&'a [u8]>,
    pub password: &'a [u8],
}

/// What HELLO says of its client. Where an option stands more than once, the last one counts.
#[derive(Clone, Copy)]
pub struct Greeting<'a> {
    pub login: Option<Login<'a>>,
    /// As CLIENT SETNAME has it.
    pub name: Option<&'a [u8]>,
}

/// What CLIENT SETINFO tells of the client's library.
#[derive(Clone, Copy, Debug, PartialEq, Eq)]
pub enum ClientInfo {
    /// LIB-NAME.
    LibraryName,
    /// LIB-VER.
    LibraryVersion,
}

/// What SCAN asks for. Where an option stands more than once, the last one counts.
#[derive(Clone, Copy)]
pub struct Scan<'a> {
    pub cursor: u64,
    /// MATCH: only keys that match the pattern, as `matches` has it.
    pub pattern: Option<&'a [u8]>,
    /// COUNT, about how many keys a reply is to look at: one or more, and 10 where none is said.
    pub count: u64,
    /// Whether keys with strings are asked for, as they are but with TYPE of something else.
    pub strings: bool,
}
