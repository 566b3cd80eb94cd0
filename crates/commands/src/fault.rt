//! Why a request asks for nothing that there is, in Redis's words.

use crate::name::Name;
use crate::request_text::{Request, Shown};
use crate::server_name::{Container, Subcommand};
use std::alloc::AllocError;
use std::fmt;
use thiserror::Error;

/// The error of a request. Its text is the one that Redis answers, without the mark and the end of the line.
#[derive(Clone, Copy, Error)]
pub enum CommandFault<'a> {
    /// No command has the name.
    #[error("ERR unknown command {0}")]
    Unknown(Request<'a>),
    /// A command of Redis that is not answered here, by its name in lower case.
    #[error("ERR '{0}' is not supported by farserve")]
    Refused(&'static str),
    /// KEYS, which would hold a lane up while it went over all keys.
    #[error("ERR 'keys' is not supported by farserve, use SCAN")]
    Keys,
    /// A word behind a command's name that names no part of it.
    #[error("ERR unknown subcommand '{1}' of {0}")]
    Subcommand(Container, Shown<'a>),
    /// More or fewer arguments than the command takes.
    #[error("ERR wrong number of arguments for '{0}' command")]
    Count(Name),
    /// More or fewer than its part takes.
    #[error("ERR wrong number of arguments for '{0}' command")]
    SubcommandCount(Subcommand),
    /// More than SLOWLOG GET takes; the word as it was spelled.
    #[error("ERR unknown subcommand or wrong number of arguments for '{0}'")]
    SlowLogCount(Shown<'a>),
    /// An option that the command does not have, that another one excludes, or whose value is missing.
    #[error("ERR syntax error")]
    Syntax,
    /// An argument that is to be a whole number of 64 bits with a sign, and is none.
    #[error("ERR value is not an integer or out of range")]
    Number,
    /// A lifetime that is to be above zero, and is not.
    #[error("ERR invalid expire time in '{0}' command")]
    Lifetime(Name),
    /// DECRBY of the least number, whose opposite is none of 64 bits.
    #[error("ERR decrement would overflow")]
    Decrement,
    /// SETRANGE at a place below 0.
    #[error("ERR offset is out of range")]
    Offset,
    /// An option of EXPIRE that there is none of.
    #[error("ERR Unsupported option {0}")]
    Option(Shown<'a>),
    /// NX beside XX, GT or LT.
    #[error("ERR NX and XX, GT or LT options at the same time are not compatible")]
    AbsentAndOther,
    /// GT beside LT.
    #[error("ERR GT and LT options at the same time are not compatible")]
    LaterAndEarlier,
    /// HELLO with another protocol than 2.
    #[error("NOPROTO unsupported protocol version")]
    Protocol,
    /// HELLO with a protocol that is no number.
    #[error("ERR Protocol version is not an integer or out of range")]
    ProtocolNumber,
    /// An option of HELLO that there is none of, or behind which something is missing.
    #[error("ERR Syntax error in HELLO option '{0}'")]
    HelloOption(Shown<'a>),
    /// A bit's offset that is no number from 0 to 2^32 - 1.
    #[error("ERR bit offset is not an integer or out of range")]
    BitOffset,
    /// A number of a database that has more than 32 bits.
    #[error("ERR value is out of range, value must between -2147483648 and 2147483647")]
    WideNumber,
    /// SELECT of a database that there is not.
    #[error("ERR DB index is out of range")]
    Database,
    /// A client's name with a byte that is not from `!` to `~`.
    #[error("ERR Client names cannot contain spaces, newlines or special characters.")]
    ClientName,
    /// What CLIENT SETINFO does not know.
    #[error("ERR Unrecognized option '{0}'")]
    ClientInfo(Shown<'a>),
    /// What CLIENT SETINFO tells, with a byte that is not from `!` to `~`.
    #[error("ERR {0} cannot contain spaces, newlines or special characters.")]
    ClientInfoValue(Shown<'a>),
    /// How many entries SLOWLOG GET wants: no number, or less than -1.
    #[error("ERR count should be greater than or equal to -1")]
    SlowLogNumber,
    /// A cursor of SCAN that is no number from 0 to 2^63 - 1.
    #[error("ERR invalid cursor")]
    Cursor,
}

impl CommandFault<'_> {
    /// Puts the text, byte for byte, behind what is there. (As it is displayed, it has U+FFFD for each byte that is not ASCII.)
    pub fn push_text(self, out: &mut Vec<u8>) -> Result<(), AllocError> {
        match self {
            CommandFault::Unknown(request) => {
                out.extend_from_slice(b"ERR unknown command ")?;
                request.push_text(out)
            }
            CommandFault::Subcommand(of, word) => {
                word.push_between("ERR unknown subcommand '", "' of ", out)?;
                out.extend_from_slice(of.text().as_bytes())
            }
            CommandFault::SlowLogCount(word) => word.push_between(
                "ERR unknown subcommand or wrong number of arguments for '",
                "'",
                out,
            ),
            CommandFault::Option(word) => word.push_between("ERR Unsupported option ", "", out),
            CommandFault::HelloOption(word) => {
                word.push_between("ERR Syntax error in HELLO option '", "'", out)
            }
            CommandFault::ClientInfo(word) => word.push_between(
                "ERR Unrecognized option '",
                "'",
                out,
            ),
            CommandFault::ClientInfoValue(word) => word.push_between(
                "ERR ",
                " cannot contain spaces, newlines or special characters.",
                out,
            ),
            other => {
                let text = other.to_string(*out.allocator())?;
                out.extend_from_slice(text.as_bytes())
            }
        }
    }
}

/// The text.
impl fmt::Debug for CommandFault<'_> {
    fn fmt<W: fmt::Write>(&self, f: &mut fmt::Formatter<W>) -> fmt::Result {
        fmt::Display::fmt(self, f)
    }
}
