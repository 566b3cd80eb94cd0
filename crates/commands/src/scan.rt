//! Commands on all keys: SCAN, FLUSHALL and FLUSHDB.
ghost use Rattle.std.specs.Prelude.{◌≡◌, ℕ, ◌<◌, List, [], ◌∷◌, ◌++◌, length, map, decimal, IfOk, IsOk, IfSome};
ghost use Rattle.std.specs.Char.{to_ascii_lowercase};
ghost use Rattle.commands.specs.declared.server_name.OfServer.TheVariants as of_server;
ghost use Rattle.commands.specs.Arguments.{listed};
ghost use Rattle.commands.specs.Servers.{IsScan, IsAsked, IsCountedServer};

use crate::arguments::Arguments;
use crate::fault::CommandFault;
use crate::name::Name;
use crate::number::whole_number;
use crate::server::{Scan, ServerCommand};
use crate::server_name::OfServer;

/// How many keys a reply looks at where SCAN does not say.
const USUAL_COUNT: u64 = 10;

/// A number from 0 to 2^63 - 1.
fn cursor_of(bytes: &[u8]) -> Option<u64>
    ensures { IfSome result (λ n. bytes.now ≡ decimal n) }
{
    match whole_number(bytes) {
        Some(cursor) if 0 <= cursor => Some(cursor.unsigned_abs()),
        _ => None,
    }
}

/// A number of keys, one or more.
fn count_of<'a>(bytes: &[u8]) -> Result<u64, CommandFault<'a>>
    ensures { IfOk result (λ n. (bytes.now ≡ decimal n) × (0 < n)) }
{
    match whole_number(bytes) {
        Some(count) if 0 < count => Ok(count.unsigned_abs()),
        Some(_) => Err(CommandFault::Syntax),
        None => Err(CommandFault::Number),
    }
}

/// An option with its value beside what was said.
fn with_option<'a>(
    said: Scan<'a>,
    word: &[u8],
    value: &'a [u8],
) -> Result<Scan<'a>, CommandFault<'a>>
    ensures options { IfOk result (λ r. (words before after : List (List ℕ)) → words ≡ before ++ word.now ∷ value.now ∷ after
        → IsScan words said.entry → IsScan words r) }
    ensures cursor { IfOk result (λ r. r.cursor ≡ said.entry.cursor) }
{
    if word.eq_ignore_ascii_case(b"match") {
        let pattern = Some(value);
        Ok(Scan { pattern, ..said })
    } else if word.eq_ignore_ascii_case(b"count") {
        match count_of(value) {
            Ok(count) => Ok(Scan { count, ..said }),
            Err(fault) => Err(fault),
        }
    } else if word.eq_ignore_ascii_case(b"type") {
        let strings = value.eq_ignore_ascii_case(b"string");
        Ok(Scan { strings, ..said })
    } else {
        Err(CommandFault::Syntax)
    }
}

/// What the options say together.
fn with_options<'a>(first: Scan<'a>, words: Arguments<'a>) -> Result<Scan<'a>, CommandFault<'a>>
    requires { IsScan (listed words) first }
    ensures options { IfOk result (λ r. IsScan (listed words.entry) r) }
    ensures cursor { IfOk result (λ r. r.cursor ≡ first.entry.cursor) }
{
    let mut said = first;
    let mut rest = words;
    // Each option takes an argument at least.
    'options: for _ in 0..words.len() {
        let Some((word, values)) = rest.split_first() else {
            break;
        };
        let Some((value, behind)) = values.split_first() else {
            return Err(CommandFault::Syntax);
        };
        match with_option(said, word, value) {
            Ok(now_said) => {
                said = now_said;
                rest = behind;
            }
            Err(fault) => return Err(fault),
        }
    }
    Ok(said)
}

pub(crate) fn scan<'a>(rest: Arguments<'a>) -> Result<ServerCommand<'a>, CommandFault<'a>>
    ensures spelt { IfOk result (λ c. IsAsked of_server.Scan (listed rest.entry) c) }
{
    let Some((cursor, words)) = rest.split_first() else {
        return Err(CommandFault::Count(Name::Server(OfServer::Scan)));
    };
    let Some(cursor) = cursor_of(cursor) else {
        return Err(CommandFault::Cursor);
    };
    let first = Scan {
        cursor,
        pattern: None,
        count: USUAL_COUNT,
        strings: true,
    };
    match with_options(first, words) {
        Ok(scan) => Ok(ServerCommand::Scan(scan)),
        Err(fault) => Err(fault),
    }
}

/// FLUSHALL or FLUSHDB, as this command. SYNC and ASYNC are one here.
pub(crate) fn flush<'a>(
    rest: Arguments<'a>,
    command: ServerCommand<'a>,
) -> Result<ServerCommand<'a>, CommandFault<'a>>
    ensures spelt { IfOk result (λ c. (c ≡ command.entry) × (length (listed rest.entry) < 2)) }
    ensures counted { length (listed rest.entry) ≡ 0 → IsOk result }
{
    if rest.is_empty() {
        return Ok(command);
    }
    match rest.one() {
        Some(word) if word.eq_ignore_ascii_case(b"sync") => Ok(command),
        Some(word) if word.eq_ignore_ascii_case(b"async") => Ok(command),
        _ => Err(CommandFault::Syntax),
    }
}
