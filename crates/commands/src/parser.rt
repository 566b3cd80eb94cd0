//! From the arguments of a request to the command that they spell.
ghost use Rattle.std.specs.Prelude.{◌≡◌, ℕ, List, ◌∷◌, map, IfOk, IsOk};
ghost use Rattle.std.specs.Char.{to_ascii_lowercase};
ghost use Rattle.std.specs.Fmt.{signed_decimal};
ghost use Rattle.commands.specs.declared.name.Name.{Name as any_name};
ghost use Rattle.commands.specs.Names.{text_of};
ghost use Rattle.commands.specs.Arguments.{listed};
ghost use Rattle.commands.specs.Servers.{IsAsked, IsCountedServer};
ghost use Rattle.commands.specs.Commands.{IsNumber, IsSpelt, IsCounted, Spells};

use crate::arguments::Arguments;
use crate::command::Command;
use crate::connection::{auth, client, hello, select};
use crate::fault::CommandFault;
use crate::introspection::{command, config, slow_log};
use crate::name::{Name, OfNumber};
use crate::number::whole_number;
use crate::refused_commands::refused_name;
use crate::request_text::Request;
use crate::scan::{flush, scan};
use crate::server::ServerCommand;
use crate::server_name::OfServer;
use crate::special::read_special;
use crate::table::name_of;

fn read_server<'a>(of: OfServer, rest: Arguments<'a>) -> Result<ServerCommand<'a>, CommandFault<'a>>
    ensures spelt { IfOk result (λ c. IsAsked of (listed rest.entry) c) }
    ensures counted { IsCountedServer of (listed rest.entry) → IsOk result }
{
    match of {
        OfServer::Auth => auth(rest),
        OfServer::Hello => hello(rest),
        OfServer::Select => select(rest),
        OfServer::Client => client(rest),
        OfServer::Command => command(rest),
        OfServer::Config => config(rest),
        OfServer::SlowLog => slow_log(rest),
        OfServer::Info => Ok(ServerCommand::Info(rest)),
        OfServer::Scan => scan(rest),
        OfServer::FlushAll => flush(rest, ServerCommand::FlushAll),
        OfServer::FlushDb => flush(rest, ServerCommand::FlushDb),
    }
}

/// The first number that is no bit's offset: Redis has values of 2^29 bytes at most.
const BITS: i64 = 1 << 32;

/// The number of a command on a key and a number.
fn number_of<'a>(of: OfNumber, bytes: &[u8]) -> Result<i64, CommandFault<'a>>
    ensures { IfOk result (λ z. (bytes.now ≡ signed_decimal z) × IsNumber of z) }
{
    match of {
        OfNumber::IncrBy => whole_number(bytes).ok_or(CommandFault::Number),
        OfNumber::GetBit => match whole_number(bytes) {
            Some(offset) if 0 <= offset && offset < BITS => Ok(offset),
            _ => Err(CommandFault::BitOffset),
        },
    }
}

fn by_name<'a>(name: Name, rest: Arguments<'a>, now: u64) -> Result<Command<'a>, CommandFault<'a>>
    ensures spelt { IfOk result (λ c. IsSpelt now name (listed rest.entry) c) }
    ensures counted { IsCounted name (listed rest.entry) → IsOk result }
{
    match name {
        Name::Nothing(of) => {
            if rest.is_empty() {
                Ok(Command::Nothing(of))
            } else {
                Err(CommandFault::Count(name))
            }
        }
        Name::Key(of) => match rest.one() {
            Some(key) => Ok(Command::Key(of, key)),
            None => Err(CommandFault::Count(name)),
        },
        Name::Keys(of) => {
            if rest.is_empty() {
                Err(CommandFault::Count(name))
            } else {
                Ok(Command::Keys(of, rest))
            }
        }
        Name::Pair(of) => match rest.two() {
            Some((key, value)) => Ok(Command::Pair(of, key, value)),
            None => Err(CommandFault::Count(name)),
        },
        Name::Number(of) => match rest.two() {
            Some((key, number)) => match number_of(of, number) {
                Ok(number) => Ok(Command::Number(of, key, number)),
                Err(fault) => Err(fault),
            },
            None => Err(CommandFault::Count(name)),
        },
        Name::Special(of) => read_special(of, rest, now),
        Name::Server(of) => match read_server(of, rest) {
            Ok(command) => Ok(Command::Server(command)),
            Err(fault) => Err(fault),
        },
    }
}

/// Why a request of this first word, which names no command that is answered, asks for nothing.
fn refusal<'a>(word: &[u8], request: Arguments<'a>) -> CommandFault<'a> {
    if word.eq_ignore_ascii_case(b"keys") {
        return CommandFault::Keys;
    }
    match refused_name(word) {
        Some(name) => CommandFault::Refused(name),
        None => CommandFault::Unknown(Request(request)),
    }
}

/// The command that a request's arguments spell, its name and options in upper or lower case or both, at a time in
/// milliseconds since 1970. Where they spell none, the fault that Redis finds first: an unknown name, the count of
/// arguments, the options, and then numbers.
pub fn read<'a>(request: Arguments<'a>, now: u64) -> Result<Command<'a>, CommandFault<'a>>
    ensures spelt { IfOk result (λ c. Spells now (listed request.entry) c) }
    // Where any arguments will do, and there are as many as the name takes, it is a command.
    ensures counted { (n : any_name) (first : List ℕ) (rest : List (List ℕ)) → listed request.entry ≡ first ∷ rest
        → map to_ascii_lowercase first ≡ text_of n → IsCounted n rest → IsOk result }
{
    let Some((first, rest)) = request.split_first() else {
        return Err(CommandFault::Unknown(Request(request)));
    };
    let Some(name) = name_of(first) else {
        return Err(refusal(first, request));
    };
    by_name(name, rest, now)
}
