//! Commands on what the server knows of itself: COMMAND, CONFIG and SLOWLOG.
ghost use Rattle.std.specs.Prelude.{◌≡◌, ℕ, List, [], ◌∷◌, length, IfOk, IsOk, codes};
ghost use Rattle.commands.specs.declared.server_name.OfServer.TheVariants as of_server;
ghost use Rattle.commands.specs.Arguments.{listed};
ghost use Rattle.commands.specs.Servers.{AreEntries, IsAsked, IsCountedServer};

use crate::arguments::Arguments;
use crate::connection::alone;
use crate::fault::CommandFault;
use crate::name::Name;
use crate::number::whole_number;
use crate::request_text::Shown;
use crate::server::ServerCommand;
use crate::server_name::{Container, OfServer, Subcommand};

pub(crate) fn command<'a>(rest: Arguments<'a>) -> Result<ServerCommand<'a>, CommandFault<'a>>
    ensures spelt { IfOk result (λ c. IsAsked of_server.Command (listed rest.entry) c) }
    ensures counted { IsCountedServer of_server.Command (listed rest.entry) → IsOk result }
{
    let Some((word, rest)) = rest.split_first() else {
        return Ok(ServerCommand::CommandList);
    };
    if word.eq_ignore_ascii_case(b"count") {
        alone(Subcommand::CommandCount, rest, ServerCommand::CommandCount)
    } else if word.eq_ignore_ascii_case(b"docs") {
        Ok(ServerCommand::CommandDocs(rest))
    } else {
        Err(CommandFault::Subcommand(Container::Command, Shown(word).short()))
    }
}

pub(crate) fn config<'a>(rest: Arguments<'a>) -> Result<ServerCommand<'a>, CommandFault<'a>>
    ensures spelt { IfOk result (λ c. IsAsked of_server.Config (listed rest.entry) c) }
{
    let Some((word, rest)) = rest.split_first() else {
        return Err(CommandFault::Count(Name::Server(OfServer::Config)));
    };
    if !word.eq_ignore_ascii_case(b"get") {
        return Err(CommandFault::Subcommand(Container::Config, Shown(word).short()));
    }
    if rest.is_empty() {
        Err(CommandFault::SubcommandCount(Subcommand::ConfigGet))
    } else {
        Ok(ServerCommand::ConfigGet(rest))
    }
}

/// How many entries SLOWLOG GET asks for where it does not say.
const USUAL_ENTRIES: u64 = 10;

/// How many entries SLOWLOG GET asks for at most: none where the number is -1, which asks for all.
fn entries<'a>(word: &'a [u8], rest: Arguments<'a>) -> Result<Option<u64>, CommandFault<'a>>
    ensures { IfOk result (λ most. AreEntries (listed rest.entry) most) }
{
    if rest.is_empty() {
        return Ok(Some(USUAL_ENTRIES));
    }
    let Some(count) = rest.one() else {
        return Err(CommandFault::SlowLogCount(Shown(word).short()));
    };
    if count == b"-1".as_slice() {
        return Ok(None);
    }
    match whole_number(count) {
        Some(most) if 0 <= most => Ok(Some(most.unsigned_abs())),
        _ => Err(CommandFault::SlowLogNumber),
    }
}

pub(crate) fn slow_log<'a>(rest: Arguments<'a>) -> Result<ServerCommand<'a>, CommandFault<'a>>
    ensures spelt { IfOk result (λ c. IsAsked of_server.SlowLog (listed rest.entry) c) }
{
    let Some((word, rest)) = rest.split_first() else {
        return Err(CommandFault::Count(Name::Server(OfServer::SlowLog)));
    };
    if word.eq_ignore_ascii_case(b"len") {
        alone(Subcommand::SlowLogLen, rest, ServerCommand::SlowLogLen)
    } else if word.eq_ignore_ascii_case(b"get") {
        match entries(word, rest) {
            Ok(most) => Ok(ServerCommand::SlowLogGet(most)),
            Err(fault) => Err(fault),
        }
    } else if word.eq_ignore_ascii_case(b"reset") {
        alone(Subcommand::SlowLogReset, rest, ServerCommand::SlowLogReset)
    } else {
        Err(CommandFault::Subcommand(Container::SlowLog, Shown(word).short()))
    }
}
