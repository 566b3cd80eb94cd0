//! Commands on a connection: AUTH, HELLO, SELECT and CLIENT.
ghost use Rattle.std.specs.Prelude.{◌≡◌, ◌≢◌, ℕ, List, [], ◌∷◌, ◌++◌, ◌<◌, ◌≤◌, ◌↔◌, length, map, decimal, IsTrue, IsSome, IfOk, IsOk, OnErr, IfSome, MatchOption, codes};
ghost use Rattle.std.specs.Char.{to_ascii_lowercase};
ghost use Rattle.commands.specs.declared.server_name.OfServer.TheVariants as of_server;
ghost use Rattle.commands.specs.Arguments.{listed};
ghost use Rattle.commands.specs.Servers.{IsPart, IsPlainName, IsGreeting, IsAsked, IsCountedServer, credentials, info_text};

use crate::arguments::Arguments;
use crate::fault::CommandFault;
use crate::name::Name;
use crate::number::whole_number;
use crate::request_text::Shown;
use crate::server::{ClientInfo, Greeting, Login, ServerCommand};
use crate::server_name::{Container, OfServer, Subcommand};

/// The protocol that is spoken, RESP2.
const PROTOCOL: i64 = 2;

pub(crate) fn auth<'a>(rest: Arguments<'a>) -> Result<ServerCommand<'a>, CommandFault<'a>>
    ensures spelt { IfOk result (λ c. IsAsked of_server.Auth (listed rest.entry) c) }
    ensures counted { IsCountedServer of_server.Auth (listed rest.entry) → IsOk result }
{
    if let Some(password) = rest.one() {
        return Ok(ServerCommand::Auth(Login {
            user: None,
            password,
        }));
    }
    if let Some((user, password)) = rest.two() {
        return Ok(ServerCommand::Auth(Login {
            user: Some(user),
            password,
        }));
    }
    if rest.is_empty() {
        Err(CommandFault::Count(Name::Server(OfServer::Auth)))
    } else {
        Err(CommandFault::Syntax)
    }
}

/// Whether a client or its library may be called so: by bytes from `!` to `~` alone.
fn is_plain(name: &[u8]) -> bool
    ensures { IsTrue result ↔ IsPlainName name.now }
{
    name.iter().all(|byte| b'!' <= *byte && *byte <= b'~')
}

/// What AUTH says in HELLO, and what stands behind it.
fn login_of<'a>(behind: Arguments<'a>) -> Option<(Login<'a>, Arguments<'a>)>
    ensures { IfSome result (λ r. IsSome r.0.user × (listed behind.entry ≡ credentials r.0 ++ listed r.1)) }
{
    let (user, behind) = behind.split_first()?;
    let (password, behind) = behind.split_first()?;
    let login = Login {
        user: Some(user),
        password,
    };
    Some((login, behind))
}

/// An option of HELLO beside what was said, and what stands behind it.
fn with_option<'a>(
    said: Greeting<'a>,
    word: &'a [u8],
    behind: Arguments<'a>,
) -> Result<(Greeting<'a>, Arguments<'a>), CommandFault<'a>>
    ensures { IfOk result (λ r. (words before : List (List ℕ)) → words ≡ before ++ word.now ∷ listed behind.entry
        → IsGreeting words said.entry → IsGreeting words r.0 × ((front : List (List ℕ)) × (words ≡ front ++ listed r.1))) }
{
    if word.eq_ignore_ascii_case(b"auth") {
        if let Some((login, rest)) = login_of(behind) {
            let login = Some(login);
            return Ok((Greeting { login, ..said }, rest));
        }
    }
    if word.eq_ignore_ascii_case(b"setname") {
        if let Some((name, rest)) = behind.split_first() {
            if !is_plain(name) {
                return Err(CommandFault::ClientName);
            }
            let name = Some(name);
            return Ok((Greeting { name, ..said }, rest));
        }
    }
    Err(CommandFault::HelloOption(Shown(word)))
}

/// What the options of HELLO say together.
fn greeting_of<'a>(words: Arguments<'a>) -> Result<Greeting<'a>, CommandFault<'a>>
    ensures { IfOk result (λ g. IsGreeting (listed words.entry) g) }
{
    let mut said = Greeting {
        login: None,
        name: None,
    };
    let mut rest = words;
    // Each option takes an argument at least.
    'options: for _ in 0..words.len() {
        let Some((word, values)) = rest.split_first() else {
            break;
        };
        match with_option(said, word, values) {
            Ok((now_said, behind)) => {
                said = now_said;
                rest = behind;
            }
            Err(fault) => return Err(fault),
        }
    }
    Ok(said)
}

pub(crate) fn hello<'a>(rest: Arguments<'a>) -> Result<ServerCommand<'a>, CommandFault<'a>>
    ensures spelt { IfOk result (λ c. IsAsked of_server.Hello (listed rest.entry) c) }
    ensures counted { IsCountedServer of_server.Hello (listed rest.entry) → IsOk result }
{
    let Some((version, words)) = rest.split_first() else {
        return Ok(ServerCommand::Hello(Greeting {
            login: None,
            name: None,
        }));
    };
    let Some(version) = whole_number(version) else {
        return Err(CommandFault::ProtocolNumber);
    };
    if version != PROTOCOL {
        return Err(CommandFault::Protocol);
    }
    match greeting_of(words) {
        Ok(greeting) => Ok(ServerCommand::Hello(greeting)),
        Err(fault) => Err(fault),
    }
}

pub(crate) fn select<'a>(rest: Arguments<'a>) -> Result<ServerCommand<'a>, CommandFault<'a>>
    ensures spelt { IfOk result (λ c. IsAsked of_server.Select (listed rest.entry) c) }
    ensures counted { IsCountedServer of_server.Select (listed rest.entry) → IsOk result }
{
    match rest.one() {
        Some(index) => Ok(ServerCommand::Select(index)),
        None => Err(CommandFault::Count(Name::Server(OfServer::Select))),
    }
}

/// The number of the database that SELECT asks for by this word, where databases have numbers from 0 to `last`.
pub fn database_in(index: &[u8], last: u8) -> Result<u8, CommandFault<'static>>
    ensures named { IfOk result (λ d. (d ≤ last) × (index.now ≡ decimal d)) }
    ensures refused { OnErr result ((d : ℕ) → d ≤ last → index.now ≢ decimal d) }
{
    let Some(number) = whole_number(index) else {
        return Err(CommandFault::Number);
    };
    match u8::try_from(number) {
        Ok(database) => {
            if database <= last {
                Ok(database)
            } else {
                Err(CommandFault::Database)
            }
        }
        Err(_) => Err(out_of_range(number)),
    }
}

/// Why a number that is none of a byte is none of a database: Redis has databases' numbers of 32 bits.
fn out_of_range(number: i64) -> CommandFault<'static> {
    if i32::try_from(number).is_ok() {
        CommandFault::Database
    } else {
        CommandFault::WideNumber
    }
}

fn set_name<'a>(rest: Arguments<'a>) -> Result<ServerCommand<'a>, CommandFault<'a>>
    ensures { IfOk result (λ c. (args : List (List ℕ)) → IsPart (codes "setname") (listed rest.entry) args → IsAsked of_server.Client args c) }
{
    match rest.one() {
        Some(name) if is_plain(name) => Ok(ServerCommand::ClientSetName(name)),
        Some(_) => Err(CommandFault::ClientName),
        None => Err(CommandFault::SubcommandCount(Subcommand::ClientSetName)),
    }
}

fn info_of(word: &[u8]) -> Option<ClientInfo>
    ensures { IfSome result (λ info. map to_ascii_lowercase word.now ≡ info_text info) }
{
    if word.eq_ignore_ascii_case(b"lib-name") {
        Some(ClientInfo::LibraryName)
    } else if word.eq_ignore_ascii_case(b"lib-ver") {
        Some(ClientInfo::LibraryVersion)
    } else {
        None
    }
}

fn set_info<'a>(rest: Arguments<'a>) -> Result<ServerCommand<'a>, CommandFault<'a>>
    ensures { IfOk result (λ c. (args : List (List ℕ)) → IsPart (codes "setinfo") (listed rest.entry) args → IsAsked of_server.Client args c) }
{
    let Some((word, value)) = rest.two() else {
        return Err(CommandFault::SubcommandCount(Subcommand::ClientSetInfo));
    };
    match info_of(word) {
        Some(info) if is_plain(value) => Ok(ServerCommand::ClientSetInfo(info, value)),
        Some(_) => Err(CommandFault::ClientInfoValue(Shown(word))),
        None => Err(CommandFault::ClientInfo(Shown(word))),
    }
}

fn no_evict<'a>(rest: Arguments<'a>) -> Result<ServerCommand<'a>, CommandFault<'a>>
    ensures { IfOk result (λ c. (args : List (List ℕ)) → IsPart (codes "no-evict") (listed rest.entry) args → IsAsked of_server.Client args c) }
{
    let Some(word) = rest.one() else {
        return Err(CommandFault::SubcommandCount(Subcommand::ClientNoEvict));
    };
    if word.eq_ignore_ascii_case(b"off") {
        Ok(ServerCommand::ClientNoEvictOff)
    } else if word.eq_ignore_ascii_case(b"on") {
        Err(CommandFault::Refused("client|no-evict on"))
    } else {
        Err(CommandFault::Syntax)
    }
}

/// The command that takes nothing more.
pub(crate) fn alone<'a>(
    of: Subcommand,
    rest: Arguments<'a>,
    command: ServerCommand<'a>,
) -> Result<ServerCommand<'a>, CommandFault<'a>>
    ensures { IfOk result (λ c. (c ≡ command.entry) × (listed rest.entry ≡ [])) }
{
    if rest.is_empty() {
        Ok(command)
    } else {
        Err(CommandFault::SubcommandCount(of))
    }
}

pub(crate) fn client<'a>(rest: Arguments<'a>) -> Result<ServerCommand<'a>, CommandFault<'a>>
    ensures spelt { IfOk result (λ c. IsAsked of_server.Client (listed rest.entry) c) }
{
    let Some((word, rest)) = rest.split_first() else {
        return Err(CommandFault::Count(Name::Server(OfServer::Client)));
    };
    if word.eq_ignore_ascii_case(b"id") {
        alone(Subcommand::ClientId, rest, ServerCommand::ClientId)
    } else if word.eq_ignore_ascii_case(b"getname") {
        alone(
            Subcommand::ClientGetName,
            rest,
            ServerCommand::ClientGetName,
        )
    } else if word.eq_ignore_ascii_case(b"setname") {
        set_name(rest)
    } else if word.eq_ignore_ascii_case(b"setinfo") {
        set_info(rest)
    } else if word.eq_ignore_ascii_case(b"no-evict") {
        no_evict(rest)
    } else {
        Err(CommandFault::Subcommand(Container::Client, Shown(word).short()))
    }
}
