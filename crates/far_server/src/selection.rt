//! Which database a connection has selected, and SELECT.
//!
//! # After a SELECT that is refused
//!
//! Some clients ignore the error of a SELECT. If the old database stayed selected, such a client would read,
//! change and flush the keys of a database that it did not ask for. So no database is selected then, and each
//! command on keys is an error until a SELECT succeeds or RESET comes.
ghost use Rattle.std.specs.Prelude.{◌≡◌, ◌⊎◌, ◌++◌, ◌∷◌, [], ℕ, List, MatchBool, IfOk, OnOk, codes};
ghost use Rattle.std.specs.List.{flat_map};
ghost use Rattle.resp.specs.Replies.{Token, Failure, Simple, token};
ghost use Rattle.far_map.specs.declared.refusal.MapRefusal.TheVariants as refusal;
ghost use Rattle.far_server.specs.Refusing.{text_of};
ghost use Rattle.far_server.specs.Selections.{nothing_on_keys, server_on_keys, is_on_keys, select_of, selects, no_database, IsSelected, IsUnselected};

use crate::connection::Connection;
use crate::one_reply::{push_one_failure, push_one_fault, push_one_simple};
use crate::refusal::text_of;
use crate::reserve::has_room_for;
use commands::{Command, OfNothing, ServerCommand, database_in, whole_number};
use far_map::MapRefusal;
use itoa::Buffer;
use std::alloc::AllocError;

/// What a connection has selected.
#[derive(Clone, Copy)]
pub(crate) enum Selection {
    /// The database of this number.
    Database(u8),
    /// None, because a SELECT was refused: that of this number, if it was a number.
    Refused(Option<i64>),
}

/// Whether a command without arguments is on keys.
fn nothing_on_keys(of: OfNothing) -> bool
    ensures { result ≡ nothing_on_keys of }
{
    match of {
        OfNothing::DbSize => true,
        OfNothing::RandomKey => true,
        OfNothing::Multi => false,
        OfNothing::Exec => false,
        OfNothing::Discard => false,
        OfNothing::Reset => false,
    }
}

/// Whether a command to the server is on keys.
fn server_on_keys(command: ServerCommand<'_>) -> bool
    ensures { result ≡ server_on_keys command.entry }
{
    match command {
        ServerCommand::Scan(_) => true,
        ServerCommand::FlushAll => true,
        ServerCommand::FlushDb => true,
        ServerCommand::Auth(_) => false,
        ServerCommand::Hello(_) => false,
        ServerCommand::Select(_) => false,
        ServerCommand::ClientId => false,
        ServerCommand::ClientGetName => false,
        ServerCommand::ClientSetName(_) => false,
        ServerCommand::ClientSetInfo(_, _) => false,
        ServerCommand::ClientNoEvictOff => false,
        ServerCommand::CommandList => false,
        ServerCommand::CommandCount => false,
        ServerCommand::CommandDocs(_) => false,
        ServerCommand::ConfigGet(_) => false,
        ServerCommand::SlowLogLen => false,
        ServerCommand::SlowLogGet(_) => false,
        ServerCommand::SlowLogReset => false,
        ServerCommand::Info(_) => false,
    }
}

/// Whether a command is on keys: it names some, or is on those of a database. Each new command has to be put
/// on one side here.
pub(crate) fn is_on_keys(command: Command<'_>) -> bool
    ensures { result ≡ is_on_keys command.entry }
{
    match command {
        Command::Nothing(of) => nothing_on_keys(of),
        Command::Server(command) => server_on_keys(command),
        Command::Ping(_) => false,
        Command::Echo(_) => false,
        Command::Quit => false,
        Command::Key(_, _) => true,
        Command::Keys(_, _) => true,
        Command::Pair(_, _, _) => true,
        Command::Number(_, _, _) => true,
        Command::Set { .. } => true,
        Command::GetEx { .. } => true,
        Command::GetRange { .. } => true,
        Command::SetRange { .. } => true,
        Command::Add { .. } => true,
        Command::AddFloat { .. } => true,
        Command::SetMany(_) => true,
        Command::Expire { .. } => true,
    }
}

/// The word behind SELECT.
fn select_of<'a>(command: ServerCommand<'a>) -> Option<&'a [u8]>
    ensures { result ≡ select_of command.entry }
{
    match command {
        ServerCommand::Select(index) => Some(index),
        _ => None,
    }
}

/// The word behind SELECT, if the command is one.
pub(crate) fn selects<'a>(command: Command<'a>) -> Option<&'a [u8]>
    ensures { result ≡ selects command.entry }
{
    match command {
        Command::Server(command) => select_of(command),
        _ => None,
    }
}

/// Pushes OK if there is also room for `beside` bytes after it. Otherwise it pushes the error of refused memory.
/// Returns whether it was OK.
fn push_ok(beside: usize, reply: &mut Vec<u8>) -> Result<bool, AllocError>
    ensures { IfOk result (λ is_ok. MatchBool is_ok (reply.new.items ≡ reply.old.items ++ flat_map token (Simple (codes "OK") ∷ [])) (reply.new.items ≡ reply.old.items ++ flat_map token (Failure (text_of refusal.Memory) ∷ []))) }
{
    let before = reply.len();
    match push_one_simple(reply, b"OK") {
        Ok(()) => {
            if has_room_for(beside, reply) {
                return Ok(true);
            }
            reply.truncate(before);
        }
        Err(_) => {}
    }
    match push_one_failure(reply, text_of(MapRefusal::Memory)) {
        Ok(()) => Ok(false),
        Err(refused) => Err(refused),
    }
}

/// Answers SELECT of databases with the numbers from 0 to `last`. If it is refused, also for want of memory, no
/// database is selected.
pub(crate) fn answer_select(
    last: u8,
    connection: &mut Connection,
    index: &[u8],
    beside: usize,
    reply: &mut Vec<u8>,
) -> Result<(), AllocError>
    ensures selected { OnOk result ((rs : List Token) × (reply.new.items ≡ reply.old.items ++ flat_map token rs) × IsSelected last index.now connection.new.selected rs) }
    ensures queue { connection.new.queue ≡ connection.old.queue }
    ensures is_authenticated { connection.new.is_authenticated ≡ connection.old.is_authenticated }
{
    connection.selected = Selection::Refused(whole_number(index));
    match database_in(index, last) {
        Ok(database) => match push_ok(beside, reply) {
            Ok(true) => {
                connection.selected = Selection::Database(database);
                Ok(())
            }
            Ok(false) => Ok(()),
            Err(refused) => Err(refused),
        },
        Err(fault) => push_one_fault(reply, fault, beside),
    }
}

/// Puts the error of a command on keys, after the SELECT of this number was refused, in place of what `text` has.
fn put_no_database(refused: Option<i64>, text: &mut Vec<u8>) -> Result<(), AllocError>
    ensures { OnOk result (text.new.items ≡ no_database refused) }
{
    text.clear();
    text.extend_from_slice(b"ERR no database is selected, since SELECT ")?;
    if let Some(number) = refused {
        let mut digits = Buffer::new();
        text.extend_from_slice(digits.format(number).as_bytes())?;
        text.extend_from_slice(b" ")?;
    }
    text.extend_from_slice(b"was refused")
}

/// Pushes an error if there is also room for `beside` bytes after it. Returns whether there was. If not, `reply` is
/// as before.
fn has_pushed(text: &[u8], beside: usize, reply: &mut Vec<u8>) -> bool
    ensures { MatchBool result (reply.new.items ≡ reply.old.items ++ flat_map token (Failure text.now ∷ [])) (reply.new.items ≡ reply.old.items) }
{
    let before = reply.len();
    match push_one_failure(reply, text) {
        Ok(()) => {
            if has_room_for(beside, reply) {
                return true;
            }
            reply.truncate(before);
            false
        }
        Err(_) => false,
    }
}

/// Pushes the error of a command on keys, after the SELECT of this number was refused, if there is memory for it, and
/// room for `beside` bytes after it. The error is made in `text`. Returns whether there was. If not, `reply` is as
/// before.
fn has_told(refused: Option<i64>, text: &mut Vec<u8>, beside: usize, reply: &mut Vec<u8>) -> bool
    ensures { MatchBool result (reply.new.items ≡ reply.old.items ++ flat_map token (Failure (no_database refused) ∷ [])) (reply.new.items ≡ reply.old.items) }
{
    match put_no_database(refused, text) {
        Ok(()) => has_pushed(text.as_slice(), beside, reply),
        Err(_) => false,
    }
}

/// Answers a command on keys after the SELECT of this number was refused: by an error, which is made in `text`. If
/// memory is refused for it, the reply is that error.
pub(crate) fn push_no_database(
    refused: Option<i64>,
    text: &mut Vec<u8>,
    beside: usize,
    reply: &mut Vec<u8>,
) -> Result<(), AllocError>
    ensures { OnOk result ((rs : List Token) × (reply.new.items ≡ reply.old.items ++ flat_map token rs) × IsUnselected refused rs) }
{
    if has_told(refused, text, beside, reply) {
        return Ok(());
    }
    push_one_failure(reply, text_of(MapRefusal::Memory))
}
