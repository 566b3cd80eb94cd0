//! Runs a command, by the module that carries it out.
ghost use Rattle.std.specs.Prelude.{◌≡◌, ◌++◌, true, ℕ, List, OnOk, OnErr};
ghost use Rattle.std.specs.List.{flat_map};
ghost use Rattle.resp.specs.Replies.{Token, token};
ghost use Rattle.commands.specs.Arguments.{listed};
ghost use Rattle.server_commands.specs.Replying.{AreReplies, Replies};
ghost use Rattle.version_words.specs.Views.{Goes};
ghost use Rattle.far_server.specs.Looks.{WasLookedAt};
ghost use Rattle.far_server.specs.Reads.{IsReadAt};
ghost use Rattle.far_server.specs.Runs.{IsOfKeys, IsOther, IsRunAs, IsRunBy, IsRunFrom, IsRequest};

use crate::all_keys::{answer_flush, answer_scan};
use crate::connection::Connection;
use crate::context::{ServerContext, Workspace};
use crate::info::{answer_server, keys_in};
use crate::one_key::{Asking, answer_key};
use crate::one_reply::{
    push_one_failure, push_one_fault, push_one_number, push_one_simple, push_one_string,
};
use crate::random_key::answer_random_key;
use crate::refusal::text_of;
use crate::reserve::has_room_for;
use crate::selection::{Selection, answer_select, is_on_keys, push_no_database, selects};
use crate::several_keys::{count_keys, get_keys, set_pairs};
use crate::slow_log::{is_secret, note_slow};
use crate::usage::FarUsage;
use commands::{Arguments, Command, CommandFault, OfKeys, OfNothing, ServerCommand, read};
use far_blob::Blob;
use far_map::{Calls, MapRefusal};
use key_commands::{KeyCommand, on_one_key};
use std::alloc::{AllocError, Global};
use std::rt::Clock;
use std::sync::Wait;
use stored_keys::Keyspace;

/// A command on these keys: DEL, UNLINK, EXISTS, TOUCH or MGET.
fn run_keys<S: Calls<Blob>, R: Wait>(
    rt: &R,
    alloc: Global,
    me: &mut S,
    of: OfKeys,
    keys: Arguments<'_>,
    keyspace: Keyspace,
    now: u64,
    most: u32,
    limit: usize,
    usage: &FarUsage,
    workspace: &mut Workspace,
    reply: &mut Vec<u8>,
) -> Result<(), AllocError>
    ensures { OnOk result ((rs : List Token) × (reply.new.items ≡ reply.old.items ++ flat_map token rs) × AreReplies 1 rs × IsOfKeys S.limits keyspace now most limit of (listed keys.entry) (S.shown me.old) (S.shown me.new) rs) }
{
    let deletes = Asking {
        command: KeyCommand::Delete,
        keyspace,
        now,
        most,
        usage,
    };
    let looks = Asking {
        command: KeyCommand::Exists,
        keyspace,
        now,
        most,
        usage,
    };
    let gets = Asking {
        command: KeyCommand::Get,
        keyspace,
        now,
        most,
        usage,
    };
    match of {
        OfKeys::Del => count_keys(rt, alloc, me, keys, deletes, workspace, reply),
        OfKeys::Unlink => count_keys(rt, alloc, me, keys, deletes, workspace, reply),
        OfKeys::Exists => count_keys(rt, alloc, me, keys, looks, workspace, reply),
        OfKeys::Touch => count_keys(rt, alloc, me, keys, looks, workspace, reply),
        OfKeys::MGet => get_keys(rt, alloc, me, keys, gets, limit, workspace, reply),
    }
}

/// Answers a command that changes no key. If memory is refused for the reply, `reply` is as before.
fn answer_at_hand<S: Calls<Blob>, C: Clock, R: Wait>(
    context: &ServerContext<'_, C, R>,
    me: &mut S,
    connection: &mut Connection,
    workspace: &mut Workspace,
    command: Command<'_>,
    database: u8,
    now: u64,
    reply: &mut Vec<u8>,
) -> Result<(), AllocError>
    ensures goes { Goes (S.shown me.old).pass (S.shown me.new).pass }
    ensures said { OnOk result (Replies 1 reply.old.items reply.new.items) }
    ensures kept { OnErr result (reply.new.items ≡ reply.old.items) }
    ensures queue { connection.new.queue ≡ connection.old.queue }
    ensures selected { connection.new.selected ≡ connection.old.selected }
    ensures stays { connection.old.is_authenticated ≡ true → connection.new.is_authenticated ≡ true }
{
    match command {
        Command::Nothing(OfNothing::DbSize) => push_one_number(reply, keys_in(context, database)),
        Command::Nothing(OfNothing::RandomKey) => answer_random_key(
            context, me, workspace, database, now, reply,
        ),
        Command::Ping(None) => push_one_simple(reply, b"PONG"),
        Command::Ping(Some(text)) => push_one_string(reply, text),
        Command::Echo(text) => push_one_string(reply, text),
        Command::Server(command) => answer_server(context, me, connection, command, now, reply),
        _ => push_one_simple(reply, b"OK"),
    }
}

/// The same. If memory is refused for the reply, or for the room that it has to leave free, the reply is that
/// error.
fn answer_or_refuse<S: Calls<Blob>, C: Clock, R: Wait>(
    context: &ServerContext<'_, C, R>,
    me: &mut S,
    connection: &mut Connection,
    workspace: &mut Workspace,
    command: Command<'_>,
    database: u8,
    now: u64,
    reply: &mut Vec<u8>,
) -> Result<(), AllocError>
    ensures goes { Goes (S.shown me.old).pass (S.shown me.new).pass }
    ensures said { OnOk result ((rs : List Token) × (reply.new.items ≡ reply.old.items ++ flat_map token rs) × AreReplies 1 rs) }
    ensures queue { connection.new.queue ≡ connection.old.queue }
    ensures selected { connection.new.selected ≡ connection.old.selected }
    ensures stays { connection.old.is_authenticated ≡ true → connection.new.is_authenticated ≡ true }
{
    let before = reply.len();
    match answer_at_hand(
        context, me, connection, workspace, command, database, now, reply,
    ) {
        Ok(()) => {
            if has_room_for(workspace.beside, reply) {
                return Ok(());
            }
            reply.truncate(before);
        }
        Err(_) => {}
    }
    push_one_failure(reply, text_of(MapRefusal::Memory))
}

/// Runs a command on several keys, or on none, in this keyspace.
fn run_other<S: Calls<Blob>, C: Clock, R: Wait>(
    context: &ServerContext<'_, C, R>,
    me: &mut S,
    connection: &mut Connection,
    workspace: &mut Workspace,
    command: Command<'_>,
    keyspace: Keyspace,
    now: u64,
    limit: usize,
    reply: &mut Vec<u8>,
) -> Result<(), AllocError>
    ensures ran { OnOk result ((rs : List Token) × (reply.new.items ≡ reply.old.items ++ flat_map token rs) × AreReplies 1 rs × IsOther S.limits keyspace now context.now.settings.now.bounds.longest_value limit command.entry (S.shown me.old) (S.shown me.new) rs) }
    ensures queue { connection.new.queue ≡ connection.old.queue }
    ensures selected { connection.new.selected ≡ connection.old.selected }
    ensures stays { connection.old.is_authenticated ≡ true → connection.new.is_authenticated ≡ true }
{
    let (rt, alloc) = (context.rt, context.alloc);
    let most = context.settings.bounds.longest_value;
    match command {
        Command::Keys(of, keys) => run_keys(
            rt,
            alloc,
            me,
            of,
            keys,
            keyspace,
            now,
            most,
            limit,
            context.usage,
            workspace,
            reply,
        ),
        Command::SetMany(pairs) => set_pairs(
            rt,
            alloc,
            me,
            pairs,
            keyspace,
            now,
            most,
            context.usage,
            workspace,
            reply,
        ),
        Command::Server(ServerCommand::Scan(scan)) => {
            answer_scan(
                rt,
                alloc,
                me,
                keyspace.database,
                scan,
                now,
                workspace.beside,
                context.usage,
                reply,
            )
        }
        Command::Server(ServerCommand::FlushAll) => {
            answer_flush(rt, alloc, me, None, context.usage, workspace, reply)
        }
        Command::Server(ServerCommand::FlushDb) => {
            let database = Some(keyspace.database);
            answer_flush(rt, alloc, me, database, context.usage, workspace, reply)
        }
        _ => answer_or_refuse(
            context,
            me,
            connection,
            workspace,
            command,
            keyspace.database,
            now,
            reply,
        ),
    }
}

/// Runs a command that is no SELECT in this keyspace: on one key, or another one.
fn run_in<S: Calls<Blob>, C: Clock, R: Wait>(
    context: &ServerContext<'_, C, R>,
    me: &mut S,
    connection: &mut Connection,
    workspace: &mut Workspace,
    command: Command<'_>,
    keyspace: Keyspace,
    now: u64,
    limit: usize,
    reply: &mut Vec<u8>,
) -> Result<(), AllocError>
    ensures ran { OnOk result ((rs : List Token) × (reply.new.items ≡ reply.old.items ++ flat_map token rs) × AreReplies 1 rs × IsRunAs S.limits keyspace now context.now.settings.now.bounds.longest_value limit command.entry (S.shown me.old) (S.shown me.new) rs) }
    ensures queue { connection.new.queue ≡ connection.old.queue }
    ensures selected { connection.new.selected ≡ connection.old.selected }
    ensures stays { connection.old.is_authenticated ≡ true → connection.new.is_authenticated ≡ true }
{
    match on_one_key(command) {
        Some((key, command)) => {
            let most = context.settings.bounds.longest_value;
            let asking = Asking {
                command,
                keyspace,
                now,
                most,
                usage: context.usage,
            };
            answer_key(context.rt, context.alloc, me, key, asking, workspace, reply)
        }
        None => run_other(
            context, me, connection, workspace, command, keyspace, now, limit, reply,
        ),
    }
}

/// Runs a command that is no SELECT, by what the connection has selected. If nothing is, a command on keys is an error.
fn run_selected<S: Calls<Blob>, C: Clock, R: Wait>(
    context: &ServerContext<'_, C, R>,
    me: &mut S,
    connection: &mut Connection,
    workspace: &mut Workspace,
    command: Command<'_>,
    now: u64,
    limit: usize,
    reply: &mut Vec<u8>,
) -> Result<(), AllocError>
    ensures ran { OnOk result ((rs : List Token) × (reply.new.items ≡ reply.old.items ++ flat_map token rs) × AreReplies 1 rs × IsRunBy S.limits context.now.settings.now.digest_keys now context.now.settings.now.bounds.longest_value limit command.entry connection.old.selected (S.shown me.old) (S.shown me.new) rs) }
    ensures queue { connection.new.queue ≡ connection.old.queue }
    ensures selected { connection.new.selected ≡ connection.old.selected }
    ensures stays { connection.old.is_authenticated ≡ true → connection.new.is_authenticated ≡ true }
{
    let digest_keys = context.settings.digest_keys;
    match connection.selected {
        Selection::Database(database) => {
            let keyspace = Keyspace {
                digest_keys,
                database,
            };
            run_in(
                context, me, connection, workspace, command, keyspace, now, limit, reply,
            )
        }
        Selection::Refused(refused) => {
            if is_on_keys(command) {
                let beside = workspace.beside;
                return push_no_database(refused, &mut workspace.stored, beside, reply);
            }
            // The command is on no key, so it does the same in any database.
            let keyspace = Keyspace {
                digest_keys,
                database: 0,
            };
            run_in(
                context, me, connection, workspace, command, keyspace, now, limit, reply,
            )
        }
    }
}

/// Runs a command: SELECT, or another one.
fn run_command<S: Calls<Blob>, C: Clock, R: Wait>(
    context: &ServerContext<'_, C, R>,
    me: &mut S,
    connection: &mut Connection,
    workspace: &mut Workspace,
    command: Command<'_>,
    now: u64,
    limit: usize,
    reply: &mut Vec<u8>,
) -> Result<(), AllocError>
    ensures ran { OnOk result ((rs : List Token) × (reply.new.items ≡ reply.old.items ++ flat_map token rs) × AreReplies 1 rs × IsRunFrom S.limits context.now.settings.now.digest_keys context.now.settings.now.bounds limit now command.entry connection.old.selected connection.new.selected (S.shown me.old) (S.shown me.new) rs) }
    ensures queue { connection.new.queue ≡ connection.old.queue }
    ensures stays { connection.old.is_authenticated ≡ true → connection.new.is_authenticated ≡ true }
{
    match selects(command) {
        Some(index) => answer_select(
            context.settings.bounds.last_database,
            connection,
            index,
            workspace.beside,
            reply,
        ),
        None => run_selected(
            context, me, connection, workspace, command, now, limit, reply,
        ),
    }
}

/// Reads a request: the command that it spells, or the fault that Redis would find first.
pub(crate) fn read_request(
    request: Arguments<'_>,
    now: u64,
) -> Result<Command<'_>, CommandFault<'_>>
    ensures { IsReadAt now (listed request.entry) result }
{
    read(request, now)
}

/// Runs a request that was read, and measures its command for SLOWLOG. The reply is that of its command, or the fault that Redis would find first.
/// `limit` is how many bytes the reply may have.
pub(crate) fn run<S: Calls<Blob>, C: Clock, R: Wait>(
    context: &ServerContext<'_, C, R>,
    me: &mut S,
    connection: &mut Connection,
    workspace: &mut Workspace,
    request: Arguments<'_>,
    asked: Result<Command<'_>, CommandFault<'_>>,
    now: u64,
    limit: usize,
    reply: &mut Vec<u8>,
) -> Result<(), AllocError>
    requires read { IsReadAt now (listed request) asked }
    requires looked { WasLookedAt now }
    ensures ran { OnOk result ((rs : List Token) × (reply.new.items ≡ reply.old.items ++ flat_map token rs) × IsRequest S.limits context.now.settings.now.digest_keys context.now.settings.now.bounds limit connection.old.selected connection.new.selected (listed request.entry) (S.shown me.old) (S.shown me.new) rs) }
    ensures queue { connection.new.queue ≡ connection.old.queue }
    ensures stays { connection.old.is_authenticated ≡ true → connection.new.is_authenticated ≡ true }
{
    match asked {
        Ok(command) => {
            let is_secret = is_secret(&command);
            let began = context.slow_log.begin(context.clock);
            let done = run_command(
                context, me, connection, workspace, command, now, limit, reply,
            );
            note_slow(context, connection, request, is_secret, now, began);
            done
        }
        Err(fault) => push_one_fault(reply, fault, workspace.beside),
    }
}
