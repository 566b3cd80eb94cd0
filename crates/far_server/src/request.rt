//! One request: who may ask, whether it waits for EXEC, and what is done at once.
ghost use Rattle.std.specs.Prelude.{◌≡◌, ◌⊎◌, ◌++◌, ◌∷◌, [], true, false, Ok, ℕ, List, codes, IfOk, OnOk};
ghost use Rattle.std.specs.List.{flat_map};
ghost use Rattle.resp.specs.Replies.{Token, Simple, token};
ghost use Rattle.commands.specs.Arguments.{listed};
ghost use Rattle.commands.specs.Commands.{Spells};
ghost use Rattle.commands.specs.declared.command.Command.TheVariants as commands;
ghost use Rattle.request_loop.specs.declared.service.Next.TheVariants as behind;
ghost use Rattle.far_server.specs.Looks.{WasLookedAt};
ghost use Rattle.far_server.specs.Reads.{IsSpelled, IsReadAt, IsRead};
ghost use Rattle.far_server.specs.Logins.{HasLogin, Exceeds};
ghost use Rattle.far_server.specs.Answers.{known, unknown, IsRunOrHeld, IsServedAs, IsServed, IsGatedAs, IsGatedBy, IsGated, IsClosing, IsAnswered};

use crate::command::{read_request, run};
use crate::connection::Connection;
use crate::context::{ServerContext, Workspace, milliseconds};
use crate::login::{NO_LOGIN, answer_auth, answer_hello, excess_of};
use crate::one_reply::{push_one_failure, push_one_fault, push_one_simple};
use crate::selection::Selection;
use crate::settings::ServerSettings;
use crate::transaction::{answer_discard, answer_exec, answer_multi, wait};
use commands::{Arguments, Command, CommandFault, OfNothing, ServerCommand};
use far_blob::Blob;
use far_map::Calls;
use request_loop::Next;
use std::alloc::AllocError;
use std::rt::Clock;
use std::sync::Wait;

/// RESET: the connection becomes as a new one, except for its `id`.
fn answer_reset(
    settings: &ServerSettings,
    connection: &mut Connection,
    reply: &mut Vec<u8>,
) -> Result<(), AllocError>
    ensures said { OnOk result (reply.new.items ≡ reply.old.items ++ flat_map token (Simple (codes "RESET") ∷ [])) }
    ensures known { known connection.new ≡ unknown settings.now.password }
{
    connection.is_authenticated = settings.password.is_none();
    connection.name.clear();
    connection.queue = None;
    connection.selected = Selection::Database(0);
    push_one_simple(reply, b"RESET")
}

/// Queues a request for EXEC if a MULTI came before it, and runs it otherwise.
fn wait_or_run<S: Calls<Blob>, C: Clock, R: Wait>(
    context: &ServerContext<'_, C, R>,
    me: &mut S,
    connection: &mut Connection,
    workspace: &mut Workspace,
    request: Arguments<'_>,
    asked: Result<Command<'_>, CommandFault<'_>>,
    now: u64,
    reply: &mut Vec<u8>,
) -> Result<(), AllocError>
    requires read { IsReadAt now (listed request) asked }
    requires looked { WasLookedAt now }
    ensures served { OnOk result ((rs : List Token) × (reply.new.items ≡ reply.old.items ++ flat_map token rs) × IsRunOrHeld S.limits context.now.settings.now.digest_keys context.now.settings.now.bounds (known connection.old) (known connection.new) (listed request.entry) (S.shown me.old) (S.shown me.new) rs) }
    ensures stays { connection.old.is_authenticated ≡ true → connection.new.is_authenticated ≡ true }
{
    match connection.queue.take() {
        None => {
            let limit = context.settings.bounds.longest_reply as usize;
            run(
                context, me, connection, workspace, request, asked, now, limit, reply,
            )
        }
        Some(mut queue) => {
            let most = context.settings.longest_queue;
            let waited = wait(context.alloc, most, &mut queue, request, asked, reply);
            connection.queue = Some(queue);
            waited
        }
    }
}

/// Answers a command without arguments of an authenticated connection. MULTI, EXEC, DISCARD and RESET are done at
/// once, also after a MULTI.
fn answer_nothing<S: Calls<Blob>, C: Clock, R: Wait>(
    context: &ServerContext<'_, C, R>,
    me: &mut S,
    connection: &mut Connection,
    workspace: &mut Workspace,
    request: Arguments<'_>,
    of: OfNothing,
    now: u64,
    reply: &mut Vec<u8>,
) -> Result<(), AllocError>
    requires read { Spells now (listed request) (commands.Nothing of) }
    requires looked { WasLookedAt now }
    requires may { connection.old.is_authenticated ≡ true }
    ensures { OnOk result ((rs : List Token) × (reply.new.items ≡ reply.old.items ++ flat_map token rs) × IsServedAs S.limits context.now.settings.now.digest_keys context.now.settings.now.bounds context.now.settings.now.password (commands.Nothing of) (known connection.old) (known connection.new) (listed request.entry) (S.shown me.old) (S.shown me.new) rs) }
{
    match of {
        OfNothing::Multi => answer_multi(context.alloc, connection, reply),
        OfNothing::Exec => answer_exec(context, me, connection, workspace, now, reply),
        OfNothing::Discard => answer_discard(connection, reply),
        OfNothing::Reset => answer_reset(context.settings, connection, reply),
        _ => wait_or_run(
            context,
            me,
            connection,
            workspace,
            request,
            Ok(Command::Nothing(of)),
            now,
            reply,
        ),
    }
}

/// Answers a command of an authenticated connection.
fn answer_command<S: Calls<Blob>, C: Clock, R: Wait>(
    context: &ServerContext<'_, C, R>,
    me: &mut S,
    connection: &mut Connection,
    workspace: &mut Workspace,
    request: Arguments<'_>,
    command: Command<'_>,
    now: u64,
    reply: &mut Vec<u8>,
) -> Result<(), AllocError>
    requires read { Spells now (listed request) command }
    requires looked { WasLookedAt now }
    requires may { connection.old.is_authenticated ≡ true }
    ensures { OnOk result ((rs : List Token) × (reply.new.items ≡ reply.old.items ++ flat_map token rs) × IsServedAs S.limits context.now.settings.now.digest_keys context.now.settings.now.bounds context.now.settings.now.password command.entry (known connection.old) (known connection.new) (listed request.entry) (S.shown me.old) (S.shown me.new) rs) }
{
    match command {
        Command::Quit => push_one_simple(reply, b"OK"),
        Command::Nothing(of) => answer_nothing(
            context, me, connection, workspace, request, of, now, reply,
        ),
        _ => wait_or_run(
            context,
            me,
            connection,
            workspace,
            request,
            Ok(command),
            now,
            reply,
        ),
    }
}

/// Answers a request of an authenticated connection.
fn answer_authenticated<S: Calls<Blob>, C: Clock, R: Wait>(
    context: &ServerContext<'_, C, R>,
    me: &mut S,
    connection: &mut Connection,
    workspace: &mut Workspace,
    request: Arguments<'_>,
    asked: Result<Command<'_>, CommandFault<'_>>,
    now: u64,
    reply: &mut Vec<u8>,
) -> Result<(), AllocError>
    requires read { IsReadAt now (listed request) asked }
    requires looked { WasLookedAt now }
    requires may { connection.old.is_authenticated ≡ true }
    ensures { OnOk result ((rs : List Token) × (reply.new.items ≡ reply.old.items ++ flat_map token rs) × IsServed S.limits context.now.settings.now.digest_keys context.now.settings.now.bounds context.now.settings.now.password (known connection.old) (known connection.new) (listed request.entry) (S.shown me.old) (S.shown me.new) rs) }
{
    match asked {
        Ok(command) => answer_command(
            context, me, connection, workspace, request, command, now, reply,
        ),
        Err(fault) => wait_or_run(
            context,
            me,
            connection,
            workspace,
            request,
            Err(fault),
            now,
            reply,
        ),
    }
}

/// Answers a server command of an unauthenticated connection: AUTH and HELLO. The others are refused.
fn answer_login(
    settings: &ServerSettings,
    connection: &mut Connection,
    request: Arguments<'_>,
    command: ServerCommand<'_>,
    reply: &mut Vec<u8>,
) -> Result<(), AllocError>
    requires { IsSpelled (listed request) (commands.Server command) }
    ensures gated { OnOk result ((rs : List Token) × (reply.new.items ≡ reply.old.items ++ flat_map token rs) × IsGatedAs settings.now.password (commands.Server command.entry) (known connection.old) (known connection.new) rs) }
    ensures login { connection.new.is_authenticated ≡ true → (connection.old.is_authenticated ≡ true) ⊎ HasLogin settings.now.password (listed request.entry) }
{
    let _ = request;
    match command {
        ServerCommand::Auth(login) => answer_auth(settings, connection, login, reply),
        ServerCommand::Hello(greeting) => answer_hello(settings, connection, greeting, reply),
        _ => push_one_failure(reply, NO_LOGIN),
    }
}

/// Answers a command of an unauthenticated connection: QUIT, RESET, AUTH and HELLO. The others are refused.
fn answer_unauthenticated(
    settings: &ServerSettings,
    connection: &mut Connection,
    request: Arguments<'_>,
    command: Command<'_>,
    reply: &mut Vec<u8>,
) -> Result<(), AllocError>
    requires { IsSpelled (listed request) command }
    ensures gated { OnOk result ((rs : List Token) × (reply.new.items ≡ reply.old.items ++ flat_map token rs) × IsGatedAs settings.now.password command.entry (known connection.old) (known connection.new) rs) }
    ensures login { connection.new.is_authenticated ≡ true → (connection.old.is_authenticated ≡ true) ⊎ HasLogin settings.now.password (listed request.entry) }
{
    match command {
        Command::Quit => push_one_simple(reply, b"OK"),
        Command::Nothing(of) => match of {
            OfNothing::Reset => answer_reset(settings, connection, reply),
            _ => push_one_failure(reply, NO_LOGIN),
        },
        Command::Server(command) => answer_login(settings, connection, request, command, reply),
        _ => push_one_failure(reply, NO_LOGIN),
    }
}

/// Answers a request of an unauthenticated connection: its command, or the fault that was found in it.
fn refuse_or_log_in(
    settings: &ServerSettings,
    connection: &mut Connection,
    request: Arguments<'_>,
    asked: Result<Command<'_>, CommandFault<'_>>,
    reply: &mut Vec<u8>,
) -> Result<(), AllocError>
    requires { IsRead (listed request) asked }
    ensures gated { OnOk result ((rs : List Token) × (reply.new.items ≡ reply.old.items ++ flat_map token rs) × IsGatedBy settings.now.password (known connection.old) (known connection.new) (listed request.entry) rs) }
    ensures login { connection.new.is_authenticated ≡ true → (connection.old.is_authenticated ≡ true) ⊎ HasLogin settings.now.password (listed request.entry) }
{
    match asked {
        Ok(command) => answer_unauthenticated(settings, connection, request, command, reply),
        Err(fault) => push_one_fault(reply, fault, 0),
    }
}

/// What the request loop does after the reply: QUIT ends the connection.
fn next_behind(asked: &Result<Command<'_>, CommandFault<'_>>) -> Next
    ensures { result ≡ behind.End → asked.now ≡ Ok commands.Quit }
{
    match asked {
        Ok(Command::Quit) => Next::End,
        _ => Next::GoOn,
    }
}

/// Answers a request of an unauthenticated connection. If the request is larger than such a connection may
/// send, the reply is an error, and the connection is closed.
fn answer_unknown(
    settings: &ServerSettings,
    connection: &mut Connection,
    request: Arguments<'_>,
    asked: Result<Command<'_>, CommandFault<'_>>,
    next: Next,
    reply: &mut Vec<u8>,
) -> Result<Next, AllocError>
    requires read { IsRead (listed request) asked }
    requires may_not { connection.old.is_authenticated ≡ false }
    requires quits { next ≡ behind.End → IsSpelled (listed request) commands.Quit }
    ensures gated { IfOk result (λ after. (rs : List Token) × (reply.new.items ≡ reply.old.items ++ flat_map token rs) × IsGated settings.now.password (known connection.old) (known connection.new) (listed request.entry) rs × (after ≡ behind.End → IsClosing (known connection.old) (listed request.entry) rs)) }
    ensures login { connection.new.is_authenticated ≡ true → (connection.old.is_authenticated ≡ true) ⊎ HasLogin settings.now.password (listed request.entry) }
    ensures ends { IfOk result (λ after. (text : List ℕ) → Exceeds (listed request.entry) text → after ≡ behind.End) }
{
    if let Some(text) = excess_of(request) {
        return match push_one_failure(reply, text) {
            Ok(()) => Ok(Next::End),
            Err(refused) => Err(refused),
        };
    }
    match refuse_or_log_in(settings, connection, request, asked, reply) {
        Ok(()) => Ok(next),
        Err(refused) => Err(refused),
    }
}

/// Answers a request at the clock's time. It reads the command. What follows depends on whether the
/// connection is authenticated.
pub(crate) fn answer_request<S: Calls<Blob>, C: Clock, R: Wait>(
    context: &ServerContext<'_, C, R>,
    me: &mut S,
    connection: &mut Connection,
    workspace: &mut Workspace,
    request: Arguments<'_>,
    reply: &mut Vec<u8>,
) -> Result<Next, AllocError>
    ensures { IfOk result (λ next. (rs : List Token) × (reply.new.items ≡ reply.old.items ++ flat_map token rs) × IsAnswered S.limits context.now.settings.now.digest_keys context.now.settings.now.password context.now.settings.now.bounds (known connection.old) (known connection.new) (listed request.entry) (S.shown me.old) (S.shown me.new) rs next) }
{
    let now = milliseconds(context.clock);
    let asked = read_request(request, now);
    let next = next_behind(&asked);
    if connection.is_authenticated {
        match answer_authenticated(
            context, me, connection, workspace, request, asked, now, reply,
        ) {
            Ok(()) => Ok(next),
            Err(refused) => Err(refused),
        }
    } else {
        answer_unknown(context.settings, connection, request, asked, next, reply)
    }
}
