//! MULTI, EXEC and DISCARD: what waits between them, and how EXEC runs it.
ghost use Rattle.std.specs.Prelude.{◌≡◌, ◌++◌, ◌∷◌, true, ℕ, List, length, OnOk};
ghost use Rattle.std.specs.List.{flat_map};
ghost use Rattle.resp.specs.Replies.{Token, Count, token};
ghost use Rattle.commands.specs.Arguments.{listed};
ghost use Rattle.far_server.specs.Queues.{held, waiting};
ghost use Rattle.far_server.specs.Transactions.{waits_of, waits_in, IsBegun, IsDropped, IsHeld};
ghost use Rattle.far_server.specs.Looks.{WasLookedAt};
ghost use Rattle.far_server.specs.Reads.{IsRead};
ghost use Rattle.far_server.specs.Runs.{IsRequest};
ghost use Rattle.far_server.specs.Answers.{AreExecutedEach, IsExecuted};

use crate::bound::{TOO_LARGE, may_grow_to};
use crate::command::{read_request, run};
use crate::connection::Connection;
use crate::context::{ServerContext, Workspace};
use crate::one_reply::{push_one_failure, push_one_fault, push_one_simple};
use crate::queue::{Queue, Request};
use crate::refusal::text_of;
use crate::reserve::{errors_of, has_room_for_short, push_failures};
use commands::{Arguments, Command, CommandFault, Name, Special};
use far_blob::Blob;
use far_map::{Calls, MapRefusal};
use resp::push_count;
use std::alloc::{AllocError, Global};
use std::rt::Clock;
use std::sync::Wait;

const NESTED: &[u8] = b"ERR MULTI calls can not be nested";

const NO_MULTI_BEFORE_EXEC: &[u8] = b"ERR EXEC without MULTI";

const NO_MULTI_BEFORE_DISCARD: &[u8] = b"ERR DISCARD without MULTI";

const SPOILT: &[u8] = b"EXECABORT Transaction discarded because of previous errors.";

const FULL_QUEUE: &[u8] = b"ERR too many bytes wait for EXEC";

/// Whether a fault of a request makes EXEC run none of the requests after the MULTI. That is so if the
/// request has a wrong name or a wrong number of arguments.
///
/// Any other fault is EXEC's reply to that request. So is a wrong number of arguments that PING itself
/// refuses, or MSET if it has three words or more. `arguments` counts the command's name too.
fn spoils(fault: &CommandFault<'_>, arguments: usize) -> bool {
    match fault {
        CommandFault::Count(Name::Special(Special::Ping)) => false,
        CommandFault::Count(Name::Special(Special::MSet)) => arguments < 3,
        CommandFault::Unknown(_)
        | CommandFault::Refused(_)
        | CommandFault::Keys
        | CommandFault::Subcommand(_, _)
        | CommandFault::Count(_)
        | CommandFault::SubcommandCount(_)
        | CommandFault::SlowLogCount(_) => true,
        _ => false,
    }
}

/// Queues a request for EXEC, and replies QUEUED. In these cases the reply is an error, and EXEC will run
/// none of the requests:
/// - a fault of the request spoils the transaction (`spoils`);
/// - the requests that wait would take more than `most` bytes;
/// - memory is refused.
pub(crate) fn wait(
    alloc: Global,
    most: u32,
    queue: &mut Queue,
    request: Arguments<'_>,
    asked: Result<Command<'_>, CommandFault<'_>>,
    reply: &mut Vec<u8>,
) -> Result<(), AllocError>
    requires { IsRead (listed request) asked }
    ensures { OnOk result ((rs : List Token) × (reply.new.items ≡ reply.old.items ++ flat_map token rs) × IsHeld (waits_of queue.old) (waits_of queue.new) (listed request.entry) rs) }
{
    if let Err(fault) = asked {
        if spoils(&fault, request.spans.len()) {
            queue.spoil();
            return push_one_fault(reply, fault, 0);
        }
    }
    if !queue.has_room(request, most) {
        queue.spoil();
        return push_one_failure(reply, FULL_QUEUE);
    }
    match queue.push(alloc, request) {
        Ok(()) => push_one_simple(reply, b"QUEUED"),
        Err(_) => {
            queue.spoil();
            push_one_failure(reply, text_of(MapRefusal::Memory))
        }
    }
}

/// Runs a request that waited. `limit` is how many bytes its reply may have.
fn run_waiting<S: Calls<Blob>, C: Clock, R: Wait>(
    context: &ServerContext<'_, C, R>,
    me: &mut S,
    connection: &mut Connection,
    workspace: &mut Workspace,
    request: &Request,
    now: u64,
    limit: usize,
    reply: &mut Vec<u8>,
) -> Result<(), AllocError>
    requires { WasLookedAt now }
    ensures ran { OnOk result ((rs : List Token) × (reply.new.items ≡ reply.old.items ++ flat_map token rs) × IsRequest S.limits context.now.settings.now.digest_keys context.now.settings.now.bounds limit connection.old.selected connection.new.selected (held request.now) (S.shown me.old) (S.shown me.new) rs) }
    ensures queue { connection.new.queue ≡ connection.old.queue }
    ensures stays { connection.old.is_authenticated ≡ true → connection.new.is_authenticated ≡ true }
{
    let request = request.arguments();
    let asked = read_request(request, now);
    run(
        context, me, connection, workspace, request, asked, now, limit, reply,
    )
}

/// Runs the requests that wait, one after another. The reply is an array of their replies.
///
/// It stops at the first request before which the reply has no room for one more value, or there is no memory
/// for a short reply. The reply to that request, and to each one after it, is an error then.
fn execute<S: Calls<Blob>, C: Clock, R: Wait>(
    context: &ServerContext<'_, C, R>,
    me: &mut S,
    connection: &mut Connection,
    workspace: &mut Workspace,
    queue: &Queue,
    now: u64,
    reply: &mut Vec<u8>,
) -> Result<(), AllocError>
    requires { WasLookedAt now }
    ensures ran { OnOk result ((rs : List Token) × (reply.new.items ≡ reply.old.items ++ flat_map token rs) × ((each : List Token) × AreExecutedEach S.limits context.now.settings.now.digest_keys context.now.settings.now.bounds (waiting queue.now) each connection.old.selected connection.new.selected (S.shown me.old) (S.shown me.new) × (rs ≡ Count (length (waiting queue.now)) ∷ each))) }
    ensures queue { connection.new.queue ≡ connection.old.queue }
    ensures stays { connection.old.is_authenticated ≡ true → connection.new.is_authenticated ≡ true }
{
    let bounds = context.settings.bounds;
    let limit = bounds.longest_reply as usize;
    let before = reply.len();
    let requests = queue.requests();
    match push_count(reply, requests.len()) {
        Ok(()) => {}
        Err(refused) => return Err(refused),
    }
    for at in 0..requests.len() {
        let left = requests.len() - at;
        let used = reply.len() - before;
        if !may_grow_to(limit, used, bounds.longest_value) {
            return push_failures(reply, left, TOO_LARGE);
        }
        workspace.beside = errors_of(left - 1);
        if !has_room_for_short(workspace.beside, reply) {
            return push_failures(reply, left, text_of(MapRefusal::Memory));
        }
        let request = &requests[at];
        match run_waiting(
            context,
            me,
            connection,
            workspace,
            request,
            now,
            limit - used,
            reply,
        ) {
            Ok(()) => {}
            Err(refused) => return Err(refused),
        }
    }
    Ok(())
}

/// Answers EXEC, after which nothing waits any more. First it makes room for an error of each request. If
/// memory is refused for that, EXEC is refused as a whole.
pub(crate) fn answer_exec<S: Calls<Blob>, C: Clock, R: Wait>(
    context: &ServerContext<'_, C, R>,
    me: &mut S,
    connection: &mut Connection,
    workspace: &mut Workspace,
    now: u64,
    reply: &mut Vec<u8>,
) -> Result<(), AllocError>
    requires { WasLookedAt now }
    ensures executed { OnOk result ((rs : List Token) × (reply.new.items ≡ reply.old.items ++ flat_map token rs) × IsExecuted S.limits context.now.settings.now.digest_keys context.now.settings.now.bounds (waits_in connection.old.queue) (waits_in connection.new.queue) connection.old.selected connection.new.selected (S.shown me.old) (S.shown me.new) rs) }
    ensures stays { connection.old.is_authenticated ≡ true → connection.new.is_authenticated ≡ true }
{
    match connection.queue.take() {
        None => push_one_failure(reply, NO_MULTI_BEFORE_EXEC),
        Some(queue) => {
            if queue.is_spoilt() {
                return push_one_failure(reply, SPOILT);
            }
            if !has_room_for_short(errors_of(queue.requests().len()), reply) {
                return push_one_failure(reply, text_of(MapRefusal::Memory));
            }
            let done = execute(context, me, connection, workspace, &queue, now, reply);
            workspace.beside = 0;
            done
        }
    }
}

/// Answers MULTI: from now on requests wait for EXEC. A MULTI after another one is an error.
pub(crate) fn answer_multi(
    alloc: Global,
    connection: &mut Connection,
    reply: &mut Vec<u8>,
) -> Result<(), AllocError>
    ensures begun { OnOk result ((rs : List Token) × (reply.new.items ≡ reply.old.items ++ flat_map token rs) × IsBegun (waits_in connection.old.queue) (waits_in connection.new.queue) rs) }
    ensures is_authenticated { connection.new.is_authenticated ≡ connection.old.is_authenticated }
    ensures selected { connection.new.selected ≡ connection.old.selected }
{
    match connection.queue.take() {
        Some(queue) => {
            connection.queue = Some(queue);
            push_one_failure(reply, NESTED)
        }
        None => {
            connection.queue = Some(Queue::new(alloc));
            push_one_simple(reply, b"OK")
        }
    }
}

/// Answers DISCARD: drops what waits. Without a MULTI before it that is an error.
pub(crate) fn answer_discard(
    connection: &mut Connection,
    reply: &mut Vec<u8>,
) -> Result<(), AllocError>
    ensures dropped { OnOk result ((rs : List Token) × (reply.new.items ≡ reply.old.items ++ flat_map token rs) × IsDropped (waits_in connection.old.queue) (waits_in connection.new.queue) rs) }
    ensures is_authenticated { connection.new.is_authenticated ≡ connection.old.is_authenticated }
    ensures selected { connection.new.selected ≡ connection.old.selected }
{
    let Some(_) = connection.queue.take() else {
        return push_one_failure(reply, NO_MULTI_BEFORE_DISCARD);
    };
    push_one_simple(reply, b"OK")
}
