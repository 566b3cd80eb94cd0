//! Commands to the server itself, and about a connection, for example INFO and CLIENT SETNAME.
ghost use Rattle.std.specs.Prelude.{◌≡◌, ◌⊎◌, true, OnOk, OnErr};
ghost use Rattle.server_commands.specs.Replying.{Replies};
ghost use Rattle.far_server.specs.Logins.{AsksToPass};

use crate::connection::Connection;
use crate::context::{ServerContext, Workspace};
use crate::login::{answer_auth, answer_hello, answer_set_name};
use crate::one_reply::{push_one_nothing, push_one_number, push_one_simple, push_one_string};
use crate::renewal::Renewal;
use crate::statistics::GatewayTold;
use crate::usage::FarUsage;
use commands::ServerCommand;
use far_blob::Blob;
use far_map::Calls;
use server_commands::{
    Facts, Statistic, Statistics, command_count, command_docs, command_list, config_get, info,
    slow_log_len,
};
use std::alloc::AllocError;
use std::array;
use std::sync::Wait;
use std::sync::atomic::Ordering;

/// How many keys of a database have a value, by what the workers last published.
pub(crate) fn keys_in<C, R>(context: &ServerContext<'_, C, R>, database: u8) -> i64 {
    let keys = context.shared_statistics.keys_in(usize::from(database));
    keys.min(i64::MAX as u64) as i64
}

/// Sets what the gateway has reported.
fn set_of_gateway(statistics: &mut Statistics, gateway: &GatewayTold) {
    for (statistic, number) in [
        (Statistic::RejectedConnections, &gateway.rejected),
        (Statistic::EvictedClients, &gateway.evicted),
        (Statistic::ClientsMemory, &gateway.memory),
        (Statistic::ResidentBytes, &gateway.resident),
    ] {
        statistics.set(statistic, number.load(Ordering::SeqCst));
    }
}

/// Sets what the devices have reported, and what is known of the renewals.
fn set_of_parts(statistics: &mut Statistics, usage: &FarUsage, renewal: &Renewal) {
    for (statistic, number) in [
        (Statistic::FarObjects, usage.objects()),
        (Statistic::LostBuckets, usage.lost()),
        (Statistic::FarBytes, usage.bytes()),
        (Statistic::RestingDevices, usage.resting()),
        (Statistic::Renewals, renewal.count()),
        (Statistic::RenewalLostPairs, renewal.lost_pairs()),
        (Statistic::RenewalLostBuckets, renewal.lost_buckets()),
        (Statistic::RenewalLastMs, renewal.pause()),
    ] {
        statistics.set(statistic, number);
    }
}

/// The statistics of the whole server.
fn statistics<S: Calls<Blob>, C, R>(context: &ServerContext<'_, C, R>, me: &S) -> Statistics {
    let mut all = context.shared_statistics.sum();
    set_of_gateway(&mut all, &context.shared_statistics.gateway);
    set_of_parts(&mut all, context.usage, context.renewal);
    all.set(Statistic::Keys, context.shared_statistics.keys());
    all.set(Statistic::BytesInFrames, me.bytes_in_frames());
    all.set(Statistic::NamesLeft, me.names_left());
    // If the devices keep nothing, each of their refusals is counted as a failure. INFO reports none then.
    if !context.settings.is_far {
        all.set(Statistic::DeviceFailures, 0);
    }
    all
}

/// What INFO reports.
fn facts<S: Calls<Blob>, C, R>(context: &ServerContext<'_, C, R>, me: &S, now: u64) -> Facts {
    let settings = context.settings;
    // If the devices keep nothing, each of their refusals is a failure. INFO reports none then.
    let (last_device_error, last_device_error_time, device_errors) = if settings.is_far {
        let usage = context.usage;
        (usage.last_reason(), usage.last_time(), usage.failures())
    } else {
        (None, 0, [0; 10])
    };
    Facts {
        now,
        started: context.started,
        workers: settings.workers,
        port: settings.options.port,
        most_clients: settings.options.most_clients,
        most_memory: settings.options.most_memory,
        evicts: settings.options.evicts,
        buckets: settings.map.buckets,
        frames: settings.map.frames,
        most_in_frames: settings.map.bytes,
        far_limit: settings.far_limit,
        statistics: statistics(context, me),
        keys: array::from_fn(|database| context.shared_statistics.keys_in(database)),
        last_device_error,
        last_device_error_time,
        device_errors,
    }
}

/// Answers a command that asks for no value.
pub(crate) fn answer_server<S: Calls<Blob>, C, R: Wait>(
    context: &ServerContext<'_, C, R>,
    me: &S,
    connection: &mut Connection,
    command: ServerCommand<'_>,
    now: u64,
    reply: &mut Vec<u8>,
) -> Result<(), AllocError>
    ensures said { OnOk result (Replies 1 reply.old.items reply.new.items) }
    ensures kept { OnErr result (reply.new.items ≡ reply.old.items) }
    ensures login { connection.new.is_authenticated ≡ true → (connection.old.is_authenticated ≡ true) ⊎ AsksToPass context.now.settings.now.password command.entry }
    ensures queue { connection.new.queue ≡ connection.old.queue }
    ensures selected { connection.new.selected ≡ connection.old.selected }
    ensures stays { connection.old.is_authenticated ≡ true → connection.new.is_authenticated ≡ true }
{
    match command {
        ServerCommand::Auth(login) => answer_auth(context.settings, connection, login, reply),
        ServerCommand::Hello(greeting) => answer_hello(
            context.settings,
            connection,
            greeting,
            reply,
        ),
        ServerCommand::ClientId => push_one_number(
            reply,
            connection.id.min(i64::MAX as u64) as i64,
        ),
        ServerCommand::ClientGetName => push_name(reply, connection),
        ServerCommand::ClientSetName(name) => answer_set_name(connection, name, reply),
        ServerCommand::CommandList => command_list(reply),
        ServerCommand::CommandCount => command_count(reply),
        ServerCommand::CommandDocs(names) => command_docs(names, reply),
        ServerCommand::ConfigGet(patterns) => config_get(
            &context.settings.options,
            patterns,
            reply,
        ),
        ServerCommand::SlowLogLen => slow_log_len(context.slow_log.len(context.rt), reply),
        ServerCommand::SlowLogGet(most) => context.slow_log.push(context.rt, most, reply),
        ServerCommand::SlowLogReset => answer_slow_log_reset(context, reply),
        ServerCommand::Info(sections) => info(&facts(context, me, now), sections, reply),
        _ => push_one_simple(reply, b"OK"),
    }
}

/// SLOWLOG RESET: nothing is kept of earlier commands.
fn answer_slow_log_reset<C, R: Wait>(
    context: &ServerContext<'_, C, R>,
    reply: &mut Vec<u8>,
) -> Result<(), AllocError>
    ensures said { OnOk result (Replies 1 reply.old.items reply.new.items) }
    ensures kept { OnErr result (reply.new.items ≡ reply.old.items) }
{
    context.slow_log.reset(context.rt);
    push_one_simple(reply, b"OK")
}

fn push_name(reply: &mut Vec<u8>, connection: &Connection) -> Result<(), AllocError>
    ensures said { OnOk result (Replies 1 reply.old.items reply.new.items) }
    ensures kept { OnErr result (reply.new.items ≡ reply.old.items) }
{
    if connection.name.is_empty() {
        push_one_nothing(reply)
    } else {
        push_one_string(reply, connection.name.as_slice())
    }
}
