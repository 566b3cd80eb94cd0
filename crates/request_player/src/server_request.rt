//! What a request asks of the server itself, in words.

use crate::key_request::put_all;
use crate::reply::Reply;
use commands::{ClientInfo, Greeting, Login, Scan, ServerCommand};
use std::alloc::AllocError;

fn put_login(out: &mut Reply, login: Login<'_>) -> Result<(), AllocError> {
    if let Some(user) = login.user {
        out.put_named("user", user)?;
    }
    out.put_named("password", login.password)
}

fn put_greeting(out: &mut Reply, greeting: Greeting<'_>) -> Result<(), AllocError> {
    out.put("hello")?;
    if let Some(login) = greeting.login {
        put_login(out, login)?;
    }
    if let Some(name) = greeting.name {
        out.put_named("name", name)?;
    }
    Ok(())
}

fn put_scan(out: &mut Reply, scan: Scan<'_>) -> Result<(), AllocError> {
    out.put("scan")?;
    out.put_number(scan.cursor)?;
    out.put_count("count", scan.count)?;
    if let Some(pattern) = scan.pattern {
        out.put_named("match", pattern)?;
    }
    if scan.strings {
        Ok(())
    } else {
        out.put("without-strings")
    }
}

fn put_client(out: &mut Reply, asked: ServerCommand<'_>) -> Result<(), AllocError> {
    out.put("client")?;
    match asked {
        ServerCommand::ClientId => out.put("id"),
        ServerCommand::ClientGetName => out.put("getname"),
        ServerCommand::ClientSetName(name) => {
            out.put("setname")?;
            out.put_bytes(name)
        }
        ServerCommand::ClientSetInfo(info, value) => {
            out.put("setinfo")?;
            out.put(match info {
                ClientInfo::LibraryName => "lib-name",
                ClientInfo::LibraryVersion => "lib-ver",
            })?;
            out.put_bytes(value)
        }
        _ => out.put("no-evict off"),
    }
}

fn put_slow_log_get(out: &mut Reply, most: Option<u64>) -> Result<(), AllocError> {
    out.put("slowlog get")?;
    match most {
        Some(most) => out.put_number(most),
        None => out.put("all"),
    }
}

/// Puts the command.
pub(crate) fn put_server(out: &mut Reply, asked: ServerCommand<'_>) -> Result<(), AllocError> {
    match asked {
        ServerCommand::Auth(login) => {
            out.put("auth")?;
            put_login(out, login)
        }
        ServerCommand::Hello(greeting) => put_greeting(out, greeting),
        ServerCommand::Select(index) => {
            out.put("select")?;
            out.put_bytes(index)
        }
        ServerCommand::CommandList => out.put("command"),
        ServerCommand::CommandCount => out.put("command count"),
        ServerCommand::CommandDocs(names) => {
            out.put("command docs")?;
            put_all(out, names)
        }
        ServerCommand::ConfigGet(patterns) => {
            out.put("config get")?;
            put_all(out, patterns)
        }
        ServerCommand::SlowLogLen => out.put("slowlog len"),
        ServerCommand::SlowLogGet(most) => put_slow_log_get(out, most),
        ServerCommand::SlowLogReset => out.put("slowlog reset"),
        ServerCommand::Info(sections) => {
            out.put("info")?;
            put_all(out, sections)
        }
        ServerCommand::Scan(scan) => put_scan(out, scan),
        ServerCommand::FlushAll => out.put("flushall"),
        ServerCommand::FlushDb => out.put("flushdb"),
        client => put_client(out, client),
    }
}
