//! What a request asks for, in words: the command's name, its keys and values, and what its options come to.

use crate::reply::Reply;
use crate::server_request::put_server;
use commands::{Arguments, Change, Command, Lifetime, Name, Only, Where};
use std::alloc::AllocError;

pub(crate) fn put_all(out: &mut Reply, arguments: Arguments<'_>) -> Result<(), AllocError> {
    for index in 0..arguments.len() {
        if let Some(argument) = arguments.get(index) {
            out.put_bytes(argument)?;
        }
    }
    Ok(())
}

/// Puts a command's name, and its key.
fn put_key(out: &mut Reply, name: &str, key: &[u8]) -> Result<(), AllocError> {
    out.put(name)?;
    out.put_bytes(key)
}

fn put_change(out: &mut Reply, change: Change) -> Result<(), AllocError> {
    match change.to {
        Where::Always => {}
        Where::Absent => out.put("nx")?,
        Where::Present => out.put("xx")?,
    }
    if change.get {
        out.put("get")?;
    }
    match change.lifetime {
        Lifetime::Keep => out.put("keepttl"),
        Lifetime::Forever => Ok(()),
        Lifetime::Until(deadline) => out.put_count("until", deadline),
    }
}

fn put_lifetime(out: &mut Reply, lifetime: Lifetime) -> Result<(), AllocError> {
    match lifetime {
        Lifetime::Keep => Ok(()),
        Lifetime::Forever => out.put("persist"),
        Lifetime::Until(deadline) => out.put_count("until", deadline),
    }
}

fn put_only(out: &mut Reply, only: Only) -> Result<(), AllocError> {
    let words = [
        ("nx", only.absent),
        ("xx", only.present),
        ("gt", only.later),
        ("lt", only.earlier),
    ];
    for (word, is_said) in words {
        if is_said {
            out.put(word)?;
        }
    }
    Ok(())
}

/// Commands whose arguments are their own.
fn put_special(out: &mut Reply, command: Command<'_>) -> Result<(), AllocError> {
    match command {
        Command::Set { key, value, change } => {
            put_key(out, "set", key)?;
            out.put_bytes(value)?;
            put_change(out, change)
        }
        Command::GetEx { key, lifetime } => {
            put_key(out, "getex", key)?;
            put_lifetime(out, lifetime)
        }
        Command::GetRange { key, first, last } => {
            put_key(out, "getrange", key)?;
            out.put_signed(first)?;
            out.put_signed(last)
        }
        Command::SetRange { key, offset, value } => {
            put_key(out, "setrange", key)?;
            out.put_number(offset)?;
            out.put_bytes(value)
        }
        Command::Add { key, by } => {
            put_key(out, "add", key)?;
            out.put_signed(by)
        }
        Command::AddFloat { key, by } => {
            put_key(out, "addfloat", key)?;
            out.put_bytes(by)
        }
        Command::Expire {
            key,
            deadline,
            only,
        } => {
            put_key(out, "expire", key)?;
            out.put_count("until", deadline)?;
            put_only(out, only)
        }
        _ => Ok(()),
    }
}

/// Puts the command.
pub(crate) fn put_command(out: &mut Reply, command: Command<'_>) -> Result<(), AllocError> {
    match command {
        Command::Nothing(of) => out.put(Name::Nothing(of).text()),
        Command::Key(of, key) => put_key(out, Name::Key(of).text(), key),
        Command::Keys(of, keys) => {
            out.put(Name::Keys(of).text())?;
            put_all(out, keys)
        }
        Command::Pair(of, key, value) => {
            put_key(out, Name::Pair(of).text(), key)?;
            out.put_bytes(value)
        }
        Command::Number(of, key, number) => {
            put_key(out, Name::Number(of).text(), key)?;
            out.put_signed(number)
        }
        Command::SetMany(pairs) => {
            out.put("mset")?;
            put_all(out, pairs)
        }
        Command::Ping(None) => out.put("ping"),
        Command::Ping(Some(text)) => put_key(out, "ping", text),
        Command::Echo(text) => put_key(out, "echo", text),
        Command::Quit => out.put("quit"),
        Command::Server(asked) => put_server(out, asked),
        other => put_special(out, other),
    }
}
