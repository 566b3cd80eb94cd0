//! SLOWLOG: commands that took long, as they are kept and replied.
//!
//! What is kept of a command is cut as Redis cuts it: 32 arguments at most, and 128 bytes of each. So what a
//! server keeps of its slow commands is bounded, whatever clients send.
ghost use Rattle.std.specs.Prelude.{◌≡◌, ◌++◌, ◌<◌, ◌≤◌, pos, vec_len, IfOk, IsTrue, OnOk, OnErr};
ghost use Rattle.resp.specs.Replies.{token, Number};
ghost use Rattle.server_commands.specs.Replying.{Replies, Grows};
ghost use Rattle.server_commands.specs.SlowLog.{redacted, IsRedacted};

use crate::reply_parts::{put_count, put_number, put_string, restored};
use commands::Arguments;
use itoa::Buffer;
use resp::push_number;
use std::alloc::{AllocError, Global};

/// How many commands SLOWLOG has at most.
pub const SLOW_COMMANDS: usize = 128;

/// How many arguments of a command are kept at most, its name among them. If it has more, the last one says
/// how many.
const ARGUMENTS: usize = 32;

/// How many bytes of an argument are kept at most. If it has more, a text behind them says how many.
const BYTES: usize = 128;

/// A command that took long.
#[derive(Drop)]
pub struct SlowCommand {
    /// Its number among the slow commands of the server, from 0.
    pub id: u64,
    /// When it began, in seconds since 1970.
    pub began: u64,
    /// How long it took, in microseconds.
    pub took: u64,
    /// Its name and its arguments, as `kept_arguments` has them.
    pub arguments: Vec<Vec<u8>>,
    /// The client's address, for example `127.0.0.1:40000`.
    pub address: Vec<u8>,
    /// The client's name, which is empty if it has none.
    pub name: Vec<u8>,
}

/// `... (COUNT more WHAT)`.
fn push_more(count: usize, what: &[u8], text: &mut Vec<u8>) -> Result<(), AllocError> {
    let mut digits = Buffer::new();
    text.extend_from_slice(b"... (")?;
    text.extend_from_slice(digits.format(count).as_bytes())?;
    text.extend_from_slice(b" more ")?;
    text.extend_from_slice(what)?;
    text.extend_from_slice(b")")
}

/// An argument, cut after its first 128 bytes.
fn cut_argument(alloc: Global, argument: &[u8]) -> Result<Vec<u8>, AllocError> {
    let mut cut = Vec::from_slice(alloc, &argument[..argument.len().min(BYTES)])?;
    let more = argument.len().saturating_sub(BYTES);
    if more > 0 {
        push_more(more, b"bytes", &mut cut)?;
    }
    Ok(cut)
}

/// What is kept of the argument at this place. The last one that is kept stands for those behind it too.
fn kept_argument(
    alloc: Global,
    request: Arguments<'_>,
    index: usize,
    is_secret: bool,
) -> Result<Vec<u8>, AllocError>
    ensures { IfOk result (λ kept. IsTrue is_secret → 0 < index → kept.items ≡ redacted) }
{
    if is_secret && index > 0 {
        return Vec::from_slice(alloc, b"(redacted)");
    }
    let count = request.len();
    if count > ARGUMENTS && index == ARGUMENTS - 1 {
        let mut more = Vec::new(alloc);
        push_more(count - index, b"arguments", &mut more)?;
        return Ok(more);
    }
    match request.get(index) {
        Some(argument) => cut_argument(alloc, argument),
        None => Ok(Vec::new(alloc)),
    }
}

/// What SLOWLOG keeps of a request: its first 32 arguments, with the command's name, and the first 128 bytes of
/// each. `... (N more bytes)` and `... (N more arguments)` say how many are left out. If `is_secret` is set, each
/// argument behind the name is `(redacted)`.
pub fn kept_arguments(
    alloc: Global,
    request: Arguments<'_>,
    is_secret: bool,
) -> Result<Vec<Vec<u8>>, AllocError>
    ensures few { IfOk result (λ kept. vec_len kept ≤ 32) }
    ensures hidden { IfOk result (λ kept. IsTrue is_secret → IsRedacted kept.items) }
{
    let mut kept = Vec::new(alloc);
    for index in 0..request.len().min(ARGUMENTS) {
        kept.push(kept_argument(alloc, request, index, is_secret)?)?;
    }
    Ok(kept)
}

/// A number from 2^63 on is replied as 2^63 - 1.
fn put_large(number: u64, out: &mut Vec<u8>) -> Result<(), AllocError>
    ensures done { OnOk result (Replies 1 out.old.items out.new.items) }
    ensures grown { Grows out.old.items out.new.items }
{
    put_number(number.min(i64::MAX as u64) as i64, out)
}

fn put_arguments(arguments: &[Vec<u8>], out: &mut Vec<u8>) -> Result<(), AllocError>
    ensures done { OnOk result (Replies 1 out.old.items out.new.items) }
    ensures grown { Grows out.old.items out.new.items }
{
    put_count(arguments.len(), out)?;
    for argument in arguments {
        put_string(argument.as_slice(), out)?;
    }
    Ok(())
}

/// Who sent the command: the address, and the name.
fn put_client(command: &SlowCommand, out: &mut Vec<u8>) -> Result<(), AllocError>
    ensures done { OnOk result (Replies 2 out.old.items out.new.items) }
    ensures grown { Grows out.old.items out.new.items }
{
    put_string(command.address.as_slice(), out)?;
    put_string(command.name.as_slice(), out)
}

/// The command's number, when it began, and how long it took.
fn put_times(command: &SlowCommand, out: &mut Vec<u8>) -> Result<(), AllocError>
    ensures done { OnOk result (Replies 3 out.old.items out.new.items) }
    ensures grown { Grows out.old.items out.new.items }
{
    put_large(command.id, out)?;
    put_large(command.began, out)?;
    put_large(command.took, out)
}

fn put_command(command: &SlowCommand, out: &mut Vec<u8>) -> Result<(), AllocError>
    ensures done { OnOk result (Replies 1 out.old.items out.new.items) }
    ensures grown { Grows out.old.items out.new.items }
{
    put_count(6, out)?;
    put_times(command, out)?;
    put_arguments(command.arguments.as_slice(), out)?;
    put_client(command, out)
}

fn put_commands(commands: &[SlowCommand], out: &mut Vec<u8>) -> Result<(), AllocError>
    ensures done { OnOk result (Replies 1 out.old.items out.new.items) }
    ensures grown { Grows out.old.items out.new.items }
{
    put_count(commands.len(), out)?;
    for command in commands {
        put_command(command, out)?;
    }
    Ok(())
}

/// SLOWLOG GET: an array with an entry of six for each of these commands, in their order: its number, when it began, how
/// long it took, an array of its arguments, the client's address and the client's name. After want of memory `out` has what
/// it had.
pub fn slow_log_get(commands: &[SlowCommand], out: &mut Vec<u8>) -> Result<(), AllocError>
    ensures done { OnOk result (Replies 1 out.old.items out.new.items) }
    ensures kept { OnErr result (out.new.items ≡ out.old.items) }
{
    let before = out.len();
    let done = put_commands(commands, out);
    restored(done, before, out)
}

/// SLOWLOG LEN: how many commands there are. After want of memory `out` has what it had.
pub fn slow_log_len(count: u32, out: &mut Vec<u8>) -> Result<(), AllocError>
    ensures done { OnOk result (out.new.items ≡ out.old.items ++ token (Number (pos count))) }
    ensures kept { OnErr result (out.new.items ≡ out.old.items) }
{
    push_number(out, i64::from(count))
}
