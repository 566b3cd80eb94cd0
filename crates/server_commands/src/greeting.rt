//! Replies that are the same for every server of this kind, and errors.
ghost use Rattle.std.specs.Prelude.{◌≡◌, [], ◌∷◌, ◌++◌, ℕ, List, codes, OnOk, OnErr};
ghost use Rattle.resp.specs.Replies.{token, Failure, Number, String, Count};
ghost use Rattle.server_commands.specs.Replying.{Replies, Tells, Grows};
ghost use Rattle.server_commands.specs.Greeting.{greeting as greeting_lem};

use crate::facts::REDIS_VERSION;
use crate::reply_parts::{put_count, put_number, put_string, put_word, restored};
use commands::CommandFault;
use resp::push_failure;
use std::alloc::AllocError;

/// A name, and a number.
fn put_figure(name: &str, number: i64, out: &mut Vec<u8>) -> Result<(), AllocError>
    ensures told { OnOk result (Tells (String name.now ∷ Number number ∷ []) out.old.items out.new.items) }
    ensures grown { Grows out.old.items out.new.items }
{
    put_string(name.as_bytes(), out)?;
    put_number(number, out)
}

/// No modules.
fn put_modules(out: &mut Vec<u8>) -> Result<(), AllocError>
    ensures told { OnOk result (Tells (String (codes "modules") ∷ Count 0 ∷ []) out.old.items out.new.items) }
    ensures grown { Grows out.old.items out.new.items }
{
    put_string(b"modules", out)?;
    put_count(0, out)
}

fn put_greeting(client: u64, out: &mut Vec<u8>) -> Result<(), AllocError>
    ensures told { OnOk result (Tells (greeting_lem client) out.old.items out.new.items) }
    ensures grown { Grows out.old.items out.new.items }
{
    let id = client.min(i64::MAX as u64) as i64;
    put_count(14, out)?;
    put_word("server", "redis", out)?;
    put_word("version", REDIS_VERSION, out)?;
    put_figure("proto", 2, out)?;
    put_figure("id", id, out)?;
    put_word("mode", "standalone", out)?;
    put_word("role", "master", out)?;
    put_modules(out)
}

/// HELLO of protocol 2: an array of seven names, each with its value behind it. `client` is the connection's number, of which
/// one from 2^63 on is answered as 2^63 - 1. After want of memory `out` has what it had.
pub fn hello(client: u64, out: &mut Vec<u8>) -> Result<(), AllocError>
    ensures told { OnOk result (Tells (greeting_lem client) out.old.items out.new.items) }
    ensures done { OnOk result (Replies 1 out.old.items out.new.items) }
    ensures kept { OnErr result (out.new.items ≡ out.old.items) }
{
    let before = out.len();
    let done = put_greeting(client, out);
    restored(done, before, out)
}

/// The error's text, as `CommandFault::push_text` has it, which has neither CR nor LF. After want of memory `out` has what it had.
pub fn fault(fault: CommandFault<'_>, out: &mut Vec<u8>) -> Result<(), AllocError>
    ensures done { OnOk result ((text : List ℕ) × (out.new.items ≡ out.old.items ++ token (Failure text))) }
    ensures kept { OnErr result (out.new.items ≡ out.old.items) }
{
    let mut text = Vec::new(*out.allocator());
    fault.push_text(&mut text)?;
    push_failure(out, text.as_slice())
}
