//! COMMAND and COMMAND COUNT.
ghost use Rattle.std.specs.Prelude.{◌≡◌, ◌++◌, pos, OnOk, OnErr};
ghost use Rattle.resp.specs.Replies.{token, Number};
ghost use Rattle.server_commands.specs.Replying.{Replies, Grows};

use crate::reply_parts::{put_count, put_line, put_number, put_string, restored};
use commands::{COMMANDS, Entry, Keys, commands};
use resp::push_number;
use std::alloc::AllocError;

fn put_lines(words: &[&str], out: &mut Vec<u8>) -> Result<(), AllocError>
    ensures done { OnOk result (Replies 1 out.old.items out.new.items) }
    ensures grown { Grows out.old.items out.new.items }
{
    put_count(words.len(), out)?;
    for word in words {
        put_line(word.as_bytes(), out)?;
    }
    Ok(())
}

fn put_places(keys: Keys, out: &mut Vec<u8>) -> Result<(), AllocError>
    ensures done { OnOk result (Replies 3 out.old.items out.new.items) }
    ensures grown { Grows out.old.items out.new.items }
{
    let (first, last, step) = keys.places();
    put_number(first, out)?;
    put_number(last, out)?;
    put_number(step, out)
}

/// The name, how many words there are, the flags, and where the keys are.
fn put_entry(entry: &Entry, out: &mut Vec<u8>) -> Result<(), AllocError>
    ensures done { OnOk result (Replies 1 out.old.items out.new.items) }
    ensures grown { Grows out.old.items out.new.items }
{
    put_count(6, out)?;
    let (name, row, _, _) = entry;
    put_string(name.as_bytes(), out)?;
    put_number(row.arity, out)?;
    put_lines(row.flags.words(), out)?;
    put_places(row.keys, out)
}

fn put_list(entries: &[Entry], out: &mut Vec<u8>) -> Result<(), AllocError>
    ensures done { OnOk result (Replies 1 out.old.items out.new.items) }
    ensures grown { Grows out.old.items out.new.items }
{
    put_count(entries.len(), out)?;
    for entry in entries {
        put_entry(entry, out)?;
    }
    Ok(())
}

/// COMMAND: an array with an entry of six for each command, as Redis 6 has them: its name, how many words it has with the name
/// (below zero: so many or more), its flags, and the first key's place, the last one's and the step. After want of memory `out`
/// has what it had.
pub fn command_list(out: &mut Vec<u8>) -> Result<(), AllocError>
    ensures done { OnOk result (Replies 1 out.old.items out.new.items) }
    ensures kept { OnErr result (out.new.items ≡ out.old.items) }
{
    let before = out.len();
    let done = put_list(commands(), out);
    restored(done, before, out)
}

/// COMMAND COUNT: how many entries COMMAND has. After want of memory `out` has what it had.
pub fn command_count(out: &mut Vec<u8>) -> Result<(), AllocError>
    ensures done { OnOk result (out.new.items ≡ out.old.items ++ token (Number (pos COMMANDS))) }
    ensures kept { OnErr result (out.new.items ≡ out.old.items) }
{
    push_number(out, COMMANDS as i64)
}
