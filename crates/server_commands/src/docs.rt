//! COMMAND DOCS.
ghost use Rattle.std.specs.Prelude.{◌≡◌, ◌≤◌, ◌*◌, length, count_by, OnOk, OnErr};
ghost use Rattle.server_commands.specs.Replying.{Replies, Grows};

use crate::reply_parts::{count_asked, put_count, put_string, put_word, restored};
use commands::{Arguments, COMMANDS, Entry, commands};
use std::alloc::AllocError;

/// The command's name, and what it is.
fn put_doc(entry: &Entry, out: &mut Vec<u8>) -> Result<(), AllocError>
    ensures done { OnOk result (Replies 2 out.old.items out.new.items) }
    ensures grown { Grows out.old.items out.new.items }
{
    let (name, row, since, summary) = entry;
    put_string(name.as_bytes(), out)?;
    put_count(6, out)?;
    put_word("summary", summary, out)?;
    put_word("since", since, out)?;
    put_word("group", row.group.word(), out)
}

/// Whether the command is asked for by one of the names, in upper or lower case; without a name, each is.
fn is_asked_for(command: &str, names: Arguments<'_>) -> bool {
    for index in 0..names.len() {
        if let Some(name) = names.get(index)
            && name.eq_ignore_ascii_case(command.as_bytes())
        {
            return true;
        }
    }
    names.is_empty()
}

fn asked_for(names: Arguments<'_>) -> [bool; COMMANDS] {
    let mut asked = [false; COMMANDS];
    for (mark, entry) in asked.iter_mut().zip(commands()) {
        *mark = is_asked_for(entry.0, names);
    }
    asked
}

/// Those of the entries that are asked for.
fn put_docs(entries: &[Entry], asked: &[bool], out: &mut Vec<u8>) -> Result<(), AllocError>
    requires same { length asked.now ≡ length entries.now }
    requires few { length entries.now ≤ COMMANDS }
    ensures done { OnOk result (Replies 1 out.old.items out.new.items) }
    ensures grown { Grows out.old.items out.new.items }
{
    put_count(2 * count_asked(asked), out)?;
    for (index, entry) in entries.iter().enumerate() {
        if asked[index] {
            put_doc(entry, out)?;
        }
    }
    Ok(())
}

/// COMMAND DOCS: an array of names, each with an array behind it that has `summary`, `since` and `group`, each with its text.
/// It tells of the commands with one of these names, in upper or lower case, and of all where there is no name; of each once,
/// in the order of COMMAND, so a long list of names has no longer a reply. A name that no command has is passed over. After
/// want of memory `out` has what it had.
pub fn command_docs(names: Arguments<'_>, out: &mut Vec<u8>) -> Result<(), AllocError>
    ensures done { OnOk result (Replies 1 out.old.items out.new.items) }
    ensures kept { OnErr result (out.new.items ≡ out.old.items) }
{
    let before = out.len();
    let asked = asked_for(names);
    let done = put_docs(commands(), &asked, out);
    restored(done, before, out)
}
