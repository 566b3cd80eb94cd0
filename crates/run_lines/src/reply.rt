//! A reply as a line.
ghost use Rattle.std.specs.Prelude.{◌≡◌, ◌++◌, [], ◌∷◌, OnOk};
ghost use Rattle.run_lines.specs.Replies.{line_of};

use crate::refusal::LineRefusal;
use far_object::{Memory, Text};

/// The text of a reply: the value, `none`, or why the command was refused.
pub fn reply_text(reply: &Result<Option<Text>, LineRefusal>) -> &[u8]
    ensures { result.now ≡ line_of reply.now }
{
    match reply {
        Ok(Some(value)) => value.as_bytes(),
        Ok(None) => b"none",
        Err(refusal) => refusal.text(),
    }
}

/// Puts a line and its LF behind the others. After `Memory` a part of it may stand there.
pub fn push_line(lines: &mut Vec<u8>, line: &[u8]) -> Result<(), Memory>
    ensures { OnOk result (lines.new.items ≡ lines.old.items ++ (line.now ++ 10 ∷ [])) }
{
    lines.extend_from_slice(line)?;
    lines.push(b'\n')?;
    Ok(())
}
